//! What goes out: bytes wait until there is no room for more, and then go to a sink. After a call of the sink that failed
//! nothing more goes. What is done where there is no room is never built into the calls that wait, which would be longer.
ghost use Rattle.std.specs.Prelude.{◌≡◌, ◌++◌, ◌∷◌, [], replicate, true, false, decimal, codes, OnOk, OnErr};
ghost use Rattle.tbl_drawing.specs.Pens as pens;
ghost use Rattle.tbl_drawing.specs.Pens.{Bytes};
ghost use Rattle.tbl_drawing.specs.Tapes.{Draws};
ghost use Rattle.tbl_drawing.specs.Writing as specs;

use super::pen::Pen;
use nr_units::sink::Sink;
use nr_units::source::Fault;
use nr_vectors::FixedVec;
use std::marker::Model;

/// What is to go out, and where to.
#[derive(Drop)]
pub struct Out<'a, W: Sink> {
    /// What waits.
    pending: &'a mut FixedVec<u8>,
    /// Where it goes.
    sink: W,
    /// The sink failed.
    failed: bool,
    /// Where the line stands that is drawn.
    pen: Pen,
}

impl<'a, W: Sink> Model for Out<'a, W> {
    ghost use Rattle.tbl_drawing.specs.Tapes.{Tape};

    ghost Value = { Tape };

    ghost view = { λ o. record {
      held = W.held o.sink;
      failures = W.failures o.sink;
      pending = o.pending.now.items;
      failed = o.failed;
      pen = o.pen;
    } };
}

/// A piece of a line.
#[derive(Clone, Copy)]
pub(crate) enum Piece<'a> {
    /// Bytes.
    T(&'a [u8]),
    /// A number.
    N(usize),
}

impl<'a, W: Sink> Out<'a, W> {
    /// Nothing waits but what `pending` has, which is room for what is to.
    pub fn over(pending: &'a mut FixedVec<u8>, sink: W) -> Self
        ensures { result ≡ record {
          held = W.held sink;
          failures = W.failures sink;
          pending = pending.entry.now.items;
          failed = false;
          pen = pens.first;
        } }
    {
        Out {
            pending,
            sink,
            failed: false,
            pen: Pen::new(),
        }
    }

    /// Whether the sink failed.
    pub fn returned(&self) -> Result<(), Fault>
        ensures ok { OnOk result (self.now.failed ≡ false) }
        ensures err { OnErr result (self.now.failed ≡ true) }
    {
        if self.failed { Err(Fault) } else { Ok(()) }
    }

    /// Where the line stands that is drawn.
    pub(crate) fn pen(&self) -> Pen
        ensures { result ≡ self.now.pen }
    {
        self.pen
    }

    /// The pen stands elsewhere.
    pub(crate) fn set_pen(&mut self, pen: Pen)
        ensures { self.new ≡ record self.old { pen = pen } }
    {
        self.pen = pen;
    }

    /// What waits goes out.
    #[cold]
    #[inline(never)]
    fn send(&mut self)
        ensures draws { Draws self.old self.new (Bytes [] ∷ []) }
        ensures empty { self.new.failed ≡ false → self.new.pending ≡ [] }
    {
        if self.failed {
            return;
        }
        match self.sink.put(self.pending.as_slice()) {
            Ok(()) => self.pending.clear(),
            Err(Fault) => self.failed = true,
        }
    }

    /// All that waits goes out: a fault where the sink failed, now or before.
    pub fn flush(&mut self) -> Result<(), Fault>
        ensures draws { Draws self.old self.new (Bytes [] ∷ []) }
        ensures ok { OnOk result (self.new.failed ≡ false) }
        ensures empty { OnOk result (self.new.pending ≡ []) }
        ensures err { OnErr result (self.new.failed ≡ true) }
    {
        self.send();
        self.returned()
    }

    /// The sink. What waits is lost.
    pub fn into_sink(self) -> W
        ensures held { W.held result ≡ self.entry.held }
        ensures failures { W.failures result ≡ self.entry.failures }
    {
        self.sink
    }

    /// Bytes go out: a fault where the sink failed, now or before.
    pub fn put(&mut self, bytes: &[u8]) -> Result<(), Fault>
        ensures draws { Draws self.old self.new (Bytes bytes.now ∷ []) }
        ensures ok { OnOk result (self.new.failed ≡ false) }
        ensures err { OnErr result (self.new.failed ≡ true) }
    {
        self.add(bytes);
        self.returned()
    }

    /// Bytes go out where none wait.
    #[cold]
    #[inline(never)]
    fn pass(&mut self, bytes: &[u8])
        requires { self.old.failed ≡ false → self.old.pending ≡ [] }
        ensures { Draws self.old self.new (Bytes bytes.now ∷ []) }
    {
        if self.failed {
            return;
        }
        match self.sink.put(bytes) {
            Ok(()) => {}
            Err(Fault) => self.failed = true,
        }
    }

    /// Bytes go out: where there is no room for them, after all that waits.
    pub(crate) fn add(&mut self, bytes: &[u8])
        ensures { Draws self.old self.new (Bytes bytes.now ∷ []) }
    {
        if self.failed {
            return;
        }
        if self.pending.capacity() - self.pending.len() >= bytes.len() {
            self.pending.extend(bytes);
            return;
        }
        self.send();
        self.pass(bytes);
    }

    /// A byte so many times, one after the other.
    #[cold]
    #[inline(never)]
    fn repeat_each(&mut self, byte: u8, count: usize)
        ensures { Draws self.old self.new (Bytes (replicate count byte) ∷ []) }
    {
        for _place in 0..count {
            self.add(&[byte]);
        }
    }

    /// A byte so many times.
    #[inline(always)]
    pub(crate) fn repeat(&mut self, byte: u8, count: usize)
        ensures { Draws self.old self.new (Bytes (replicate count byte) ∷ []) }
    {
        if !self.failed && self.pending.capacity() - self.pending.len() >= count {
            self.pending.extend_copies(byte, count);
            return;
        }
        self.repeat_each(byte, count);
    }

    /// A number.
    pub(crate) fn number(&mut self, number: usize)
        ensures { Draws self.old self.new (Bytes (decimal number) ∷ []) }
    {
        let mut digits = itoa::Buffer::new();
        self.add(digits.format(number).as_bytes());
    }

    /// A request, or a part of one.
    pub(crate) fn ask(&mut self, bytes: &[u8])
        ensures { Draws self.old self.new (Bytes bytes.now ∷ []) }
    {
        self.add(bytes);
    }

    /// That, if it is to.
    pub(crate) fn ask_if(&mut self, asked: bool, bytes: &[u8])
        ensures { Draws self.old self.new (Bytes (specs.text_if asked bytes.now) ∷ []) }
    {
        if asked {
            return self.ask(bytes);
        }
        self.ask(b"");
    }

    /// A piece of one.
    fn piece(&mut self, piece: Piece<'_>)
        ensures { Draws self.old self.new (Bytes (specs.piece_text piece.entry) ∷ []) }
    {
        match piece {
            Piece::T(bytes) => self.add(bytes),
            Piece::N(number) => self.number(number),
        }
    }

    /// Pieces.
    pub(crate) fn pieces(&mut self, pieces: &[Piece<'_>])
        ensures { Draws self.old self.new (Bytes (specs.texts_of pieces.now) ∷ []) }
    {
        for piece in pieces {
            self.piece(*piece);
        }
    }

    /// Pieces, and the end of a line.
    pub(crate) fn line(&mut self, pieces: &[Piece<'_>])
        ensures { Draws self.old self.new (Bytes (specs.texts_of pieces.now ++ codes "\n") ∷ []) }
    {
        self.pieces(pieces);
        self.ask(b"\n");
    }
}
