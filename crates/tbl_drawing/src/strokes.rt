//! What goes out for a line that is drawn from the left to the right.
ghost use Rattle.std.specs.Prelude.{◌∷◌, [], None};
ghost use Rattle.tbl_drawing.specs.Pens as specs;
ghost use Rattle.tbl_drawing.specs.Tapes.{Draws};

use super::pen::Pen;
use super::writing::Out;
use nr_units::sink::Sink;

impl<'a, W: Sink> Out<'a, W> {
    /// A line begins.
    pub(crate) fn start(&mut self)
        ensures { Draws self.old self.new (specs.Start ∷ []) }
    {
        self.set_pen(Pen::new());
    }

    /// Blanks go out.
    #[inline(always)]
    #[tactic(auto, using(crate::proofs::Tapes::draws_no_blanks))]
    fn release(&mut self)
        ensures { Draws self.old self.new (specs.Release ∷ []) }
    {
        let pen = self.pen();
        if pen.blanks == 0 {
            return;
        }
        self.ask_if(!pen.begun, b"\\&");
        self.repeat(b' ', pen.blanks);
        self.set_pen(pen.released());
    }

    /// The line goes on where only the formatter knows.
    pub(crate) fn leave(&mut self)
        ensures { Draws self.old self.new (specs.Leave ∷ []) }
    {
        self.release();
        let pen = self.pen();
        self.set_pen(pen.gone(None));
    }

    /// It goes on at a place, by a motion.
    #[inline(never)]
    fn jump(&mut self, place: usize)
        ensures { Draws self.old self.new (specs.Jump place ∷ []) }
    {
        self.release();
        self.add(b" ");
        self.add(b"\\h'|");
        self.number(place);
        self.add(b"n'");
        let pen = self.pen();
        self.set_pen(pen.gone(Some(place)));
    }

    /// It goes on at a place.
    #[inline(always)]
    pub(crate) fn to(&mut self, place: usize)
        ensures { Draws self.old self.new (specs.To place ∷ []) }
    {
        let pen = self.pen();
        match pen.steps_to(place) {
            Some(cells) => self.set_pen(pen.moved(cells, place)),
            None => self.jump(place),
        }
    }

    /// A rule of this byte up to a place, by the formatter.
    fn rule(&mut self, byte: u8, place: usize)
        ensures { Draws self.old self.new (specs.Rule byte place ∷ []) }
    {
        self.add(b"\\l'|");
        self.number(place);
        self.add(&[b'n', byte, b'\'']);
        let pen = self.pen();
        self.set_pen(pen.gone(Some(place)));
    }

    /// A rule of so many cells, up to a place.
    fn dashes(&mut self, byte: u8, cells: usize, place: usize)
        ensures { Draws self.old self.new (specs.Dashes byte cells place ∷ []) }
    {
        self.repeat(byte, cells);
        let pen = self.pen();
        self.set_pen(pen.dashed(cells, place));
    }

    /// A rule up to a place, by bytes if the place shows.
    fn dash_to(&mut self, byte: u8, place: usize)
        ensures { Draws self.old self.new (specs.DashTo byte place ∷ []) }
    {
        let pen = self.pen();
        match pen.steps_to(place) {
            Some(cells) => self.dashes(byte, cells, place),
            None => self.rule(byte, place),
        }
    }

    /// A rule up to a place.
    pub(crate) fn dash(&mut self, byte: u8, place: usize)
        ensures { Draws self.old self.new (specs.dash byte place) }
    {
        self.release();
        self.dash_to(byte, place);
    }

    /// A control character that begins a line is none.
    #[tactic(auto, using(crate::proofs::Tapes::draws_no_guard))]
    fn guard(&mut self, first: u8)
        ensures { Draws self.old self.new (specs.Guard first ∷ []) }
    {
        let pen = self.pen();
        if !pen.begun && (first == b'.' || first == b'\'') {
            self.add(b"\\&");
        }
    }

    /// Text begins.
    fn mark_begun(&mut self)
        ensures { Draws self.old self.new (specs.Begun ∷ []) }
    {
        let pen = self.pen();
        self.set_pen(pen.gone(pen.at));
    }

    /// Before bytes that stand in the line, of which this is the first: a control character at its beginning is none.
    #[inline(always)]
    pub(crate) fn begin(&mut self, first: u8)
        ensures { Draws self.old self.new (specs.begin first) }
    {
        self.release();
        self.guard(first);
        self.mark_begun();
    }

    /// So many cells were drawn, or nobody knows.
    pub(crate) fn passed(&mut self, cells: Option<usize>)
        ensures { Draws self.old self.new (specs.Pass cells ∷ []) }
    {
        let pen = self.pen();
        self.set_pen(pen.passed(cells));
    }

    /// Bars, or what stands for them where rules meet them.
    pub(crate) fn bars(&mut self, byte: u8, count: usize)
        ensures { Draws self.old self.new (specs.bars byte count) }
    {
        self.begin(byte);
        self.repeat(byte, count);
        self.passed(Some(count));
    }

    /// A byte that is repeated up to a place, by the formatter.
    fn fill_by_escape(&mut self, byte: u8, place: usize)
        ensures { Draws self.old self.new (specs.FillByEscape byte place ∷ []) }
    {
        self.add(b"\\l'|");
        self.number(place);
        self.add(&[b'n', byte, b'\'']);
        let pen = self.pen();
        self.set_pen(pen.gone(None));
    }

    /// A byte so many times, up to a place.
    fn copies(&mut self, byte: u8, cells: usize, place: usize)
        ensures { Draws self.old self.new (specs.Copies byte cells place ∷ []) }
    {
        self.repeat(byte, cells);
        let pen = self.pen();
        self.set_pen(pen.gone(Some(place)));
    }

    /// A byte that is repeated up to a place, by bytes if the place shows. A backslash is repeated by the formatter.
    fn fill_to(&mut self, byte: u8, place: usize)
        ensures { Draws self.old self.new (specs.Fill byte place ∷ []) }
    {
        if byte == b'\\' {
            return self.fill_by_escape(byte, place);
        }
        let pen = self.pen();
        match pen.steps_to(place) {
            Some(cells) => self.copies(byte, cells, place),
            None => self.fill_by_escape(byte, place),
        }
    }

    /// A byte that is repeated up to a place.
    pub(crate) fn fill(&mut self, byte: u8, place: usize)
        ensures { Draws self.old self.new (specs.fill byte place) }
    {
        self.begin(byte);
        self.fill_to(byte, place);
    }

    /// The line ends.
    pub(crate) fn end(&mut self)
        ensures { Draws self.old self.new specs.end }
    {
        self.repeat(b'\n', 1);
    }
}
