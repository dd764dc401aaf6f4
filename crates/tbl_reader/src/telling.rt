//! What is said of what was read, to who sets the tables.
ghost use Rattle.std.specs.Prelude.{◌≡◌, Bool};
ghost use Rattle.tbl_reader.specs.Telling.{Piece, Tells, said};

use super::complaint::Complaint;
use super::field::Mark;
use super::formats::Called;
use super::options::Options;

/// What is said, beside a text.
#[derive(Clone, Copy)]
pub enum Tell {
    /// The text goes out as it is.
    Pass,
    /// A table begins, with `.TS` on this line.
    Table(u64),
    /// Its options.
    Options(Options),
    /// New formats begin.
    Formats,
    /// What a byte of formats says.
    Format(Called),
    /// The formats end.
    FormatsEnd,
    /// The text is a field, with so many bytes before the place where it is aligned.
    Field(Option<usize>),
    /// A field without a text.
    Mark(Mark),
    /// A field that is a text block begins.
    Block,
    /// The text is a part of it.
    BlockText,
    /// It ends.
    BlockEnd,
    /// A row ends.
    Row,
    /// A rule across the table.
    Rule,
    /// The text is a request between rows.
    Request,
    /// The table ends.
    TableEnd,
    /// The table isn't set further: lines follow that stand as they are.
    Plain,
    /// They end.
    PlainEnd,
    /// Something is wrong.
    Wrong(Complaint),
}

/// Sets tables, and lets pass what is outside of them.
pub trait Setter {
    /// What may be known of it.
    ghost Shown: { Type 0 };

    /// It may be known so.
    ghost shows: { Self → Self.Shown → Type 0 };

    /// What is known of it once it has heard a piece.
    ghost hears: { Piece → Self.Shown → Self.Shown };

    /// What it heard could not be put out.
    ghost failed: { Self → Bool };

    /// Hears what was read.
    fn tell(&mut self, tell: Tell, text: &[u8])
        ensures { Tells Self.shows Self.hears (said tell text.now) self.old self.new };

    /// Whether something that it heard could not be put out. It may pass over what it hears from then on.
    fn has_failed(&self) -> bool
        ensures { result ≡ Self.failed self.now };
}
