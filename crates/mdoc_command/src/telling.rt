// What is reported of a page.
ghost use Rattle.std.specs.Prelude.{◌≡◌, IfOk, length};
ghost use Rattle.mdoc_command.specs.Telling as specs;

use filters_complaints::{Complaints, OpenBlock};
use nr_units::Name;
use std::alloc::{AllocError, Global};

/// What is wrong with a line, and the macros that it is about.
#[derive(Clone, Copy)]
pub enum Kind {
    /// No macro has this name, of which there is more or not.
    Unknown(Name, bool),
    /// This macro ends a block, and none that it ends is open.
    NotOpen(Name),
    /// This macro opens a block, and so many are open that it is none.
    TooMany(Name),
    /// The block of the first macro is ended before that of the second, which was opened in it.
    Nested(Name, Name),
    /// A heading or an item, the first macro, comes before the block of the second is ended.
    Broken(Name, Name),
    /// The block of this macro is not ended.
    NotEnded(Name),
    /// This macro stands outside of a list, or of one of columns.
    Outside(Name),
    /// The list or display of this macro has no kind.
    NoKind(Name),
    /// This macro doesn't know the word.
    BadWord(Name, Name),
    /// This macro has the word alone, which wants a section.
    NoSection(Name, Name),
    /// This macro prints nothing without words.
    Empty(Name),
    /// This macro takes no words.
    Words(Name),
    /// This macro comes after the first heading.
    Late(Name),
    /// A quote in the line of this macro isn't ended.
    OpenQuote(Name),
    /// This macro of the title comes again.
    Again(Name),
    /// A list or a display, the macro, has the word where none is left that it asks.
    Excess(Name, Name),
    /// This macro stands for the page's name, which has none.
    NoName(Name),
    /// The section NAME has no name before the macro of its description.
    Nameless(Name),
}

/// What is wrong with a line.
#[derive(Clone, Copy)]
pub struct Complaint {
    /// The fault, with the word of the line that it names.
    pub kind: Kind,
    /// The line, from 1 on.
    pub line: u64,
}

/// Room for so many complaints.
pub fn room_for(n: usize, alloc: Global) -> Result<Vec<Complaint>, AllocError>
    ensures { IfOk result (λ room. length room.items ≡ n) }
{
    let none = Complaint {
        kind: Kind::NotEnded(Name::new()),
        line: 0,
    };
    vec![in alloc; none; n]
}

/// Reports that the macro of a line ends these blocks, one after the other.
pub fn report_broken(
    by: Name,
    line: u64,
    blocks: &[OpenBlock],
    complaints: &mut Complaints<'_, Complaint>,
)
    ensures { complaints.new ≡ specs.broken by line blocks.now complaints.old }
{
    for block in blocks {
        complaints.report(Complaint {
            kind: Kind::Broken(by, block.name),
            line,
        });
    }
}

/// Reports that nothing ends these blocks, at the lines where they were opened.
pub fn report_not_ended(blocks: &[OpenBlock], complaints: &mut Complaints<'_, Complaint>)
    ensures { complaints.new ≡ specs.not_ended blocks.now complaints.old }
{
    for block in blocks {
        complaints.report(Complaint {
            kind: Kind::NotEnded(block.name),
            line: block.line,
        });
    }
}
