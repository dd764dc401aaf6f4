// What is reported of a page.
ghost use Rattle.std.specs.Prelude.{◌≡◌, IfOk, length};
ghost use Rattle.man_lint.specs.Reporting as specs;

use filters_complaints::{Complaints, OpenBlock};
use nr_units::Name;
use std::alloc::{AllocError, Global};

/// What is wrong with a name of a line.
#[derive(Clone, Copy)]
pub enum Kind {
    /// Nothing defines this macro.
    NoMacro,
    /// Nothing defines this string.
    NoString,
    /// No escape begins so.
    NoEscape,
    /// This macro ends a block, and none that it ends is open.
    NotOpen,
    /// This macro opens a block, and so many are open that it is none.
    TooMany,
    /// The block of this macro is not ended.
    NotEnded,
    /// The page has no title, which this macro gives.
    NoTitle,
    /// It comes after other macros.
    LateTitle,
}

/// What is wrong with a line.
#[derive(Clone, Copy)]
pub struct Complaint {
    /// What.
    pub kind: Kind,
    /// With what.
    pub name: Name,
    /// The line, from 1 on.
    pub line: u64,
}

/// Room for so many complaints.
pub fn room_for(n: usize, alloc: Global) -> Result<Vec<Complaint>, AllocError>
    ensures { IfOk result (λ room. length room.items ≡ n) }
{
    let none = Complaint {
        kind: Kind::NotEnded,
        name: Name::new(),
        line: 0,
    };
    vec![in alloc; none; n]
}

/// Reports that nothing ends these blocks, at the lines where they were opened.
pub fn report_not_ended(blocks: &[OpenBlock], complaints: &mut Complaints<'_, Complaint>)
    ensures { complaints.new ≡ specs.not_ended blocks.now complaints.old }
{
    for block in blocks {
        complaints.report(Complaint {
            kind: Kind::NotEnded,
            name: block.name,
            line: block.line,
        });
    }
}
