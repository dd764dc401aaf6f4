//! How far a text was read, and lines of it that name others.
ghost use Rattle.std.specs.Prelude.{◌≡◌, drop, IfOk, OnErr, true};
ghost use Rattle.std.specs.Option.{option_copied};
ghost use Rattle.document_sources.specs.Joining.{Follows, after_byte, going_out, line_begun, named};

use super::ahead::Ahead;
use super::folder::{Folder, Found, Why};
use super::names::so_name;
use super::omissions::Omissions;
use std::alloc::AllocError;

/// What is done with a line.
#[derive(Clone, Copy, PartialEq, Eq)]
pub(crate) enum Phase {
    /// It is read.
    Reads,
    /// All of it was read.
    Ends,
    /// It goes out.
    Gives,
}

/// How far a text was read.
#[derive(Clone, Copy)]
pub(crate) struct Standing {
    /// What is done with the line.
    pub phase: Phase,
    /// How many bytes of it went out.
    pub at: usize,
    /// It begins a line of the text; while it goes out, the next does.
    pub begins: bool,
    /// How many lines more are followed.
    pub files: usize,
    /// How many bytes more are read of the texts that they name.
    pub left: usize,
}

impl Standing {
    /// The next byte of the line was read: it ends the line or not, and the line is as long as one may be or not.
    pub fn after_byte(self, ends: bool, full: bool) -> Standing
        ensures { result ≡ after_byte ends full self }
    {
        if ends {
            Standing {
                phase: Phase::Ends,
                ..self
            }
        } else if full {
            Standing {
                phase: Phase::Gives,
                at: 0,
                begins: false,
                ..self
            }
        } else {
            self
        }
    }

    /// All of the line was read.
    pub fn ended(self) -> Standing
        ensures { result ≡ after_byte true true self }
    {
        Standing {
            phase: Phase::Ends,
            ..self
        }
    }

    /// The line goes out.
    pub fn going_out(self) -> Standing
        ensures { result ≡ going_out self }
    {
        Standing {
            phase: Phase::Gives,
            at: 0,
            begins: true,
            ..self
        }
    }

    /// A line of the text begins, or its rest.
    pub fn line_begun(self, begins: bool) -> Standing
        ensures { result ≡ line_begun begins self }
    {
        Standing {
            phase: Phase::Reads,
            at: 0,
            begins,
            ..self
        }
    }
}

/// What a line names, if it begins a line of the text.
pub(crate) fn named(begins: bool, line: &[u8]) -> Option<&[u8]>
    ensures { option_copied result ≡ named begins line.now }
{
    if begins { so_name(line) } else { None }
}

/// Follows a name: its text comes first from now on. Nothing is followed where there is no memory.
pub(crate) fn follow<F: Folder>(
    folder: &mut F,
    name: &[u8],
    standing: Standing,
    ahead: &mut Ahead,
    omissions: &mut Omissions<'_>,
) -> Result<Standing, AllocError>
    ensures texts { F.texts folder.new ≡ F.texts folder.old }
    ensures follows { IfOk result (λ next. Follows (F.texts folder.old) name.now standing next
        (drop ahead.old.taken ahead.old.text.items) (drop ahead.new.taken ahead.new.text.items)) }
    ensures stays { OnErr result (drop ahead.new.taken ahead.new.text.items ≡ drop ahead.old.taken ahead.old.text.items) }
{
    if standing.files == 0 {
        omissions.leave_out(Why::TooMany);
        return Ok(standing.line_begun(true));
    }
    let mut text = Vec::new(ahead.alloc);
    let found = folder.read(name, standing.left, &mut text)?;
    let count = text.len();
    ahead.put(text)?;
    if let Found::Not(why) = found {
        omissions.leave_out(why);
    }
    let next = Standing {
        files: standing.files - 1,
        left: standing.left.saturating_sub(count),
        ..standing
    };
    Ok(next.line_begun(true))
}
