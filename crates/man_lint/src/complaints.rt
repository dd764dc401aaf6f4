// What the line of a complaint says.
ghost use Rattle.std.specs.Prelude.{◌≡◌};
ghost use Rattle.man_lint.specs.Complaints as specs;

use super::reporting::{Complaint, Kind};
use filters::put_all;
use filters_complaints::{Complains, printable};
use nr_units::sink::Sink;
use nr_units::source::Fault;

/// What is wrong.
fn text_of(kind: Kind) -> &'static [u8]
    ensures { result.now ≡ specs.kind_text kind }
{
    match kind {
        Kind::NoMacro => b"unknown macro: ",
        Kind::NoString => b"unknown string: ",
        Kind::NoEscape => b"unknown escape: ",
        Kind::NotOpen => b"end of block that is not open: ",
        Kind::TooMany => b"more than 64 blocks open: ",
        Kind::NotEnded => b"missing end of block: ",
        Kind::NoTitle => b"missing title macro: ",
        Kind::LateTitle => b"late title macro: ",
    }
}

impl Complains for Complaint {
    ghost use Rattle.man_lint.specs.Complaints.{said_of};

    ghost at = { λ c. c.line };

    ghost says = { said_of };

    fn line(&self) -> u64 {
        self.line
    }

    fn put<E: Sink>(&self, errors: &mut E) -> Result<(), Fault> {
        let what = text_of(self.kind);
        let name = printable(self.name);
        let parts = [what, name.as_bytes(), b"\n"];
        put_all(&parts, errors)
    }
}
