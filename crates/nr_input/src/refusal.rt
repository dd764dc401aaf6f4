//! Why a move is not made, and where that is reported.
ghost use Rattle.std.specs.Prelude.{◌≡◌};

use super::reader::Reader;
use nr_reading::{Escape, PendingAct};
use nr_store::StoredBytes;

/// Why a move is not made. The same answer comes again from then on.
#[derive(Clone, Copy, Drop)]
pub enum Refusal {
    /// What is stored would be charged more than the limit.
    Stored,
    /// There would be more levels than there may be.
    Depth,
    /// There would be more splices and springs after one byte of the input than there may be.
    Expansions,
    /// The source failed.
    ReadFault,
    /// The input has 2^40 bytes or more.
    TooLong,
}

impl From<nr_store::Refusal> for Refusal {
    ghost use Rattle.std.specs.Prelude.{◌≡◌};
    ghost use Rattle.nr_input.specs.Refusal.{refusal_of};

    ghost from_gives = { λ e r. r ≡ refusal_of e };

    fn from(refusal: nr_store::Refusal) -> Refusal {
        match refusal {
            nr_store::Refusal::Stored => Refusal::Stored,
            nr_store::Refusal::Depth => Refusal::Depth,
        }
    }
}

impl From<StoredBytes> for Refusal {
    ghost use Rattle.std.specs.Prelude.{◌≡◌};
    ghost use Rattle.nr_input.specs.declared.refusal.Refusal.TheVariants.{Stored};

    ghost from_gives = { λ _ r. r ≡ Stored };

    fn from(_: StoredBytes) -> Refusal {
        Refusal::Stored
    }
}

impl Reader {
    ghost use Rattle.nr_input.specs.Refusal.{uncounted, place_reported};

    // How many of the bytes that were read do not count yet: the `\` that begins the first element of a string's text,
    // before that text is charged.
    fn uncounted(&self) -> u64
        ensures { result ≡ uncounted self.now }
    {
        match (self.half.reading.pending_act, self.half.reading.escape) {
            (PendingAct::Begin, Escape::Begun) => u64::from(self.burst == 0),
            _ => 0,
        }
    }

    /// Where the input stands for a limit that the next move would pass, so many bytes of it having been taken.
    pub fn place_reported(&self, taken: u64) -> u64
        ensures { result ≡ place_reported taken self.now }
    {
        taken.saturating_sub(self.uncounted())
    }
}
