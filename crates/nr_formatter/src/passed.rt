//! Why a move is not made.
ghost use Rattle.std.specs.Prelude.{◌≡◌};
ghost use Rattle.nr_formatter.specs.Passed.{line_answer, splice_answer};

use nr_fill::line::LineCells;
use nr_input::Refusal;
use nr_store::StoredBytes;

/// The measure that a move would bring above its limit.
#[derive(Clone, Copy)]
pub enum Passed {
    /// The bytes that are stored.
    Stored,
    /// The levels that are open.
    Depth,
    /// The cells of the line.
    LineCells,
    /// The splices and springs after one byte.
    Expansions,
}

impl From<LineCells> for Passed {
    ghost use Rattle.std.specs.Prelude.{◌≡◌};
    ghost use Rattle.nr_formatter.specs.declared.passed.Passed.TheVariants as measures;

    ghost from_gives = { λ _ r. r ≡ measures.LineCells };

    fn from(_: LineCells) -> Passed {
        Passed::LineCells
    }
}

impl From<StoredBytes> for Passed {
    ghost use Rattle.std.specs.Prelude.{◌≡◌};
    ghost use Rattle.nr_formatter.specs.declared.passed.Passed.TheVariants as measures;

    ghost from_gives = { λ _ r. r ≡ measures.Stored };

    fn from(_: StoredBytes) -> Passed {
        Passed::Stored
    }
}

impl From<Refusal> for Passed {
    ghost use Rattle.std.specs.Prelude.{◌≡◌};
    ghost use Rattle.nr_formatter.specs.Passed.{passed_of};

    ghost from_gives = { λ refusal r. r ≡ passed_of refusal };

    fn from(refusal: Refusal) -> Passed {
        match refusal {
            Refusal::Depth => Passed::Depth,
            Refusal::Expansions => Passed::Expansions,
            Refusal::Stored | Refusal::ReadFault | Refusal::TooLong => Passed::Stored,
        }
    }
}

impl Passed {
    /// The answer of a call that adds to the line.
    #[inline]
    pub(crate) fn of_line(answer: Result<(), LineCells>) -> Result<(), Passed>
        ensures { result ≡ line_answer answer }
    {
        match answer {
            Ok(()) => Ok(()),
            Err(refused) => Err(Passed::from(refused)),
        }
    }

    /// The answer of a splice.
    #[inline]
    pub(crate) fn of_splice(answer: Result<(), Refusal>) -> Result<(), Passed>
        ensures { result ≡ splice_answer answer }
    {
        match answer {
            Ok(()) => Ok(()),
            Err(refusal) => Err(Passed::from(refusal)),
        }
    }
}
