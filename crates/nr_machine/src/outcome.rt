//! How a run ends, and why a move is not made.
ghost use Rattle.std.specs.Prelude.{◌≡◌};
ghost use Rattle.nr_formatter.specs.Passed.{splice_answer};
ghost use Rattle.nr_machine.specs.Run.{measured, unwritten, refused, limited, stopped};

use nr_formatter::passed::Passed;
use nr_input::Refusal;

/// What has a limit.
#[derive(Clone, Copy, Debug, PartialEq, Eq)]
pub enum Measure {
    /// The bytes that are stored.
    Stored,
    /// The levels of the input that are open.
    Depth,
    /// The cells of the line that is being collected, and 1 for each of its pieces.
    LineCells,
    /// The cells of the open page, and 1 for each line placed on it.
    PageCells,
    /// The splices and springs since the last byte of the input was taken.
    Expansions,
    /// All moves of the run.
    Moves,
}

/// Why a move that may write is not made.
#[derive(Clone, Copy, Debug, PartialEq, Eq)]
pub enum Stop {
    /// It would pass this limit.
    Limit(Measure),
    /// The output failed.
    WriteFault,
}

/// How a run ends. `at` is the number of bytes of the input that were taken; the first byte of an element counts with it.
#[derive(Clone, Copy, Debug, PartialEq, Eq)]
pub enum Outcome {
    /// All pages were written.
    Done,
    /// The next move would pass a limit.
    Limit { which: Measure, at: u64 },
    /// The next byte was needed, and the input failed.
    ReadFault { at: u64 },
    /// The next byte is there, and it is the 2^40th.
    TooLong,
    /// The output failed.
    WriteFault,
}

impl From<Passed> for Measure {
    ghost use Rattle.std.specs.Prelude.{◌≡◌};
    ghost use Rattle.nr_machine.specs.Measures.{measure_of};

    ghost from_gives = { λ passed r. r ≡ measure_of passed };

    fn from(passed: Passed) -> Measure {
        match passed {
            Passed::Stored => Measure::Stored,
            Passed::Depth => Measure::Depth,
            Passed::LineCells => Measure::LineCells,
            Passed::Expansions => Measure::Expansions,
        }
    }
}

impl Measure {
    /// The answer of a move that only the formatter makes.
    pub(crate) fn of_answer(answer: Result<(), Passed>) -> Result<(), Measure>
        ensures { result ≡ measured answer }
    {
        match answer {
            Ok(()) => Ok(()),
            Err(passed) => Err(Measure::from(passed)),
        }
    }

    /// The answer of a splice.
    pub(crate) fn of_splice(answer: Result<(), Refusal>) -> Result<(), Measure>
        ensures { result ≡ measured (splice_answer answer) }
    {
        match answer {
            Ok(()) => Ok(()),
            Err(refusal) => Err(Measure::from(Passed::from(refusal))),
        }
    }
}

impl Stop {
    /// The answer of a part that writes nothing.
    pub(crate) fn of_limit(answer: Result<(), Measure>) -> Result<(), Stop>
        ensures { result ≡ unwritten answer }
    {
        match answer {
            Ok(()) => Ok(()),
            Err(which) => Err(Stop::Limit(which)),
        }
    }
}

impl Outcome {
    /// The answer of a move that reads, at this place of the input.
    #[inline(always)]
    pub(crate) fn refused(answer: Result<(), Refusal>, at: u64) -> Result<(), Outcome>
        ensures { result ≡ refused at answer }
    {
        let Err(refusal) = answer else {
            return Ok(());
        };
        Err(match refusal {
            Refusal::Stored => Outcome::Limit {
                which: Measure::Stored,
                at,
            },
            Refusal::Depth => Outcome::Limit {
                which: Measure::Depth,
                at,
            },
            Refusal::Expansions => Outcome::Limit {
                which: Measure::Expansions,
                at,
            },
            Refusal::ReadFault => Outcome::ReadFault { at },
            Refusal::TooLong => Outcome::TooLong,
        })
    }

    /// Of one that neither reads nor writes.
    pub(crate) fn limited(answer: Result<(), Measure>, at: u64) -> Result<(), Outcome>
        ensures { result ≡ limited at answer }
    {
        match answer {
            Ok(()) => Ok(()),
            Err(which) => Err(Outcome::Limit { which, at }),
        }
    }

    /// Of one that may write.
    pub(crate) fn stopped(answer: Result<(), Stop>, at: u64) -> Result<(), Outcome>
        ensures { result ≡ stopped at answer }
    {
        match answer {
            Ok(()) => Ok(()),
            Err(Stop::Limit(which)) => Err(Outcome::Limit { which, at }),
            Err(Stop::WriteFault) => Err(Outcome::WriteFault),
        }
    }
}
