//! A page is formatted as it comes.
ghost use Rattle.std.specs.Prelude.{◌≡◌, ◌≤◌, ℕ, Some, false, length, take};
ghost use Rattle.nr_units.specs.Failures.{put_counted_if};
ghost use Rattle.nr_units.specs.Source.{After, Supply};
ghost use Rattle.nr_machine.specs.Run.{Answers, is_write_fault};
ghost use Rattle.nr_machine.specs.State.{start};
ghost use Rattle.document_stages.specs.Joined.{preceded};
ghost use Rattle.document_stages.specs.Pulling.{broken_off};
ghost use Rattle.document_reader.specs.Page.{IsShort, breaks_off, man_of, man_so_far, plain_so_far, plain_supply};

use super::joining::format_joined;
use super::setup::Setup;
use document_reader::{Places, read_page};
use document_stages::Lines;
use nr_engine::{Desk, Outcome};
use nr_units::sink::Sink;
use nr_units::source::Source;

/// What is reported of tables.
#[derive(Clone, Copy)]
pub(crate) struct SetTables {
    /// What goes out of one at once has no room.
    pub full: bool,
    /// How many complaints there are.
    pub complaints: usize,
    /// There were more.
    pub missed: bool,
}

/// How far a page was formatted.
#[derive(Clone, Copy)]
pub(crate) struct Pulled {
    pub outcome: Outcome,
    pub line: u64,
    pub moves: u128,
    pub tables: SetTables,
}

/// A page is formatted after its macros, without its tables. Nothing is allocated.
pub(crate) fn pull<R: Source + Drop, W: Sink>(
    input: R,
    setup: &Setup<'_>,
    desk: &mut Desk,
    output: &mut W,
) -> Pulled
    // What is formatted is the composition of the stages.
    ensures whole { (q : Supply) → R.supply input ≡ Some q → breaks_off q.faults ≡ false →
        IsShort q.bytes (man_of setup.now.stages.mdoc q.bytes) →
        Answers desk.old (start desk.old setup.now.options.now (preceded setup.now.macros.now
        (plain_supply setup.now.stages setup.now.characters q)))
        result.moves result.outcome (W.held output.old) (W.held output.new) }
    // Where the source fails after so many bytes, it is that of these, but for what is half read.
    ensures cut { (q : Supply) → (n : ℕ) → R.supply input ≡ Some q → q.faults ≡ After n → n ≤ length q.bytes →
        IsShort q.bytes (man_so_far setup.now.stages.mdoc (take n q.bytes)) →
        Answers desk.old (start desk.old setup.now.options.now (preceded setup.now.macros.now
        (broken_off (plain_so_far setup.now.stages setup.now.characters (take n q.bytes)))))
        result.moves result.outcome (W.held output.old) (W.held output.new) }
    ensures no_tables { result.tables.full ≡ false }
    ensures desk { desk.new ≡ desk.old }
    ensures write_faults { W.failures output.new ≡ put_counted_if (is_write_fault result.outcome) (W.failures output.old) }
{
    let mut places = Places::new();
    let mut page = read_page(input, setup.stages, setup.characters, places.lend());
    let mut moves = 0;
    let outcome = format_joined(&mut page, setup, desk, output, &mut moves);
    let line = page.line();
    Pulled {
        outcome,
        line,
        moves,
        tables: SetTables {
            full: false,
            complaints: 0,
            missed: false,
        },
    }
}
