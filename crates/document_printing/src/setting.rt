//! A page is formatted as it comes, with its tables set.
ghost use Rattle.std.specs.Prelude.{◌≡◌, ◌≤◌, ℕ, Some, false, length, take};
ghost use Rattle.nr_units.specs.Failures.{put_counted_if};
ghost use Rattle.nr_units.specs.Source.{After, Supply};
ghost use Rattle.nr_machine.specs.Run.{Answers, is_write_fault};
ghost use Rattle.nr_machine.specs.State.{start};
ghost use Rattle.document_stages.specs.Joined.{preceded};
ghost use Rattle.document_stages.specs.Pulling.{broken_off};
ghost use Rattle.document_reader.specs.Page.{IsShort, breaks_off, man_of, man_so_far, plain_so_far, plain_supply};
ghost use Rattle.tbl_stage.specs.Text.{bounds_in, set_text};

use super::joining::format_joined;
use super::pulling::{Pulled, SetTables};
use super::setup::Setup;
use document_reader::{Places, read_page};
use document_stages::Lines;
use nr_engine::Desk;
use nr_units::sink::Sink;
use nr_units::source::Source;
use tbl_setting::Complaint;
use tbl_stage::{Rooms, Turning, set_tables};

/// A text is formatted after its macros, with its tables.
fn format_set<R: Source + Lines + Drop, W: Sink>(
    input: R,
    setup: &Setup<'_>,
    rooms: &mut Rooms,
    complaints: &mut [Complaint],
    desk: &mut Desk,
    output: &mut W,
) -> Pulled
    ensures answers { (q : Supply) → R.supply input ≡ Some q →
        Answers desk.old (start desk.old setup.now.options.now (preceded setup.now.macros.now
        (set_text (bounds_in rooms.old) q)))
        result.moves result.outcome (W.held output.old) (W.held output.new) }
    ensures desk { desk.new ≡ desk.old }
    ensures write_faults { W.failures output.new ≡ put_counted_if (is_write_fault result.outcome) (W.failures output.old) }
{
    let mut text = set_tables(input, rooms, complaints);
    let mut moves = 0;
    let outcome = format_joined(&mut text, setup, desk, output, &mut moves);
    let line = text.line();
    let turner = text.stage();
    let tables = SetTables {
        full: turner.is_full(),
        complaints: turner.complaints().len(),
        missed: turner.has_missed(),
    };
    Pulled {
        outcome,
        line,
        moves,
        tables,
    }
}

/// A page is formatted after its macros, with its tables. Nothing is allocated.
pub(crate) fn pull_set<R: Source + Drop, W: Sink>(
    input: R,
    setup: &Setup<'_>,
    rooms: &mut Rooms,
    complaints: &mut [Complaint],
    desk: &mut Desk,
    output: &mut W,
) -> Pulled
    // What is formatted is the composition of the stages.
    ensures whole { (q : Supply) → R.supply input ≡ Some q → breaks_off q.faults ≡ false →
        IsShort q.bytes (man_of setup.now.stages.mdoc q.bytes) →
        Answers desk.old (start desk.old setup.now.options.now (preceded setup.now.macros.now
        (set_text (bounds_in rooms.old) (plain_supply setup.now.stages setup.now.characters q))))
        result.moves result.outcome (W.held output.old) (W.held output.new) }
    // Where the source fails after so many bytes, it is that of these, but for what is half read.
    ensures cut { (q : Supply) → (n : ℕ) → R.supply input ≡ Some q → q.faults ≡ After n → n ≤ length q.bytes →
        IsShort q.bytes (man_so_far setup.now.stages.mdoc (take n q.bytes)) →
        Answers desk.old (start desk.old setup.now.options.now (preceded setup.now.macros.now
        (set_text (bounds_in rooms.old) (broken_off (plain_so_far setup.now.stages setup.now.characters (take n q.bytes))))))
        result.moves result.outcome (W.held output.old) (W.held output.new) }
    ensures desk { desk.new ≡ desk.old }
    ensures write_faults { W.failures output.new ≡ put_counted_if (is_write_fault result.outcome) (W.failures output.old) }
{
    let mut places = Places::new();
    let page = read_page(input, setup.stages, setup.characters, places.lend());
    format_set(page, setup, rooms, complaints, desk, output)
}
