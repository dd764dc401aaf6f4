//! A whole run.
ghost use Rattle.std.specs.Prelude.{◌≡◌, ◌+◌, ◌*◌, ◌≤◌, None, Some, false, [], IfSome};
ghost use Rattle.nr_units.specs.Source.{Supply};
ghost use Rattle.nr_input.specs.Place.{has_failed};
ghost use Rattle.nr_machine.specs.State.{start};
ghost use Rattle.nr_machine.specs.FirstBytes.{preceded};
ghost use Rattle.nr_machine.specs.Run.{Answers, ReportedFaults, kind_of};
ghost use Rattle.nr_machine.specs.Holding.{shape, weight, worth};
ghost use Rattle.nr_machine.specs.Limits.{limits_of, limits_under};
ghost use Rattle.nr_engine.specs.Travelling.{Travels, outcome_when_spent};

use crate::desk::Work;
use crate::keeping::go_on;
use fast_input::Gathered;
use fast_machine::{put_at_hand, reads_on};
use nr_formatter::tasks::Task;
use nr_input::Event;
use nr_machine::{Engine, Measure, Outcome};
use nr_options::{Limits, Options};
use nr_units::sink::Sink;
use nr_units::source::Source;

/// How a run ends that has made all moves that it may make.
fn outcome_when_spent(engine: &Engine) -> Outcome
    ensures { result ≡ outcome_when_spent (kind_of [] engine.now.formatter.springs engine.now.formatter.event
        engine.now.formatter.task) engine.now.place.taken }
{
    let limit = Outcome::Limit {
        which: Measure::Moves,
        at: engine.place.taken(),
    };
    if engine.formatter.springs.is_some() {
        return limit;
    }
    match engine.formatter.event {
        Event::Nothing => {}
        _ => return limit,
    }
    match engine.formatter.task {
        Task::Halted => Outcome::Done,
        _ => limit,
    }
}

/// Moves are made until the run ends: `most` at most, with those that were made before.
pub(crate) fn run<R: Source, W: Sink>(
    engine: &mut Engine,
    most: u64,
    input: &mut R,
    output: &mut W,
    moves: &mut u128,
) -> Outcome
    requires unfailed { has_failed engine.old.place.ahead ≡ false }
    requires bound { moves.old + weight (shape engine.old) ≤ worth (shape engine.old)
        * (engine.old.place.taken + 1) }
    requires allowed { moves.old ≤ most }
    ensures travels { Travels most (shape engine.old) (R.supply input.old) (W.held output.old)
        (W.held output.new) moves.old moves.new result }
    ensures limits { limits_of (shape engine.new) ≡ limits_of (shape engine.old) }
    ensures faults { ReportedFaults result (R.failures input.old) (R.failures input.new)
        (W.failures output.old) (W.failures output.new) }
{
    let mut left = most - *moves as u64;
    let mut gathered = Gathered::new();
    loop {
        let many = put_at_hand(engine, input, left, &mut gathered);
        left -= many;
        if many > 0 && reads_on(engine) {
            continue;
        }
        if left == 0 {
            *moves = u128::from(most);
            return outcome_when_spent(engine);
        }
        match engine.advance(input, output) {
            Ok(()) => left -= 1,
            Err(outcome) => {
                *moves = u128::from(most - left);
                return outcome;
            }
        }
    }
}

/// A run under these limits, from the beginning.
///
/// Proved: The limits that stand in an engine are at the end of its run as at the beginning, however it ends.
fn run_in<R: Source, W: Sink>(
    engine: &mut Engine,
    limits: Limits,
    options: &Options,
    input: &mut R,
    output: &mut W,
    moves: &mut u128,
) -> Outcome
    requires limits { limits_of (shape engine.old) ≡ limits_under limits }
    ensures answers { (supply : Supply) → R.supply input.old ≡ Some supply →
        Answers limits (start limits options.now supply) moves.new result (W.held output.old)
        (W.held output.new) }
    ensures faults { ReportedFaults result (R.failures input.old) (R.failures input.new) (W.failures output.old)
        (W.failures output.new) }
    ensures stay { limits_of (shape engine.new) ≡ limits_of (shape engine.old) }
{
    let most = limits.moves();
    engine.clear(limits, options);
    *moves = 0;
    match engine.choose(options, moves) {
        Err(outcome) => outcome,
        Ok(()) => run(engine, most, input, output, moves),
    }
}

/// Formats the input until the run ends, a limit would be passed or the input or the output fails, and
/// sets `moves` to the number of moves made. Where one more move would pass the limit of all moves, none is
/// made, whatever else would stop it. It consumes its working space.
///
/// Proved: The pages that go out, those selected, are those that the machine of the definition has ended after the
/// moves made, and all of them where the answer is `Done`.
/// Proved: A limit that is named is the first measure that the next move would bring above its limit, with the number
/// of input bytes taken (but for a `\` that the text of `.ds` or `.as` begins with), and no earlier move would have
/// passed one.
/// Proved: A read fault, an input too long and a write fault are reported where the definition says, and what went
/// out is all pages that had ended, before a write fault with a prefix of the next.
/// Proved: A fault is reported only where a call of the source or the sink failed, and each failed call is reported,
/// counted modulo 2^64.
/// Proved: There are on the whole at most `256 · (X + 1) · (S + P + D + 4)` moves for each byte of the input that was
/// taken, and as many besides.
/// Proved: The limits of a desk stay as they were. (`format`; `Desk::lend` in desk.rt)
pub fn format<R: Source, W: Sink>(
    work: Work<'_>,
    options: &Options,
    input: &mut R,
    output: &mut W,
    moves: &mut u128,
) -> Outcome
    // The pages are those of the machine, which knows no limit, up to where the run stops.
    ensures answers { (supply : Supply) → R.supply input.old ≡ Some supply →
        Answers work.entry.desk.now (start work.entry.desk.now options.now supply) moves.new result
        (W.held output.old) (W.held output.new) }
    // A fault is reported where a call failed, and nowhere else.
    ensures faults { ReportedFaults result (R.failures input.old) (R.failures input.new) (W.failures output.old)
        (W.failures output.new) }
    ensures limits { work.exit.0.now ≡ work.entry.desk.now }
{
    let desk = work.desk;
    let limits = desk.limits;
    run_in(&mut desk.engine, limits, options, input, output, moves)
}

/// Formats these bytes and then the input, as `format` does, where the desk keeps what comes of them with these options: they are not
/// read again. Where it doesn't it does nothing, and answers `None`.
///
/// Proved: **A run from what is kept is the run over both texts**: the answer is that of the run, from the beginning, over the first
/// bytes and then the input, whatever was formatted before.
pub fn format_after<R: Source, W: Sink>(
    work: Work<'_>,
    options: &Options,
    first: &[u8],
    input: &mut R,
    output: &mut W,
    moves: &mut u128,
) -> Option<Outcome>
    ensures answers { IfSome result (λ outcome. (rest : Supply) → R.supply input.old ≡ Some rest →
        Answers work.entry.desk.now (start work.entry.desk.now options.now (preceded first.now rest)) moves.new outcome
        (W.held output.old) (W.held output.new)) }
    ensures faults { IfSome result (λ outcome. ReportedFaults outcome (R.failures input.old) (R.failures input.new)
        (W.failures output.old) (W.failures output.new)) }
    ensures input { result ≡ None → input.new ≡ input.old }
    ensures output { result ≡ None → output.new ≡ output.old }
    ensures limits { work.exit.0.now ≡ work.entry.desk.now }
{
    let desk = work.desk;
    let Some(kept) = &desk.kept else {
        return None;
    };
    if !kept.has_read(options, first) {
        return None;
    }
    Some(go_on(&mut desk.engine, kept, input, output, moves))
}
