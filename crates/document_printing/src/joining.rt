//! A text is formatted after macros.
ghost use Rattle.std.specs.Prelude.{◌≡◌, None, Some, IfSome};
ghost use Rattle.nr_units.specs.Failures.{put_counted_if};
ghost use Rattle.nr_units.specs.Source.{Supply};
ghost use Rattle.nr_machine.specs.Run.{Answers, is_write_fault};
ghost use Rattle.nr_machine.specs.State.{start};
ghost use Rattle.document_stages.specs.Joined.{preceded};

use super::setup::Setup;
use document_stages::Joined;
use nr_engine::{Desk, Outcome, format, format_after};
use nr_units::sink::Sink;
use nr_units::source::Source;

/// Formats a text after macros that the desk keeps: they are not read again. Where it keeps others or none it does nothing, and
/// answers `None`.
fn go_on<R: Source, W: Sink>(
    text: &mut R,
    setup: &Setup<'_>,
    desk: &mut Desk,
    output: &mut W,
    moves: &mut u128,
) -> Option<Outcome>
    ensures answers { IfSome result (λ outcome. (rest : Supply) → R.supply text.old ≡ Some rest →
        Answers desk.old (start desk.old setup.now.options.now (preceded setup.now.macros.now rest)) moves.new outcome
        (W.held output.old) (W.held output.new)) }
    ensures desk { desk.new ≡ desk.old }
    ensures write_faults { IfSome result (λ outcome. W.failures output.new
        ≡ put_counted_if (is_write_fault outcome) (W.failures output.old)) }
    ensures text { result ≡ None → text.new ≡ text.old }
    ensures output { result ≡ None → output.new ≡ output.old }
{
    format_after(
        desk.lend(),
        setup.options,
        setup.macros,
        text,
        output,
        moves,
    )
}

/// Reads the macros, and formats a text after them.
fn format_anew<R: Source, W: Sink>(
    text: &mut R,
    setup: &Setup<'_>,
    desk: &mut Desk,
    output: &mut W,
    moves: &mut u128,
) -> Outcome
    ensures answers { (rest : Supply) → R.supply text.old ≡ Some rest →
        Answers desk.old (start desk.old setup.now.options.now (preceded setup.now.macros.now rest)) moves.new result
        (W.held output.old) (W.held output.new) }
    ensures desk { desk.new ≡ desk.old }
    ensures write_faults { W.failures output.new ≡ put_counted_if (is_write_fault result) (W.failures output.old) }
{
    let mut all = Joined::over(setup.macros, text);
    format(desk.lend(), setup.options, &mut all, output, moves)
}

/// Formats the macros and then a text. Macros that the desk keeps are not read again.
///
/// Proved: What goes out of a page is the same where its macros were read before: it is that of the run over the macros and what
/// follows them. (`format_joined`)
pub(crate) fn format_joined<R: Source, W: Sink>(
    text: &mut R,
    setup: &Setup<'_>,
    desk: &mut Desk,
    output: &mut W,
    moves: &mut u128,
) -> Outcome
    ensures answers { (rest : Supply) → R.supply text.old ≡ Some rest →
        Answers desk.old (start desk.old setup.now.options.now (preceded setup.now.macros.now rest)) moves.new result
        (W.held output.old) (W.held output.new) }
    ensures desk { desk.new ≡ desk.old }
    ensures write_faults { W.failures output.new ≡ put_counted_if (is_write_fault result) (W.failures output.old) }
{
    match go_on(text, setup, desk, output, moves) {
        Some(outcome) => outcome,
        None => format_anew(text, setup, desk, output, moves),
    }
}
