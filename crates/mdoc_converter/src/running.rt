//! A whole page is turned.
ghost use Rattle.std.specs.Prelude.{◌≡◌, ◌+◌, ◌*◌, ◌≤◌, ℕ, Bool, true, List, length};
ghost use Rattle.nr_units.specs.Failures.{put_counted_if};
ghost use Rattle.document_stages.specs.Running.{TellsReads, is_write_fault};
ghost use Rattle.mdoc_converter.specs.Reading.{converted, first_state};
ghost use Rattle.mdoc_converter.specs.Running.{Ran};
ghost use Rattle.mdoc_converter.specs.Staged.{said, steps_said};

use super::staged::MdocConverter;
use document_stages::{RunEnd, run};
use mdoc_layout::Block;
use nr_units::sink::Sink;
use nr_units::source::Source;

/// Turns what the input gives into man(7), and puts it to the output, which is not flushed. A page without `.Dd`
/// in its first 64 lines, besides those that are empty or comments, passes as it is. `blocks` is the room for lists and displays that are open, of 64 at least,
/// and the buffer, of 73984 bytes at least, holds what goes out; what they held is of no account. Nothing is allocated.
///
/// What goes out is one function of the bytes that came, however they came. At a read fault, and where the input is
/// too long, it is that of the bytes before, but for a line that is half read; at a write fault a prefix of it.
///
/// `steps` is set to the number of steps that this took: in each a byte is offered to what is half read. There are at most
/// ninety-six for each byte that came, and as many more.
///
/// Proved: What goes out of a page is one function of the bytes that came, however they came: `converted`, whose
/// definition makes words of lines, parts with fonts and joints of words, and text of parts.
/// Proved: At a read fault what the bytes before come to is out, but for what is half read; at a write fault a prefix
/// of what goes out.
/// Proved: A fault is reported only where a call of the source or the sink failed, and always then; where both
/// failed, that of the sink.
/// Proved: A run returns how many steps it took: those of the definition, at a write fault with those of the end or
/// without, and at most 96 for each byte that came, and 96 more.
pub fn convert<R: Source, W: Sink>(
    input: &mut R,
    output: &mut W,
    blocks: &mut [Block],
    buffer: &mut [u8],
    steps: &mut u64,
) -> RunEnd
    requires blocks { 64 ≤ length blocks.old }
    requires buffer { 73984 ≤ length buffer.old }
    ensures ran { Ran (R.supply input.old) (R.supply input.new) (W.held output.old) (W.held output.new)
        steps.new result }
    // What goes out of a whole page is `converted`, and the steps are at most ninety-six for each byte, and as many more.
    ensures whole { (bytes : List ℕ) → said first_state true bytes ≡ converted bytes }
    ensures quick { (ends : Bool) → (bytes : List ℕ) → steps_said first_state ends bytes ≤ 96 * (length bytes + 1) }
    // A read fault is reported only where the source failed once, and then always, but where the output fails too.
    ensures read_faults { TellsReads result (R.failures input.old) (R.failures input.new) }
    ensures write_faults { W.failures output.new ≡ put_counted_if (is_write_fault result) (W.failures output.old) }
{
    let mut page = MdocConverter::over(blocks);
    let outcome = run(&mut page, input, output, buffer);
    *steps = page.steps();
    outcome
}
