//! A whole page is turned.
ghost use Rattle.std.specs.Prelude.{◌≡◌, ◌*◌, ◌≤◌, ℕ, Bool, List, length, true, encode_utf8_all};
ghost use Rattle.std.specs.Str.{all_scalars};
ghost use Rattle.std.specs.List.{AllPass};
ghost use Rattle.nr_units.specs.Failures.{put_counted_if};
ghost use Rattle.document_stages.specs.Running.{TellsReads, is_write_fault};
ghost use Rattle.preconv_converter.specs.Characters.{read_characters};
ghost use Rattle.preconv_converter.specs.Reading.{converted, fed, first_reader};
ghost use Rattle.preconv_converter.specs.Running.{Ran};
ghost use Rattle.preconv_characters.specs.Saying.{may_go_out};
ghost use Rattle.preconv_converter.specs.Staged.{said, steps_said};
ghost use Rattle.preconv_converter.specs.Unread.{CommentsAreUnread, IgnoredLinesAreUnread};

use super::staged::PreconvConverter;
use document_stages::{RunEnd, run};
use nr_units::sink::Sink;
use nr_units::source::Source;
use preconv_characters::Target;

/// Turns what the input gives into the language of the formatter, and puts it to the output, which is not
/// flushed. Characters beyond ASCII become what the target says. The buffer, of 1536 bytes at
/// least, holds what goes out; what it held is of no account. Nothing is allocated.
///
/// What goes out is one function of the bytes that came, however they came. At a read fault, and where the
/// input is too long, it is that of the bytes before, but for a character, an escape or a name that is
/// half read; at a write fault a prefix of it.
///
/// `steps` is set to the number of steps that this took: in each a character is offered to what is half read, or a byte
/// passes as it is. There are at most six for each byte that came.
///
/// Proved: What goes out of a page is one function of the bytes that came, however they came: `converted`, whose
/// definition offers each character to what is half read.
/// Proved: At a read fault what the bytes before come to is out, but for what is half read; at a write fault a prefix
/// of what goes out.
/// Proved: A fault is reported only where a call of the source or the sink failed, and always then; where both
/// failed, that of the sink.
/// Proved: Where all is done, at most 1536 bytes went out for each byte that came, and as many more at the end.
/// Proved: A run reports how many steps it took; in each a character is offered to what is half read, or a byte passes as it
/// is. They are those of the definition, at a write fault with those of the end or without, and at most six for each
/// byte that came.
/// Proved: A text in UTF-8 is read as its characters, for every list of characters: each is heard by its code, of one
/// byte or of four. (`characters` of `convert`)
/// Proved: What a comment has changes nothing of the rest of the page, and so does an ignored line that does not
/// begin with two dots. Of what stands in a definition that is not claimed: a title in it makes a manual page, and
/// `.tr` in it translates. (`comments` and `ignored` of `convert`)
/// Proved: No byte above 126 goes out, whatever comes in, but those of the table in force: without `-u` and `-8` none
/// does. (`shown` of what `convert` ensures)
pub fn convert<R: Source, W: Sink>(
    input: &mut R,
    output: &mut W,
    table: Target,
    buffer: &mut [u8],
    steps: &mut u64,
) -> RunEnd
    requires { 1536 ≤ length buffer.old }
    ensures ran { Ran table (R.supply input.old) (R.supply input.new) (W.held output.old) (W.held output.new)
        steps.new result }
    // What goes out of a whole page is `converted`, and the steps are at most six for each byte.
    ensures whole { (bytes : List ℕ) → said (first_reader table) true bytes ≡ converted table bytes }
    ensures quick { (ends : Bool) → (bytes : List ℕ) → steps_said (first_reader table) ends bytes ≤ 6 * length bytes }
    // Of whatever comes, no byte goes out that may not.
    ensures shown { (ends : Bool) → (bytes : List ℕ) → AllPass (may_go_out table) (said (first_reader table) ends bytes) }
    // A read fault is reported only where the source failed once, and then always, but where the output fails too.
    ensures read_faults { TellsReads result (R.failures input.old) (R.failures input.new) }
    ensures write_faults { W.failures output.new ≡ put_counted_if (is_write_fault result) (W.failures output.old) }
    // What comments and ignored lines have changes nothing of the rest.
    ensures comments { CommentsAreUnread }
    ensures ignored { IgnoredLinesAreUnread }
    // A text in UTF-8 is read as its characters.
    ensures characters { (cs : List ℕ) → all_scalars cs ≡ true → fed (first_reader table) (encode_utf8_all cs)
        ≡ read_characters (first_reader table) cs }
{
    let mut text = PreconvConverter::new(table);
    let outcome = run(&mut text, input, output, buffer);
    *steps = text.steps();
    outcome
}
