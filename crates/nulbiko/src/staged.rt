// The stages of a page with a table of its own: characters become its bytes, and these become characters.
ghost use Rattle.std.specs.Prelude.{◌≡◌, ◌≢◌, ◌<◌, ◌≤◌, Some, drop, length};
ghost use Rattle.document_stages.specs.Pulling.{whole};
ghost use Rattle.preconv_coding.specs.UnderCoding.{text_of};
ghost use Rattle.preconv_characters.specs.declared.target.Target.TheVariants.{Utf8};
ghost use Rattle.document_reader.specs.Page.{own_of, plain_of};
ghost use Rattle.utf8_own_characters.specs.Table.{Good};
ghost use Rattle.utf8_own_sink.specs.Cells as own_sink;
ghost use Rattle.nulbiko.specs.Looked.{CodingIsShort, MakesByOwn, ShowingIsShort, characters_alone};
ghost use Rattle.nulbiko.specs.Reported.{IsHanded, code_within, nothing_reported};

use super::coded::text_of;
use super::handed::hand_all;
use super::looked::look_at;
use super::reported::{OUT_OF_MEMORY, Report};
use super::text::Text;
use document_printing::Stages;
use document_reader::{Places, read_own_page};
use document_stages::Pull;
use nr_units::source::Source;
use std::alloc::Global;
use utf8_own_characters::OwnTable;
use utf8_own_sink::Decoder;

/// Characters become what the formatter reads, and nothing else.
const CHARACTERS_ALONE: Stages = Stages {
    mdoc: false,
    characters: true,
};

/// The bytes that go out at once.
const ROOM: usize = 2_048;

/// Hands over a text in the bytes of a table. Gives how many bytes, and the number of the outcome.
fn code_text(table: &OwnTable<'_>, text: &[u8], output: &mut [u8]) -> (usize, u32)
    requires { Good table.now }
    ensures handed { length text.now < 1099511627776 → length (plain_of characters_alone Utf8 text.now) < 1099511627776
        → IsHanded (own_of characters_alone table.now text.now) output.new result.0 }
    ensures code { length text.now < 1099511627776 → length (plain_of characters_alone Utf8 text.now) < 1099511627776
        → result.1 ≡ code_within 0 (length (own_of characters_alone table.now text.now)) (length output.new) }
    ensures not_range { result.1 ≢ 2 }
    ensures not_memory { result.1 ≢ 5 }
    ensures rest { drop result.0 output.new ≡ drop result.0 output.old }
{
    let mut places = Places::new();
    let mut room = [0; ROOM];
    let text = Text::over(text);
    let mut coded = read_own_page(text, CHARACTERS_ALONE, table, places.lend(), &mut room);
    hand_all(&mut coded, output)
}

/// Turns a text into the language of the formatter, as `nulbiko_preconv_lent` does, where bytes from 128 on are those of the
/// table of this page. Gives the number of the outcome: 0 done, 4 the buffer is full, 5 there is not enough memory, 6 a text
/// is too long.
///
/// Proved: What stands at the beginning of the output, or as much of it as fits, is `coded (characters text)` of the text under
/// its coding, in the bytes of the page's own table; and `nulbiko_utf8_own_lent` gives the characters that such bytes show.
/// Frames of `nulbiko_tbl_own_lent` are drawn with what that table has. (`made` of these; `MakesByOwn` in Looked.antt)
#[unsafe(no_mangle)]
pub extern "C" fn nulbiko_preconv_own_lent(
    alloc: Global,
    page: &[u8],
    input: &[u8],
    output: &mut [u8],
    reported: &mut Report,
) -> u32
    ensures made { result ≢ 5 → CodingIsShort (text_of page.now) (text_of input.now) → MakesByOwn (text_of page.now)
        (λ table. own_of characters_alone table (text_of input.now)) output.new reported.new result }
    ensures not_range { result ≢ 2 }
    ensures no_memory { result ≡ 5 → (output.new ≡ output.old) × (reported.new ≡ nothing_reported) }
    ensures rest { drop reported.new.written output.new ≡ drop reported.new.written output.old }
{
    *reported = Report::nothing();
    let Ok(cells) = look_at(alloc, page) else {
        return OUT_OF_MEMORY;
    };
    let Ok(text) = text_of(alloc, input) else {
        return OUT_OF_MEMORY;
    };
    let table = cells.table();
    let (written, code) = code_text(&table, &text, output);
    *reported = Report::of_bytes(written);
    code
}

/// The characters that bytes of a table show, in UTF-8. The room is of 256 bytes at least.
fn shown_of<'a>(
    table: &'a OwnTable<'a>,
    escapes: bool,
    text: &'a [u8],
    room: &'a mut [u8],
) -> Pull<'a, Text<'a>, Decoder<'a>>
    requires { 256 ≤ length room.now }
    ensures { length text.now < 1099511627776 → ⟦<Pull<'a, Text<'a>, Decoder<'a>> as Source>⟧.supply result
        ≡ Some (whole (own_sink.converted table.now escapes text.now)) }
{
    let decoder = Decoder::over(table, escapes);
    let text = Text::over(text);
    Pull::over(decoder, text, room)
}

/// Hands them over. Gives how many bytes of UTF-8, and the number of the outcome.
fn show_text(table: &OwnTable<'_>, escapes: bool, text: &[u8], output: &mut [u8]) -> (usize, u32)
    ensures handed { length text.now < 1099511627776
        → IsHanded (own_sink.converted table.now escapes text.now) output.new result.0 }
    ensures code { length text.now < 1099511627776
        → result.1 ≡ code_within 0 (length (own_sink.converted table.now escapes text.now)) (length output.new) }
    ensures not_range { result.1 ≢ 2 }
    ensures not_memory { result.1 ≢ 5 }
    ensures rest { drop result.0 output.new ≡ drop result.0 output.old }
{
    let mut room = [0; ROOM];
    let mut shown = shown_of(table, escapes, text, &mut room);
    hand_all(&mut shown, output)
}

/// Turns the bytes of the table of this page into its characters, in UTF-8, as `nulbiko_utf8_lent` does those of a fixed one.
#[unsafe(no_mangle)]
pub extern "C" fn nulbiko_utf8_own_lent(
    alloc: Global,
    page: &[u8],
    escapes: bool,
    input: &[u8],
    output: &mut [u8],
    reported: &mut Report,
) -> u32
    ensures made { result ≢ 5 → ShowingIsShort (text_of page.now) input.now → MakesByOwn (text_of page.now)
        (λ table. own_sink.converted table escapes input.now) output.new reported.new result }
    ensures not_range { result ≢ 2 }
    ensures no_memory { result ≡ 5 → (output.new ≡ output.old) × (reported.new ≡ nothing_reported) }
    ensures rest { drop reported.new.written output.new ≡ drop reported.new.written output.old }
{
    *reported = Report::nothing();
    let Ok(cells) = look_at(alloc, page) else {
        return OUT_OF_MEMORY;
    };
    let table = cells.table();
    let (written, code) = show_text(&table, escapes, input, output);
    *reported = Report::of_bytes(written);
    code
}
