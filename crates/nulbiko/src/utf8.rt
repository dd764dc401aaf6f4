// Bytes that a table has become its characters, as utf8 makes them.
ghost use Rattle.std.specs.Prelude.{◌≡◌, ◌≢◌, ◌↔◌, drop, IfOk, OnErr};
ghost use Rattle.utf8_characters.specs.declared.table.FixedTable.{FixedTable};
ghost use Rattle.preconv_coding.specs.UnderCoding.{text_of};
ghost use Rattle.nulbiko.specs.Tables.{table_numbered, unchosen};
ghost use Rattle.nulbiko.specs.Reported.{nothing_reported};
ghost use Rattle.nulbiko.specs.Utf8.{ChoosesNumber, TurnsBytes, code_of};

use super::coded::text_of;
use super::pages::{Pages, hand_over};
use super::reported::{
    DONE, FULL, OUT_OF_MEMORY, OUT_OF_RANGE, Report, TOO_LONG, UNREADABLE, code_within,
};
use super::tables::{UNCHOSEN, number_of, table_of};
use super::text::Text;
use nr_vectors::CountedAlloc;
use std::alloc::{AllocError, Global};
use utf8_characters::FixedTable;
use utf8_converter::{CHARACTERS, LOOKED_AT, RunEnd, choose, convert};

/// The bytes of what is to go out.
const PENDING_SIZE: usize = 65_536;

/// The number of an outcome.
fn code(outcome: RunEnd) -> u32
    ensures value { result ≡ code_of outcome }
    ensures not_range { result ≢ 2 }
    ensures not_memory { result ≢ 5 }
{
    match outcome {
        RunEnd::Done => DONE,
        RunEnd::WriteFault => FULL,
        RunEnd::TooLong => TOO_LONG,
        RunEnd::ReadFault { .. } => UNREADABLE,
    }
}

/// Turns the bytes, hands over what comes out and gives the number of the outcome.
fn turn_bytes(
    alloc: Global,
    table: FixedTable,
    escapes: bool,
    input: &[u8],
    output: &mut [u8],
    reported: &mut Report,
) -> Result<u32, AllocError>
    ensures turned { IfOk result (λ code. TurnsBytes table escapes input.now output.new reported.new code) }
    ensures not_range { IfOk result (λ code. code ≢ 2) }
    ensures not_memory { IfOk result (λ code. code ≢ 5) }
    ensures untouched { OnErr result ((output.new ≡ output.old) × (reported.new ≡ reported.old)) }
    ensures rest { drop reported.new.written output.new ≡ drop reported.new.written output.old }
{
    let mut pending = vec![in alloc; 0u8; PENDING_SIZE]?;
    let mut pages = Pages::new(&mut CountedAlloc::new(alloc), output.len())?;
    let mut text = Text::over(input);
    let mut dropped = 0;
    let outcome = convert(
        &mut text,
        &mut pages,
        table,
        escapes,
        &mut pending,
        &mut dropped,
    );
    let bytes = pages.as_slice();
    let written = hand_over(bytes, output);
    *reported = Report {
        written,
        at: 0,
        moves: 0,
        limit: 0,
        dropped,
        line: 0,
    };
    Ok(code_within(code(outcome), bytes.len(), output.len()))
}

/// Turns the bytes that a table has into its characters, in UTF-8, into a buffer, reports how it went and how many bytes were
/// dropped, and gives the number of the outcome: 0 done, 2 no table has the number, 4 the buffer is full, 5 there is not
/// enough memory, 6 the text is too long. With `escapes` underlined text stands between escape sequences.
///
/// Proved: What utf8 hands over is what `convert` of utf8_converter puts out with the table of that number, a text
/// for a terminal but where the buffer cuts it; the bytes that were dropped are reported. The table that is chosen
/// for a page is that of `choose` for its text under its coding, or 7 is reported where memory is refused.
/// (`nulbiko_utf8_lent`, `nulbiko_choose_lent`)
#[unsafe(no_mangle)]
pub extern "C" fn nulbiko_utf8_lent(
    alloc: Global,
    table: u32,
    escapes: bool,
    input: &[u8],
    output: &mut [u8],
    reported: &mut Report,
) -> u32
    ensures ranges { (result ≡ 2) ↔ (table_numbered table ≡ None) }
    ensures turned { (t : FixedTable) → table_numbered table ≡ Some t → result ≢ 5
        → TurnsBytes t escapes input.now output.new reported.new result }
    ensures bad { result ≡ 2 → (output.new ≡ output.old) × (reported.new ≡ nothing_reported) }
    ensures no_memory { result ≡ 5 → (output.new ≡ output.old) × (reported.new ≡ nothing_reported) }
    ensures rest { drop reported.new.written output.new ≡ drop reported.new.written output.old }
{
    *reported = Report::nothing();
    let Some(table) = table_of(table) else {
        return OUT_OF_RANGE;
    };
    match turn_bytes(alloc, table, escapes, input, output, reported) {
        Ok(code) => code,
        Err(_) => OUT_OF_MEMORY,
    }
}

/// Looks at a page and gives the number of its table.
pub(crate) fn look(alloc: Global, input: &[u8]) -> Result<u32, AllocError>
    ensures { IfOk result (λ number. ChoosesNumber input.now number) }
{
    let mut page = vec![in alloc; 0u8; LOOKED_AT]?;
    let mut counts = vec![in alloc; 0u32; CHARACTERS]?;
    let mut text = Text::over(input);
    match choose(&mut text, &mut page, &mut counts) {
        Ok(table) => Ok(number_of(table)),
        // A slice doesn't fail.
        Err(_) => unreachable!(),
    }
}

/// Looks at the text of a page under its coding.
fn look_under_coding(alloc: Global, input: &[u8]) -> Result<u32, AllocError>
    ensures { IfOk result (λ number. ChoosesNumber (text_of input.now) number) }
{
    let text = text_of(alloc, input)?;
    look(alloc, &text)
}

/// Gives the number of the table that a page takes, by the first 65,536 bytes of its text under its coding, or 7 where there
/// is not enough memory.
#[unsafe(no_mangle)]
pub extern "C" fn nulbiko_choose_lent(alloc: Global, input: &[u8]) -> u32
    ensures { result ≢ unchosen → ChoosesNumber (text_of input.now) result }
{
    match look_under_coding(alloc, input) {
        Ok(number) => number,
        Err(_) => UNCHOSEN,
    }
}
