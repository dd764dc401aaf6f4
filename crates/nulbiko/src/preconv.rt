// A text is read under its coding and turned into the language of the formatter, as preconv does.
ghost use Rattle.std.specs.Prelude.{◌≡◌, ◌≢◌, ◌↔◌, ◌<◌, drop, IfOk, OnErr};
ghost use Rattle.nulbiko.specs.Tables.{table_numbered};
ghost use Rattle.nulbiko.specs.Reported.{nothing_reported};
ghost use Rattle.nulbiko.specs.Preconv.{TurnsText, code_of};

use super::pages::{Pages, hand_over};
use super::reported::{
    DONE, FULL, OUT_OF_MEMORY, OUT_OF_RANGE, Report, TOO_LONG, UNREADABLE, code_within,
};
use super::tables::{MOST_TABLES, table_of};
use super::text::Text;
use nr_vectors::CountedAlloc;
use preconv_coding::UnderCoding;
use preconv_converter::{RunEnd, Target, convert};
use std::alloc::{AllocError, Global};
use utf8_characters::FixedTable;

/// The bytes of what is to go out.
const PENDING_SIZE: usize = 65_536;

/// The number of an outcome.
fn code(outcome: RunEnd) -> u32
    ensures value { result ≡ code_of outcome }
    ensures not_range { result ≢ 2 }
    ensures not_memory { result ≢ 5 }
{
    match outcome {
        RunEnd::Done => DONE,
        RunEnd::WriteFault => FULL,
        RunEnd::TooLong => TOO_LONG,
        RunEnd::ReadFault { .. } => UNREADABLE,
    }
}

/// Turns the text, hands over what comes out and gives the number of the outcome.
fn turn_text(
    alloc: Global,
    table: Option<FixedTable>,
    input: &[u8],
    output: &mut [u8],
    reported: &mut Report,
) -> Result<u32, AllocError>
    ensures turned { IfOk result (λ code. TurnsText table input.now output.new reported.new code) }
    ensures not_range { IfOk result (λ code. code ≢ 2) }
    ensures not_memory { IfOk result (λ code. code ≢ 5) }
    ensures untouched { OnErr result ((output.new ≡ output.old) × (reported.new ≡ reported.old)) }
    ensures rest { drop reported.new.written output.new ≡ drop reported.new.written output.old }
{
    let mut pending = vec![in alloc; 0u8; PENDING_SIZE]?;
    let mut pages = Pages::new(&mut CountedAlloc::new(alloc), output.len())?;
    let mut text = UnderCoding::over(Text::over(input));
    let mut steps = 0;
    let target = Target::of(table);
    let outcome = convert(&mut text, &mut pages, target, &mut pending, &mut steps);
    let bytes = pages.as_slice();
    let written = hand_over(bytes, output);
    *reported = Report {
        written,
        at: 0,
        moves: steps,
        limit: 0,
        dropped: 0,
        line: 0,
    };
    Ok(code_within(code(outcome), bytes.len(), output.len()))
}

/// Turns what manual pages use, read under its coding, into the language of the formatter, into a buffer, reports how it went,
/// and gives the number of the outcome: 0 done, 2 no table has the number, 4 the buffer is full, 5 there is not enough memory,
/// 6 the text is too long. Characters of the table become its bytes; 0 is the number of none, and then all is spelled in ASCII.
///
/// Proved: What preconv hands over is what `convert` of preconv_converter puts out of the text under its coding, with
/// the table of that number. (`nulbiko_preconv_lent`)
#[unsafe(no_mangle)]
pub extern "C" fn nulbiko_preconv_lent(
    alloc: Global,
    table: u32,
    input: &[u8],
    output: &mut [u8],
    reported: &mut Report,
) -> u32
    ensures ranges { (result ≡ 2) ↔ (5 < table) }
    ensures turned { result ≢ 2 → result ≢ 5
        → TurnsText (table_numbered table) input.now output.new reported.new result }
    ensures bad { result ≡ 2 → (output.new ≡ output.old) × (reported.new ≡ nothing_reported) }
    ensures no_memory { result ≡ 5 → (output.new ≡ output.old) × (reported.new ≡ nothing_reported) }
    ensures rest { drop reported.new.written output.new ≡ drop reported.new.written output.old }
{
    *reported = Report::nothing();
    if table > MOST_TABLES {
        return OUT_OF_RANGE;
    }
    match turn_text(alloc, table_of(table), input, output, reported) {
        Ok(code) => code,
        Err(_) => OUT_OF_MEMORY,
    }
}
