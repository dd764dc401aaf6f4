// A page of mdoc(7) is turned into one of man(7), as mdoc does.
ghost use Rattle.std.specs.Prelude.{◌≡◌, ◌≢◌, drop, IfOk, OnErr};
ghost use Rattle.nulbiko.specs.Reported.{nothing_reported};
ghost use Rattle.nulbiko.specs.Mdoc.{TurnsPage, code_of};

use super::pages::{Pages, hand_over};
use super::reported::{DONE, FULL, OUT_OF_MEMORY, Report, TOO_LONG, UNREADABLE, code_within};
use super::text::Text;
use mdoc_converter::{Block, RunEnd, convert};
use nr_vectors::CountedAlloc;
use std::alloc::{AllocError, Global};

/// The bytes of what is to go out.
const PENDING_SIZE: usize = 131_072;

/// The room for lists and displays that are open.
const MOST_BLOCKS: usize = 64;

/// The number of an outcome.
fn code(outcome: RunEnd) -> u32
    ensures value { result ≡ code_of outcome }
    ensures not_range { result ≢ 2 }
    ensures not_memory { result ≢ 5 }
{
    match outcome {
        RunEnd::Done => DONE,
        RunEnd::WriteFault => FULL,
        RunEnd::TooLong => TOO_LONG,
        RunEnd::ReadFault { .. } => UNREADABLE,
    }
}

/// Turns the page, hands over what comes out and gives the number of the outcome.
fn turn_page(
    alloc: Global,
    input: &[u8],
    output: &mut [u8],
    reported: &mut Report,
) -> Result<u32, AllocError>
    ensures turned { IfOk result (λ code. TurnsPage input.now output.new reported.new code) }
    ensures not_memory { IfOk result (λ code. code ≢ 5) }
    ensures untouched { OnErr result ((output.new ≡ output.old) × (reported.new ≡ reported.old)) }
    ensures rest { drop reported.new.written output.new ≡ drop reported.new.written output.old }
{
    let mut pending = vec![in alloc; 0u8; PENDING_SIZE]?;
    let mut blocks = vec![in alloc; Block::NONE; MOST_BLOCKS]?;
    let mut pages = Pages::new(&mut CountedAlloc::new(alloc), output.len())?;
    let mut text = Text::over(input);
    let mut steps = 0;
    let outcome = convert(&mut text, &mut pages, &mut blocks, &mut pending, &mut steps);
    let bytes = pages.as_slice();
    let written = hand_over(bytes, output);
    *reported = Report {
        written,
        at: 0,
        moves: steps,
        limit: 0,
        dropped: 0,
        line: 0,
    };
    Ok(code_within(code(outcome), bytes.len(), output.len()))
}

/// Turns a page of mdoc(7) into one of man(7), into a buffer, reports how it went, and gives the number of the outcome: 0 done,
/// 4 the buffer is full, 5 there is not enough memory, 6 the text is too long. A text that isn't one goes out as it is.
///
/// Proved: What mdoc, preconv and tbl hand over is what `convert` of their crates puts out, and the steps are those
/// that it reports; of what is wrong with tables the first is reported, with its line, and their boxes are those of
/// the table of characters that is given. Where memory is refused nothing is done. (`nulbiko_mdoc_lent`,
/// `nulbiko_preconv_lent` in preconv.rt, `nulbiko_tbl_lent` in tbl.rt)
#[unsafe(no_mangle)]
pub extern "C" fn nulbiko_mdoc_lent(
    alloc: Global,
    input: &[u8],
    output: &mut [u8],
    reported: &mut Report,
) -> u32
    ensures turned { result ≢ 5 → TurnsPage input.now output.new reported.new result }
    ensures no_memory { result ≡ 5 → (output.new ≡ output.old) × (reported.new ≡ nothing_reported) }
    ensures rest { drop reported.new.written output.new ≡ drop reported.new.written output.old }
{
    *reported = Report::nothing();
    match turn_page(alloc, input, output, reported) {
        Ok(code) => code,
        Err(_) => OUT_OF_MEMORY,
    }
}
