// A text is formatted under limits.
ghost use Rattle.std.specs.Prelude.{◌≡◌, ◌≢◌, ◌↔◌, ◌+◌, drop, length, IfOk, OnErr};
ghost use Rattle.nr_machine.specs.Lengths.{sizes_of, sum_of};
ghost use Rattle.nr_options.specs.Limits.{AreLimits};
ghost use Rattle.nulbiko.specs.Reported.{count_reported, nothing_reported};
ghost use Rattle.nulbiko.specs.Formatting.{AreAsked, FormatsText, bounds_of, code_of, faces_of, limit_number, limit_reported, place_reported};

use super::pages::{Pages, hand_over};
use super::reported::{
    DONE, FULL, LIMIT, OUT_OF_MEMORY, OUT_OF_RANGE, Report, TOO_LONG, UNREADABLE, code_within,
    count_reported,
};
use super::text::Text;
use nr_engine::{CountedAlloc, Desk, Faces, Limits, Measure, Options, Outcome, format};
use std::alloc::{AllocError, Global};

/// The limits.
#[repr(C)]
#[derive(Clone, Copy)]
pub struct TextLimits {
    /// The bytes stored, 64 to 2^24.
    pub stored: u64,
    /// The depth of the input, 1 to 4096.
    pub depth: u64,
    /// The cells of a line, and those of a page, 1 to 2^24.
    pub cells: u64,
    /// The expansions between two bytes of the input, 1 to 2^32.
    pub expansions: u64,
    /// All moves of a run, 64 to 2^64 - 1.
    pub moves: u64,
}

/// What a run is given beside its text and its limits.
#[repr(C)]
#[derive(Clone, Copy)]
pub struct TextOptions {
    /// The number of the first page. One outside -2147483647 to 2147483647 sets nothing.
    pub first: i64,
    /// Bold is shown, and all that is underlined; else underlined letters and digits of ASCII.
    pub bold: bool,
}

/// The number of a limit: 1 for stored bytes, 2 depth, 3 cells of a line, 4 cells of a page, 5 expansions, 6 moves.
pub(crate) fn limit_number(which: Measure) -> u32
    ensures { result ≡ limit_number which }
{
    match which {
        Measure::Stored => 1,
        Measure::Depth => 2,
        Measure::LineCells => 3,
        Measure::PageCells => 4,
        Measure::Expansions => 5,
        Measure::Moves => 6,
    }
}

/// The number of an outcome.
fn code(outcome: Outcome) -> u32
    ensures value { result ≡ code_of outcome }
    ensures not_range { result ≢ 2 }
    ensures not_memory { result ≢ 5 }
{
    match outcome {
        Outcome::Done => DONE,
        Outcome::Limit { .. } => LIMIT,
        Outcome::WriteFault => FULL,
        Outcome::TooLong => TOO_LONG,
        Outcome::ReadFault { .. } => UNREADABLE,
    }
}

/// What is reported of a run of so many moves that wrote so many bytes.
fn report_of(outcome: Outcome, written: usize, moves: u128) -> Report
    ensures written { result.written ≡ written }
    ensures moves { result.moves ≡ count_reported moves }
    ensures limit { result.limit ≡ limit_reported outcome }
    ensures place { result.at ≡ place_reported outcome }
    ensures none_dropped { result.dropped ≡ 0 }
    ensures no_line { result.line ≡ 0 }
{
    let (limit, at) = match outcome {
        Outcome::Limit { which, at } => (limit_number(which), at),
        _ => (0, 0),
    };
    Report {
        written,
        at,
        moves: count_reported(moves),
        limit,
        dropped: 0,
        line: 0,
    }
}

/// The faces that show where bold is asked for, and where it isn't.
fn faces_of(bold: bool) -> Faces
    ensures { result ≡ faces_of bold }
{
    if bold { Faces::All } else { Faces::Letters }
}

/// The options that are asked for.
pub(crate) fn options_of(asked: TextOptions) -> Options
    ensures { AreAsked asked result }
{
    let mut options = Options::plain();
    options.first = asked.first;
    options.faces = faces_of(asked.bold);
    options
}

/// Formats the text in a desk, hands its pages over and gives the number of the outcome.
///
/// Proved: A call takes as many elements of memory as its limits and the caller's buffer ask for, by the count of the
/// allocator. (`taken` of `format_text`, of `set_tables` in tbl.rt, of `Memory::new` in printed.rt and of `prepare` in document.rt)
fn run_desk(
    alloc: &mut CountedAlloc,
    desk: &mut Desk,
    asked: TextOptions,
    input: &[u8],
    output: &mut [u8],
    reported: &mut Report,
) -> Result<u32, AllocError>
    ensures formatted { IfOk result (λ code. FormatsText desk.old asked input.now output.new reported.new code) }
    ensures taken { IfOk result (λ code. alloc.new ≡ alloc.old + length output.old) }
    ensures not_range { IfOk result (λ code. code ≢ 2) }
    ensures not_memory { IfOk result (λ code. code ≢ 5) }
    ensures untouched { OnErr result ((output.new ≡ output.old) × (reported.new ≡ reported.old)) }
    ensures rest { drop reported.new.written output.new ≡ drop reported.new.written output.old }
{
    let mut pages = Pages::new(alloc, output.len())?;
    let options = options_of(asked);
    let mut text = Text::over(input);
    let mut moves = 0;
    let outcome = format(desk.lend(), &options, &mut text, &mut pages, &mut moves);
    let bytes = pages.as_slice();
    let written = hand_over(bytes, output);
    *reported = report_of(outcome, written, moves);
    Ok(code_within(code(outcome), bytes.len(), output.len()))
}

/// Formats the text in a desk of its own.
fn format_text(
    alloc: &mut CountedAlloc,
    limits: Limits,
    asked: TextOptions,
    input: &[u8],
    output: &mut [u8],
    reported: &mut Report,
) -> Result<u32, AllocError>
    ensures formatted { IfOk result (λ code. FormatsText limits asked input.now output.new reported.new code) }
    ensures taken { IfOk result (λ code. alloc.new ≡ alloc.old + sum_of (sizes_of limits) + length output.old) }
    ensures not_range { IfOk result (λ code. code ≢ 2) }
    ensures not_memory { IfOk result (λ code. code ≢ 5) }
    ensures untouched { OnErr result ((output.new ≡ output.old) × (reported.new ≡ reported.old)) }
    ensures rest { drop reported.new.written output.new ≡ drop reported.new.written output.old }
{
    let mut desk = Desk::new(alloc, limits)?;
    run_desk(alloc, &mut desk, asked, input, output, reported)
}

/// Formats a text under limits into a buffer, reports how it went, and gives the number of the outcome: 0 done, 1 a limit would
/// be passed, 2 the limits are out of range, 4 the buffer is full, 5 there is not enough memory, 6 the text is too long.
///
/// Proved: Formatting a text under limits makes the moves of the machine, stops where `format` does, and hands over
/// the pages: as many of their bytes as fit are at the beginning of the output, their count is reported, and the
/// number is 4 where not all fit. The number, the limit and its place are those of the outcome, the moves those that
/// were made, cut at 2^64 - 1.
/// Proved: The number is 2 exactly where a limit is outside its range, or where no table has the number that is
/// given. Then, and where memory is refused (5), the output is as it was, and the report has zeros.
/// (`nulbiko_format_lent`, `nulbiko_preconv_lent` in preconv.rt, `nulbiko_tbl_lent` in tbl.rt, `nulbiko_utf8_lent` in
/// utf8.rt)
#[unsafe(no_mangle)]
pub extern "C" fn nulbiko_format_lent(
    alloc: Global,
    limits: &TextLimits,
    options: &TextOptions,
    input: &[u8],
    output: &mut [u8],
    reported: &mut Report,
) -> u32
    ensures ranges { (result ≡ 2) ↔ (AreLimits (bounds_of limits.now) → ⊥) }
    ensures formatted { result ≢ 2 → result ≢ 5
        → FormatsText (bounds_of limits.now) options.now input.now output.new reported.new result }
    ensures bad { result ≡ 2 → (output.new ≡ output.old) × (reported.new ≡ nothing_reported) }
    ensures no_memory { result ≡ 5 → (output.new ≡ output.old) × (reported.new ≡ nothing_reported) }
    ensures rest { drop reported.new.written output.new ≡ drop reported.new.written output.old }
{
    *reported = Report::nothing();
    let Some(bounds) = Limits::new(
        limits.stored,
        limits.depth,
        limits.cells,
        limits.expansions,
        limits.moves,
    ) else {
        return OUT_OF_RANGE;
    };
    let mut counted = CountedAlloc::new(alloc);
    match format_text(&mut counted, bounds, *options, input, output, reported) {
        Ok(code) => code,
        Err(_) => OUT_OF_MEMORY,
    }
}
