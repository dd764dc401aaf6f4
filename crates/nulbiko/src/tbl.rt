// The tables of a text become lines, as tbl sets them.
ghost use Rattle.std.specs.Prelude.{◌≡◌, ◌≢◌, ◌↔◌, ◌+◌, ◌<◌, drop, length, IfOk, OnErr};
ghost use Rattle.nulbiko.specs.Tables.{table_numbered};
ghost use Rattle.nulbiko.specs.Reported.{nothing_reported};
ghost use Rattle.nulbiko.specs.Tbl.{SetsByOwn, SetsTables, code_of, first_kind, first_line, kind_number, limits};
ghost use Rattle.tbl_setting.specs.Running.{memory_of};
ghost use Rattle.tbl_setting.specs.Drawing.{signs_of};
ghost use Rattle.utf8_own_page.specs.Needing.{prefix_of};
ghost use Rattle.preconv_coding.specs.UnderCoding.{text_of};
ghost use Rattle.nulbiko.specs.Looked.{all_stages};
ghost use Rattle.nulbiko.specs.Own.{LookIsShort};

use super::looked::look_at;
use super::pages::{Pages, hand_over};
use super::reported::{
    DONE, FULL, OUT_OF_MEMORY, OUT_OF_RANGE, Report, TOO_LONG, UNREADABLE, code_within,
};
use super::tables::{MOST_TABLES, table_of};
use super::text::Text;
use nr_vectors::CountedAlloc;
use nr_vectors::slice_vec::SliceVec;
use std::alloc::{AllocError, Global};
use tbl_setting::{Complaint, Kind, ReadEnd, Rooms, Signs, convert, signs_of};
use utf8_own_page::signs_of as own_signs_of;

/// The most bytes of a table that are held.
const TABLE: usize = 262_144;

/// The most bytes of a line of a row.
const ROW: usize = 16_384;

/// The number of an outcome.
fn code(outcome: ReadEnd) -> u32
    ensures value { result ≡ code_of outcome }
    ensures not_range { result ≢ 2 }
    ensures not_memory { result ≢ 5 }
{
    match outcome {
        ReadEnd::Done => DONE,
        ReadEnd::WriteFault => FULL,
        ReadEnd::TooLong => TOO_LONG,
        ReadEnd::ReadFault { .. } => UNREADABLE,
    }
}

/// The number of what is wrong.
fn kind_number(kind: Kind) -> u32
    ensures { result ≡ kind_number kind }
{
    match kind {
        Kind::NoFormat => 1,
        Kind::BadFormat(_) => 2,
        Kind::UnknownOption(_) => 3,
        Kind::TooManyFields => 4,
        Kind::OpenBlock(_) => 5,
        Kind::OpenTable(_) => 6,
        Kind::TooManyColumns => 7,
        Kind::FormatsLimit => 8,
        Kind::RowLimit => 9,
        Kind::TooWide => 10,
        Kind::BadArgument(_) => 11,
        Kind::UnsetRequest(_) => 12,
    }
}

/// What is reported of the first complaint: its number and its line, and 0 where there is none.
fn first_wrong(complaints: &[Complaint]) -> (u32, u64)
    ensures kind { result.0 ≡ first_kind complaints.now }
    ensures place { result.1 ≡ first_line complaints.now }
{
    match complaints.split_first() {
        Some((first, _)) => (kind_number(first.kind), first.line),
        None => (0, 0),
    }
}

/// Sets the tables with these frames, hands over what comes out and gives the number of the outcome.
fn set_tables(
    alloc: &mut CountedAlloc,
    signs: Signs,
    line: usize,
    input: &[u8],
    output: &mut [u8],
    reported: &mut Report,
) -> Result<u32, AllocError>
    ensures set { IfOk result (λ code. SetsTables signs line input.now output.new reported.new code) }
    ensures taken { IfOk result (λ code. alloc.new ≡ alloc.old + memory_of limits + length output.old) }
    ensures not_range { IfOk result (λ code. code ≢ 2) }
    ensures not_memory { IfOk result (λ code. code ≢ 5) }
    ensures untouched { OnErr result ((output.new ≡ output.old) × (reported.new ≡ reported.old)) }
    ensures rest { drop reported.new.written output.new ≡ drop reported.new.written output.old }
{
    let mut rooms = Rooms::drawn_with(alloc, TABLE, ROW, line, signs)?;
    let pages = Pages::new(alloc, output.len())?;
    let mut text = Text::over(input);
    let mut slots = [Complaint::NONE];
    let mut complaints = SliceVec::over(&mut slots);
    let (report, pages) = convert(&mut text, pages, &mut rooms, &mut complaints);
    let (limit, at) = first_wrong(complaints.as_slice());
    let bytes = pages.as_slice();
    let written = hand_over(bytes, output);
    *reported = Report {
        written,
        at,
        moves: 0,
        limit,
        dropped: 0,
        line: 0,
    };
    Ok(code_within(code(report.outcome), bytes.len(), output.len()))
}

/// Turns the tables of a text into the language of the formatter, for a line of so many cells, into a buffer, reports how it went
/// and what was wrong first, and gives the number of the outcome: 0 done, 2 no table has the number, 4 the buffer is full, 5
/// there is not enough memory, 6 the text is too long. Boxes are drawn with the characters of the table, where it has them;
/// 0 is the number of none, and then they are drawn in ASCII.
#[unsafe(no_mangle)]
pub extern "C" fn nulbiko_tbl_lent(
    alloc: Global,
    table: u32,
    line: usize,
    input: &[u8],
    output: &mut [u8],
    reported: &mut Report,
) -> u32
    ensures ranges { (result ≡ 2) ↔ (5 < table) }
    ensures set { result ≢ 2 → result ≢ 5
        → SetsTables (signs_of (table_numbered table)) line input.now output.new reported.new result }
    ensures bad { result ≡ 2 → (output.new ≡ output.old) × (reported.new ≡ nothing_reported) }
    ensures no_memory { result ≡ 5 → (output.new ≡ output.old) × (reported.new ≡ nothing_reported) }
    ensures rest { drop reported.new.written output.new ≡ drop reported.new.written output.old }
{
    *reported = Report::nothing();
    if table > MOST_TABLES {
        return OUT_OF_RANGE;
    }
    let mut counted = CountedAlloc::new(alloc);
    let signs = signs_of(table_of(table));
    match set_tables(&mut counted, signs, line, input, output, reported) {
        Ok(code) => code,
        Err(_) => OUT_OF_MEMORY,
    }
}

/// The same, where boxes are drawn with the characters that the table of this page has.
#[unsafe(no_mangle)]
pub extern "C" fn nulbiko_tbl_own_lent(
    alloc: Global,
    page: &[u8],
    line: usize,
    input: &[u8],
    output: &mut [u8],
    reported: &mut Report,
) -> u32
    ensures set { result ≢ 5 → LookIsShort all_stages (prefix_of (text_of page.now))
        → SetsByOwn (text_of page.now) line input.now output.new reported.new result }
    ensures not_range { result ≢ 2 }
    ensures no_memory { result ≡ 5 → (output.new ≡ output.old) × (reported.new ≡ nothing_reported) }
    ensures rest { drop reported.new.written output.new ≡ drop reported.new.written output.old }
{
    *reported = Report::nothing();
    let Ok(cells) = look_at(alloc, page) else {
        return OUT_OF_MEMORY;
    };
    let signs = own_signs_of(&cells.table());
    let mut counted = CountedAlloc::new(alloc);
    match set_tables(&mut counted, signs, line, input, output, reported) {
        Ok(code) => code,
        Err(_) => OUT_OF_MEMORY,
    }
}
