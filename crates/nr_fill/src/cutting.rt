// Which pieces go out in one line, and how they are set.
ghost use Rattle.std.specs.Prelude.{◌≡◌, ◌+◌, ◌<◌, ◌≤◌, ◌^◌, ◌++◌, List, length, get_or};
ghost use Rattle.nr_vectors.specs.declared.cell.Cell.{Cell as CellValue};
ghost use Rattle.nr_fill.specs.Cutting.{cut, join_width};
ghost use Rattle.nr_fill.specs.Extents.{IsExtent};
ghost use Rattle.nr_fill.specs.Slots.{blank_slot, pieces_of, cells_in_slots, slots_width, gap_slots};
ghost use Rattle.nr_fill.specs.Spreading.{blanks_before, cells_in_line, next_gap};

use crate::cells::CellSink;
use crate::measured::Extent;
use crate::piece::{Join, PieceSlot};
use crate::setting::Extra;
use nr_vectors::cell::Cell;

/// What the pieces of a line come to.
#[derive(Clone, Copy)]
pub(crate) struct Sums {
    pub(crate) cells: usize,
    /// How wide they are with all their gaps, the first one's too.
    pub(crate) wide: usize,
    /// How many of them but the first hang on a gap.
    pub(crate) gaps: usize,
}

/// The number of pieces in the longest prefix that fits the line, and 1 where none does.
pub(crate) fn longest_prefix(slots: &[PieceSlot], line: usize) -> usize
    requires some { 0 < length slots.now }
    requires wide { slots_width slots.now < 2 ^ 63 }
    ensures pieces { (cells : List CellValue) → cells_in_slots slots.now ≤ length cells
        → result ≡ cut line (pieces_of slots.now cells) }
    ensures some { 0 < result }
    ensures within { result ≤ length slots.now }
{
    let mut best = 1;
    let mut width = slots[0].len as usize;
    let mut count = 1;
    while count < slots.len() && width <= line {
        let PieceSlot { join, len } = slots[count];
        if width + usize::from(join.hyphen()) <= line {
            best = count;
        }
        width += usize::from(join.width()) + len as usize;
        count += 1;
    }
    if width <= line { count } else { best }
}

/// The same, from the last piece on. The pieces are so wide without the gap before the first.
pub(crate) fn longest_prefix_from_end(slots: &[PieceSlot], wide: usize, line: usize) -> usize
    requires some { 0 < length slots.now }
    requires wide { slots_width slots.now ≡ wide + join_width (get_or slots.now 0 blank_slot).join }
    requires small { wide < 2 ^ 63 }
    ensures pieces { (cells : List CellValue) → cells_in_slots slots.now ≤ length cells
        → result ≡ cut line (pieces_of slots.now cells) }
    ensures some { 0 < result }
    ensures within { result ≤ length slots.now }
{
    let mut count = slots.len();
    let mut width = wide;
    let mut hyphen = 0;
    while count > 1 && width + hyphen > line {
        count -= 1;
        let PieceSlot { join, len } = slots[count];
        width -= usize::from(join.width()) + len as usize;
        hyphen = usize::from(join.hyphen());
    }
    count
}

/// What these pieces come to.
pub(crate) fn sums_of(slots: &[PieceSlot]) -> Sums
    requires some { 0 < length slots.now }
    requires wide { slots_width slots.now < 2 ^ 63 }
    ensures cells { result.cells ≡ cells_in_slots slots.now }
    ensures wide { result.wide ≡ slots_width slots.now }
    ensures gaps { result.gaps ≡ gap_slots slots.now }
{
    let PieceSlot { join, len } = slots[0];
    let mut cells = len as usize;
    let mut wide = usize::from(join.width()) + cells;
    let mut gaps = 0;
    let others = &slots[1..];
    for slot in others {
        cells += slot.len as usize;
        wide += usize::from(slot.join.width()) + slot.len as usize;
        gaps += usize::from(matches!(slot.join, Join::Gap(_)));
    }
    Sums { cells, wide, gaps }
}

/// How many blanks stand before a piece that is not the first, and has this gap where it hangs on one.
#[inline]
pub(crate) fn blanks_of(join: Join, extra: Extra, gap: usize) -> usize
    requires each { extra.each < 2 ^ 62 }
    ensures { result ≡ blanks_before extra gap join }
{
    match join {
        Join::Gap(blanks) => usize::from(blanks) + extra.at(gap),
        Join::Soft | Join::Hard => 0,
    }
}

/// The number of the next gap.
#[inline]
pub(crate) fn gap_after(join: Join, gap: usize) -> usize
    requires gap { gap < 2 ^ 62 }
    ensures next { result ≡ next_gap gap join }
    ensures near { result ≤ gap + 1 }
{
    match join {
        Join::Gap(_) => gap + 1,
        Join::Soft | Join::Hard => gap,
    }
}

/// Sets these pieces in the row after what stands there, and tells how far they reach.
pub(crate) fn set_pieces<S: CellSink>(
    slots: &[PieceSlot],
    cells: &[Cell],
    extra: Extra,
    out: &mut S,
) -> Extent
    requires some { 0 < length slots.now }
    requires cells { cells_in_slots slots.now ≤ length cells.now }
    requires each { extra.each < 2 ^ 62 }
    requires few { length slots.now < 2 ^ 32 }
    ensures set { S.Adds out.old (cells_in_line extra (pieces_of slots.now cells.now)) out.new }
    ensures extent { IsExtent (cells_in_line extra (pieces_of slots.now cells.now)) result.count
        result.written }
{
    let mut taken = slots[0].len as usize;
    out.extend(&cells[..taken]);
    let mut extent = Extent::none().with_cells(&cells[..taken]);
    let mut gap = 1;
    let others = &slots[1..];
    for slot in others {
        let blanks = blanks_of(slot.join, extra, gap);
        out.blanks(blanks);
        gap = gap_after(slot.join, gap);
        let end = taken + slot.len as usize;
        out.extend(&cells[taken..end]);
        extent = extent.with_blanks(blanks).with_cells(&cells[taken..end]);
        taken = end;
    }
    extent
}
