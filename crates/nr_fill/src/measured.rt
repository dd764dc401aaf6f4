//! How far cells reach.
ghost use Rattle.std.specs.Prelude.{◌≡◌, ◌-◌, ◌≤◌, length, replicate};
ghost use Rattle.std.specs.List.{suffix_len};
ghost use Rattle.nr_vectors.specs.Cell.{blank, is_blank};
ghost use Rattle.nr_fill.specs.Extents.{AddsToExtent, IsExtent, written_after};

use nr_vectors::cell::Cell;

/// How many cells there are, and how many up to the last that is no blank.
#[derive(Clone, Copy)]
pub struct Extent {
    pub(crate) count: usize,
    pub(crate) written: usize,
}

impl Extent {
    /// No cells.
    #[inline]
    pub(crate) fn none() -> Self
        ensures none { result.count ≡ 0 }
        ensures blank { result.written ≡ 0 }
    {
        Extent {
            count: 0,
            written: 0,
        }
    }

    /// How far these cells reach.
    #[inline]
    pub fn of(cells: &[Cell]) -> Self
        ensures { IsExtent cells.now result.count result.written }
    {
        Extent::none().with_cells(cells)
    }

    /// These cells more.
    #[inline]
    pub(crate) fn with_cells(self, cells: &[Cell]) -> Self
        ensures { AddsToExtent self.count self.written cells.now result.count result.written }
    {
        Extent {
            count: self.count.saturating_add(cells.len()),
            written: written_after(self.written, self.count, written_len(cells)),
        }
    }

    /// So many blanks more.
    #[inline]
    pub(crate) fn with_blanks(self, n: usize) -> Self
        ensures { AddsToExtent self.count self.written (replicate n blank) result.count result.written }
    {
        Extent {
            count: self.count.saturating_add(n),
            written: self.written,
        }
    }
}

/// How many cells there are up to the last that is no blank, where `more` of those that were added are, after
/// `count` cells of which `written` are.
#[inline]
pub(crate) fn written_after(written: usize, count: usize, more: usize) -> usize
    ensures { result ≡ written_after written count more }
{
    if more == 0 {
        written
    } else {
        count.saturating_add(more)
    }
}

/// How many cells stand up to the last that is no blank.
#[inline]
pub(crate) fn written_len(cells: &[Cell]) -> usize
    ensures value { result ≡ length cells.now - suffix_len is_blank cells.now }
    ensures within { result ≤ length cells.now }
{
    let mut len = cells.len();
    while len > 0 && cells[len - 1].byte == b' ' {
        len -= 1;
    }
    len
}
