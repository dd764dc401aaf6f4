//! A row of a page.
ghost use Rattle.std.specs.Prelude.{◌≡◌, ℕ, ◌+◌, ◌-◌, ◌≤◌, length};
ghost use Rattle.nr_pool.specs.Texts.{IsOpen, text as text_of, used, with_text};
ghost use Rattle.nr_page.specs.Overlay.{overlaid};

use nr_pool::{Id, Pool};
use nr_vectors::cell::Cell;

pub(crate) const BLANK: u8 = b' ';

/// A row on which cells were placed, with its text in the page's pool.
#[derive(Clone, Copy)]
pub struct RowSlot {
    // counted from 0 at the top of the page
    pub(crate) number: u32,
    pub(crate) text: Id,
}

impl RowSlot {
    ghost use Rattle.nr_page.specs.Rows.{no_row};

    /// A value to fill a new slice with. Which one is of no account.
    pub fn blank() -> Self
        ensures { result ≡ no_row }
    {
        RowSlot {
            number: 0,
            text: Id::blank(),
        }
    }
}

/// Lays cells over a text. A blank hides nothing.
pub(crate) fn lay_over(texts: &mut Pool<Cell>, id: Id, cells: &[Cell])
    requires is_open { IsOpen texts.old id }
    requires fits { used texts.old + (length cells.now - length (text_of texts.old id)) ≤ texts.old.capacity }
    ensures { texts.new ≡ with_text texts.old id (overlaid (text_of texts.old id) cells.now) }
{
    let common = texts.len(id).min(cells.len());
    for column in 0..common {
        let cell = cells[column];
        if cell.byte != BLANK {
            texts.set(id, column, cell);
        }
    }
    texts.append_slice(id, &cells[common..]).unwrap();
}
