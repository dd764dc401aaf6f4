//! The next item of the list.

use nr_vectors::cell::Cell;

/// The next item of the list.
#[derive(Clone, Copy)]
pub enum NextItem {
    /// The end of a level: its end mark.
    Mark,
    /// A byte.
    Byte(u8),
    /// A cell of a diverted line.
    Cell(Cell),
    /// The end of a diverted line of this height, in u.
    LineEnd(u32),
    /// The mark after a sprung text: what was under way before it goes on.
    Resume,
    /// The list is empty.
    Over,
}
