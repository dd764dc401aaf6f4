//! Tab stops. (CSTR 54, section 9.)
use crate::piece::Point;
pub use nr_settings::{Stop, StopKind};
use nr_vectors::cell::Cell;

/// The text for a right or centring stop, while it is read.
#[derive(Clone, Copy)]
pub struct Field {
    /// How many cells of the piece stand before the text.
    pub(crate) before: usize,
    /// How many cells lie between the beginning of the text and the stop.
    pub(crate) width: usize,
    pub(crate) kind: StopKind,
    /// What is filled in before the text.
    pub(crate) fill: Cell,
}

/// What waits after the piece that is being read.
#[derive(Clone, Copy)]
pub enum Pending {
    Nothing,
    /// A break point stands there where one more cell comes.
    AtPoint(Point),
    /// The text for a right or centring stop is read up to its end.
    ForStop(Field),
}
