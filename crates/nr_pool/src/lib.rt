//! Texts in two vectors whose capacity is taken once. The elements of all texts lie in the one, without holes, and the
//! other says where each text lies and how many hold it. A text and a copy of it share their elements until one of the
//! two is changed but by more at the end of the copy.
//!
//! It stands on nr_vectors. To read: `pool`, then `sharing`, `packed` and `slot`.
#![tactic(auto)]

ghost use Rattle.std.specs.Prelude.{◌≡◌, nat_eq};

pub use crate::pool::Pool;
pub use crate::slot::Slot;
use std::marker::Model;

mod packed;
mod pool;
mod sharing;
mod slot;

/// There is no room for what was to be added.
#[derive(Clone, Copy, Debug, Drop)]
pub struct Full;

/// The number of a text of a `Pool`. It says nothing of which pool that is.
#[derive(Clone, Copy, Drop)]
pub struct Id {
    index: u32,
}

impl Model for Id {
    ghost use Rattle.std.specs.Prelude.{ℕ};

    ghost Value = { ℕ };

    ghost view = { λ a. a.index };

    ghost inverse = { λ n. record { index = n } };
}

impl Id {
    /// A number to fill a new slice with. It need not be that of a text.
    pub const fn blank() -> Id
        ensures { result ≡ 0 }
    {
        Id { index: 0 }
    }

    // Whether both are the same number.
    #[inline(always)]
    pub(crate) fn is(self, other: Id) -> bool
        ensures { result ≡ nat_eq self other }
    {
        self.index == other.index
    }
}
