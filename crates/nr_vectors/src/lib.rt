//! Vectors that never grow past the room that they were given: over a slice that is lent, or with memory that is taken once
//! for as many items as there may ever be. What isn't used of that isn't touched. And `Cell`, what output lines are vectors of.
//!
//! It stands on no crate of the repository. To read: `cell`, `slots`, `slice_vec`; `counted_alloc`, `reserved_vec`, `reserved_array`, `fixed_vec`.
//!
//! Proved: The invariant that the capacity is that of its vector, and a call `memory` that asks the vector, have also
//! `Pool` (nr_pool: `Pool::{element_memory, text_memory}`), `Queue` (nr_fill), `Stack` (nr_levels) and `GapVec`
//! (nr_page). Whatever holds one of the five says by its own invariant which room it has under its limits, up to
//! nr_engine.
#![tactic(auto)]

pub mod cell;
mod counted_alloc;
mod fixed_vec;
mod reserved_array;
mod reserved_vec;
pub mod slice_vec;
mod slots;

pub use counted_alloc::CountedAlloc;
pub use fixed_vec::FixedVec;
pub use reserved_array::ReservedArray;
pub use reserved_vec::ReservedVec;
