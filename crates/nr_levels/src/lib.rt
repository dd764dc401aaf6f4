//! Levels of input: the stack of texts that are being read, with the arguments in force, in memory that is taken once.
//!
//! It stands on nr_vectors and nr_pool. To read: `frame`, `stack`, `spans`, `levels`; `gathering`.
#![tactic(auto)]

pub mod frame;
pub mod gathering;
pub mod levels;
mod spans;
pub mod stack;

pub use frame::{Frame, Next, NextItem, Rest, Span};
pub use gathering::Gathering;
pub use levels::Levels;
pub use stack::Stack;
