//! The words of a command line, and a system of words and texts in memory for tests.
//!
//! It stands on std alone. To read: `arguments`; then `fakes`, for tests.
#![tactic(auto)]

mod arguments;
pub mod fakes;

pub use arguments::{CommandLine, SystemWords, words_of};
