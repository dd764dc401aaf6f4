//! What the other crates of the formatter stand on: units, number expressions, the texts of numbers, names, and where
//! bytes come from and go to.
//!
//! It stands on no crate of the repository. To read: `units`; `operators`, `symbols`, `expression`, `prefix`,
//! `level`, `scanner`, `longest_prefix`; `number_text`; `name`; `source`, `sink`, `over_std`, `buffered`; `fakes`.
#![tactic(auto)]

pub mod buffered;
mod expression;
pub mod fakes;
mod level;
mod longest_prefix;
mod name;
mod number_text;
mod operators;
pub mod over_std;
mod prefix;
mod scanner;
pub mod sink;
pub mod source;
mod symbols;
mod units;

pub use expression::{Ctx, Read};
pub use longest_prefix::read_expr;
pub use name::Name;
pub use number_text::{Format, format_number};
pub use units::{Scale, round_h, round_v};
