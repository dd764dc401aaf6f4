//! What the command line says, and files read one after the other.
//!
//! It stands on nr_units, nr_page and nr_options. To read: `usage`, `texts`, `settings`, `job`, `arguments`;
//! `inputs`; `chained`, `files`.
#![tactic(auto)]

mod arguments;
mod chained;
mod files;
mod inputs;
mod job;
mod settings;
mod texts;
mod usage;

pub use arguments::read_words;
pub use chained::Chain;
pub use files::chain;
pub use inputs::{Input, MacroFile};
pub use job::{Job, MOST_MACROS};
pub use usage::{Case, Usage, usage_line};
