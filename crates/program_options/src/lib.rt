//! The words of the program nulbiko: what they ask for, and the line that reports a bad one.
//!
//! It stands on nr_options. To read: `plain`, `names`, `numbers`, `values`, `words`, `job`, `reading`; `locale`; `usage`.
#![tactic(auto)]

mod job;
mod locale;
mod names;
mod numbers;
mod plain;
mod reading;
mod usage;
mod values;
mod words;

pub use job::{Job, MOST_MACROS, MOST_SETTINGS, Setting};
pub use locale::device_of_locale;
pub use plain::{Device, Faces, Kind, Plain, Says};
pub use reading::read_words;
pub use usage::{Case, Usage, usage_line};
