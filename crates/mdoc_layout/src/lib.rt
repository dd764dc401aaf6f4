//! What is half read of a page of mdoc(7), and how what its macros say is laid out as text of man(7): words with fonts and
//! joints, requests, lists and their columns, dates, references.
//!
//! It stands on nr_units and nr_vectors. To read: `macros`, `page`, `acts`, `seen`; `lookup`, `lengths`, `texts`, `names`,
//! `libraries`, `lay`, `dates`, `own_lines`, `references`; `columns`, `blocks`; `lay_out`, which puts them together.
#![tactic(auto)]

mod acts;
mod blocks;
mod columns;
mod dates;
mod lay;
mod lay_out;
mod lengths;
mod libraries;
mod lookup;
mod macros;
mod names;
mod own_lines;
mod page;
mod references;
mod seen;
mod texts;

pub use acts::{Act, Request, Sized, Stack, Text};
pub use lay::{is_control, is_library, is_standard, is_version};
pub use lengths::{at_most, number_said, offset_named, width_named};
pub use lookup::named_in;
pub use macros::{Font, Macro, Pair, System};
pub use page::{
    Asks, At, Before, Block, Call, Dots, Escape, Following, Inside, Kind, Last, Lay, Page,
    Parameters, Place, Prefix, RowPart, Scan, Section, Split, Wanted,
};
pub use seen::Seen;
pub use texts::{closer, prefix_of};
