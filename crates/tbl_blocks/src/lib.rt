//! The words of a text block, and its lines: as many words as fit in a width, one line after the other. Nothing here knows of
//! tables.
//!
//! A text is read as parts: a text in one font, how many cells it takes, and what stands before it. Parts are filled into lines,
//! which say by number which parts they have. Parts and lines are held in `Blocks`, with the strings whose text is known.
//!
//! It stands on nr_units, nr_vectors and nr_settings. To read: `parts`, `filling`; `units`, `requests`, `arguments`, `reading`,
//! `obeying`, `addresses`, `words`, `blocks`, `laws`.
#![tactic(auto)]

mod addresses;
mod arguments;
mod blocks;
mod filling;
mod laws;
mod lists;
mod obeying;
mod parts;
mod reading;
mod requests;
mod units;
mod words;

pub use blocks::Blocks;
pub use laws::{
    lines_fit, lines_stay, longest_fits, parts_are_added, parts_stand_once, width_is_that_of_w,
    words_are_read,
};
pub use parts::{Extent, Font, Join, Known, Line, Part, Seen};
pub use words::{
    after_blanks, arguments_of, is_request, is_unset, name_of, request_in, request_name,
};
