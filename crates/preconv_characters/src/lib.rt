//! Characters of manual pages: their names and what they look like, what goes out for them, what they are for what stands
//! after them; the words of font macros, and the names of requests and macros. Nothing here knows what is half read.
//!
//! It stands on nr_units, nr_vectors, utf8_characters and unicode_normalization. To read: `numbers`, `pairs`, `glyphs`,
//! `composed`; `target`, `signs`, `likeness`, `said`; `marks`, `words`, `beginnings`.
#![tactic(auto)]

mod beginnings;
mod composed;
mod glyphs;
mod likeness;
mod marks;
mod numbers;
mod pairs;
mod said;
mod signs;
mod target;
mod words;

pub use beginnings::{Opens, is_known, opened, said_name};
pub use composed::{Marked, has_marks, lacks_letter, marked_by};
pub use glyphs::{
    code_of, font_of, glyph_code, is_native, is_pair, is_struck, overstruck, quote_of, string_code,
};
pub use likeness::{CUT, is_blank, put_likeness};
pub use marks::{Before, Mark, is_ascii_letter, is_hang, mark_of, wide_mark};
pub use numbers::{begins_number, is_number};
pub use said::{Said, may_go_out, put_sent, say, say_character, sent};
pub use target::Target;
pub use words::{Class, Emitted, Fonts, Place, WordFont, Words};
