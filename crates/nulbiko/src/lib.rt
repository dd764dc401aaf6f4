//! Formatting for programs in C: calls on numbers, structs and slices of bytes, thin over those of document_printing, nr_engine,
//! preconv_converter, mdoc_converter, tbl_setting and utf8_converter. `include/nulbiko.h` declares them for C.
//!
//! It stands on these, document_reader, utf8_own_page, utf8_own_sink, utf8_own_characters, document_stages, tbl_reader, preconv_coding, utf8_characters, nr_options, nr_vectors and nr_units. To read: `text`,
//! `coded`, `pages`; `reported`, `tables`; `formatting`; `preconv`, `mdoc`, `tbl`, `utf8`; `printed`, `document`, `own`; `kept`, `parts`, `handle`, `opened`; `handed`, `looked`, `staged`.
//!
//! Proved: The library for C. Its contracts are those of its calls `nulbiko_NAME_lent`; those of the header,
//! `nulbiko_NAME`, are C (include/nulbiko.c; in the plain build Rust, tools/library/nulbiko_c): they test for null
//! and for sizes, and call them.
//! Proved: A read fault is never reported where one stage is called. (`readable` of what each of these ensures)
#![tactic(auto)]

mod coded;
mod document;
mod formatting;
mod handed;
mod handle;
mod kept;
mod looked;
mod mdoc;
mod opened;
mod own;
mod pages;
mod parts;
mod preconv;
mod printed;
mod reported;
mod staged;
mod tables;
mod tbl;
mod text;
mod utf8;

pub use document::{DocumentOptions, DocumentSetup, TableLimits};
pub use formatting::{TextLimits, TextOptions};
pub use handle::Handle;
pub use kept::Kept;
pub use reported::Report;
