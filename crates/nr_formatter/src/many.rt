//! For speed: many moves at once: words, cells, empty lines, requests that only set. Each contract says only that so many steps of the meaning were made.

pub(crate) mod cell_bytes;
pub(crate) mod empty_lines;
pub(crate) mod obeying;
pub mod runs;
