//! What is half read of a manual page, and what a character does to it: lines with their requests, words, hyphens and
//! sentences, escapes and the names in them.
//!
//! It stands on nr_units and preconv_characters. To read: `half`; `translations`, `hyphens`, `sentences`, `endings`, `faces`;
//! `conditions`, `lines`; `skipping`, `letters`, `named`, `spelling`, `escapes`; `offering`, which puts them together.
#![tactic(auto)]

mod conditions;
mod endings;
mod escapes;
mod faces;
mod half;
mod hyphens;
mod letters;
mod lines;
mod named;
mod offering;
mod sentences;
mod skipping;
mod spelling;
mod translations;

pub use half::{Asked, Coming, Dots, Escape, Half, Kind, Line, Pair, Seen, TablePart, Tag};
