//! How a page is set, and how it ended.

use document_reader::Stages;
use nr_engine::{Measure, Options};
use preconv_characters::Target;

/// How a page is set.
#[derive(Clone, Copy)]
pub struct Setup<'a> {
    /// What is read before it: macro files.
    pub macros: &'a [u8],
    /// The stages before the formatter.
    pub stages: Stages,
    /// Tables are set.
    pub tables: bool,
    /// What its characters become.
    pub characters: Target,
    /// What the formatter is given.
    pub options: &'a Options,
}

/// How a page ended.
#[derive(Clone, Copy, Debug, PartialEq, Eq)]
pub enum PageEnd {
    /// All went out.
    Done,
    /// The formatter would pass a limit after so many bytes of what it reads, macros first.
    Limit {
        /// Which.
        which: Measure,
        /// Where.
        at: u64,
    },
    /// What goes out of a table at once has no room.
    NoRoom,
    /// The input failed.
    ReadFault,
    /// A stage was given 2^40 bytes or more.
    TooLong,
    /// The output failed.
    WriteFault,
}

/// How a page ended, and what is reported beside it.
#[derive(Clone, Copy, Debug, PartialEq, Eq)]
pub struct Report {
    /// How it ended.
    pub outcome: PageEnd,
    /// The line of the page that was read last, from 1 on; 0 where none was read.
    pub line: u64,
    /// How many moves the formatter made.
    pub moves: u128,
    /// How many complaints there are about tables, in the first of the slots.
    pub complaints: usize,
    /// There were more than there was room for.
    pub missed: bool,
}
