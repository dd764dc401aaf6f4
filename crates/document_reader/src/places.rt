//! The memory that a page is read in.
ghost use Rattle.std.specs.Prelude.{◌≤◌, length};

use super::page::Waits;
use document_stages::Ahead;
use mdoc_converter::Block;

/// How many bytes are read ahead at once.
const AHEAD: usize = 2_048;

/// The most lists and displays of mdoc(7) that are open.
const MOST_BLOCKS: usize = 64;

/// The room for what mdoc makes: more than one of its turns wants, so that it reads many bytes in one.
const MAN_ROOM: usize = 81_920;

/// The room for what characters become, of a thousand bytes that come.
const TEXT_ROOM: usize = 8_192;

/// Places for all that waits while a page is read: 130 kB.
#[derive(Drop)]
pub struct Places {
    first: [u8; MAN_ROOM],
    second: [u8; TEXT_ROOM],
    blocks: [Block; MOST_BLOCKS],
    man: [u8; AHEAD],
    man_lines: [u64; AHEAD],
    text: [u8; AHEAD],
    text_lines: [u64; AHEAD],
}

impl Places {
    /// Nothing waits.
    pub fn new() -> Places {
        Places {
            first: [0; MAN_ROOM],
            second: [0; TEXT_ROOM],
            blocks: [Block::NONE; MOST_BLOCKS],
            man: [0; AHEAD],
            man_lines: [0; AHEAD],
            text: [0; AHEAD],
            text_lines: [0; AHEAD],
        }
    }

    /// Lends them to one page.
    pub fn lend(&mut self) -> Waits<'_>
        ensures first { 73984 ≤ length result.first.now }
        ensures second { 1536 ≤ length result.second.now }
        ensures blocks { 64 ≤ length result.blocks.now }
    {
        let Places {
            first,
            second,
            blocks,
            man,
            man_lines,
            text,
            text_lines,
        } = self;
        Waits {
            first,
            second,
            blocks,
            man: Ahead {
                bytes: man,
                lines: man_lines,
            },
            text: Ahead {
                bytes: text,
                lines: text_lines,
            },
        }
    }
}
