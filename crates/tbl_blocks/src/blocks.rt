//! Parts and lines as they are held, and what is known of strings.
ghost use Rattle.std.specs.Prelude.{◌≡◌, ◌+◌, ◌<◌, ◌≤◌, ◌^◌, IfOk, length};
ghost use Rattle.tbl_blocks.specs.Blocks as specs;
ghost use Rattle.tbl_blocks.specs.Extents as extents;

use super::filling::{Measure, fill, longest};
use super::parts::{Extent, Font, Known, Line, Part, Seen};
use super::reading::Reading;
use super::units::{Unit, is_printing, unit_of};
use nr_vectors::{CountedAlloc, FixedVec};
use std::alloc::AllocError;

/// How far a text was measured.
#[derive(Clone, Copy)]
struct Measured {
    /// So far.
    extent: Extent,
    /// How many bytes to come belong to the unit before them.
    more: usize,
}

impl Measured {
    /// Nothing is.
    fn nothing() -> Measured
        ensures { result ≡ extents.nothing_measured }
    {
        let extent = Extent {
            cells: 0,
            sure: true,
        };
        Measured { extent, more: 0 }
    }

    /// With a unit that begins with a byte.
    fn extended(self, unit: Unit, byte: u8) -> Measured
        ensures { result ≡ extents.extended unit byte self }
    {
        let sure = unit.is_sure() && byte != b'\t';
        Measured {
            extent: Extent {
                cells: self.extent.cells.saturating_add(unit.cells),
                sure: self.extent.sure && sure,
            },
            more: unit.more,
        }
    }

    /// With a byte that prints.
    fn widened(self) -> Measured
        ensures { result ≡ extents.widened self }
    {
        Measured {
            extent: Extent {
                cells: self.extent.cells.saturating_add(1),
                ..self.extent
            },
            more: 0,
        }
    }

    /// With a byte more, and what stands after it. One that prints as it is counts at once.
    fn with(self, byte: u8, rest: &[u8], strings: &[Known]) -> Measured
        ensures { result ≡ extents.measured byte rest.now strings.now self }
    {
        if self.more > 0 {
            return Measured {
                more: self.more - 1,
                ..self
            };
        }
        if is_printing(byte) {
            return self.widened();
        }
        self.extended(unit_of(byte, rest, strings), byte)
    }
}

/// The parts of blocks, and their lines.
#[derive(Drop)]
pub struct Blocks {
    pub parts: FixedVec<Part>,
    pub lines: FixedVec<Line>,
    pub strings: FixedVec<Known>,
    pub(crate) reading: Reading,
}

impl Blocks {
    /// Takes the memory for so many parts, lines and strings.
    pub fn new(
        alloc: &mut CountedAlloc,
        parts: usize,
        lines: usize,
        strings: usize,
    ) -> Result<Blocks, AllocError>
        ensures value { IfOk result (λ made. made ≡ specs.first_blocks parts lines strings) }
        ensures taken { IfOk result (λ made. alloc.new ≡ alloc.old + parts + lines + strings) }
    {
        Ok(Blocks {
            parts: FixedVec::new(alloc, parts)?,
            lines: FixedVec::new(alloc, lines)?,
            strings: FixedVec::new(alloc, strings)?,
            reading: Reading::begin(Font::Roman, false),
        })
    }

    /// Parts and lines are forgotten; strings stay.
    pub fn clear(&mut self)
        ensures value { self.new ≡ specs.cleared self.old }
        ensures room { specs.emptied self.new ≡ specs.emptied self.old }
    {
        self.parts.clear();
        self.lines.clear();
        self.reading = Reading::begin(Font::Roman, false);
    }

    /// Lines are forgotten, and parts stay.
    pub fn clear_lines(&mut self)
        ensures value { self.new ≡ specs.without_lines self.old }
        ensures room { specs.emptied self.new ≡ specs.emptied self.old }
    {
        self.lines.clear();
    }

    /// The lines of the parts from one number to another, in so many cells: they are added to the lines.
    pub fn fill(&mut self, first: usize, end: usize, width: usize, spread: bool)
        requires order { first ≤ «end» }
        requires within { «end» ≤ length self.old.parts.items }
        ensures value { self.new ≡ specs.filled first «end» width spread self.old }
        ensures room { specs.emptied self.new ≡ specs.emptied self.old }
    {
        self.fill_in(first, end, Measure { width, spread });
    }

    /// The same, in a measure.
    fn fill_in(&mut self, first: usize, end: usize, measure: Measure)
        requires order { first ≤ «end» }
        requires within { «end» ≤ length self.old.parts.items }
        ensures { self.new ≡ specs.filled first «end» measure.width measure.spread self.old }
    {
        let parts = &self.parts.as_slice()[first..end];
        fill(parts, first, measure, &mut self.lines);
    }

    /// The longest run of these parts: the least width in which all their lines fit.
    pub fn longest_run(&self, first: usize, end: usize) -> usize
        requires order { first ≤ «end» }
        requires within { «end» ≤ length self.now.parts.items }
        ensures { result ≡ specs.longest_run first «end» self.now }
    {
        longest(&self.parts.as_slice()[first..end], false)
    }

    /// The longest word of these parts, whole.
    pub fn longest_word(&self, first: usize, end: usize) -> usize
        requires order { first ≤ «end» }
        requires within { «end» ≤ length self.now.parts.items }
        ensures { result ≡ specs.longest_word first «end» self.now }
    {
        longest(&self.parts.as_slice()[first..end], true)
    }

    /// A block is read, whose text begins at a place: its parts are added.
    pub fn read_block(&mut self, text: &[u8], place: usize, font: Font, spread: bool) -> Seen
        requires { place + length text.now < 2 ^ 64 }
        ensures value { self.new ≡ specs.block_read text.now place font spread self.old }
        ensures room { specs.emptied self.new ≡ specs.emptied self.old }
        ensures seen { result ≡ self.new.reading.seen }
    {
        self.read_all_lines(text, place, font, spread);
        self.reading.seen
    }

    /// Its lines, and what stands after them.
    fn read_all_lines(&mut self, text: &[u8], place: usize, font: Font, spread: bool)
        requires { place + length text.now < 2 ^ 64 }
        ensures { self.new ≡ specs.block_read text.now place font spread self.old }
    {
        self.reading = Reading::begin(font, spread);
        self.read_lines(text, place);
        self.end_block(place + text.len());
    }

    /// A field is read as the words of a block.
    pub fn read_field(&mut self, text: &[u8], place: usize, font: Font) -> Seen
        requires { place + length text.now < 2 ^ 64 }
        ensures value { self.new ≡ specs.field_read text.now place font self.old }
        ensures room { specs.emptied self.new ≡ specs.emptied self.old }
        ensures seen { result ≡ self.new.reading.seen }
    {
        self.read_all_words(text, place, font);
        self.reading.seen
    }

    /// Its words.
    fn read_all_words(&mut self, text: &[u8], place: usize, font: Font)
        requires { place + length text.now < 2 ^ 64 }
        ensures { self.new ≡ specs.field_read text.now place font self.old }
    {
        self.reading = Reading::begin(font, false);
        self.read_words(text, place);
    }

    /// How many cells a text takes in one line.
    pub fn extent(&self, text: &[u8]) -> Extent
        ensures { result ≡ extents.extent_of text.now self.now.strings.items }
    {
        let strings = self.strings.as_slice();
        let mut measured = Measured::nothing();
        for (at, byte) in text.iter().enumerate() {
            measured = measured.with(*byte, &text[at + 1..], strings);
        }
        measured.extent
    }
}
