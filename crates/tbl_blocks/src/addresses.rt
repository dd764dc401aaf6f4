//! Addresses in a block: each stands in angle brackets after the text to which it belongs.
ghost use Rattle.std.specs.Prelude.{◌≡◌, ◌+◌, ◌<◌, ◌≤◌, ◌^◌, length};
ghost use Rattle.tbl_blocks.specs.Addresses as specs;

use super::arguments::find_argument;
use super::blocks::Blocks;
use super::lists::add_item;
use super::parts::{Join, Part, Seen};
use super::reading::Reading;

/// An address that waits for the end of the text before it.
#[derive(Clone, Copy)]
pub(crate) struct Address {
    /// Where it begins.
    pub start: usize,
    /// Where it ends.
    pub end: usize,
    /// How many cells it takes.
    pub cells: usize,
    /// That is sure.
    pub sure: bool,
}

impl Reading {
    /// The part of an address.
    fn address_part(self, address: Address) -> Part
        ensures { result ≡ specs.address_part address self }
    {
        Part {
            start: address.start,
            end: address.end,
            cells: address.cells.saturating_add(2),
            font: self.face.font,
            join: self.join,
            indent: self.margins.indent,
            bracketed: true,
        }
    }

    /// It was read.
    fn after_address(self, address: Address) -> Reading
        ensures { result ≡ specs.after_address address self }
    {
        Reading {
            address: None,
            join: Join::Glued,
            ends: false,
            begun: true,
            seen: Seen {
                sure: self.seen.sure && address.sure,
                ..self.seen
            },
            ..self
        }
    }
}

impl Blocks {
    /// The address that a text begins with, which begins at a place.
    fn address_in(&self, text: &[u8], place: usize) -> Option<Address>
        requires { place + length text.now < 2 ^ 64 }
        ensures { result ≡ specs.address_of text.now place self.now.strings.items }
    {
        let argument = find_argument(text)?;
        let extent = self.extent(&text[argument.start..argument.end]);
        Some(Address {
            start: place + argument.start,
            end: place + argument.end,
            cells: extent.cells,
            sure: extent.sure,
        })
    }

    /// An address that waits stands here.
    pub(crate) fn put_address(&mut self)
        ensures { self.new ≡ specs.address_put self.old }
    {
        if let Some(address) = self.reading.address {
            add_item(&mut self.parts, self.reading.address_part(address));
            self.reading = self.reading.after_address(address);
        }
    }

    /// The first word of a request is an address, which waits.
    pub(crate) fn read_address(&mut self, text: &[u8], place: usize)
        requires { place + length text.now < 2 ^ 64 }
        ensures { self.new ≡ specs.address_read text.now place self.old }
    {
        self.put_address();
        self.reading.address = self.address_in(text, place);
    }
}
