//! Whole cells, many at once.
ghost use Rattle.std.specs.Prelude.{◌≡◌, ◌+◌, ◌*◌, ◌<◌, ◌≤◌, length, IsTrue};
ghost use Rattle.utf8_converter.specs.Spelling as specs;

use super::reader::{Reader, is_shown};
use super::shapes::{CHUNK, are_low};
use utf8_characters::FixedTable;

/// How many of a chunk are looked at by themselves where not all are of ASCII.
const PIECE: usize = 8;

/// All that is put begins before this place of a room, which a remainder shows without a test.
const BEGIN: usize = 2048;

/// How long a room is.
pub(crate) const ROOM: usize = BEGIN + 4 * CHUNK;

/// What goes out of a byte: three bytes at most, at the beginning, and 64 times their number. All four are copied at once,
/// and what two bits hold is no more than 3, so that no place is tested for each byte.
type Spelled = [u8; 4];

/// What goes out of each byte in a cell that is whole, where nothing is half read or open.
#[derive(Drop)]
pub(crate) struct Spelling {
    /// Of each byte.
    pub all: [Spelled; 256],
    /// Whether the table has a character for each byte from 128 on.
    pub whole: bool,
}

/// How many bytes go out of a byte.
#[inline]
fn count_of(one: &Spelled) -> usize
    ensures { result ≡ specs.count_of one.now }
{
    usize::from(one[3] / 64)
}

/// What goes out of a byte in a cell that is whole.
fn spell(table: FixedTable, byte: u8) -> Spelled
    ensures { specs.IsSpelled table byte result }
{
    if is_shown(byte) || byte == b'\x08' {
        return [byte, 0, 0, 64];
    }
    let Some(character) = table.character(byte) else {
        return [0; 4];
    };
    let mut buffer = [0; 4];
    let text = character.encode_utf8(&mut buffer).as_bytes();
    let mut one = [0, 0, 0, 64 * text.len() as u8];
    one[..text.len()].copy_from_slice(text);
    one
}

/// Whether a byte has a character, if it is beyond ASCII.
fn is_covered(byte: usize, one: &Spelled) -> bool
    ensures { IsTrue result → 128 ≤ byte → 0 < specs.count_of one.now }
{
    byte < 128 || count_of(one) > 0
}

impl Spelling {
    /// That of a table.
    pub(crate) fn new(table: FixedTable) -> Spelling
        ensures { specs.Spells table 256 result.all result.whole }
    {
        let mut all = [[0; 4]; 256];
        let mut whole = true;
        for place in 0..256 {
            let one = spell(table, place as u8);
            all[place] = one;
            whole &= is_covered(place, &one);
        }
        Spelling { all, whole }
    }

    /// How many bytes go out of a byte.
    #[inline]
    pub(crate) fn count(&self, reader: &Reader, byte: u8) -> usize
        requires serves { specs.Serves self.now reader.now }
        ensures count { result ≡ length (specs.byte_of reader.now.table byte) }
        ensures few { result ≤ 3 }
    {
        count_of(&self.all[usize::from(byte)])
    }

    /// What goes out of a byte is put into a room, and tells up to where it is filled then.
    #[inline]
    pub(crate) fn put(&self, reader: &Reader, byte: u8, room: &mut [u8], end: usize) -> usize
        requires serves { specs.Serves self.now reader.now }
        requires room { end + 4 ≤ length room.old }
        ensures put { specs.Puts room.old end room.new result (specs.byte_of reader.now.table byte) }
        ensures few { result ≤ end + 3 }
    {
        let one = self.all[usize::from(byte)];
        room[end..end + 4].copy_from_slice(&one);
        end + count_of(&one)
    }

    /// What goes out of these bytes, one after another, is put into a room.
    #[inline]
    fn put_each(&self, reader: &Reader, bytes: &[u8], room: &mut [u8], end: usize) -> usize
        requires serves { specs.Serves self.now reader.now }
        requires begins { end < 2048 }
        requires few { length bytes.now ≤ 32 }
        requires room { 2176 ≤ length room.old }
        ensures put { specs.Puts room.old end room.new result (specs.bytes_of reader.now.table bytes.now) }
        ensures few { result ≤ end + 4 * length bytes.now }
    {
        let mut to = end % BEGIN;
        for byte in bytes {
            to = self.put(reader, *byte, room, to);
        }
        to
    }

    /// What goes out of a piece is put into a room: at once where all bytes are of ASCII. They are passed twice, so that
    /// each is read where it lies, and not shifted out of the eight that were looked at.
    #[inline]
    fn put_piece(
        &self,
        reader: &Reader,
        bytes: &[u8],
        same: &[u8],
        room: &mut [u8],
        end: usize,
    ) -> usize
        requires serves { specs.Serves self.now reader.now }
        requires some { specs.AllSpelled self.now.all bytes.now }
        requires eight { length bytes.now ≡ 8 }
        requires same { same.now ≡ bytes.now }
        requires begins { end < 2048 }
        requires room { 2176 ≤ length room.old }
        ensures put { specs.Puts room.old end room.new result (specs.bytes_of reader.now.table bytes.now) }
        ensures few { result ≤ end + 32 }
    {
        let mut piece = [0; PIECE];
        piece.copy_from_slice(same);
        if are_low(&piece) {
            room[end..end + PIECE].copy_from_slice(&piece);
            return end + PIECE;
        }
        self.put_each(reader, bytes, room, end)
    }

    /// The same of all pieces of a chunk.
    #[inline(never)]
    pub(crate) fn put_chunk(
        &self,
        reader: &Reader,
        bytes: &[u8],
        same: &[u8],
        room: &mut [u8],
        end: usize,
    ) -> usize
        requires serves { specs.Serves self.now reader.now }
        requires some { specs.AllSpelled self.now.all bytes.now }
        requires chunk { length bytes.now ≡ 32 }
        requires same { same.now ≡ bytes.now }
        requires begins { end ≤ 1408 }
        requires room { 2176 ≤ length room.old }
        ensures put { specs.Puts room.old end room.new result (specs.bytes_of reader.now.table bytes.now) }
        ensures few { result ≤ end + 128 }
    {
        let mut at = 0;
        let mut to = end;
        while at < CHUNK {
            let piece = &bytes[at..at + PIECE];
            to = self.put_piece(reader, piece, &same[at..at + PIECE], room, to);
            at += PIECE;
        }
        to
    }
}
