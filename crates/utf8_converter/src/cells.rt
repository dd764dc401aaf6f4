//! Cells go out, one by one.
ghost use Rattle.std.specs.Prelude.{◌≡◌, ◌+◌, ◌*◌, ◌<◌, ◌≤◌, [], length, take, true};
ghost use Rattle.utf8_converter.specs.declared.reader.Half.TheVariants.{Nothing};
ghost use Rattle.utf8_converter.specs.Cells.{Over, goes_out, shows, strikes};
ghost use Rattle.utf8_converter.specs.Reading as reading;
ghost use Rattle.utf8_converter.specs.Spelling as specs;

use super::reader::{Half, Reader, Way, struck_look};
use super::spelling::Spelling;
use nr_vectors::cell::Look;

/// How far bytes were taken, and how far a room is filled.
#[derive(Clone, Copy)]
pub(crate) struct Reached {
    /// So many bytes were taken.
    pub taken: usize,
    /// The room is filled up to here.
    pub end: usize,
}

/// How far a room is filled, and how many bytes were dropped.
#[derive(Clone, Copy)]
pub(crate) struct Filled {
    /// The room is filled up to here.
    pub end: usize,
    /// So many bytes were dropped.
    pub strays: u64,
}

impl Spelling {
    /// Whether a byte goes out by itself.
    #[inline]
    pub(crate) fn goes_out(&self, reader: &Reader, byte: u8) -> bool
        requires serves { specs.Serves self.now reader.now }
        ensures { result ≡ goes_out reader.now.table byte }
    {
        byte != b'\x08' && self.count(reader, byte) > 0
    }

    /// Whether a byte shows: it goes out, and is no blank and no newline.
    #[inline]
    pub(crate) fn shows(&self, reader: &Reader, byte: u8) -> bool
        requires serves { specs.Serves self.now reader.now }
        ensures { result ≡ shows reader.now.table byte }
    {
        byte > b' ' && self.goes_out(reader, byte)
    }

    /// Whether a byte that shows is struck over another one: it itself, or `_`.
    #[inline]
    fn strikes(&self, reader: &Reader, over: u8, byte: u8) -> bool
        requires serves { specs.Serves self.now reader.now }
        ensures { result ≡ strikes reader.now.table over byte }
    {
        (over == byte || over == b'_') && self.shows(reader, byte)
    }

    /// A byte goes out by itself, or is dropped: at most 12 bytes.
    #[inline]
    fn put_alone(&self, reader: &mut Reader, byte: u8, room: &mut [u8], end: usize) -> Filled
        requires serves { specs.Serves self.now reader.old }
        requires room { end + 13 ≤ length room.old }
        ensures fills { specs.Fills (reading.put_alone byte reader.old) reader.new room.old end room.new
            result.end result.strays }
        ensures few { result.end ≤ end + 12 }
        ensures least { result.strays ≤ 1 }
    {
        if !self.goes_out(reader, byte) {
            return Filled { end, strays: 1 };
        }
        let to = reader.turn(Look::Plain, room, end);
        Filled {
            end: self.put(reader, byte, room, to),
            strays: 0,
        }
    }

    /// A byte goes out that is struck over another: at most 12 bytes.
    #[inline]
    fn put_struck(
        &self,
        reader: &mut Reader,
        over: u8,
        byte: u8,
        room: &mut [u8],
        end: usize,
    ) -> usize
        requires serves { specs.Serves self.now reader.old }
        requires strikes { strikes reader.old.table over byte ≡ true }
        requires room { end + 13 ≤ length room.old }
        ensures fills { specs.Fills (reading.out (Over over byte) reader.old) reader.new room.old end room.new
            result 0 }
        ensures few { result ≤ end + 12 }
    {
        let to = match reader.way {
            Way::Backspaces => {
                let to = self.put(reader, over, room, end);
                self.put(reader, b'\x08', room, to)
            }
            Way::Escapes(before) => reader.turn(struck_look(before, over, byte), room, end),
        };
        self.put(reader, byte, room, to)
    }

    /// A byte comes, and nothing is half read.
    fn read_fresh(&self, reader: &mut Reader, byte: u8, room: &mut [u8], end: usize) -> Filled
        requires serves { specs.Serves self.now reader.old }
        requires room { end + 13 ≤ length room.old }
        ensures fills { specs.Fills (reading.fresh byte reader.old) reader.new room.old end room.new
            result.end result.strays }
        ensures few { result.end ≤ end + 12 }
        ensures least { result.strays ≤ 1 }
    {
        if self.shows(reader, byte) {
            reader.half = Half::Byte(byte);
            return Filled { end, strays: 0 };
        }
        self.put_alone(reader, byte, room, end)
    }

    /// What is half read goes out: at most 12 bytes.
    pub(crate) fn release(&self, reader: &mut Reader, room: &mut [u8]) -> Filled
        requires serves { specs.Serves self.now reader.old }
        requires room { 13 ≤ length room.old }
        ensures fills { specs.Fills (reading.released reader.old.half reader.old) reader.new room.old 0 room.new
            result.end result.strays }
        ensures few { result.end ≤ 12 }
        ensures least { result.strays ≤ 2 }
    {
        let half = reader.half;
        reader.half = Half::Nothing;
        match half {
            Half::Nothing => Filled { end: 0, strays: 0 },
            Half::Byte(held) => self.put_alone(reader, held, room, 0),
            Half::Backspaced(held) => {
                let filled = self.put_alone(reader, held, room, 0);
                Filled {
                    end: filled.end,
                    strays: 1 + filled.strays,
                }
            }
        }
    }

    /// A byte comes that ends what is half read: at most 24 bytes go out.
    fn read_apart(&self, reader: &mut Reader, byte: u8, room: &mut [u8]) -> Filled
        requires serves { specs.Serves self.now reader.old }
        requires room { 32 ≤ length room.old }
        ensures fills { specs.Fills (reading.released_and_fresh byte reader.old) reader.new room.old 0 room.new
            result.end result.strays }
        ensures few { result.end ≤ 24 }
        ensures least { result.strays ≤ 3 }
    {
        let released = self.release(reader, room);
        let fresh = self.read_fresh(reader, byte, room, released.end);
        Filled {
            end: fresh.end,
            strays: released.strays + fresh.strays,
        }
    }

    /// A byte comes.
    pub(crate) fn read(&self, reader: &mut Reader, byte: u8, room: &mut [u8]) -> Filled
        requires serves { specs.Serves self.now reader.old }
        requires room { 32 ≤ length room.old }
        ensures fills { specs.Fills (reading.read byte reader.old) reader.new room.old 0 room.new
            result.end result.strays }
        ensures few { result.end ≤ 24 }
        ensures least { result.strays ≤ 3 }
    {
        match reader.half {
            Half::Byte(held) if byte == b'\x08' => {
                reader.half = Half::Backspaced(held);
                Filled { end: 0, strays: 0 }
            }
            Half::Backspaced(held) if self.strikes(reader, held, byte) => {
                reader.half = Half::Nothing;
                Filled {
                    end: self.put_struck(reader, held, byte, room, 0),
                    strays: 0,
                }
            }
            _ => self.read_apart(reader, byte, room),
        }
    }

    /// The end comes.
    pub(crate) fn finish(&self, reader: &mut Reader, room: &mut [u8]) -> Filled
        requires serves { specs.Serves self.now reader.old }
        requires room { 32 ≤ length room.old }
        ensures fills { specs.Fills (reading.ended reader.old) reader.new room.old 0 room.new
            result.end result.strays }
        ensures few { result.end ≤ 24 }
        ensures least { result.strays ≤ 2 }
    {
        let released = self.release(reader, room);
        Filled {
            end: reader.turn(Look::Plain, room, released.end),
            strays: released.strays,
        }
    }

    /// One cell goes out. Nothing is taken where there is none, or where it isn't known to be one.
    #[inline]
    fn put_cell(&self, reader: &mut Reader, bytes: &[u8], room: &mut [u8], end: usize) -> Reached
        requires serves { specs.Serves self.now reader.old }
        requires fresh { reader.old.half ≡ Nothing }
        requires some { 0 < length bytes.now }
        requires room { end + 13 ≤ length room.old }
        ensures goes { specs.Goes reader.old reader.new bytes.now result.taken room.old end room.new result.end }
        ensures few { result.taken ≤ 3 }
    {
        let byte = bytes[0];
        if bytes.len() >= 3 && bytes[1] == b'\x08' && self.strikes(reader, byte, bytes[2]) {
            let end = self.put_struck(reader, byte, bytes[2], room, end);
            return Reached { taken: 3, end };
        }
        if self.goes_out(reader, byte) && (byte <= b' ' || reader.is_shut()) {
            let to = reader.turn(Look::Plain, room, end);
            let end = self.put(reader, byte, room, to);
            return Reached { taken: 1, end };
        }
        Reached { taken: 0, end }
    }

    /// Cells go out, one by one, as long as one begins before a place.
    pub(crate) fn put_cells(
        &self,
        reader: &mut Reader,
        bytes: &[u8],
        until: usize,
        room: &mut [u8],
        end: usize,
    ) -> Reached
        requires serves { specs.Serves self.now reader.old }
        requires fresh { reader.old.half ≡ Nothing }
        requires within { until ≤ length bytes.now }
        requires room { end + 4 * until + 32 ≤ length room.old }
        ensures goes { specs.Goes reader.old reader.new bytes.now result.taken room.old end room.new result.end }
        ensures few { result.taken ≤ until + 2 }
    {
        let mut taken = 0;
        let mut to = end;
        while taken < until {
            let cell = self.put_cell(reader, &bytes[taken..], room, to);
            taken += cell.taken;
            to = cell.end;
            if cell.taken == 0 {
                return Reached { taken, end: to };
            }
        }
        Reached { taken, end: to }
    }
}
