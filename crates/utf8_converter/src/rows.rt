//! Cells go out, many at once.
ghost use Rattle.std.specs.Prelude.{◌≡◌, ◌+◌, ◌*◌, ◌<◌, ◌≤◌, length, take, true, IsTrue};
ghost use Rattle.utf8_converter.specs.declared.reader.Half.TheVariants.{Nothing};
ghost use Rattle.utf8_converter.specs.Reading.{fed, emitted};
ghost use Rattle.utf8_converter.specs.Spelling as specs;

use super::cells::Reached;
use super::reader::{Half, Reader};
use super::shapes::{CHUNK, SEEN, are_all_low, are_shaped, may_all_stand};
use super::spelling::Spelling;

/// Nothing more is put into a room that is filled beyond this place.
const FULL: usize = 1392;

impl Spelling {
    /// The first of these bytes that are looked at together go out, if each is a cell of its own. Tells up to where the
    /// room is filled then, or nothing where none was put.
    #[inline(always)]
    fn put_row(&self, reader: &Reader, bytes: &[u8], room: &mut [u8], end: usize) -> Option<usize>
        requires serves { specs.Serves self.now reader.now }
        requires fresh { specs.IsFresh reader.now }
        requires seen { 34 ≤ length bytes.now }
        requires begins { end ≤ 1408 }
        requires room { 2176 ≤ length room.old }
        ensures { specs.GoesOrStays reader.now bytes.now room.old end room.new result }
    {
        let chunk = &bytes[..CHUNK];
        if !may_all_stand(chunk) || bytes[CHUNK] == b'\x08' {
            return None;
        }
        if are_all_low(chunk) {
            room[end..end + CHUNK].copy_from_slice(chunk);
            return Some(end + CHUNK);
        }
        if self.whole {
            return Some(self.put_chunk(reader, chunk, chunk, room, end));
        }
        None
    }

    /// Of a chunk that was put up to here that prefix is taken which ends in a whole cell.
    #[inline(always)]
    fn cut(&self, reader: &Reader, bytes: &[u8], to: usize) -> Reached
        requires serves { specs.Serves self.now reader.now }
        requires seen { 34 ≤ length bytes.now }
        requires chunk { specs.IsChunk self.now reader.now bytes.now }
        requires far { length (specs.bytes_of reader.now.table (take 32 bytes.now)) ≤ to }
        ensures { specs.Cuts reader.now.table bytes.now to result.taken result.end }
    {
        if bytes[CHUNK - 1] == b'\x08' {
            let begun = self.count(reader, bytes[CHUNK - 2]) + 1;
            return Reached {
                taken: CHUNK - 2,
                end: to - begun,
            };
        }
        if bytes[CHUNK] == b'\x08' {
            let begun = self.count(reader, bytes[CHUNK - 1]);
            return Reached {
                taken: CHUNK - 1,
                end: to - begun,
            };
        }
        Reached {
            taken: CHUNK,
            end: to,
        }
    }

    /// Whether the first of these bytes that are looked at together are cells, some of them struck, and all go out as they
    /// came.
    #[inline]
    fn are_cells(&self, reader: &Reader, bytes: &[u8]) -> bool
        requires serves { specs.Serves self.now reader.now }
        requires seen { 34 ≤ length bytes.now }
        ensures { IsTrue result → specs.IsChunk self.now reader.now bytes.now }
    {
        if !self.whole || !reader.keeps_backspaces() {
            return false;
        }
        let mut seen = [0; SEEN];
        seen.copy_from_slice(&bytes[..SEEN]);
        are_shaped(&seen)
    }

    /// Some cells go out: nearly all of those that are looked at together, or some of them.
    #[inline(never)]
    fn put_some(&self, reader: &mut Reader, bytes: &[u8], room: &mut [u8], end: usize) -> Reached
        requires serves { specs.Serves self.now reader.old }
        requires fresh { specs.IsFresh reader.old }
        requires seen { 34 ≤ length bytes.now }
        requires begins { end ≤ 1408 }
        requires room { 2176 ≤ length room.old }
        ensures goes { specs.Goes reader.old reader.new bytes.now result.taken room.old end room.new result.end }
        ensures few { result.taken ≤ 34 }
    {
        if self.are_cells(reader, bytes) {
            let chunk = &bytes[..CHUNK];
            let to = self.put_chunk(reader, chunk, chunk, room, end);
            return self.cut(reader, bytes, to);
        }
        self.put_cells(reader, bytes, CHUNK, room, end)
    }

    /// Those of these bytes that come first and are cells go out, as long as the room isn't full and no look is open.
    #[inline(never)]
    fn put_all(&self, reader: &mut Reader, bytes: &[u8], room: &mut [u8], begin: usize) -> Reached
        requires serves { specs.Serves self.now reader.old }
        requires fresh { reader.old.half ≡ Nothing }
        requires begins { begin ≤ 12 }
        requires room { 2176 ≤ length room.old }
        ensures goes { specs.Goes reader.old reader.new bytes.now result.taken room.old begin room.new result.end }
        ensures few { result.end ≤ 1536 }
    {
        if bytes.len() < SEEN {
            return self.put_cells(reader, bytes, bytes.len(), room, begin);
        }
        if !reader.is_shut() {
            return self.put_cells(reader, bytes, CHUNK, room, begin);
        }
        let last = bytes.len() - SEEN;
        let mut taken = 0;
        let mut end = begin;
        while taken <= last && end <= FULL {
            let rest = &bytes[taken..];
            match self.put_row(reader, rest, room, end) {
                Some(to) => {
                    taken += CHUNK;
                    end = to;
                }
                None => {
                    let some = self.put_some(reader, rest, room, end);
                    taken += some.taken;
                    end = some.end;
                    if some.taken == 0 || !reader.is_shut() {
                        return Reached { taken, end };
                    }
                }
            }
        }
        Reached { taken, end }
    }

    /// Whether a cell begins with a byte: what is half read is whole, if anything is.
    fn begins(&self, reader: &Reader, byte: u8) -> bool
        requires serves { specs.Serves self.now reader.now }
        ensures { result ≡ specs.begins reader.now byte }
    {
        match reader.half {
            Half::Nothing => true,
            Half::Byte(held) => byte != b'\x08' && self.goes_out(reader, held),
            Half::Backspaced(_) => false,
        }
    }

    /// What is half read after these bytes, which are cells: the last, if another may be struck over it.
    fn half_after(&self, reader: &Reader, bytes: &[u8]) -> Half
        requires serves { specs.Serves self.now reader.now }
        requires some { 0 < length bytes.now }
        ensures { result ≡ specs.half_after reader.now.table bytes.now }
    {
        let last = bytes[bytes.len() - 1];
        let struck = bytes.len() > 1 && bytes[bytes.len() - 2] == b'\x08';
        if struck || !self.shows(reader, last) {
            Half::Nothing
        } else {
            Half::Byte(last)
        }
    }

    /// How many bytes go out of what is half read after cells.
    fn count_half(&self, reader: &Reader, half: Half) -> usize
        requires serves { specs.Serves self.now reader.now }
        ensures { result ≡ length (specs.half_text reader.now.table half) }
    {
        match half {
            Half::Byte(held) => self.count(reader, held),
            Half::Nothing | Half::Backspaced(_) => 0,
        }
    }

    /// The cells that these bytes begin with are read, and what they come to is put at the beginning of a room.
    pub(crate) fn read_cells(&self, reader: &mut Reader, bytes: &[u8], room: &mut [u8]) -> Reached
        requires serves { specs.Serves self.now reader.old }
        requires room { 2176 ≤ length room.old }
        ensures reads { specs.Reads reader.old reader.new bytes.now result.taken room.new result.end }
        ensures few { result.end ≤ 1536 }
    {
        if bytes.is_empty() || !self.begins(reader, bytes[0]) {
            return Reached { taken: 0, end: 0 };
        }
        let before = *reader;
        let begun = self.release(reader, room);
        let reached = self.put_all(reader, bytes, room, begun.end);
        if reached.taken == 0 {
            *reader = before;
            return Reached { taken: 0, end: 0 };
        }
        let half = self.half_after(reader, &bytes[..reached.taken]);
        reader.half = half;
        Reached {
            taken: reached.taken,
            end: reached.end - self.count_half(reader, half),
        }
    }
}
