//! A text is turned a part at a time.
ghost use Rattle.std.specs.Prelude.{◌≡◌, ◌+◌, ◌^◌, ◌<◌, ◌≤◌, [], false, length, take};
ghost use Rattle.std.proofs.Props.{props};
ghost use Rattle.document_stages.specs.Pulling.{fits_always};
ghost use Rattle.document_stages.specs.Running.{at_most};
ghost use Rattle.utf8_converter.specs.Reading.{ended, first_reader};
ghost use Rattle.utf8_converter.specs.Spelling.{Serves};
ghost use Rattle.utf8_converter.specs.Staged.{ReadsSome, counted, said};

use super::cells::Reached;
use super::reader::Reader;
use super::spelling::{ROOM, Spelling};
use document_stages::Stage;
use nr_vectors::slice_vec::SliceVec;
use utf8_characters::FixedTable;

/// The room that one turn needs.
const MOST: usize = 1536;

/// Bytes of a table become UTF-8, as with `convert`.
///
/// Proved: A text that is turned a part at a time comes to the same: what goes out of the parts, one after another,
/// and of the end is `converted`, in whatever parts it comes. (`Utf8Converter` of utf8_converter)
#[derive(Drop)]
pub struct Utf8Converter {
    reader: Reader,
    spelling: Spelling,
    // At its beginning stands what comes of the bytes that were read last.
    room: [u8; ROOM],
    // So many bytes were dropped, or more than it can say.
    strays: u64,
    ghost serves: { Serves spelling reader } by { Prim.hlevel props },
    ghost counts: { strays < 2 ^ 64 },
}

impl Utf8Converter {
    /// A text begins. Bytes from 128 on are characters of the table; with `escapes` looks stand between escape sequences.
    pub fn new(table: FixedTable, escapes: bool) -> Utf8Converter
        ensures says { ⟦<Utf8Converter as Stage>⟧.says result ≡ said (first_reader table escapes) }
        ensures fits { ⟦<Utf8Converter as Stage>⟧.fits result ≡ fits_always }
        ensures counts { ⟦<Utf8Converter as Stage>⟧.counts result ≡ counted 0 (first_reader table escapes) }
        ensures wants { ⟦<Utf8Converter as Stage>⟧.wants result ≡ 1536 }
        ensures reader { result.reader ≡ first_reader table escapes }
        ensures strays { result.strays ≡ 0 }
    {
        Utf8Converter {
            reader: Reader::new(table, escapes),
            spelling: Spelling::new(table),
            room: [0; ROOM],
            strays: 0,
        }
    }

    /// How many bytes were dropped.
    pub fn strays(&self) -> u64
        ensures counted { result ≡ ⟦<Utf8Converter as Stage>⟧.counts self.now false [] }
        ensures value { result ≡ self.now.strays }
    {
        self.strays
    }

    /// Some of these bytes are read, and what they come to is put at the beginning of the room.
    pub(crate) fn read_some(&mut self, bytes: &[u8]) -> Reached
        requires some { 0 < length bytes.now }
        ensures reads { ReadsSome self.old.reader self.new.reader bytes.now result.taken self.new.room result.end
            self.old.strays self.new.strays }
        ensures few { result.end ≤ 1536 }
    {
        let cells = self
            .spelling
            .read_cells(&mut self.reader, bytes, &mut self.room);
        if cells.taken > 0 {
            return cells;
        }
        let filled = self
            .spelling
            .read(&mut self.reader, bytes[0], &mut self.room);
        self.strays = self.strays.saturating_add(filled.strays);
        Reached {
            taken: 1,
            end: filled.end,
        }
    }

    /// The end comes, and what it comes to is put at the beginning of the room. Tells up to where.
    pub(crate) fn read_end(&mut self) -> usize
        ensures reader { self.new.reader ≡ (ended self.old.reader).reader }
        ensures out { take result self.new.room ≡ (ended self.old.reader).bytes }
        ensures made { self.new.strays ≡ at_most (self.old.strays + (ended self.old.reader).strays) }
        ensures few { result ≤ 24 }
    {
        let filled = self.spelling.finish(&mut self.reader, &mut self.room);
        self.strays = self.strays.saturating_add(filled.strays);
        filled.end
    }

    /// What stands at the beginning of the room, up to this place.
    pub(crate) fn text(&self, end: usize) -> &[u8]
        requires { end ≤ 1536 }
        ensures { result.now ≡ take end self.now.room }
    {
        &self.room[..end]
    }
}

impl Stage for Utf8Converter {
    ghost use Rattle.std.specs.Prelude.{refl};
    ghost use Rattle.document_stages.specs.Pulling.{fits_always};
    ghost use Rattle.utf8_converter.specs.Staged.{counted, said};

    ghost says = { λ s. said s.reader };

    ghost fits = { λ s. fits_always };

    ghost counts = { λ s. counted s.strays s.reader };

    ghost wants = { λ s. 1536 };

    ghost waits = { λ s. refl };

    fn room(&self) -> usize {
        MOST
    }

    #[inline(always)]
    fn turn(&mut self, bytes: &[u8], out: &mut SliceVec<'_, u8>) -> usize {
        if bytes.is_empty() {
            return 0;
        }
        let some = self.read_some(bytes);
        out.extend(self.text(some.end));
        some.taken
    }

    fn finish(&mut self, out: &mut SliceVec<'_, u8>) -> bool {
        let end = self.read_end();
        out.extend(self.text(end));
        true
    }

    fn is_full(&self) -> bool {
        false
    }
}
