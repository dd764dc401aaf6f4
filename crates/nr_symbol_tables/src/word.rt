//! Hyphenation words.
ghost use Rattle.std.specs.Prelude.{◌≡◌, ◌+◌, ◌++◌, ◌∷◌, [], ◌≤◌, ◌<◌, length};
ghost use Rattle.std.specs.Str.{bytes_eq};
ghost use Rattle.nr_symbol_tables.specs.Word.{bytes_of, closes, stem, letters_of, points_from, word_of};

use nr_vectors::cell::Cell;

/// The greatest number of bytes of a word as it is given, with its minus signs.
pub const LONGEST: usize = 64;

/// A word of `.hw` and the places in it where it may be cut (CSTR 54, hyphenation).
//
// The letters stand first in `bytes`, and the places after them.
#[derive(Clone, Copy)]
pub struct HyphenationWord {
    pub(crate) bytes: [u8; LONGEST],
    pub(crate) letters: u8,
    pub(crate) len: u8,
    ghost ordered: { letters ≤ len },
    ghost within: { len ≤ 64 },
}

impl HyphenationWord {
    ghost use Rattle.nr_symbol_tables.specs.Given.{word_in, IsLonger};

    /// A word to fill new slices with: no letters, no places.
    pub fn blank() -> HyphenationWord
        ensures { word_in result ≡ word_of [] }
    {
        HyphenationWord::of(&[])
    }

    /// A word as it is given, where a minus sign says that it may be cut there.
    ///
    /// Proved: A hyphenation word has the letters and the break points of the word as it was given.
    /// (`HyphenationWord::{of, letters, points}`)
    pub fn of(given: &[u8]) -> HyphenationWord
        requires { length given.now ≤ 64 }
        ensures { word_in result ≡ word_of given.now }
    {
        let mut word = HyphenationWord {
            bytes: [0; LONGEST],
            letters: 0,
            len: 0,
        };
        word.push_letters(given);
        word.letters = word.len;
        word.push_places(given);
        word
    }

    // Adds a byte after those that there are.
    fn push(&mut self, byte: u8)
        requires { self.old.len < 64 }
        ensures { IsLonger self.old self.new (byte ∷ []) }
    {
        self.bytes[usize::from(self.len)] = byte;
        self.len += 1;
    }

    // Adds the letters of a word that is given so.
    fn push_letters(&mut self, given: &[u8])
        requires { self.old.len + length given.now ≤ 64 }
        ensures { IsLonger self.old self.new (letters_of given.now) }
    {
        for byte in given {
            if *byte != b'-' {
                self.push(*byte);
            }
        }
    }

    // Adds the places where a word that is given so may be cut.
    fn push_places(&mut self, given: &[u8])
        requires fits { self.old.len + length (points_from 0 given.now) ≤ 64 }
        requires small { length given.now ≤ 64 }
        ensures { IsLonger self.old self.new (points_from 0 given.now) }
    {
        let mut place = 0;
        for byte in given {
            if *byte == b'-' {
                self.push(place);
            } else {
                place += 1;
            }
        }
    }

    /// Its letters.
    #[inline]
    pub fn letters(&self) -> &[u8]
        ensures letters { result.now ≡ (word_in self.now).letters }
        ensures at_most { length result.now ≤ 64 }
    {
        &self.bytes[..usize::from(self.letters)]
    }

    /// The places where it may be cut, each so many letters in, in rising order. Minus signs side by side give one place
    /// more than once.
    #[inline]
    pub fn points(&self) -> &[u8]
        ensures points { result.now ≡ (word_in self.now).points }
        ensures at_most { length result.now ≤ 64 }
    {
        &self.bytes[usize::from(self.letters)..usize::from(self.len)]
    }

    /// Whether the bytes of these cells are its letters.
    #[inline]
    pub(crate) fn has_letters(&self, cells: &[Cell]) -> bool
        ensures { result ≡ bytes_eq (bytes_of cells.now) (word_in self.now).letters }
    {
        let letters = self.letters();
        cells.len() == letters.len() && has_bytes(cells, letters)
    }
}

// Whether these are the bytes of as many cells.
fn has_bytes(cells: &[Cell], bytes: &[u8]) -> bool
    requires { length cells.now ≡ length bytes.now }
    ensures { result ≡ bytes_eq (bytes_of cells.now) bytes.now }
{
    for (place, cell) in cells.iter().enumerate() {
        if cell.byte != bytes[place] {
            return false;
        }
    }
    true
}

// Whether a byte may stand after a word: `.,;:!?)`.
fn closes(byte: u8) -> bool
    ensures { result ≡ closes byte }
{
    byte == b'.'
        || byte == b','
        || byte == b';'
        || byte == b':'
        || byte == b'!'
        || byte == b'?'
        || byte == b')'
}

/// The cells of a word without the `.,;:!?)` at its end.
pub fn stem(cells: &[Cell]) -> &[Cell]
    ensures { bytes_of result.now ≡ stem (bytes_of cells.now) }
{
    let mut len = cells.len();
    while len > 0 && closes(cells[len - 1].byte) {
        len -= 1;
    }
    &cells[..len]
}
