// Hyphenation words.
ghost use Rattle.std.specs.Prelude.{◌≡◌, nat_lt, length, OnOk, OnErr};
ghost use Rattle.nr_symbol_tables.specs.Word.{bytes_of, points_of};
ghost use Rattle.nr_store.specs.Store.{afforded, worded};

use crate::refusal::StoredBytes;
use crate::store::Store;
use nr_symbol_tables::HyphenationWord;
use nr_symbol_tables::word::LONGEST;
use nr_vectors::cell::Cell;

impl<K: Copy> Store<K> {
    /// Takes a hyphenation word as it is given, with a minus sign in each place where it may be cut (CSTR 54, `.hw`).
    /// One above 64 bytes, minus signs counted, changes nothing.
    ///
    /// Proved: Hyphenation words are kept, and the break points of a word are those of the latest that it is.
    /// (`Store::{add_word, points}`)
    pub fn add_word(&mut self, word: &[u8]) -> Result<(), StoredBytes>
        ensures answer { result ≡ afforded (worded word.now self.old) tt }
        ensures ok { OnOk result (self.new ≡ worded word.now self.old) }
        ensures err { OnErr result (self.new ≡ self.old) }
    {
        let room = self.stored - self.charge;
        if word.len() > LONGEST {
            return Ok(());
        }
        let word = HyphenationWord::of(word);
        let weight = 16 + word.letters().len() as u32;
        if room < weight {
            return Err(StoredBytes);
        }
        self.words.push(word);
        self.charge += weight;
        Ok(())
    }

    /// Whether there is a hyphenation word.
    #[inline]
    pub fn has_words(&self) -> bool
        ensures { result ≡ nat_lt 0 (length self.now.words) }
    {
        self.words.len() > 0
    }

    /// The places where a word may be cut, each so many cells in, in rising order: those of the latest hyphenation word
    /// that it is, the `.,;:!?)` at its end aside and perhaps with an `s` more. There are none where it is none.
    pub fn points(&self, word: &[Cell]) -> &[u8]
        ensures { result.now ≡ points_of (bytes_of word.now) self.now.words }
    {
        self.words.points(word)
    }
}
