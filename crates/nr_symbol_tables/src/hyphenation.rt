//! Hyphenation words, found by their letters.
ghost use Rattle.std.specs.Prelude.{◌+◌, ◌≡◌, ◌<◌, ◌∷◌, [], length, map, IfOk};
ghost use Rattle.nr_symbol_tables.specs.Word.{bytes_of, points_of};
ghost use Rattle.nr_symbol_tables.specs.Given.{word_in};
ghost use Rattle.nr_symbol_tables.specs.Hyphenation.{kind, kinds, earliers, number_at, words_in, IsChained, IsLatest, IsLatestGiven};

use crate::word::{HyphenationWord, stem};
use nr_vectors::cell::Cell;
use nr_vectors::{CountedAlloc, FixedVec, ReservedArray};
use std::alloc::AllocError;
use std::marker::Model;

/// How many kinds of words there are.
const KINDS: usize = 256;

/// A word, and the latest of its kind before it: its place counted from 1, or 0.
#[derive(Clone, Copy, Drop)]
pub(crate) struct Linked {
    pub(crate) word: HyphenationWord,
    pub(crate) earlier: usize,
}

// The kind of a word with these letters.
fn kind_of(letters: &[u8]) -> usize
    ensures is { result ≡ kind letters.now }
    ensures few { result < 256 }
{
    let mut kind = 0;
    for letter in letters {
        kind = (kind * 31 + usize::from(*letter)) % KINDS;
    }
    kind
}

// The kind of a word whose letters are the bytes of these cells.
fn kind_of_cells(cells: &[Cell]) -> usize
    ensures is { result ≡ kind (bytes_of cells.now) }
    ensures few { result < 256 }
{
    let mut kind = 0;
    for cell in cells {
        kind = (kind * 31 + usize::from(cell.byte)) % KINDS;
    }
    kind
}

// The latest word whose letters are the bytes of these cells: its place counted from 1, or 0.
fn latest_with(row: &[Linked], latest: &[usize; KINDS], cells: &[Cell]) -> usize
    requires { IsChained (kinds row.now) (earliers row.now) latest.now }
    ensures { IsLatest (bytes_of cells.now) (words_in row.now) result }
{
    let mut at = latest[kind_of_cells(cells)];
    while at > 0 {
        let linked = &row[at - 1];
        if linked.word.has_letters(cells) {
            return at;
        }
        at = linked.earlier;
    }
    at
}

// The latest word that these cells are, perhaps with an `s` more: its place counted from 1, or 0.
fn latest_given(row: &[Linked], latest: &[usize; KINDS], cells: &[Cell]) -> usize
    requires { IsChained (kinds row.now) (earliers row.now) latest.now }
    ensures { IsLatestGiven (bytes_of cells.now) (words_in row.now) result }
{
    let len = cells.len();
    if len == 0 {
        return 0;
    }
    let whole = latest_with(row, latest, cells);
    if len == 1 || cells[len - 1].byte != b's' {
        return whole;
    }
    whole.max(latest_with(row, latest, &cells[..len - 1]))
}

// The latest word of a kind: its place counted from 1, or 0.
fn latest_of(latest: &[usize; KINDS], kind: usize) -> usize
    requires few { kind < 256 }
    ensures long { length latest.now ≡ 256 }
    ensures is { result ≡ number_at latest.now kind }
{
    latest[kind]
}

/// Hyphenation words, with a capacity that stays; `new` is the only call that allocates. A clause sees
/// the last that came as the first, and the capacity, the greatest number of words. A word is found among those of its
/// kind, of 256 kinds.
#[derive(Drop)]
pub struct HyphenationWords {
    row: FixedVec<Linked>,
    // The latest word of each kind: its place counted from 1, or 0.
    latest: ReservedArray<KINDS>,
}

impl Model for HyphenationWords {
    ghost use Rattle.std.specs.Prelude.{map, reverse};
    ghost use Rattle.nr_vectors.specs.Items.{Items};
    ghost use Rattle.nr_symbol_tables.specs.declared.hyphenation.Linked.{Linked};
    ghost use Rattle.nr_symbol_tables.specs.declared.word.HyphenationWord.{HyphenationWord};
    ghost use Rattle.nr_symbol_tables.specs.Hyphenation.{kinds, earliers, IsChained};

    ghost Value = { Items HyphenationWord };

    ghost view = { λ w. record {
      items = reverse (map (λ (l : Linked). l.word) w.row.items);
      capacity = w.row.capacity;
    } };

    ghost invariant = { λ w. IsChained (kinds w.row.items) (earliers w.row.items) w.latest };
}

impl HyphenationWords {
    /// No words, and room for so many: `AllocError` where there is no memory for them.
    pub fn new(alloc: &mut CountedAlloc, capacity: usize) -> Result<HyphenationWords, AllocError>
        ensures made { IfOk result (λ made. made ≡ record { items = []; capacity = capacity }) }
        ensures taken { IfOk result (λ made. alloc.new ≡ alloc.old + capacity + 256) }
    {
        Ok(HyphenationWords {
            row: FixedVec::new(alloc, capacity)?,
            latest: ReservedArray::new(alloc, [0; KINDS])?,
        })
    }

    /// Takes the words of another with as much room in place of its own.
    pub fn copy_from(&mut self, other: &HyphenationWords)
        requires { other.now.capacity ≡ self.old.capacity }
        ensures { self.new ≡ other.now }
    {
        self.row.copy_from(&other.row);
        self.latest.copy_from(&other.latest);
    }

    /// Takes all words away.
    pub fn clear(&mut self)
        ensures { self.new ≡ record self.old { items = [] } }
    {
        self.row.clear();
        self.latest.fill(0);
    }

    /// The number of words.
    #[inline]
    pub fn len(&self) -> usize
        ensures { result ≡ length self.now.items }
    {
        self.row.len()
    }

    /// How many words there is memory for, as their vector tells.
    pub fn memory(&self) -> usize
        ensures { result ≡ self.now.capacity }
    {
        self.row.memory()
    }

    /// How many numbers its box has: the beginnings of the chains, one for each kind.
    pub fn kinds(&self) -> usize
        ensures { result ≡ 256 }
    {
        KINDS
    }

    /// Adds a word.
    ///
    /// Proved: Hyphenation words are kept in the order in which they came, and the break points of a word are those
    /// of the latest that it is, its closing marks aside and perhaps with an `s` more. (`HyphenationWords::{push,
    /// clear, points}`; `stem` in word.rt)
    pub fn push(&mut self, word: HyphenationWord)
        requires { length self.old.items < self.old.capacity }
        ensures { self.new ≡ record self.old { items = word ∷ self.old.items } }
    {
        let kind = kind_of(word.letters());
        let earlier = latest_of(self.latest.as_array(), kind);
        self.row.push(Linked { word, earlier });
        self.latest.set(kind, self.row.len());
    }

    /// The places where a word may be cut, each so many cells in, in rising order: those of the latest of these words
    /// that it is, the `.,;:!?)` at its end aside and perhaps with an `s` more. There are none where it is none.
    pub fn points(&self, word: &[Cell]) -> &[u8]
        ensures { result.now ≡ points_of (bytes_of word.now) (map word_in self.now.items) }
    {
        let row = self.row.as_slice();
        let at = latest_given(row, self.latest.as_array(), stem(word));
        if at == 0 {
            return &[];
        }
        row[at - 1].word.points()
    }
}
