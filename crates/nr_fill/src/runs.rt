// Runs of bytes that stand for themselves, and of blanks, read in one call.
ghost use Rattle.std.specs.Prelude.{◌≡◌, ◌≢◌, ◌+◌, ◌-◌, ◌<◌, ◌≤◌, length, take, replicate, slice_index, All, None, is_none, true, false};
ghost use Rattle.nr_units.specs.Character.{code};
ghost use Rattle.nr_settings.specs.Indents.{margins_of};
ghost use Rattle.nr_fill.specs.Piece.{ends_sentence, in_word, line_cells, text_cells};
ghost use Rattle.nr_fill.specs.Plain.{IsPlain, run_cell};
ghost use Rattle.nr_fill.specs.Runs.{EndsWord, add_blanks, add_run, add_word, run_after};

use crate::line::{Line, WordState};
use crate::margins::Margins;
use crate::piece::Join;
use crate::plain::is_plain;
use crate::words::ends_sentence;
use nr_settings::Indents;
use nr_vectors::cell::{Cell, Look};

/// How much of some bytes was read.
#[derive(Clone, Copy)]
pub struct WordRun {
    /// How many of them are cells of a word.
    pub count: usize,
    /// The blank after them was read, and ended the word.
    pub ended: bool,
}

/// How many blanks these bytes begin with.
fn count_blanks(bytes: &[u8]) -> usize
    ensures prefix { result ≤ length bytes.now }
    ensures blanks { take result bytes.now ≡ replicate result (code " ") }
{
    let mut count = 0;
    for byte in bytes {
        if *byte != b' ' {
            return count;
        }
        count += 1;
    }
    count
}

impl Line {
    /// Reads a prefix of these bytes as cells of a word, of this look, as many calls of `put` would: up to the first
    /// that is not plain or whose cell would pass the limit. Tells how many it read. It takes the time of one pass
    /// over those bytes.
    ///
    /// Proved: A run of plain bytes, and a word with the blank after it, are put as byte by byte, as many as can be.
    /// (`Line::{put_run, put_word}`)
    pub fn put_run(&mut self, margins: Margins, look: Look, bytes: &[u8]) -> usize
        ensures prefix { result ≤ length bytes.now }
        ensures plain { All IsPlain (take result bytes.now) }
        ensures cells { self.new ≡ record self.old
            { collected = add_run margins look (take result bytes.now) self.old.collected } }
        ensures within { 0 < result → line_cells self.new.collected ≤ self.new.limit }
        ensures stops { result < length bytes.now → IsPlain (slice_index bytes.now result)
            → text_cells self.new.collected ≡ self.new.limit }
    {
        let room = self.limit - self.text_measure();
        let bytes = &bytes[..room.min(bytes.len())];
        if bytes.is_empty() || !is_plain(bytes[0]) {
            return 0;
        }
        self.open_word(margins);
        self.end_piece();
        self.push_plain(look, bytes)
    }

    /// Reads a prefix of these bytes as `put_run` would, and after it a blank as `end_word` and `widen_gap` would: where
    /// `ends` says that a blank ends a word, no word and no title was being read, and the piece passes no limit. The margins are looked
    /// up only where the line may take them.
    #[inline(always)]
    pub fn put_word(&mut self, indents: &Indents, look: Look, ends: bool, bytes: &[u8]) -> WordRun
        ensures prefix { result.count ≤ length bytes.now }
        ensures plain { All IsPlain (take result.count bytes.now) }
        ensures run { result.ended ≡ false → self.new ≡ record self.old {
          collected = add_run (margins_of indents.now) look (take result.count bytes.now)
              self.old.collected;
        } }
        ensures word { result.ended ≡ true → self.new ≡ record self.old {
          collected = add_word (margins_of indents.now) look (take result.count bytes.now)
              self.old.collected;
        } }
        ensures ends { result.ended ≡ true → EndsWord ends result.count bytes.now self.old.collected }
        ensures within { 0 < result.count → line_cells self.new.collected ≤ self.new.limit }
        ensures stops { result.ended ≡ false → result.count < length bytes.now
            → IsPlain (slice_index bytes.now result.count) → text_cells self.new.collected ≡ self.new.limit }
        ensures longest { result.ended ≡ false → self.old.collected.title ≡ None
            → EndsWord ends result.count bytes.now self.old.collected
            → text_cells self.new.collected ≡ self.new.limit }
    {
        if ends && self.word.is_none() && self.title.is_none() {
            return self.put_new_word(indents, look, bytes);
        }
        let count = self.put_run(indents.margins(), look, bytes);
        WordRun {
            count,
            ended: false,
        }
    }

    /// The same where a blank ends a word, and no word and no title is being read.
    #[inline(always)]
    fn put_new_word(&mut self, indents: &Indents, look: Look, bytes: &[u8]) -> WordRun
        requires word { self.old.collected.word ≡ None }
        requires title { self.old.collected.title ≡ None }
        ensures prefix { result.count ≤ length bytes.now }
        ensures plain { All IsPlain (take result.count bytes.now) }
        ensures run { result.ended ≡ false → self.new ≡ record self.old {
          collected = add_run (margins_of indents.now) look (take result.count bytes.now)
              self.old.collected;
        } }
        ensures word { result.ended ≡ true → self.new ≡ record self.old {
          collected = add_word (margins_of indents.now) look (take result.count bytes.now)
              self.old.collected;
        } }
        ensures ends { result.ended ≡ true → EndsWord true result.count bytes.now self.old.collected }
        ensures within { 0 < result.count → line_cells self.new.collected ≤ self.new.limit }
        ensures stops { result.ended ≡ false → result.count < length bytes.now
            → IsPlain (slice_index bytes.now result.count) → text_cells self.new.collected ≡ self.new.limit }
        ensures longest { result.ended ≡ false → EndsWord true result.count bytes.now self.old.collected
            → text_cells self.new.collected ≡ self.new.limit }
    {
        let room = self.limit - self.text_measure();
        let near = &bytes[..room.min(bytes.len())];
        let count = self.row.push_plain(look, near);
        if count == 0 {
            return WordRun {
                count,
                ended: false,
            };
        }
        self.sentence = ends_sentence(Cell {
            byte: near[count - 1],
            look,
        });
        self.margins = if self.pieces == 0 {
            indents.margins()
        } else {
            self.margins
        };
        if count == near.len() || near[count] != b' ' {
            self.word = Some(WordState::new(self.gap));
            self.gap = 0;
            return WordRun {
                count,
                ended: false,
            };
        }
        self.row.close(Join::Gap(self.gap), count);
        self.wide += usize::from(self.gap) + count;
        self.pieces += 1;
        self.gap = 1;
        self.barred = false;
        WordRun { count, ended: true }
    }

    /// Whether a run that begins with this byte is read: the byte is plain, and the line is not full.
    #[inline]
    pub fn takes_plain(&self, byte: u8) -> bool
        ensures plain { result ≡ true → IsPlain byte }
        ensures room { result ≡ true → text_cells self.now.collected ≢ self.now.limit }
        ensures stops { result ≡ false → IsPlain byte → text_cells self.now.collected ≡ self.now.limit }
    {
        is_plain(byte) && self.text_measure() != self.limit
    }

    /// More cells of the piece that is being read: those of the bytes before the first that is not plain, at least one.
    fn push_plain(&mut self, look: Look, bytes: &[u8]) -> usize
        requires some { 0 < length bytes.now }
        requires first { IsPlain (slice_index bytes.now 0) }
        requires room { text_cells self.old.collected + length bytes.now ≤ self.old.limit }
        requires word { is_none self.old.collected.word ≡ false }
        requires no_title { self.old.collected.title ≡ None }
        ensures some { 0 < result }
        ensures prefix { result ≤ length bytes.now }
        ensures plain { All IsPlain (take result bytes.now) }
        ensures stops { result < length bytes.now → ¬ IsPlain (slice_index bytes.now result) }
        ensures cells { self.new ≡ record self.old {
          collected = record (in_word (run_after look (take result bytes.now)) self.old.collected)
              { sentence = ends_sentence (run_cell look (slice_index bytes.now (result - 1))) };
        } }
    {
        match &mut self.word {
            None => 0,
            Some(word) => {
                let count = self.row.push_plain(look, bytes);
                self.sentence = ends_sentence(Cell {
                    byte: bytes[count - 1],
                    look,
                });
                word.pending.drop_point();
                word.blanks = 0;
                count
            }
        }
    }

    /// Reads the blanks that these bytes begin with as cells, as many calls of `put_blank` would: up to the first byte that is none, or
    /// whose cell would pass the limit. Tells how many it read.
    ///
    /// Proved: Blanks that are cells are put as one by one, each within the limit; how many is not claimed, and costs
    /// speed alone.
    pub fn put_blanks(&mut self, margins: Margins, bytes: &[u8]) -> usize
        ensures prefix { result ≤ length bytes.now }
        ensures blanks { take result bytes.now ≡ replicate result (code " ") }
        ensures cells { self.new ≡ record self.old
            { collected = add_blanks margins result self.old.collected } }
        ensures within { 0 < result → line_cells self.new.collected ≤ self.new.limit }
    {
        let room = self.limit - self.text_measure();
        let count = count_blanks(&bytes[..room.min(bytes.len())]);
        if count == 0 {
            return 0;
        }
        self.open_word(margins);
        self.end_piece();
        self.push_blanks(count);
        count
    }
}
