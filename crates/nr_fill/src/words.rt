// What is read: cells, break points, the ends of words, and gaps. (CSTR 54, sections 4 and 13.)
ghost use Rattle.std.specs.Prelude.{◌≡◌, ◌+◌, ◌<◌, ◌≤◌, ◌++◌, ◌∷◌, [], None, OnOk, OnErr, false, replicate};
ghost use Rattle.nr_fill.specs.Line.{afforded};
ghost use Rattle.nr_fill.specs.Piece.{Word, add_blank, add_cell, add_cell_after, add_cells, after_newline, append, barred_here, end_word, ended, ends_in_joint, ends_sentence, hyphenated, in_word, is_inside, joined, line_cells, marked, one_blank_more, pending_after, pending_named, pending_soft, pending_without_point, pointed_here, text_cells, with_blanks_kept, with_word, without_blanks};
ghost use Rattle.nr_fill.specs.Runs.{blanks_after};

use crate::line::{Line, LineCells, WIDEST_GAP, WordState};
use crate::margins::Margins;
use crate::piece::{CutAfter, Join, Point};
use crate::stops::Pending;
use nr_vectors::cell::Cell;

/// Whether the cell ends a sentence.
#[inline]
pub(crate) fn ends_sentence(cell: Cell) -> bool
    ensures { result ≡ ends_sentence cell }
{
    matches!(cell.byte, b'.' | b'?' | b'!')
}

impl WordState {
    /// A word without cells.
    #[inline]
    pub(crate) fn new(gap: u16) -> Self
        ensures { result ≡ record {
          join = Join.Gap gap;
          pending = Pending.Nothing;
          blanks = 0;
          parted = 0;
          wide = 0;
        } }
    {
        WordState {
            join: Join::Gap(gap),
            pending: Pending::Nothing,
            blanks: 0,
            parted: 0,
            wide: 0,
        }
    }
}

impl WordState {
    /// Whether a place so many cells in is between two of the n cells of the piece that is being read, blanks at the
    /// word's end aside.
    fn is_inside(&self, at: usize, n: usize) -> bool
        ensures { result ≡ is_inside at self.now.blanks n self.now.pending }
    {
        if matches!(self.pending, Pending::ForStop(_)) {
            return false;
        }
        at > 0 && at < n.saturating_sub(self.blanks)
    }
}

impl Pending {
    /// Goes on after a cell, where the word has n cells then.
    #[inline]
    fn step_after(&mut self, mark: CutAfter, n: usize)
        ensures { self.new ≡ pending_after mark n self.old }
    {
        if matches!(self, Pending::ForStop(_)) {
            return;
        }
        *self = match mark {
            CutAfter::Letter => Pending::Nothing,
            _ if mark.mark_cells() < n => Pending::AtPoint(Point::Hard),
            _ => Pending::Nothing,
        };
    }

    /// What waits after `\%`, where n cells stand before it.
    fn soft(self, n: usize) -> Self
        ensures { result ≡ pending_soft n self }
    {
        match self {
            Pending::Nothing if n > 0 => Pending::AtPoint(Point::Soft),
            _ => self,
        }
    }

    /// What waits after a point by name, where n cells stand before it.
    fn at(self, point: Point, n: usize) -> Self
        ensures { result ≡ pending_named point n self }
    {
        if matches!(self, Pending::ForStop(_)) || n == 0 {
            return self;
        }
        Pending::AtPoint(point)
    }

    /// No break point stands here.
    #[inline]
    pub(crate) fn drop_point(&mut self)
        ensures { self.new ≡ pending_without_point self.old }
    {
        if matches!(self, Pending::AtPoint(_)) {
            *self = Pending::Nothing;
        }
    }
}

impl Line {
    /// There is a word from now on: a new one takes the gap that waits, and the margins where it begins the line.
    /// A title that is being read is given up.
    #[inline(always)]
    pub(crate) fn open_word(&mut self, margins: Margins)
        ensures opened { self.new ≡ record self.old { collected = with_word margins self.old.collected } }
        ensures within { line_cells self.new.collected ≤ self.new.limit }
    {
        self.row.clear_title();
        self.title = None;
        if self.word.is_some() {
            return;
        }
        self.margins = if self.pieces == 0 {
            margins
        } else {
            self.margins
        };
        self.word = Some(WordState::new(self.gap));
        self.gap = 0;
    }

    /// A break point that waits ends a piece of the word.
    #[inline(always)]
    pub(crate) fn end_piece(&mut self)
        ensures { self.new ≡ record self.old { collected = in_word ended self.old.collected } }
    {
        self.row.clear_title();
        self.title = None;
        let Some(word) = &mut self.word else {
            return;
        };
        let Pending::AtPoint(point) = word.pending else {
            return;
        };
        let len = self.row.last_len();
        self.row.close(word.join, len);
        word.parted += len;
        word.wide += usize::from(word.join.width()) + len;
        word.join = Join::at(point);
        word.pending = Pending::Nothing;
    }

    /// Reads one more cell of a word; the first cell of a line gives it its margins. It fails where the cell would
    /// pass the limit.
    ///
    /// Proved: Each cell, blank, break point, mark, tab and gap makes of the collected line what the definition says.
    /// (`Line::{put, put_blank, put_cells, mark, bar, hyphenate, widen_gap, newline_gap}`; `Line::{tab, end_field}`
    /// in tabs.rt)
    /// Proved: `LineCells` is answered exactly where the measure would pass the limit, and then nothing has changed.
    /// (`Line::{put, put_blank, put_cells, end_word}`; `Line::{tab, end_field}` in tabs.rt; `Line::put_title` in
    /// titling.rt)
    #[inline(always)]
    pub fn put(
        &mut self,
        margins: Margins,
        cell: Cell,
        afterwards: CutAfter,
    ) -> Result<(), LineCells>
        ensures result { result
            ≡ afforded (record self.old { collected = add_cell margins afterwards cell self.old.collected }) }
        ensures ok { OnOk result (self.new ≡ record self.old
            { collected = add_cell margins afterwards cell self.old.collected }) }
        ensures err { OnErr result (self.new ≡ self.old) }
    {
        if self.text_measure() == self.limit {
            return Err(LineCells);
        }
        self.open_word(margins);
        self.end_piece();
        self.push_cell(cell, afterwards);
        Ok(())
    }

    /// One more cell of the piece that is being read.
    #[inline(always)]
    fn push_cell(&mut self, cell: Cell, afterwards: CutAfter)
        requires room { text_cells self.old.collected < self.old.limit }
        requires no_title { self.old.collected.title ≡ None }
        ensures { self.new ≡ record self.old {
          collected = record (in_word (add_cell_after afterwards cell) self.old.collected)
              { sentence = ends_sentence cell };
        } }
    {
        self.sentence = ends_sentence(cell);
        if let Some(word) = &mut self.word {
            self.row.push(cell);
            let n = word.parted + self.row.last_len();
            word.pending.step_after(afterwards, n);
            word.blanks = 0;
        }
    }

    /// Reads a blank of the text as a cell: so in no-fill mode and where lines are centred. It fails where the blank
    /// would pass the limit. Break points are kept, since the word may end in a line that is filled: `join_word` is to
    /// be called where it ends in one that is not.
    pub fn put_blank(&mut self, margins: Margins) -> Result<(), LineCells>
        ensures result { result
            ≡ afforded (record self.old { collected = add_blank margins self.old.collected }) }
        ensures ok { OnOk result (self.new ≡ record self.old
            { collected = add_blank margins self.old.collected }) }
        ensures err { OnErr result (self.new ≡ self.old) }
    {
        if self.text_measure() == self.limit {
            return Err(LineCells);
        }
        self.open_word(margins);
        self.end_piece();
        self.push_blanks(1);
        Ok(())
    }

    /// So many more blanks of the text, cells of the piece that is being read.
    #[inline]
    pub(crate) fn push_blanks(&mut self, n: usize)
        requires room { text_cells self.old.collected + n ≤ self.old.limit }
        requires no_title { self.old.collected.title ≡ None }
        ensures { self.new ≡ record self.old {
          collected = record (in_word (blanks_after n) self.old.collected)
              { sentence = false };
        } }
    {
        self.sentence = false;
        if let Some(word) = &mut self.word {
            self.row.push_copies(Cell::blank(), n);
            word.blanks += n;
        }
    }

    /// Reads n equal cells of a word, none or more, as one addition; where there are none, blanks before them are kept all
    /// the same. It fails where they would pass the limit.
    pub fn put_cells(&mut self, margins: Margins, cell: Cell, n: usize) -> Result<(), LineCells>
        ensures result { result
            ≡ afforded (record self.old { collected = add_cells margins cell n self.old.collected }) }
        ensures ok { OnOk result (self.new ≡ record self.old
            { collected = add_cells margins cell n self.old.collected }) }
        ensures err { OnErr result (self.new ≡ self.old) }
    {
        if n > self.limit - self.text_measure() {
            return Err(LineCells);
        }
        self.open_word(margins);
        if n == 0 {
            self.keep_blanks();
            return Ok(());
        }
        self.end_piece();
        self.push_cells(cell, n);
        Ok(())
    }

    /// n more cells of the piece that is being read.
    fn push_cells(&mut self, cell: Cell, n: usize)
        requires room { text_cells self.old.collected + n ≤ self.old.limit }
        requires no_title { self.old.collected.title ≡ None }
        ensures { self.new ≡ record self.old {
          collected = record (in_word (append (replicate n cell)) self.old.collected)
              { sentence = ends_sentence cell };
        } }
    {
        self.sentence = ends_sentence(cell);
        if let Some(word) = &mut self.word {
            let len = self.row.last_len();
            self.row.insert_copies(len, cell, n);
            word.blanks = 0;
        }
    }

    /// The blanks of the text at the word's end are kept.
    #[inline]
    fn keep_blanks(&mut self)
        requires { self.old.collected.title ≡ None }
        ensures { self.new ≡ record self.old { collected = in_word with_blanks_kept self.old.collected } }
    {
        let Some(word) = &mut self.word else {
            return;
        };
        word.blanks = 0;
    }

    /// Reads `\&`: a word exists, and what was read before it ends no sentence.
    pub fn mark(&mut self, margins: Margins)
        ensures { self.new ≡ record self.old { collected = marked margins self.old.collected } }
    {
        self.open_word(margins);
        self.sentence = false;
        self.keep_blanks();
    }

    /// Reads `\%`: a soft break point after a cell, and no point of `.hw` in this word.
    pub fn bar(&mut self)
        ensures { self.new ≡ record self.old { collected = barred_here self.old.collected } }
    {
        self.barred = true;
        let Some(word) = &mut self.word else {
            return;
        };
        let n = self.row.last_len();
        word.pending = word.pending.soft(n);
    }

    /// Reads a break point by name: it stands after a cell, in the place of one that stands there.
    pub fn point(&mut self, point: Point)
        ensures { self.new ≡ record self.old { collected = pointed_here point self.old.collected } }
    {
        let Some(word) = &mut self.word else {
            return;
        };
        let n = self.row.last_len();
        word.pending = word.pending.at(point, n);
    }

    /// Whether the word goes on where a text line ends here.
    #[inline]
    pub fn is_at_joint(&self) -> bool
        ensures { result ≡ ends_in_joint self.now.collected.word }
    {
        match &self.word {
            Some(word) => matches!(word.pending, Pending::AtPoint(Point::Joining)),
            None => false,
        }
    }

    /// Makes the word one piece, as `join_word` does, and drops the blanks of the text at its end. Call it where a line
    /// that is not filled ends, before `end_field`.
    pub fn drop_blanks(&mut self)
        ensures { self.new ≡ record self.old { collected = without_blanks self.old.collected } }
    {
        self.join_word();
        if let Some(word) = &mut self.word {
            let len = self.row.last_len().saturating_sub(word.blanks);
            self.row.shorten(len);
            word.pending.drop_point();
            word.blanks = 0;
        }
    }

    /// A soft break point stands so many cells in, where that is between two cells of the piece that is being read.
    pub fn hyphenate(&mut self, place: usize)
        ensures { self.new ≡ record self.old { collected = hyphenated place self.old.collected } }
    {
        self.row.clear_title();
        self.title = None;
        let Some(word) = &mut self.word else {
            return;
        };
        let at = place.saturating_sub(word.parted);
        if !word.is_inside(at, self.row.last_len()) {
            return;
        }
        self.row.close(word.join, at);
        word.parted += at;
        word.wide += usize::from(word.join.width()) + at;
        word.join = Join::Soft;
    }

    /// The word is one piece from now on: so it is where it ends in no-fill mode or in a line that is centred. Call it
    /// before `end_word` there, and after `end_field`: while text for a right or centring stop is read it does nothing
    /// but give a title up. It takes the same time however long the word is.
    pub fn join_word(&mut self)
        ensures { self.new ≡ record self.old { collected = joined self.old.collected } }
    {
        self.row.clear_title();
        self.title = None;
        let Some(word) = &mut self.word else {
            return;
        };
        if matches!(word.pending, Pending::ForStop(_)) {
            return;
        }
        word.join = self.row.join_before(self.pieces, word.join);
        self.row.open_after(self.pieces, word.parted);
        word.pending = Pending::Nothing;
        word.parted = 0;
        word.wide = 0;
    }

    /// The word, where there is one, becomes pieces of the line. It fails where they would pass the limit.
    ///
    /// Proved: A word ends as its pieces, or as one piece. (`Line::{end_word, join_word, drop_blanks}`)
    #[inline(always)]
    pub fn end_word(&mut self) -> Result<(), LineCells>
        ensures result { result ≡ afforded (record self.old { collected = end_word self.old.collected }) }
        ensures ok { OnOk result (self.new ≡ record self.old { collected = end_word self.old.collected }) }
        ensures err { OnErr result (self.new ≡ self.old) }
    {
        let Some(word) = &self.word else {
            self.barred = false;
            return Ok(());
        };
        let join = word.join;
        let wide = word.wide;
        let more = self.row.pieces() - self.pieces + 1;
        if more > self.limit - self.measure() {
            return Err(LineCells);
        }
        let len = self.row.last_len();
        self.row.close(join, len);
        self.pieces += more;
        self.wide += wide + usize::from(join.width()) + len;
        self.word = None;
        self.barred = false;
        Ok(())
    }

    /// A blank was read between two words.
    #[inline]
    pub fn widen_gap(&mut self)
        ensures { self.new ≡ record self.old { collected = one_blank_more self.old.collected } }
    {
        self.gap = WIDEST_GAP.min(self.gap + 1);
        self.barred = false;
    }

    /// A text line ended: the gap is 1, or 2 after a sentence.
    #[inline]
    pub fn newline_gap(&mut self)
        ensures { self.new ≡ record self.old { collected = after_newline self.old.collected } }
    {
        self.gap = if self.sentence { 2 } else { 1 };
        self.barred = false;
    }
}
