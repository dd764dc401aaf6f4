//! The collected line. (CSTR 54, section 4.)
ghost use Rattle.std.specs.Prelude.{◌*◌, ◌≡◌, ◌+◌, ◌<◌, ◌≤◌, ◌^◌, ◌↔◌, IsTrue, not, is_none, length, Some, IfOk};
ghost use Rattle.nr_fill.specs.Cutting.{fits, pieces_width};
ghost use Rattle.nr_fill.specs.Piece.{nothing_collected, begins_line, is_nil, line_cells, text_cells, word_or_new, word_pieces, cells_of_word, may_hyphenate, reads_field};
ghost use Rattle.nr_fill.specs.Tabs.{column};

use crate::margins::{Margins, Turn};
use crate::piece::Join;
use crate::piece_row::PieceRow;
use crate::stops::Pending;
use crate::title::TitleState;
use nr_vectors::CountedAlloc;
use nr_vectors::cell::Cell;
use std::alloc::AllocError;
use std::marker::Model;

/// The widest gap, in cells, and the widest line.
pub(crate) const WIDEST_GAP: u16 = 1365;

/// How many cells a row has room for beside those of a line: an offset, an indent, a length, a hyphen.
const MARGIN_ROOM: usize = 4096;

/// What is added would bring the line's measure above its limit. Nothing has changed.
#[derive(Clone, Copy)]
pub struct LineCells;

/// How many elements there is room for in a line and in the row that it is set in.
#[derive(Clone, Copy)]
pub struct LineRoom {
    pub cells: usize,
    pub pieces: usize,
    pub row: usize,
}

/// The word that is being read, but for its cells.
#[derive(Clone, Copy)]
pub(crate) struct WordState {
    /// How the piece that is being read hangs on the one before it.
    pub(crate) join: Join,
    pub(crate) pending: Pending,
    pub(crate) blanks: usize,
    /// How many cells the word's other pieces have.
    pub(crate) parted: usize,
    /// How wide they are, with the gap before the word.
    pub(crate) wide: usize,
}

/// What is read of the text and not set yet: pieces that stay together on a line, the word that is being read, and
/// the title that is being read. (CSTR 54, sections 4 and 14.)
///
/// Its measure, 1 and its cells for each piece and the cells of the word and of the title, stays within a limit.
#[derive(Drop)]
pub struct Line {
    pub(crate) row: PieceRow,
    pub(crate) limit: usize,
    /// How many of the row's pieces are the line's: the others are the word's.
    pub(crate) pieces: usize,
    /// How wide these are, each with its join.
    pub(crate) wide: usize,
    pub(crate) word: Option<WordState>,
    pub(crate) gap: u16,
    pub(crate) barred: bool,
    pub(crate) sentence: bool,
    pub(crate) margins: Margins,
    pub(crate) turn: Turn,
    pub(crate) title: Option<TitleState>,
}

impl Model for Line {
    ghost use Rattle.nr_fill.specs.Line.{Lined};
    ghost use Rattle.nr_fill.specs.PieceRow.{collected_of, IsLine};

    ghost Value = { Lined };

    ghost view = { λ l. record {
      collected = collected_of l.row l.pieces l.word l.gap l.barred l.sentence l.margins l.turn l.title;
      limit = l.limit;
    } };

    ghost invariant = { λ l. IsLine l.row l.limit l.pieces l.wide l.word l.gap l.title };
}

impl Line {
    /// The rooms under which a line of this limit refuses nothing but what passes the limit, and its row takes
    /// each line that is cut off it whole.
    pub fn room(limit: usize) -> LineRoom
        requires { limit < 2 ^ 32 }
        ensures { result ≡ record { cells = limit; pieces = limit; row = limit + 4096 } }
    {
        LineRoom {
            cells: limit,
            pieces: limit,
            row: limit + MARGIN_ROOM,
        }
    }

    /// How many cells there is memory for, as their vector tells.
    ///
    /// Proved: A line has the memory that its limit asks for, and a row that of its capacity. (`Line::{cell_memory,
    /// piece_memory}`; `Out::memory` in out.rt)
    pub fn cell_memory(&self) -> usize
        ensures { result ≡ self.now.limit }
    {
        self.row.cell_memory()
    }

    /// How many pieces there is memory for, as their vector tells.
    pub fn piece_memory(&self) -> usize
        ensures { result ≡ self.now.limit }
    {
        self.row.piece_memory()
    }

    /// A line with nothing collected: `AllocError` where there is no memory for it. `limit` is what its measure may come to.
    /// No other call allocates.
    pub fn new(alloc: &mut CountedAlloc, limit: usize) -> Result<Line, AllocError>
        requires { limit < 2 ^ 32 }
        ensures made { IfOk result (λ made. made ≡ record { collected = nothing_collected; limit = limit }) }
        ensures taken { IfOk result (λ made. alloc.new ≡ alloc.old + 2 * limit) }
    {
        Ok(Line {
            row: PieceRow::new(alloc, limit, limit)?,
            limit,
            pieces: 0,
            wide: 0,
            word: None,
            gap: 0,
            barred: false,
            sentence: false,
            margins: Margins {
                indent: 0,
                length: 0,
            },
            turn: Turn::Left,
            title: None,
        })
    }

    /// Takes away what is collected.
    pub fn clear(&mut self)
        ensures { self.new ≡ record self.old { collected = nothing_collected } }
    {
        self.row.clear();
        self.pieces = 0;
        self.wide = 0;
        self.word = None;
        self.gap = 0;
        self.barred = false;
        self.sentence = false;
        self.margins = Margins {
            indent: 0,
            length: 0,
        };
        self.turn = Turn::Left;
        self.title = None;
    }

    /// Takes what another line of the same limit has collected in place of its own.
    pub fn copy_from(&mut self, other: &Line)
        requires { other.now.limit ≡ self.old.limit }
        ensures { self.new ≡ other.now }
    {
        self.row.copy_from(&other.row);
        self.pieces = other.pieces;
        self.wide = other.wide;
        self.word = other.word;
        self.gap = other.gap;
        self.barred = other.barred;
        self.sentence = other.sentence;
        self.margins = other.margins;
        self.turn = other.turn;
        self.title = other.title;
    }

    /// Whether a word is being read.
    #[inline]
    pub fn has_word(&self) -> bool
        ensures { result ≡ not (is_none self.now.collected.word) }
    {
        self.word.is_some()
    }

    /// Whether there is a piece.
    #[inline]
    pub fn has_pieces(&self) -> bool
        ensures value { result ≡ not (is_nil self.now.collected.pieces) }
        ensures some { IsTrue result ↔ (0 < length self.now.collected.pieces) }
    {
        self.pieces > 0
    }

    /// Whether a title is being read.
    #[inline]
    pub fn has_title(&self) -> bool
        ensures { result ≡ not (is_none self.now.collected.title) }
    {
        self.title.is_some()
    }

    /// Whether text for a right or centring stop is being read.
    #[inline]
    pub fn has_field(&self) -> bool
        ensures { result ≡ reads_field self.now.collected.word }
    {
        match self.word {
            None => false,
            Some(word) => matches!(word.pending, Pending::ForStop(_)),
        }
    }

    /// Whether the next word begins the line and so takes its margins.
    #[inline]
    pub fn is_empty(&self) -> bool
        ensures { result ≡ begins_line self.now.collected }
    {
        self.pieces == 0 && self.word.is_none()
    }

    /// 1 and its cells for each piece, and the cells of the word and of the title.
    ///
    /// Proved: The measure of the line never passes its limit.
    #[inline]
    pub fn measure(&self) -> usize
        ensures value { result ≡ line_cells self.now.collected }
        ensures within { result ≤ self.now.limit }
    {
        self.pieces + self.row.read() + self.row.title_len()
    }

    /// The same without the title's.
    #[inline]
    pub(crate) fn text_measure(&self) -> usize
        ensures value { result ≡ text_cells self.now.collected }
        ensures within { result ≤ self.now.limit }
    {
        self.pieces + self.row.read()
    }

    /// Whether the pieces fit the line's length.
    #[inline]
    pub fn fits(&self) -> bool
        ensures { result ≡ fits self.now.collected.margins.length (length self.now.collected.pieces)
            self.now.collected.pieces }
    {
        let length = self.margins.length as usize;
        if self.wide <= length {
            return true;
        }
        let first = usize::from(self.row.first_join().width());
        self.wide - first <= length
    }

    /// How many cells stand before the next one of the word, from the indent: of a word that is still to begin, after
    /// the gap that waits for it.
    pub fn column(&self) -> usize
        ensures value { result ≡ column self.now.collected }
        ensures small { result < 2 ^ 49 }
    {
        let wide = self.wide + self.word_wide();
        if self.row.pieces() == 0 {
            return wide - usize::from(self.last_join().width());
        }
        wide - usize::from(self.row.first_join().width())
    }

    /// How wide the word is, or the gap that waits for one.
    fn word_wide(&self) -> usize
        ensures value { result
            ≡ pieces_width (word_pieces (Some (word_or_new self.now.collected.gap self.now.collected.word))) }
        ensures small { result < 2 ^ 48 }
    {
        match self.word {
            None => usize::from(self.gap),
            Some(word) => word.wide + usize::from(word.join.width()) + self.row.last_len(),
        }
    }

    /// How the piece that is being read hangs on the one before it, or the next word's.
    fn last_join(&self) -> Join
        ensures { result ≡ (word_or_new self.now.collected.gap self.now.collected.word).last.join }
    {
        match self.word {
            None => Join::Gap(self.gap),
            Some(word) => word.join,
        }
    }

    /// Whether the points of `.hw` may stand in the word that is being read: there is one, and it has no `\%`.
    #[inline]
    pub fn may_hyphenate(&self) -> bool
        ensures { result ≡ may_hyphenate self.now.collected }
    {
        self.word.is_some() && !self.barred
    }

    /// The cells of the word that is being read, or none.
    pub fn word_cells(&self) -> &[Cell]
        ensures { result.now ≡ cells_of_word (word_or_new 0 self.now.collected.word) }
    {
        match self.word {
            None => &[],
            Some(word) => self.row.cells_after(word.parted),
        }
    }
}
