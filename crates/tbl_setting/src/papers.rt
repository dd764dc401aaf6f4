//! What macros of papers say of the line: how wide columns are, and what quotes and parts take of it.
ghost use Rattle.std.specs.Prelude.{◌≡◌, ◌<◌};
ghost use Rattle.tbl_setting.specs.Papers as specs;

use super::arguments::{argument, number_of};
use super::lengths::en_cells;
use super::margins::or_number;
use super::requests::Macro;
use super::watching::Around;

/// The greatest length of a line of which columns are made.
const MOST: usize = 1_000_000;

/// The least space between columns of -ms.
const LEAST: usize = 2;

/// The space between columns of -me.
const GAP: usize = 4;

/// What a part and a quote of -ms take.
const PART: usize = 5;

/// What a quote of -me takes.
const CITED: usize = 4;

/// What they say.
#[derive(Clone, Copy)]
pub(crate) struct Paper {
    /// How many cells a line has outside of the columns that have begun.
    pub whole: Option<usize>,
    /// The space between columns of -me that was said last.
    pub gap: usize,
    /// What a quote takes, where the page says it.
    pub quote: Option<usize>,
    /// What a part takes.
    pub part: usize,
    /// What the quotes that are open take at the left,
    pub left: usize,
    /// and at the right.
    pub right: usize,
}

/// How wide two columns of -ms are in such a line.
fn half(cells: usize) -> usize
    ensures { result ≡ specs.half cells }
{
    (cells.min(MOST) * 7 / 15).max(1)
}

/// How wide they are where that is said, with so much between them: the line is, where two have no room.
fn column_in(cells: usize, gap: usize, width: usize) -> usize
    ensures { result ≡ specs.column_in cells gap width }
{
    if width.saturating_add(gap) <= cells.saturating_sub(width) {
        width
    } else {
        cells
    }
}

/// How wide columns are that `.MC` asks for.
fn column_said(text: &[u8], cells: usize) -> usize
    ensures { result ≡ specs.column_said text.now cells }
{
    let gap = or_number(en_cells(argument(text, 1)), LEAST);
    match en_cells(argument(text, 0)) {
        Some(width) if width > 0 => column_in(cells, gap, width),
        _ => half(cells),
    }
}

/// How wide so many columns of -me are.
fn part_of(cells: usize, gap: usize, count: usize) -> usize
    requires { 0 < count }
    ensures { result ≡ specs.part_of cells gap count }
{
    (cells.saturating_sub((count - 1).saturating_mul(gap)) / count).max(1)
}

/// How many columns of -me are asked for.
fn count_said(text: &[u8]) -> usize
    ensures value { result ≡ specs.count_said text.now }
    ensures some { 0 < result }
{
    or_number(number_of(argument(text, 1)), 2).max(1)
}

impl Paper {
    /// No columns and no quotes.
    pub(crate) fn new() -> Paper
        ensures { result ≡ specs.no_paper }
    {
        Paper {
            whole: None,
            gap: GAP,
            quote: None,
            part: PART,
            left: 0,
            right: 0,
        }
    }

    /// `.QS`
    fn quote(&mut self)
        ensures { self.new ≡ specs.quoted self.old }
    {
        let quote = or_number(self.quote, PART);
        self.left = self.left.saturating_add(quote);
        self.right = self.right.saturating_add(quote);
    }

    /// `.QE`
    fn end_quote(&mut self)
        ensures { self.new ≡ specs.unquoted self.old }
    {
        let quote = or_number(self.quote, PART);
        self.left = self.left.saturating_sub(quote);
        self.right = self.right.saturating_sub(quote);
    }

    /// `.(q`
    fn cite(&mut self)
        ensures { self.new ≡ specs.cited self.old }
    {
        self.left = self.left.saturating_add(or_number(self.quote, CITED));
    }

    /// `.)q`
    fn end_cite(&mut self)
        ensures { self.new ≡ specs.uncited self.old }
    {
        self.left = self.left.saturating_sub(or_number(self.quote, CITED));
    }
}

impl Around {
    /// The columns end: the line is whole.
    fn end_columns(&mut self)
        ensures { self.new ≡ specs.whole self.old }
    {
        self.cells = or_number(self.paper.whole, self.cells);
        self.paper.whole = None;
    }

    /// Columns of this width begin, which are narrower than the line.
    fn narrow(&mut self, width: usize)
        ensures { self.new ≡ specs.narrowed width self.old }
    {
        if width < self.cells {
            self.paper.whole = Some(self.cells);
            self.cells = width;
        }
    }

    /// `.2c`, after columns have ended.
    fn divide(&mut self, text: &[u8])
        ensures { self.new ≡ specs.divided text.now self.old }
    {
        self.paper.gap = or_number(en_cells(argument(text, 0)), self.paper.gap);
        self.narrow(part_of(self.cells, self.paper.gap, count_said(text)));
    }

    /// A macro of a paper.
    pub(crate) fn obey_paper(&mut self, name: Macro, text: &[u8])
        ensures { self.new ≡ specs.paper_obeyed name text.now self.old }
    {
        match name {
            Macro::Halves => {
                self.end_columns();
                self.narrow(half(self.cells));
            }
            Macro::Columns => {
                self.end_columns();
                self.narrow(column_said(text, self.cells));
            }
            Macro::Parts => {
                self.end_columns();
                self.divide(text);
            }
            Macro::Whole => self.end_columns(),
            Macro::Quote => self.paper.quote(),
            Macro::QuoteEnd => self.paper.end_quote(),
            Macro::Cite => self.paper.cite(),
            Macro::CiteEnd => self.paper.end_cite(),
        }
    }

    /// What a tag or a part indents where neither it nor the tag before it says so.
    pub(crate) fn said_or_part(&self, said: Option<usize>) -> Option<usize>
        ensures { result ≡ specs.said_or_part said self.now }
    {
        match said {
            None if !self.manual && self.margins.tag == 0 => Some(self.paper.part),
            said => said,
        }
    }
}
