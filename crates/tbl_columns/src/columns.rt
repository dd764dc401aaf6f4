//! The widths of columns.

ghost use Rattle.std.specs.Prelude.{◌≡◌, true, length};
ghost use Rattle.tbl_columns.specs.Cells.{columns_over};
ghost use Rattle.tbl_columns.specs.Columns as specs;
ghost use Rattle.tbl_columns.specs.Held as held;

use super::grid::{Cell, Column, Grid};
use nr_units::Scale;
use tbl_table::{Form, Key, Kind, Span, add_item, set_item};

/// The units of a cell.
const CELL: u64 = 24;

/// The greatest width in cells that counts.
const MOST: u64 = 1_000_000;

impl Cell {
    /// Whether its text counts for the width of its columns.
    pub(crate) fn measures(&self) -> bool
        ensures { result ≡ specs.measures self.now }
    {
        self.field.has_text() && !self.key.zero && self.block.is_none()
    }

    /// Whether it stands in more than one column.
    pub fn spans(&self) -> bool
        ensures { result ≡ specs.spans self.now }
    {
        self.first < self.last
    }

    /// Whether it is a number that is aligned with others.
    pub fn is_number(&self) -> bool
        ensures { result ≡ specs.is_number self.now }
    {
        self.key.kind.is_number()
            && matches!(self.field.form, Form::Text)
            && self.field.prefix.is_some()
    }

    /// Whether it is one of `a`.
    pub fn is_alpha(&self) -> bool
        ensures { result ≡ specs.is_alpha self.now }
    {
        matches!(self.key.kind, Kind::Alpha)
    }

    /// What its column has more than it, for its letter.
    pub(crate) fn beside(&self) -> usize
        ensures { result ≡ specs.beside self.now }
    {
        if self.is_alpha() { 2 } else { 0 }
    }

    /// How many cells it takes of its columns.
    pub(crate) fn needs(&self) -> usize
        ensures { result ≡ specs.needs self.now }
    {
        self.width.saturating_add(self.beside())
    }
}

/// Units in cells, the nearest number of them.
fn cells_in_units(units: i64) -> usize
    ensures { result ≡ specs.cells_in_units units }
{
    if units <= 0 {
        return 0;
    }
    let cells = units.unsigned_abs().saturating_add(CELL / 2) / CELL;
    cells.min(MOST) as usize
}

/// A number, or 0.
pub fn or_nothing(cells: Option<usize>) -> usize
    ensures { result ≡ specs.or_nothing cells }
{
    match cells {
        Some(cells) => cells,
        None => 0,
    }
}

/// The greater of two gaps.
fn greater_gap(one: Option<usize>, other: Option<usize>) -> Option<usize>
    ensures { result ≡ specs.greater_gap one other }
{
    match (one, other) {
        (Some(one), Some(other)) => Some(one.max(other)),
        (None, gap) => gap,
        (gap, None) => gap,
    }
}

/// A width that a key has, or another.
fn or_other(span: Option<Span>, other: Option<Span>) -> Option<Span>
    ensures { result ≡ specs.or_other span other }
{
    match span {
        Some(span) => Some(span),
        None => other,
    }
}

/// A gap, or another where there is none.
fn or_gap(given: Option<usize>, gap: usize) -> usize
    ensures { result ≡ specs.or_gap given gap }
{
    match given {
        Some(given) => given,
        None => gap,
    }
}

/// A width with that of a column, and the space after it if another follows.
fn with_column(inner: bool, width: usize, column: Column) -> usize
    ensures { result ≡ specs.with_column inner width column }
{
    if inner {
        width
            .saturating_add(column.width)
            .saturating_add(column.gap)
    } else {
        width.saturating_add(column.width)
    }
}

/// How many columns there are from one to another.
pub(crate) fn columns_over(first: usize, last: usize) -> usize
    ensures { result ≡ columns_over first last }
{
    last.saturating_add(1).saturating_sub(first)
}

/// Where so many of all parts of a whole end, in cells.
pub(crate) fn parts_end(whole: usize, count: usize, all: usize) -> usize
    ensures { result ≡ specs.parts_end whole count all }
{
    let part = whole.saturating_mul(24) / all.max(1);
    part.saturating_mul(count).saturating_add(11) / 24
}

/// What is left of a whole that all of some columns get, for so many of them.
fn left_for(whole: usize, all: usize, left: usize) -> usize
    ensures { result ≡ specs.left_for whole all left }
{
    if left == 0 {
        return 0;
    }
    whole.saturating_sub(parts_end(whole, all.saturating_sub(left), all))
}

impl Column {
    /// With what a key says of it.
    fn with_key(self, key: Key) -> Column
        ensures { result ≡ specs.with_key self key }
    {
        Column {
            least: or_other(key.width, self.least),
            equal: self.equal || key.equal,
            wide: self.wide || key.wide,
            ..self
        }
    }
}

impl Grid {
    /// A width in cells, where it shows.
    fn cells_in(&self, span: Span) -> Option<usize>
        ensures { result ≡ specs.cells_in self.now span }
    {
        match self.number_in(self.table.bytes(span), Scale::En) {
            Some(units) => Some(cells_in_units(units)),
            None => None,
        }
    }

    /// What `w` says in cells, where it shows.
    fn least_in(&self, least: Option<Span>) -> usize
        ensures { result ≡ specs.least_in self.now least }
    {
        match least {
            Some(span) => or_nothing(self.cells_in(span)),
            None => 0,
        }
    }

    /// The greatest space that lines of formats give after a column.
    fn gap_given(&self, number: usize) -> Option<usize>
        ensures { result ≡ specs.gap_given (length self.now.table.lines.items) self.now number }
    {
        let mut gap = None;
        for line in 0..self.table.lines.len() {
            gap = greater_gap(gap, self.table.key(self.table.line(line), number).gap);
        }
        gap
    }

    /// What the keys say of a column.
    fn keyed(&self, number: usize) -> Column
        ensures { result ≡ specs.keyed (length self.now.table.lines.items) self.now number }
    {
        let mut column = Column::fresh();
        for line in 0..self.table.lines.len() {
            column = column.with_key(self.table.key(self.table.line(line), number));
        }
        column
    }

    /// What the lines of formats say of a column.
    fn column_of(&self, number: usize) -> Column
        ensures { result ≡ specs.column_of self.now number }
    {
        let column = self.keyed(number);
        let gap = or_gap(self.gap_given(number), column.gap);
        Column {
            gap,
            bar_in: gap / 2,
            least_cells: self.least_in(column.least),
            ..column
        }
    }

    /// A column more, as the formats have it.
    fn read_column(&mut self, number: usize)
        ensures value { self.new ≡ specs.read_column number self.old }
        ensures room { held.emptied self.new ≡ held.emptied self.old }
    {
        let column = self.column_of(number);
        add_item(&mut self.columns, column);
    }

    /// The columns, as the formats have them.
    #[tactic(auto, using(crate::proofs::Turns::one_more))]
    pub fn read_columns(&mut self)
        ensures value { self.new ≡ specs.columns_read self.old }
        ensures room { held.emptied self.new ≡ held.emptied self.old }
    {
        self.columns.clear();
        for number in 0..self.table.width() {
            self.read_column(number);
        }
    }

    /// What of a number stands before the place where it is aligned.
    pub fn prefix_span(&self, cell: Cell) -> Span
        ensures { result ≡ specs.prefix_span cell }
    {
        let span = cell.field.span;
        let prefix = or_nothing(cell.field.prefix);
        Span {
            start: span.start,
            end: span.start.saturating_add(prefix).min(span.end),
        }
    }

    /// How many cells that takes.
    pub fn prefix_cells(&self, cell: Cell) -> usize
        ensures { result ≡ specs.prefix_cells self.now cell }
    {
        self.blocks
            .extent(self.table.bytes(self.prefix_span(cell)))
            .cells
    }

    /// A field counts for its column.
    fn with_field(&self, cell: Cell, column: Column) -> Column
        ensures { result ≡ specs.with_field self.now cell column }
    {
        if cell.is_alpha() {
            return column.with_alpha(cell.width);
        }
        if cell.is_number() {
            return column.with_number(cell.width, self.prefix_cells(cell));
        }
        column.with_text(cell.width)
    }

    /// Whether a field is text that makes its column no wider.
    #[tactic(auto, using(crate::proofs::NoWider::narrow))]
    fn is_narrow(&self, cell: Cell) -> bool
        ensures { result ≡ true → specs.with_field self.now cell (held.column self.now cell.first)
            ≡ held.column self.now cell.first }
    {
        if cell.is_alpha() || cell.is_number() {
            return false;
        }
        cell.width <= self.column(cell.first).width
    }

    /// A field is measured. Most make their column no wider, and a column is long to copy.
    #[tactic(auto, using(crate::proofs::NoWider::measured_own))]
    fn measure(&mut self, cell: Cell)
        ensures value { self.new ≡ specs.measured cell self.old }
        ensures room { held.emptied self.new ≡ held.emptied self.old }
    {
        if self.is_narrow(cell) {
            return;
        }
        let column = self.with_field(cell, self.column(cell.first));
        set_item(&mut self.columns, cell.first, column);
    }

    /// A field is measured, if it counts for one column.
    fn measure_cell(&mut self, number: usize)
        ensures value { self.new ≡ specs.measured_cell number self.old }
        ensures room { held.emptied self.new ≡ held.emptied self.old }
    {
        let cell = self.cell_of(number);
        if cell.measures() && !cell.spans() {
            self.measure(cell);
        }
    }

    /// All fields of one column are measured.
    #[tactic(auto, using(crate::proofs::Turns::one_more))]
    fn measure_cells(&mut self)
        ensures value { self.new ≡ specs.measured_cells self.old }
        ensures room { held.emptied self.new ≡ held.emptied self.old }
    {
        for number in 0..self.cells.len() {
            self.measure_cell(number);
        }
    }

    /// A column becomes as wide as what counts for it.
    fn settle_column(&mut self, number: usize)
        ensures value { self.new ≡ specs.settled_column number self.old }
        ensures room { held.emptied self.new ≡ held.emptied self.old }
    {
        let column = self.column(number).as_wide();
        set_item(&mut self.columns, number, column);
    }

    /// Columns become as wide as what counts for them.
    #[tactic(auto, using(crate::proofs::Turns::one_more))]
    fn settle_columns(&mut self)
        ensures value { self.new ≡ specs.settled_columns self.old }
        ensures room { held.emptied self.new ≡ held.emptied self.old }
    {
        for number in 0..self.columns.len() {
            self.settle_column(number);
        }
    }

    /// The columns by their fields, as far as these show.
    pub(crate) fn measure_fields(&mut self)
        ensures value { self.new ≡ specs.measured_fields self.old }
        ensures room { held.emptied self.new ≡ held.emptied self.old }
    {
        self.measure_cells();
        self.settle_columns();
    }

    /// The width of columns with the spaces between them.
    #[tactic(auto, using(crate::proofs::Nexts::together_next))]
    pub fn span_width(&self, first: usize, last: usize) -> usize
        ensures { result ≡ specs.span_width self.now first last }
    {
        let mut width: usize = 0;
        for number in first..last.saturating_add(1) {
            width = with_column(number < last, width, self.column(number));
        }
        width
    }

    /// A column becomes wider by its share of the whole that is dealt out to all up to the last of them; tells
    /// what is left of the rest then.
    fn deal_to(
        &mut self,
        number: usize,
        last: usize,
        whole: usize,
        all: usize,
        rest: usize,
    ) -> usize
        ensures value { self.new ≡ (specs.dealt_at whole all last number (specs.dealing self.old rest)).grid }
        ensures rest { result ≡ (specs.dealt_at whole all last number (specs.dealing self.old rest)).rest }
        ensures room { held.emptied self.new ≡ held.emptied self.old }
    {
        let left = left_for(whole, all, last.saturating_sub(number));
        let share = rest.saturating_sub(left);
        let column = self.column(number);
        let wider = Column {
            width: column.width.saturating_add(share),
            ..column
        };
        set_item(&mut self.columns, number, wider);
        rest.saturating_sub(share)
    }

    /// Columns are made so wide together: what they lack is dealt out.
    #[tactic(auto, using(crate::proofs::Turns::one_further))]
    pub(crate) fn widen(&mut self, first: usize, last: usize, width: usize)
        ensures value { self.new ≡ specs.widened first last width self.old }
        ensures room { held.emptied self.new ≡ held.emptied self.old }
    {
        let whole = width.saturating_sub(self.span_width(first, last));
        let all = columns_over(first, last);
        let mut rest = whole;
        for number in first..last.saturating_add(1) {
            rest = self.deal_to(number, last, whole, all, rest);
        }
    }

    /// The widest column of `e`.
    fn widest_equal(&self) -> usize
        ensures { result ≡ specs.widest_equal self.now }
    {
        let mut most = 0;
        for column in self.columns.as_slice() {
            if column.equal {
                most = column.width.max(most);
            }
        }
        most
    }

    /// A column of `e` is made so wide.
    fn make_wide(&mut self, number: usize, width: usize)
        ensures value { self.new ≡ specs.equal_column width number self.old }
        ensures room { held.emptied self.new ≡ held.emptied self.old }
    {
        let column = self.column(number);
        if column.equal {
            set_item(&mut self.columns, number, Column { width, ..column });
        }
    }

    /// Columns of `e` are made as wide as the widest of them.
    #[tactic(auto, using(crate::proofs::Turns::one_more))]
    pub(crate) fn make_equal(&mut self)
        ensures value { self.new ≡ specs.made_equal self.old }
        ensures room { held.emptied self.new ≡ held.emptied self.old }
    {
        let width = self.widest_equal();
        for number in 0..self.columns.len() {
            self.make_wide(number, width);
        }
    }

    /// What a field over several columns lacks is dealt out.
    fn measure_span(&mut self, number: usize)
        ensures value { self.new ≡ specs.spanned_cell number self.old }
        ensures room { held.emptied self.new ≡ held.emptied self.old }
    {
        let cell = self.cell_of(number);
        if cell.measures() && cell.spans() {
            self.widen(cell.first, cell.last, cell.needs());
        }
    }

    /// What fields over several columns lack is dealt out.
    #[tactic(auto, using(crate::proofs::Turns::one_more))]
    pub(crate) fn measure_spans(&mut self)
        ensures value { self.new ≡ specs.measured_spans self.old }
        ensures room { held.emptied self.new ≡ held.emptied self.old }
    {
        for number in 0..self.cells.len() {
            self.measure_span(number);
        }
    }
}
