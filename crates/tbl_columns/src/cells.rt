//! Which field stands in which columns and rows.

ghost use Rattle.std.specs.Prelude.{◌≡◌};
ghost use Rattle.tbl_columns.specs.Cells as specs;
ghost use Rattle.tbl_columns.specs.Held as held;
ghost use Rattle.tbl_columns.specs.Held.{columns};

use super::grid::{Cell, Grid, Placed};
use tbl_blocks::Extent;
use tbl_table::{Field, Form, Key, Kind, Line, Row, add_each, add_item, item_at, set_item};

/// Whether a field goes on from above.
fn goes_on(key: Key, field: Field) -> bool
    ensures { result ≡ specs.goes_on key field }
{
    match field.form {
        Form::Above => true,
        Form::Text => matches!(key.kind, Kind::Down) && !field.has_text(),
        _ => false,
    }
}

/// Whether a letter of the formats makes a rule of a field.
fn is_ruled(key: Key, field: Field) -> bool
    ensures { result ≡ specs.is_ruled key field }
{
    matches!(field.form, Form::Text) && !field.has_text() && key.kind.is_ruling()
}

impl Grid {
    /// The number of the cell in a column of a row.
    pub fn cell_number(&self, row: usize, column: usize) -> usize
        ensures { result ≡ held.cell_number self.now row column }
    {
        let place = row.saturating_mul(self.columns.len());
        item_at(&self.numbers, place.saturating_add(column), 0)
    }

    /// The cell in a column of a row.
    pub fn cell(&self, row: usize, column: usize) -> Cell
        ensures { result ≡ held.cell self.now row column }
    {
        self.cell_of(self.cell_number(row, column))
    }

    /// The last column of a field that begins in this one.
    #[tactic(auto, using(crate::proofs::Nexts::over_next))]
    fn last_column(&self, line: Line, first: usize) -> usize
        ensures { result ≡ specs.last_column self.now line first }
    {
        let mut last = first;
        for column in first.saturating_add(1)..self.columns.len() {
            if !matches!(self.table.key(line, column).kind, Kind::Across) {
                return last;
            }
            last = column;
        }
        last
    }

    /// The field above goes on over a column.
    fn go_on_at(&mut self, row: usize, column: usize)
        ensures value { self.new ≡ specs.gone_on_at row column self.old }
        ensures room { held.emptied self.new ≡ held.emptied self.old }
    {
        let number = self.cell_number(row.saturating_sub(1), column);
        add_item(&mut self.numbers, number);
    }

    /// The field above goes on over these columns.
    #[tactic(auto, using(crate::proofs::Turns::one_further))]
    fn go_on(&mut self, row: usize, first: usize, last: usize)
        ensures value { self.new ≡ specs.gone_on row first last self.old }
        ensures room { held.emptied self.new ≡ held.emptied self.old }
    {
        for column in first..last.saturating_add(1) {
            self.go_on_at(row, column);
        }
    }

    /// How many cells a field takes in one line.
    fn extent_of(&self, field: Field) -> Extent
        ensures { result ≡ specs.field_extent self.now field }
    {
        match field.form {
            Form::Text => self.blocks.extent(self.table.bytes(field.span)),
            _ => Extent {
                cells: 0,
                sure: true,
            },
        }
    }

    /// A field as a cell in these columns.
    fn new_cell(&self, row: usize, key: Key, field: Field, first: usize, last: usize) -> Cell
        ensures { result ≡ specs.new_cell self.now row key field first last }
    {
        let form = if is_ruled(key, field) {
            Form::Rule
        } else {
            field.form
        };
        let extent = self.extent_of(field);
        Cell {
            field: Field { form, ..field },
            key,
            first,
            last,
            top: row,
            bottom: row,
            width: extent.cells,
            sure: extent.sure,
            ..Cell::empty()
        }
    }

    /// A field in these columns.
    #[tactic(auto, using(crate::proofs::Turns::each_room))]
    fn place_field(&mut self, row: usize, key: Key, field: Field, first: usize, last: usize)
        ensures value { self.new ≡ specs.placed_field row key field first last self.old }
        ensures room { held.emptied self.new ≡ held.emptied self.old }
    {
        let number = self.cells.len();
        let cell = self.new_cell(row, key, field, first, last);
        add_item(&mut self.cells, cell);
        let columns = last.saturating_add(1).saturating_sub(first);
        add_each(&mut self.numbers, columns, number);
    }

    /// A field of a row in these columns, or the one above goes on.
    fn place_in(&mut self, number: usize, key: Key, field: Field, first: usize, last: usize)
        ensures value { self.new ≡ specs.placed_in number key field first last self.old }
        ensures room { held.emptied self.new ≡ held.emptied self.old }
    {
        if number > 0 && goes_on(key, field) {
            return self.go_on(number, first, last);
        }
        self.place_field(number, key, field, first, last);
    }

    /// A field that is given, or none.
    fn field_given(&self, row: Row, given: usize) -> Field
        ensures { result ≡ specs.field_given self.now row given }
    {
        if given < row.end {
            self.table.field(given)
        } else {
            Field::empty()
        }
    }

    /// The last column that a field of a row takes.
    fn last_of(&self, row: Row, column: usize) -> usize
        ensures { result ≡ specs.last_of self.now row column }
    {
        self.last_column(self.table.line(row.line), column)
    }

    /// The field of a row that stands in these columns, or goes on there.
    fn place_next(&mut self, number: usize, row: Row, given: usize, first: usize, last: usize)
        ensures value { self.new ≡ specs.placed_next number row given first last self.old }
        ensures room { held.emptied self.new ≡ held.emptied self.old }
    {
        let key = self.table.key(self.table.line(row.line), first);
        let field = self.field_given(row, given);
        self.place_in(number, key, field, first, last);
    }

    /// The fields of a row in their columns; tells which is the first that stands in none.
    #[tactic(auto, using(crate::proofs::Turns::one_more))]
    fn place_fields(&mut self, number: usize, row: Row) -> usize
        ensures value { self.new ≡ (specs.placing (columns self.old) number row self.old).grid }
        ensures room { held.emptied self.new ≡ held.emptied self.old }
        ensures given { result ≡ (specs.placing (columns self.old) number row self.old).given }
    {
        let mut given = row.first;
        let mut next = 0;
        for column in 0..self.columns.len() {
            if column < next {
                continue;
            }
            let last = self.last_of(row, column);
            self.place_next(number, row, given, column, last);
            next = last.saturating_add(1);
            given = given.saturating_add(1).min(row.end);
        }
        given
    }

    /// Whether a cell stands in all of its columns of a row.
    #[tactic(auto, using(crate::proofs::Nexts::whole_next))]
    fn is_whole(&self, row: usize, number: usize) -> bool
        ensures { result ≡ specs.is_whole self.now row number }
    {
        let cell = self.cell_of(number);
        for column in cell.first..cell.last.saturating_add(1) {
            if self.cell_number(row, column) != number {
                return false;
            }
        }
        true
    }

    /// A field goes on over a row below.
    fn go_down(&mut self, row: usize, number: usize)
        ensures value { self.new ≡ specs.gone_down row number self.old }
        ensures room { held.emptied self.new ≡ held.emptied self.old }
    {
        let cell = self.cell_of(number);
        set_item(
            &mut self.cells,
            number,
            Cell {
                bottom: row,
                ..cell
            },
        );
    }

    /// An empty field stands in a column of a row, and the field above ends above.
    fn end_above(&mut self, row: usize, column: usize)
        ensures value { self.new ≡ specs.ended_above row column self.old }
        ensures room { held.emptied self.new ≡ held.emptied self.old }
    {
        let number = self.cells.len();
        let key = self
            .table
            .key(self.table.line(self.table.row(row).line), column);
        let cell = self.new_cell(row, key, Field::empty(), column, column);
        let place = row.saturating_mul(self.columns.len());
        add_item(&mut self.cells, cell);
        set_item(&mut self.numbers, place.saturating_add(column), number);
    }

    /// A field from above goes on in a column of a row, or ends above: it goes on in all of its columns, or in none.
    fn go_down_or_end(&mut self, row: usize, column: usize, number: usize)
        ensures value { self.new ≡ specs.went_on_in row column number self.old }
        ensures room { held.emptied self.new ≡ held.emptied self.old }
    {
        if self.is_whole(row, number) {
            return self.go_down(row, number);
        }
        self.end_above(row, column);
    }

    /// So it is in a column of a row, if a field from above stands there: the row's own have numbers from this one on.
    fn judge_column(&mut self, row: usize, cells: usize, column: usize)
        ensures value { self.new ≡ specs.went_on_at row cells column self.old }
        ensures room { held.emptied self.new ≡ held.emptied self.old }
    {
        let number = self.cell_number(row, column);
        if number < cells {
            self.go_down_or_end(row, column, number);
        }
    }

    /// Fields from above go on over a row.
    #[tactic(auto, using(crate::proofs::Turns::one_more))]
    fn judge_columns(&mut self, row: usize, cells: usize)
        ensures value { self.new ≡ specs.went_on row cells self.old }
        ensures room { held.emptied self.new ≡ held.emptied self.old }
    {
        for column in 0..self.columns.len() {
            self.judge_column(row, cells, column);
        }
    }

    /// The fields of a row become cells; `s` goes on to the right, `^` and `\\^` downward.
    fn place_row(&mut self, number: usize)
        ensures value { self.new ≡ specs.placed_row number self.old }
        ensures room { held.emptied self.new ≡ held.emptied self.old }
    {
        let row = self.table.row(number);
        let cells = self.cells.len();
        let beyond = self.place_fields(number, row);
        self.judge_columns(number, cells);
        let cells_end = self.cells.len();
        let placed = Placed {
            beyond,
            cells,
            cells_end,
            own: cells < cells_end,
            last_own: number,
        };
        add_item(&mut self.placed, placed);
    }

    /// The last row that takes room, for a row below that one; tells which it is.
    #[tactic(auto, using(crate::proofs::Same::row_own))]
    fn settle_row(&mut self, number: usize, last_own: usize) -> usize
        ensures value { self.new ≡ (specs.settled_row number (specs.settling self.old last_own)).grid }
        ensures own { result ≡ (specs.settled_row number (specs.settling self.old last_own)).last_own }
        ensures room { held.emptied self.new ≡ held.emptied self.old }
    {
        let row = self.placed(number);
        let last_own = if row.own { number } else { last_own };
        if row.last_own == last_own {
            return last_own;
        }
        set_item(&mut self.placed, number, Placed { last_own, ..row });
        last_own
    }

    /// The last row that takes room, for each row.
    #[tactic(auto, using(crate::proofs::Turns::one_more))]
    fn settle_rows(&mut self)
        ensures value { self.new ≡ specs.settled_rows self.old }
        ensures room { held.emptied self.new ≡ held.emptied self.old }
    {
        let mut last_own = 0;
        for number in 0..self.placed.len() {
            last_own = self.settle_row(number, last_own);
        }
    }

    /// A field ends in a row that takes room.
    #[tactic(auto, using(crate::proofs::Same::cell_own))]
    fn settle_cell(&mut self, number: usize)
        ensures value { self.new ≡ specs.settled_cell number self.old }
        ensures room { held.emptied self.new ≡ held.emptied self.old }
    {
        let cell = self.cell_of(number);
        let bottom = self.placed(cell.bottom).last_own;
        let falls = cell.bottom > cell.top;
        if cell.bottom == bottom && cell.falls == falls {
            return;
        }
        let settled = Cell {
            falls,
            bottom,
            ..cell
        };
        set_item(&mut self.cells, number, settled);
    }

    /// Fields end in rows that take room.
    #[tactic(auto, using(crate::proofs::Turns::one_more))]
    fn settle_cells(&mut self)
        ensures value { self.new ≡ specs.settled_cells self.old }
        ensures room { held.emptied self.new ≡ held.emptied self.old }
    {
        for number in 0..self.cells.len() {
            self.settle_cell(number);
        }
    }

    /// The rows that were read are placed, where no field is.
    #[tactic(auto, using(crate::proofs::Turns::one_more))]
    fn place_rows(&mut self)
        ensures value { self.new ≡ specs.placed_rows self.old }
        ensures room { held.emptied self.new ≡ held.emptied self.old }
    {
        for number in 0..self.table.rows.len() {
            self.place_row(number);
        }
    }

    /// Fields become cells.
    pub(crate) fn place_cells(&mut self)
        ensures value { self.new ≡ specs.placed_cells self.old }
        ensures room { held.emptied self.new ≡ held.emptied self.old }
    {
        self.forget_cells();
        self.place_rows();
        self.settle_rows();
        self.settle_cells();
    }
}
