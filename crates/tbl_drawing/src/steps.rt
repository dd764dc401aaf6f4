//! The lines of a table, in their order: rows, rules and requests, with the rules that boxes have.
ghost use Rattle.std.specs.Prelude.{◌≡◌};
ghost use Rattle.tbl_columns.specs.Held as grids;
ghost use Rattle.tbl_drawing.specs.Held as held;
ghost use Rattle.tbl_drawing.specs.Steps as specs;

use super::layout::{Layout, Step, StepKind, Tall};
use tbl_columns::{Cell, Placed};
use tbl_table::{Item, Span, add_item, open_after, set_item, space_of};

/// What a walk over the items of a table has reached.
#[derive(Clone, Copy)]
struct Walk {
    /// The last row that takes room.
    last: Option<usize>,
    /// The next row.
    next: usize,
    /// A rule waits for the row below.
    ruled: bool,
    /// How many conditions over several lines are open.
    opened: usize,
    /// The lines so far.
    line: usize,
    /// Lines that others put among them, of which none is a field's.
    more: usize,
}

impl Walk {
    /// A rule waits, or none.
    fn with_rule(self, ruled: bool) -> Walk
        ensures { result ≡ specs.with_rule ruled self }
    {
        Walk { ruled, ..self }
    }

    /// So many lines more.
    fn with_lines(self, lines: usize) -> Walk
        ensures { result ≡ specs.with_lines lines self }
    {
        Walk {
            line: self.line.saturating_add(lines),
            ..self
        }
    }
}

impl Layout {
    /// A step that puts a line in which no field stands.
    fn add_other(&mut self, kind: StepKind, walk: Walk) -> Walk
        ensures value { self.new ≡ (specs.other kind (specs.walking self.old walk)).layout }
        ensures walk { result ≡ (specs.other kind (specs.walking self.old walk)).walk }
        ensures room { held.emptied self.new ≡ held.emptied self.old }
    {
        let walk = self.add_step(kind, 0, walk);
        Walk {
            more: walk.more.saturating_add(1),
            ..walk
        }
    }

    /// A step that takes so many lines.
    fn add_step(&mut self, kind: StepKind, lines: usize, walk: Walk) -> Walk
        ensures value { self.new ≡ (specs.stepped kind lines (specs.walking self.old walk)).layout }
        ensures walk { result ≡ (specs.stepped kind lines (specs.walking self.old walk)).walk }
        ensures room { held.emptied self.new ≡ held.emptied self.old }
    {
        let line = walk.line;
        add_item(&mut self.steps, Step { kind, line });
        walk.with_lines(lines)
    }

    /// A rule below the last row, if one waits.
    fn release_rule(&mut self, below: Option<usize>, walk: Walk) -> Walk
        ensures value { self.new ≡ (specs.released below (specs.walking self.old walk)).layout }
        ensures walk { result ≡ (specs.released below (specs.walking self.old walk)).walk }
        ensures room { held.emptied self.new ≡ held.emptied self.old }
    {
        if !walk.ruled {
            return walk;
        }
        self.add_step(StepKind::Rule(walk.last, below), 1, walk)
    }

    /// Whether a field goes on over a rule between two rows.
    #[tactic(auto, using(crate::proofs::Nexts::covered_next))]
    fn some_covered(&self, above: Option<usize>, below: Option<usize>) -> bool
        ensures { result ≡ specs.some_covered (grids.columns self.now.grid) self.now above below 0 }
    {
        for column in 0..self.grid.columns.len() {
            if self.grid.is_covered(above, below, column) {
                return true;
            }
        }
        false
    }

    /// The row beside a rule that stands before another, or before space.
    fn row_beside(&self, walk: Walk) -> Option<usize>
        ensures { result ≡ specs.row_beside self.now walk }
    {
        if walk.next < self.grid.table.rows.len() && self.some_covered(walk.last, Some(walk.next)) {
            Some(walk.next)
        } else {
            walk.last
        }
    }

    /// A rule before another one, or before space, if one waits.
    fn release_beside(&mut self, walk: Walk) -> Walk
        ensures value { self.new ≡ (specs.released_beside (specs.walking self.old walk)).layout }
        ensures walk { result ≡ (specs.released_beside (specs.walking self.old walk)).walk }
        ensures room { held.emptied self.new ≡ held.emptied self.old }
    {
        if !walk.ruled {
            return walk;
        }
        self.release_rule(self.row_beside(walk), walk)
    }

    /// Lines of a row's bars.
    fn add_bars(&mut self, row: usize, lines: usize, walk: Walk) -> Walk
        ensures value { self.new ≡ (specs.barred row lines (specs.walking self.old walk)).layout }
        ensures walk { result ≡ (specs.barred row lines (specs.walking self.old walk)).walk }
        ensures room { held.emptied self.new ≡ held.emptied self.old }
    {
        let walk = self.release_beside(walk);
        self.add_step(StepKind::Bars(row, lines), lines, walk.with_rule(false))
    }

    /// The row whose bars a request gives that asks for space or not.
    fn row_asked(&self, space: Option<usize>, walk: Walk) -> Option<usize>
        ensures { result ≡ specs.row_asked self.now space walk }
    {
        match (space, walk.last) {
            (Some(_), Some(row)) if self.grid.has_bars(row) => Some(row),
            _ => None,
        }
    }

    /// A request that asks for space or not. One of space gives lines of bars after a row that has them.
    fn walk_asked(&mut self, space: Option<usize>, span: Span, walk: Walk) -> Walk
        ensures value { self.new ≡ (specs.asked_in space span (specs.walking self.old walk)).layout }
        ensures walk { result ≡ (specs.asked_in space span (specs.walking self.old walk)).walk }
        ensures room { held.emptied self.new ≡ held.emptied self.old }
    {
        match (space, self.row_asked(space, walk)) {
            (Some(lines), Some(row)) => self.add_bars(row, lines, walk),
            _ => self.add_other(StepKind::Request(span), walk),
        }
    }

    /// How many lines of space a request asks for.
    fn space_in(&self, walk: Walk, span: Span) -> Option<usize>
        ensures { result ≡ specs.space_in self.now walk span }
    {
        if walk.opened == 0 {
            space_of(self.grid.table.bytes(span))
        } else {
            None
        }
    }

    /// A request.
    fn walk_request(&mut self, span: Span, walk: Walk) -> Walk
        ensures value { self.new ≡ (specs.walked_request span (specs.walking self.old walk)).layout }
        ensures walk { result ≡ (specs.walked_request span (specs.walking self.old walk)).walk }
        ensures room { held.emptied self.new ≡ held.emptied self.old }
    {
        let space = self.space_in(walk, span);
        let walk = self.walk_asked(space, span, walk);
        let opened = open_after(self.grid.table.bytes(span), walk.opened);
        Walk { opened, ..walk }
    }

    /// Whether fields of a row stand in no column.
    fn has_beyond(&self, number: usize, placed: Placed) -> bool
        ensures { result ≡ specs.has_beyond self.now number placed }
    {
        let row = self.grid.table.row(number);
        self.grid.table.some_print(placed.beyond, row.end)
    }

    /// A row's step is the next one.
    fn set_step(&mut self, number: usize)
        ensures value { self.new ≡ specs.row_on_step number self.old }
        ensures room { held.emptied self.new ≡ held.emptied self.old }
    {
        let step = self.steps.len();
        let tall = self.tall(number);
        set_item(&mut self.talls, number, Tall { step, ..tall });
    }

    /// The line of a row.
    fn add_row(&mut self, number: usize, walk: Walk) -> Walk
        ensures value { self.new ≡ (specs.row_stepped number (specs.walking self.old walk)).layout }
        ensures walk { result ≡ (specs.row_stepped number (specs.walking self.old walk)).walk }
        ensures room { held.emptied self.new ≡ held.emptied self.old }
    {
        let walk = self.add_step(StepKind::Row(number), self.tall(number).lines(), walk);
        Walk {
            ruled: self.grid.table.is_all_boxed(),
            last: Some(number),
            ..walk
        }
    }

    /// The fields of a row that stand in no column, if there are any.
    fn add_beyond(&mut self, number: usize, placed: Placed, walk: Walk) -> Walk
        ensures value { self.new ≡ (specs.beyond_stepped number placed (specs.walking self.old walk)).layout }
        ensures walk { result ≡ (specs.beyond_stepped number placed (specs.walking self.old walk)).walk }
        ensures room { held.emptied self.new ≡ held.emptied self.old }
    {
        if !self.has_beyond(number, placed) {
            return walk;
        }
        self.add_other(StepKind::Beyond(number), walk)
    }

    /// A row that takes room.
    fn walk_own_row(&mut self, number: usize, walk: Walk) -> Walk
        ensures value { self.new ≡ (specs.walked_own_row number (specs.walking self.old walk)).layout }
        ensures walk { result ≡ (specs.walked_own_row number (specs.walking self.old walk)).walk }
        ensures room { held.emptied self.new ≡ held.emptied self.old }
    {
        let walk = self.add_step(StepKind::Before(number), 0, walk);
        let walk = self.release_rule(Some(number), walk);
        self.set_step(number);
        self.add_row(number, walk)
    }

    /// The line of a row, if it takes room.
    fn walk_line(&mut self, number: usize, placed: Placed, walk: Walk) -> Walk
        ensures value { self.new ≡ (specs.walked_line placed number (specs.walking self.old walk)).layout }
        ensures walk { result ≡ (specs.walked_line placed number (specs.walking self.old walk)).walk }
        ensures room { held.emptied self.new ≡ held.emptied self.old }
    {
        if placed.own {
            return self.walk_own_row(number, walk);
        }
        self.add_step(StepKind::Before(number), 0, walk)
    }

    /// A row.
    fn walk_row(&mut self, number: usize, walk: Walk) -> Walk
        ensures value { self.new ≡ (specs.walked_row number (specs.walking self.old walk)).layout }
        ensures walk { result ≡ (specs.walked_row number (specs.walking self.old walk)).walk }
        ensures room { held.emptied self.new ≡ held.emptied self.old }
    {
        let placed = self.grid.placed(number);
        let walk = self.walk_line(number, placed, walk);
        let walk = self.add_beyond(number, placed, walk);
        Walk {
            next: number.saturating_add(1),
            ..walk
        }
    }

    /// A rule waits.
    fn walk_rule(&mut self, walk: Walk) -> Walk
        ensures value { self.new ≡ (specs.walked_rule (specs.walking self.old walk)).layout }
        ensures walk { result ≡ (specs.walked_rule (specs.walking self.old walk)).walk }
        ensures room { held.emptied self.new ≡ held.emptied self.old }
    {
        self.release_beside(walk).with_rule(true)
    }

    /// An item.
    fn walk_item(&mut self, item: Item, walk: Walk) -> Walk
        ensures value { self.new ≡ (specs.walked_item item (specs.walking self.old walk)).layout }
        ensures walk { result ≡ (specs.walked_item item (specs.walking self.old walk)).walk }
        ensures room { held.emptied self.new ≡ held.emptied self.old }
    {
        match item {
            Item::Rule => self.walk_rule(walk),
            Item::Request(span) => self.walk_request(span, walk),
            Item::Row(number) => self.walk_row(number, walk),
        }
    }

    /// What is known before the first item.
    fn first_walk(&self) -> Walk
        ensures { result ≡ specs.first_walk self.now }
    {
        let ruled = if self.begun {
            self.grid.table.is_all_boxed()
        } else {
            self.grid.table.is_boxed()
        };
        Walk {
            last: None,
            next: 0,
            ruled,
            opened: 0,
            line: 0,
            more: 0,
        }
    }

    /// What stands above the first item.
    fn walk_begin(&mut self) -> Walk
        ensures value { self.new ≡ (specs.walk_begun self.old).layout }
        ensures walk { result ≡ (specs.walk_begun self.old).walk }
        ensures room { held.emptied self.new ≡ held.emptied self.old }
    {
        let walk = self.first_walk();
        if self.grid.table.is_double() && !self.begun {
            return self.add_step(StepKind::Edge(true), 1, walk);
        }
        walk
    }

    /// Whether the last item is a rule.
    fn ends_with_rule(&self) -> bool
        ensures { result ≡ specs.ends_with_rule self.now }
    {
        let items = self.grid.table.items.len();
        items > 0 && matches!(self.grid.table.item(items - 1), Item::Rule)
    }

    /// Whether the last item is a rule that stands beside the one below the last row, or where the table goes on.
    fn closes_rule(&self, ends: bool) -> bool
        ensures { result ≡ specs.closes_rule ends self.now }
    {
        self.ends_with_rule()
            && (!ends || (self.grid.table.is_boxed() && !self.grid.table.is_all_boxed()))
    }

    /// The last item's rule goes out beside that of a box, or where the table goes on.
    fn close_rule(&mut self, ends: bool, walk: Walk) -> Walk
        ensures value { self.new ≡ (specs.closed_rule ends (specs.walking self.old walk)).layout }
        ensures walk { result ≡ (specs.closed_rule ends (specs.walking self.old walk)).walk }
        ensures room { held.emptied self.new ≡ held.emptied self.old }
    {
        if self.closes_rule(ends) {
            return self.release_rule(walk.last, walk);
        }
        walk
    }

    /// The rule below a table.
    fn close_box(&mut self, ends: bool, walk: Walk) -> Walk
        ensures value { self.new ≡ (specs.closed_box ends (specs.walking self.old walk)).layout }
        ensures walk { result ≡ (specs.closed_box ends (specs.walking self.old walk)).walk }
        ensures room { held.emptied self.new ≡ held.emptied self.old }
    {
        if ends && (walk.ruled || self.grid.table.is_boxed()) {
            return self.add_step(StepKind::Rule(walk.last, None), 1, walk);
        }
        walk
    }

    /// The outer rule below a double box.
    fn close_double(&mut self, ends: bool, walk: Walk) -> Walk
        ensures value { self.new ≡ (specs.closed_double ends (specs.walking self.old walk)).layout }
        ensures walk { result ≡ (specs.closed_double ends (specs.walking self.old walk)).walk }
        ensures room { held.emptied self.new ≡ held.emptied self.old }
    {
        if ends && self.grid.table.is_double() {
            return self.add_step(StepKind::Edge(false), 1, walk);
        }
        walk
    }

    /// What stands below the last item.
    fn walk_end(&mut self, ends: bool, walk: Walk) -> Walk
        ensures value { self.new ≡ (specs.walk_ended ends (specs.walking self.old walk)).layout }
        ensures walk { result ≡ (specs.walk_ended ends (specs.walking self.old walk)).walk }
        ensures room { held.emptied self.new ≡ held.emptied self.old }
    {
        let walk = self.close_rule(ends, walk);
        let walk = self.close_box(ends, walk);
        self.close_double(ends, walk)
    }

    /// The items.
    fn walk_items(&mut self, walk: Walk) -> Walk
        ensures value { self.new ≡ (specs.walked_items (specs.walking self.old walk)).layout }
        ensures walk { result ≡ (specs.walked_items (specs.walking self.old walk)).walk }
        ensures room { held.emptied self.new ≡ held.emptied self.old }
    {
        let mut walk = walk;
        for number in 0..self.grid.table.items.len() {
            let item = self.grid.table.item(number);
            walk = self.walk_item(item, walk);
        }
        walk
    }

    /// No lines are known.
    fn forget_steps(&mut self)
        ensures value { self.new ≡ specs.without_steps self.old }
        ensures room { held.emptied self.new ≡ held.emptied self.old }
    {
        self.steps.clear();
    }

    /// The lines of a table, or of a part of one, that ends here or not; tells how many they are.
    pub(crate) fn take_steps(&mut self, ends: bool) -> usize
        ensures value { self.new ≡ specs.steps_taken ends self.old }
        ensures lines { result ≡ specs.lines_taken ends self.old }
        ensures room { held.emptied self.new ≡ held.emptied self.old }
    {
        self.forget_steps();
        let walk = self.walk_begin();
        let walk = self.walk_items(walk);
        let walk = self.walk_end(ends, walk);
        walk.line.saturating_add(walk.more)
    }

    /// The line of a row's step.
    pub(crate) fn row_line(&self, row: usize) -> usize
        ensures { result ≡ specs.row_line self.now row }
    {
        self.step(self.tall(row).step).line
    }

    /// Whether a field goes on over a rule between two rows.
    fn goes_over_rule(
        &self,
        above: Option<usize>,
        below: Option<usize>,
        number: usize,
        column: usize,
    ) -> bool
        ensures { result ≡ specs.goes_over_rule self.now above below number column }
    {
        match below {
            Some(row) => self.grid.is_covered(above, Some(row), column)
                && self.grid.cell_number(row, column) == number,
            None => false,
        }
    }

    /// The last line of a step up to another.
    fn line_in(&self, kind: StepKind, line: usize, wanted: usize) -> usize
        ensures { result ≡ specs.line_in self.now kind line wanted }
    {
        let lines = match kind {
            StepKind::Bars(_, lines) => lines,
            StepKind::Row(row) => self.tall(row).lines(),
            _ => 1,
        };
        line.saturating_add(lines.saturating_sub(1)).min(wanted)
    }

    /// Whether a field that begins in a column stands beside a step.
    fn stands_beside(&self, kind: StepKind, number: usize, column: usize) -> bool
        ensures { result ≡ specs.stands_beside self.now kind number column }
    {
        match kind {
            StepKind::Rule(above, below) => self.goes_over_rule(above, below, number, column),
            StepKind::Row(row) => self.grid.cell_number(row, column) == number,
            StepKind::Bars(row, lines) => lines > 0 && self.grid.cell_number(row, column) == number,
            _ => false,
        }
    }

    /// The last line of a step up to another beside which a field stands that begins in a column, or this one.
    fn line_beside(
        &self,
        step: Step,
        number: usize,
        column: usize,
        wanted: usize,
        line: usize,
    ) -> usize
        ensures { result ≡ specs.line_beside self.now step number column wanted line }
    {
        if self.stands_beside(step.kind, number, column) {
            self.line_in(step.kind, step.line, wanted)
        } else {
            line
        }
    }

    /// The last line up to another beside which a field stands, from its first row on.
    #[tactic(auto, using(crate::proofs::Nexts::line_next))]
    pub(crate) fn line_up_to(&self, number: usize, cell: Cell, wanted: usize) -> usize
        ensures { result ≡ specs.line_up_to self.now number cell wanted }
    {
        let mut line = self.row_line(cell.top);
        for place in self.tall(cell.top).step..self.steps.len() {
            let step = self.step(place);
            if step.line > wanted {
                return line;
            }
            line = self.line_beside(step, number, cell.first, wanted, line);
        }
        line
    }
}
