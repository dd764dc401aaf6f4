//! A table is measured: its columns by their formats and fields, blocks and the line.

ghost use Rattle.std.specs.Prelude.{◌≡◌};
ghost use Rattle.tbl_columns.specs.Held as held;
ghost use Rattle.tbl_columns.specs.Measured as specs;

use super::grid::Grid;

impl Grid {
    /// The columns by their fields, then `e`, then what fields over several of them lack, then blocks, and what is left of the
    /// line.
    fn measure_columns(&mut self)
        ensures value { self.new ≡ specs.measured_columns self.old }
        ensures room { held.emptied self.new ≡ held.emptied self.old }
    {
        self.measure_fields();
        self.make_equal();
        self.measure_spans();
        self.make_equal();
        self.fill_blocks(false);
        self.make_equal();
        self.lay_out();
        self.share_line();
        self.lay_out();
    }

    /// Columns of `x` share the line, or with `expand` the spaces between columns do.
    fn share_line(&mut self)
        ensures value { self.new ≡ specs.line_shared self.old }
        ensures room { held.emptied self.new ≡ held.emptied self.old }
    {
        if self.has_wide() {
            self.share_columns();
            self.fill_blocks(true);
        } else if self.table.looks.expand {
            self.share_gaps();
        }
    }

    /// Columns are measured by the rows that were read.
    pub fn measure_table(&mut self)
        ensures value { self.new ≡ specs.measured_table self.old }
        ensures room { held.emptied self.new ≡ held.emptied self.old }
    {
        self.measure_columns();
        self.narrow();
    }

    /// Rows are placed, and the words of their blocks read.
    pub fn place_table(&mut self)
        ensures value { self.new ≡ specs.placed_table self.old }
        ensures room { held.emptied self.new ≡ held.emptied self.old }
    {
        self.place_cells();
        self.read_blocks();
    }

    /// The width of all columns, with the spaces between them.
    fn whole_width(&self) -> usize
        ensures { result ≡ specs.whole_width self.now }
    {
        self.span_width(0, self.columns.len().saturating_sub(1))
    }

    /// Columns that were narrowed stay as they are.
    fn fill_part(&mut self)
        ensures value { self.new ≡ specs.part_filled self.old }
        ensures room { held.emptied self.new ≡ held.emptied self.old }
    {
        self.read_long_fields();
        self.keep_lines();
        self.fill_all_within();
    }

    /// Columns are as wide as before at least.
    fn widen_part(&mut self)
        ensures value { self.new ≡ specs.part_widened self.old }
        ensures room { held.emptied self.new ≡ held.emptied self.old }
    {
        self.measure_fields();
        self.make_equal();
        self.measure_spans();
        self.make_equal();
        self.fill_blocks(false);
        self.fill_blocks(true);
        self.make_equal();
        self.lay_out();
    }

    /// Columns are measured by the rows of a part that is not the first; tells whether they have become wider.
    pub fn measure_part(&mut self) -> bool
        ensures value { self.new ≡ specs.measured_part self.old }
        ensures grown { result ≡ specs.has_grown self.old }
        ensures room { held.emptied self.new ≡ held.emptied self.old }
    {
        let before = self.whole_width();
        if self.narrowed {
            self.fill_part();
        } else {
            self.widen_part();
        }
        before < self.whole_width()
    }
}
