//! Rows of columns: a cell begins where its column does, on the line of the cell before it if that has room in its own.
ghost use Rattle.std.specs.Prelude.{◌≡◌, ◌+◌, ◌≤◌, ◌++◌, length};
ghost use Rattle.mdoc_layout.specs.Columns as specs;

use super::lengths::at_most;
use super::own_lines::put_number;
use super::page::{Block, Kind, Page};
use nr_vectors::slice_vec::SliceVec;

/// The space after each of so many columns.
pub(crate) fn gap(columns: u16) -> u16
    ensures value { result ≡ specs.gap columns }
    ensures few { result ≤ 4 }
{
    match columns {
        0..=4 => 4,
        5 => 3,
        _ => 1,
    }
}

impl Block {
    /// Whether a text line is a row: the block has columns, and no item.
    pub fn has_rows(&self) -> bool
        ensures { result ≡ specs.has_rows self.now }
    {
        matches!(self.kind, Kind::Column) && !self.begun
    }
}

/// The width of the column before a cell, and the space after it.
fn put_step_to(cell: u16, block: Block, out: &mut SliceVec<'_, u8>)
    requires { length out.old.items + 20 ≤ out.old.capacity }
    ensures items { out.new.items ≡ out.old.items ++ specs.step_to cell block }
    ensures few { length out.new.items ≤ length out.old.items + 20 }
    ensures room { out.new.capacity ≡ out.old.capacity }
{
    out.extend(b"\\n[%");
    put_number(cell, out);
    out.extend(b"]u+");
    put_number(gap(block.columns), out);
    out.extend(b"n");
}

impl Page {
    /// Columns begin: the macro that begins a cell, and the string of tab stops.
    pub(crate) fn put_columns(&mut self, out: &mut SliceVec<'_, u8>)
        requires { length out.old.items + 128 ≤ out.old.capacity }
        ensures page { self.new ≡ (specs.put_columns self.old).page }
        ensures items { out.new.items ≡ out.old.items ++ (specs.put_columns self.old).bytes }
        ensures few { length out.new.items ≤ length out.old.items + 128 }
        ensures room { out.new.capacity ≡ out.old.capacity }
    {
        self.put_head(
            b".de %b\n.in +\\\\$1\n.if \\\\$1>\\\\n(.n*\\\\n(nl>\\\\n(%t \\\\{.sp -1\n\\\\&\\\\c\n.\\\\}\n.nr %t \\\\n(nl\n..\n.ds %c",
            out,
        );
    }

    /// The width of the newest column, and a tab stop after the ones before.
    pub(crate) fn put_column(&mut self, width: u16, out: &mut SliceVec<'_, u8>)
        requires { length out.old.items + 64 ≤ out.old.capacity }
        ensures page { self.new ≡ (specs.put_column width self.old).page }
        ensures items { out.new.items ≡ out.old.items ++ (specs.put_column width self.old).bytes }
        ensures few { length out.new.items ≤ length out.old.items + 64 }
        ensures room { out.new.capacity ≡ out.old.capacity }
    {
        self.freshen(out);
        out.extend(b".nr %");
        put_number(self.block.columns, out);
        out.extend(b" ");
        put_number(width, out);
        out.extend(b"n\n.as %c \" +");
        put_number(width, out);
        out.extend(b"n+\\\\n(%gu\n");
    }

    /// Tab stops of columns.
    pub(crate) fn put_stops(&mut self, gap: u16, out: &mut SliceVec<'_, u8>)
        requires { length out.old.items + 64 ≤ out.old.capacity }
        ensures page { self.new ≡ (specs.put_stops gap self.old).page }
        ensures items { out.new.items ≡ out.old.items ++ (specs.put_stops gap self.old).bytes }
        ensures few { length out.new.items ≤ length out.old.items + 64 }
        ensures room { out.new.capacity ≡ out.old.capacity }
    {
        self.freshen(out);
        out.extend(b".nr %g ");
        put_number(gap, out);
        out.extend(b"n\n.ta \\*(%c\n");
    }

    /// A row begins, where two lines have room.
    pub(crate) fn put_row(&mut self, out: &mut SliceVec<'_, u8>)
        requires { length out.old.items + 40 ≤ out.old.capacity }
        ensures page { self.new ≡ (specs.put_row self.old).page }
        ensures items { out.new.items ≡ out.old.items ++ (specs.put_row self.old).bytes }
        ensures few { length out.new.items ≤ length out.old.items + 40 }
        ensures room { out.new.capacity ≡ out.old.capacity }
    {
        self.freshen(out);
        out.extend(b".in \\n_u\n.)N 2\n.nr %t \\n(nl\n");
        self.lay.cell = 0;
    }

    /// The place of the next cell: beside the last line of the one before if that leaves a blank.
    fn put_step(&self, cell: u16, out: &mut SliceVec<'_, u8>)
        requires cell { cell ≡ specs.next_cell self.now }
        requires space { length out.old.items + 140 ≤ out.old.capacity }
        ensures items { out.new.items ≡ out.old.items ++ specs.put_step self.now }
        ensures few { length out.new.items ≤ length out.old.items + 140 }
        ensures room { out.new.capacity ≡ out.old.capacity }
    {
        out.extend(b".%b ");
        put_step_to(cell, self.block, out);
        out.extend(b"\n");
    }

    /// A cell ends, and another begins: one after the last column's joins what is before.
    pub(crate) fn put_cell(&mut self, out: &mut SliceVec<'_, u8>)
        requires { length out.old.items + 150 ≤ out.old.capacity }
        ensures page { self.new ≡ (specs.put_cell self.old).page }
        ensures items { out.new.items ≡ out.old.items ++ (specs.put_cell self.old).bytes }
        ensures few { length out.new.items ≤ length out.old.items + 150 }
        ensures room { out.new.capacity ≡ out.old.capacity }
    {
        let cell = at_most(99, self.lay.cell) + 1;
        if cell <= self.block.columns {
            self.freshen(out);
            self.put_step(cell, out);
            self.lay.cell = cell;
            return;
        }
        if self.block.columns == 0 {
            out.push(b'\t');
        }
        self.was_put();
        self.lay.joined = true;
        self.lay.cell = cell;
    }
}
