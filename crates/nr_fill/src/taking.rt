// Lines go out of what is collected. (CSTR 54, section 4.1.)
ghost use Rattle.std.specs.Prelude.{◌≡◌, ◌+◌, ◌*◌, ◌<◌, ◌≤◌, ◌^◌, ◌++◌, length, take, drop, replicate};
ghost use Rattle.nr_vectors.specs.Cell.{blank, trimmed};
ghost use Rattle.nr_fill.specs.Cutting.{hyphen_before, pieces_width};
ghost use Rattle.nr_fill.specs.Piece.{cells_in};
ghost use Rattle.nr_fill.specs.Spreading.{cells_in_line, gaps};
ghost use Rattle.nr_fill.specs.Setting.{afterwards, cut_of, extra_of, hyphens, left_over, line_row, set_width, shift, spreads, without_prefix};

use crate::cells::CellSink;
use crate::cutting::Sums;
use crate::line::Line;
use crate::margins::{Margins, margins_after};
use crate::setting::{Extra, Setting, shift_of, spreads_gaps};
use nr_vectors::cell::{Cell, Look};

/// What the first pieces of a line come to.
#[derive(Clone, Copy)]
struct Prefix {
    sums: Sums,
    hyphens: u16,
    /// How many cells of the line's length are left over.
    left_over: usize,
}

/// How the first pieces of a line are set.
#[derive(Clone, Copy)]
struct Plan {
    /// How many blanks stand before the text.
    start: usize,
    extra: Extra,
    spread: bool,
    hyphens: u16,
    /// How many cells the pieces have.
    cells: usize,
    /// How wide they are with all their gaps, the first one's too.
    wide: usize,
    /// How many cells they have as a line, at most.
    most: usize,
}

/// Adds a hyphen where one is to be printed.
fn push_hyphens<S: CellSink>(out: &mut S, count: u16)
    ensures { S.Adds out.old (hyphens count) out.new }
{
    for _hyphen in 0..count {
        out.push(Cell {
            byte: b'-',
            look: Look::Plain,
        });
    }
}

impl Line {
    /// Sets in a row, after what stands there, the longest prefix of the pieces that fits, with its hyphen where it is
    /// cut at a soft point, and one piece where none fits. What is left takes the margins `next`. Tells how wide the
    /// text is, in cells, without the blanks at its end; the row keeps them. A word that is being read stays.
    ///
    /// Proved: The line that goes out is the longest prefix that fits with its hyphen, or one piece where none does,
    /// spread by turns or set right, centred or at the left, and the rest stays.
    pub fn take_line<S: CellSink>(&mut self, next: Margins, setting: Setting, out: &mut S) -> usize
        requires pieces { 0 < length self.old.collected.pieces }
        ensures out { S.Adds out.old (line_row setting self.old.collected (cut_of self.old.collected))
            out.new }
        ensures width { result ≡ set_width setting self.old.collected (cut_of self.old.collected) }
        ensures small { result < 2 ^ 48 }
        ensures rest { self.new ≡ record self.old
            { collected = afterwards next setting.align self.old.collected (cut_of self.old.collected) } }
    {
        let n = self
            .row
            .longest_prefix(self.pieces, self.wide, self.margins.length as usize);
        self.take_prefix(n, next, setting, out)
    }

    /// Sets all pieces as one line in a row, after what stands there, as in no-fill mode and where lines are centred.
    /// A word that is being read stays, and takes the margins `next`. Tells how wide the text is, in cells, without the
    /// blanks at its end; the row keeps them.
    ///
    /// Proved: All that is collected goes out as one line where that is asked for.
    pub fn take_all<S: CellSink>(&mut self, next: Margins, setting: Setting, out: &mut S) -> usize
        requires pieces { 0 < length self.old.collected.pieces }
        ensures out { S.Adds out.old (line_row setting self.old.collected (length self.old.collected.pieces))
            out.new }
        ensures width { result ≡ set_width setting self.old.collected (length self.old.collected.pieces) }
        ensures small { result < 2 ^ 48 }
        ensures rest { self.new ≡ record self.old
            { collected = afterwards next setting.align self.old.collected (length self.old.collected.pieces) } }
    {
        self.take_prefix(self.pieces, next, setting, out)
    }

    /// The first n pieces go out as one line.
    fn take_prefix<S: CellSink>(
        &mut self,
        n: usize,
        next: Margins,
        setting: Setting,
        out: &mut S,
    ) -> usize
        requires some { 0 < n }
        requires within { n ≤ length self.old.collected.pieces }
        ensures out { S.Adds out.old (line_row setting self.old.collected n) out.new }
        ensures width { result ≡ set_width setting self.old.collected n }
        ensures small { result < 2 ^ 48 }
        ensures rest { self.new ≡ record self.old
            { collected = afterwards next setting.align self.old.collected n } }
    {
        let plan = self.plan(n, setting);
        let width = self.set(n, plan, out);
        self.remove(n, plan, next);
        width
    }

    /// What the first n pieces come to as a line.
    fn prefix(&self, n: usize) -> Prefix
        requires some { 0 < n }
        requires within { n ≤ length self.now.collected.pieces }
        ensures left_over { result.left_over ≡ left_over self.now.collected n }
        ensures short { result.left_over < 2 ^ 32 }
        ensures cells { result.sums.cells ≡ cells_in (take n self.now.collected.pieces) }
        ensures wide { result.sums.wide ≡ pieces_width (take n self.now.collected.pieces) }
        ensures gaps { result.sums.gaps ≡ gaps (take n self.now.collected.pieces) }
        ensures hyphens { result.hyphens ≡ hyphen_before (drop n self.now.collected.pieces) }
        ensures one { result.hyphens ≤ 1 }
        ensures small { result.sums.wide < 2 ^ 44 }
    {
        let sums = self.row.sums(n);
        let first = usize::from(self.row.first_join().width());
        let hyphens = self.row.hyphen(n, self.pieces);
        let width = sums.wide - first + usize::from(hyphens);
        Prefix {
            sums,
            hyphens,
            left_over: (self.margins.length as usize).saturating_sub(width),
        }
    }

    /// How the first n pieces are set as a line.
    fn plan(&self, n: usize, setting: Setting) -> Plan
        requires some { 0 < n }
        requires within { n ≤ length self.now.collected.pieces }
        ensures start { result.start ≡ setting.offset + self.now.collected.margins.indent
            + shift setting.align (left_over self.now.collected n) }
        ensures start_small { result.start < 2 ^ 34 }
        ensures extra { result.extra ≡ extra_of setting.align self.now.collected n }
        ensures each { result.extra.each < 2 ^ 32 }
        ensures most { length (cells_in_line result.extra (take n self.now.collected.pieces)) ≤ result.most }
        ensures most_small { result.most < 2 ^ 47 }
        ensures spread { result.spread ≡ spreads setting.align self.now.collected n }
        ensures hyphens { result.hyphens ≡ hyphen_before (drop n self.now.collected.pieces) }
        ensures one { result.hyphens ≤ 1 }
        ensures cells { result.cells ≡ cells_in (take n self.now.collected.pieces) }
        ensures wide { result.wide ≡ pieces_width (take n self.now.collected.pieces) }
    {
        let Prefix {
            sums,
            hyphens,
            left_over,
        } = self.prefix(n);
        let spread = spreads_gaps(setting.align, left_over, sums.gaps);
        let shift = shift_of(setting.align, left_over);
        Plan {
            start: setting.offset as usize + self.margins.indent as usize + shift,
            extra: if spread {
                Extra::share(self.turn, left_over, sums.gaps)
            } else {
                Extra::none()
            },
            spread,
            hyphens,
            cells: sums.cells,
            wide: sums.wide,
            most: sums.wide + left_over + sums.gaps,
        }
    }

    /// Sets the first n pieces in the row, and tells how wide they are there.
    fn set<S: CellSink>(&self, n: usize, plan: Plan, out: &mut S) -> usize
        requires some { 0 < n }
        requires within { n ≤ length self.now.collected.pieces }
        requires each { plan.extra.each < 2 ^ 32 }
        requires most { length (cells_in_line plan.extra (take n self.now.collected.pieces)) ≤ plan.most }
        requires most_small { plan.most < 2 ^ 47 }
        requires start { plan.start < 2 ^ 34 }
        requires hyphens { plan.hyphens ≤ 1 }
        ensures out { S.Adds out.old
            (replicate plan.start blank ++ (cells_in_line plan.extra (take n self.now.collected.pieces)
            ++ hyphens plan.hyphens)) out.new }
        ensures width { result
            ≡ length
            (trimmed (cells_in_line plan.extra (take n self.now.collected.pieces) ++ hyphens plan.hyphens)) }
        ensures small { result < 2 ^ 48 }
    {
        out.blanks(plan.start);
        let extent = self.row.set(n, plan.extra, plan.most, out);
        push_hyphens(out, plan.hyphens);
        if plan.hyphens > 0 {
            extent.count + usize::from(plan.hyphens)
        } else {
            extent.written
        }
    }

    /// Takes the first n pieces away.
    fn remove(&mut self, n: usize, plan: Plan, next: Margins)
        requires within { n ≤ length self.old.collected.pieces }
        requires cells { plan.cells ≡ cells_in (take n self.old.collected.pieces) }
        requires wide { plan.wide ≡ pieces_width (take n self.old.collected.pieces) }
        ensures { self.new ≡ record self.old
            { collected = without_prefix n plan.spread next self.old.collected } }
    {
        self.row.remove_prefix(n, plan.cells);
        self.pieces -= n;
        self.wide -= plan.wide;
        self.turn = self.turn.afterwards(plan.spread);
        self.margins = margins_after(self.margins, self.pieces, self.word.is_none(), next);
    }
}
