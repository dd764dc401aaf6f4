//! Columns, or the spaces between them, share what is left of the line.

ghost use Rattle.std.specs.Prelude.{◌≡◌};
ghost use Rattle.tbl_columns.specs.Held as held;
ghost use Rattle.tbl_columns.specs.Shares as specs;

use super::columns::parts_end;
use super::grid::{Column, Edges, Grid};
use tbl_table::set_item;

/// The space before which so many parts of a whole stand, and how far in it bars stand.
#[derive(Clone, Copy)]
struct Share {
    /// So many cells.
    whole: usize,
    /// All its parts.
    parts: usize,
}

impl Share {
    /// Where so many parts end.
    fn end(self, count: usize) -> usize
        ensures { result ≡ specs.share_end count self }
    {
        parts_end(self.whole, count, self.parts)
    }

    /// Where the middle of parts from one place to another stands.
    fn middle(self, before: usize, count: usize) -> usize
        ensures { result ≡ specs.share_middle before count self }
    {
        let part = self.whole.saturating_mul(24) / self.parts.max(1);
        let twice = part.saturating_mul(before.saturating_add(count));
        (twice / 2).saturating_add(11) / 24
    }
}

impl Grid {
    /// How many cells a table may take.
    pub fn line_room(&self) -> usize
        ensures { result ≡ specs.line_room self.now }
    {
        self.room.line.saturating_sub(self.room.indent)
    }

    /// How many columns share the line.
    fn count_wide(&self) -> usize
        ensures { result ≡ specs.wide_columns self.now }
    {
        let mut count: usize = 0;
        for column in self.columns.as_slice() {
            count = count.saturating_add(if column.wide { 1 } else { 0 });
        }
        count
    }

    /// Whether columns share the line.
    pub(crate) fn has_wide(&self) -> bool
        ensures { result ≡ specs.has_wide self.now }
    {
        self.count_wide() > 0
    }

    /// What columns that share the line have of it.
    fn wide_rest(&self) -> usize
        ensures { result ≡ specs.wide_rest self.now }
    {
        let mut rest = self.line_room().saturating_sub(self.end());
        for column in self.columns.as_slice() {
            rest = rest.saturating_add(if column.wide { column.width } else { 0 });
        }
        rest
    }

    /// A column of `x` has its share of the rest that so many still share; tells how many do then, and what is left for them.
    fn share_column(&mut self, number: usize, left: usize, rest: usize) -> (usize, usize)
        ensures value { self.new ≡ (specs.shared_at number (specs.sharing self.old left rest)).grid }
        ensures left { result.0 ≡ (specs.shared_at number (specs.sharing self.old left rest)).left }
        ensures rest { result.1 ≡ (specs.shared_at number (specs.sharing self.old left rest)).rest }
        ensures room { held.emptied self.new ≡ held.emptied self.old }
    {
        let column = self.column(number);
        if !column.wide || left == 0 {
            return (left, rest);
        }
        let share = rest.saturating_add((left - 1) / 2) / left;
        let width = column.width.max(share);
        set_item(&mut self.columns, number, Column { width, ..column });
        (left - 1, rest.saturating_sub(share))
    }

    /// Columns of `x` share what is left of the line; one that is wider than its share stays so.
    #[tactic(auto, using(crate::proofs::Turns::one_more))]
    pub(crate) fn share_columns(&mut self)
        ensures value { self.new ≡ specs.shared_columns self.old }
        ensures room { held.emptied self.new ≡ held.emptied self.old }
    {
        let mut left = self.count_wide();
        let mut rest = self.wide_rest();
        for number in 0..self.columns.len() {
            let (more, less) = self.share_column(number, left, rest);
            left = more;
            rest = less;
        }
    }

    /// The spaces between columns, all together.
    fn all_gaps(&self, gaps: usize) -> usize
        ensures { result ≡ specs.all_gaps gaps self.now }
    {
        let mut all: usize = 0;
        for number in 0..gaps {
            all = all.saturating_add(self.column(number).gap);
        }
        all
    }

    /// A table of one column without space is as wide as the line by that.
    fn widen_only(&mut self, room: usize)
        requires { room ≡ specs.line_room self.old }
        ensures value { self.new ≡ specs.only_widened self.old }
        ensures room { held.emptied self.new ≡ held.emptied self.old }
    {
        let column = self.column(0);
        let more = room.saturating_sub(self.end());
        let width = column.width.saturating_add(more);
        set_item(&mut self.columns, 0, Column { width, ..column });
    }

    /// A space after a column is its share, before which so many parts stand; tells how many stand before the next one.
    fn share_gap(&mut self, number: usize, before: usize, share: Share, alone: bool) -> usize
        ensures value { self.new ≡ (specs.gap_shared share alone number (specs.gaps_so_far self.old before)).grid }
        ensures before { result ≡ (specs.gap_shared share alone number (specs.gaps_so_far self.old before)).before }
        ensures room { held.emptied self.new ≡ held.emptied self.old }
    {
        let column = self.column(number);
        let count = before.saturating_add(if alone { 1 } else { column.gap });
        let begin = share.end(before);
        let gap = share.end(count).saturating_sub(begin);
        let bar_in = share.middle(before, count).saturating_sub(begin);
        let shared = Column {
            gap,
            bar_in,
            ..column
        };
        set_item(&mut self.columns, number, shared);
        count
    }

    /// So it is of all of them.
    #[tactic(auto, using(crate::proofs::Turns::one_more))]
    fn share_all_gaps(&mut self, gaps: usize, share: Share, alone: bool)
        ensures value { self.new ≡ specs.gaps_shared gaps share alone self.old }
        ensures room { held.emptied self.new ≡ held.emptied self.old }
    {
        let mut before = self.left_edge();
        for number in 0..gaps {
            before = self.share_gap(number, before, share, alone);
        }
    }

    /// The spaces at the edges are theirs, where a bar stands there.
    fn share_edges(&mut self, share: Share)
        ensures value { self.new ≡ specs.edges_shared share self.old }
        ensures room { held.emptied self.new ≡ held.emptied self.old }
    {
        let left = self.left_edge();
        let right = self.right_edge();
        let before = share.end(share.parts.saturating_sub(right));
        self.edges = Edges {
            left: share.end(left).saturating_sub(left),
            right: if right == 0 {
                0
            } else {
                share.whole.saturating_sub(before).saturating_sub(right)
            },
        };
    }

    /// The parts of the edges: a bar each.
    fn edge_parts(&self) -> usize
        ensures { result ≡ specs.edge_parts self.now }
    {
        self.left_edge().saturating_add(self.right_edge())
    }

    /// All parts.
    fn all_parts(&self) -> usize
        ensures { result ≡ specs.all_parts self.now }
    {
        self.all_gaps(self.columns.len().saturating_sub(1))
            .saturating_add(self.edge_parts())
    }

    /// What spaces have of the line.
    fn gaps_rest(&self) -> usize
        ensures { result ≡ specs.gaps_rest self.now }
    {
        self.line_room()
            .saturating_add(self.all_parts())
            .saturating_sub(self.end())
    }

    /// Whether nothing is left of the line.
    fn has_no_rest(&self) -> bool
        ensures { result ≡ specs.has_no_rest self.now }
    {
        self.line_room() < self.end()
            || (self.edge_parts() > 0 && self.gaps_rest() <= self.all_parts())
    }

    /// What spaces share.
    fn share_of_gaps(&self) -> Share
        ensures { result ≡ specs.share_of_gaps self.now }
    {
        let all = self.all_parts();
        Share {
            whole: if self.has_no_rest() {
                0
            } else {
                self.gaps_rest()
            },
            parts: if all == 0 {
                self.columns.len().saturating_sub(1)
            } else {
                all
            },
        }
    }

    /// Spaces share what is left of the line, where there are some, or several columns.
    fn share_some_gaps(&mut self)
        ensures value { self.new ≡ specs.some_gaps_shared self.old }
        ensures room { held.emptied self.new ≡ held.emptied self.old }
    {
        let none = self.has_no_rest();
        let share = self.share_of_gaps();
        let alone = self.all_parts() == 0;
        let gaps = self.columns.len().saturating_sub(1);
        self.share_all_gaps(gaps, share, alone);
        if !none {
            self.share_edges(share);
        }
    }

    /// The spaces between columns, and those beside bars at the edges, share what is left of the line by their parts.
    pub(crate) fn share_gaps(&mut self)
        ensures value { self.new ≡ specs.shared_gaps self.old }
        ensures room { held.emptied self.new ≡ held.emptied self.old }
    {
        if self.all_parts() == 0 && self.columns.len().saturating_sub(1) == 0 {
            let room = self.line_room();
            return self.widen_only(room);
        }
        self.share_some_gaps();
    }
}
