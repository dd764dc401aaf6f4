//! The lines of a block are filled.
ghost use Rattle.std.specs.Prelude.{◌≡◌, ◌+◌, ◌<◌, ◌≤◌, ◌^◌, length};
ghost use Rattle.tbl_blocks.specs.Filling as specs;
ghost use Rattle.tbl_blocks.specs.Lists as lists;

use super::lists::add_item;
use super::parts::{Join, Line, Part};
use nr_vectors::FixedVec;

/// The width of lines, and whether full ones are spread.
#[derive(Clone, Copy)]
pub(crate) struct Measure {
    pub width: usize,
    pub spread: bool,
}

/// One, or none.
fn count(one: bool) -> usize
    ensures { result ≡ specs.count one }
{
    if one { 1 } else { 0 }
}

/// How many cells the first of these parts takes with those that belong to it, and the hyphen where the line would end after
/// them; 0 of none.
fn run(parts: &[Part]) -> usize
    ensures { result ≡ specs.run parts.now }
{
    if parts.is_empty() {
        return 0;
    }
    run_from(parts[0].cells, &parts[1..])
}

/// So many cells, and what the parts at the beginning take that belong to them.
fn run_from(before: usize, parts: &[Part]) -> usize
    ensures { result ≡ specs.run_from before parts.now }
{
    let mut cells = before;
    for part in parts {
        if part.join.may_end() {
            return cells.saturating_add(count(part.join.is_point()));
        }
        cells = cells.saturating_add(part.join.blanks().saturating_add(part.cells));
    }
    cells
}

/// What a line is indented that begins with a part.
fn indent_of(part: Part) -> usize
    ensures { result ≡ specs.indent_of part }
{
    match part.join {
        Join::Line { space: _, indent } => indent,
        _ => part.indent,
    }
}

/// How many empty lines stand before one that begins with a part.
fn space_of(part: Part) -> usize
    ensures { result ≡ specs.space_of part }
{
    match part.join {
        Join::Line { space, indent: _ } => space,
        _ => 0,
    }
}

impl Line {
    /// The line in a row that begins with a part; its odd blanks stand at this side.
    fn opened(number: usize, part: Part, row: usize, left: bool) -> Line
        requires { number < 18446744073709551615 }
        ensures { result ≡ specs.opened number part row left }
    {
        let indent = indent_of(part);
        Line {
            first: number,
            end: number + 1,
            row: row.saturating_add(space_of(part)),
            indent,
            cells: indent.saturating_add(part.cells),
            gaps: 0,
            lack: 0,
            left,
            hyphen: false,
        }
    }

    /// The line after it, which begins with a part.
    fn next(self, number: usize, part: Part) -> Line
        requires { number < 18446744073709551615 }
        ensures { result ≡ specs.line_after number part self }
    {
        let left = if self.lack > 0 { !self.left } else { self.left };
        Line::opened(number, part, self.row.saturating_add(1), left)
    }

    /// With one part more.
    fn grown(self, part: Part) -> Line
        requires { self.«end» < 18446744073709551615 }
        ensures { result ≡ specs.grown part self }
    {
        let more = part.join.blanks().saturating_add(part.cells);
        Line {
            end: self.end + 1,
            cells: self.cells.saturating_add(more),
            gaps: self.gaps.saturating_add(count(part.join.is_gap())),
            ..self
        }
    }

    /// No more fits: it ends before a part.
    fn filled(self, part: Part, measure: Measure) -> Line
        ensures { result ≡ specs.filled part measure self }
    {
        let hyphen = part.join.is_point();
        let cells = self.cells.saturating_add(count(hyphen));
        let spread = measure.spread && self.gaps > 0;
        let lack = if spread {
            measure.width.saturating_sub(cells)
        } else {
            0
        };
        Line {
            cells,
            lack,
            hyphen,
            ..self
        }
    }

    /// Whether the run that begins with the first of these parts doesn't fit on it.
    fn is_over(self, width: usize, parts: &[Part]) -> bool
        requires { 0 < length parts.now }
        ensures { result ≡ specs.is_over width parts.now self }
    {
        let part = parts[0];
        if !part.join.may_end() {
            return false;
        }
        let more = part.join.blanks().saturating_add(run(parts));
        self.cells.saturating_add(more) > width
    }
}

/// The lines of parts that have numbers from one on, in so many cells.
pub(crate) fn fill(parts: &[Part], first: usize, measure: Measure, lines: &mut FixedVec<Line>)
    requires { first + length parts.now < 2 ^ 64 }
    ensures { lines.new ≡ lists.added_all (specs.lines_of first measure parts.now) lines.old }
{
    if parts.is_empty() {
        return;
    }
    let mut line = Line::opened(first, parts[0], 0, true);
    for number in 1..parts.len() {
        let part = parts[number];
        if part.join.is_line() {
            add_item(lines, line);
            line = line.next(first + number, part);
        } else if line.is_over(measure.width, &parts[number..]) {
            let filled = line.filled(part, measure);
            add_item(lines, filled);
            line = filled.next(first + number, part);
        } else {
            line = line.grown(part);
        }
    }
    add_item(lines, line);
}

/// What a part takes that begins a line.
fn begun(part: Part) -> usize
    ensures { result ≡ specs.begun part }
{
    indent_of(part).saturating_add(part.cells)
}

/// Whether a part is the first of those that stand together.
fn starts(words: bool, join: Join) -> bool
    ensures { result ≡ specs.starts words join }
{
    if words {
        join.is_gap() || join.is_line()
    } else {
        join.may_end()
    }
}

/// What a part takes with those before it that stand together with it.
fn together(words: bool, part: Part, before: usize) -> usize
    ensures { result ≡ specs.together words part before }
{
    if starts(words, part.join) {
        begun(part)
    } else {
        before.saturating_add(part.join.blanks().saturating_add(part.cells))
    }
}

/// What stands before a part, with the hyphen of a line that ends there.
fn ended_before(part: Part, before: usize) -> usize
    ensures { result ≡ specs.ended_before part before }
{
    before.saturating_add(count(part.join.is_point()))
}

/// The most cells of parts that stand together, after the first.
fn longest_from(first: usize, parts: &[Part], words: bool) -> usize
    ensures { result ≡ specs.longest_from words first first parts.now }
{
    let mut most = first;
    let mut before = first;
    for part in parts {
        most = most.max(ended_before(*part, before));
        before = together(words, *part, before);
        most = most.max(before);
    }
    most
}

/// The most cells of parts that stand together, with the hyphen of a line that may end within them: wherever lines end, or
/// where they end at blanks alone.
pub(crate) fn longest(parts: &[Part], words: bool) -> usize
    ensures { result ≡ specs.longest words parts.now }
{
    if parts.is_empty() {
        return 0;
    }
    longest_from(begun(parts[0]), &parts[1..], words)
}
