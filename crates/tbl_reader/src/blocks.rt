//! Text blocks.
ghost use Rattle.std.specs.Prelude.{◌≡◌, ◌≤◌, length};
ghost use Rattle.tbl_reader.specs.BlockLines as specs;
ghost use Rattle.tbl_reader.specs.Telling.{Tells};

use super::command::is_command;
use super::complaint::Kind;
use super::field::without_blanks_before;
use super::reader::{Reader, tail_from};
use super::state::Mode;
use super::telling::{Setter, Tell};
use nr_units::Name;
use tbl_blocks::{is_unset, request_name};

/// The most bytes of a name that are reported.
const REPORTED: usize = 32;

/// Whether a line ends a text block.
fn ends_block(line: &[u8]) -> bool
    ensures { result ≡ specs.ends_block line.now }
{
    line.len() > 1 && line[0] == b'T' && line[1] == b'}'
}

/// Where the row goes on after `T}`: after the blanks there.
fn rest_at(line: &[u8]) -> usize
    ensures value { result ≡ specs.rest_at line.now }
    ensures within { result ≤ length line.now }
{
    line.len() - without_blanks_before(tail_from(line, 2)).len()
}

/// Whether a byte prints in ASCII, and is no blank.
fn prints(byte: u8) -> bool
    ensures { result ≡ specs.prints byte }
{
    matches!(byte, b'!'..=b'~')
}

/// How many bytes stand before the first that doesn't print.
fn printed_len(name: &[u8]) -> usize
    ensures value { result ≡ specs.printed_len name.now }
    ensures within { result ≤ length name.now }
{
    name.iter().take_while(|byte| prints(**byte)).count()
}

/// What is reported of a request's name.
fn reported_name(name: &[u8]) -> Name
    ensures { result ≡ specs.reported_name name.now }
{
    let len = printed_len(name);
    Name::of(&name[..len.min(REPORTED)])
}

impl Reader {
    /// A line in a text block ends.
    pub(crate) fn block_line<S: Setter>(&mut self, setter: &mut S)
        ensures page { self.new ≡ (specs.block_line self.old).page }
        ensures emitted { Tells S.shows S.hears (specs.block_line self.old).pieces setter.old setter.new }
    {
        if ends_block(self.kept.as_slice()) {
            self.block_ends(setter);
        } else if is_command(self.kept.as_slice(), b'E') {
            self.closes_block(setter);
            self.table_ends(setter);
        } else {
            self.tells_block_line(setter);
        }
    }

    /// A request of a text block that isn't set is reported.
    fn reports_unset<S: Setter>(&self, setter: &mut S)
        ensures { Tells S.shows S.hears (specs.unset_reported self.now) setter.old setter.new }
    {
        let line = self.kept.as_slice();
        if is_unset(line) {
            let name = reported_name(request_name(line));
            self.state.complains(Kind::UnsetRequest(name), setter);
        }
    }

    /// A line of a text block is emitted.
    fn tells_block_line<S: Setter>(&mut self, setter: &mut S)
        ensures page { self.new ≡ (specs.block_said self.old).page }
        ensures emitted { Tells S.shows S.hears (specs.block_said self.old).pieces setter.old setter.new }
    {
        self.reports_unset(setter);
        setter.tell(Tell::BlockText, self.kept.as_slice());
        setter.tell(Tell::BlockText, b"\n");
        self.forgets();
    }

    /// The beginning of such a line is emitted, the rest of which is not kept.
    fn tells_line_begun<S: Setter>(&mut self, setter: &mut S)
        ensures page { self.new ≡ (specs.block_line_begun self.old).page }
        ensures emitted { Tells S.shows S.hears (specs.block_line_begun self.old).pieces setter.old setter.new }
    {
        self.reports_unset(setter);
        setter.tell(Tell::BlockText, self.kept.as_slice());
        self.state.mode = Mode::BlockLine;
        self.forgets();
    }

    /// A text block has ended: what stands after `T}` belongs to the row.
    fn leaves_block<S: Setter>(&mut self, setter: &mut S) -> bool
        ensures page { self.new ≡ (specs.block_left self.old).page }
        ensures emitted { Tells S.shows S.hears (specs.block_left self.old).pieces setter.old setter.new }
        ensures more { result ≡ specs.goes_on self.old }
    {
        setter.tell(Tell::BlockEnd, b"");
        self.state.counts_field();
        let rest = rest_at(self.kept.as_slice());
        if rest >= self.kept.len() {
            return false;
        }
        let separated = self.kept.get(rest) == self.state.options.tab;
        self.from = if separated { rest + 1 } else { rest };
        self.start = self.from;
        self.state.mode = Mode::Row;
        true
    }

    /// A line that begins with `T}` ends.
    fn block_ends<S: Setter>(&mut self, setter: &mut S)
        ensures page { self.new ≡ (specs.block_ended self.old).page }
        ensures emitted { Tells S.shows S.hears (specs.block_ended self.old).pieces setter.old setter.new }
    {
        if self.leaves_block(setter) {
            self.row_line(setter);
        } else {
            self.row_ends(setter);
        }
    }

    /// A text block has no end: it ends with its row.
    pub(crate) fn closes_block<S: Setter>(&mut self, setter: &mut S)
        ensures page { self.new ≡ (specs.block_closed self.old).page }
        ensures emitted { Tells S.shows S.hears (specs.block_closed self.old).pieces setter.old setter.new }
    {
        self.state
            .complains(Kind::OpenBlock(self.state.block), setter);
        setter.tell(Tell::BlockEnd, b"");
        setter.tell(Tell::Row, b"");
    }

    /// A line in a text block is longer than what is kept.
    pub(crate) fn block_overflows<S: Setter>(&mut self, setter: &mut S)
        ensures page { self.new ≡ (specs.block_overflown self.old).page }
        ensures emitted { Tells S.shows S.hears (specs.block_overflown self.old).pieces setter.old setter.new }
    {
        if ends_block(self.kept.as_slice()) {
            self.leaves_block(setter);
            self.row_overflows(setter);
        } else if is_command(self.kept.as_slice(), b'E') {
            self.closes_block(setter);
            self.long_end(setter);
        } else {
            self.tells_line_begun(setter);
        }
    }
}
