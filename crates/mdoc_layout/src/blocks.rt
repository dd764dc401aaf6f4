//! Lists, their items, and displays.
ghost use Rattle.std.specs.Prelude.{◌≡◌, ◌≤◌};
ghost use Rattle.mdoc_layout.specs.Seeing.{offered};
ghost use Rattle.mdoc_layout.specs.Blocks as specs;

use super::acts::{Act, Request, Sized, Stack};
use super::columns::gap;
use super::lengths::at_most;
use super::macros::{Font, Macro};
use super::page::{Block, Kind, Page};
use super::seen::Seen;

impl Block {
    /// No block: room for blocks is made of it.
    pub const NONE: Block = Block {
        kind: Kind::Page,
        width: None,
        columns: 0,
        offset: 0,
        items: 0,
        compact: false,
        begun: false,
    };
}

/// A block of whose options none was read.
fn fresh_block(kind: Kind, offset: u16) -> Block
    ensures { result ≡ specs.fresh_block kind offset }
{
    Block {
        kind,
        width: None,
        columns: 0,
        offset,
        items: 0,
        compact: false,
        begun: false,
    }
}

/// It is a list.
fn is_list(kind: Kind) -> bool
    ensures { result ≡ specs.is_list kind }
{
    !matches!(
        kind,
        Kind::Page | Kind::Filled | Kind::Literal | Kind::Unfilled | Kind::Centered
    )
}

/// Its items have tags.
fn has_tags(kind: Kind) -> bool
    ensures { result ≡ specs.has_tags kind }
{
    matches!(
        kind,
        Kind::Bullet | Kind::Dash | Kind::Number | Kind::Tag | Kind::Hang
    )
}

/// What tags take without `-width`.
fn usual_width(kind: Kind) -> u16
    ensures value { result ≡ specs.usual_width kind }
    ensures few { result ≤ 6 }
{
    match kind {
        Kind::Bullet | Kind::Dash => 2,
        Kind::Number => 3,
        _ => 6,
    }
}

/// What tags take, with the gap after them.
fn tag_width(block: Block) -> u16
    ensures value { result ≡ specs.tag_width block }
    ensures few { result ≤ 902 }
    ensures some { 2 ≤ result }
{
    match block.width {
        Some(width) => at_most(900, width) + 2,
        None => usual_width(block.kind) + 2,
    }
}

/// An item with a tag is open.
fn is_tagged(block: Block) -> bool
    ensures { result ≡ specs.is_tagged block }
{
    block.begun && has_tags(block.kind)
}

/// How far the text of its items is indented.
fn inner(block: Block) -> u16
    ensures value { result ≡ specs.inner block }
    ensures few { result ≤ 902 }
{
    if is_tagged(block) {
        tag_width(block)
    } else {
        0
    }
}

/// Space before something, or none.
fn space(compact: bool) -> Act
    ensures { result ≡ specs.space compact }
{
    if compact { Act::Fresh } else { Act::Space }
}

impl Page {
    /// A list or a display comes, with its options.
    pub fn block_opens(&mut self, kind: Kind) -> Seen
        ensures { offered self.new result ≡ specs.block_opens kind self.old }
    {
        self.block = fresh_block(kind, inner(self.block));
        Seen::left(Act::Fresh).with(Stack::Opens)
    }

    /// Its indent.
    fn indent(&self) -> Act
        ensures { result ≡ specs.indent self.now }
    {
        Act::Sized(Sized::Indent, at_most(999, self.block.offset))
    }

    /// Where its columns stand.
    fn stops(&self) -> Act
        ensures { result ≡ specs.stops self.now }
    {
        if self.block.columns == 0 {
            return Act::Nothing;
        }
        Act::Stops(gap(self.block.columns))
    }

    /// A list begins.
    pub fn list_begins(&mut self) -> Seen
        ensures { offered self.new result ≡ specs.list_begins self.old }
    {
        if matches!(self.block.kind, Kind::Column) {
            return Seen::three(space(self.block.compact), self.indent(), self.stops());
        }
        Seen::left(self.indent())
    }

    /// A display begins.
    pub fn display_begins(&mut self) -> Seen
        ensures { offered self.new result ≡ specs.display_begins self.old }
    {
        let space = space(self.block.compact);
        let indent = self.indent();
        match self.block.kind {
            Kind::Literal => self.literal(space, indent, Request::Literal),
            Kind::Unfilled => self.literal(space, indent, Request::Unfilled),
            Kind::Centered => self.literal(space, indent, Request::Centered),
            _ => Seen::two(space, indent),
        }
    }

    /// Its lines stay.
    fn literal(&mut self, space: Act, indent: Act, request: Request) -> Seen
        ensures { offered self.new result ≡ specs.literal space indent request self.old }
    {
        self.lay.literal = true;
        Seen::three(space, indent, Act::Request(request))
    }

    /// A list ends.
    pub fn list_ends(&mut self) -> Seen
        ensures { offered self.new result ≡ specs.list_ends self.old }
    {
        if !is_list(self.block.kind) {
            return Seen::left(Act::Nothing);
        }
        let end = Act::Request(Request::IndentEnds);
        if matches!(self.block.kind, Kind::Column) {
            return Seen::two(Act::Request(Request::Tabs), end).with(Stack::Closes);
        }
        Seen::left(end).with(Stack::Closes)
    }

    /// A display ends.
    pub fn display_ends(&mut self) -> Seen
        ensures { offered self.new result ≡ specs.display_ends self.old }
    {
        let end = Act::Request(Request::IndentEnds);
        match self.block.kind {
            Kind::Literal | Kind::Unfilled => self.literal_ends(Request::LiteralEnds),
            Kind::Centered => self.literal_ends(Request::CenteredEnds),
            Kind::Filled => Seen::left(end).with(Stack::Closes),
            _ => Seen::left(Act::Nothing),
        }
    }

    /// Lines stay no more.
    fn literal_ends(&mut self, request: Request) -> Seen
        ensures { offered self.new result ≡ specs.literal_ends request self.old }
    {
        self.lay.literal = false;
        Seen::two(Act::Request(request), Act::Request(Request::IndentEnds)).with(Stack::Closes)
    }

    /// The item around what ended goes on.
    pub fn outer_goes_on(&self, act: Act) -> Seen
        ensures { result ≡ specs.outer_goes_on act self.now }
    {
        if is_tagged(self.block) {
            return Seen::two(act, Act::Sized(Sized::Inner, tag_width(self.block)));
        }
        Seen::left(act)
    }

    /// A line that is indented comes.
    pub fn line_opens(&mut self) -> Seen
        ensures { offered self.new result ≡ specs.line_opens self.old }
    {
        self.call.taker = Macro::Words(Font::Roman);
        Seen::left(Act::Sized(Sized::Indent, inner(self.block) + 6))
    }

    /// One more item.
    fn counts(&mut self)
        ensures { self.new ≡ specs.counts self.old }
    {
        self.block.begun = true;
        if self.block.items < 9999 {
            self.block.items += 1;
        }
    }

    /// An item comes.
    pub fn item(&mut self) -> Seen
        ensures { offered self.new result ≡ specs.item self.old }
    {
        self.place.depth = 0;
        self.call.taker = Macro::Words(Font::Roman);
        if !is_list(self.block.kind) {
            return Seen::left(Act::Nothing);
        }
        let before = self.before_item();
        self.counts();
        if matches!(self.block.kind, Kind::Diagnosis) {
            self.call.taker = Macro::Words(Font::Bold);
            self.call.plain = true;
        }
        Seen::two(before, self.item_head())
    }

    /// The item before has a head alone, in a list of `-diag`.
    fn is_bare(&self) -> bool
        ensures { result ≡ specs.is_bare self.now }
    {
        self.lay.bare && matches!(self.block.kind, Kind::Diagnosis)
    }

    /// What stands before an item: space, unless the list is compact, or the item before has no text.
    fn before_item(&self) -> Act
        ensures { result ≡ specs.before_item self.now }
    {
        let close = self.block.compact || matches!(self.block.kind, Kind::Column);
        if close || !self.block.begun {
            return space(close);
        }
        if self.is_bare() {
            return Act::Fresh;
        }
        Act::Request(Request::Space)
    }

    /// What begins it.
    fn item_head(&self) -> Act
        ensures { result ≡ specs.item_head self.now }
    {
        let width = tag_width(self.block);
        match self.block.kind {
            Kind::Bullet => Act::Sized(Sized::Bullet, width),
            Kind::Dash => Act::Sized(Sized::Dash, width),
            Kind::Number => Act::Numbered(self.block.items, width),
            Kind::Tag => Act::Tag(width),
            Kind::Hang => Act::Tag(width),
            Kind::Column => Act::Row,
            _ => Act::Request(Request::Break),
        }
    }

    /// A tag is whole.
    pub fn tag_ends(&self) -> Act
        ensures { result ≡ specs.tag_ends self.now }
    {
        match self.block.kind {
            Kind::Tag => Act::TagEnds(tag_width(self.block) - 1),
            Kind::Hang => Act::HangEnds(tag_width(self.block) - 2),
            _ => Act::Fresh,
        }
    }

    /// The line of an item ends.
    pub fn item_ends(&self) -> Seen
        ensures { result ≡ specs.item_ends self.now }
    {
        match self.block.kind {
            Kind::Overhang => Seen::left(Act::Request(Request::Break)),
            Kind::Diagnosis => Seen::left(Act::HeadEnds),
            _ => Seen::left(Act::Nothing),
        }
    }
}
