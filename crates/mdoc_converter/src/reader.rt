//! Bytes are read: each is offered until it is taken.
ghost use Rattle.std.specs.Prelude.{◌≡◌, ◌+◌, ◌*◌, ◌<◌, ◌≤◌, ◌++◌, length};
ghost use Rattle.mdoc_converter.specs.Reading as specs;
ghost use Rattle.mdoc_converter.specs.Reading.{state};

use super::lines::call_of;
use super::pending::Pending;
use super::scan::{before_next, offer};
use mdoc_layout::{
    At, Block, Font, Last, Lay, Macro, Page, Parameters, Place, Prefix, Scan, Section, Seen, Split,
    Stack,
};
use nr_units::Name;
use nr_vectors::slice_vec::SliceVec;

/// How often a byte is offered at most.
const MEETINGS: u8 = 16;

/// How many blocks may be open around the innermost.
const MOST_BLOCKS: usize = 64;

/// The layout of a page that begins.
fn first_lay() -> Lay
    ensures { result ≡ specs.first_lay }
{
    Lay {
        at: At::Start,
        joined: false,
        spaced: true,
        tag: false,
        literal: false,
        kept: false,
        quiet: true,
        font: Font::Roman,
        cell: 0,
        partial: false,
        bare: false,
    }
}

/// The place where a page begins.
fn first_place() -> Place
    ensures { result ≡ specs.first_place }
{
    Place {
        section: Section::Other,
        last: Last::Other,
        split: Split::Never,
        parameters: Parameters::Outside,
        depth: 0,
        reference: false,
        listed: false,
        authors: 0,
        titled: false,
        width: 0,
    }
}

/// A page begins.
fn first_page() -> Page
    ensures { result ≡ specs.first_page }
{
    Page {
        scan: Scan::Asleep(Prefix::Nothing, 0),
        word: Name::new(),
        marks: Name::new(),
        held: Name::new(),
        parts: Name::new(),
        closers: Name::new(),
        name: Name::new(),
        own: Name::new(),
        title: Name::new(),
        chapter: Name::new(),
        month: Name::new(),
        day: Name::new(),
        year: Name::new(),
        lay: first_lay(),
        call: call_of(Macro::Silent),
        place: first_place(),
        block: Block::NONE,
    }
}

/// What a step says is laid out.
#[tactic(auto, unfolding(crate::specs::Reading::said))]
fn say(page: &mut Page, seen: Seen, out: &mut SliceVec<'_, u8>)
    requires { length out.old.items + 768 ≤ out.old.capacity }
    ensures page { page.new ≡ (specs.said seen page.old).page }
    ensures items { out.new.items ≡ out.old.items ++ (specs.said seen page.old).bytes }
    ensures few { length out.new.items ≤ length out.old.items + 768 }
    ensures room { out.new.capacity ≡ out.old.capacity }
{
    page.lay_out(seen.first, out);
    page.lay_out(seen.second, out);
    page.lay_out(seen.third, out);
}

/// A list or a display within too many is none.
fn refuses(page: &mut Page, outer: Block)
    ensures { page.new ≡ specs.refused outer page.old }
{
    page.block = outer;
    page.call.line = Macro::Silent;
    page.call.taker = Macro::Silent;
}

/// What is half read of an input.
#[derive(Clone, Copy)]
pub(crate) struct Reader {
    /// Of a page.
    pub page: Page,
    /// Of an escape that may name a string.
    pub pending: Pending,
}

impl Reader {
    /// An input begins.
    pub(crate) fn new() -> Reader
        ensures { result ≡ specs.first_reader }
    {
        Reader {
            page: first_page(),
            pending: Pending::Nothing,
        }
    }

    /// A byte is offered once. Tells whether it was taken. Most bytes only go on a text line.
    #[tactic(auto, unfolding(crate::specs::Reading::once, crate::specs::Reading::said, mdoc_layout::specs::LayingOut::lay_out, crate::specs::Scanning::offer))]
    fn hear_once(
        &mut self,
        byte: u8,
        blocks: &mut SliceVec<'_, Block>,
        out: &mut SliceVec<'_, u8>,
    ) -> bool
        requires room { length out.old.items + 768 ≤ out.old.capacity }
        requires blocks { 64 ≤ blocks.old.capacity }
        ensures state { state self.new blocks.new.items
            ≡ (specs.once byte (state self.old blocks.old.items)).state }
        ensures items { out.new.items ≡ out.old.items
            ++ (specs.once byte (state self.old blocks.old.items)).bytes }
        ensures few { length out.new.items ≤ length out.old.items + 768 }
        ensures room { out.new.capacity ≡ out.old.capacity }
        ensures blocks { blocks.new.capacity ≡ blocks.old.capacity }
        ensures takes { result ≡ (specs.once byte (state self.old blocks.old.items)).takes }
    {
        if let Scan::Text(before) = self.page.scan {
            if byte != b'\n' && byte != b'-' && byte != b'\t' {
                self.page.scan = Scan::Text(before_next(before, byte));
                out.push(byte);
                return true;
            }
        }
        let outer = self.page.block;
        let seen = offer(&mut self.page, byte);
        say(&mut self.page, seen, out);
        self.stack(seen.stack, outer, blocks);
        seen.takes
    }

    /// What becomes of the open blocks.
    fn stack(&mut self, stack: Stack, outer: Block, blocks: &mut SliceVec<'_, Block>)
        requires { 64 ≤ blocks.old.capacity }
        ensures state { state self.new blocks.new.items ≡ specs.stacked stack outer
            (state self.old blocks.old.items) }
        ensures blocks { blocks.new.capacity ≡ blocks.old.capacity }
    {
        match stack {
            Stack::Stay => {}
            Stack::Opens => {
                if blocks.len() < MOST_BLOCKS {
                    blocks.push(outer);
                } else {
                    refuses(&mut self.page, outer);
                }
            }
            Stack::Closes => {
                self.page.block = match blocks.pop() {
                    Some(block) => block,
                    None => Block::NONE,
                };
            }
            Stack::Empties => {
                self.page.block = Block::NONE;
                blocks.clear();
            }
        }
    }

    /// A byte is offered so often at most. Tells how many steps that took.
    fn hear_in(
        &mut self,
        byte: u8,
        most: u8,
        blocks: &mut SliceVec<'_, Block>,
        out: &mut SliceVec<'_, u8>,
    ) -> u64
        requires room { length out.old.items + 768 * most ≤ out.old.capacity }
        requires blocks { 64 ≤ blocks.old.capacity }
        ensures state { state self.new blocks.new.items
            ≡ (specs.heard_in most byte (state self.old blocks.old.items)).state }
        ensures items { out.new.items ≡ out.old.items
            ++ (specs.heard_in most byte (state self.old blocks.old.items)).bytes }
        ensures few { length out.new.items ≤ length out.old.items + 768 * most }
        ensures room { out.new.capacity ≡ out.old.capacity }
        ensures blocks { blocks.new.capacity ≡ blocks.old.capacity }
        ensures steps { result ≡ (specs.heard_in most byte (state self.old blocks.old.items)).steps }
        ensures quick { result ≤ most }
    {
        if most == 0 {
            return 0;
        }
        if self.hear_once(byte, blocks, out) {
            return 1;
        }
        1 + self.hear_in(byte, most - 1, blocks, out)
    }

    /// A byte comes. At most 12288 bytes go out, in 16 steps at most.
    #[tactic(auto, unfolding(crate::specs::Reading::heard))]
    pub(crate) fn hear(
        &mut self,
        byte: u8,
        blocks: &mut SliceVec<'_, Block>,
        out: &mut SliceVec<'_, u8>,
    ) -> u64
        requires room { length out.old.items + 12288 ≤ out.old.capacity }
        requires blocks { 64 ≤ blocks.old.capacity }
        ensures state { state self.new blocks.new.items
            ≡ (specs.heard byte (state self.old blocks.old.items)).state }
        ensures items { out.new.items ≡ out.old.items
            ++ (specs.heard byte (state self.old blocks.old.items)).bytes }
        ensures few { length out.new.items ≤ length out.old.items + 12288 }
        ensures room { out.new.capacity ≡ out.old.capacity }
        ensures blocks { blocks.new.capacity ≡ blocks.old.capacity }
        ensures steps { result ≡ (specs.heard byte (state self.old blocks.old.items)).steps }
        ensures quick { result ≤ 16 }
    {
        self.hear_in(byte, MEETINGS, blocks, out)
    }

    /// A line that is begun ends with the input.
    #[tactic(auto, unfolding(crate::specs::Reading::line_finished))]
    pub(crate) fn finish_line(
        &mut self,
        blocks: &mut SliceVec<'_, Block>,
        out: &mut SliceVec<'_, u8>,
    ) -> u64
        requires room { length out.old.items + 12544 ≤ out.old.capacity }
        requires blocks { 64 ≤ blocks.old.capacity }
        ensures items { out.new.items ≡ out.old.items
            ++ (specs.line_finished (state self.old blocks.old.items)).bytes }
        ensures few { length out.new.items ≤ length out.old.items + 12544 }
        ensures room { out.new.capacity ≡ out.old.capacity }
        ensures steps { result ≡ (specs.line_finished (state self.old blocks.old.items)).steps }
        ensures quick { result ≤ 16 }
        ensures blocks { blocks.new.capacity ≡ blocks.old.capacity }
    {
        let steps = self.hear(b'\n', blocks, out);
        self.page.freshen(out);
        steps
    }
}
