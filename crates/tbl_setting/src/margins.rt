//! What paragraphs of a manual page are indented, as far as its macros say it.
ghost use Rattle.std.specs.Prelude.{◌≡◌, ◌+◌, IfOk};
ghost use Rattle.tbl_setting.specs.Margins as specs;

use super::arguments::number_of;
use nr_vectors::{CountedAlloc, FixedVec};
use std::alloc::AllocError;
use tbl_table::add_item;

/// How deep `.RS` is followed.
const DEEP: usize = 16;

/// What a section, `.RS` and a tag indent where they don't say it.
pub(crate) const INDENT: usize = 7;

/// What paragraphs are indented.
#[derive(Drop)]
pub(crate) struct Margins {
    /// What each `.RS` gives that is open.
    pub rests: FixedVec<usize>,
    /// What the text of a tag is indented.
    pub tag: usize,
    /// What `.in` adds.
    pub more: usize,
    /// What the last tag said.
    pub last: usize,
}

/// A number that was said, or another.
pub(crate) fn or_number(said: Option<usize>, other: usize) -> usize
    ensures { result ≡ specs.or_number said other }
{
    match said {
        Some(number) => number,
        None => other,
    }
}

impl Margins {
    /// Takes the memory. None is open.
    pub(crate) fn new(alloc: &mut CountedAlloc) -> Result<Margins, AllocError>
        ensures value { IfOk result (λ made. made ≡ specs.first_margins) }
        ensures taken { IfOk result (λ made. alloc.new ≡ alloc.old + 16) }
    {
        Ok(Margins {
            rests: FixedVec::new(alloc, DEEP)?,
            tag: 0,
            more: 0,
            last: INDENT,
        })
    }

    /// None is open.
    pub(crate) fn begin(&mut self)
        ensures { self.new ≡ specs.no_margins self.old }
    {
        self.rests.clear();
        self.tag = 0;
        self.more = 0;
        self.last = INDENT;
    }

    /// All together.
    pub(crate) fn sum(&self) -> usize
        ensures { result ≡ specs.margin self.now }
    {
        self.parts()
            .saturating_add(self.tag)
            .saturating_add(self.more)
    }

    /// What parts that are open indent.
    pub(crate) fn parts(&self) -> usize
        ensures { result ≡ specs.parts self.now }
    {
        let mut sum: usize = 0;
        for rest in self.rests.as_slice() {
            sum = sum.saturating_add(*rest);
        }
        sum
    }

    /// The text of a tag is indented so far, or as the last one.
    pub(crate) fn set_tag(&mut self, said: Option<usize>)
        ensures { self.new ≡ specs.with_tag said self.old }
    {
        self.last = or_number(said, self.last);
        self.tag = self.last;
    }

    /// No tag.
    pub(crate) fn end_tag(&mut self)
        ensures { self.new ≡ specs.without_tag self.old }
    {
        self.tag = 0;
    }

    /// What `.RS` indents.
    fn rest_of(&self, said: Option<usize>) -> usize
        ensures { result ≡ specs.rest_of said self.now }
    {
        let other = if self.tag > 0 { self.tag } else { INDENT };
        or_number(said, other)
    }

    /// `.RS`
    pub(crate) fn go_deeper(&mut self, said: Option<usize>)
        ensures { self.new ≡ specs.deeper said self.old }
    {
        let rest = self.rest_of(said);
        add_item(&mut self.rests, rest);
        self.tag = 0;
    }

    /// `.RE`
    pub(crate) fn go_back(&mut self)
        ensures { self.new ≡ specs.back self.old }
    {
        let left = self.rests.len().saturating_sub(1);
        self.rests.truncate(left);
        self.tag = 0;
    }

    /// `.in`, which counts where it has a plus sign.
    pub(crate) fn set_more(&mut self, text: &[u8])
        ensures { self.new ≡ specs.moved text.now self.old }
    {
        self.more = match text {
            [b'+', rest @ ..] => or_number(number_of(rest), 0),
            _ => 0,
        };
    }
}
