//! A page is read through the stages that stand before the formatter.
ghost use Rattle.std.specs.Prelude.{◌≡◌, ◌≤◌, ℕ, Some, false, length, take};
ghost use Rattle.nr_units.specs.Source.{After, Supply};
ghost use Rattle.document_stages.specs.Pulling.{broken_off};
ghost use Rattle.document_reader.specs.Page.{IsShort, breaks_off, man_of, man_so_far, plain_so_far, plain_supply};

use document_stages::{Ahead, Counted, Gathered, Pull, Switch};
use mdoc_converter::{Block, MdocConverter as Mdoc};
use nr_units::source::Source;
use preconv_converter::{PreconvConverter as Characters, Target};

/// Which stages a page goes through. Each decides for itself what it turns: mdoc a page of mdoc(7) alone.
#[derive(Clone, Copy, Debug, PartialEq, Eq)]
pub struct Stages {
    /// mdoc becomes man.
    pub mdoc: bool,
    /// Characters and escapes become what the formatter reads.
    pub characters: bool,
}

/// Where what each stage makes waits, and what is open of mdoc(7). What these hold is of no account.
#[derive(Drop)]
pub struct Waits<'a> {
    /// For mdoc, 73,984 bytes at least.
    pub first: &'a mut [u8],
    /// For characters, 1,536 at least.
    pub second: &'a mut [u8],
    /// The lists and displays that are open, 64 at least.
    pub blocks: &'a mut [Block],
    /// What is read ahead of what mdoc makes.
    pub man: Ahead<'a>,
    /// What is read ahead for the formatter.
    pub text: Ahead<'a>,
}

/// A page whose lines are counted, through mdoc.
pub type ManText<'a, R> = Gathered<'a, Pull<'a, Counted<R>, Switch<Mdoc<'a>>>>;

/// And through characters.
pub type PageText<'a, R> = Gathered<'a, Pull<'a, ManText<'a, R>, Switch<Characters>>>;

/// A page as the formatter reads it, but for its tables. Nothing is allocated. It knows the line
/// that each byte came of.
///
/// Proved: What the formatter reads of a page is what the stages make of it, one after the other: `characters (mdoc
/// page)`, each word the definition of its crate, and each stage left out that is off. So it is however the bytes
/// come, where the source never fails or may fail at any call, and the page and what mdoc makes of it have less than
/// 2^40 bytes. (`whole` of `read_page`)
/// Proved: Where the source fails after so many bytes, what the formatter reads is what the stages make of these, but
/// for what is half read, and then each call fails. (`cut` of `read_page`)
pub fn read_page<'a, R: Source + Drop>(
    input: R,
    stages: Stages,
    characters: Target,
    waits: Waits<'a>,
) -> PageText<'a, R>
    requires first { 73984 ≤ length waits.first.now }
    requires second { 1536 ≤ length waits.second.now }
    requires blocks { 64 ≤ length waits.blocks.now }
    // It gives what the stages make of the page, one after the other, and fails where the page does.
    ensures whole { (q : Supply) → R.supply input ≡ Some q → breaks_off q.faults ≡ false →
        IsShort q.bytes (man_of stages.mdoc q.bytes) →
        ⟦<PageText<'a, R> as Source>⟧.supply result ≡ Some (plain_supply stages characters q) }
    // Where the source fails after so many bytes, it gives what they make of these, but for what is half read, and fails.
    ensures cut { (q : Supply) → (n : ℕ) → R.supply input ≡ Some q → q.faults ≡ After n → n ≤ length q.bytes →
        IsShort q.bytes (man_so_far stages.mdoc (take n q.bytes)) →
        ⟦<PageText<'a, R> as Source>⟧.supply result
        ≡ Some (broken_off (plain_so_far stages characters (take n q.bytes))) }
    ensures failures { ⟦<PageText<'a, R> as Source>⟧.failures result ≡ 0 }
{
    let Waits {
        first,
        second,
        blocks,
        man,
        text,
    } = waits;
    let lines = Counted::over(input);
    let turner = Mdoc::over(blocks);
    let mdoc = Switch::over(turner, stages.mdoc);
    let turned = Pull::over(mdoc, lines, first);
    let page = Gathered::over(turned, man);
    let converter = Characters::new(characters);
    let switched = Switch::over(converter, stages.characters);
    let converted = Pull::over(switched, page, second);
    Gathered::over(converted, text)
}
