//! A page is looked at, through the stages that stand before the formatter, before it is read.
ghost use Rattle.std.specs.Prelude.{◌≡◌, ◌≤◌, Some, false, length};
ghost use Rattle.nr_units.specs.Source.{Supply};
ghost use Rattle.document_reader.specs.Page.{IsShort, breaks_off, man_of, plain_supply};

use super::page::{Stages, Waits};
use document_stages::{Pull, Switch};
use mdoc_converter::MdocConverter as Mdoc;
use nr_units::source::Source;
use preconv_converter::{PreconvConverter as Characters, Target};

/// A page through both stages. It does not know the lines that its bytes came of, so that those of many lines are at hand.
pub type Skimmed<'a, R> = Pull<'a, Pull<'a, R, Switch<Mdoc<'a>>>, Switch<Characters>>;

/// What the formatter would read of a page, but for its lines. Nothing is allocated.
///
/// Proved: What is looked at of a page that never breaks off is what the formatter reads of it: `characters (mdoc page)`. (`skim_page`)
pub fn skim_page<'a, R: Source + Drop>(
    input: R,
    stages: Stages,
    characters: Target,
    waits: Waits<'a>,
) -> Skimmed<'a, R>
    requires first { 73984 ≤ length waits.first.now }
    requires second { 1536 ≤ length waits.second.now }
    requires blocks { 64 ≤ length waits.blocks.now }
    ensures { (q : Supply) → R.supply input ≡ Some q → breaks_off q.faults ≡ false →
        IsShort q.bytes (man_of stages.mdoc q.bytes) →
        ⟦<Skimmed<'a, R> as Source>⟧.supply result ≡ Some (plain_supply stages characters q) }
{
    let Waits {
        first,
        second,
        blocks,
        man: _,
        text: _,
    } = waits;
    let turner = Mdoc::over(blocks);
    let mdoc = Switch::over(turner, stages.mdoc);
    let turned = Pull::over(mdoc, input, first);
    let converter = Characters::new(characters);
    let switched = Switch::over(converter, stages.characters);
    Pull::over(switched, turned, second)
}
