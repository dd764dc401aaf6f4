//! Where a line of East Asian text may be broken without a blank.
ghost use Rattle.std.specs.Prelude.{◌≡◌};
ghost use Rattle.utf8_own_characters.specs.Breaking as specs;
ghost use Rattle.utf8_own_characters.specs.Cluster.{is_wide, single};

use super::cluster::Cluster;
use ucd_breaks::LineBreak;

/// What opens: it ends no line.
#[inline]
fn opens(class: LineBreak) -> bool
    ensures { result ≡ specs.opens class }
{
    matches!(
        class,
        LineBreak::OpenPunctuation | LineBreak::PrefixNumeric | LineBreak::Quotation
    )
}

/// What closes: it begins no line.
#[inline]
fn closes(class: LineBreak) -> bool
    ensures { result ≡ specs.closes class }
{
    matches!(
        class,
        LineBreak::ClosePunctuation
            | LineBreak::CloseParenthesis
            | LineBreak::ConditionalJapaneseStarter
            | LineBreak::Nonstarter
            | LineBreak::Exclamation
            | LineBreak::InfixNumeric
            | LineBreak::PostfixNumeric
            | LineBreak::BreakSymbols
            | LineBreak::Inseparable
            | LineBreak::Quotation
    )
}

/// What is bound to what stands beside it.
#[inline]
fn is_bound(class: LineBreak) -> bool
    ensures { result ≡ specs.is_bound class }
{
    matches!(
        class,
        LineBreak::Space
            | LineBreak::Glue
            | LineBreak::WordJoiner
            | LineBreak::Zwj
            | LineBreak::ZWSpace
            | LineBreak::CombiningMark
            | LineBreak::MandatoryBreak
            | LineBreak::CarriageReturn
            | LineBreak::LineFeed
            | LineBreak::NextLine
            | LineBreak::Hyphen
            | LineBreak::UnambiguousHyphen
            | LineBreak::BreakAfter
            | LineBreak::BreakBefore
            | LineBreak::BreakBoth
            | LineBreak::Surrogate
    )
}

/// A syllable of Korean, or a part of one.
#[inline]
fn is_korean(class: LineBreak) -> bool
    ensures { result ≡ specs.is_korean class }
{
    matches!(
        class,
        LineBreak::H2 | LineBreak::H3 | LineBreak::Jl | LineBreak::Jv | LineBreak::Jt
    )
}

/// Whether a line may end with a character of a class.
#[inline]
fn may_end(class: LineBreak) -> bool
    ensures { result ≡ specs.may_end class }
{
    !(opens(class) || is_bound(class))
}

/// Whether a line may begin with one.
#[inline]
fn may_begin(class: LineBreak) -> bool
    ensures { result ≡ specs.may_begin class }
{
    !(closes(class) || is_bound(class))
}

/// Whether a character takes two columns.
#[inline]
fn is_wide(character: char) -> bool
    ensures { result ≡ is_wide (single character) }
{
    Cluster::single(character).is_wide()
}

/// Whether a character is an ideograph, kana, or a sign among them.
#[inline]
pub fn is_east_asian(character: char) -> bool
    ensures { result ≡ specs.is_east_asian character }
{
    is_wide(character) && !is_korean(LineBreak::for_char(character))
}

/// Whether a line may be broken between two characters that stand side by side: beside an ideograph, kana or a sign of two columns, where
/// the first may end a line and the second begin one. Korean is broken at blanks.
#[inline(always)]
pub fn may_break_between(before: char, after: char) -> bool
    ensures { result ≡ specs.may_break before after }
{
    let wide = is_wide(before);
    if !wide && !is_wide(after) {
        return false;
    }
    let last = LineBreak::for_char(before);
    if !may_end(last) {
        return false;
    }
    let first = LineBreak::for_char(after);
    if !may_begin(first) {
        return false;
    }
    (wide && !is_korean(last)) || (is_wide(after) && !is_korean(first))
}
