//! Letters between which a line may always be cut, which need no look at both of their classes.
ghost use Rattle.std.specs.Prelude.{◌≡◌};
ghost use Rattle.ucd_breaks.specs.LineBreak.{line_break};
ghost use Rattle.utf8_own_characters.specs.Cluster as cluster;
ghost use Rattle.utf8_own_stage.specs.Letters as specs;

use ucd_breaks::LineBreak;
use utf8_own_characters::Cluster;

/// Whether a letter is of the class of ideographs and most kana.
#[inline(always)]
fn is_ideographic(letter: char) -> bool
    ensures { result ≡ specs.is_ideographic (line_break letter) }
{
    matches!(LineBreak::for_char(letter), LineBreak::Ideographic)
}

/// Whether a letter takes two columns.
#[inline(always)]
fn is_wide(letter: char) -> bool
    ensures { result ≡ cluster.is_wide (cluster.single letter) }
{
    Cluster::single(letter).is_wide()
}

/// Whether a letter is one of those.
#[inline(always)]
pub(crate) fn is_common(letter: char) -> bool
    ensures { result ≡ specs.is_common letter }
{
    is_ideographic(letter) && is_wide(letter)
}
