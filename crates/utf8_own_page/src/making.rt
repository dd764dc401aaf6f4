//! The table is made of what was counted.
ghost use Rattle.std.specs.Prelude.{◌≡◌, true};
ghost use Rattle.utf8_own_characters.specs.Choosing.{choice, chosen, nothing};
ghost use Rattle.utf8_own_characters.specs.Counting.{is_once};
ghost use Rattle.utf8_own_characters.specs.Table.{Good};
ghost use Rattle.utf8_own_page.specs.Needing.{IsMadeOf};

use utf8_own_characters::{Cluster, Count, OwnTable, halves_for};

/// The table of what `choose` chose of these counts, which count each cluster once and are ranked. The slots are those that `fill_slots`
/// filled.
///
/// Proved: The table of a page has the most frequent of its letters that have room, in as few pairs as can be, and is read in one way.
/// (`table_of`)
pub(crate) fn table_of<'a>(
    ranked: &[Count],
    narrow: &'a [Cluster],
    wide: &'a [Cluster],
    slots: &'a [u16],
) -> OwnTable<'a>
    requires cells { choice narrow.now wide.now ≡ chosen nothing ranked.now }
    requires once { is_once ranked.now ≡ true }
    ensures made { IsMadeOf ranked.now result }
    ensures good { Good result }
{
    let halves = halves_for(wide.len());
    OwnTable::over(narrow, wide, halves, slots)
}
