//! The characters of a page's own table, in memory of their own.
ghost use Rattle.std.specs.Prelude.{◌≡◌, ◌<◌, Some, length, true, IfOk};
ghost use Rattle.nr_units.specs.Source.{Never, Supply};
ghost use Rattle.utf8_own_characters.specs.Choosing.{choice, chosen, left_out, nothing};
ghost use Rattle.utf8_own_characters.specs.Counting.{is_once};
ghost use Rattle.utf8_own_characters.specs.Ranking.{ranked};
ghost use Rattle.utf8_own_characters.specs.Table.{Good};
ghost use Rattle.utf8_own_page.specs.Lacking.{left_of, names_of, numbered};
ghost use Rattle.utf8_own_page.specs.Looking.{counts_of};
ghost use Rattle.utf8_own_page.specs.Needing.{IsMadeOf};

use super::lacking::{lacking, names_of, numbered};
use super::looking::{MOST_COUNTED, SLOTS, look_at_page};
use super::making::table_of;
use nr_units::source::Source;
use nr_vectors::slice_vec::SliceVec;
use preconv_characters::Target;
use std::alloc::{AllocError, Global};
use std::marker::Model;
use utf8_own_characters::{
    Cluster, Count, MOST_NARROW, MOST_WIDE, OwnTable, choose, fill_slots, rank,
};

/// No cluster, counted never.
fn none() -> Count {
    Count {
        cluster: Cluster::single('\0'),
        times: 0,
    }
}

/// How often each letter with its marks comes in a page beyond ASCII that gives its characters as themselves; with `frames` what
/// frames are drawn with comes first.
pub fn counted<R: Source>(
    alloc: Global,
    page: &mut R,
    frames: bool,
) -> Result<Vec<Count>, AllocError>
    ensures items { (q : Supply) → R.supply page.old ≡ Some q → q.faults ≡ Never → length q.bytes < 1099511627776 →
        IfOk result (λ counts. counts.items ≡ counts_of 4352 frames q.bytes) }
    ensures once { IfOk result (λ counts. is_once counts.items ≡ true) }
{
    let mut cells = vec![in alloc; none(); MOST_COUNTED]?;
    let mut slots = vec![in alloc; 0u16; SLOTS]?;
    let mut counts = SliceVec::over(&mut cells);
    look_at_page(page, frames, &mut counts, &mut slots);
    let mut kept = Vec::with_capacity(alloc, counts.len())?;
    kept.extend_from_slice(counts.as_slice())?;
    Ok(kept)
}

/// Puts counts into order, the most frequent first.
fn in_order(alloc: Global, counts: &[Count]) -> Result<Vec<Count>, AllocError>
    requires { is_once counts.now ≡ true }
    ensures items { IfOk result (λ made. made.items ≡ ranked counts.now) }
    ensures once { IfOk result (λ made. is_once made.items ≡ true) }
{
    let mut cells = vec![in alloc; none(); counts.len()]?;
    let mut order = SliceVec::over(&mut cells);
    rank(counts, &mut order);
    let mut kept = Vec::with_capacity(alloc, counts.len())?;
    kept.extend_from_slice(order.as_slice())?;
    Ok(kept)
}

/// Names those of these counts that a fixed table shows by their numbers: the most frequent eight, and how many more there are. There is
/// nothing where it has a byte or a likeness of each.
///
/// Proved: What is reported of characters that a fixed table shows by their numbers are those of the most frequent eight that were
/// counted and that look like nothing else, and how many more there are. (`names_of_numbered`; `numbered` in Lacking.antt)
pub fn names_of_numbered(
    alloc: Global,
    target: Target,
    counts: &[Count],
) -> Result<Vec<u8>, AllocError>
    requires { is_once counts.now ≡ true }
    ensures { IfOk result (λ text. text.items ≡ names_of (numbered target (ranked counts.now))) }
{
    let order = in_order(alloc, counts)?;
    let cells = numbered(alloc, target, &order)?;
    names_of(alloc, &cells)
}

/// The characters of a page's own table, and where to look first.
#[derive(Drop)]
pub struct Cells {
    ranked: Vec<Count>,
    narrow: Vec<Cluster>,
    wide: Vec<Cluster>,
    slots: Vec<u16>,
    /// How many have no room.
    left: usize,
    ghost once: { is_once ranked.items ≡ true },
    ghost cells: { choice narrow.items wide.items ≡ chosen nothing ranked.items },
    ghost left_is: { left ≡ length (left_out nothing ranked.items) },
}

impl Model for Cells {
    ghost use Rattle.std.specs.Prelude.{List};
    ghost use Rattle.utf8_own_characters.specs.declared.counting.Count.{Count as Counted};

    ghost Value = { List Counted };

    ghost view = { λ c. c.ranked.items };
}

impl Cells {
    /// Those of these counts that have room, the most frequent first.
    pub fn of(alloc: Global, counts: &[Count]) -> Result<Cells, AllocError>
        requires { is_once counts.now ≡ true }
        ensures { IfOk result (λ made. made ≡ ranked counts.now) }
    {
        let order = in_order(alloc, counts)?;
        let mut narrow_cells = vec![in alloc; Cluster::single('\0'); MOST_NARROW]?;
        let mut wide_cells = vec![in alloc; Cluster::single('\0'); MOST_WIDE]?;
        let mut slots = vec![in alloc; 0u16; SLOTS]?;
        let mut narrow = SliceVec::over(&mut narrow_cells);
        let mut wide = SliceVec::over(&mut wide_cells);
        let left = choose(&order, &mut narrow, &mut wide);
        fill_slots(narrow.as_slice(), wide.as_slice(), &mut slots);
        let mut kept_narrow = Vec::with_capacity(alloc, narrow.len())?;
        kept_narrow.extend_from_slice(narrow.as_slice())?;
        let mut kept_wide = Vec::with_capacity(alloc, wide.len())?;
        kept_wide.extend_from_slice(wide.as_slice())?;
        Ok(Cells {
            ranked: order,
            narrow: kept_narrow,
            wide: kept_wide,
            slots,
            left,
        })
    }

    /// The table of these.
    pub fn table(&self) -> OwnTable<'_>
        ensures made { IsMadeOf self.now result }
        ensures good { Good result }
    {
        table_of(&self.ranked, &self.narrow, &self.wide, &self.slots)
    }

    /// Names those that have no room: the first eight of them, and how many more there are. There is nothing where all have room.
    ///
    /// Proved: What is reported of characters that are not shown are the numbers of the most frequent eight that were counted and are
    /// not in the table of a page, and how many more there are. (`left_out`; `names_of` in Lacking.antt)
    pub fn left_out(&self, alloc: Global) -> Result<Vec<u8>, AllocError>
        ensures { IfOk result (λ text. text.items ≡ names_of (left_of self.now)) }
    {
        if self.left == 0 {
            return Ok(Vec::new(alloc));
        }
        let cells = lacking(alloc, &self.ranked, &self.narrow, &self.wide)?;
        names_of(alloc, &cells)
    }
}
