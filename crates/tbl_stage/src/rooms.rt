//! A text whose tables are set, as a source.
ghost use Rattle.std.specs.Prelude.{◌≡◌, ◌+◌, IfOk, Some, min};
ghost use Rattle.nr_units.specs.Source.{Supply};
ghost use Rattle.tbl_setting.specs.Drawing.{signs_of};
ghost use Rattle.tbl_stage.specs.Memory.{limits_of, memory_of};
ghost use Rattle.tbl_stage.specs.Text.{bounds_in, set_text};

use super::setter::TableSetter;
use super::space::Space;
use super::tables::Tables;
use super::turned::Turned;
use nr_units::source::Source;
use nr_vectors::{CountedAlloc, FixedVec};
use std::alloc::AllocError;
use tbl_reader::Complaint;
use tbl_setting::{Signs, signs_of};
use utf8_characters::FixedTable as Characters;

/// The greatest limit.
const MOST: usize = 1_099_511_627_775;

/// The limits of tables, in bytes.
#[derive(Clone, Copy, Debug, PartialEq, Eq)]
pub struct PageLimits {
    /// Of the options and formats of a table, and of what is held of it.
    pub formats: usize,
    /// Of a line of a table's row.
    pub row: usize,
    /// Of what goes out of a table at once.
    pub set: usize,
}

/// The memory that tables are set in, taken once.
#[derive(Drop)]
pub struct Rooms {
    tables: Tables,
    space: Space,
}

impl Rooms {
    /// Takes it, for a line of so many cells, and frames that are drawn with what a table of characters has, or in ASCII.
    ///
    /// Proved: Tables are set in as many elements of memory as their limits ask for, by the count of the allocator.
    /// (`taken` of what `Rooms::{new, drawn_with}` ensure)
    pub fn new(
        alloc: &mut CountedAlloc,
        limits: PageLimits,
        cells: usize,
        characters: Option<Characters>,
    ) -> Result<Rooms, AllocError>
        ensures tables { IfOk result (λ made. bounds_in made ≡ limits_of limits cells (signs_of characters)) }
        ensures taken { IfOk result (λ made. alloc.new ≡ alloc.old + memory_of limits) }
    {
        Rooms::drawn_with(alloc, limits, cells, signs_of(characters))
    }

    /// The same, where frames are drawn with these bytes.
    pub fn drawn_with(
        alloc: &mut CountedAlloc,
        limits: PageLimits,
        cells: usize,
        signs: Signs,
    ) -> Result<Rooms, AllocError>
        ensures tables { IfOk result (λ made. bounds_in made ≡ limits_of limits cells signs) }
        ensures taken { IfOk result (λ made. alloc.new ≡ alloc.old + memory_of limits) }
    {
        let bytes = FixedVec::new(alloc, limits.set.min(MOST) + 1)?;
        Ok(Rooms {
            tables: Tables::drawn_with(alloc, limits.formats, limits.row, cells, signs)?,
            space: Space::over(bytes),
        })
    }
}

/// A source of a text whose tables are set.
pub type SetText<'a, R> = Turned<'a, R, TableSetter<'a>>;

/// A source whose tables are set as it is read: it gives what goes out of them, and what is outside of them as it is. The
/// complaints go into slots that are lent: what these hold is of no account. Nothing is allocated.
///
/// Proved: **Tables are a stage.** What a source gives whose tables are set is `set_page` of what the other gives,
/// however the bytes come, where all that goes out at once has room and fewer than 2^40 bytes come. Where it hasn't, that
/// goes out which came before, and then each call fails; where the source fails after so many bytes, what these come to,
/// but for what is half read. (`set_tables`; `set_text` in Text.antt, and `turned_page` of its laws)
pub fn set_tables<'a, R: Source>(
    input: R,
    rooms: &'a mut Rooms,
    complaints: &'a mut [Complaint],
) -> SetText<'a, R>
    ensures supply { (q : Supply) → R.supply input ≡ Some q →
        ⟦<SetText<'a, R> as Source>⟧.supply result ≡ Some (set_text (bounds_in rooms.entry.now) q) }
    ensures failures { ⟦<SetText<'a, R> as Source>⟧.failures result ≡ 0 }
{
    let Rooms { tables, space } = rooms;
    let most = space.capacity().saturating_sub(1);
    let setter = TableSetter::over(tables, most, complaints);
    Turned::over(setter, input, space)
}
