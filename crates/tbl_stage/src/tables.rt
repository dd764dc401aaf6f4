//! What tables are read, held and drawn with.
ghost use Rattle.std.specs.Prelude.{◌≡◌, ◌+◌, ◌^◌, ◌<◌, ◌≤◌, [], IfOk, length, min, take, true};
ghost use Rattle.tbl_reader.specs.Ending.{GoesOn, first_page, next_read};
ghost use Rattle.tbl_reader.specs.Pages.{effect};
ghost use Rattle.tbl_reader.specs.Quiet.{Stays};
ghost use Rattle.tbl_reader.specs.Reading.{Fits, fed};
ghost use Rattle.tbl_reader.specs.Telling.{each};
ghost use Rattle.tbl_reader.specs.declared.telling.Tell.TheVariants as tells;
ghost use Rattle.tbl_setting.specs.Drawing.{signs_of};
ghost use Rattle.tbl_setting.specs.Bounds.{page_setting};
ghost use Rattle.tbl_setting.specs.Held.{page_heard};
ghost use Rattle.tbl_setting.specs.Running.{bounds_in, memory_of};
ghost use Rattle.tbl_setting.specs.Setting.{KeepsMore, set, wrongs};
ghost use Rattle.tbl_setting.specs.Stepping.{AreKept, next_bytes};
ghost use Rattle.tbl_stage.specs.Filling.{Fills};

use super::filling::Filling;
use super::space::Space;
use nr_vectors::slice_vec::SliceVec;
use nr_vectors::{CountedAlloc, FixedVec};
use std::alloc::AllocError;
use std::marker::Model;
use std::mem;
use tbl_drawing::Out;
use tbl_reader::{Complaint, Limits, Reader};
use tbl_setting::{Setting, Signs, Step, set_next, signs_of};
use utf8_characters::FixedTable as Characters;

/// The bytes that wait to go out at most.
const PENDING: usize = 4_096;

/// The greatest limit.
const MOST: usize = 18_446_744_073_709_551_614;

/// The memory for one table, taken once.
pub struct Tables {
    pub(crate) reader: Reader,
    pub(crate) setting: Setting,
    pub(crate) pending: FixedVec<u8>,
}

// Derived, it would be gone through part by part in the proof of each function that owns rooms.
impl Drop for Tables {
    fn drop(self) {
        let Tables {
            reader: _,
            setting: _,
            pending: _,
        } = self;
    }
}

impl Model for Tables {
    ghost use Rattle.std.specs.Prelude.{◌≡◌};
    ghost use Rattle.tbl_setting.specs.Bounds.{page_setting};
    ghost use Rattle.tbl_setting.specs.Held.{emptied};
    ghost use Rattle.tbl_setting.specs.Running.{bounds_in};
    ghost use Rattle.tbl_stage.specs.Rooms.{Room};

    ghost Value = { Room };

    ghost view = { λ r. record { page = r.reader; setting = r.setting } };

    ghost invariant = { λ r. emptied r.setting ≡ page_setting (bounds_in r.reader r.setting) };
}

impl Tables {
    /// Takes the memory: for a table of so many bytes, of which rows have so many at most, where the line has so
    /// many cells, and frames are drawn with what a table of characters has, or in ASCII.
    pub fn new(
        alloc: &mut CountedAlloc,
        table: usize,
        row: usize,
        cells: usize,
        characters: Option<Characters>,
    ) -> Result<Tables, AllocError>
        ensures signs { IfOk result (λ made. made.setting.layout.grid.table.signs ≡ signs_of characters) }
        ensures table { IfOk result (λ made. made.page.limits.formats ≡ min table 18446744073709551614) }
        ensures row { IfOk result (λ made. made.page.limits.row ≡ min row 18446744073709551614) }
        ensures cells { IfOk result (λ made. made.setting.cells ≡ cells) }
        ensures fits { IfOk result (λ made. made.setting.fits ≡ true) }
        ensures taken { IfOk result (λ made. alloc.new ≡ alloc.old + memory_of made.page.limits) }
    {
        Tables::drawn_with(alloc, table, row, cells, signs_of(characters))
    }

    /// The same, where frames are drawn with these bytes.
    pub fn drawn_with(
        alloc: &mut CountedAlloc,
        table: usize,
        row: usize,
        cells: usize,
        signs: Signs,
    ) -> Result<Tables, AllocError>
        ensures signs { IfOk result (λ made. made.setting.layout.grid.table.signs ≡ signs) }
        ensures table { IfOk result (λ made. made.page.limits.formats ≡ min table 18446744073709551614) }
        ensures row { IfOk result (λ made. made.page.limits.row ≡ min row 18446744073709551614) }
        ensures cells { IfOk result (λ made. made.setting.cells ≡ cells) }
        ensures fits { IfOk result (λ made. made.setting.fits ≡ true) }
        ensures taken { IfOk result (λ made. alloc.new ≡ alloc.old + memory_of made.page.limits) }
    {
        let limits = Limits {
            formats: table.min(MOST),
            row: row.min(MOST),
        };
        Ok(Tables {
            pending: FixedVec::new(alloc, PENDING)?,
            reader: Reader::new(alloc, limits)?,
            setting: Setting::new(alloc, limits.formats, limits.row, signs, cells)?,
        })
    }

    /// A page begins.
    pub(crate) fn begin(&mut self)
        ensures page { self.new.page ≡ first_page self.old.page.limits }
        ensures setting { self.new.setting ≡ page_setting (bounds_in self.old.page self.old.setting) }
    {
        self.reader.begins();
        self.setting.begin_page();
    }

    /// Bytes of lines outside of tables that pass as they are. Tells how many were read.
    pub(crate) fn pass(&mut self, bytes: &[u8]) -> usize
        requires lines { self.old.page.state.line + length bytes.now < 2 ^ 64 }
        requires fits { Fits self.old.page }
        ensures within { result ≤ length bytes.now }
        ensures passes { fed (take result bytes.now) self.old.page
            ≡ effect self.new.page (each tells.Pass (take result bytes.now)) }
        ensures stays { Stays self.old.page self.new.page result }
        ensures setting { self.new.setting ≡ page_heard (take result bytes.now) self.old.setting }
    {
        let count = self.reader.pass(bytes);
        self.setting.hear(&bytes[..count]);
        count
    }

    /// Bytes of a line of a table that are kept. Tells how many were read.
    pub(crate) fn keep(&mut self, bytes: &[u8]) -> usize
        requires fits { Fits self.old.page }
        ensures within { result ≤ length bytes.now }
        ensures keeps { fed (take result bytes.now) self.old.page ≡ effect self.new.page [] }
        ensures stays { Stays self.old.page self.new.page 0 }
        ensures setting { self.new.setting ≡ self.old.setting }
    {
        self.reader.keep(bytes)
    }

    /// What comes next is read, a byte or the end, where there is none, and what it comes to goes into an empty room, as far as
    /// there is any. Tells whether there were more complaints than there was room for, now or before.
    pub(crate) fn set_next(
        &mut self,
        next: Option<u8>,
        out: &mut Space,
        complaints: &mut SliceVec<'_, Complaint>,
        missed: bool,
    ) -> bool
        requires empty { out.old.items ≡ [] }
        requires lines { self.old.page.state.line + 1 < 2 ^ 64 }
        requires fits { Fits self.old.page }
        requires kept { AreKept complaints.old missed }
        ensures page { self.new.page ≡ (next_read next self.old.page).page }
        ensures goes_on { GoesOn next self.old.page self.new.page }
        ensures setting { self.new.setting ≡ set (next_read next self.old.page).pieces self.old.setting }
        ensures fills { Fills (next_bytes next self.old.page self.old.setting) out.new.items out.new.capacity }
        ensures room { out.new.capacity ≡ out.old.capacity }
        ensures keeps { KeepsMore complaints.old missed complaints.new result
            (wrongs (next_read next self.old.page).pieces self.old.setting) }
    {
        self.pending.clear();
        let sink = Filling::over(mem::replace(out, Space::nothing()));
        let line = Out::over(&mut self.pending, sink);
        let Step { output, missed } = set_next(
            &mut self.reader,
            &mut self.setting,
            next,
            line,
            complaints,
            missed,
        );
        *out = output.into_bytes();
        missed
    }
}
