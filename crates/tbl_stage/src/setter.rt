//! A page with tables is turned a part at a time.
ghost use Rattle.std.specs.Prelude.{◌≡◌, ◌+◌, ◌<◌, ◌≤◌, [], length, take, min, true, false, None, Some};
ghost use Rattle.tbl_stage.specs.Staged as specs;

use super::space::Space;
use super::tables::Tables;
use super::turning::Turning;
use nr_vectors::slice_vec::SliceVec;
use tbl_reader::Complaint;

/// The number of bytes that are too many.
const TOO_MANY: u64 = 1_099_511_627_776;

/// The greatest limit.
const MOST: usize = 1_099_511_627_775;

/// Tables become lines of text, as with `convert` of tbl_setting; what is outside of them stays as it is. No more is held than one
/// table.
///
/// Proved: A page that is turned a part at a time comes to the same: what goes out of the parts, one after another,
/// and of the end is `set_page`, in whatever parts it comes, as long as no byte, nor the end, comes to more than the
/// limit; and else a prefix of it. (`over`, and `turned_page` of tbl_stage's laws)
#[derive(Drop)]
pub struct TableSetter<'a> {
    tables: &'a mut Tables,
    complaints: SliceVec<'a, Complaint>,
    missed: bool,
    most: usize,
    taken: u64,
    full: bool,
    ghost few: { most < 1099511627776 },
    ghost kept: { specs.HoldsFirst complaints missed },
    ghost stands: { full ≡ false → specs.Stands tables.now.page taken },
}

impl<'a> TableSetter<'a> {
    ghost use Rattle.tbl_stage.specs.Staged.{begun_in, has_all, said};

    /// A page begins. So many bytes may go out at once, less than 2^40. What the complaints hold is of no account.
    pub fn over(
        tables: &'a mut Tables,
        most: usize,
        complaints: &'a mut [Complaint],
    ) -> TableSetter<'a>
        ensures says { ⟦<TableSetter<'a> as Turning>⟧.says result ≡ said (min most 1099511627775) (begun_in tables.entry.now) }
        ensures fits { ⟦<TableSetter<'a> as Turning>⟧.fits result ≡ has_all (min most 1099511627775) (begun_in tables.entry.now) }
        ensures wants { ⟦<TableSetter<'a> as Turning>⟧.wants result ≡ min most 1099511627775 + 1 }
    {
        tables.begin();
        TableSetter {
            tables,
            complaints: SliceVec::over(complaints),
            missed: false,
            most: most.min(MOST),
            taken: 0,
            full: false,
        }
    }

    /// What was wrong with the tables so far: the first complaints, as many as there is room for.
    pub fn complaints(&self) -> &[Complaint] {
        self.complaints.as_slice()
    }

    /// There were more complaints than there was room for.
    pub fn has_missed(&self) -> bool {
        self.missed
    }

    /// How many of these bytes may be read at once.
    fn ready(&self, bytes: &[u8]) -> usize
        requires few { self.now.taken ≤ 1099511627776 }
        ensures within { result ≤ length bytes.now }
        ensures most { result ≤ self.now.most }
        ensures few { self.now.taken + result ≤ 1099511627776 }
    {
        bytes
            .len()
            .min(self.most)
            .min((TOO_MANY - self.taken) as usize)
    }

    /// Bytes that pass as they are. Tells how many were read.
    fn turn_passing(&mut self, bytes: &[u8], out: &mut Space) -> usize
        requires empty { out.old.items ≡ [] }
        requires room { self.old.most < out.old.capacity }
        requires live { self.old.full ≡ false }
        ensures within { result ≤ length bytes.now }
        ensures turned { specs.Turned self.old.most (specs.held_in self.old.tables.now self.old.taken self.old.full)
            (specs.held_in self.new.tables.now self.new.taken self.new.full) (take result bytes.now) out.new.items }
        ensures none { result ≡ 0 → out.new.items ≡ [] }
        ensures live { self.new.full ≡ false }
        ensures most { self.new.most ≡ self.old.most }
        ensures room { out.new.capacity ≡ out.old.capacity }
    {
        let len = self.ready(bytes);
        let count = self.tables.pass(&bytes[..len]);
        out.extend(&bytes[..count]);
        self.taken += count as u64;
        count
    }

    /// Bytes that are kept. Tells how many were read.
    fn turn_kept(&mut self, bytes: &[u8]) -> usize
        requires live { self.old.full ≡ false }
        ensures within { result ≤ length bytes.now }
        ensures turned { specs.Turned self.old.most (specs.held_in self.old.tables.now self.old.taken self.old.full)
            (specs.held_in self.new.tables.now self.new.taken self.new.full) (take result bytes.now) [] }
        ensures live { self.new.full ≡ false }
        ensures most { self.new.most ≡ self.old.most }
    {
        let len = self.ready(bytes);
        let count = self.tables.keep(&bytes[..len]);
        self.taken += count as u64;
        count
    }

    /// What comes next is turned, a byte or the end. Tells whether there was room for what it comes to.
    fn turn_next(&mut self, next: Option<u8>, out: &mut Space) -> bool
        requires empty { out.old.items ≡ [] }
        requires room { self.old.most < out.old.capacity }
        requires live { self.old.full ≡ false }
        ensures stepped { specs.Stepped self.old.most next
            (specs.held_in self.old.tables.now self.old.taken self.old.full)
            (specs.held_in self.new.tables.now self.new.taken self.new.full) out.new.items result }
        ensures most { self.new.most ≡ self.old.most }
        ensures room { out.new.capacity ≡ out.old.capacity }
    {
        if self.taken == TOO_MANY {
            self.full = true;
            return false;
        }
        self.missed = self
            .tables
            .set_next(next, out, &mut self.complaints, self.missed);
        self.taken += 1;
        if out.len() > self.most {
            out.clear();
            self.full = true;
            return false;
        }
        self.full = next.is_none();
        true
    }
}

impl Turning for TableSetter<'_> {
    ghost use Rattle.std.specs.Prelude.{◌+◌, refl};
    ghost use Rattle.tbl_stage.specs.Staged.{has_all, held_in, said};

    ghost says = { λ s. said s.most (held_in s.tables.now s.taken s.full) };

    ghost fits = { λ s. has_all s.most (held_in s.tables.now s.taken s.full) };

    ghost wants = { λ s. s.most + 1 };

    ghost waits = { λ s. refl };

    fn room(&self) -> usize {
        self.most + 1
    }

    fn turn(&mut self, bytes: &[u8], out: &mut Space) -> usize {
        if self.full {
            return bytes.len();
        }
        if bytes.is_empty() {
            return 0;
        }
        let count = self.turn_passing(bytes, out);
        if count > 0 {
            return count;
        }
        let count = self.turn_kept(bytes);
        if count > 0 {
            return count;
        }
        self.turn_next(Some(bytes[0]), out);
        1
    }

    fn finish(&mut self, out: &mut Space) -> bool {
        if self.full {
            return false;
        }
        self.turn_next(None, out)
    }

    fn is_full(&self) -> bool {
        self.full
    }
}
