//! A file is looked at, and the table of its characters made.
ghost use Rattle.std.specs.Prelude.{◌≡◌, ℕ, List, true, IfOk};
ghost use Rattle.filters.specs.Disk.{MayCome, Opening};
ghost use Rattle.utf8_own_characters.specs.Counting.{is_once};
ghost use Rattle.utf8_own_characters.specs.Ranking.{ranked};
ghost use Rattle.filters_own.specs.Looking as specs;
ghost use Rattle.filters_own.specs.Looking.{AreRankedIn, LookIsShort, ReadsOf};

use super::prefixes::{first_of, room_for};
use document_reader::{Places, Stages, read_page};
use document_stages::Text;
use filters::{BUFFER_SIZE, Disk, Ending, Paths};
use nr_vectors::slice_vec::SliceVec;
use preconv_characters::Target;
use std::alloc::{AllocError, Global};
use std::io::Read;
use utf8_own_characters::Count;
use utf8_own_page::{Cells, counted};

/// Counts what the first bytes of a page print beyond ASCII, after what frames are drawn with, where that is asked for: mdoc(7)
/// becomes man(7), and characters stay themselves.
pub fn count_prefix(alloc: Global, frames: bool, prefix: &[u8]) -> Result<Vec<Count>, AllocError>
    ensures items { LookIsShort prefix.now → IfOk result (λ counts. counts.items ≡ specs.counts_in frames prefix.now) }
    ensures once { IfOk result (λ counts. is_once counts.items ≡ true) }
{
    let stages = Stages {
        mdoc: true,
        characters: true,
    };
    let mut places = Places::new();
    let text = Text::over(prefix);
    let mut page = read_page(text, stages, Target::Utf8, places.lend());
    counted(alloc, &mut page, frames)
}

/// The characters of the table that these bytes make.
fn cells_of(alloc: Global, prefix: &[u8]) -> Result<Cells, AllocError>
    ensures { LookIsShort prefix.now → IfOk result (λ cells. cells ≡ ranked (specs.counts_in true prefix.now)) }
{
    let counts = count_prefix(alloc, true, prefix)?;
    Cells::of(alloc, &counts)
}

/// Looks at the file of this name, and gives the characters of its table.
///
/// Proved: The table of a file has the most frequent characters of what its first 512 KiB print, through mdoc(7) where it is of
/// that, and what frames are drawn with. (`look_at`)
pub fn look_at<'a, P: Paths, I: Read + Copy + Drop>(
    name: &'a str,
    disk: &mut Disk<P, I>,
) -> Result<Cells, Ending<'a>>
    ensures reads { ReadsOf (MayCome (I.remaining disk.old.standard) (P.may_open disk.old.paths))
        (P.asked disk.old.paths) (P.asked disk.new.paths) name.now AreRankedIn result }
    ensures stays { (other : List ℕ) → (opening : Opening) → P.may_open disk.new.paths other opening
        → P.may_open disk.old.paths other opening }
    ensures same { disk.new.standard ≡ disk.old.standard }
{
    let Ok(mut input) = vec![in disk.alloc; 0u8; BUFFER_SIZE] else {
        return Err(Ending::OutOfMemory);
    };
    let Ok(mut room) = room_for(disk.alloc) else {
        return Err(Ending::OutOfMemory);
    };
    let mut prefix = SliceVec::over(&mut room);
    match first_of(name, disk, &mut input, &mut prefix) {
        Ok(_) => {}
        Err(ending) => return Err(ending),
    }
    match cells_of(disk.alloc, prefix.as_slice()) {
        Ok(cells) => Ok(cells),
        Err(_) => Err(Ending::OutOfMemory),
    }
}
