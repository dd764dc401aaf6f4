//! The name of the table that a page takes.
ghost use Rattle.std.specs.Prelude.{◌≡◌, ◌++◌, IfOk, codes};
ghost use Rattle.filters.specs.Disk.{MayCome};
ghost use Rattle.filters.specs.Program.{Comes, Puts};
ghost use Rattle.filters_own.specs.Looking.{LookIsShort};
ghost use Rattle.utf8_command.specs.Choosing as specs;
ghost use Rattle.utf8_command.specs.Choosing.{ComesToChoice, IsLine};

use super::program::put_out;
use document_stages::Text;
use filters::{BUFFER_SIZE, Disk, Ending, Paths};
use filters_own::{count_prefix, first_of, room_for};
use nr_units::sink::Sink;
use nr_vectors::slice_vec::SliceVec;
use std::alloc::{AllocError, Global};
use std::io::Read;
use utf8_characters::FixedTable;
use utf8_converter::{CHARACTERS, LOOKED_AT, choose};
use utf8_own_page::{has_all, may_need_own};

/// Whether a line of these bytes begins with `.TS`.
fn has_tables(page: &[u8]) -> bool
    ensures { result ≡ specs.has_tables page.now }
{
    let mut begins = true;
    for (place, byte) in page.iter().enumerate() {
        if begins && page[place..].starts_with(b".TS") {
            return true;
        }
        begins = *byte == b'\n';
    }
    false
}

/// The fixed table that a page takes, by its first bytes.
fn fixed_for(alloc: Global, prefix: &[u8]) -> Result<FixedTable, AllocError>
    ensures { IfOk result (λ table. table ≡ specs.fixed_for prefix.now) }
{
    let mut page = vec![in alloc; 0u8; LOOKED_AT]?;
    let mut counts = vec![in alloc; 0u32; CHARACTERS]?;
    let mut text = Text::over(prefix);
    match choose(&mut text, &mut page, &mut counts) {
        Ok(table) => Ok(table),
        // A slice doesn't fail.
        Err(_) => unreachable!(),
    }
}

/// Whether a page is asked whether it needs a table of its own: it is no standard input, and beyond ASCII or names such
/// characters.
fn asks_for_own(name: &str, prefix: &[u8]) -> bool
    ensures { result ≡ specs.asks_for_own name.now prefix.now }
{
    name.as_bytes() != b"-".as_slice() && may_need_own(prefix)
}

/// Whether it does: this fixed one lacks some of what it prints, and of what its frames are drawn with.
fn lacks(alloc: Global, fixed: FixedTable, prefix: &[u8]) -> Result<bool, AllocError>
    ensures { LookIsShort prefix.now → IfOk result (λ lacks. lacks ≡ specs.lacks fixed prefix.now) }
{
    let counts = count_prefix(alloc, has_tables(prefix), prefix)?;
    Ok(!has_all(fixed, &counts))
}

/// The name of the table that a page takes, in two parts.
fn choice<'a>(
    alloc: Global,
    name: &'a str,
    prefix: &[u8],
) -> Result<(&'static str, &'a str), AllocError>
    ensures { IfOk result (λ choice. IsLine name.now prefix.now (choice.0.now ++ choice.1.now ++ codes "\n")) }
{
    let fixed = fixed_for(alloc, prefix)?;
    if asks_for_own(name, prefix) && lacks(alloc, fixed, prefix)? {
        return Ok(("own:", name));
    }
    Ok((fixed.name(), ""))
}

/// Puts out that name.
fn put_choice<'a, W: Sink>(before: &str, file: &str, output: W) -> (Ending<'a>, W)
    ensures { Puts (before.now ++ file.now ++ codes "\n") (W.held output) (W.held result.1) (W.passed_on result.1)
        result.0 }
{
    let parts = [before.as_bytes(), file.as_bytes(), b"\n"];
    put_out(&parts, output)
}

/// Chooses a table for the text of this name, and prints its name.
///
/// Proved: `own:FILE` is printed exactly where the first 512 KiB of a file have a character beyond ASCII, or name one by its
/// number or a letter that English lacks by its name, and the fixed table that it takes lacks some of what it prints; else the
/// name of that table, which has most of its characters. (`needs_own` in Choosing.antt)
pub(crate) fn choose_for<'a, P: Paths, I: Read + Copy + Drop, W: Sink>(
    name: &'a str,
    disk: &mut Disk<P, I>,
    output: W,
) -> (Ending<'a>, W)
    ensures { ComesToChoice name.now
        (Comes (MayCome (I.remaining disk.old.standard) (P.may_open disk.old.paths))
        (P.asked disk.old.paths) (P.asked disk.new.paths) (W.held output) (W.held result.1)
        (W.failures output) (W.failures result.1) (W.passed_on result.1)) result.0 }
{
    let Ok(mut input) = vec![in disk.alloc; 0u8; BUFFER_SIZE] else {
        return (Ending::OutOfMemory, output);
    };
    let Ok(mut room) = room_for(disk.alloc) else {
        return (Ending::OutOfMemory, output);
    };
    let mut prefix = SliceVec::over(&mut room);
    match first_of(name, disk, &mut input, &mut prefix) {
        Ok(_) => {}
        Err(ending) => return (ending, output),
    }
    match choice(disk.alloc, name, prefix.as_slice()) {
        Ok((before, file)) => put_choice(before, file, output),
        Err(_) => (Ending::OutOfMemory, output),
    }
}
