//! The first bytes of a text are read.
ghost use Rattle.std.specs.Prelude.{◌≡◌, ◌<◌, ℕ, List, [], Ok, length, true, false, IfOk, OnOk, vec_len};
ghost use Rattle.utf8_converter.specs.Choosing.{ComesAfter, IsPrefix};
ghost use Rattle.document_stages.specs.Running.{Ends};
ghost use Rattle.filters.specs.Disk.{MayCome, Opening};
ghost use Rattle.filters_own.specs.Looking.{IsPrefixIn, ReadsOf};

use filters::{Disk, Ending, Paths};
use nr_units::buffered::Buffered;
use nr_units::source::{Fault, Source};
use nr_vectors::slice_vec::SliceVec;
use preconv_coding::UnderCoding;
use std::alloc::{AllocError, Global};
use std::io::Read;
use utf8_own_page::MORE_LOOKED_AT;

/// Room for the first bytes of a page, of which its own table is made.
pub fn room_for(alloc: Global) -> Result<Vec<u8>, AllocError>
    ensures { IfOk result (λ room. vec_len room ≡ 524288) }
{
    vec![in alloc; 0u8; MORE_LOOKED_AT]
}

/// Takes bytes at hand, as many as there is room for, and tells whether there was one.
fn take_at_hand<R: Source>(input: &mut R, prefix: &mut SliceVec<'_, u8>) -> bool
    ensures took { result ≡ true → ComesAfter (R.supply input.old) (R.supply input.new) prefix.old.items
        prefix.new.items }
    ensures some { result ≡ true → length prefix.old.items < length prefix.new.items }
    ensures none { result ≡ false → (input.new ≡ input.old) × (prefix.new.items ≡ prefix.old.items) }
    ensures room { prefix.new.capacity ≡ prefix.old.capacity }
{
    let window = input.window();
    let count = window.len().min(prefix.capacity() - prefix.len());
    if count == 0 {
        return false;
    }
    prefix.extend_prefix(window, count);
    input.skip(count);
    true
}

/// Takes bytes at hand, or the next one. At the end there is none.
fn take_more<R: Source>(input: &mut R, prefix: &mut SliceVec<'_, u8>) -> Result<bool, Fault>
    requires { length prefix.old.items < prefix.old.capacity }
    ensures took { OnOk result (ComesAfter (R.supply input.old) (R.supply input.new) prefix.old.items
        prefix.new.items) }
    ensures some { result ≡ Ok true → length prefix.old.items < length prefix.new.items }
    ensures ends { result ≡ Ok false → Ends (R.supply input.old) (R.supply input.new) }
    ensures room { prefix.new.capacity ≡ prefix.old.capacity }
{
    if take_at_hand(input, prefix) {
        return Ok(true);
    }
    match input.next() {
        Ok(Some(byte)) => {
            prefix.push(byte);
            Ok(true)
        }
        Ok(None) => Ok(false),
        Err(Fault) => Err(Fault),
    }
}

/// Takes what the input gives first, as much as there is room for.
fn read_prefix<R: Source>(input: &mut R, prefix: &mut SliceVec<'_, u8>) -> Result<(), Fault>
    requires { prefix.old.items ≡ [] }
    ensures prefix { OnOk result (IsPrefix (R.supply input.old) (R.supply input.new) prefix.new.capacity
        prefix.new.items) }
    ensures room { prefix.new.capacity ≡ prefix.old.capacity }
{
    while !prefix.is_full() {
        if !take_more(input, prefix)? {
            return Ok(());
        }
    }
    Ok(())
}

/// The first 512 KiB of the text of this name, under its coding, go into an empty room for so many. Tells how many bytes.
///
/// Proved: The first 512 KiB of a text are read under its coding; where it can't be opened or read, that is reported by its name.
/// (`first_of`)
pub fn first_of<'a, P: Paths, I: Read + Copy + Drop>(
    name: &'a str,
    disk: &mut Disk<P, I>,
    input: &mut [u8],
    prefix: &mut SliceVec<'_, u8>,
) -> Result<usize, Ending<'a>>
    requires empty { prefix.old.items ≡ [] }
    requires room { prefix.old.capacity ≡ 524288 }
    ensures reads { ReadsOf (MayCome (I.remaining disk.old.standard) (P.may_open disk.old.paths))
        (P.asked disk.old.paths) (P.asked disk.new.paths) name.now
        (λ left _. IsPrefixIn left prefix.new.items) result }
    ensures stays { (other : List ℕ) → (opening : Opening) → P.may_open disk.new.paths other opening
        → P.may_open disk.old.paths other opening }
    ensures same { disk.new.standard ≡ disk.old.standard }
{
    let text = match disk.open(name) {
        Ok(text) => text,
        Err(_) => return Err(Ending::CannotOpen(name)),
    };
    let mut source = UnderCoding::over(Buffered::over(text.stream, input));
    match read_prefix(&mut source, prefix) {
        Ok(()) => Ok(prefix.len()),
        Err(Fault) => Err(Ending::CannotRead(name)),
    }
}
