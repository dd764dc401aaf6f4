// A handle is opened, prints pages and is closed.
ghost use Rattle.std.specs.Prelude.{◌≡◌, ◌≢◌, ◌↔◌, ℕ, List, None, drop};
ghost use Rattle.preconv_coding.specs.UnderCoding.{text_of};
ghost use Rattle.nulbiko.specs.declared.document.DocumentSetup as setups;
ghost use Rattle.nulbiko.specs.Document.{IsAllowed};
ghost use Rattle.nulbiko.specs.Keeping.{Keeps};
ghost use Rattle.nulbiko.specs.Own.{AreShort, PrintsPage};
ghost use Rattle.nulbiko.specs.Reported.{nothing_reported};

use super::document::{DocumentSetup, limits_of};
use super::handle::Handle;
use super::kept::Kept;
use super::reported::{DONE, OUT_OF_MEMORY, OUT_OF_RANGE, Report};
use std::alloc::Global;

/// Opens a handle for pages that are set so, after these macros, of which it keeps a copy, and gives the number of the outcome:
/// 0 done, 2 a limit or a number is out of range, 5 there is not enough memory.
///
/// Proved: A handle keeps the setup and the macros that it was opened with, and nothing where one of them is out of range or memory
/// is refused. (`opened` and `refused` of `nulbiko_open_lent`, `keeps` of `nulbiko_run_lent`)
#[unsafe(no_mangle)]
pub extern "C" fn nulbiko_open_lent(
    alloc: Global,
    setup: &DocumentSetup,
    macros: &[u8],
    handle: &mut Handle,
) -> u32
    requires nothing { handle.old.kept ≡ None }
    ensures ranges { (result ≡ 2) ↔ (IsAllowed setup.now → ⊥) }
    ensures opened { result ≡ 0 → Keeps handle.new.kept setup.now macros.now }
    ensures refused { result ≢ 0 → handle.new.kept ≡ None }
{
    let Some(limits) = limits_of(setup) else {
        return OUT_OF_RANGE;
    };
    match Kept::of(alloc, setup, limits, macros) {
        Ok(kept) => {
            handle.keep(kept);
            DONE
        }
        Err(_) => OUT_OF_MEMORY,
    }
}

/// Prints a page by what a handle keeps, into a buffer, reports how it went, and gives the number of the outcome: those of
/// `nulbiko_document_lent` but 2.
///
/// Proved: **A run by a handle is the page's run**: what it puts out and reports of a page is what `nulbiko_document_lent` does of it,
/// with the setup and the macros that the handle was opened with, whatever was run before and however that ended.
/// (`printed` and `keeps` of `nulbiko_run_lent`)
#[unsafe(no_mangle)]
pub extern "C" fn nulbiko_run_lent(
    alloc: Global,
    handle: &mut Handle,
    page: &[u8],
    output: &mut [u8],
    reported: &mut Report,
) -> u32
    requires open { handle.old.kept ≢ None }
    ensures printed { (setup : setups.DocumentSetup) → (macros : List ℕ) → Keeps handle.old.kept setup macros
        → result ≢ 5 → AreShort setup (text_of page.now)
        → PrintsPage setup macros (text_of page.now) output.new reported.new result }
    ensures in_range { (setup : setups.DocumentSetup) → (macros : List ℕ) → Keeps handle.old.kept setup macros → result ≢ 2 }
    ensures keeps { (setup : setups.DocumentSetup) → (macros : List ℕ) → Keeps handle.old.kept setup macros → Keeps handle.new.kept setup macros }
    ensures open { handle.new.kept ≢ None }
    ensures no_memory { result ≡ 5 → (output.new ≡ output.old) × (reported.new ≡ nothing_reported) }
    ensures rest { drop reported.new.written output.new ≡ drop reported.new.written output.old }
{
    let mut kept = handle.take(alloc);
    let code = kept.print(alloc, page, output, reported);
    handle.keep(kept);
    code
}

/// Closes a handle: the memory of what it keeps is given back.
#[unsafe(no_mangle)]
pub extern "C" fn nulbiko_close_lent(alloc: Global, handle: &mut Handle)
    requires open { handle.old.kept ≢ None }
    ensures closed { handle.new.kept ≡ None }
{
    drop(handle.take(alloc));
}
