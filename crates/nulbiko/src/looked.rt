// The table of a page's own characters, for the calls of a stage.
ghost use Rattle.std.specs.Prelude.{◌≡◌, ◌≢◌, IfOk, true};
ghost use Rattle.preconv_coding.specs.UnderCoding.{text_of};
ghost use Rattle.utf8_own_characters.specs.Counting.{is_once};
ghost use Rattle.utf8_own_characters.specs.Ranking.{ranked};
ghost use Rattle.utf8_own_page.specs.Needing.{prefix_of};
ghost use Rattle.nulbiko.specs.Looked.{ChoosesOwn, all_stages, counts_in};
ghost use Rattle.nulbiko.specs.Own.{LookIsShort};
ghost use Rattle.nulbiko.specs.Tables.{unchosen};

use super::coded::text_of;
use super::document::has_tables;
use super::own::count_prefix;
use super::tables::{OWN, UNCHOSEN, table_of};
use super::utf8::look;
use document_printing::Stages;
use std::alloc::{AllocError, Global};
use utf8_own_characters::Count;
use utf8_own_page::{Cells, lacks, may_need_own, prefix_of};

/// mdoc(7) becomes man(7), and characters stay themselves.
const ALL_STAGES: Stages = Stages {
    mdoc: true,
    characters: true,
};

/// Counts what the text of a page prints beyond ASCII, after what frames are drawn with where it has tables.
fn counts_in(alloc: Global, text: &[u8]) -> Result<Vec<Count>, AllocError>
    ensures items { LookIsShort all_stages (prefix_of text.now) →
        IfOk result (λ counts. counts.items ≡ counts_in text.now) }
    ensures once { IfOk result (λ counts. is_once counts.items ≡ true) }
{
    count_prefix(alloc, ALL_STAGES, has_tables(text), prefix_of(text))
}

/// The characters of the table of a page, whose text is read under its coding.
///
/// Proved: The table of a page has the most frequent characters of what its first 512 KiB print, through mdoc(7) where it is
/// of that, and where it has tables what frames are drawn with: that of a whole page that takes one. (`look_at`)
pub(crate) fn look_at(alloc: Global, page: &[u8]) -> Result<Cells, AllocError>
    ensures { LookIsShort all_stages (prefix_of (text_of page.now)) →
        IfOk result (λ cells. cells ≡ ranked (counts_in (text_of page.now))) }
{
    let text = text_of(alloc, page)?;
    let counts = counts_in(alloc, &text)?;
    Cells::of(alloc, &counts)
}

/// The number of the table that the text of a page takes, 8 of its own.
fn choose_in(alloc: Global, text: &[u8]) -> Result<u32, AllocError>
    ensures { IfOk result (λ number. ChoosesOwn text.now number) }
{
    let fixed = look(alloc, text)?;
    if !may_need_own(text) {
        return Ok(fixed);
    }
    let counts = counts_in(alloc, text)?;
    if lacks(table_of(fixed), &counts) {
        return Ok(OWN);
    }
    Ok(fixed)
}

/// The same of a page, whose text is read under its coding.
fn choose_under_coding(alloc: Global, page: &[u8]) -> Result<u32, AllocError>
    ensures { IfOk result (λ number. ChoosesOwn (text_of page.now) number) }
{
    let text = text_of(alloc, page)?;
    choose_in(alloc, &text)
}

/// Gives the number of the table that a page in UTF-8 takes: 8 of its own, where the fixed one that it takes lacks a letter
/// with its marks that it prints; or 7 where there is not enough memory.
///
/// Proved: A page has a table of its own exactly where `nulbiko_document_lent` gives it one in UTF-8, with its tables set and
/// mdoc(7) turned. (`nulbiko_choose_own_lent`; `needs_own` in Looked.antt)
#[unsafe(no_mangle)]
pub extern "C" fn nulbiko_choose_own_lent(alloc: Global, page: &[u8]) -> u32
    ensures { result ≢ unchosen → ChoosesOwn (text_of page.now) result }
{
    match choose_under_coding(alloc, page) {
        Ok(number) => number,
        Err(_) => UNCHOSEN,
    }
}
