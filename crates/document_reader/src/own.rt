//! A page that has a table of its own is read through the same stages, and its characters are coded after them.
ghost use Rattle.std.specs.Prelude.{◌≡◌, ◌<◌, ◌≤◌, ℕ, Some, false, length, take};
ghost use Rattle.nr_units.specs.Source.{After, Supply};
ghost use Rattle.document_stages.specs.Pulling.{broken_off};
ghost use Rattle.document_reader.specs.Page.{IsShort, breaks_off, man_of, man_so_far, own_so_far, own_supply, plain_of, plain_so_far};
ghost use Rattle.preconv_characters.specs.declared.target.Target.TheVariants.{Utf8};
ghost use Rattle.utf8_own_characters.specs.Table.{Good};

use super::page::{PageText, Stages, Waits, read_page};
use document_stages::Pull;
use nr_units::source::Source;
use preconv_characters::Target;
use utf8_own_characters::OwnTable;
use utf8_own_stage::Coder;

/// A page whose characters have become the bytes of its own table.
pub type OwnText<'a, R> = Pull<'a, PageText<'a, R>, Coder<'a>>;

/// A page as the formatter reads it, but for its tables, where it has a table of its own. Nothing is allocated. The room is of
/// 32 bytes at least; what it held is of no account.
///
/// Proved: What the formatter reads of a page that has a table of its own is `coded (characters (mdoc page))`, where
/// characters stay themselves: each letter with its marks has become its byte or its two bytes, and one that the table
/// lacks what it looks like. So it is where the page never breaks off, and what each stage is given has less than
/// 2^40 bytes; where it does, of what came before, but for what is half read. (`read_own_page`)
pub fn read_own_page<'a, R: Source + Drop>(
    input: R,
    stages: Stages,
    table: &'a OwnTable<'a>,
    waits: Waits<'a>,
    room: &'a mut [u8],
) -> OwnText<'a, R>
    requires good { Good table.now }
    requires first { 73984 ≤ length waits.first.now }
    requires second { 1536 ≤ length waits.second.now }
    requires blocks { 64 ≤ length waits.blocks.now }
    requires room { 32 ≤ length room.now }
    ensures whole { (q : Supply) → R.supply input ≡ Some q → breaks_off q.faults ≡ false →
        IsShort q.bytes (man_of stages.mdoc q.bytes) → length (plain_of stages Utf8 q.bytes) < 1099511627776 →
        ⟦<OwnText<'a, R> as Source>⟧.supply result ≡ Some (own_supply stages table.now q) }
    ensures cut { (q : Supply) → (n : ℕ) → R.supply input ≡ Some q → q.faults ≡ After n → n ≤ length q.bytes →
        IsShort q.bytes (man_so_far stages.mdoc (take n q.bytes)) →
        length (plain_so_far stages Utf8 (take n q.bytes)) < 1099511627776 →
        ⟦<OwnText<'a, R> as Source>⟧.supply result
        ≡ Some (broken_off (own_so_far stages table.now (take n q.bytes))) }
    ensures failures { ⟦<OwnText<'a, R> as Source>⟧.failures result ≡ 0 }
{
    let text = read_page(input, stages, Target::Utf8, waits);
    let coder = Coder::over(table);
    Pull::over(coder, text, room)
}
