//! How a page is printed.
ghost use Rattle.std.specs.Prelude.{◌≡◌, ◌==◌, IfOk, length, take};
ghost use Rattle.program_options.specs.Job.{asked_of};
ghost use Rattle.program_command.specs.Plan.{AreOptions, IsSelected, has_escapes, kind_of, page_limits_of, plan_of, table_for, table_with_most};

use crate::surroundings::Surroundings;
use arrayvec::ArrayVec;
use document_printing::{PageLimits, Stages, has_tables};
use nr_engine::{Faces as Looks, Options};
use nr_page::Select;
use program_options::{Device, Faces, Job};
use program_plan::{Macros, cells_of, is_manual, macros_of};
use std::alloc::{AllocError, Global};
use utf8_characters::FixedTable;
use utf8_converter::{CHARACTERS, choose_of};
use utf8_own_page::MORE_LOOKED_AT;

/// So many bytes of a text say what it is.
pub(crate) const LOOKED_AT: usize = 65_536;

/// The most bytes that go out of a table at once.
const MOST_SET: usize = 268_435_456;

/// The greatest number of a page.
const LAST_PAGE: u64 = 2_147_483_647;

/// How a page is printed.
#[derive(Clone, Copy)]
pub(crate) struct Plan {
    /// The cells of a line of tables.
    pub cells: usize,
    /// What it goes through.
    pub stages: Stages,
    /// Its tables are set.
    pub tables: bool,
    /// The table of its characters; none for ASCII.
    pub characters: Option<FixedTable>,
    /// Its characters go out in UTF-8.
    pub spells: bool,
    /// What is underlined or bold stands between escape sequences, then.
    pub escapes: bool,
    /// What is underlined or bold is struck over.
    pub strikes: bool,
    /// Nothing is printed.
    pub checks: bool,
}

/// The bytes of a text that say what it is.
fn first_of(page: &[u8]) -> &[u8]
    ensures { result.now ≡ take 65536 page.now }
{
    &page[..LOOKED_AT.min(page.len())]
}

/// The macros of a text, by these bytes.
pub(crate) fn kind_of(job: &Job<'_>, page: &[u8]) -> Macros
    ensures { result ≡ kind_of (asked_of job.now) page.now }
{
    macros_of(job, is_manual(first_of(page)))
}

/// How pages are printed that begin with these bytes.
///
/// Proved: How a page is printed is one function of the words, the locale, the terminal and the bytes that were looked
/// at: its stages, whether it has tables, its fixed table of characters, and how its looks go out. (`plan_of`)
pub(crate) fn plan_of(
    job: &Job<'_>,
    kind: Macros,
    around: &Surroundings,
    prefix: &[u8],
) -> Result<Plan, AllocError>
    ensures { IfOk result (λ plan. plan ≡ plan_of (asked_of job.now) around.now kind prefix.now) }
{
    let device = job.plain.device.unwrap_or(around.device);
    let characters = table_of(device, prefix, around.alloc)?;
    let spells = device == Device::Utf8 && characters.is_some();
    Ok(Plan {
        cells: cells_of(job, kind),
        stages: Stages {
            mdoc: kind == Macros::Manual,
            characters: true,
        },
        tables: is_cut(prefix) || has_tables(prefix),
        characters,
        spells,
        escapes: spells && escapes(job.plain.faces, around.shows),
        strikes: job.plain.faces != Faces::None,
        checks: job.plain.checks,
    })
}

/// Whether more of a page may come than was looked at.
fn is_cut(prefix: &[u8]) -> bool
    ensures { result ≡ (length prefix.now == 524288) }
{
    prefix.len() == MORE_LOOKED_AT
}

/// The table of the characters of a text, by its first bytes: none where ASCII is printed.
fn table_of(device: Device, prefix: &[u8], alloc: Global) -> Result<Option<FixedTable>, AllocError>
    ensures { IfOk result (λ table. table ≡ table_for device prefix.now) }
{
    match device {
        Device::Utf8 => Ok(Some(fullest(prefix, alloc)?)),
        Device::Latin1 => Ok(Some(FixedTable::Latin1)),
        Device::Ascii => Ok(None),
    }
}

/// The table that has most of the characters of a text, by its first bytes.
fn fullest(prefix: &[u8], alloc: Global) -> Result<FixedTable, AllocError>
    ensures { IfOk result (λ table. table ≡ table_with_most prefix.now) }
{
    let mut counts = vec![in alloc; 0u32; CHARACTERS]?;
    Ok(choose_of(prefix, &mut counts))
}

/// Whether what is underlined or bold stands between escape sequences, where `shows` says that the output is a terminal.
fn escapes(faces: Faces, shows: bool) -> bool
    ensures { result ≡ has_escapes faces shows }
{
    match faces {
        Faces::Auto => shows,
        Faces::On => true,
        Faces::Off | Faces::None => false,
    }
}

/// What the formatter is given. Bold shows where it is asked for, and between escape sequences.
pub(crate) fn options_of(job: &Job<'_>, plan: &Plan, select: Select) -> Options
    requires { IsSelected (asked_of job.now).pages select }
    ensures { AreOptions (asked_of job.now) plan.now result }
{
    Options {
        first: job.plain.first.min(LAST_PAGE) as i64,
        registers: ArrayVec::new(),
        select,
        faces: if job.plain.shows_bold || plan.escapes {
            Looks::All
        } else {
            Looks::Letters
        },
    }
}

/// The limits of the stages before the formatter.
pub(crate) fn limits_of(job: &Job<'_>) -> PageLimits
    ensures { result ≡ page_limits_of (asked_of job.now) }
{
    PageLimits {
        formats: job.plain.formats as usize,
        row: job.plain.row as usize,
        set: MOST_SET,
    }
}
