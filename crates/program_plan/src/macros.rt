//! What macros a run has.
ghost use Rattle.std.specs.Prelude.{◌≡◌};
ghost use Rattle.program_options.specs.Job.{asked_of, texts};
ghost use Rattle.program_plan.specs.Macros.{file_name, has_manual, is_manual_name, macros_of};

use program_options::Job;

/// What macros a run has.
#[derive(Clone, Copy, PartialEq, Eq)]
pub enum Macros {
    /// None.
    None,
    /// Those of manual pages.
    Manual,
    /// Others, which words name.
    Named,
}

/// What macros a run has: those that its words name, and where they name none what its text asks for.
///
/// Proved: The macros of a run are those that words name, and else those that its text asks for.
pub fn macros_of(job: &Job<'_>, asks_for_manual: bool) -> Macros
    ensures { result ≡ macros_of asks_for_manual (asked_of job.now) }
{
    if job.macros.is_empty() {
        if asks_for_manual {
            return Macros::Manual;
        }
        return Macros::None;
    }
    if has_manual(job.macros.as_slice()) {
        Macros::Manual
    } else {
        Macros::Named
    }
}

/// Whether one of these names is that of the macros of manual pages.
fn has_manual(names: &[&str]) -> bool
    ensures { result ≡ has_manual (texts names.now) }
{
    for name in names {
        if is_manual_name(name.as_bytes()) {
            return true;
        }
    }
    false
}

/// Whether it is the name of the macros of manual pages: `an`, `andoc` or `doc`.
fn is_manual_name(name: &[u8]) -> bool
    ensures { result ≡ is_manual_name name.now }
{
    name == b"an".as_slice() || name == b"andoc".as_slice() || name == b"doc".as_slice()
}

/// The name of the file of macros that are named so.
pub(crate) fn file_name(name: &str) -> &str
    ensures { result.now ≡ file_name name.now }
{
    if is_manual_name(name.as_bytes()) {
        "an"
    } else {
        name
    }
}
