// A page is looked at.
ghost use Rattle.std.specs.Prelude.{◌≡◌, IfErr, IfOk};
ghost use Rattle.filters.specs.Endings.{Tells};
ghost use Rattle.man_lint.specs.Complaints.{faults_of, lines_of};

use super::own_names::MOST_NAMES;
use super::reporting::room_for;
use super::watching::Watch;
use filters_complaints::{MOST_COMPLAINTS, MOST_OPEN, OpenBlock, tell_complaints};
use nr_units::Name;
use nr_units::sink::Sink;
use std::alloc::{AllocError, Global};

/// This program tells what is wrong with the page of man(7) of this name, as far as `errors` takes it. Nothing is reported where
/// memory is wanting.
pub fn tell_page<E: Sink>(
    program: &str,
    name: &str,
    text: &[u8],
    alloc: Global,
    errors: &mut E,
) -> Result<(), AllocError>
    ensures reported { IfOk result (λ _. Tells (E.held errors.old) (E.held errors.new) (E.failures errors.old)
        (E.failures errors.new) (lines_of program.now name.now (faults_of text.now))) }
    ensures silent { IfErr result (λ _. errors.new ≡ errors.old) }
{
    let mut names = vec![in alloc; Name::new(); MOST_NAMES]?;
    let mut open = vec![in alloc; OpenBlock::none(); MOST_OPEN]?;
    let mut complaints = room_for(MOST_COMPLAINTS, alloc)?;
    let mut page = Watch::over(&mut names, &mut open, &mut complaints);
    page.hear_all(text);
    page.finish();
    tell_complaints(program, name, page.reports(), errors);
    Ok(())
}
