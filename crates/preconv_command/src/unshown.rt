//! Characters that are not shown are reported.
ghost use Rattle.std.specs.Prelude.{◌≡◌, false, true};
ghost use Rattle.filters.specs.Endings.{Tells};
ghost use Rattle.preconv_command.specs.Unshown.{EndsWith, is_whole, unshown_line};

use filters::{Ending, put_all};
use nr_units::sink::Sink;

/// Writes the line about a text of which characters of these names are not shown, as far as `errors` takes it; nothing where there are
/// none.
fn put_unshown<E: Sink>(name: &str, names: &[u8], errors: &mut E)
    ensures { Tells (E.held errors.old) (E.held errors.new) (E.failures errors.old) (E.failures errors.new)
        (unshown_line name.now names.now) }
{
    if names.is_empty() {
        return;
    }
    let parts = [
        b"preconv: ",
        name.as_bytes(),
        b": characters not shown:",
        names,
        b"\n",
    ];
    let _ = put_all(&parts, errors);
}

/// The same, where all went out.
pub(crate) fn report_unshown<E: Sink>(ending: Ending<'_>, name: &str, names: &[u8], errors: &mut E)
    ensures reported { is_whole ending.entry ≡ true
        → EndsWith (E.held errors.new) (E.failures errors.new) (unshown_line name.now names.now) }
    ensures same { is_whole ending.entry ≡ false → errors.new ≡ errors.old }
{
    match ending {
        Ending::Done | Ending::Complained => put_unshown(name, names, errors),
        _ => {}
    }
}
