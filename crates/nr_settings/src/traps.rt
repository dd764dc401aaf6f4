//! The arguments of the requests that set traps (CSTR 54, traps).
ghost use Rattle.std.specs.Prelude.{◌≡◌};
ghost use Rattle.std.specs.Option.{option_map};
ghost use Rattle.nr_units.specs.Units.{nearest_multiple};
ghost use Rattle.nr_units.specs.declared.units.Scale.TheVariants.{VerticalSpace};
ghost use Rattle.nr_settings.specs.Numbers.{value_of};
ghost use Rattle.nr_settings.specs.Traps.{wh, ch, dt, it};

use crate::arguments::Arguments;
use crate::lengths::Height;
use crate::numbers::value_of;
use nr_units::{Name, Scale, round_v};

/// What `.wh` says. Places are in units, multiples of 40.
#[derive(Clone, Copy)]
pub enum PageTrap {
    /// A trap at this place for this name.
    Plant(i32, Name),
    /// The trap at this place goes.
    Remove(i32),
    Nothing,
}

/// What `.ch` says: where the trap for a name goes. None: it goes away.
#[derive(Clone, Copy)]
pub struct TrapMove {
    pub name: Name,
    pub place: Option<i32>,
}

/// What `.dt` says.
#[derive(Clone, Copy)]
pub enum DiversionTrap {
    /// The diversion's trap is at this place for this name.
    Set(i32, Name),
    Remove,
    Nothing,
}

/// What `.it` says.
#[derive(Clone, Copy)]
pub enum LineTrap {
    /// This name after so many text lines, which are at least one.
    After(u32, Name),
    Off,
    Nothing,
}

/// A number argument as a place, `here` being the present one.
fn place_of(argument: &[u8], v: Height, here: i64) -> Option<i32>
    ensures { result ≡ option_map (nearest_multiple 40) (value_of VerticalSpace v here argument.now) }
{
    match value_of(argument, Scale::VerticalSpace, v, here) {
        None => None,
        Some(n) => Some(round_v(i64::from(n)) as i32),
    }
}

/// `.wh`; `here` is the present place, in units.
pub fn wh(line: &[u8], long: bool, v: Height, here: i64) -> PageTrap
    ensures { result ≡ wh line.now long v here }
{
    let mut arguments = Arguments::of(line);
    let Some(place) = place_of(arguments.number(), v, here) else {
        return PageTrap::Nothing;
    };
    match arguments.name(long) {
        None => PageTrap::Remove(place),
        Some(name) => PageTrap::Plant(place, name),
    }
}

/// `.ch`; None where it has no name.
pub fn ch(line: &[u8], long: bool, v: Height, here: i64) -> Option<TrapMove>
    ensures { result ≡ ch line.now long v here }
{
    let mut arguments = Arguments::of(line);
    let Some(name) = arguments.name(long) else {
        return None;
    };
    let place = place_of(arguments.number(), v, here);
    Some(TrapMove { name, place })
}

/// `.dt`; `here` is the present place, in units.
pub fn dt(line: &[u8], long: bool, v: Height, here: i64) -> DiversionTrap
    ensures { result ≡ dt line.now long v here }
{
    let mut arguments = Arguments::of(line);
    let place = place_of(arguments.number(), v, here);
    match (place, arguments.name(long)) {
        (None, None) => DiversionTrap::Remove,
        (Some(place), Some(name)) => DiversionTrap::Set(place, name),
        _ => DiversionTrap::Nothing,
    }
}

/// `.it`
pub fn it(line: &[u8], long: bool, v: Height) -> LineTrap
    ensures { result ≡ it line.now long v }
{
    let mut arguments = Arguments::of(line);
    let lines = value_of(arguments.number(), Scale::Unit, v, 0);
    match (lines, arguments.name(long)) {
        (None, None) => LineTrap::Off,
        (None, Some(_)) => LineTrap::Nothing,
        (Some(lines), _) if lines < 1 => LineTrap::Off,
        (Some(_), None) => LineTrap::Nothing,
        (Some(lines), Some(name)) => LineTrap::After(lines as u32, name),
    }
}
