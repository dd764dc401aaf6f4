//! Tab stops, and what tabs and leaders repeat (CSTR 54, tabs, leaders, and fields).
ghost use Rattle.std.specs.Prelude.{◌≡◌, ◌+◌, ◌*◌, ◌<◌, ◌≤◌, ◌+ℤ◌, length, slice_get, unsigned_abs, if◌then◌else◌};
ghost use Rattle.nr_units.specs.Units.{nearest_multiple};
ghost use Rattle.nr_settings.specs.Tabs.{is_relative, after_plus, kind_of, column_of, planted, with_place, with_stop, ta, tc, lc, every_eighth, first_tabs};

use crate::arguments::Arguments;
use crate::characters::printing_byte;
use crate::lengths::Height;
use crate::stops::{Stop, StopKind, Stops};
use nr_units::{Ctx, Scale, read_expr, round_h};

/// The stops of `.ta` that have been read, and the place of the last in units.
#[derive(Drop)]
pub(crate) struct Ruler {
    pub stops: Stops,
    pub place: i64,
}

/// The tab stops, and the bytes that a tab and a leader repeat; with None they make blanks.
#[derive(Drop)]
pub struct Tabs {
    pub stops: Stops,
    pub tab: Option<u8>,
    pub leader: Option<u8>,
}

/// Whether a stop counts from the stop before.
fn is_relative(argument: &[u8]) -> bool
    ensures { result ≡ is_relative argument.now }
{
    match argument.split_first() {
        None => false,
        Some((first, _rest)) => *first == b'+',
    }
}

/// The argument without the `+` in front.
fn after_plus(argument: &[u8]) -> &[u8]
    ensures { result.now ≡ after_plus argument.now }
{
    match argument.split_first() {
        Some((b'+', rest)) => rest,
        _ => argument,
    }
}

/// The kind of a stop, by the byte after its number.
fn kind_of(byte: Option<u8>) -> StopKind
    ensures { result ≡ kind_of byte }
{
    match byte {
        Some(b'R') => StopKind::Right,
        Some(b'C') => StopKind::Centre,
        _ => StopKind::Left,
    }
}

/// The column of a place in units.
fn column_of(place: i64) -> u32
    requires { unsigned_abs place ≤ 68719477120 }
    ensures { result ≡ column_of place }
{
    if place < 0 { 0 } else { (place / 24) as u32 }
}

/// The place of a stop in units: `n`, from the stop before where it is relative.
fn place_of(before: i64, n: i64, relative: bool) -> i64
    requires before { unsigned_abs before ≤ 68719477120 }
    requires number { unsigned_abs n ≤ 2147483647 }
    ensures value { result ≡ nearest_multiple 24 (if relative then before +ℤ n else n) }
    ensures range { unsigned_abs result ≤ unsigned_abs before + 2147483660 }
{
    if relative {
        round_h(before + n)
    } else {
        round_h(n)
    }
}

/// The kind of the stop of a number, by the byte after what was read of it.
fn kind_after(number: &[u8], used: usize) -> StopKind
    ensures { result ≡ kind_of (slice_get number.now used) }
{
    kind_of(number.get(used).copied())
}

impl Ruler {
    /// Adds a stop.
    fn plant(&mut self, kind: StopKind, place: i64)
        requires room { length self.old.stops < 32 }
        requires range { unsigned_abs place ≤ 68719477120 }
        ensures { self.new ≡ planted kind place self.old }
    {
        self.stops.push(Stop {
            column: column_of(place),
            kind,
        });
        self.place = place;
    }

    /// Adds a stop at `n` units, from the one before where it is relative, if there are not 32.
    fn add_place(&mut self, relative: bool, kind: StopKind, n: i64)
        requires range { unsigned_abs self.old.place ≤ 2147483660 * length self.old.stops }
        requires number { unsigned_abs n ≤ 2147483647 }
        ensures added { self.new ≡ with_place relative kind (Some n) self.old }
        ensures range { unsigned_abs self.new.place ≤ 2147483660 * length self.new.stops }
    {
        if self.stops.is_full() {
            return;
        }
        let place = place_of(self.place, n, relative);
        self.plant(kind, place);
    }

    /// Adds the stop of an argument; one that is no number is passed over.
    fn add(&mut self, argument: &[u8], v: Height)
        requires { unsigned_abs self.old.place ≤ 2147483660 * length self.old.stops }
        ensures added { self.new ≡ with_stop v argument.now self.old }
        ensures range { unsigned_abs self.new.place ≤ 2147483660 * length self.new.stops }
    {
        let number = after_plus(argument);
        let ctx = Ctx {
            v: i64::from(v.units()),
            here: 0,
            default: Scale::Em,
        };
        let read = read_expr(number, &ctx);
        let kind = kind_after(number, read.used);
        if let Some(n) = read.value {
            self.add_place(is_relative(argument), kind, n);
        }
    }
}

impl Tabs {
    /// Those at first: left stops at every eighth character to the 256th, blanks for tabs, dots for leaders.
    pub fn new() -> Self
        ensures { result ≡ first_tabs }
    {
        let mut stops = Stops::new();
        for count in 0..32 {
            stops.push(Stop {
                column: 8 * (count + 1),
                kind: StopKind::Left,
            });
        }
        Tabs {
            stops,
            tab: None,
            leader: Some(b'.'),
        }
    }

    /// Takes those of another.
    pub(crate) fn copy_from(&mut self, other: &Tabs)
        ensures { self.new ≡ other.now }
    {
        self.stops.copy_from(&other.stops);
        self.tab = other.tab;
        self.leader = other.leader;
    }

    /// `.ta`
    ///
    /// Proved: `.ta .tc .lc` each change the tab stops, of which there are 32 at most, or what tabs and leaders
    /// repeat by one equation. (`Tabs::{ta, tc, lc}`; `Stops::as_slice` in stops.rt)
    pub fn ta(&mut self, line: &[u8], v: Height)
        ensures { self.new ≡ ta line.now v self.old }
    {
        let mut arguments = Arguments::of(line);
        let mut ruler = Ruler {
            stops: Stops::new(),
            place: 0,
        };
        for _at in 0..line.len() {
            let argument = arguments.number();
            if argument.is_empty() {
                break;
            }
            ruler.add(argument, v);
        }
        self.stops = ruler.stops;
    }

    /// `.tc`
    pub fn tc(&mut self, line: &[u8])
        ensures { self.new ≡ tc line.now self.old }
    {
        self.tab = printing_byte(line);
    }

    /// `.lc`
    pub fn lc(&mut self, line: &[u8])
        ensures { self.new ≡ lc line.now self.old }
    {
        self.leader = printing_byte(line);
    }
}
