//! Traps.
ghost use Rattle.std.specs.Prelude.{◌≡◌, position};
ghost use Rattle.nr_symbol_tables.specs.Trap.{is_at, is_for, on_page, is_ahead, lower, nearer};

use nr_units::Name;

/// A trap: the macro of this name is sprung at this place (CSTR 54, page traps; diversions).
#[derive(Clone, Copy)]
pub struct Trap {
    /// In u from the top; on a page a negative one counts from the bottom.
    pub place: i32,
    /// The macro, which need not exist.
    pub name: Name,
}

impl Trap {
    /// A trap to fill new slices with.
    pub fn blank() -> Trap {
        Trap {
            place: 0,
            name: Name::new(),
        }
    }
}

/// The first trap that was planted at this place.
///
/// Proved: A trap is found by its place or by its macro. (`trap_at`, `trap_for`)
pub fn trap_at(traps: &[Trap], place: i32) -> Option<usize>
    ensures { result ≡ position (is_at place) traps.now }
{
    traps.iter().position(|trap| trap.place == place)
}

/// The first trap for this macro.
pub fn trap_for(traps: &[Trap], name: Name) -> Option<usize>
    ensures { result ≡ position (is_for name) traps.now }
{
    traps
        .iter()
        .position(|trap| trap.name.compare(&name).is_eq())
}

// Where a trap is on a page of this length.
fn on_page(place: i32, length: i32) -> i64
    ensures { result ≡ on_page place length }
{
    if place < 0 {
        return i64::from(length) + i64::from(place);
    }
    i64::from(place)
}

// Whether a place is beyond another, and has effect on a page of this length.
fn is_ahead(above: i32, length: i32, place: i64) -> bool
    ensures { result ≡ is_ahead above length place }
{
    i64::from(above) < place && -1 < place && place < i64::from(length)
}

// The better of two, where the first was planted first.
fn lower(best: Option<Trap>, trap: Trap) -> Option<Trap>
    ensures { result ≡ lower best trap }
{
    let Some(first) = best else {
        return Some(trap);
    };
    if trap.place < first.place {
        Some(trap)
    } else {
        Some(first)
    }
}

// The best trap so far and one more.
pub(crate) fn nearer(above: i32, length: i32, best: Option<Trap>, trap: Trap) -> Option<Trap>
    ensures { result ≡ nearer above length best trap }
{
    let Trap { place, name } = trap;
    let place = on_page(place, length);
    if !is_ahead(above, length, place) {
        return best;
    }
    lower(
        best,
        Trap {
            place: place as i32,
            name,
        },
    )
}
