//! Number registers.
ghost use Rattle.std.specs.Prelude.{◌≡◌, ◌-ℤ◌};
ghost use Rattle.nr_store.specs.Store.{unset, is_held, moved_to, set_to, raised, lowered, gone_on};

use nr_symbol_tables::Entry;
use nr_units::Format;

// Whether a register holds this number.
fn is_held(value: i64) -> bool
    ensures { result ≡ is_held value }
{
    value.unsigned_abs() <= 2147483647
}

// What is left of a number where another is taken from it.
fn difference(a: i32, b: i32) -> i64
    ensures { result ≡ a -ℤ b }
{
    i64::from(a) - i64::from(b)
}

/// A number register (CSTR 54, number registers).
#[derive(Clone, Copy)]
pub struct Register {
    /// Its value.
    pub value: i32,
    /// What `\n+` adds and `\n-` takes away.
    pub step: i32,
    /// How it is written.
    pub format: Format,
}

impl Register {
    /// An undefined register.
    pub(crate) fn unset() -> Register
        ensures { result ≡ unset }
    {
        Register {
            value: 0,
            step: 0,
            format: Format::Arabic { places: 1 },
        }
    }

    // The same with this value, if a register holds it.
    fn moved_to(self, value: i64) -> Option<Register>
        ensures { result ≡ moved_to value self }
    {
        if !is_held(value) {
            return None;
        }
        Some(Register {
            value: value as i32,
            step: self.step,
            format: self.format,
        })
    }

    // The same with this value, if a register holds it, and this step, if one is given.
    pub(crate) fn set_to(self, value: i64, step: Option<i32>) -> Option<Register>
        ensures { result ≡ set_to value step self }
    {
        let step = step.unwrap_or(self.step);
        let register = Register {
            value: self.value,
            step,
            format: self.format,
        };
        register.moved_to(value)
    }

    // The same, gone on by its step.
    fn raised(self) -> Option<Register>
        ensures { result ≡ raised self }
    {
        self.moved_to(i64::from(self.value) + i64::from(self.step))
    }

    // The same, gone back by its step.
    fn lowered(self) -> Option<Register>
        ensures { result ≡ lowered self }
    {
        self.moved_to(difference(self.value, self.step))
    }

    // The same, gone on by its step or back.
    pub(crate) fn gone_on(self, up: bool) -> Option<Register>
        ensures { result ≡ gone_on up self }
    {
        if up { self.raised() } else { self.lowered() }
    }

    /// An entry of the table of registers to fill new slices with.
    pub fn blank() -> Entry<Register> {
        Entry::blank(Register::unset())
    }
}
