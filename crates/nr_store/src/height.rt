//! The height of a diverted line, as an element of a text keeps it.
ghost use Rattle.std.specs.Prelude.{◌≡◌};

use std::marker::Model;

/// A height in u. It lies in four bytes at any address, so that an element of a text takes five. Clauses see the number.
#[derive(Clone, Copy)]
pub struct Height {
    bytes: [u8; 4],
}

impl Model for Height {
    ghost use Rattle.std.specs.Prelude.{ℕ};
    ghost use Rattle.std.specs.Int.{w32, from_le_bytes, to_le_bytes};
    ghost use Rattle.nr_store.specs.Height.{AreBytes, bytes-number};

    ghost Value = { ℕ };

    ghost view = { λ h. from_le_bytes w32 h.bytes };

    ghost invariant = { λ h. AreBytes h.bytes };

    ghost inverse = { λ n. record { bytes = to_le_bytes w32 n } };

    ghost inverse_ok = { λ h is i. record { bytes = bytes-number h.bytes is i } };
}

impl Height {
    /// The height of so many u.
    pub fn of(units: u32) -> Height
        ensures { result ≡ units }
    {
        Height {
            bytes: units.to_le_bytes(),
        }
    }

    /// In u.
    pub fn units(self) -> u32
        ensures { result ≡ self }
    {
        u32::from_le_bytes(self.bytes)
    }
}
