//! Names as far as they were read.
ghost use Rattle.std.specs.Prelude.{◌≡◌};
ghost use Rattle.nr_reading.specs.Spelled.{is_blank, ends_name, nothing_spelled, spelled, name_of};

use nr_units::Name;

/// A space or a tab.
pub(crate) fn is_blank(byte: u8) -> bool
    ensures { result ≡ is_blank byte }
{
    byte == b' ' || byte == b'\t'
}

/// A blank, a newline or another control byte.
pub(crate) fn ends_name(byte: u8) -> bool
    ensures { result ≡ ends_name byte }
{
    byte <= b' ' || byte == 127
}

/// A name as far as it was read.
#[derive(Clone, Copy)]
pub struct Spelled {
    /// Its first 32 bytes.
    pub bytes: Name,
    /// It is too long, or has a blank in its brackets.
    pub bad: bool,
}

impl Spelled {
    /// Nothing was read of it.
    pub(crate) fn new() -> Spelled
        ensures { result ≡ nothing_spelled }
    {
        Spelled {
            bytes: Name::new(),
            bad: false,
        }
    }

    /// One byte more comes.
    #[inline]
    pub(crate) fn push(&mut self, byte: u8)
        ensures { self.new ≡ spelled byte self.old }
    {
        if self.bytes.is_full() {
            self.bad = true;
            return;
        }
        self.bytes.push(byte);
    }

    /// The name with one byte more.
    pub(crate) fn with(self, byte: u8) -> Spelled
        ensures { result ≡ spelled byte self }
    {
        let mut name = self;
        name.push(byte);
        name
    }

    /// The name, the empty one where it is bad.
    pub fn name(&self) -> Name
        ensures { result ≡ name_of self.now }
    {
        if self.bad {
            return Name::new();
        }
        self.bytes
    }
}
