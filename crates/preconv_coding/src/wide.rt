//! Units of UTF-16 become characters (RFC 2781).
ghost use Rattle.std.specs.Prelude.{◌≡◌, ◌+◌, ◌++◌, ◌<◌, ◌≤◌, length};
ghost use Rattle.std.specs.Char.{encode_utf8};
ghost use Rattle.preconv_coding.specs.Wide as specs;

use nr_units::Name;

/// Which byte of a unit comes first.
#[derive(Clone, Copy)]
pub(crate) enum Order {
    /// The greater.
    Big,
    /// The lesser.
    Little,
}

/// What is half read of UTF-16.
#[derive(Clone, Copy)]
pub(crate) struct Wide {
    /// The order of a unit's bytes.
    pub order: Order,
    /// The first unit of a pair.
    pub high: Option<u16>,
    /// The first byte of a unit.
    pub first: Option<u8>,
}

/// What is half read then, and the text that came of a byte.
#[derive(Clone, Copy)]
pub(crate) struct Units {
    /// What is half read.
    pub wide: Wide,
    /// The text.
    pub text: Name,
}

/// The character of a code, and U+FFFD where there is none.
fn character_of(code: u32) -> char
    ensures { result ≡ specs.character_of code }
{
    match char::from_u32(code) {
        Some(character) => character,
        None => '\u{FFFD}',
    }
}

/// The bytes of a character: at most four.
pub(crate) fn utf8_of(character: char) -> Name
    ensures value { result ≡ encode_utf8 character }
    ensures few { length result ≤ 4 }
{
    let mut bytes = [0; 4];
    Name::of(character.encode_utf8(&mut bytes).as_bytes())
}

/// One text after another.
fn joined(prefix: Name, rest: &[u8]) -> Name
    requires { length prefix + length rest.now ≤ 32 }
    ensures { result ≡ prefix ++ rest.now }
{
    let mut text = prefix;
    for byte in rest {
        text.push(*byte);
    }
    text
}

/// The first unit of a pair.
fn is_high(unit: u16) -> bool
    ensures { result ≡ specs.is_high unit }
{
    matches!(unit, 0xD800..=0xDBFF)
}

/// The second unit of a pair.
fn is_low(unit: u16) -> bool
    ensures { result ≡ specs.is_low unit }
{
    matches!(unit, 0xDC00..=0xDFFF)
}

/// The code of a pair.
fn pair_code(high: u16, low: u16) -> u32
    ensures { result ≡ specs.pair_code high low }
{
    0x1_0000 + u32::from(high % 0x400) * 0x400 + u32::from(low % 0x400)
}

impl Order {
    /// The unit of two bytes.
    fn unit(self, first: u8, second: u8) -> u16
        ensures { result ≡ specs.unit self first second }
    {
        match self {
            Order::Big => u16::from(first) * 256 + u16::from(second),
            Order::Little => u16::from(second) * 256 + u16::from(first),
        }
    }
}

impl Wide {
    /// Nothing was read.
    pub(crate) fn new(order: Order) -> Wide
        ensures { result ≡ specs.first_wide order }
    {
        Wide {
            order,
            high: None,
            first: None,
        }
    }

    /// A unit comes that goes on no pair.
    fn fresh(self, unit: u16) -> Units
        ensures value { result ≡ specs.fresh unit self }
        ensures few { length result.text ≤ 4 }
    {
        let high = if is_high(unit) { Some(unit) } else { None };
        let wide = Wide {
            order: self.order,
            high,
            first: None,
        };
        let text = if is_high(unit) {
            Name::new()
        } else {
            utf8_of(character_of(u32::from(unit)))
        };
        Units { wide, text }
    }

    /// A unit comes. The first of a pair without its second is lost.
    fn takes_unit(self, unit: u16) -> Units
        ensures { result ≡ specs.unit_taken unit self }
    {
        match self.high {
            None => self.fresh(unit),
            Some(high) if is_low(unit) => Units {
                wide: Wide::new(self.order),
                text: utf8_of(character_of(pair_code(high, unit))),
            },
            Some(_) => {
                let rest = self.fresh(unit);
                Units {
                    wide: rest.wide,
                    text: joined(utf8_of('\u{FFFD}'), rest.text.as_bytes()),
                }
            }
        }
    }

    /// A byte comes.
    pub(crate) fn takes(self, byte: u8) -> Units
        ensures { result ≡ specs.taken byte self }
    {
        match self.first {
            None => Units {
                wide: Wide {
                    order: self.order,
                    high: self.high,
                    first: Some(byte),
                },
                text: Name::new(),
            },
            Some(first) => self.takes_unit(self.order.unit(first, byte)),
        }
    }

    /// The end comes: what is half read is lost.
    pub(crate) fn ends(self) -> Name
        ensures { result ≡ specs.ended self }
    {
        match (self.high, self.first) {
            (None, None) => Name::new(),
            _ => utf8_of('\u{FFFD}'),
        }
    }
}
