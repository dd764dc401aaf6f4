//! Characters of a text in UTF-8, a byte after the other.
ghost use Rattle.std.specs.Prelude.{◌≡◌};
ghost use Rattle.utf8_own_characters.specs.Decoding as specs;

/// What was read of a character of several bytes.
#[derive(Clone, Copy, Debug, PartialEq, Eq)]
pub struct Part {
    /// Its bits so far.
    pub bits: u32,
    /// How many bytes are to come.
    pub left: u8,
}

/// What comes of a byte.
#[derive(Clone, Copy, Debug, PartialEq, Eq)]
pub struct Decoded {
    pub part: Part,
    /// The character that ends with it. What is no character shows nothing.
    pub character: Option<char>,
}

/// The character of a number, if it is one.
#[inline(always)]
pub(crate) fn character_of(code: u32) -> Option<char>
    ensures { result ≡ specs.character_of code }
{
    char::from_u32(code)
}

impl Part {
    /// Nothing was read.
    #[inline(always)]
    pub fn none() -> Part
        ensures { result ≡ specs.none }
    {
        Part { bits: 0, left: 0 }
    }

    /// A character of several bytes goes on.
    #[inline(always)]
    fn going(bits: u32, left: u8) -> Decoded
        ensures { result ≡ specs.going bits left }
    {
        Decoded {
            part: Part { bits, left },
            character: None,
        }
    }

    /// A byte comes that goes on a character.
    #[inline(always)]
    fn more(self, byte: u8) -> Decoded
        ensures { result ≡ specs.more self byte }
    {
        let bits = self.bits % 65_536 * 64 + u32::from(byte % 64);
        match self.left {
            0 => Part::going(0, 0),
            1 => Decoded {
                part: Part::none(),
                character: character_of(bits),
            },
            left => Part::going(bits, left - 1),
        }
    }

    /// A byte comes.
    #[inline(always)]
    pub fn read(self, byte: u8) -> Decoded
        ensures { result ≡ specs.decoded self byte }
    {
        match byte {
            0..=127 => Decoded {
                part: Part::none(),
                character: Some(char::from(byte)),
            },
            128..=191 => self.more(byte),
            192..=223 => Part::going(u32::from(byte % 32), 1),
            224..=239 => Part::going(u32::from(byte % 16), 2),
            240..=247 => Part::going(u32::from(byte % 8), 3),
            _ => Part::going(0, 0),
        }
    }
}
