//! Sets of eight bits, in which a byte is a character.
ghost use Rattle.std.specs.Prelude.{◌≡◌};
ghost use Rattle.preconv_coding.specs.Sets as specs;

use super::tables::{
    CYRILLIC, GREEK, KOI8_R, KOI8_U, LATIN_1, LATIN_2, LATIN_5, LATIN_7, LATIN_9, WINDOWS_1250,
    WINDOWS_1251, WINDOWS_1252, WINDOWS_1253, WINDOWS_1254, WINDOWS_1257,
};

/// A set of eight bits.
#[derive(Clone, Copy)]
pub enum Set {
    /// ISO 8859-1.
    Latin1,
    /// ISO 8859-2.
    Latin2,
    /// ISO 8859-5.
    Cyrillic,
    /// ISO 8859-7.
    Greek,
    /// ISO 8859-9.
    Latin5,
    /// ISO 8859-13.
    Latin7,
    /// ISO 8859-15.
    Latin9,
    /// KOI8-R.
    Koi8R,
    /// KOI8-U.
    Koi8U,
    /// Windows code page 1250.
    Windows1250,
    /// Windows code page 1251.
    Windows1251,
    /// Windows code page 1252.
    Windows1252,
    /// Windows code page 1253.
    Windows1253,
    /// Windows code page 1254.
    Windows1254,
    /// Windows code page 1257.
    Windows1257,
}

impl Set {
    /// The characters of the bytes from 128 on; U+FFFD stands where there is none.
    #[tactic(auto, unfolding(crate::specs::Sets::characters))]
    fn characters(self) -> &'static [char; 128]
        ensures { result.now ≡ specs.characters self }
    {
        match self {
            Set::Latin1 => &LATIN_1,
            Set::Latin2 => &LATIN_2,
            Set::Cyrillic => &CYRILLIC,
            Set::Greek => &GREEK,
            Set::Latin5 => &LATIN_5,
            Set::Latin7 => &LATIN_7,
            Set::Latin9 => &LATIN_9,
            Set::Koi8R => &KOI8_R,
            Set::Koi8U => &KOI8_U,
            Set::Windows1250 => &WINDOWS_1250,
            Set::Windows1251 => &WINDOWS_1251,
            Set::Windows1252 => &WINDOWS_1252,
            Set::Windows1253 => &WINDOWS_1253,
            Set::Windows1254 => &WINDOWS_1254,
            Set::Windows1257 => &WINDOWS_1257,
        }
    }

    /// The character of a byte.
    pub(crate) fn character(self, byte: u8) -> char
        ensures { result ≡ specs.character_of self byte }
    {
        if byte < 128 {
            return byte as char;
        }
        self.characters()[usize::from(byte - 128)]
    }
}
