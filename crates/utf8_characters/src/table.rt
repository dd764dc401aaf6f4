//! The tables by their names, and what they say.
ghost use Rattle.std.specs.Prelude.{◌≡◌, IfSome, Some, true};
ghost use Rattle.utf8_characters.specs.Tables.{byte_in, byte_of, character_of, characters, name_of, table_named};
ghost use Rattle.utf8_characters.specs.OneCell.{is_one_cell};

use super::tables::{CYRILLIC, ENGLISH, GREEK, LATIN, LATIN_1};

/// A table of characters of one cell each, for bytes from 128 on.
#[derive(Clone, Copy, Debug, PartialEq, Eq)]
pub enum FixedTable {
    /// Signs, and what ISO 8859-1 has.
    English,
    /// Letters of languages from Czech to Turkish, and signs.
    Latin,
    /// Letters of Cyrillic alphabets, and signs.
    Cyrillic,
    /// Letters of Greek, and signs.
    Greek,
    /// What ISO 8859-1 has, at its own bytes.
    Latin1,
}

/// The byte of a character among these, of which the first has byte 128.
fn byte_in(characters: &[char; 128], code: u32) -> Option<u8>
    ensures { result ≡ byte_in 128 characters.now code }
{
    let mut byte = 127;
    for character in characters {
        byte += 1;
        if u32::from(*character) == code {
            return Some(byte);
        }
    }
    None
}

impl FixedTable {
    /// The table of a name.
    ///
    /// Proved: A table's name leads to it. (`FixedTable::named`, `FixedTable::name`)
    pub fn named(name: &str) -> Option<FixedTable>
        ensures { result ≡ table_named name.now }
    {
        let bytes = name.as_bytes();
        if bytes == b"english".as_slice() {
            Some(FixedTable::English)
        } else if bytes == b"latin".as_slice() {
            Some(FixedTable::Latin)
        } else if bytes == b"cyrillic".as_slice() {
            Some(FixedTable::Cyrillic)
        } else if bytes == b"greek".as_slice() {
            Some(FixedTable::Greek)
        } else if bytes == b"latin1".as_slice() {
            Some(FixedTable::Latin1)
        } else {
            None
        }
    }

    /// Its name.
    pub fn name(self) -> &'static str
        ensures value { result.now ≡ name_of self }
        ensures back { table_named result.now ≡ Some self }
    {
        match self {
            FixedTable::English => "english",
            FixedTable::Latin => "latin",
            FixedTable::Cyrillic => "cyrillic",
            FixedTable::Greek => "greek",
            FixedTable::Latin1 => "latin1",
        }
    }

    /// The characters of the bytes from 128 on; NUL stands where there is none.
    #[tactic(auto, unfolding(crate::specs::Tables::characters))]
    pub fn characters(self) -> &'static [char; 128]
        ensures { result.now ≡ characters self }
    {
        match self {
            FixedTable::English => &ENGLISH,
            FixedTable::Latin => &LATIN,
            FixedTable::Cyrillic => &CYRILLIC,
            FixedTable::Greek => &GREEK,
            FixedTable::Latin1 => &LATIN_1,
        }
    }

    /// The character of a byte.
    fn look(self, byte: u8) -> Option<char>
        ensures { result ≡ character_of self byte }
    {
        if byte < 128 {
            return None;
        }
        let characters: &[char] = self.characters();
        match characters.get(usize::from(byte - 128)) {
            Some(character) if *character != '\0' => Some(*character),
            _ => None,
        }
    }

    /// The character of a byte.
    ///
    /// Proved: Each character of a table takes one cell, and none is a control character.
    pub fn character(self, byte: u8) -> Option<char>
        ensures value { result ≡ character_of self byte }
        // No other byte is that character's.
        ensures back { IfSome result (λ c. byte_of self c ≡ Some byte) }
        ensures shown { IfSome result (λ c. is_one_cell c ≡ true) }
    {
        self.look(byte)
    }

    /// The byte of a character.
    fn seek(self, code: u32) -> Option<u8>
        ensures { result ≡ byte_of self code }
    {
        if code == 0 {
            return None;
        }
        byte_in(self.characters(), code)
    }

    /// The byte of a character.
    ///
    /// Proved: A table is one to one: the byte of a character has that character, and the character of a byte has
    /// that byte. (`FixedTable::byte`, `FixedTable::character`)
    pub fn byte(self, code: u32) -> Option<u8>
        ensures value { result ≡ byte_of self code }
        // No other character is that byte's.
        ensures back { IfSome result (λ b. character_of self b ≡ Some code) }
    {
        self.seek(code)
    }
}
