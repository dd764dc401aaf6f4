//! Special characters (groff, special characters; `zb` and `zj` are an addition).

/// A special character.
#[derive(Clone, Copy)]
pub enum Special {
    /// `hy`: `-`, a hyphen of a word.
    Hyphen,
    /// `em`: `--`
    Dash,
    /// `bu`: `o`
    Bullet,
    /// `aq`: `'`
    Apostrophe,
    /// `dq`: `"`
    Quote,
    /// `rs`: `\`
    Backslash,
    /// `zb`: no cell, and a break point.
    Point,
    /// `zj`: the same, and the end of a text line after it does not end the word.
    Joint,
}

impl Special {
    ghost use Rattle.std.specs.Prelude.{◌≡◌, ◌≤◌};
    ghost use Rattle.nr_settings.specs.Specials.{special_by, special_of, byte_of, cells_of};

    /// The special character of two letters.
    fn by_letters(first: u8, second: u8) -> Option<Self>
        ensures { result ≡ special_by first second }
    {
        match (first, second) {
            (b'h', b'y') => Some(Special::Hyphen),
            (b'e', b'm') => Some(Special::Dash),
            (b'b', b'u') => Some(Special::Bullet),
            (b'a', b'q') => Some(Special::Apostrophe),
            (b'd', b'q') => Some(Special::Quote),
            (b'r', b's') => Some(Special::Backslash),
            (b'z', b'b') => Some(Special::Point),
            (b'z', b'j') => Some(Special::Joint),
            _ => None,
        }
    }

    /// The special character of a name; None for a name that prints nothing.
    ///
    /// Proved: A special character has its byte and its number of cells, two at most. (`Special::{of, byte, cells}`)
    pub fn of(name: &[u8]) -> Option<Self>
        ensures { result ≡ special_of name.now }
    {
        let Some((first, rest)) = name.split_first() else {
            return None;
        };
        let Some((second, more)) = rest.split_first() else {
            return None;
        };
        if more.is_empty() {
            Special::by_letters(*first, *second)
        } else {
            None
        }
    }

    /// The byte that is printed for it, a blank where it has no cell.
    pub fn byte(self) -> u8
        ensures { result ≡ byte_of self }
    {
        match self {
            Special::Hyphen | Special::Dash => b'-',
            Special::Bullet => b'o',
            Special::Apostrophe => b'\'',
            Special::Quote => b'"',
            Special::Backslash => b'\\',
            Special::Point | Special::Joint => b' ',
        }
    }

    /// How many cells of that byte: two for a dash, none for a break point, one for another.
    pub fn cells(self) -> u32
        ensures value { result ≡ cells_of self }
        ensures most { result ≤ 2 }
    {
        match self {
            Special::Dash => 2,
            Special::Point | Special::Joint => 0,
            _ => 1,
        }
    }
}
