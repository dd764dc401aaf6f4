//! A letter with its marks: what one cell of a row shows.
ghost use Rattle.std.specs.Prelude.{◌≡◌};
ghost use Rattle.utf8_own_characters.specs.Cluster as specs;
ghost use Rattle.utf8_own_characters.specs.Table.{is_none};

use unicode_width::UnicodeWidthChar;

/// A letter with up to three marks, as one cell shows it. NUL stands where there is no mark.
#[derive(Clone, Copy, Debug, PartialEq, Eq)]
pub struct Cluster {
    pub letter: char,
    pub first_mark: char,
    pub second_mark: char,
    pub third_mark: char,
}

/// Whether a character is a mark on the one before it: it takes no column.
#[inline]
pub fn is_mark(character: char) -> bool
    ensures { result ≡ specs.is_mark character }
{
    match character.width() {
        Some(columns) => columns == 0,
        None => false,
    }
}

impl Cluster {
    /// A character without marks.
    #[inline]
    pub fn single(letter: char) -> Cluster
        ensures { result ≡ specs.single letter }
    {
        Cluster {
            letter,
            first_mark: '\0',
            second_mark: '\0',
            third_mark: '\0',
        }
    }

    /// Whether two are the same.
    #[inline]
    pub fn is_same(&self, other: &Cluster) -> bool
        ensures { result ≡ specs.is_same self.now other.now }
    {
        self.letter == other.letter
            && self.first_mark == other.first_mark
            && self.second_mark == other.second_mark
            && self.third_mark == other.third_mark
    }

    /// Whether it is a character of ASCII, which has no marks.
    #[inline]
    pub fn is_ascii(&self) -> bool
        ensures { result ≡ specs.is_ascii self.now }
    {
        (self.letter as u32) < 128 && self.is_same(&Cluster::single(self.letter))
    }

    /// Whether it is NUL, which stands where there is no character.
    #[inline]
    pub(crate) fn is_none(&self) -> bool
        ensures { result ≡ is_none self.now }
    {
        self.is_same(&Cluster::single('\0'))
    }

    /// Whether it takes two columns. All others take one.
    #[inline]
    pub fn is_wide(&self) -> bool
        ensures { result ≡ specs.is_wide self.now }
    {
        match self.letter.width() {
            Some(columns) => columns == 2,
            None => false,
        }
    }

    /// How many columns it takes.
    pub fn columns(&self) -> usize
        ensures { result ≡ specs.columns self.now }
    {
        if self.is_wide() { 2 } else { 1 }
    }
}
