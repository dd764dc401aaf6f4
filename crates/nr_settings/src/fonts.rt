//! Fonts and underlining (CSTR 54, font and character size control; underlining).
use crate::arguments::Arguments;
use crate::lengths::Height;
use crate::numbers::counted_lines;
use nr_units::Name;
use nr_vectors::cell::{Cell, Look};

/// A font.
#[derive(Clone, Copy)]
pub enum Font {
    Roman,
    /// Shown by underlining.
    Italic,
    Bold,
}

impl Font {
    ghost use Rattle.std.specs.Prelude.{◌≡◌};
    ghost use Rattle.nr_settings.specs.Fonts.{look_of};

    /// How a terminal shows it.
    #[inline]
    fn look(self) -> Look
        ensures { result ≡ look_of self }
    {
        match self {
            Font::Roman => Look::Plain,
            Font::Italic => Look::Under,
            Font::Bold => Look::Bold,
        }
    }
}

/// The font, the one before it, and the number of text lines that are still to be underlined.
#[derive(Clone, Copy)]
pub struct Fonts {
    pub font: Font,
    pub previous: Font,
    pub underlined: u32,
}

impl Fonts {
    ghost use Rattle.std.specs.Prelude.{◌≡◌};
    ghost use Rattle.nr_settings.specs.Fonts.{font_by, font_named, with_named, ft, ul, after_underlined_line, present_look, cell_of, first_fonts};

    /// Roman, and nothing underlined.
    pub fn new() -> Self
        ensures { result ≡ first_fonts }
    {
        Fonts {
            font: Font::Roman,
            previous: Font::Roman,
            underlined: 0,
        }
    }

    /// The font that one byte names.
    fn by_byte(self, byte: u8) -> Option<Font>
        ensures { result ≡ font_by self.previous byte }
    {
        match byte {
            b'R' | b'1' => Some(Font::Roman),
            b'I' | b'2' => Some(Font::Italic),
            b'B' | b'3' => Some(Font::Bold),
            b'P' => Some(self.previous),
            _ => None,
        }
    }

    /// The font of a name; None where it names none.
    fn named(self, name: &[u8]) -> Option<Font>
        ensures { result ≡ font_named self.previous name.now }
    {
        let Some((first, rest)) = name.split_first() else {
            return Some(self.previous);
        };
        if rest.is_empty() {
            return self.by_byte(*first);
        }
        None
    }

    /// Sets the font of this name, as `\f` does: the previous one where the name is empty. A name of none sets nothing.
    pub fn set(&mut self, name: &[u8])
        ensures { self.new ≡ with_named name.now self.old }
    {
        if let Some(font) = self.named(name) {
            self.previous = self.font;
            self.font = font;
        }
    }

    /// `.ft`
    ///
    /// Proved: `.ft .ul` and `\f` each change the font or the lines to be underlined by one equation, and from these
    /// come the looks of cells. (`Fonts::{ft, ul, set, look, cell}`)
    pub fn ft(&mut self, line: &[u8], long: bool)
        ensures { self.new ≡ ft line.now long self.old }
    {
        let name = match Arguments::of(line).name(long) {
            None => Name::new(),
            Some(name) => name,
        };
        self.set(name.as_bytes());
    }

    /// `.ul`
    pub fn ul(&mut self, line: &[u8], v: Height)
        ensures { self.new ≡ ul line.now v self.old }
    {
        self.underlined = counted_lines(line, v);
    }

    /// Counts one text line.
    #[inline]
    pub fn count_line(&mut self)
        ensures { self.new ≡ after_underlined_line self.old }
    {
        self.underlined = self.underlined.saturating_sub(1);
    }

    /// How what is read now looks.
    #[inline]
    pub fn look(&self) -> Look
        ensures { result ≡ present_look self.now }
    {
        if self.underlined > 0 {
            return Look::Under;
        }
        self.font.look()
    }

    /// The cell of a byte that is read now.
    #[inline]
    pub fn cell(&self, byte: u8) -> Cell
        ensures { result ≡ cell_of byte self.now }
    {
        Cell {
            byte,
            look: self.look(),
        }
    }
}
