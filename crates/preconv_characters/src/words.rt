//! The words of a font macro's line. After the eighth all that follows is one word in quotes, since no
//! more than nine are taken.
ghost use Rattle.std.specs.Prelude.{◌≡◌, ◌<◌};
ghost use Rattle.preconv_characters.specs.Words.{begun, begins_word, after_quote, blank_said, class_of, first_words, font_said, goes_on_with, goes_on_with_space, has_hyphens, has_set, inside, is_as_is, is_ninth, no_font, offered_closing, offered_words, previous_face, quoted_said, taken_as_is, emitted, with_face, word_face, word_font, words_at};

use super::said::Said;

/// The fonts of a macro's words.
#[derive(Clone, Copy)]
pub enum Fonts {
    /// None, or one that isn't known here.
    One,
    /// One font, by its letter.
    Same(u8),
    /// Two fonts in turn, by their letters.
    Turn(u8, u8),
    /// None: the first word is a tag or an address, and others are numbers.
    Tag,
}

/// Where among words.
#[derive(Clone, Copy)]
pub enum Place {
    /// Between two of them.
    Between,
    /// A word begins with what comes.
    Begun,
    /// In a word.
    Inside,
    /// After the quote that opens the first word.
    Opened,
    /// In a word between quotes.
    Quoted,
    /// After a quote that may be its last.
    Closing,
}

/// What a character is among words.
#[derive(Clone, Copy)]
pub enum Class {
    /// A space.
    Space,
    /// A quote.
    Quote,
    /// Anything else.
    Other,
}

/// The words of a line as far as they were read.
#[derive(Clone, Copy)]
pub struct Words {
    /// Their fonts.
    pub fonts: Fonts,
    /// How many have begun: nine stand for more.
    pub count: u8,
    /// The last that began has the second font.
    pub second: bool,
    /// Where.
    pub place: Place,
}

/// The font that an escape has set in a macro's line.
#[derive(Clone, Copy)]
pub struct WordFont {
    /// The number of its word: 0 is that of none.
    pub word: u8,
    /// The letter of the font.
    pub letter: u8,
    /// That of the font before.
    pub previous: u8,
}

/// What a character does among words.
#[derive(Clone, Copy)]
pub struct Emitted {
    /// The words then.
    pub words: Words,
    /// What goes out.
    pub said: Said,
    /// The character is taken.
    pub takes: bool,
}

impl Class {
    /// That of an ASCII character.
    pub fn of(byte: u8) -> Class
        ensures { result ≡ class_of byte }
    {
        match byte {
            b' ' => Class::Space,
            b'"' => Class::Quote,
            _ => Class::Other,
        }
    }
}

impl WordFont {
    /// None was set.
    pub fn new() -> WordFont
        ensures { result ≡ no_font }
    {
        WordFont {
            word: 0,
            letter: b'R',
            previous: b'R',
        }
    }
}

impl Words {
    /// No word has begun.
    pub fn new(fonts: Fonts) -> Words
        ensures { result ≡ first_words fonts }
    {
        Words {
            fonts,
            count: 0,
            second: true,
            place: Place::Between,
        }
    }

    /// Whether the ninth word has begun.
    pub fn is_ninth(self) -> bool
        ensures { result ≡ is_ninth self }
    {
        self.count >= 9
    }

    /// Whether a hyphen here is read as that of text: not where numbers stand.
    pub fn has_hyphens(self) -> bool
        ensures { result ≡ has_hyphens self }
    {
        match self.fonts {
            Fonts::Tag => self.count == 1,
            _ => true,
        }
    }

    /// The letter of the font that the macro sets for the word.
    fn face(self) -> u8
        ensures { result ≡ word_face self }
    {
        match self.fonts {
            Fonts::One | Fonts::Tag => b'R',
            Fonts::Same(letter) => letter,
            Fonts::Turn(first, second) => if self.second { second } else { first },
        }
    }

    /// Whether this font holds in the word. Of two fonts in turn each word has its own; the ninth and those after it have one number.
    fn has_set(self, set: WordFont) -> bool
        ensures { result ≡ has_set set self }
    {
        match self.fonts {
            Fonts::Turn(_, _) => set.word == self.count && !self.is_ninth(),
            _ => set.word != 0,
        }
    }

    /// The letter of the font here, where an escape has set this one.
    pub fn font(self, set: WordFont) -> u8
        ensures { result ≡ word_font set self }
    {
        if self.has_set(set) {
            set.letter
        } else {
            self.face()
        }
    }

    /// That of the one before.
    fn previous(self, set: WordFont) -> u8
        ensures { result ≡ previous_face set self }
    {
        if self.has_set(set) {
            set.previous
        } else {
            self.face()
        }
    }

    /// An escape sets a font.
    pub fn with_face(self, letter: u8, set: WordFont) -> WordFont
        ensures { result ≡ with_face letter set self }
    {
        WordFont {
            word: self.count,
            letter: if letter == b'P' {
                self.previous(set)
            } else {
                letter
            },
            previous: self.font(set),
        }
    }

    /// Whether an escape that comes begins a word, or ends one before.
    pub fn begins_word(self) -> bool
        ensures { result ≡ begins_word self }
    {
        matches!(
            self.place,
            Place::Between | Place::Begun | Place::Opened | Place::Closing
        )
    }

    fn emitted(self, place: Place, said: Said, takes: bool) -> Emitted
        ensures { result ≡ emitted place said takes self }
    {
        let words = Words {
            fonts: self.fonts,
            count: self.count,
            second: self.second,
            place,
        };
        Emitted { words, said, takes }
    }

    /// How the font changes for a word after the ninth.
    fn font_said(self) -> Said
        ensures { result ≡ font_said self }
    {
        match self.fonts {
            Fonts::One | Fonts::Same(_) | Fonts::Tag => Said::Nothing,
            Fonts::Turn(first, second) => Said::Font(if self.second { first } else { second }),
        }
    }

    /// A word begins with what comes.
    fn begun(self) -> Emitted
        ensures { result ≡ begun self }
    {
        if self.count >= 9 {
            let words = Words {
                fonts: self.fonts,
                count: 9,
                second: !self.second,
                place: Place::Begun,
            };
            return Emitted {
                words,
                said: self.font_said(),
                takes: false,
            };
        }
        let words = Words {
            fonts: self.fonts,
            count: self.count + 1,
            second: !self.second,
            place: Place::Begun,
        };
        let said = if self.count == 8 {
            Said::Byte(b'"')
        } else {
            Said::Nothing
        };
        Emitted {
            words,
            said,
            takes: false,
        }
    }

    /// A blank between words: those after the ninth stand without blanks where fonts change.
    fn blank_said(self, said: Said) -> Said
        ensures { result ≡ blank_said said self }
    {
        match self.fonts {
            Fonts::Turn(_, _) if self.is_ninth() => Said::Nothing,
            _ => said,
        }
    }

    /// A quote that goes out as `said`, and as `ninth` from the ninth word on.
    fn quoted_said(self, said: Said, ninth: Said) -> Said
        ensures { result ≡ quoted_said said ninth self }
    {
        if self.is_ninth() { ninth } else { said }
    }

    /// After a quote with which a word begins. In the first, blanks there are printed, as are those after it where it is empty.
    fn after_quote(self) -> Place
        ensures { result ≡ after_quote self }
    {
        if self.count == 1 {
            Place::Opened
        } else {
            Place::Quoted
        }
    }

    /// What a character does right after a quote that may be the last of its word.
    fn offered_closing(self, class: Class, said: Said) -> Emitted
        ensures { result ≡ offered_closing class said self }
    {
        match class {
            Class::Quote => self.emitted(Place::Quoted, self.quoted_said(said, Said::Quotes), true),
            Class::Space => self.emitted(Place::Between, self.blank_said(said), true),
            Class::Other => {
                let blank = self.blank_said(Said::Byte(b' '));
                self.emitted(Place::Between, blank, false)
            }
        }
    }

    /// Whether a character goes out as it is, in a word.
    pub fn goes_on_with(self, class: Class) -> bool
        ensures { result ≡ goes_on_with class self }
    {
        matches!(
            (self.place, class),
            (Place::Inside | Place::Quoted, Class::Other) | (Place::Quoted, Class::Space)
        )
    }

    /// In the word that begins.
    pub fn inside(self) -> Words
        requires { self.count < 8 }
        ensures { result ≡ inside self }
    {
        Words {
            fonts: self.fonts,
            count: self.count + 1,
            second: !self.second,
            place: Place::Inside,
        }
    }

    /// Whether a space goes out as it is: between quotes, and up to the eighth word.
    fn goes_on_with_space(self) -> bool
        ensures { result ≡ goes_on_with_space self }
    {
        if self.is_ninth() {
            return self.goes_on_with(Class::Space);
        }
        matches!(self.place, Place::Between | Place::Inside | Place::Quoted)
    }

    /// Whether an ASCII character goes out as it is and is taken at once.
    #[inline(always)]
    pub fn takes_as_is(self, byte: u8) -> bool
        ensures { result ≡ is_as_is byte self }
    {
        if byte == b'\n' {
            return !self.is_ninth();
        }
        if byte == b' ' {
            return self.goes_on_with_space();
        }
        byte != b'-' && self.goes_on_with(Class::of(byte))
    }

    /// The words after such a character.
    #[inline(always)]
    pub fn taken(self, byte: u8) -> Words
        ensures { result ≡ taken_as_is byte self }
    {
        if byte == b' ' && matches!(self.place, Place::Inside) {
            return Words {
                fonts: self.fonts,
                count: self.count,
                second: self.second,
                place: Place::Between,
            };
        }
        self
    }

    /// What a character does that goes out as `said` elsewhere.
    pub fn offered(self, class: Class, said: Said) -> Emitted
        ensures { result ≡ offered_words class said self }
    {
        match (self.place, class) {
            (Place::Between, Class::Space) => self.emitted(
                Place::Between,
                self.blank_said(said),
                true,
            ),
            (Place::Between, _) => self.begun(),
            (Place::Begun, Class::Quote) => self.emitted(
                self.after_quote(),
                self.quoted_said(said, Said::Nothing),
                true,
            ),
            (Place::Begun, _) => self.emitted(Place::Inside, Said::Nothing, false),
            (Place::Inside, Class::Space) => self.emitted(
                Place::Between,
                self.blank_said(said),
                true,
            ),
            (Place::Inside, Class::Quote) => self.emitted(
                Place::Inside,
                self.quoted_said(said, Said::Quotes),
                true,
            ),
            (Place::Inside, Class::Other) => self.emitted(Place::Inside, said, true),
            (Place::Opened, Class::Other) => self.emitted(Place::Quoted, Said::Nothing, false),
            (Place::Opened, _) => self.emitted(Place::Quoted, Said::Escape(b'&'), false),
            (Place::Quoted, Class::Quote) => self.emitted(
                Place::Closing,
                self.quoted_said(said, Said::Nothing),
                true,
            ),
            (Place::Quoted, _) => self.emitted(Place::Quoted, said, true),
            (Place::Closing, _) => self.offered_closing(class, said),
        }
    }
}
