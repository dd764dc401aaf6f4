//! What a character is for what stands after it: a letter, what ends a sentence, what closes or opens.
ghost use Rattle.std.specs.Prelude.{◌≡◌};
ghost use Rattle.preconv_characters.specs.Marks as specs;

use super::likeness::is_latin_letter;

/// What a character is for what stands after it.
#[derive(Clone, Copy)]
pub enum Mark {
    /// A letter.
    Letter,
    /// An opening bracket or a quote, after which a word begins.
    Opening,
    /// A `"`, which opens or closes.
    Quote,
    /// What ends a sentence.
    Stop,
    /// What may close a sentence after that.
    Closing,
    /// The same after a stop.
    Closed,
    /// Two backslashes in a word of a macro, which copying it makes one.
    Backslash,
    /// Anything else.
    Other,
}

/// What stands before the next character of a line in a manual page.
#[derive(Clone, Copy)]
pub enum Before {
    /// A character.
    Character(Mark),
    /// Anything, after an escape with a number or a text: up to the end of the line hyphens stay as they are.
    Argument,
}

/// A letter of ASCII.
pub fn is_ascii_letter(byte: u8) -> bool
    ensures { result ≡ specs.is_ascii_letter byte }
{
    matches!(byte, b'A'..=b'Z' | b'a'..=b'z')
}

/// A letter: beyond Latin-1 that is by the blocks of characters.
fn is_letter(code: u32) -> bool
    ensures { result ≡ specs.is_letter code }
{
    matches!(code, 0x41..=0x5A | 0x61..=0x7A | 0x0100..=0x1FFF | 0x2C00..) || is_latin_letter(code)
}

/// An opening bracket or a quote.
fn is_opening(code: u32) -> bool
    ensures { result ≡ specs.is_opening code }
{
    matches!(code, 0x28 | 0x3C | 0x5B | 0x2018 | 0x201C)
}

/// What ends a sentence.
fn is_stop(code: u32) -> bool
    ensures { result ≡ specs.is_stop code }
{
    matches!(code, 0x2E | 0x3F | 0x21)
}

/// What may close a sentence.
fn is_closing(code: u32) -> bool
    ensures { result ≡ specs.is_closing code }
{
    matches!(code, 0x29 | 0x5D | 0x27 | 0x2A | 0x2019 | 0x201D)
}

/// What a character is, a letter or not.
fn mark_by(letter: bool, code: u32) -> Mark
    ensures { result ≡ specs.mark_by letter code }
{
    if letter {
        Mark::Letter
    } else if code == u32::from('"') {
        Mark::Quote
    } else if is_opening(code) {
        Mark::Opening
    } else if is_stop(code) {
        Mark::Stop
    } else if is_closing(code) {
        Mark::Closing
    } else {
        Mark::Other
    }
}

/// What an ASCII character is.
pub fn mark_of(byte: u8) -> Mark
    ensures { result ≡ specs.mark_of byte }
{
    mark_by(is_ascii_letter(byte), u32::from(byte))
}

/// What a character is that may be no letter.
#[inline(never)]
fn other_mark(code: u32) -> Mark
    ensures { result ≡ specs.wide_mark code }
{
    mark_by(is_letter(code), code)
}

/// What another character is.
#[inline]
pub fn wide_mark(code: u32) -> Mark
    ensures { result ≡ specs.wide_mark code }
{
    if code >= 0x2C00 {
        return Mark::Letter;
    }
    other_mark(code)
}

/// A digit.
fn is_digit(byte: u8) -> bool
    ensures { result ≡ specs.is_digit byte }
{
    matches!(byte, b'0'..=b'9')
}

/// Whether this is so many cells to the left, by one digit or two.
pub fn is_hang(number: &[u8]) -> bool
    ensures { result ≡ specs.is_hang number.now }
{
    match number {
        [sign, digit] => *sign == b'-' && is_digit(*digit),
        [sign, tens, ones] => *sign == b'-' && is_digit(*tens) && is_digit(*ones),
        _ => false,
    }
}

impl Mark {
    /// What it is after another: a bracket or a quote may close a sentence.
    fn after(self, before: Mark) -> Mark
        ensures { result ≡ specs.mark_after before self }
    {
        match (before, self) {
            (Mark::Stop | Mark::Closed, Mark::Quote | Mark::Closing) => Mark::Closed,
            _ => self,
        }
    }
}

impl Before {
    /// What stands there after one more character.
    pub fn followed(self, mark: Mark) -> Before
        ensures { result ≡ specs.followed mark self }
    {
        match self {
            Before::Argument => Before::Argument,
            Before::Character(before) => Before::Character(mark.after(before)),
        }
    }
}
