//! What a word is: an option, with its value or before it, or a file.
ghost use Rattle.std.specs.Prelude.{◌≡◌};
ghost use Rattle.std.specs.Option.{option_map};
ghost use Rattle.program_options.specs.Values.{meaning_of, meant};
ghost use Rattle.program_options.specs.Words.{alone, first_byte, letter_now, letter_word, long_named, long_word, seen, short_word, word_alone, word_of};

use crate::names::{Letter, Valued, letter_of};
use crate::plain::{Change, Says};
use crate::usage::Case;
use crate::values::{Ask, at_equals, read_value};

/// What a word is.
pub(crate) enum Word<'a> {
    /// A file: it is `-`, or does not begin with `-`.
    File,
    /// `--`, which ends the options.
    End,
    /// An option that is whole.
    Whole(Result<Ask<'a>, Case>),
    /// An option whose value is the next word.
    Awaits(Valued),
}

/// What a word is.
pub(crate) fn word_of(word: &str) -> Word<'_>
    ensures { seen result ≡ word_of word.now }
{
    let bytes = word.as_bytes();
    if bytes.len() < 2 || bytes[0] != b'-' {
        return Word::File;
    }
    if bytes[1] == b'-' {
        return long_word(word);
    }
    match first_byte(word) {
        Some((_, option)) => short_word(option),
        None => Word::File,
    }
}

/// What stands after the `-` of a word.
fn short_word(option: &str) -> Word<'_>
    ensures { seen result ≡ short_word (first_byte option.now) }
{
    match first_byte(option) {
        Some((letter, value)) => letter_word(letter, value),
        None => Word::Whole(Err(Case::Unknown)),
    }
}

/// The first byte of a text, and what follows it. None where the text is empty or begins with another character
/// than ASCII.
fn first_byte(text: &str) -> Option<(u8, &str)>
    ensures { option_map letter_now result ≡ first_byte text.now }
{
    let byte = *text.as_bytes().first()?;
    if byte >= 128 {
        return None;
    }
    let rest = text.strip_prefix(char::from(byte))?;
    Some((byte, rest))
}

/// An option of this letter, with what stands after it.
fn letter_word(letter: u8, value: &str) -> Word<'_>
    ensures { seen result ≡ letter_word letter value.now }
{
    match letter_of(letter) {
        Letter::Asks(valued) => {
            if value.is_empty() {
                Word::Awaits(valued)
            } else {
                Word::Whole(read_value(valued, value))
            }
        }
        Letter::Sets(change) => Word::Whole(alone(Ask::Change(change), value)),
        Letter::Passed => Word::Whole(alone(Ask::Nothing, value)),
        Letter::LeftOut => Word::Whole(Err(Case::LeftOut)),
        Letter::Unknown => Word::Whole(Err(Case::Unknown)),
    }
}

/// What an option asks for that has no value.
fn alone<'a>(ask: Ask<'a>, value: &str) -> Result<Ask<'a>, Case>
    ensures { meant result ≡ alone (meaning_of ask.entry) value.now }
{
    if value.is_empty() {
        Ok(ask)
    } else {
        Err(Case::BadValue)
    }
}

/// An option that begins with `--`: its value stands after `=`, or is the next word.
fn long_word(word: &str) -> Word<'_>
    ensures { seen result ≡ long_word word.now }
{
    match at_equals(word) {
        Some((name, value)) => match long_named(name.as_bytes()) {
            Some(valued) => Word::Whole(read_value(valued, value)),
            None => Word::Whole(Err(Case::Unknown)),
        },
        None => word_alone(word.as_bytes()),
    }
}

/// The long option of that name that asks for a value.
fn long_named(name: &[u8]) -> Option<Valued>
    ensures { result ≡ long_named name.now }
{
    if name == b"--width".as_slice() {
        Some(Valued::Cells)
    } else if name == b"--faces".as_slice() {
        Some(Valued::Faces)
    } else if name == b"--within".as_slice() {
        Some(Valued::Within)
    } else {
        None
    }
}

/// A word that begins with `--` and has no `=`.
fn word_alone<'a>(word: &[u8]) -> Word<'a>
    ensures { seen result ≡ word_alone word.now }
{
    if word == b"--".as_slice() {
        return Word::End;
    }
    if let Some(valued) = long_named(word) {
        return Word::Awaits(valued);
    }
    if word == b"--warnings".as_slice() {
        Word::Whole(Ok(Ask::Change(Change::Warns)))
    } else if word == b"--alone".as_slice() {
        Word::Whole(Ok(Ask::Change(Change::Alone)))
    } else if word == b"--version".as_slice() {
        Word::Whole(Ok(Ask::Change(Change::Says(Says::Version))))
    } else if word == b"--help".as_slice() {
        Word::Whole(Ok(Ask::Change(Change::Says(Says::Help))))
    } else {
        Word::Whole(Err(Case::Unknown))
    }
}
