//! What one option of the command line sets.
ghost use Rattle.std.specs.Prelude.{◌≡◌, ◌≢◌, ℕ, ◌<◌, List, ◌∷◌, IfSome, IfNone, true};
ghost use Rattle.nr_units.specs.Character.{code};
ghost use Rattle.nr_command_options.specs.Settings.{hyphen};
ghost use Rattle.nr_command_options.specs.Arguments.{is_option};
ghost use Rattle.nr_command_options.specs.Job.{Reads, ReadsOption};

use crate::texts::{LARGEST_NUMBER, read_integer, read_number, split_ascii};
use crate::usage::Case;
use nr_options::Limit;
use nr_page::Select;

/// The letters of the options.
const KNOWN_LETTERS: &[u8] = b"onrmMibL";

/// The letters of options that other programs of this name have, and this one has not.
const LEFT_OUT_LETTERS: &[u8] = b"Tsqehz";

/// What an option sets.
#[derive(Drop)]
pub(crate) enum Setting<'a> {
    /// The pages to print.
    Select(Select),
    /// The first page's number.
    First(u32),
    /// A register, and the number in it.
    Register(u8, i64),
    /// One more macro file, by its name.
    Macros(&'a str),
    /// The folder of the macro files.
    Folder(&'a str),
    /// Standard input is read after the files.
    Input,
    /// Bold is shown, and all that is underlined.
    Bold,
    /// A limit, and its number.
    Limit(Limit, u64),
}

/// Reads an option (CSTR 54, "Usage").
pub(crate) fn read_option(word: &str) -> Result<Setting<'_>, Case>
    requires { is_option word.now ≡ true }
    ensures { ReadsOption word.now result }
{
    let Some((letter, value)) = letter_and_value(word) else {
        return Err(Case::Unknown);
    };
    if LEFT_OUT_LETTERS.contains(&letter) {
        return Err(Case::LeftOut);
    }
    if !KNOWN_LETTERS.contains(&letter) {
        return Err(Case::Unknown);
    }
    read_value(letter, value).ok_or(Case::BadValue)
}

/// Reads what stands after the letter of an option. None where it is no value of this option, or
/// where there is no option of this letter.
fn read_value(letter: u8, value: &str) -> Option<Setting<'_>>
    ensures { Reads letter value.now result }
{
    match letter {
        b'o' => read_pages(value),
        b'n' => read_first(value),
        b'r' => read_register(value),
        b'm' => read_macros(value),
        b'M' => read_folder(value),
        b'i' => read_input(value),
        b'b' => read_bold(value),
        b'L' => read_limit(value),
        _ => None,
    }
}

/// The letter of an option, if it is an ASCII byte, and what stands after it.
fn letter_and_value(word: &str) -> Option<(u8, &str)>
    requires { is_option word.now ≡ true }
    ensures found { IfSome result (λ parts. word.now ≡ hyphen ∷ parts.0 ∷ parts.1.now) }
    ensures none { IfNone result ((letter : ℕ) (value : List ℕ) → letter < 128
        → word.now ≢ hyphen ∷ letter ∷ value) }
{
    let (_, option) = split_ascii(word)?;
    split_ascii(option)
}

/// `-olist`.
fn read_pages(value: &str) -> Option<Setting<'_>>
    ensures { Reads (code "o") value.now result }
{
    match Select::parse(value.as_bytes()) {
        Ok(select) => Some(Setting::Select(select)),
        Err(_) => None,
    }
}

/// `-nN`.
fn read_first(value: &str) -> Option<Setting<'_>>
    ensures { Reads (code "n") value.now result }
{
    let number = read_number(value, LARGEST_NUMBER)?;
    Some(Setting::First(number as u32))
}

/// `-raN`.
fn read_register(value: &str) -> Option<Setting<'_>>
    ensures { Reads (code "r") value.now result }
{
    let (name, number) = split_ascii(value)?;
    if name < b'!' || name > b'~' {
        return None;
    }
    let number = read_integer(number)?;
    Some(Setting::Register(name, number))
}

/// `-mname`.
fn read_macros(value: &str) -> Option<Setting<'_>>
    ensures { Reads (code "m") value.now result }
{
    if value.is_empty() {
        return None;
    }
    Some(Setting::Macros(value))
}

/// `-Mdir`.
fn read_folder(value: &str) -> Option<Setting<'_>>
    ensures { Reads (code "M") value.now result }
{
    if value.is_empty() {
        return None;
    }
    Some(Setting::Folder(value))
}

/// `-i`.
fn read_input(value: &str) -> Option<Setting<'_>>
    ensures { Reads (code "i") value.now result }
{
    if value.is_empty() {
        Some(Setting::Input)
    } else {
        None
    }
}

/// `-b`.
fn read_bold(value: &str) -> Option<Setting<'_>>
    ensures { Reads (code "b") value.now result }
{
    if value.is_empty() {
        Some(Setting::Bold)
    } else {
        None
    }
}

/// `-LsN`, `-LdN`, `-LpN`, `-LxN` and `-LmN`.
fn read_limit(value: &str) -> Option<Setting<'_>>
    ensures { Reads (code "L") value.now result }
{
    let (letter, number) = split_ascii(value)?;
    let limit = match letter {
        b's' => Limit::Stored,
        b'd' => Limit::Depth,
        b'p' => Limit::Cells,
        b'x' => Limit::Expansions,
        b'm' => Limit::Moves,
        _ => return None,
    };
    let number = read_number(number, u64::MAX)?;
    if limit.admits(number) {
        Some(Setting::Limit(limit, number))
    } else {
        None
    }
}
