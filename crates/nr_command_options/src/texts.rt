//! What option words are made of: a byte that comes first, and numbers.
ghost use Rattle.std.specs.Prelude.{◌≡◌, ◌≢◌, ℕ, ◌<◌, ◌≤◌, List, ◌∷◌, IfSome, IfNone, ℤ};
ghost use Rattle.std.specs.Option.{SomeIff};
ghost use Rattle.std.specs.Str.Parse.{IsNumeral, digits_value};
ghost use Rattle.nr_command_options.specs.Settings.{WritesInteger};

/// The largest number that an option may name, but for limits.
pub(crate) const LARGEST_NUMBER: u64 = 2_147_483_647;

/// The ASCII byte at the beginning of a text, and what follows it. None where the text is empty or begins
/// with another character.
pub(crate) fn split_ascii(text: &str) -> Option<(u8, &str)>
    ensures found { IfSome result (λ parts. text.now ≡ parts.0 ∷ parts.1.now) }
    ensures none { IfNone result ((byte : ℕ) (rest : List ℕ) → byte < 128 → text.now ≢ byte ∷ rest) }
{
    let byte = *text.as_bytes().first()?;
    if byte >= 128 {
        return None;
    }
    let rest = text.strip_prefix(char::from(byte))?;
    Some((byte, rest))
}

/// The number that decimal digits write, if it is at most `most`. Leading zeros are allowed, a sign
/// isn't.
pub(crate) fn read_number(text: &str, most: u64) -> Option<u64>
    ensures { SomeIff result (IsNumeral 10 text.now × (digits_value 10 text.now ≤ most))
        (digits_value 10 text.now) }
{
    if text.starts_with('+') {
        return None;
    }
    let number = text.parse::<u64>().ok()?;
    if number <= most { Some(number) } else { None }
}

/// The number that decimal digits write, or `-` and decimal digits, from -2147483647 to 2147483647.
pub(crate) fn read_integer(text: &str) -> Option<i64>
    ensures found { IfSome result (λ number. WritesInteger number text.now) }
    ensures read { (n : ℤ) → WritesInteger n text.now → IfSome result (λ number. n ≡ number) }
    ensures none { IfNone result ((n : ℤ) → WritesInteger n text.now → ⊥) }
{
    match text.strip_prefix('-') {
        Some(digits) => {
            let size = read_number(digits, LARGEST_NUMBER)?;
            Some(-(size as i64))
        }
        None => {
            let size = read_number(text, LARGEST_NUMBER)?;
            Some(size as i64)
        }
    }
}
