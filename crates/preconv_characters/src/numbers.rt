//! Numbers in the names of characters.
ghost use Rattle.std.specs.Prelude.{◌≡◌, ◌<◌, ◌≤◌, IfSome};
ghost use Rattle.preconv_characters.specs.Numbers.{begins_number, digit, is_number, number_from};

/// The greatest code of a character, and one.
const CODES: u32 = 0x0011_0000;

/// A byte that a number begins with.
pub fn begins_number(byte: u8) -> bool
    ensures { result ≡ begins_number byte }
{
    matches!(byte, b'0'..=b'9' | b'(' | b'+' | b'-' | b'.' | b'|')
}

/// Whether this begins as a number does.
pub fn is_number(text: &[u8]) -> bool
    ensures { result ≡ is_number text.now }
{
    match text {
        [first, ..] => begins_number(*first),
        [] => false,
    }
}

/// The value of a digit of this base, 10 or 16.
fn digit(byte: u8, base: u32) -> Option<u32>
    ensures value { result ≡ digit base byte }
    ensures small { IfSome result (λ d. d < 16) }
{
    let value = match byte {
        b'0'..=b'9' => byte - b'0',
        b'A'..=b'F' => byte - b'A' + 10,
        b'a'..=b'f' => byte - b'a' + 10,
        _ => return None,
    };
    if u32::from(value) < base {
        Some(u32::from(value))
    } else {
        None
    }
}

/// The number that digits of this base go on with, up to a `_` or the end.
pub(crate) fn number_from(base: u32, start: u32, digits: &[u8]) -> Option<u32>
    requires base { base ≤ 16 }
    ensures { result ≡ number_from base start digits.now }
{
    let mut number = start;
    for byte in digits {
        if *byte == b'_' {
            return Some(number);
        }
        if number >= CODES {
            return None;
        }
        let Some(value) = digit(*byte, base) else {
            return None;
        };
        number = number * base + value;
    }
    Some(number)
}
