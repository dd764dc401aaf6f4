//! Numbers as words write them.
ghost use Rattle.std.specs.Prelude.{◌≡◌};
ghost use Rattle.program_options.specs.Numbers.{number, number_between, with_digit, without_scale};

/// The greatest number that a word may write: 2^32.
const GREATEST: u64 = 4_294_967_296;

/// The number that decimal digits write, at most 2^32. None where the text is none.
pub(crate) fn read_number(text: &[u8]) -> Option<u64>
    ensures { result ≡ number text.now }
{
    if text.is_empty() {
        return None;
    }
    let mut number = Some(0);
    for byte in text {
        number = with_digit(number, *byte);
    }
    number
}

/// The number with one digit more.
fn with_digit(number: Option<u64>, byte: u8) -> Option<u64>
    ensures { result ≡ with_digit number byte }
{
    let number = number?;
    if number > GREATEST || byte < b'0' || byte > b'9' {
        return None;
    }
    let number = number * 10 + u64::from(byte - b'0');
    if number <= GREATEST {
        Some(number)
    } else {
        None
    }
}

/// The number that decimal digits write, if it lies between the two.
pub(crate) fn read_between(text: &[u8], least: u64, most: u64) -> Option<u64>
    ensures { result ≡ number_between least most text.now }
{
    let number = read_number(text)?;
    if least <= number && number <= most {
        Some(number)
    } else {
        None
    }
}

/// The text without the scale letter `n` or `m` at its end: both are a cell.
pub(crate) fn without_scale(text: &[u8]) -> &[u8]
    ensures { result.now ≡ without_scale text.now }
{
    if text.is_empty() {
        return text;
    }
    let last = text.len() - 1;
    if text[last] == b'n' || text[last] == b'm' {
        &text[..last]
    } else {
        text
    }
}
