//! The words of a request's line.
ghost use Rattle.std.specs.Prelude.{◌≡◌, ◌+◌, ◌^◌, ◌<◌, ◌≤◌, length, IfSome, false};
ghost use Rattle.tbl_blocks.specs.Arguments as specs;

/// An argument, by its places in a text.
#[derive(Clone, Copy)]
pub(crate) struct Argument {
    /// Where it begins.
    pub start: usize,
    /// Where it ends.
    pub end: usize,
    /// Where what follows it begins.
    pub next: usize,
}

/// A blank or a tab.
fn is_blank(byte: u8) -> bool
    ensures { result ≡ specs.is_blank byte }
{
    byte == b' ' || byte == b'\t'
}

/// How many blanks and tabs a text begins with.
pub(crate) fn blanks_len(text: &[u8]) -> usize
    ensures value { result ≡ specs.blanks_len text.now }
    ensures within { result ≤ length text.now }
{
    text.iter().take_while(|byte| is_blank(**byte)).count()
}

/// How many blanks it begins with.
pub(crate) fn spaces_len(text: &[u8]) -> usize
    ensures value { result ≡ specs.spaces_len text.now }
    ensures within { result ≤ length text.now }
{
    text.iter().take_while(|byte| **byte == b' ').count()
}

/// Whether a byte ends a request's name.
fn ends_name(byte: u8) -> bool
    ensures { result ≡ specs.ends_name byte }
{
    matches!(byte, b' ' | b'\t' | b'\\' | b'"')
}

/// How long the name is that a text begins with.
pub(crate) fn request_len(text: &[u8]) -> usize
    ensures value { result ≡ specs.request_len text.now }
    ensures within { result ≤ length text.now }
{
    text.iter().take_while(|byte| !ends_name(**byte)).count()
}

/// Whether a byte ends an argument, which began with a quote or not.
fn ends_argument(byte: u8, quoted: bool) -> bool
    ensures { result ≡ specs.ends_argument byte quoted }
{
    if quoted { byte == b'"' } else { is_blank(byte) }
}

/// Whether an argument ends before a byte, which stands after a backslash or not.
fn stops(byte: u8, quoted: bool, escaped: bool) -> bool
    ensures { result ≡ specs.stops byte quoted escaped }
{
    !escaped && ends_argument(byte, quoted)
}

/// Whether the byte after one stands after a backslash that is not itself after one.
fn escapes(byte: u8, escaped: bool) -> bool
    ensures { result ≡ specs.escapes byte escaped }
{
    !escaped && byte == b'\\'
}

/// How long an argument is from a place on. What follows a backslash ends none.
fn argument_len(text: &[u8], quoted: bool) -> usize
    ensures value { result ≡ specs.argument_len quoted false text.now }
    ensures within { result ≤ length text.now }
{
    let mut escaped = false;
    for (at, byte) in text.iter().enumerate() {
        if stops(*byte, quoted, escaped) {
            return at;
        }
        escaped = escapes(*byte, escaped);
    }
    text.len()
}

/// Whether a text begins with a byte.
fn begins_with(text: &[u8], byte: u8) -> bool
    ensures { result ≡ specs.begins_with byte text.now }
{
    match text.split_first() {
        None => false,
        Some((first, _rest)) => *first == byte,
    }
}

/// Whether a comment begins here, or the text ends.
fn is_end(text: &[u8]) -> bool
    ensures { result ≡ specs.is_end text.now }
{
    match text.split_first() {
        None => true,
        Some((first, rest)) => *first == b'\\' && begins_with(rest, b'"'),
    }
}

/// What a quote at the beginning of an argument takes.
fn quote_len(text: &[u8]) -> usize
    ensures value { result ≡ specs.quote_len text.now }
    ensures within { result ≤ length text.now }
{
    if begins_with(text, b'"') { 1 } else { 0 }
}

/// The argument that begins with a text, whose first byte is at a place.
fn argument_at(text: &[u8], place: usize) -> Argument
    requires { place + length text.now < 2 ^ 63 }
    ensures value { result ≡ specs.argument_at text.now place }
    ensures order { result.start ≤ result.«end» }
    ensures ends { result.«end» ≤ result.next }
    ensures within { result.next ≤ place + length text.now }
{
    let quote = quote_len(text);
    let len = quote + argument_len(&text[quote..], quote == 1);
    Argument {
        start: place + quote,
        end: place + len,
        next: place + text.len().min(len + quote),
    }
}

/// The first argument of a text, if there is one.
pub(crate) fn find_argument(text: &[u8]) -> Option<Argument>
    ensures value { result ≡ specs.argument text.now }
    ensures within { IfSome result (λ found. specs.IsWithin found (length text.now)) }
{
    let blanks = blanks_len(text);
    let rest = &text[blanks..];
    if is_end(rest) {
        None
    } else {
        Some(argument_at(rest, blanks))
    }
}

/// The text of the first argument, or none.
pub(crate) fn first_argument(text: &[u8]) -> &[u8]
    ensures { result.now ≡ specs.first_argument text.now }
{
    match find_argument(text) {
        Some(argument) => &text[argument.start..argument.end],
        None => &text[..0],
    }
}

/// How many digits a text begins with.
fn digits_len(text: &[u8]) -> usize
    ensures value { result ≡ specs.digits_len text.now }
    ensures within { result ≤ length text.now }
{
    text.iter().take_while(|byte| is_digit(**byte)).count()
}

fn is_digit(byte: u8) -> bool
    ensures { result ≡ specs.is_digit byte }
{
    byte >= b'0' && byte <= b'9'
}

/// What digits say, 65535 at most.
fn value_of(digits: &[u8]) -> usize
    ensures { result ≡ specs.value_of 0 digits.now }
{
    let mut number: usize = 0;
    for digit in digits {
        number = (number * 10 + usize::from(digit.saturating_sub(b'0'))).min(65535);
    }
    number
}

/// The number that a text begins with, or another without digits.
pub(crate) fn number_or(text: &[u8], other: usize) -> usize
    ensures { result ≡ specs.number_or other text.now }
{
    let digits = digits_len(text);
    if digits == 0 {
        other
    } else {
        value_of(&text[..digits])
    }
}
