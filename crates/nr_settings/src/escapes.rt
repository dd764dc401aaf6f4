//! Escapes as they are measured, and how far each goes (CSTR 54, summary of escape sequences).
ghost use Rattle.std.specs.Prelude.{◌≡◌, ◌+◌, ◌≤◌, length};
ghost use Rattle.nr_units.specs.Character.{code};
ghost use Rattle.nr_settings.specs.Escapes.{escape_of, len_before, escape_name_len, bracketed, is_sign, sign_len, register_len, delimited_len, delimited, digit_len, size_len};

use crate::registers::is_digit;

/// What an escape is, by the byte after the `\`.
#[derive(Clone, Copy)]
pub(crate) enum Escape {
    /// One cell.
    OneCell,
    /// No cell.
    Nothing,
    /// A comment, to the end.
    Comment,
    /// `\$`, with one more byte.
    Argument,
    /// `\*`, `\f` or `\k`, with a name.
    Named,
    /// `\n`, with a sign or none and a name.
    Register,
    /// `\(`, with the two letters of a special character.
    Pair,
    /// `\[`, with the name of a special character and `]`.
    Bracket,
    /// `\h` or `\l`, with a delimited argument that is measured.
    Motion,
    /// Another escape with a delimited argument, which is no cell.
    Delimited,
    /// `\s`, with a size.
    Size,
    /// Any other: its byte as text.
    Plain,
}

impl Escape {
    /// The escape of this byte; `[` begins a name where long names are on.
    pub(crate) fn of(byte: u8, long: bool) -> Self
        ensures { result ≡ escape_of long byte }
    {
        match byte {
            b'\\' | b'\'' | b' ' | b'e' | b'0' | b'-' | b'.' | b'`' => Escape::OneCell,
            b'\n' | b'&' | b'|' | b'^' | b'!' | b'%' | b'c' | b'd' => Escape::Nothing,
            b'u' | b'r' | b'z' | b'p' | b'a' | b't' | b'{' | b'}' => Escape::Nothing,
            b'"' => Escape::Comment,
            b'$' => Escape::Argument,
            b'*' | b'f' | b'k' => Escape::Named,
            b'n' => Escape::Register,
            b'(' => Escape::Pair,
            b'[' if long => Escape::Bracket,
            b'h' | b'l' => Escape::Motion,
            b'v' | b'x' | b'b' | b'o' | b'L' | b'D' | b'w' => Escape::Delimited,
            b's' => Escape::Size,
            _ => Escape::Plain,
        }
    }
}

/// The number of bytes before the first that is this one.
fn len_before(byte: u8, text: &[u8]) -> usize
    ensures value { result ≡ len_before byte text.now }
    ensures within { result ≤ length text.now }
{
    text.iter().take_while(|b| **b != byte).count()
}

/// The length of a name, with its brackets.
pub(crate) fn escape_name_len(text: &[u8], long: bool) -> usize
    requires { length text.now ≤ 256 }
    ensures value { result ≡ escape_name_len long text.now }
    ensures within { result ≤ length text.now + 2 }
{
    match text.split_first() {
        None => 0,
        Some((b'(', _rest)) => 3,
        Some((b'[', rest)) if long => bracketed_len(rest) + 2,
        Some(_) => 1,
    }
}

/// The number of bytes before a `]`.
pub(crate) fn bracketed_len(text: &[u8]) -> usize
    ensures value { result ≡ len_before (code "]") text.now }
    ensures within { result ≤ length text.now }
{
    len_before(b']', text)
}

/// What stands before a `]`; without one, nothing.
pub(crate) fn bracketed(text: &[u8]) -> &[u8]
    ensures { result.now ≡ bracketed text.now }
{
    let len = bracketed_len(text);
    if len == text.len() {
        return &text[..0];
    }
    &text[..len]
}

fn is_sign(byte: u8) -> bool
    ensures { result ≡ is_sign byte }
{
    byte == b'+' || byte == b'-'
}

/// 1 where a sign stands in front, else 0.
fn sign_len(text: &[u8]) -> usize
    ensures value { result ≡ sign_len text.now }
    ensures within { result ≤ length text.now }
    ensures most { result ≤ 1 }
{
    match text.split_first() {
        Some((first, _rest)) if is_sign(*first) => 1,
        _ => 0,
    }
}

/// The length of a register's sign and name.
pub(crate) fn register_len(text: &[u8], long: bool) -> usize
    requires { length text.now ≤ 256 }
    ensures value { result ≡ register_len long text.now }
    ensures within { result ≤ length text.now + 3 }
{
    let sign = sign_len(text);
    sign + escape_name_len(&text[sign..], long)
}

/// The length of a delimited argument, with its delimiters.
pub(crate) fn delimited_len(text: &[u8]) -> usize
    requires { length text.now ≤ 256 }
    ensures value { result ≡ delimited_len text.now }
    ensures within { result ≤ length text.now + 2 }
{
    match text.split_first() {
        None => 0,
        Some((delimiter, rest)) => len_before(*delimiter, rest) + 2,
    }
}

/// A delimited argument.
pub(crate) fn delimited(text: &[u8]) -> &[u8]
    ensures { result.now ≡ delimited text.now }
{
    match text.split_first() {
        None => text,
        Some((delimiter, rest)) => &rest[..len_before(*delimiter, rest)],
    }
}

/// 1 where a digit stands in front, else 0.
fn digit_len(text: &[u8]) -> usize
    ensures value { result ≡ digit_len text.now }
    ensures most { result ≤ 1 }
{
    match text.split_first() {
        Some((first, _rest)) if is_digit(*first) => 1,
        _ => 0,
    }
}

/// The length of a size.
pub(crate) fn size_len(text: &[u8]) -> usize
    ensures value { result ≡ size_len text.now }
    ensures most { result ≤ 2 }
{
    match text.split_first() {
        None => 0,
        Some((b'+' | b'-' | b'1' | b'2' | b'3', rest)) => 1 + digit_len(rest),
        Some(_) => digit_len(text),
    }
}
