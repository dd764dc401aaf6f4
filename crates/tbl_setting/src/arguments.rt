//! The arguments of a request outside of tables.
ghost use Rattle.std.specs.Prelude.{◌≡◌, ◌≤◌, length, IfSome, IsTrue};
ghost use Rattle.tbl_setting.specs.Arguments as specs;

use tbl_blocks::{arguments_of, name_of, request_in};

/// The greatest number that is read.
const MOST: usize = 999;

/// How long a word is that a text begins with.
pub(crate) fn argument_len(text: &[u8]) -> usize
    ensures value { result ≡ specs.argument_len text.now }
    ensures within { result ≤ length text.now }
{
    let mut len = 0;
    for byte in text {
        if *byte == b' ' {
            return len;
        }
        len += 1;
    }
    len
}

/// What stands after blanks.
pub(crate) fn after_blanks(text: &[u8]) -> &[u8]
    ensures { result.now ≡ specs.after_blanks text.now }
{
    for (at, byte) in text.iter().enumerate() {
        if *byte != b' ' {
            return &text[at..];
        }
    }
    b""
}

/// The argument of a request after so many others.
pub(crate) fn argument(request: &[u8], place: usize) -> &[u8]
    ensures { result.now ≡ specs.argument request.now place }
{
    let text = after_arguments(request, place);
    &text[..argument_len(text)]
}

/// What stands after so many arguments of a request.
pub(crate) fn after_arguments(request: &[u8], count: usize) -> &[u8]
    ensures { result.now ≡ specs.after_arguments request.now count }
{
    let mut rest = arguments_of(request);
    for _ in 0..count {
        let text = after_blanks(rest);
        rest = &text[argument_len(text)..];
    }
    after_blanks(rest)
}

/// The request after `.if n`, which holds here, or the request itself.
pub(crate) fn accepted(request: &[u8]) -> &[u8]
    ensures { result.now ≡ specs.accepted request.now }
{
    if name_of(request) == b"if".as_slice() && argument(request, 0) == b"n".as_slice() {
        request_in(after_arguments(request, 1))
    } else {
        request
    }
}

/// A number of so many digits, if it has one.
fn number_read(count: usize, number: usize) -> Option<usize>
    ensures { result ≡ specs.number_read count number }
{
    if count == 0 { None } else { Some(number) }
}

/// The number that digits at the beginning of a text write, 999 at most.
pub(crate) fn number_of(text: &[u8]) -> Option<usize>
    ensures { result ≡ specs.number_of text.now }
{
    let mut number: usize = 0;
    for (at, byte) in text.iter().enumerate() {
        if !matches!(*byte, b'0'..=b'9') {
            return number_read(at, number);
        }
        number = (number * 10 + usize::from(*byte - b'0')).min(MOST);
    }
    number_read(text.len(), number)
}

/// Whether the name `ds` stands here, after a point or a blank.
fn defines_here(before: u8, rest: &[u8]) -> bool
    ensures value { result ≡ specs.defines_here before rest.now }
    ensures within { IsTrue result → 3 ≤ length rest.now }
{
    matches!(before, b'.' | b' ') && matches!(rest, [b'd', b's', b' ', ..])
}

/// Where stands what follows the name `ds` in a line that defines a string, after a condition or not.
pub(crate) fn definition_at(line: &[u8]) -> Option<usize>
    ensures value { result ≡ specs.definition_at line.now }
    ensures within { IfSome result (λ place. place ≤ length line.now) }
{
    for (at, before) in line.iter().enumerate() {
        if defines_here(*before, &line[at + 1..]) {
            return Some(at + 4);
        }
    }
    None
}
