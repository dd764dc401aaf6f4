//! What requests between rows and lines of blocks change.

ghost use Rattle.std.specs.Prelude.{◌≡◌, ◌≤◌};
ghost use Rattle.tbl_table.specs.Requests as specs;

use tbl_blocks::{after_blanks, is_request, name_of, request_in, request_name};

/// The most lines that `.sp` gives.
const MOST_SPACE: usize = 10_000;

/// Whether a name is this one of two letters.
fn is_one(name: &[u8], first: u8, second: u8) -> bool
    ensures { result ≡ specs.is_one name.now first second }
{
    name.len() == 2 && name[0] == first && name[1] == second
}

/// Whether a name is that of a request that defines something.
fn is_definition(name: &[u8]) -> bool
    ensures { result ≡ specs.is_definition name.now }
{
    is_one(name, b'd', b's')
        || is_one(name, b'a', b's')
        || is_one(name, b'n', b'r')
        || is_one(name, b'r', b'r')
        || is_one(name, b'r', b'm')
        || is_one(name, b'a', b'f')
}

/// Whether a request defines something.
pub fn defines(line: &[u8]) -> bool
    ensures { result ≡ specs.defines line.now }
{
    is_request(line) && is_definition(request_name(line))
}

/// Whether two letters begin the name of a request that leaves filling and indent.
fn is_harmless_pair(first: u8, second: u8) -> bool
    ensures { result ≡ specs.is_harmless_pair first second }
{
    matches!(
        (first, second),
        (b's', b'p')
            | (b'b', b'r')
            | (b'f', b't')
            | (b'p', b's')
            | (b'v', b's')
            | (b'd', b's')
            | (b'n', b'r')
            | (b'a', b's')
            | (b'r', b'r')
            | (b'r', b'm')
            | (b'n', b'e')
            | (b'n', b's')
            | (b'r', b's')
            | (b'a', b'f')
    )
}

/// Whether a text is a comment.
fn is_comment(text: &[u8]) -> bool
    ensures { result ≡ specs.is_comment text.now }
{
    text.len() >= 2 && text[0] == b'\\' && text[1] == b'"'
}

/// Whether a name leaves filling and indent, or a comment where no name is.
fn is_harmless_name(name: &[u8], text: &[u8]) -> bool
    ensures { result ≡ specs.is_harmless_name name.now text.now }
{
    if name.is_empty() {
        return is_comment(text);
    }
    if name.len() == 1 {
        return name[0] == b'B' || name[0] == b'I';
    }
    is_harmless_pair(name[0], name[1])
}

/// Whether what stands after a control character leaves filling and indent.
fn leaves_filling(text: &[u8]) -> bool
    ensures { result ≡ specs.leaves_filling text.now }
{
    text.is_empty() || is_harmless_name(name_of(text), text)
}

/// Whether a request leaves filling and indent.
pub fn is_harmless(line: &[u8]) -> bool
    ensures { result ≡ specs.is_harmless line.now }
{
    is_request(line) && leaves_filling(request_in(line))
}

/// So many lines, if only blanks stand there.
fn if_blank(lines: usize, text: &[u8]) -> Option<usize>
    ensures { result ≡ specs.if_blank lines text.now }
{
    if after_blanks(text).is_empty() {
        Some(lines)
    } else {
        None
    }
}

/// What stands after `v`, if it begins with that.
fn after_v(text: &[u8]) -> &[u8]
    ensures { result.now ≡ specs.after_v text.now }
{
    if text.is_empty() || text[0] != b'v' {
        return text;
    }
    &text[1..]
}

/// What stands after digits.
fn after_digits(text: &[u8]) -> &[u8]
    ensures { result.now ≡ specs.after_digits text.now }
{
    for (at, byte) in text.iter().enumerate() {
        if !matches!(*byte, b'0'..=b'9') {
            return &text[at..];
        }
    }
    b""
}

/// Whether a fraction is half at least.
fn is_half(text: &[u8]) -> bool
    ensures { result ≡ specs.is_half text.now }
{
    !text.is_empty() && matches!(text[0], b'5'..=b'9')
}

/// So many lines, and a fraction of one.
fn rounded(lines: usize, text: &[u8]) -> Option<usize>
    requires { lines ≤ 10000 }
    ensures { result ≡ specs.rounded lines text.now }
{
    let whole = if is_half(text) {
        (lines + 1).min(MOST_SPACE)
    } else {
        lines
    };
    if_blank(whole, after_v(after_digits(text)))
}

/// The lines that a number asks for, after which only blanks may stand.
fn lines_in(text: &[u8]) -> Option<usize>
    ensures { result ≡ specs.lines_in text.now }
{
    let mut lines: usize = 0;
    for (at, byte) in text.iter().enumerate() {
        match *byte {
            b'0'..=b'9' => {
                let digit = usize::from(byte.saturating_sub(b'0'));
                lines = lines
                    .saturating_mul(10)
                    .saturating_add(digit)
                    .min(MOST_SPACE);
            }
            b'.' => return rounded(lines, &text[at + 1..]),
            _ => return if_blank(lines, after_v(&text[at..])),
        }
    }
    Some(lines)
}

/// How many lines a request of space asks for by this text after its name.
fn lines_asked(text: &[u8]) -> Option<usize>
    ensures { result ≡ specs.lines_asked text.now }
{
    if text.is_empty() {
        Some(1)
    } else {
        lines_in(text)
    }
}

/// How many lines a text asks for that may be a request of space.
fn space_in(text: &[u8]) -> Option<usize>
    ensures { result ≡ specs.space_in text.now }
{
    if text.len() < 2 || text[0] != b's' || text[1] != b'p' {
        return None;
    }
    lines_asked(after_blanks(&text[2..]))
}

/// How many lines such a line asks for.
fn space_asked(line: &[u8]) -> Option<usize>
    ensures { result ≡ specs.space_asked line.now }
{
    if is_request(line) {
        space_in(request_in(line))
    } else {
        None
    }
}

/// What stands after the condition `n`, or nothing.
fn after_n(text: &[u8]) -> &[u8]
    ensures { result.now ≡ specs.after_n text.now }
{
    if text.is_empty() || text[0] != b'n' {
        return b"";
    }
    after_blanks(&text[1..])
}

/// What stands after `if n`, or nothing.
fn after_if(text: &[u8]) -> &[u8]
    ensures { result.now ≡ specs.after_if text.now }
{
    if text.len() < 2 || text[0] != b'i' || text[1] != b'f' {
        return b"";
    }
    after_n(after_blanks(&text[2..]))
}

/// The request that a line asks for where `.if n` stands before it, or the line.
fn line_asked(line: &[u8]) -> &[u8]
    ensures { result.now ≡ specs.line_asked line.now }
{
    let asked = after_if(request_in(line));
    if is_request(asked) { asked } else { line }
}

/// How many lines a request of space asks for, if it is one of whole lines.
pub fn space_of(line: &[u8]) -> Option<usize>
    ensures { result ≡ specs.space_of line.now }
{
    if is_request(line) {
        space_asked(line_asked(line))
    } else {
        None
    }
}

/// Whether a backslash and this byte stand there.
fn has_brace(text: &[u8], brace: u8) -> bool
    ensures { result ≡ specs.has_brace brace text.now }
{
    for (at, byte) in text.iter().enumerate() {
        let rest = &text[at + 1..];
        if *byte == b'\\' && !rest.is_empty() && rest[0] == brace {
            return true;
        }
    }
    false
}

/// Whether a condition always holds.
fn always_holds(line: &[u8]) -> bool
    ensures { result ≡ specs.always_holds line.now }
{
    !after_if(request_in(line)).is_empty()
}

/// How many conditions over several lines are open after a request, of which so many were before it.
pub fn open_after(line: &[u8], before: usize) -> usize
    ensures { result ≡ specs.open_after line.now before }
{
    match (has_brace(line, b'{'), has_brace(line, b'}')) {
        (true, true) | (false, false) => before,
        (false, true) => before.saturating_sub(1),
        (true, false) if before == 0 && always_holds(line) => 0,
        (true, false) => before.saturating_add(1).min(MOST_SPACE),
    }
}
