//! What a line names, and which names lead nowhere but down.
ghost use Rattle.std.specs.Prelude.{◌≡◌, ◌≤◌, drop, length};
ghost use Rattle.std.specs.List.{prefix_len};
ghost use Rattle.std.specs.Option.{option_copied};
ghost use Rattle.document_sources.specs.Names.{first_word, is_blank, is_inner, is_proper, is_word_byte, name_in, so_name};

/// Whether a byte is a blank or a tab.
fn is_blank(byte: u8) -> bool
    ensures { result ≡ is_blank byte }
{
    byte == b' ' || byte == b'\t'
}

/// The name that a line `.so NAME` gives (groff(7), "so").
///
/// Proved: A line names a text exactly where it is a point or an apostrophe, blanks, `so`, blanks, and the name, which
/// ends at a blank or with the line.
pub fn so_name(line: &[u8]) -> Option<&[u8]>
    ensures { option_copied result ≡ so_name line.now }
{
    match line {
        [control, rest @ ..] if *control == b'.' || *control == b'\'' => {
            name_in(after_blanks(rest))
        }
        _ => None,
    }
}

/// The name that follows `so`.
fn name_in(text: &[u8]) -> Option<&[u8]>
    ensures { option_copied result ≡ name_in text.now }
{
    match text {
        [first, second, third, rest @ ..]
            if *first == b's' && *second == b'o' && is_blank(*third) => {
            first_word(after_blanks(rest))
        }
        _ => None,
    }
}

/// The word that comes first, if one does.
fn first_word(text: &[u8]) -> Option<&[u8]>
    ensures { option_copied result ≡ first_word text.now }
{
    let count = word_len(text);
    if count == 0 {
        return None;
    }
    Some(&text[..count])
}

/// How many bytes the word has that comes first.
fn word_len(text: &[u8]) -> usize
    ensures count { result ≡ prefix_len is_word_byte text.now }
    ensures within { result ≤ length text.now }
{
    for (at, byte) in text.iter().enumerate() {
        if *byte == b' ' || *byte == b'\t' || *byte == b'\n' {
            return at;
        }
    }
    text.len()
}

/// What stands after the blanks and tabs that come first.
fn after_blanks(text: &[u8]) -> &[u8]
    ensures { result.now ≡ drop (prefix_len is_blank text.now) text.now }
{
    &text[blanks(text)..]
}

/// How many blanks and tabs stand first.
fn blanks(text: &[u8]) -> usize
    ensures count { result ≡ prefix_len is_blank text.now }
    ensures within { result ≤ length text.now }
{
    for (at, byte) in text.iter().enumerate() {
        if *byte != b' ' && *byte != b'\t' {
            return at;
        }
    }
    text.len()
}

/// Whether a part of a path is neither empty nor `..`.
fn is_proper(part: &[u8]) -> bool
    ensures { result ≡ is_proper part.now }
{
    match part {
        [] => false,
        [first, second] => *first != b'.' || *second != b'.',
        _ => true,
    }
}

/// Whether a path leads nowhere but down: none of its parts is empty or `..`.
///
/// Proved: A path leads nowhere but down exactly where none of its parts is empty or `..`.
pub fn is_inner(path: &[u8]) -> bool
    ensures { result ≡ is_inner path.now }
{
    let mut start = 0;
    for at in 0..path.len() {
        if path[at] == b'/' {
            if !is_proper(&path[start..at]) {
                return false;
            }
            start = at + 1;
        }
    }
    is_proper(&path[start..])
}
