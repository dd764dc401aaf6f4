//! Whether a text asks for programs that are not in this one.
ghost use Rattle.std.specs.Prelude.{◌≡◌, ◌≤◌, drop, length};
ghost use Rattle.program_plan.specs.Others.{asks_at, asks_for_others, is_other_line, is_other_name};

use crate::kinds::{after_blanks, ends};

/// Whether a line of a text asks for another program: `.so` for another file, `.EQ` for eqn and `.PS` for pic.
///
/// Proved: A text asks for other programs exactly where one of its lines is `.so`, `.EQ` or `.PS`.
pub fn asks_for_others(text: &[u8]) -> bool
    ensures { result ≡ asks_for_others text.now }
{
    let mut begins = true;
    for (at, byte) in text.iter().enumerate() {
        if asks_at(text, at, begins) {
            return true;
        }
        begins = *byte == b'\n';
    }
    false
}

/// Whether a line asks for one that begins at a place, if one begins there.
fn asks_at(text: &[u8], at: usize, begins: bool) -> bool
    requires { at ≤ length text.now }
    ensures { result ≡ asks_at begins (drop at text.now) }
{
    begins && is_other_line(&text[at..])
}

/// Whether the line asks for one that these bytes begin with.
fn is_other_line(line: &[u8]) -> bool
    ensures { result ≡ is_other_line line.now }
{
    match line {
        [control, rest @ ..] if *control == b'.' || *control == b'\'' => {
            is_other_name(after_blanks(rest))
        }
        _ => false,
    }
}

/// Whether the name that stands first, of two letters, is one of those.
fn is_other_name(text: &[u8]) -> bool
    ensures { result ≡ is_other_name text.now }
{
    match text {
        [first, second, rest @ ..] if ends(rest) => {
            (*first == b's' && *second == b'o')
                || (*first == b'E' && *second == b'Q')
                || (*first == b'P' && *second == b'S')
        }
        _ => false,
    }
}
