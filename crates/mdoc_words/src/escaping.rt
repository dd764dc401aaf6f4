//! How far an escape has been read: no hyphen of its name or argument is one of the text.
ghost use Rattle.std.specs.Prelude.{◌≡◌};
ghost use Rattle.mdoc_words.specs.Escaping as specs;

use mdoc_layout::Escape;

/// A letter after which a name comes.
fn takes_name(byte: u8) -> bool
    ensures { result ≡ specs.takes_name byte }
{
    matches!(
        byte,
        b'*' | b'n' | b'f' | b's' | b'g' | b'k' | b'F' | b'm' | b'M' | b'V' | b'Y'
    )
}

/// A letter after which an argument comes, between two marks.
fn takes_argument(byte: u8) -> bool
    ensures { result ≡ specs.takes_argument byte }
{
    matches!(
        byte,
        b'h' | b'v'
            | b'w'
            | b'o'
            | b'b'
            | b'l'
            | b'L'
            | b'D'
            | b'N'
            | b'x'
            | b'X'
            | b'Z'
            | b'A'
            | b'B'
            | b'C'
            | b'H'
            | b'R'
            | b'S'
    )
}

/// After a backslash.
fn begun_then(byte: u8) -> Option<Escape>
    ensures { result ≡ specs.begun_then byte }
{
    match byte {
        b'(' => Some(Escape::Two),
        b'[' => Some(Escape::Bracketed),
        _ if takes_name(byte) => Some(Escape::Named),
        _ if takes_argument(byte) => Some(Escape::Opens),
        _ => None,
    }
}

/// Where a name comes: before it a sign may stand, as of `\n+x` and `\s-2`.
fn named_then(byte: u8) -> Option<Escape>
    ensures { result ≡ specs.named_then byte }
{
    match byte {
        b'(' => Some(Escape::Two),
        b'[' => Some(Escape::Bracketed),
        b'\'' => Some(Escape::Delimited(byte)),
        b'+' | b'-' => Some(Escape::Named),
        _ => None,
    }
}

/// After one more byte; none where the escape has ended.
pub fn escape_then(escape: Escape, byte: u8) -> Option<Escape>
    ensures { result ≡ specs.escape_then escape byte }
{
    match escape {
        Escape::Begun => begun_then(byte),
        Escape::Named => named_then(byte),
        Escape::Two => Some(Escape::One),
        Escape::One => None,
        Escape::Bracketed if byte == b']' => None,
        Escape::Bracketed => Some(Escape::Bracketed),
        Escape::Opens => Some(Escape::Delimited(byte)),
        Escape::Delimited(mark) if byte == mark => None,
        Escape::Delimited(mark) => Some(Escape::Delimited(mark)),
    }
}
