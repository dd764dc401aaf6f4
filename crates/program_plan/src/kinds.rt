//! What macros a text asks for that no word names.
ghost use Rattle.std.specs.Prelude.{◌≡◌, ◌≤◌, drop, length};
ghost use Rattle.std.specs.List.{prefix_len};
ghost use Rattle.program_plan.specs.Kinds.{is_blank, is_end, is_manual, kind_at, kind_named, line_kind};

/// What a line says of a text.
#[derive(Clone, Copy, PartialEq, Eq)]
enum LineKind {
    /// The title of a manual page: `.TH` or `.Dd`.
    Manual,
    /// The beginning of a table, `.TS`: a `.TH` after it ends the table's head.
    Table,
    /// Neither.
    Other,
}

/// Whether a text asks for the macros of manual pages: of the lines `.TH`, `.Dd` and `.TS` in it the first is one of
/// the first two (man(7), "MACRO OVERVIEW"; mdoc(7), "MANUAL STRUCTURE").
///
/// Proved: A text is a manual page exactly where of its lines `.TH`, `.Dd` and `.TS` the first is one of the first
/// two.
pub fn is_manual(text: &[u8]) -> bool
    ensures { result ≡ is_manual text.now }
{
    let mut begins = true;
    for (at, byte) in text.iter().enumerate() {
        match kind_at(text, at, begins) {
            LineKind::Manual => return true,
            LineKind::Table => return false,
            LineKind::Other => {}
        }
        begins = *byte == b'\n';
    }
    false
}

/// What a line says that begins at a place, if one begins there.
fn kind_at(text: &[u8], at: usize, begins: bool) -> LineKind
    requires { at ≤ length text.now }
    ensures { result ≡ kind_at begins (drop at text.now) }
{
    if begins {
        line_kind(&text[at..])
    } else {
        LineKind::Other
    }
}

/// What the line says that these bytes begin with.
fn line_kind(line: &[u8]) -> LineKind
    ensures { result ≡ line_kind line.now }
{
    match line {
        [control, rest @ ..] if *control == b'.' || *control == b'\'' => {
            kind_named(after_blanks(rest))
        }
        _ => LineKind::Other,
    }
}

/// What stands after the blanks and tabs that come first.
pub(crate) fn after_blanks(text: &[u8]) -> &[u8]
    ensures { result.now ≡ drop (prefix_len is_blank text.now) text.now }
{
    &text[blanks(text)..]
}

/// How many blanks and tabs stand first.
fn blanks(text: &[u8]) -> usize
    ensures count { result ≡ prefix_len is_blank text.now }
    ensures within { result ≤ length text.now }
{
    for (at, byte) in text.iter().enumerate() {
        if *byte != b' ' && *byte != b'\t' {
            return at;
        }
    }
    text.len()
}

/// What the name says that stands first, of two letters.
fn kind_named(text: &[u8]) -> LineKind
    ensures { result ≡ kind_named text.now }
{
    match text {
        [first, second, rest @ ..] if ends(rest) => {
            if (*first == b'T' && *second == b'H') || (*first == b'D' && *second == b'd') {
                LineKind::Manual
            } else if *first == b'T' && *second == b'S' {
                LineKind::Table
            } else {
                LineKind::Other
            }
        }
        _ => LineKind::Other,
    }
}

/// Whether a name ends before these bytes.
pub(crate) fn ends(rest: &[u8]) -> bool
    ensures { result ≡ is_end rest.now }
{
    match rest {
        [] => true,
        [byte, ..] => *byte == b' ' || *byte == b'\t' || *byte == b'\n',
    }
}
