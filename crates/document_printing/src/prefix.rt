//! The first bytes of a page are looked at before it is read.
ghost use Rattle.std.specs.Prelude.{◌≡◌, ◌≤◌, drop, length};
ghost use Rattle.document_printing.specs.Tables.{begins_table, has_tables, table_at};

use document_stages::Joined;

/// The first bytes of a source, which were read, and then the others.
pub type Prefixed<'a, R> = Joined<'a, R>;

/// Whether a line begins with `.TS`.
fn begins_table(line: &[u8]) -> bool
    ensures { result ≡ begins_table line.now }
{
    match line {
        [point, first, second, ..] => *point == b'.' && *first == b'T' && *second == b'S',
        _ => false,
    }
}

/// The same of the line that begins at a place, if one begins there.
fn table_at(page: &[u8], at: usize, begins: bool) -> bool
    requires { at ≤ length page.now }
    ensures { result ≡ table_at begins (drop at page.now) }
{
    begins && begins_table(&page[at..])
}

/// Whether a line of these bytes begins with `.TS`.
///
/// Proved: A page has tables exactly where one of its lines begins with `.TS`. (`has_tables`)
pub fn has_tables(page: &[u8]) -> bool
    ensures { result ≡ has_tables page.now }
{
    let mut begins = true;
    for (at, byte) in page.iter().enumerate() {
        if table_at(page, at, begins) {
            return true;
        }
        begins = *byte == b'\n';
    }
    false
}
