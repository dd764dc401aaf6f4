//! The names of tables.
ghost use Rattle.std.specs.Prelude.{◌≡◌};
ghost use Rattle.filters.specs.Arguments.{texts};
ghost use Rattle.filters_own.specs.Names as specs;

use utf8_characters::FixedTable;

/// How the name of a page's own table begins.
const OWN: &[u8] = b"own:";

/// A table that a word names.
#[derive(Clone, Copy, Debug, PartialEq, Eq)]
pub enum Named {
    /// A fixed one.
    Fixed(FixedTable),
    /// That of the characters of a file, which the word at this place names.
    Own(usize),
}

/// The table that the word at a place names: `own:` and a file, or a fixed one.
///
/// Proved: `own:FILE` names the table of what the file prints, and any other word a fixed table by its name, or none.
/// (`table_at`)
pub fn table_at(word: &str, place: usize) -> Option<Named>
    ensures { result ≡ specs.table_at place word.now }
{
    if word.as_bytes().starts_with(OWN) {
        return Some(Named::Own(place));
    }
    match FixedTable::named(word) {
        Some(table) => Some(Named::Fixed(table)),
        None => None,
    }
}

/// The file that a name has after `own:`.
fn file_of(name: &str) -> &str
    ensures { result.now ≡ specs.file_of name.now }
{
    match name.strip_prefix("own:") {
        Some(file) => file,
        None => name,
    }
}

/// The file that the word at a place names after `own:`.
pub fn file_at<'a>(words: &[&'a str], place: usize) -> &'a str
    ensures { result.now ≡ specs.file_at (texts words.now) place }
{
    match words.get(place) {
        Some(word) => file_of(word),
        None => "",
    }
}
