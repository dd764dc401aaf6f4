// The words of the command line, and what they ask for.
ghost use Rattle.std.specs.Prelude.{◌≡◌, ◌<◌, ◌≤◌, IfOk, length};
ghost use Rattle.filters.specs.Arguments.{texts};
ghost use Rattle.utf8_command.specs.Arguments.{IsWithin, asked, choice_asked, is_option, table_asked};

use filters_own::{Named, table_at};

/// What the words ask for.
#[derive(Clone, Copy)]
pub enum Job {
    /// Files are turned.
    Turn {
        /// What bytes from 128 on are.
        table: Named,
        /// Underlined text stands between escape sequences.
        escapes: bool,
        /// The place of the first file among the words: there may be none.
        files: usize,
    },
    /// A table is chosen for the file after the first word, if there is one.
    Choose,
    /// The version is printed.
    Version,
}

/// What is wrong with the words.
#[derive(Clone, Copy)]
pub enum Wrong {
    /// The word at this place is no option.
    UnknownOption(usize),
    /// The word at this place is no table.
    UnknownTable(usize),
    /// No word names a table.
    NoTable,
    /// A table is to be chosen for several files.
    SeveralFiles,
}

/// Whether a word is an option: it begins with `-`.
fn is_option(word: &str) -> bool
    ensures { result ≡ is_option word.now }
{
    let bytes = word.as_bytes();
    bytes.len() > 0 && bytes[0] == b'-'
}

/// Reads the words from the table's on, at this place.
fn read_table(words: &[&str], at: usize, escapes: bool) -> Result<Job, Wrong>
    requires { at ≤ length words.now }
    ensures answer { result ≡ table_asked escapes at (texts words.now) }
    ensures within { IsWithin (length words.now) result }
{
    if at == words.len() {
        return Err(Wrong::NoTable);
    }
    let word = words[at];
    match table_at(word, at) {
        Some(table) => Ok(Job::Turn {
            table,
            escapes,
            files: at + 1,
        }),
        None if is_option(word) => Err(Wrong::UnknownOption(at)),
        None => Err(Wrong::UnknownTable(at)),
    }
}

/// Reads the words after `--choose`: one file at most.
fn read_choice(words: &[&str]) -> Result<Job, Wrong>
    requires { 0 < length words.now }
    ensures answer { result ≡ choice_asked (texts words.now) }
    ensures within { IsWithin (length words.now) result }
{
    if words.len() > 2 {
        return Err(Wrong::SeveralFiles);
    }
    Ok(Job::Choose)
}

/// Reads the words: `--version`; `--choose` and a file or none; or `-c` or not, the name of a table, and files.
///
/// Proved: The words of utf8 come to one job, or to the first thing that is wrong with them.
pub fn read_words(words: &[&str]) -> Result<Job, Wrong>
    ensures answer { result ≡ asked (texts words.now) }
    ensures within { IsWithin (length words.now) result }
{
    if words.is_empty() {
        return Err(Wrong::NoTable);
    }
    let first = words[0].as_bytes();
    if first == b"--version".as_slice() {
        return Ok(Job::Version);
    }
    if first == b"--choose".as_slice() {
        return read_choice(words);
    }
    if first == b"-c".as_slice() {
        return read_table(words, 1, true);
    }
    read_table(words, 0, false)
}
