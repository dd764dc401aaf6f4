// The words of the command line, and what they ask for.
ghost use Rattle.std.specs.Prelude.{◌≡◌, length};
ghost use Rattle.filters.specs.Arguments.{texts};
ghost use Rattle.preconv_command.specs.Arguments.{IsWithin, asked};

use filters::is_option;
use filters_own::{Named, table_at};
use utf8_characters::FixedTable;

/// What the words ask for.
#[derive(Clone, Copy)]
pub struct Job {
    /// What bytes from 128 on stand for, if anything.
    pub table: Option<Named>,
    /// The place of the first file among the words: there may be none.
    pub files: usize,
}

/// What is wrong with a word.
#[derive(Clone, Copy)]
pub enum Wrong {
    /// The word at this place is no option.
    UnknownOption(usize),
    /// The word at this place is no table.
    UnknownTable(usize),
    /// No word stands after the last, which is `-u`.
    NoTable,
}

/// Reads the words: options up to the first file, of which the last that names a table counts.
///
/// Proved: The words of preconv come to the answer of the definition: the last table that an option names and the
/// place of the first file, or what is wrong with the first bad word, and its place.
pub fn read_words(words: &[&str]) -> Result<Job, Wrong>
    ensures answer { result ≡ asked (texts words.now) }
    ensures within { IsWithin (length words.now) result }
{
    let mut table = None;
    let mut awaits = false;
    for (place, word) in words.iter().enumerate() {
        let bytes = word.as_bytes();
        if awaits {
            match table_at(word, place) {
                Some(named) => table = Some(named),
                None => return Err(Wrong::UnknownTable(place)),
            }
            awaits = false;
        } else if !is_option(word) {
            return Ok(Job {
                table,
                files: place,
            });
        } else if bytes == b"-8".as_slice() {
            table = Some(Named::Fixed(FixedTable::Latin1));
        } else if bytes == b"-u".as_slice() {
            awaits = true;
        } else {
            return Err(Wrong::UnknownOption(place));
        }
    }
    if awaits {
        return Err(Wrong::NoTable);
    }
    Ok(Job {
        table,
        files: words.len(),
    })
}
