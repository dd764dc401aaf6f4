// The words of the command line, and what they ask for.
ghost use Rattle.std.specs.Prelude.{◌≡◌, ◌≢◌, ℕ, ◌<◌, ◌≤◌, List, ◌++◌, IfErr, IfNone, IfOk, IfSome, Result, length};
ghost use Rattle.std.specs.Option.{SomeIff};
ghost use Rattle.std.specs.Str.Parse.{IsNumeral, digits_value};
ghost use Rattle.tbl_command.specs.Arguments.{IsAnswer, Reads, at, prefix_of, is_option, least_of, texts, usual_job, with_setting, with_table, without_fit};

use filters_own::{Named, table_at};

/// The greatest limit that a word may set.
const MOST: u64 = 1_048_576;

/// The least limit on a row that a word may set.
const LEAST_ROW: u64 = 64;

/// The limits where no word sets them.
const USUAL_FORMATS: usize = 262_144;

const USUAL_ROW: usize = 16_384;

/// The line's length where no word sets it: that of nroff.
const USUAL_LINE: usize = 65;

/// What the words ask for.
#[derive(Clone, Copy)]
pub struct Job {
    /// The limit on the bytes of a table's options and formats.
    pub formats: usize,
    /// The limit on the bytes of a row's fields.
    pub row: usize,
    /// The length of the line, in n.
    pub line: usize,
    /// Tables of manual pages that are wider than the line are narrowed.
    pub fits: bool,
    /// What bytes from 128 on stand for, if anything.
    pub characters: Option<Named>,
    /// The place of the first file among the words: there may be none.
    pub files: usize,
}

/// What is wrong with a word.
#[derive(Clone, Copy)]
pub enum Wrong {
    /// It is no option.
    Unknown,
    /// It has no number, or one out of range.
    BadValue,
    /// It is no table.
    UnknownTable,
    /// No word stands after it that names a table.
    NoTable,
}

/// A word that can't be taken, by its place.
#[derive(Clone, Copy)]
pub struct BadWord {
    /// Its place among the words.
    pub place: usize,
    /// What is wrong with it.
    pub wrong: Wrong,
}

/// What a word sets.
#[derive(Clone, Copy)]
enum Which {
    /// That on options and formats.
    Formats,
    /// That on a row.
    Row,
    /// The length of the line.
    Line,
}

/// A number that a word sets.
#[derive(Clone, Copy)]
struct Setting {
    which: Which,
    limit: usize,
}

impl Which {
    /// The least number that may be set.
    fn least(self) -> u64
        ensures { result ≡ least_of self }
    {
        match self {
            Which::Formats | Which::Line => 1,
            Which::Row => LEAST_ROW,
        }
    }
}

/// Whether a word is an option: it begins with `-` and isn't `-` alone.
fn is_option(word: &str) -> bool
    ensures { result ≡ is_option word.now }
{
    let bytes = word.as_bytes();
    bytes.len() > 1 && bytes[0] == b'-'
}

/// What an option sets, and what stands after its prefix: `-LtN`, `-LrN` or `-lN`.
fn split_option(word: &str) -> Option<(Which, &str)>
    ensures found { IfSome result (λ parts. word.now ≡ prefix_of parts.0 ++ parts.1.now) }
    ensures none { IfNone result ((which : Which) (rest : List ℕ) → word.now ≢ prefix_of which ++ rest) }
{
    if let Some(digits) = word.strip_prefix("-Lt") {
        Some((Which::Formats, digits))
    } else if let Some(digits) = word.strip_prefix("-Lr") {
        Some((Which::Row, digits))
    } else {
        let digits = word.strip_prefix("-l")?;
        Some((Which::Line, digits))
    }
}

/// The number that decimal digits write, if it lies between the two. A sign isn't allowed.
fn read_limit(digits: &str, least: u64) -> Option<usize>
    ensures { SomeIff result (IsNumeral 10 digits.now × (least ≤ digits_value 10 digits.now)
        × (digits_value 10 digits.now ≤ 1048576)) (digits_value 10 digits.now) }
{
    if digits.starts_with('+') {
        return None;
    }
    let number = digits.parse::<u64>().ok()?;
    if least <= number && number <= MOST {
        Some(number as usize)
    } else {
        None
    }
}

/// Reads an option.
fn read_option(word: &str) -> Result<Setting, Wrong>
    ensures { Reads word.now result }
{
    let Some((which, digits)) = split_option(word) else {
        if word.starts_with("-L") {
            return Err(Wrong::BadValue);
        }
        return Err(Wrong::Unknown);
    };
    match read_limit(digits, which.least()) {
        Some(limit) => Ok(Setting { which, limit }),
        None => Err(Wrong::BadValue),
    }
}

impl Job {
    /// What is asked for where no word sets it.
    fn usual() -> Job
        ensures { result ≡ usual_job }
    {
        Job {
            formats: USUAL_FORMATS,
            row: USUAL_ROW,
            line: USUAL_LINE,
            fits: true,
            characters: None,
            files: 0,
        }
    }

    /// With a table of characters.
    fn with_table(self, table: Named) -> Job
        ensures { result ≡ with_table table self }
    {
        Job {
            characters: Some(table),
            ..self
        }
    }

    /// Tables stay as wide as they are.
    fn without_fit(self) -> Job
        ensures { result ≡ without_fit self }
    {
        Job {
            fits: false,
            ..self
        }
    }

    /// With the place of the first file.
    fn at(self, place: usize) -> Job
        ensures { result ≡ at place self }
    {
        Job {
            files: place,
            ..self
        }
    }

    /// With a number set.
    fn with(self, setting: Setting) -> Job
        ensures { result ≡ with_setting setting self }
    {
        match setting.which {
            Which::Formats => Job {
                formats: setting.limit,
                ..self
            },
            Which::Row => Job {
                row: setting.limit,
                ..self
            },
            Which::Line => Job {
                line: setting.limit,
                ..self
            },
        }
    }
}

/// Reads the words: options up to the first file, the last of each counts. The first that can't be taken is
/// reported by its place.
///
/// Proved: The words of tbl come to the one answer that the definition allows: limits in their ranges, the line's
/// length, the table of characters and the place of the first file, or the place of the first bad word and how it is
/// bad.
pub fn read_words(words: &[&str]) -> Result<Job, BadWord>
    ensures answer { IsAnswer (texts words.now) result }

    // There is no other answer.
    ensures only { (answer : Result Job BadWord) → IsAnswer (texts words.now) answer → answer ≡ result }
    ensures files { IfOk result (λ job. job.files ≤ length words.now) }
    ensures limits { IfOk result (λ job. (job.formats ≤ 1048576) × (job.row ≤ 1048576)) }
    ensures bad { IfErr result (λ bad. bad.place < length words.now) }
{
    let mut job = Job::usual();
    let mut awaits = false;
    for (place, word) in words.iter().enumerate() {
        if awaits {
            let Some(table) = table_at(word, place) else {
                return Err(BadWord {
                    place,
                    wrong: Wrong::UnknownTable,
                });
            };
            job = job.with_table(table);
            awaits = false;
        } else if !is_option(word) {
            return Ok(job.at(place));
        } else if word.as_bytes() == b"-u".as_slice() {
            awaits = true;
        } else if word.as_bytes() == b"-n".as_slice() {
            job = job.without_fit();
        } else {
            match read_option(word) {
                Ok(setting) => job = job.with(setting),
                Err(wrong) => return Err(BadWord { place, wrong }),
            }
        }
    }
    if awaits {
        return Err(BadWord {
            place: words.len() - 1,
            wrong: Wrong::NoTable,
        });
    }
    Ok(job.at(words.len()))
}
