//! The line that reports a bad word.
ghost use Rattle.std.specs.Prelude.{◌≡◌, ◌++◌, OnOk, OnErr};
ghost use Rattle.std.specs.Io.KnownBytes.{Appends};
ghost use Rattle.nr_units.specs.Failures.{put_counted};
ghost use Rattle.nr_units.specs.Sink.{AppendsPrefix};
ghost use Rattle.program_options.specs.Usage.{end_of, prefix_of, goes_on, option_text, usage_text, word_text};

use nr_units::sink::Sink;
use nr_units::source::Fault;

/// How a word is bad.
#[derive(Clone, Copy, PartialEq, Eq, Debug)]
pub enum Case {
    /// Other programs of this kind have the option, and this one has not.
    LeftOut,
    /// There is no such option.
    Unknown,
    /// What stands after the option is no value of it.
    BadValue,
    /// Nothing stands after an option that asks for a value.
    NoValue,
    /// One `-m`, or one `-r` or `-d`, after 32 of its kind.
    TooMany,
}

/// A word that is bad, and how.
#[derive(Clone, Copy)]
pub struct Usage<'a> {
    /// How it is bad.
    pub case: Case,
    /// The word.
    pub word: &'a str,
}

/// Writes the one line that reports a bad word.
///
/// `Fault` where the sink failed; a prefix of the line went out then.
///
/// Proved: The line of a bad word goes out whole, or a prefix of it where the sink failed.
pub fn usage_line<W: Sink>(usage: &Usage<'_>, errors: &mut W) -> Result<(), Fault>
    ensures ok { OnOk result
        (Appends (W.held errors.old) (W.held errors.new) (usage_text usage.now.case usage.now.word.now)) }
    ensures err { OnErr result
        (AppendsPrefix (W.held errors.old) (W.held errors.new)
        (usage_text usage.now.case usage.now.word.now)) }
    ensures failures { W.failures errors.new ≡ put_counted (W.failures errors.old) result }
{
    let word = word_text(usage.case, usage.word.as_bytes());
    put_parts(prefix_of(usage.case), word, end_of(usage.case), errors)
}

/// What stands before the word.
fn prefix_of(case: Case) -> &'static [u8]
    ensures { result.now ≡ prefix_of case }
{
    match case {
        Case::LeftOut => b"nulbiko: option ",
        Case::Unknown => b"nulbiko: unknown option ",
        Case::BadValue => b"nulbiko: bad value in ",
        Case::NoValue => b"nulbiko: no value after ",
        Case::TooMany => b"nulbiko: too many options like ",
    }
}

/// What of the word is shown: of an option of one letter that is not there that alone.
fn word_text(case: Case, word: &[u8]) -> &[u8]
    ensures { result.now ≡ word_text case word.now }
{
    match case {
        Case::LeftOut | Case::Unknown => option_of(word),
        Case::BadValue | Case::NoValue | Case::TooMany => word,
    }
}

/// What stands after it.
fn end_of(case: Case) -> &'static [u8]
    ensures { result.now ≡ end_of case }
{
    match case {
        Case::LeftOut => b" is not in this program\n",
        _ => b"\n",
    }
}

/// A line in three parts.
fn put_parts<W: Sink>(
    prefix: &[u8],
    middle: &[u8],
    back: &[u8],
    errors: &mut W,
) -> Result<(), Fault>
    ensures ok { OnOk result
        (Appends (W.held errors.old) (W.held errors.new) (prefix.now ++ middle.now ++ back.now)) }
    ensures err { OnErr result
        (AppendsPrefix (W.held errors.old) (W.held errors.new) (prefix.now ++ middle.now ++ back.now)) }
    ensures failures { W.failures errors.new ≡ put_counted (W.failures errors.old) result }
{
    errors.put(prefix)?;
    errors.put(middle)?;
    errors.put(back)
}

/// A word that begins with `--`, or the first two characters of another, the first of which is one byte.
fn option_of(word: &[u8]) -> &[u8]
    ensures { result.now ≡ option_text word.now }
{
    if word.len() < 2 || word[1] == b'-' {
        return word;
    }
    let mut len = 2;
    while len < word.len() && goes_on(word[len]) {
        len += 1;
    }
    &word[..len]
}

/// Whether a byte goes on with a character of UTF-8.
fn goes_on(byte: u8) -> bool
    ensures { result ≡ goes_on byte }
{
    128 <= byte && byte <= 191
}
