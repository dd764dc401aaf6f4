//! What is wrong with a word of the command line.
ghost use Rattle.std.specs.Prelude.{◌≡◌, ◌++◌, OnOk, OnErr};
ghost use Rattle.std.specs.Io.KnownBytes.{Appends};
ghost use Rattle.nr_units.specs.Failures.{put_counted};
ghost use Rattle.nr_units.specs.Sink.{AppendsPrefix};
ghost use Rattle.nr_command_options.specs.Usage.{goes_on, option_text, usage_text};

use nr_page::page::WriteFault;
use nr_units::sink::Sink;
use nr_units::source::Fault;

/// How a word is bad.
#[derive(Clone, Copy)]
pub enum Case {
    /// The option's letter is one of `T`, `s`, `q`, `e`, `h` and `z`: other programs of this name have it.
    LeftOut,
    /// No option has this letter.
    Unknown,
    /// The option is known, and what stands after its letter is no value of it.
    BadValue,
    /// One `-r` or `-m` after 32 of its kind.
    TooMany,
}

/// A word that is bad, and how.
#[derive(Clone, Copy)]
pub struct Usage<'a> {
    /// How it is bad.
    pub case: Case,
    /// The word.
    pub word: &'a str,
}

impl Usage<'_> {
    /// The status of the program where a word is bad.
    pub fn status(&self) -> u8
        ensures { result ≡ 2 }
    {
        2
    }
}

/// Writes the one line that reports a bad word.
///
/// `WriteFault` where the sink failed; a prefix of the line went out then.
///
/// Proved: The line of a bad word goes out whole, or a prefix of it where the sink failed, and its status is 2.
/// (`usage_line`, `Usage::status`)
pub fn usage_line<W: Sink>(usage: &Usage<'_>, errors: &mut W) -> Result<(), WriteFault>
    ensures ok { OnOk result
        (Appends (W.held errors.old) (W.held errors.new) (usage_text usage.now.case usage.now.word.now)) }
    ensures err { OnErr result
        (AppendsPrefix (W.held errors.old) (W.held errors.new)
        (usage_text usage.now.case usage.now.word.now)) }
    ensures failures { W.failures errors.new ≡ put_counted (W.failures errors.old) result }
{
    match put_usage(usage.case, usage.word.as_bytes(), errors) {
        Ok(()) => Ok(()),
        Err(Fault) => Err(WriteFault),
    }
}

/// The same, with the sink's own error.
fn put_usage<W: Sink>(case: Case, word: &[u8], errors: &mut W) -> Result<(), Fault>
    ensures ok { OnOk result (Appends (W.held errors.old) (W.held errors.new) (usage_text case word.now)) }
    ensures err { OnErr result
        (AppendsPrefix (W.held errors.old) (W.held errors.new) (usage_text case word.now)) }
    ensures failures { W.failures errors.new ≡ put_counted (W.failures errors.old) result }
{
    match case {
        Case::LeftOut => {
            let option = option_of(word);
            put_parts(
                b"nroff: option ",
                option,
                b" is not in this profile\n",
                errors,
            )
        }
        Case::Unknown => put_parts(b"nroff: unknown option ", option_of(word), b"\n", errors),
        Case::BadValue => put_parts(b"nroff: bad value in ", word, b"\n", errors),
        Case::TooMany => put_parts(b"nroff: too many options like ", word, b"\n", errors),
    }
}

/// A line in three parts.
fn put_parts<W: Sink>(
    prefix: &[u8],
    middle: &[u8],
    back: &[u8],
    errors: &mut W,
) -> Result<(), Fault>
    ensures ok { OnOk result
        (Appends (W.held errors.old) (W.held errors.new) (prefix.now ++ middle.now ++ back.now)) }
    ensures err { OnErr result
        (AppendsPrefix (W.held errors.old) (W.held errors.new) (prefix.now ++ middle.now ++ back.now)) }
    ensures failures { W.failures errors.new ≡ put_counted (W.failures errors.old) result }
{
    errors.put(prefix)?;
    errors.put(middle)?;
    errors.put(back)
}

/// A word's first two characters, the first of which is one byte: `-` and the letter.
fn option_of(word: &[u8]) -> &[u8]
    ensures { result.now ≡ option_text word.now }
{
    if word.len() < 2 {
        return word;
    }
    let mut len = 2;
    while len < word.len() && goes_on(word[len]) {
        len += 1;
    }
    &word[..len]
}

/// Whether a byte goes on with a character of UTF-8.
fn goes_on(byte: u8) -> bool
    ensures { result ≡ goes_on byte }
{
    128 <= byte && byte <= 191
}
