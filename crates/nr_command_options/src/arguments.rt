//! The words of the command line.
ghost use Rattle.std.specs.Prelude.{◌≡◌, ◌≤◌, length, Result};
ghost use Rattle.nr_command_options.specs.Arguments.{Asked, Complaint, IsAnswer, is_option, options};
ghost use Rattle.nr_command_options.specs.Job.{answer_of, texts};

use crate::job::Job;
use crate::usage::Usage;

/// Reads the words after the program's name (CSTR 54, "Usage").
///
/// Options are the words before the first that is `-` or does not begin with `-`; that one and all
/// after it are files. The first bad option is reported, with how it is bad.
///
/// Proved: The words of the command line come to the one answer that the definition allows: a job, or the first bad
/// word and how it is bad.
pub fn read_words<'a>(words: &'a [&'a str]) -> Result<Job<'a>, Usage<'a>>
    ensures answer { IsAnswer (texts words.now) (answer_of result) }

    // There is no other answer.
    ensures only { (answer : Result Asked Complaint) → IsAnswer (texts words.now) answer
        → answer ≡ answer_of result }
{
    let (options, files) = words.split_at(options_len(words));
    let mut job = Job::plain(files);
    for option in options {
        let word: &'a str = *option;
        if let Err(case) = job.take(word) {
            return Err(Usage { case, word });
        }
    }
    Ok(job)
}

/// How many words stand before the files.
fn options_len(words: &[&str]) -> usize
    ensures value { result ≡ length (options (texts words.now)) }
    ensures within { result ≤ length words.now }
{
    for (at, word) in words.iter().enumerate() {
        if !is_option(word) {
            return at;
        }
    }
    words.len()
}

/// Whether a word is an option: it begins with `-` and is not `-`.
fn is_option(word: &str) -> bool
    ensures { result ≡ is_option word.now }
{
    let bytes = word.as_bytes();
    bytes.len() > 1 && bytes[0] == b'-'
}
