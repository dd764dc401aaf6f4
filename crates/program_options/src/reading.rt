//! The words of the command line.
ghost use Rattle.std.specs.Prelude.{◌≡◌};
ghost use Rattle.std.specs.Option.{option_map};
ghost use Rattle.program_options.specs.Values.{meant};
ghost use Rattle.program_options.specs.Words.{seen};
ghost use Rattle.program_options.specs.Job.{after, asked_of, texts};
ghost use Rattle.program_options.specs.Reading.{answer_of, asked, form_of, pending_of, with_whole};

use crate::job::Job;
use crate::names::Valued;
use crate::usage::{Case, Usage};
use crate::values::{Ask, read_value};
use crate::words::{Word, word_of};

/// Reads the words after the program's name (POSIX, "Utility Syntax Guidelines"; groff's nroff(1)).
///
/// Options are the words before the first that is a file, each with its value; `--` ends them. The first bad
/// word is reported, with how it is bad.
///
/// Proved: The words of nulbiko come to what the definition says, by one equation: what is asked for, or the first
/// bad word and how it is bad.
pub fn read_words<'a>(words: &'a [&'a str]) -> Result<Job<'a>, Usage<'a>>
    ensures { answer_of result ≡ asked (texts words.now) }
{
    let mut job = Job::nothing();
    let mut awaited: Option<Awaited<'a>> = None;
    for (at, word) in words.iter().enumerate() {
        let word: &'a str = *word;
        let form = form_of(awaited, word);
        awaited = None;
        match form {
            Word::File => return Ok(job.with_files(&words[at..])),
            Word::End => return Ok(job.with_files(&words[at + 1..])),
            Word::Awaits(valued) => awaited = Some(Awaited { valued, word }),
            Word::Whole(asks) => {
                if let Err(case) = take_whole(&mut job, asks) {
                    return Err(Usage { case, word });
                }
            }
        }
    }
    match awaited {
        Some(option) => Err(Usage {
            case: Case::NoValue,
            word: option.word,
        }),
        None => Ok(job),
    }
}

/// An option whose value is the next word.
#[derive(Clone, Copy)]
struct Awaited<'a> {
    valued: Valued,
    word: &'a str,
}

/// What a word is after an option that awaits it, or after none.
fn form_of<'a>(awaited: Option<Awaited<'a>>, word: &'a str) -> Word<'a>
    ensures { seen result ≡ form_of (option_map pending_of awaited.entry) word.now }
{
    match awaited {
        Some(option) => Word::Whole(read_value(option.valued, word)),
        None => word_of(word),
    }
}

/// Takes what an option asks for, or says why it is bad.
fn take_whole<'a>(job: &mut Job<'a>, asks: Result<Ask<'a>, Case>) -> Result<(), Case>
    ensures { after result (asked_of job.new) ≡ with_whole (meant asks.entry) (asked_of job.old) }
{
    job.take(asks?)
}
