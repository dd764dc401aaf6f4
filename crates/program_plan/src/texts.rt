//! The texts of a job: macro files, files and standard input.
ghost use Rattle.std.specs.Prelude.{◌≡◌, ◌≤◌, length, map};
ghost use Rattle.nr_command_options.specs.Inputs.{readings};
ghost use Rattle.nr_command_options.specs.Job.{asked_of as texts_asked};
ghost use Rattle.program_options.specs.Job.{asked_of, texts};
ghost use Rattle.program_plan.specs.Macros.{file_name};
ghost use Rattle.program_plan.specs.Texts.{macro_names, readings_of};

use crate::macros::file_name;
use arrayvec::ArrayVec;
use nr_command_options::{Job as Texts, MOST_MACROS};
use nr_options::Options;
use program_options::Job;

/// What a job reads, in order: the macro files of a folder that its words name, its files, and standard input where words
/// say it and where there is no file.
///
/// Proved: The texts of a job are the macro files of a folder, its files, and standard input.
pub fn texts_of<'a>(job: &Job<'a>) -> Texts<'a>
    ensures { readings (texts_asked result) ≡ readings_of (asked_of job.now) }
{
    Texts {
        options: Options::plain(),
        limits: job.limits,
        macro_folder: match job.folder {
            Some(folder) => folder,
            None => ".",
        },
        macros: macro_names(job),
        reads_input: job.plain.reads_input || job.files.is_empty(),
        files: job.files,
    }
}

/// The names of the macro files that are read of a folder.
fn macro_names<'a>(job: &Job<'a>) -> ArrayVec<&'a str, MOST_MACROS>
    ensures { texts result.items ≡ macro_names (asked_of job.now) }
{
    if job.folder.is_some() {
        file_names(job.macros.as_slice())
    } else {
        ArrayVec::new()
    }
}

/// The names of the files of these macros.
fn file_names<'a>(names: &[&'a str]) -> ArrayVec<&'a str, MOST_MACROS>
    requires { length names.now ≤ 32 }
    ensures { texts result.items ≡ map file_name (texts names.now) }
{
    let mut files = ArrayVec::new();
    for name in names {
        let name: &'a str = *name;
        files.push(file_name(name));
    }
    files
}
