//! What is read before a text.
ghost use Rattle.std.specs.Prelude.{◌≡◌, OnOk, IfOk};
ghost use Rattle.program_options.specs.Job.{asked_of, texts};
ghost use Rattle.program_plan.specs.Before.{BeginsWith, cells_of, is_of_manual, is_paper, usual_cells};
ghost use Rattle.program_plan.specs.Macros.{names_file};
ghost use Rattle.program_plan.specs.Prefix.{prefix};

use crate::macros::{Macros, file_name};
use crate::prefix::put_prefix;
use program_macros::macro_file;
use program_options::Job;
use std::alloc::{AllocError, Global};

/// The first name whose macro file is not in the program, if there is one.
pub fn first_missing<'a>(names: &[&'a str]) -> Option<&'a str> {
    for name in names {
        let name: &'a str = *name;
        if macro_file(file_name(name).as_bytes()).is_none() {
            return Some(name);
        }
    }
    None
}

/// The cells of a line where no word sets them: those of the macro files.
pub fn cells_of(job: &Job<'_>, macros: Macros) -> usize
    ensures { result ≡ cells_of macros (asked_of job.now) }
{
    match job.plain.width {
        Some(cells) => cells as usize,
        None => usual_cells(macros, job.macros.as_slice()),
    }
}

/// The name of a macro file of papers: of -ms or -me.
fn is_paper(name: &[u8]) -> bool
    ensures { result ≡ is_paper name.now }
{
    name == b"s".as_slice() || name == b"e".as_slice()
}

/// The cells of a line of macro files: 78 of manual pages, 60 of papers, 65 of others and without any.
fn usual_cells(macros: Macros, names: &[&str]) -> usize
    ensures { result ≡ usual_cells macros (texts names.now) }
{
    if macros == Macros::Manual {
        return 78;
    }
    match names.first() {
        Some(name) if is_paper(name.as_bytes()) => 60,
        _ => 65,
    }
}

/// Whether these are the macros of manual pages.
fn is_of_manual(macros: Macros) -> bool
    ensures { result ≡ is_of_manual macros }
{
    match macros {
        Macros::Manual => true,
        Macros::None | Macros::Named => false,
    }
}

/// What is read before a text: the lines of the words, and the macro files of the program, if they are from there.
///
/// Proved: What is read before a text begins with what the words set. (`text_before`)
pub fn text_before(job: &Job<'_>, macros: Macros, alloc: Global) -> Result<Vec<u8>, AllocError>
    ensures { IfOk result (λ text. BeginsWith (prefix (is_of_manual macros) (asked_of job.now)) text.items) }
{
    let mut text = Vec::new(alloc);
    put_prefix(job, is_of_manual(macros), &mut text)?;
    put_files(job, macros, &mut text)?;
    Ok(text)
}

/// Adds the macro files of the program, if they are from there.
fn put_files(job: &Job<'_>, macros: Macros, text: &mut Vec<u8>) -> Result<(), AllocError>
    ensures { OnOk result (BeginsWith text.old.items text.new.items) }
{
    if job.macros.is_empty() {
        return if is_of_manual(macros) {
            put_file("an", text)
        } else {
            Ok(())
        };
    }
    if job.folder.is_none() {
        put_named(job.macros.as_slice(), text)
    } else {
        Ok(())
    }
}

/// Whether one of these names is of that file of macros.
fn names_file(names: &[&str], file: &[u8]) -> bool
    ensures { result ≡ names_file file.now (texts names.now) }
{
    for name in names {
        if file_name(name).as_bytes() == file {
            return true;
        }
    }
    false
}

/// Adds the files of these macros, as far as the program has them, each where it is first named.
fn put_named(names: &[&str], text: &mut Vec<u8>) -> Result<(), AllocError>
    ensures { OnOk result (BeginsWith text.old.items text.new.items) }
{
    for (at, name) in names.iter().enumerate() {
        let file = file_name(name);
        if !names_file(&names[..at], file.as_bytes()) {
            put_file(file, text)?;
        }
    }
    Ok(())
}

/// Adds the macro file of that name, if the program has it.
fn put_file(name: &str, text: &mut Vec<u8>) -> Result<(), AllocError>
    ensures { OnOk result (BeginsWith text.old.items text.new.items) }
{
    match macro_file(name.as_bytes()) {
        Some(file) => text.extend_from_slice(file),
        None => Ok(()),
    }
}
