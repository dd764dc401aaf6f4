//! What the program reads, in order.
ghost use Rattle.std.specs.Prelude.{◌≡◌, slice_get};
ghost use Rattle.std.specs.Option.{option_map};
ghost use Rattle.nr_command_options.specs.Inputs.{macro_path, named, reading_of, readings};
ghost use Rattle.nr_command_options.specs.Job.{asked_of};

use crate::job::Job;
use std::fmt;

/// A macro file: `tmac.name` in a folder. It is displayed as its path, `folder/tmac.name`.
#[derive(Clone, Copy, Debug)]
pub struct MacroFile<'a> {
    /// The folder, as it was given.
    pub folder: &'a str,
    /// The name after `-m`.
    pub name: &'a str,
}

impl fmt::Display for MacroFile<'_> {
    ghost use Rattle.std.specs.Prelude.{Some};
    ghost use Rattle.nr_command_options.specs.Inputs.{macro_path};

    ghost output = { λ file. Some (macro_path file.folder.now file.name.now) };

    fn fmt<W: fmt::Write>(&self, f: &mut fmt::Formatter<W>) -> fmt::Result {
        let folder = self.folder;
        let name = self.name;
        write!(f, "{folder}/tmac.{name}")
    }
}

/// One of the texts that the program reads.
#[derive(Clone, Copy, Debug)]
pub enum Input<'a> {
    /// A macro file.
    Macros(MacroFile<'a>),
    /// A file, by its name.
    File(&'a str),
    /// Standard input.
    Standard,
}

impl<'a> Job<'a> {
    /// The text that is read at a place, counted from 0: the macro files in the order of `-m`, the files,
    /// and standard input where it is read after them. None after the last.
    ///
    /// Proved: What a job reads comes in order: macro files, files, standard input.
    pub fn input(&self, place: usize) -> Option<Input<'a>>
        ensures { option_map reading_of result ≡ slice_get (readings (asked_of self.now)) place }
    {
        let macros = self.macros.as_slice();
        if place < macros.len() {
            let folder = self.macro_folder;
            let name = macros[place];
            return Some(Input::Macros(MacroFile { folder, name }));
        }
        let place = place - macros.len();
        let files = self.files;
        if place < files.len() {
            return Some(input_named(files[place]));
        }
        if place == files.len() && self.reads_input {
            Some(Input::Standard)
        } else {
            None
        }
    }
}

/// The file of that name, or standard input where the name is `-`.
fn input_named(name: &str) -> Input<'_>
    ensures { reading_of result ≡ named name.now }
{
    let bytes = name.as_bytes();
    if bytes.len() == 1 && bytes[0] == b'-' {
        Input::Standard
    } else {
        Input::File(name)
    }
}
