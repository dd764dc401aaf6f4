//! What the command line asks the program to do.
ghost use Rattle.std.specs.Prelude.{◌≡◌, [], true};
ghost use Rattle.nr_command_options.specs.Arguments.{asked_by, is_option};
ghost use Rattle.nr_command_options.specs.Job.{Adds, CanBeAsked, Takes, asked_of, meaning_of, texts};

use crate::settings::{Setting, read_option};
use crate::usage::Case;
use arrayvec::ArrayVec;
use nr_options::{Limits, Options};
use nr_page::Faces;

/// The most macro files that may be named.
pub const MOST_MACROS: usize = 32;

/// What the command line asks the program to do.
#[derive(Drop)]
pub struct Job<'a> {
    /// The first page's number, registers in the order of `-r`, the pages to print, and the faces that they show.
    pub options: Options,
    /// The four limits.
    pub limits: Limits,
    /// The folder of the macro files.
    pub macro_folder: &'a str,
    /// The names of the macro files, in the order of `-m`.
    pub macros: ArrayVec<&'a str, MOST_MACROS>,
    /// Whether standard input is read after the files: with `-i`, and where there are no files.
    pub reads_input: bool,
    /// The files, in order. `-` is standard input.
    pub files: &'a [&'a str],
}

impl<'a> Job<'a> {
    /// What these files ask for without any option.
    pub(crate) fn plain(files: &'a [&'a str]) -> Self
        ensures { asked_of result ≡ asked_by [] (texts files.now) }
    {
        Job {
            options: Options::plain(),
            limits: Limits::default(),
            macro_folder: ".",
            macros: ArrayVec::new(),
            reads_input: files.is_empty(),
            files,
        }
    }

    /// Takes one option.
    pub(crate) fn take(&mut self, word: &'a str) -> Result<(), Case>
        requires { is_option word.now ≡ true }
        ensures { Takes (asked_of self.old) word.now result (asked_of self.new) }
    {
        let setting = read_option(word)?;
        match self.add(setting) {
            Ok(()) => Ok(()),
            Err(Full) => Err(Case::TooMany),
        }
    }

    /// Adds what one option sets. `Full` where there are 32 of its kind.
    fn add(&mut self, setting: Setting<'a>) -> Result<(), Full>
        requires { CanBeAsked setting }
        ensures { Adds (asked_of self.old) (meaning_of setting.entry) result (asked_of self.new) }
    {
        match setting {
            Setting::Select(select) => self.options.select = select,
            Setting::First(number) => self.options.first = i64::from(number),
            Setting::Register(name, number) => {
                if self.options.registers.is_full() {
                    return Err(Full);
                }
                self.options.registers.push((name, number));
            }
            Setting::Macros(name) => {
                if self.macros.is_full() {
                    return Err(Full);
                }
                self.macros.push(name);
            }
            Setting::Folder(folder) => self.macro_folder = folder,
            Setting::Input => self.reads_input = true,
            Setting::Bold => self.options.faces = Faces::All,
            Setting::Limit(limit, number) => self.limits.set(limit, number),
        }
        Ok(())
    }
}

/// There are 32 of its kind.
#[derive(Clone, Copy)]
struct Full;
