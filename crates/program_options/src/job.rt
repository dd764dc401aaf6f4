//! What the words ask for.
ghost use Rattle.std.specs.Prelude.{◌≡◌};
ghost use Rattle.program_options.specs.Values.{meaning_of};
ghost use Rattle.program_options.specs.Job.{after, asked_of, limited, named, nothing_asked, texts, usual_bounds, with_files, with_meaning};

use crate::plain::{Kind, Plain};
use crate::usage::Case;
use crate::values::{Ask, Which};
use arrayvec::ArrayVec;
use nr_options::{Limit, Limits};

/// The most macro files that may be named.
pub const MOST_MACROS: usize = 32;

/// The most registers and strings that may be set.
pub const MOST_SETTINGS: usize = 32;

/// A register or a string that is set before the macro files are read.
#[derive(Clone, Copy)]
pub struct Setting<'a> {
    /// Which of the two.
    pub kind: Kind,
    /// Its name: bytes of `!` to `~`.
    pub name: &'a [u8],
    /// An expression, or a text, of one line.
    pub value: &'a [u8],
}

/// The limits where no word sets them: those that suit pages and papers of one's own.
fn usual_limits() -> Limits
    ensures { result ≡ usual_bounds }
{
    let mut limits = Limits::default();
    limits.set(Limit::Stored, 4_194_304);
    limits.set(Limit::Cells, 1_048_576);
    limits.set(Limit::Expansions, 10_000);
    limits.set(Limit::Moves, 1_000_000_000);
    limits
}

/// A setting without a name, which fills the unused places of a list.
impl Default for Setting<'_> {
    ghost use Rattle.std.specs.Prelude.{◌≡◌, []};

    ghost is_default = { λ setting. setting.name.now ≡ [] };

    fn default() -> Self {
        Setting {
            kind: Kind::Register,
            name: &[],
            value: &[],
        }
    }
}

/// What the words ask for.
#[derive(Drop)]
pub struct Job<'a> {
    /// What is a number or one of a few things.
    pub plain: Plain,
    /// The limits under which a text is formatted.
    pub limits: Limits,
    /// The folder of the macro files, if it is named.
    pub folder: Option<&'a str>,
    /// The coding of the texts, if it is named.
    pub coding: Option<&'a str>,
    /// The list of the pages to print, if there is one.
    pub pages: Option<&'a str>,
    /// The folder that `.so` may read of, if there is one.
    pub within: Option<&'a str>,
    /// The names of the macro files, in the order of `-m`. None: the text itself says what it asks for.
    pub macros: ArrayVec<&'a str, MOST_MACROS>,
    /// What is set before them, in order.
    pub settings: ArrayVec<Setting<'a>, MOST_SETTINGS>,
    /// The files, in order. `-` is standard input.
    pub files: &'a [&'a str],
}

impl<'a> Job<'a> {
    /// What is asked for where there is no word.
    pub(crate) fn nothing() -> Self
        ensures { asked_of result ≡ nothing_asked }
    {
        Job {
            plain: Plain::unset(),
            limits: usual_limits(),
            folder: None,
            coding: None,
            pages: None,
            within: None,
            macros: ArrayVec::new(),
            settings: ArrayVec::new(),
            files: &[],
        }
    }

    /// With these files.
    pub(crate) fn with_files(self, files: &'a [&'a str]) -> Self
        ensures { asked_of result ≡ with_files (texts files.now) (asked_of self.entry) }
    {
        Job { files, ..self }
    }

    /// Takes what one option asks for.
    pub(crate) fn take(&mut self, ask: Ask<'a>) -> Result<(), Case>
        ensures { after result (asked_of self.new) ≡ with_meaning (meaning_of ask.entry) (asked_of self.old) }
    {
        match ask {
            Ask::Nothing => Ok(()),
            Ask::Change(change) => {
                self.plain = self.plain.changed(change);
                Ok(())
            }
            Ask::Limit(limit, number) => self.limit(limit, number),
            Ask::Macros(name) => {
                if self.macros.is_full() {
                    return Err(Case::TooMany);
                }
                self.macros.push(name);
                Ok(())
            }
            Ask::Named(which, text) => {
                self.name(which, text);
                Ok(())
            }
            Ask::Sets(kind, name, value) => {
                if self.settings.is_full() {
                    return Err(Case::TooMany);
                }
                self.settings.push(Setting { kind, name, value });
                Ok(())
            }
        }
    }

    /// Sets a limit, if it may be so.
    fn limit(&mut self, limit: Limit, number: u64) -> Result<(), Case>
        ensures { after result (asked_of self.new) ≡ limited limit number (asked_of self.old) }
    {
        if limit.admits(number) {
            self.limits.set(limit, number);
            Ok(())
        } else {
            Err(Case::BadValue)
        }
    }

    /// Names something by a text.
    fn name(&mut self, which: Which, text: &'a str)
        ensures { asked_of self.new ≡ named which text.now (asked_of self.old) }
    {
        match which {
            Which::Folder => self.folder = Some(text),
            Which::Coding => self.coding = Some(text),
            Which::Pages => self.pages = Some(text),
            Which::Within => self.within = Some(text),
        }
    }
}
