//! What the program reaches: the texts of its words, and folders of texts that these name.
ghost use Rattle.std.specs.Prelude.{◌≡◌, ℕ, List, Option, IfOk};
ghost use Rattle.document_sources.specs.Joining.{Texts};

use document_sources::{Folder, Inside, System};
use nr_command::Opener;
use nr_command_options::Input;
use std::alloc::Global;
use std::io;
use std::rt::Files;

/// Gives folders by their paths.
pub trait Reaches {
    /// A folder.
    type Folder: Folder + Drop;

    /// The texts of folders, where they are known.
    ghost texts_in: { Self → List ℕ → Option Texts };

    /// The folder of a path. Nothing of it is opened.
    fn folder(&self, path: &str) -> io::Result<Self::Folder>
        ensures { IfOk result (λ folder. Self.Folder.texts folder ≡ texts_in self.now path.now) };
}

/// An opener of texts, and the folders of a system.
#[derive(Drop)]
pub struct Reach<'r, R, O> {
    /// The system.
    pub system: &'r R,
    /// The memory.
    pub alloc: Global,
    /// What opens texts.
    pub opener: O,
}

impl<'r, R: Files, O> Reaches for Reach<'r, R, O> {
    ghost use Rattle.std.specs.Prelude.{None};

    type Folder = Inside<System<'r, R>>;

    ghost texts_in = { λ reach path. None };

    fn folder(&self, path: &str) -> io::Result<Inside<System<'r, R>>> {
        Inside::of(System::new(self.system, self.alloc), path, self.alloc)
    }
}

impl<'b, R, O: Opener<'b>> Opener<'b> for Reach<'_, R, O> {
    type Text = O::Text;

    ghost may_come = { λ reach. O.may_come reach.opener };

    ghost asked = { λ reach. O.asked reach.opener };

    fn open(&mut self, input: Input<'_>, buffer: &'b mut [u8]) -> io::Result<O::Text> {
        self.opener.open(input, buffer)
    }
}
