//! What those who read events bring into the input, and what they take of it.
ghost use Rattle.std.specs.Prelude.{◌≡◌};

use super::reader::Reader;
use super::refusal::Refusal;
use nr_store::{Store, StoredBytes};
use nr_units::Name;

/// What is done to the text of a name by the lines that follow (CSTR 54, 7.1).
#[derive(Clone, Copy)]
pub enum Definition {
    /// `.de`: they replace it.
    De,
    /// `.am`: they are added to it.
    Am,
    /// `.ig`: nothing, they are ignored.
    Ig,
}

impl Definition {
    ghost use Rattle.nr_input.specs.Splicing.{base, base_answer, keeps};
    ghost use Rattle.std.specs.Prelude.{OnOk, OnErr};

    // The lines are kept.
    fn keeps(self) -> bool
        ensures { result ≡ keeps self }
    {
        !matches!(self, Definition::Ig)
    }

    // The text to which they are added is begun.
    fn begin<K: Copy>(self, name: Name, store: &mut Store<K>) -> Result<(), StoredBytes>
        ensures answer { result ≡ base_answer self name store.old }
        ensures ok { OnOk result (store.new ≡ base self name store.old) }
        ensures err { OnErr result (store.new ≡ store.old) }
    {
        match self {
            Definition::De => store.begin(),
            Definition::Am => store.begin_from(name),
            Definition::Ig => Ok(()),
        }
    }
}

impl Reader {
    ghost use Rattle.std.specs.Prelude.{OnOk};
    ghost use Rattle.nr_input.specs.Limits.{limits_of};
    ghost use Rattle.nr_input.specs.Refusal.{called};
    ghost use Rattle.nr_input.specs.Splicing.{giving, springing, defining_lines};
    ghost use Rattle.nr_input.specs.Weights.{Splices, Springs, Defines};

    /// Splices the text of a built-in register, or of a width.
    ///
    /// Proved: Texts are given, sprung and begun to be defined as the definition says, and what is left of the source
    /// is dropped. (`Reader::{give, spring, define}`; `Place::empty` in place.rt)
    pub fn give<K: Copy>(&mut self, store: &mut Store<K>, bytes: &[u8]) -> Result<(), Refusal>
        ensures gives { called store.new self.new result ≡ giving bytes.now store.old self.old }
        ensures pays { OnOk result (Splices store.old self.old store.new self.new) }
        ensures limits { limits_of store.new self.new ≡ limits_of store.old self.old }
    {
        match self.splice_bytes(bytes, store) {
            Ok(_) => Ok(()),
            Err(refusal) => Err(refusal),
        }
    }

    /// Springs the text of a name, after whose end the mode is resumed. Answers whether there is such a text.
    pub fn spring<K: Copy>(
        &mut self,
        store: &mut Store<K>,
        name: Name,
        mode: K,
    ) -> Result<bool, Refusal>
        ensures springs { called store.new self.new result ≡ springing name mode store.old self.old }
        ensures pays { Springs store.old self.old result store.new self.new }
        ensures limits { limits_of store.new self.new ≡ limits_of store.old self.old }
    {
        match store.spring(name, mode) {
            Err(refusal) => Err(Refusal::from(refusal)),
            Ok(sprung) => {
                if !sprung {
                    return Ok(false);
                }
                match self.expand() {
                    Err(refusal) => Err(refusal),
                    Ok(_) => {
                        self.half.spring();
                        Ok(true)
                    }
                }
            }
        }
    }

    /// The lines of a definition follow, up to one that begins with `.` and the ending, or with two dots where that
    /// is empty.
    pub fn define<K: Copy>(
        &mut self,
        store: &mut Store<K>,
        definition: Definition,
        name: Name,
        ending: Name,
    ) -> Result<(), StoredBytes>
        ensures defines { called store.new self.new result ≡ defining_lines definition name ending
            store.old self.old }
        ensures costs { OnOk result (Defines store.old self.old store.new self.new) }
        ensures limits { limits_of store.new self.new ≡ limits_of store.old self.old }
    {
        match definition.begin(name, store) {
            Err(refusal) => Err(refusal),
            Ok(()) => {
                self.half.define(name, ending, definition.keeps());
                Ok(())
            }
        }
    }
}
