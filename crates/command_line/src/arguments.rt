// The words of the command line.
ghost use Rattle.std.specs.Prelude.{ℕ, List, Option, IfOk, map, string_bytes};
ghost use Rattle.std.specs.Option.{option_map};
ghost use Rattle.command_line.specs.Arguments.{AreWords};

use std::alloc::{AllocError, Global};
use std::env::FillError;
use std::rt::Env;

/// The bytes of the buffer into which a word is read at first.
const WORD_SIZE: usize = 256;

/// How often that buffer may be doubled: to 4 GiB, more than any system passes.
const DOUBLINGS: u32 = 24;

/// Where the words of the command line come from.
pub trait CommandLine {
    /// What may stand at a place: a word, or nothing.
    ghost may_stand: { Self → ℕ → Option (List ℕ) → Type 0 };

    /// The word at a place, and `None` after the last. The program's name is at 0.
    fn word(&self, place: usize) -> Result<Option<String>, AllocError>
        ensures { IfOk result (λ word. may_stand self.now place (option_map string_bytes word)) };
}

/// The words that the system gives. What is no UTF-8 in them is read as U+FFFD.
#[derive(Drop)]
pub struct SystemWords<'r, R> {
    system: &'r R,
    alloc: Global,
}

impl<'r, R: Env> SystemWords<'r, R> {
    /// The words of this system.
    pub fn new(system: &'r R, alloc: Global) -> Self {
        SystemWords { system, alloc }
    }
}

impl<R: Env> CommandLine for SystemWords<'_, R> {
    ghost use Rattle.std.specs.Prelude.{⊤};

    ghost may_stand = { λ line place word. ⊤ };

    fn word(&self, place: usize) -> Result<Option<String>, AllocError> {
        for doubled in 0..=DOUBLINGS {
            let mut buffer = vec![in self.alloc; 0u8; WORD_SIZE << doubled]?;
            match self.system.arg(place, &mut buffer) {
                Ok(count) => {
                    let word = String::from_utf8_lossy(self.alloc, &buffer[..count])?;
                    return Ok(Some(word));
                }
                Err(FillError::NotPresent) => return Ok(None),
                Err(FillError::TooLong) => {}
            }
        }
        Err(AllocError)
    }
}

/// The words after the program's name, in order.
///
/// Proved: The words are those of the command line, in order.
pub fn words_of<C: CommandLine>(line: &C, alloc: Global) -> Result<Vec<String>, AllocError>
    ensures { IfOk result (λ words. AreWords (C.may_stand line.now) (map string_bytes words.items)) }
{
    let mut words = Vec::new(alloc);
    while let Some(word) = line.word(words.len() + 1)? {
        words.push(word)?;
    }
    Ok(words)
}
