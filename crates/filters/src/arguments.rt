// The words of the command line.
ghost use Rattle.std.specs.Prelude.{◌≡◌, IfOk, map, string_bytes};
ghost use Rattle.filters.specs.Arguments.{is_option, texts};

use std::alloc::{AllocError, Global};

/// The words as they are borrowed.
pub(crate) fn borrowed(words: &[String], alloc: Global) -> Result<Vec<&str>, AllocError>
    ensures { IfOk result (λ borrowed. texts borrowed.items ≡ map string_bytes words.now) }
{
    let mut borrowed = Vec::new(alloc);
    for word in words {
        borrowed.push(word.as_str())?;
    }
    Ok(borrowed)
}

/// Whether a word is an option: it begins with `-` and isn't `-` alone.
///
/// Proved: A word is an option where it begins with `-` and is not `-`.
pub fn is_option(word: &str) -> bool
    ensures { result ≡ is_option word.now }
{
    let bytes = word.as_bytes();
    bytes.len() > 1 && bytes[0] == b'-'
}
