// A page is read under its coding.
ghost use Rattle.std.specs.Prelude.{◌≡◌, IfOk};
ghost use Rattle.preconv_coding.specs.UnderCoding.{text_of};

use super::text::Text;
use nr_units::source::Source;
use preconv_coding::UnderCoding;
use std::alloc::{AllocError, Global};

/// The text of a page in UTF-8, as preconv reads it.
pub(crate) fn text_of(alloc: Global, page: &[u8]) -> Result<Vec<u8>, AllocError>
    ensures { IfOk result (λ text. text.items ≡ text_of page.now) }
{
    let mut source = UnderCoding::over(Text::over(page));
    let mut text = Vec::with_capacity(alloc, page.len())?;
    loop {
        match source.next() {
            Ok(Some(byte)) => text.push(byte)?,
            Ok(None) => return Ok(text),
            // A slice doesn't fail.
            Err(_) => unreachable!(),
        }
        let window = source.window();
        let count = window.len();
        text.extend_from_slice(window)?;
        source.skip(count);
    }
}
