//! The macro files of tmac/, as they stand there. Written by tools/macros.
//!
//! It stands on std alone. To read: this file.
#![tactic(auto)]

mod an;
mod e;
mod l;
mod s;

/// What the program says of its version.
pub const VERSION: &[u8] = b"nulbiko 0.2.0\n";

/// The text of the file `tmac.name`, if there is one of that name.
pub fn macro_file(name: &[u8]) -> Option<&'static [u8]> {
    if name == b"an".as_slice() {
        Some(an::TEXT)
    } else if name == b"e".as_slice() {
        Some(e::TEXT)
    } else if name == b"l".as_slice() {
        Some(l::TEXT)
    } else if name == b"s".as_slice() {
        Some(s::TEXT)
    } else {
        None
    }
}
