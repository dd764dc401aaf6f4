// The blocks of a page that are open.
ghost use Rattle.std.specs.Prelude.{◌≡◌, ◌<◌, length, IfSome};
ghost use Rattle.filters_complaints.specs.Blocks as specs;

use nr_units::Name;

/// How many blocks are watched at once.
pub const MOST_OPEN: usize = 64;

/// A block that is open.
#[derive(Clone, Copy)]
pub struct OpenBlock {
    /// The macro that opened it.
    pub name: Name,
    /// Its line, from 1 on.
    pub line: u64,
    /// It is a list of columns, as pages of mdoc have them.
    pub columns: bool,
}

impl OpenBlock {
    /// Room for blocks, where none is open.
    pub fn none() -> OpenBlock {
        OpenBlock {
            name: Name::new(),
            line: 0,
            columns: false,
        }
    }
}

/// The place of the last block that a macro opened; the last of all has place 0.
pub fn place_of(name: &[u8], blocks: &[OpenBlock]) -> Option<usize>
    ensures value { result ≡ specs.place_of name.now blocks.now }
    ensures within { IfSome result (λ place. place < length blocks.now) }
{
    for (i, block) in blocks.iter().enumerate() {
        if block.name.as_bytes() == name {
            return Some(i);
        }
    }
    None
}
