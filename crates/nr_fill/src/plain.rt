// Bytes that stand for themselves, as cells.
ghost use Rattle.std.specs.Prelude.{◌≡◌, ◌<◌, ◌≤◌, ◌↔◌, IsTrue, length, map, take, slice_index, All};
ghost use Rattle.nr_fill.specs.Plain.{IsPlain, run_cell};

use nr_vectors::cell::{Cell, Look};

/// Whether the byte is a cell of a word, after which no line may be cut, wherever it stands in a text line's midst.
#[inline]
pub(crate) fn is_plain(byte: u8) -> bool
    ensures { IsTrue result ↔ IsPlain byte }
{
    if byte > b'\\' {
        return byte != 127;
    }
    byte > b' ' && byte != b'-' && byte != b'\\'
}

/// Puts the cells of these bytes there, up to the first that is not plain, and tells how many these are.
#[inline]
pub(crate) fn set_plain(slots: &mut [Cell], look: Look, bytes: &[u8]) -> usize
    requires { length bytes.now ≤ length slots.old }
    ensures prefix { result ≤ length bytes.now }
    ensures plain { All IsPlain (take result bytes.now) }
    ensures stops { result < length bytes.now → ¬ IsPlain (slice_index bytes.now result) }
    ensures cells { take result slots.new ≡ map (run_cell look) (take result bytes.now) }
    ensures length { length slots.new ≡ length slots.old }
{
    for i in 0..bytes.len() {
        let byte = bytes[i];
        if !is_plain(byte) {
            return i;
        }
        slots[i] = Cell { byte, look };
    }
    bytes.len()
}
