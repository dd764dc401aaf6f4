//! What a run is given beside its input and its limits.
ghost use Rattle.std.specs.Prelude.{◌≡◌, [], pos, None};
ghost use Rattle.nr_page.specs.declared.faces.Faces.TheVariants.{Letters};

use arrayvec::ArrayVec;
use nr_page::{Faces, Select};

/// The most registers that may be set before a run.
pub const MOST_REGISTERS: usize = 32;

/// The first page's number, registers, and the pages to print (CSTR 54, "Usage": the options `-n`, `-r`
/// and `-o`), and the faces that these show (`-b`).
#[derive(Drop)]
pub struct Options {
    /// The number of the first page. One that no register can hold, outside -2147483647 to 2147483647,
    /// sets nothing.
    pub first: i64,
    /// Registers by their names, each of one byte, and the numbers that they are set to, in order. A
    /// number that no register can hold sets nothing.
    pub registers: ArrayVec<(u8, i64), MOST_REGISTERS>,
    /// The pages to print.
    pub select: Select,
    /// How much of the looks of cells is shown.
    pub faces: Faces,
}

impl Options {
    /// The first page is page 1, no register is set, all pages are printed, and of faces underlined letters show.
    ///
    /// Proved: Without options the first page is 1, no register is set and all pages are printed.
    pub fn plain() -> Options
        ensures first { result.first ≡ pos 1 }
        ensures registers { result.registers.items ≡ [] }
        ensures select { result.select ≡ None }
        ensures faces { result.faces ≡ Letters }
    {
        Options {
            first: 1,
            registers: ArrayVec::new(),
            select: Select::all(),
            faces: Faces::Letters,
        }
    }
}
