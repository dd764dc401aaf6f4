//! One place of an output line.
ghost use Rattle.std.specs.Prelude.{◌≡◌};
ghost use Rattle.nr_vectors.specs.Cell as specs;

/// How a character looks. One that is underlined and bold is underlined.
#[derive(Clone, Copy)]
pub enum Look {
    Plain,
    Under,
    Bold,
}

/// A character of an output line: its byte, and how it looks.
#[derive(Clone, Copy)]
pub struct Cell {
    /// The byte that is printed.
    pub byte: u8,
    /// How the byte looks.
    pub look: Look,
}

impl Cell {
    /// A plain blank, to fill new slices with.
    pub fn blank() -> Cell
        ensures { result ≡ specs.blank }
    {
        Cell {
            byte: b' ',
            look: Look::Plain,
        }
    }
}
