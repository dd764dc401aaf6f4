//! The line of a request that waits.
ghost use Rattle.std.specs.Prelude.{◌≡◌, ◌<◌, ◌≤◌, ◌++◌, ◌∷◌, [], length};

use std::marker::Model;

/// How many bytes of a request's line count.
const LONGEST: usize = 256;

/// The line of a request, at most 256 bytes. Clauses see its bytes as a list.
#[derive(Clone, Copy)]
pub struct RequestLine {
    bytes: [u8; LONGEST],
    len: u16,
}

impl Model for RequestLine {
    ghost use Rattle.std.specs.Prelude.{ℕ, List, length, take};
    ghost use Rattle.nr_formatter.specs.RequestLine.{IsFilled, filled, filled-take, length-take_filled};

    ghost Value = { List ℕ };

    ghost view = { λ l. take l.len l.bytes };

    ghost invariant = { λ l. IsFilled l.bytes l.len };

    ghost inverse = { λ bytes. record { bytes = filled bytes; len = length bytes } };

    ghost inverse_ok = { λ l h i. record {
      bytes = filled-take l.bytes l.len h i;
      len = length-take_filled l.bytes l.len h i;
    } };
}

impl RequestLine {
    /// No bytes.
    fn new() -> RequestLine
        ensures { result ≡ [] }
    {
        RequestLine {
            bytes: [0; LONGEST],
            len: 0,
        }
    }

    /// Adds a byte at the end.
    fn push(&mut self, byte: u8)
        requires { length self.old < 256 }
        ensures { self.new ≡ self.old ++ byte ∷ [] }
    {
        self.bytes[usize::from(self.len)] = byte;
        self.len += 1;
    }

    /// The line with these bytes.
    pub fn of(text: &[u8]) -> RequestLine
        requires { length text.now ≤ 256 }
        ensures { result ≡ text.now }
    {
        let mut line = RequestLine::new();
        for byte in text {
            line.push(*byte);
        }
        line
    }

    /// Its bytes.
    pub fn as_slice(&self) -> &[u8]
        ensures value { result.now ≡ self.now }
        ensures within { length result.now ≤ 256 }
    {
        &self.bytes[..usize::from(self.len)]
    }
}
