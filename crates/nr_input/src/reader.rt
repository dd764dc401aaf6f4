//! What is half read, and how often was spliced since the last byte of the input.
ghost use Rattle.std.specs.Prelude.{◌≡◌};

use nr_reading::Half;
use nr_store::Request;

/// What is half read, and how often was spliced since the last byte of the input was taken.
#[derive(Drop)]
pub struct Reader {
    /// What is half read.
    pub half: Half,
    /// The request whose line is read, or was read last.
    pub request: Request,
    /// How many splices and springs there were since the last byte of the input was taken.
    pub burst: u64,
    /// How many there may be.
    pub most: u64,
}

impl Reader {
    ghost use Rattle.nr_input.specs.Moving.{nothing_read};

    /// Nothing is read yet. There may be at most so many splices and springs after one byte of the input.
    pub fn new(most: u64) -> Reader
        ensures { result ≡ nothing_read most }
    {
        Reader {
            half: Half::new(),
            request: Request::Br,
            burst: 0,
            most,
        }
    }

    /// Takes what is half read of another.
    pub fn copy_from(&mut self, other: &Reader)
        ensures { self.new ≡ other.now }
    {
        self.half.copy_from(&other.half);
        self.request = other.request;
        self.burst = other.burst;
        self.most = other.most;
    }
}
