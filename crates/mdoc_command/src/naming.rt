// The page's name.
ghost use Rattle.std.specs.Prelude.{◌≡◌};
ghost use Rattle.mdoc_command.specs.Naming as specs;

/// What is known of the page's name.
#[derive(Clone, Copy)]
pub struct Naming {
    /// `.Nm` had a word.
    pub known: bool,
    /// `.Nm` waits for its word.
    pub waits: bool,
    /// The line of a section NAME in which no line of `.Nm` came yet; 0 elsewhere.
    pub section: u64,
}

impl Naming {
    /// A page begins.
    pub fn new() -> Naming
        ensures { result ≡ specs.first }
    {
        Naming {
            known: false,
            waits: false,
            section: 0,
        }
    }

    /// A word comes that calls no macro: where `.Nm` waits it is the name.
    pub fn takes(&mut self)
        ensures { self.new ≡ specs.taking self.old }
    {
        self.known = self.known || self.waits;
        self.waits = false;
    }
}
