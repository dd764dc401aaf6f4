//! A row is read back, a byte after the other.
ghost use Rattle.std.specs.Prelude.{◌≡◌};
ghost use Rattle.utf8_own_characters.specs.Reading as specs;

use super::cluster::Cluster;
use super::table::OwnTable;

/// What comes of a byte: blanks for what is no character, then maybe a cluster; and a lead that waits for its trail.
#[derive(Clone, Copy, Debug, PartialEq, Eq)]
pub struct Read {
    /// How many blanks come, each for half a pair or for a byte that is no character.
    pub blanks: u8,
    pub cluster: Option<Cluster>,
    pub held: Option<u8>,
}

/// Blanks for what is no character.
#[inline]
fn strays(blanks: u8) -> Read
    ensures { result ≡ specs.strays blanks }
{
    Read {
        blanks,
        cluster: None,
        held: None,
    }
}

/// A cluster.
#[inline]
fn shows(cluster: Cluster) -> Read
    ensures { result ≡ specs.shows cluster }
{
    Read {
        blanks: 0,
        cluster: Some(cluster),
        held: None,
    }
}

impl<'a> OwnTable<'a> {
    /// A byte that is no half of a pair.
    #[inline]
    fn alone(&self, byte: u8) -> Read
        ensures { result ≡ specs.alone self.now byte }
    {
        if byte < 128 {
            return shows(Cluster::single(char::from(byte)));
        }
        match self.narrow_at(usize::from(byte - 128)) {
            Some(cluster) if !cluster.is_none() => shows(cluster),
            _ => strays(1),
        }
    }

    /// A byte before which none waits.
    #[inline]
    fn begun(&self, byte: u8) -> Read
        ensures { result ≡ specs.begun self.now byte }
    {
        if self.is_lead(byte) {
            return Read {
                blanks: 0,
                cluster: None,
                held: Some(byte),
            };
        }
        self.alone(byte)
    }

    /// A lead and its trail.
    #[inline]
    fn both(&self, lead: u8, trail: u8) -> Read
        ensures { result ≡ specs.both self.now lead trail }
    {
        match self.wide_at(lead, trail) {
            Some(cluster) => shows(cluster),
            None => strays(2),
        }
    }

    /// The next byte of a row, where a lead may wait. A row's end makes a blank of one that waits.
    #[inline]
    pub fn read(&self, held: Option<u8>, byte: u8) -> Read
        ensures { result ≡ specs.read self.now held byte }
    {
        match held {
            Some(lead) if self.is_trail(byte) => self.both(lead, byte),
            Some(_) => {
                let begun = self.begun(byte);
                Read {
                    blanks: begun.blanks + 1,
                    ..begun
                }
            }
            None => self.begun(byte),
        }
    }
}
