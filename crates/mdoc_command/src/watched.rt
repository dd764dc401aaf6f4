// A source whose lines are watched.
ghost use Rattle.std.specs.Prelude.{◌≡◌};

use super::telling::Complaint;
use super::watching::Watch;
use filters_complaints::Complaints;
use nr_units::source::{Fault, Source};

/// A source, and the page that it gives.
#[derive(Drop)]
pub struct Watched<'a, S> {
    source: S,
    page: Watch<'a>,
}

impl<'a, S: Source + Drop> Watched<'a, S> {
    /// Nothing was given yet.
    pub fn over(source: S, page: Watch<'a>) -> Self
        ensures supply { ⟦<Watched<'a, S> as Source>⟧.supply result ≡ S.supply source }
        ensures failures { ⟦<Watched<'a, S> as Source>⟧.failures result ≡ S.failures source }
    {
        Watched { source, page }
    }

    /// What is reported of the page.
    pub fn reported(&self) -> &Complaints<'a, Complaint> {
        self.page.reported()
    }
}

impl<'a, S: Source + Drop> Source for Watched<'a, S> {
    ghost supply = { λ s. S.supply s.source };

    ghost at_hand = { λ s. S.at_hand s.source };

    ghost failures = { λ s. S.failures s.source };

    fn next(&mut self) -> Result<Option<u8>, Fault> {
        let given = self.source.next();
        match given {
            Ok(Some(byte)) => self.page.hear(byte),
            Ok(None) => self.page.finish(),
            Err(_) => {}
        }
        given
    }

    #[inline]
    fn window(&self) -> &[u8] {
        self.source.window()
    }

    #[inline]
    fn skip(&mut self, n: usize) {
        self.page.hear_all(&self.source.window()[..n]);
        self.source.skip(n);
    }
}
