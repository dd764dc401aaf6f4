//! Why a call changed nothing.
ghost use Rattle.std.specs.Prelude.{◌≡◌};

/// What is stored would be charged more than the limit. Nothing has changed.
#[derive(Clone, Copy, Debug, Drop)]
pub struct StoredBytes;

/// Why a level was not opened. Nothing has changed.
#[derive(Clone, Copy, Debug, Drop)]
pub enum Refusal {
    /// What is stored would be charged more than the limit.
    Stored,
    /// There would be more levels than there may be.
    Depth,
}

impl From<StoredBytes> for Refusal {
    ghost use Rattle.std.specs.Prelude.{◌≡◌};
    ghost use Rattle.nr_store.specs.declared.refusal.Refusal.TheVariants.{Stored};

    ghost from_gives = { λ _ r. r ≡ Stored };

    fn from(_: StoredBytes) -> Refusal {
        Refusal::Stored
    }
}
