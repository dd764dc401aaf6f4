//! The memory of a store.
ghost use Rattle.std.specs.Prelude.{◌≡◌};
ghost use Rattle.nr_store.specs.Memory.{rooms_of};

/// How many there is room for of each.
#[derive(Clone, Copy)]
pub struct Room {
    /// The elements of all texts.
    pub elements: usize,
    /// Where each text lies.
    pub slots: usize,
    /// The name list.
    pub names: usize,
    /// The texts being built.
    pub drafts: usize,
    /// The levels.
    pub frames: usize,
    /// The modes that are resumed after levels.
    pub modes: usize,
    /// The bytes that levels bring.
    pub bytes: usize,
    /// The places of arguments.
    pub places: usize,
    /// The bytes of arguments that are being read.
    pub gathering: usize,
    /// The registers.
    pub registers: usize,
    /// The traps.
    pub traps: usize,
    /// The numbers of the traps in the order of their places.
    pub trap_order: usize,
    /// The hyphenation words.
    pub words: usize,
    /// The beginnings of the chains of names, of registers and of hyphenation words, as many whatever the limit.
    pub kinds: usize,
}

impl Room {
    /// The rooms under which a store with this limit, and with so many levels at most, makes only the refusals that it
    /// names.
    pub fn of(limit: u32, deepest: u32) -> Room
        ensures { result ≡ rooms_of limit deepest }
    {
        let limit = limit as usize;
        let deepest = deepest as usize;
        Room {
            elements: limit,
            slots: limit / 16 + 1,
            names: limit / 48 + 1 + 56,
            drafts: limit / 48 + 1,
            frames: deepest,
            modes: deepest,
            bytes: limit,
            places: 9 * deepest.min(limit / 16),
            gathering: limit,
            registers: limit / 48 + 1,
            traps: limit / 48 + 1,
            trap_order: limit / 48 + 1,
            words: limit / 16 + 1,
            kinds: 512 + 512 + 256,
        }
    }
}
