//! The lengths of the vectors of a working space.

/// The lengths of the vectors of a working space, in elements.
#[derive(Clone, Copy)]
pub struct Sizes {
    pub elements: usize,
    pub slots: usize,
    pub names: usize,
    pub drafts: usize,
    pub frames: usize,
    pub modes: usize,
    pub bytes: usize,
    pub places: usize,
    pub gathering: usize,
    pub registers: usize,
    pub traps: usize,
    pub trap_order: usize,
    pub words: usize,
    pub kinds: usize,
    pub cells: usize,
    pub pieces: usize,
    pub row: usize,
    pub page_cells: usize,
    pub page_texts: usize,
    pub page_rows: usize,
}
