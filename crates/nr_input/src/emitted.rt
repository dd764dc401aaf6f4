//! What a move tells.
use nr_reading::Event;

/// What a move tells, a mode left where it was put.
#[derive(Clone, Copy)]
pub enum Heard {
    /// What was read, if anything was.
    Event(Event),
    /// The mark after a sprung text was taken.
    Resume,
}

/// What a move tells. `K` is what was under way where a text was sprung.
#[derive(Clone, Copy)]
pub enum Emitted<K> {
    /// What was read, if anything was.
    Event(Event),
    /// The mark after a sprung text was taken: this goes on.
    Resume(K),
}
