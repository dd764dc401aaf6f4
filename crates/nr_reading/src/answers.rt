//! The last answers of `.ie`.
ghost use Rattle.std.specs.Prelude.{◌≡◌, ◌-◌, [], take, drop, slice_get};
ghost use Rattle.nr_reading.specs.Noting.{remembered};

use std::marker::Model;

/// How many answers are remembered.
const MOST: usize = 32;

/// The last 32 answers of `.ie`. Clauses see the newest first.
#[derive(Drop)]
pub struct Answers {
    answers: [bool; MOST],
    len: usize,
}

impl Model for Answers {
    ghost use Rattle.std.specs.Prelude.{◌≡◌, ◌≤◌, List, Bool, length, take};

    ghost Value = { List Bool };

    ghost view = { λ a. take a.len a.answers };

    ghost invariant = { λ a. (a.len ≤ 32) × (length a.answers ≡ 32) };
}

impl Answers {
    /// There was no `.ie`.
    pub(crate) fn new() -> Answers
        ensures { result ≡ [] }
    {
        Answers {
            answers: [false; MOST],
            len: 0,
        }
    }

    /// Takes the answers of another.
    pub(crate) fn copy_from(&mut self, other: &Answers)
        ensures { self.new ≡ other.now }
    {
        self.answers = other.answers;
        self.len = other.len;
    }

    /// Remembers an answer; the oldest is forgotten where there are 32.
    pub(crate) fn remember(&mut self, answer: bool)
        ensures { self.new ≡ remembered answer self.old }
    {
        self.answers.copy_within(0..MOST - 1, 1);
        self.answers[0] = answer;
        if self.len < MOST {
            self.len += 1;
        }
    }

    /// Takes the newest answer.
    pub(crate) fn pop(&mut self) -> Option<bool>
        ensures value { result ≡ slice_get self.old 0 }
        ensures rest { self.new ≡ drop 1 self.old }
    {
        if self.len == 0 {
            return None;
        }
        let newest = self.answers[0];
        self.answers.copy_within(1..MOST, 0);
        self.len -= 1;
        Some(newest)
    }
}
