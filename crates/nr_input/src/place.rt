//! How far the source was taken, and the items that it gives.
ghost use Rattle.std.specs.Prelude.{◌≡◌};

use super::refusal::Refusal;
use nr_reading::NextItem;
use nr_store::{Element, Sight, Store};
use nr_units::source::Source;
use std::marker::Model;

/// The most bytes that an input may have, and one.
const TOO_MANY: u64 = 1_099_511_627_776;

/// What was read ahead of the source.
#[derive(Clone, Copy)]
pub enum Ahead {
    /// Nothing.
    Unseen,
    /// A byte. It is not taken yet.
    Byte(u8),
    /// The end. The source is not asked again.
    End,
    /// The source failed.
    Failed,
    /// One byte more than an input may have.
    TooMany,
}

/// How far the source was taken.
#[derive(Drop)]
pub struct Place {
    ahead: Ahead,
    taken: u64,
    inside: bool,
}

impl Model for Place {
    ghost use Rattle.std.specs.Prelude.{◌<◌, ◌+◌, ◌^◌};
    ghost use Rattle.nr_input.specs.Place.{Reached, waiting};

    ghost Value = { Reached };

    ghost view = { λ p. record { ahead = p.ahead; taken = p.taken; inside = p.inside } };

    ghost invariant = { λ p. p.taken + waiting p.ahead < 2 ^ 40 };
}

impl Place {
    ghost use Rattle.std.specs.Prelude.{◌<◌, ◌+◌, ◌^◌, OnOk, IfOk, Option, true};
    ghost use Rattle.nr_units.specs.Source.{Supply};
    ghost use Rattle.nr_units.specs.Failures.{counted_if};
    ghost use Rattle.nr_store.specs.declared.shown.Shown.TheVariants as shows;
    ghost use Rattle.nr_store.specs.Store.{shown, left};
    ghost use Rattle.nr_store.specs.Sights.{shown_with};
    ghost use Rattle.nr_input.specs.Place.{Coming, Reached, HoldsComing, AfterSee, AfterLook, is_seen, is_ready, seen_item, passed, ended, next_item_seen, passed_in, StaysThere, nothing_reached, afterwards, emptied, fails_now, has_failed, KeepsRefusal, RefusesAgain, is_unseen, passed_run};

    /// Nothing is taken yet.
    pub fn new() -> Self
        ensures { result ≡ nothing_reached }
    {
        Place {
            ahead: Ahead::Unseen,
            taken: 0,
            inside: false,
        }
    }

    /// Stands as far as another.
    pub fn copy_from(&mut self, other: &Place)
        ensures { self.new ≡ other.now }
    {
        self.ahead = other.ahead;
        self.taken = other.taken;
        self.inside = other.inside;
    }

    /// How many bytes of the input were taken.
    pub fn taken(&self) -> u64
        ensures value { result ≡ self.now.taken }
        ensures within { result < 2 ^ 40 }
    {
        self.taken
    }

    /// Whether nothing was read ahead.
    #[inline]
    pub fn is_unseen(&self) -> bool
        ensures { result ≡ is_unseen self.now.ahead }
    {
        matches!(self.ahead, Ahead::Unseen)
    }

    /// How many bytes more may be taken.
    #[inline]
    pub fn room(&self) -> usize
        ensures value { self.now.taken + result < 2 ^ 40 }
        ensures most { self.now.taken + result + 1 ≡ 2 ^ 40 }
    {
        (TOO_MANY - 1 - self.taken) as usize
    }

    /// So many bytes were taken, and this was the last.
    #[inline]
    pub fn pass_run(&mut self, last: u8, n: usize)
        requires unseen { is_unseen self.old.ahead ≡ true }
        requires room { self.old.taken + n < 2 ^ 40 }
        ensures { self.new ≡ passed_run last n self.old }
    {
        self.taken += n as u64;
        self.inside = last != b'\n';
    }

    // The next byte of the source is read ahead, or its end is seen.
    fn see<R: Source>(&mut self, source: &mut R) -> Result<(), Refusal>
        ensures sees { (c : Coming) → HoldsComing c self.old (R.supply source.old)
            → AfterSee c result self.new (R.supply source.new) }
        ensures seen { OnOk result (is_seen self.new.ahead ≡ true) }
        ensures stays { StaysThere self.old self.new }
        ensures failures { R.failures source.new ≡ counted_if (fails_now self.old.ahead result)
            (R.failures source.old) }
        ensures unfailed { OnOk result (has_failed self.new.ahead ≡ has_failed self.old.ahead) }
        ensures keeps { KeepsRefusal result self.new.ahead }
        ensures again { RefusesAgain self.old.ahead result }
    {
        match self.ahead {
            Ahead::Byte(_) | Ahead::End => Ok(()),
            Ahead::Failed => Err(Refusal::ReadFault),
            Ahead::TooMany => Err(Refusal::TooLong),
            Ahead::Unseen => match source.next() {
                Err(_) => {
                    self.ahead = Ahead::Failed;
                    Err(Refusal::ReadFault)
                }
                Ok(None) => {
                    self.ahead = Ahead::End;
                    Ok(())
                }
                Ok(Some(byte)) => {
                    if self.taken + 1 >= TOO_MANY {
                        self.ahead = Ahead::TooMany;
                        return Err(Refusal::TooLong);
                    }
                    self.ahead = Ahead::Byte(byte);
                    Ok(())
                }
            },
        }
    }

    // What was looked at.
    fn next_item(&self) -> NextItem
        ensures { result ≡ seen_item self.now.ahead self.now.inside }
    {
        match self.ahead {
            Ahead::Byte(byte) => NextItem::Byte(byte),
            Ahead::End => {
                if self.inside {
                    NextItem::Byte(b'\n')
                } else {
                    NextItem::Over
                }
            }
            _ => NextItem::Over,
        }
    }

    // What was looked at is taken.
    fn pass(&mut self)
        ensures { self.new ≡ passed self.old }
    {
        match self.ahead {
            Ahead::Byte(byte) => {
                self.taken += 1;
                self.ahead = Ahead::Unseen;
                self.inside = byte != b'\n';
            }
            Ahead::End => self.inside = false,
            _ => {}
        }
    }

    /// The next item of the list, which stays there.
    pub(crate) fn look<K: Copy, R: Source>(
        &mut self,
        store: &Store<K>,
        source: &mut R,
    ) -> Result<NextItem, Refusal>
        ensures looks { (c : Coming) → HoldsComing c self.old (R.supply source.old)
            → AfterLook (shown store.now.levels) c result self.new (R.supply source.new) }
        ensures ready { OnOk result (is_ready (shown store.now.levels) self.new.ahead ≡ true) }
        ensures next_item { IfOk result (λ f. f ≡ next_item_seen (shown store.now.levels) self.new) }
        ensures stays { StaysThere self.old self.new }
        ensures failures { R.failures source.new ≡ counted_if (fails_now self.old.ahead result)
            (R.failures source.old) }
        ensures unfailed { OnOk result (has_failed self.new.ahead ≡ has_failed self.old.ahead) }
        ensures keeps { KeepsRefusal result self.new.ahead }
        ensures again { shown store.now.levels ≡ shows.Nothing → RefusesAgain self.old.ahead result }
    {
        match store.look() {
            Sight::Item(element) => match element {
                Element::Byte(byte) => Ok(NextItem::Byte(byte)),
                Element::Cell(cell) => Ok(NextItem::Cell(cell)),
                Element::LineEnd(height) => Ok(NextItem::LineEnd(height.units())),
            },
            Sight::End => Ok(NextItem::Mark),
            Sight::Resume => Ok(NextItem::Resume),
            Sight::Nothing => {
                self.see(source)?;
                Ok(self.next_item())
            }
        }
    }

    /// The next item of the list, which was looked at, is taken. Answers what was taken of the levels, and puts a mode
    /// into `mode`.
    pub(crate) fn take<K: Copy>(&mut self, store: &mut Store<K>, mode: &mut K) -> Sight
        requires { is_ready (shown store.old.levels) self.old.ahead ≡ true }
        ensures was { shown_with result mode.new ≡ shown store.old.levels }
        ensures store { store.new ≡ left store.old.levels store.old }
        ensures place { self.new ≡ passed_in (shown store.old.levels) self.old }
        ensures takes { (c : Coming) → (supply : Option Supply) → HoldsComing c self.old supply
            → HoldsComing (afterwards (shown store.old.levels) c) self.new supply }
    {
        let sight = store.take(mode);
        match sight {
            Sight::Nothing => self.pass(),
            _ => {}
        }
        sight
    }

    /// What is unread of the source is to come no more: the source is not asked again. Levels are the store's (CSTR 54, `.ex`).
    pub fn empty(&mut self)
        ensures place { self.new ≡ ended self.old }
        ensures coming { (c : Coming) → (supply : Option Supply) → HoldsComing c self.old supply
            → HoldsComing (emptied c) self.new supply }
    {
        self.ahead = Ahead::End;
        self.inside = false;
    }
}
