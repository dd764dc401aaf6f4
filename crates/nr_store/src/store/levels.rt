// Levels: texts that are being read.
ghost use Rattle.std.specs.Prelude.{◌≡◌, ◌+◌, ◌<◌, ◌≤◌, nat_lt, length, true, false, OnOk, OnErr, is_some, None, Some};
ghost use Rattle.nr_symbol_tables.specs.Table.{find};
ghost use Rattle.nr_levels.specs.Levels.{argument};
ghost use Rattle.nr_store.specs.Store.{charge_of, checked, words, entered, reading_bytes, shown, left, dropped, emptied};
ghost use Rattle.nr_store.specs.Windows.{elements_in, rest_of, left_times};
ghost use Rattle.nr_store.specs.Sights.{Shows, shown_with};
ghost use Rattle.nr_store.specs.declared.shown.Shown.TheVariants as shows;

use crate::element::Element;
use crate::refusal::Refusal;
use crate::shown::{Rest, Sight};
use crate::store::Store;
use crate::store::names::{lone_share, text_in};
use nr_levels::Next;
use nr_units::Name;

impl<K: Copy> Store<K> {
    /// Opens a level that reads the text of a name, with no arguments in force. Answers whether there is one.
    ///
    /// Proved: A text that is entered, called or sprung is read before all others, with its arguments, and its end
    /// brings back those before. (`Store::{enter, spring, enter_bytes, enter_argument}`; `Store::call` in
    /// store/arguments.rt)
    pub fn enter(&mut self, name: Name) -> Result<bool, Refusal>
        ensures answer { let text = words (find name self.old.names) in
            result ≡ checked (entered name text None self.old) (is_some text) }
        ensures ok { OnOk result (self.new ≡ entered name (words (find name self.old.names)) None self.old) }
        ensures err { OnErr result (self.new ≡ self.old) }
    {
        self.open(name, None)
    }

    /// As `enter`, with a mode that is resumed after the level's end.
    pub fn spring(&mut self, name: Name, mode: K) -> Result<bool, Refusal>
        ensures answer { let text = words (find name self.old.names) in
            result ≡ checked (entered name text (Some mode) self.old) (is_some text) }
        ensures ok { OnOk result (self.new ≡ entered name (words (find name self.old.names))
            (Some mode) self.old) }
        ensures err { OnErr result (self.new ≡ self.old) }
    {
        self.open(name, Some(mode))
    }

    // Opens a level that reads the text of a name, with no arguments in force.
    #[inline(always)]
    fn open(&mut self, name: Name, resume: Option<K>) -> Result<bool, Refusal>
        ensures answer { let text = words (find name self.old.names) in
            result ≡ checked (entered name text resume self.old) (is_some text) }
        ensures ok { OnOk result
            (self.new ≡ entered name (words (find name self.old.names)) resume self.old) }
        ensures err { OnErr result (self.new ≡ self.old) }
    {
        let Some(id) = text_in(&self.names, name) else {
            return Ok(false);
        };
        if self.stored - self.charge < 16 {
            return Err(Refusal::Stored);
        }
        if self.levels.is_full() {
            return Err(Refusal::Depth);
        }
        self.pool.hold(id);
        self.levels.open_text(id, 16, resume);
        self.charge += 16;
        Ok(true)
    }

    /// Opens a level that reads these bytes. The arguments stay in force.
    pub fn enter_bytes(&mut self, bytes: &[u8]) -> Result<(), Refusal>
        ensures answer { result ≡ checked (reading_bytes bytes.now self.old) tt }
        ensures ok { OnOk result (self.new ≡ reading_bytes bytes.now self.old) }
        ensures err { OnErr result (self.new ≡ self.old) }
    {
        let charge = 32 + bytes.len();
        if ((self.stored - self.charge) as usize) < charge {
            return Err(Refusal::Stored);
        }
        if self.levels.is_full() {
            return Err(Refusal::Depth);
        }
        self.levels.open_bytes(bytes, charge as u32);
        self.charge += charge as u32;
        Ok(())
    }

    /// Opens a level that reads the n-th argument, counted from 0, where it lies; an absent one is empty. All stay in
    /// force.
    pub fn enter_argument(&mut self, n: usize) -> Result<(), Refusal>
        ensures answer { result ≡ checked (reading_bytes (argument self.old.arguments n) self.old) tt }
        ensures ok { OnOk result (self.new ≡ reading_bytes (argument self.old.arguments n) self.old) }
        ensures err { OnErr result (self.new ≡ self.old) }
    {
        let charge = 32 + self.levels.argument_len(n);
        if ((self.stored - self.charge) as usize) < charge {
            return Err(Refusal::Stored);
        }
        if self.levels.is_full() {
            return Err(Refusal::Depth);
        }
        self.levels.open_argument(n, charge as u32);
        self.charge += charge as u32;
        Ok(())
    }

    /// The bytes of the n-th argument, counted from 0; an absent one has none.
    ///
    /// Proved: The bytes of an argument are shown where they lie, and whether so much more may be stored in a level
    /// more. (`Store::{argument, admits}`)
    #[inline]
    pub fn argument(&self, n: usize) -> &[u8]
        ensures { result.now ≡ argument self.now.arguments n }
    {
        self.levels.argument_bytes(n)
    }

    /// Whether there may be a level more, and so many bytes more may be charged, those of the level among them.
    #[inline]
    pub fn admits(&self, bytes: usize) -> bool
        ensures charge { result ≡ true → charge_of self.now + bytes ≤ self.now.limit }
        ensures depth { result ≡ true → length self.now.levels < self.now.deepest }
    {
        let room = (self.stored - self.charge) as usize;
        bytes <= room && !self.levels.is_full()
    }

    /// How many arguments are in force.
    #[inline]
    pub fn argument_count(&self) -> usize
        ensures { result ≡ length self.now.arguments }
    {
        self.levels.argument_count()
    }

    /// What comes next of the levels, which stays there.
    ///
    /// Proved: What comes next of the levels is shown and taken, one element or many at once, and many are the same
    /// as one by one. (`Store::{look, take, rest, skip}`)
    #[inline(always)]
    pub fn look(&self) -> Sight
        ensures { Shows result (shown self.now.levels) }
    {
        match self.levels.next_item() {
            Next::Nothing => Sight::Nothing,
            Next::Byte(byte) => Sight::Item(Element::Byte(byte)),
            Next::End => Sight::End,
            Next::Resume => Sight::Resume,
            Next::Text(id, place) => {
                let place = place as usize;
                if place < self.pool.len(id) {
                    return Sight::Item(self.pool.get(id, place));
                }
                Sight::End
            }
        }
    }

    /// Takes what comes next of the levels. Taking an end gives back the level's charge, with that of its text where
    /// neither a name nor another level has it, and puts the arguments before it in force again; the mode that is resumed
    /// after it, if there is one, comes next, and taking it puts it into `mode`.
    #[inline]
    pub fn take(&mut self, mode: &mut K) -> Sight
        ensures was { shown_with result mode.new ≡ shown self.old.levels }
        ensures is { self.new ≡ left self.old.levels self.old }
    {
        match self.levels.next_item() {
            Next::Nothing => Sight::Nothing,
            Next::Byte(byte) => {
                self.levels.advance();
                Sight::Item(Element::Byte(byte))
            }
            Next::End => {
                self.charge -= self.levels.close();
                Sight::End
            }
            Next::Resume => {
                self.levels.resume(mode);
                Sight::Resume
            }
            Next::Text(id, place) => {
                let place = place as usize;
                if place < self.pool.len(id) {
                    let element = self.pool.get(id, place);
                    self.levels.advance();
                    return Sight::Item(element);
                }
                let own = lone_share(&self.pool, id);
                self.pool.release(id);
                self.charge -= own + self.levels.close();
                Sight::End
            }
        }
    }

    /// Takes the end of the newest level, as `take` does, if it comes next. Tells whether it came.
    #[inline(always)]
    pub fn take_end(&mut self) -> bool
        ensures came { result ≡ true → shown self.old.levels ≡ shows.End }
        ensures is { result ≡ true → self.new ≡ left self.old.levels self.old }
        ensures stays { result ≡ false → self.new ≡ self.old }
    {
        match self.levels.next_item() {
            Next::End => {
                self.charge -= self.levels.close();
                true
            }
            Next::Text(id, place) => {
                if (place as usize) < self.pool.len(id) {
                    return false;
                }
                let share = lone_share(&self.pool, id);
                self.pool.release(id);
                self.charge -= share + self.levels.close();
                true
            }
            _ => false,
        }
    }

    /// Whether a level is being read.
    #[inline]
    pub fn is_reading(&self) -> bool
        ensures { result ≡ nat_lt 0 (length self.now.levels) }
    {
        self.levels.depth() > 0
    }

    /// All that is left of the newest level's text: nothing where there is no level, and where its end was taken.
    #[inline(always)]
    pub fn rest(&self) -> Rest<'_>
        ensures { elements_in result ≡ rest_of self.now.levels }
    {
        match self.levels.rest() {
            nr_levels::Rest::Text(id, place) => {
                let text = self.pool.text(id);
                if text.len() <= place as usize {
                    return Rest::Text(&[]);
                }
                Rest::Text(&text[place as usize..])
            }
            nr_levels::Rest::Bytes(bytes) => Rest::Bytes(bytes),
        }
    }

    /// Takes so many elements of the newest level, which it has left.
    #[inline(always)]
    pub fn skip(&mut self, n: u32)
        requires { n ≤ length (rest_of self.old.levels) }
        ensures { self.new ≡ left_times n self.old }
    {
        self.levels.skip(n);
    }

    // Takes the newest level away, its text unread.
    fn drop_level(&mut self)
        ensures { self.new ≡ dropped self.old.levels self.old }
    {
        match self.levels.next_item() {
            Next::Nothing => {}
            Next::Byte(_) => self.charge -= self.levels.close(),
            Next::End => self.charge -= self.levels.close(),
            Next::Resume => self.levels.drop_mode(),
            Next::Text(id, _) => {
                let text = lone_share(&self.pool, id);
                self.pool.release(id);
                self.charge -= text + self.levels.close();
            }
        }
    }

    /// Takes all levels away, and the arguments in force and those that are being read. It takes as many steps as there
    /// are levels.
    pub fn clear_levels(&mut self)
        ensures { self.new ≡ emptied self.old }
    {
        while self.levels.depth() > 0 {
            self.drop_level();
        }
        self.levels.forget_arguments();
        self.begin_arguments();
    }
}
