//! What a move does that is pending.
ghost use Rattle.std.specs.Prelude.{◌≡◌};
ghost use Rattle.nr_input.specs.Acting.{calls_of, calls_of_request, request_of, after_held, after_lead};

use super::reader::Reader;
use super::refusal::Refusal;
use nr_reading::{Calls, Event, PendingAct, Sign};
use nr_store::{Element, Meaning, Request, Store};
use nr_units::{Name, format_number};

// What a request's name calls.
fn calls_of_request(request: Request) -> Calls
    ensures { result ≡ calls_of_request request }
{
    match request {
        Request::Ds => Calls::NewString,
        Request::As => Calls::MoreString,
        Request::If => Calls::If,
        Request::Ie => Calls::IfElse,
        Request::El => Calls::Else,
        Request::Tl => Calls::Title,
        _ => Calls::Request,
    }
}

// What a name calls.
fn calls_of(meaning: Meaning) -> Calls
    ensures { result ≡ calls_of meaning }
{
    match meaning {
        Meaning::Unknown => Calls::Nothing,
        Meaning::Request(request) => calls_of_request(request),
        Meaning::Text => Calls::Macro,
    }
}

// The request that is called, if one is.
fn request_of(meaning: Meaning, old: Request) -> Request
    ensures { result ≡ request_of meaning old }
{
    match meaning {
        Meaning::Request(request) => request,
        _ => old,
    }
}

// What is pending after a byte that was held back.
fn after_held(held: u8, next: u8, then: Option<u8>) -> PendingAct
    ensures { result ≡ after_held held next then }
{
    if next < held && next + 1 < held {
        return PendingAct::Release {
            held,
            next: next + 1,
            then,
        };
    }
    match then {
        Some(byte) => PendingAct::Add(byte),
        None => PendingAct::Look,
    }
}

// What is pending after one of the blanks that a text line begins with.
fn after_lead(count: u32) -> PendingAct
    ensures { result ≡ after_lead count }
{
    if count <= 1 {
        return PendingAct::Look;
    }
    PendingAct::Lead(count - 1)
}

impl Reader {
    ghost use Rattle.std.specs.Prelude.{◌+◌, ◌≤◌, true, Ok};
    ghost use Rattle.nr_store.specs.Store.{stepped};
    ghost use Rattle.nr_input.specs.Acting.{name_in, adding_byte, naming, after_definition, has_text, expanded, splicing_name, splicing_bytes, meaning_in, is_look, then_pending, after_name};
    ghost use Rattle.nr_reading.specs.Seeking.{sought_event};
    ghost use Rattle.nr_input.specs.Refusal.{expanding_answer, storing_answer, splicing_answer, called, reader_by, answered, acted_by, acted};

    /// The limit of splices is asked.
    pub(crate) fn expand(&mut self) -> Result<Event, Refusal>
        ensures reader { self.new ≡ reader_by (expanding_answer self.old) (expanded self.old) self.old }
        ensures answer { result ≡ answered (expanding_answer self.old) Event.Nothing }
    {
        if self.burst >= self.most {
            self.half.reading.pending_act = PendingAct::Expanded;
            return Err(Refusal::Expansions);
        }
        self.burst += 1;
        self.half.reading.pending_act = PendingAct::Look;
        Ok(Event::Nothing)
    }

    /// So many splices more are counted: they must be allowed.
    #[inline(always)]
    pub fn count_splices(&mut self, count: usize)
        requires { self.old.burst + count ≤ self.old.most }
        ensures { self.new ≡ record self.old { burst = self.old.burst + count } }
    {
        self.burst += count as u64;
    }

    // The name that is read, or that a text is defined under.
    fn name(&self) -> Name
        ensures { result ≡ name_in self.now }
    {
        self.half.notes.name.name()
    }

    /// A string's text begins.
    pub fn begin<K: Copy>(&mut self, store: &mut Store<K>) -> Result<Event, Refusal>
        ensures { called store.new self.new result ≡ acted PendingAct.Begin store.old self.old }
    {
        let begun = if self.half.notes.defining.appends {
            store.begin_from(self.name())
        } else {
            store.begin()
        };
        match begun {
            Ok(()) => {
                self.half.reading.pending_act = PendingAct::Look;
                Ok(Event::Nothing)
            }
            Err(_) => Err(Refusal::Stored),
        }
    }

    // A byte is added to the text that is built, and then this is pending.
    fn add<K: Copy>(
        &mut self,
        byte: u8,
        pending_act: PendingAct,
        store: &mut Store<K>,
    ) -> Result<Event, Refusal>
        ensures { let a = adding_byte byte pending_act store.old self.old in
            called store.new self.new result ≡ acted_by (storing_answer a.stored) a store.old self.old }
    {
        match store.add(Element::Byte(byte)) {
            Ok(()) => {
                self.half.reading.pending_act = pending_act;
                Ok(Event::Nothing)
            }
            Err(_) => Err(Refusal::Stored),
        }
    }

    // A byte that was held back is added.
    fn release<K: Copy>(
        &mut self,
        held: u8,
        next: u8,
        then: Option<u8>,
        store: &mut Store<K>,
    ) -> Result<Event, Refusal>
        ensures { called store.new self.new result ≡ acted (PendingAct.Release held next then) store.old self.old }
    {
        let byte = self.half.notes.defining.last_line_byte(next);
        self.add(byte, after_held(held, next, then), store)
    }

    // The text takes its name, where it is kept.
    fn name_text<K: Copy>(&self, store: &mut Store<K>)
        ensures { store.new ≡ naming self.now store.old }
    {
        if self.half.notes.defining.keeps {
            store.define(self.name());
        }
    }

    // What is pending after a definition of lines.
    fn after_definition(&self) -> PendingAct
        ensures { result ≡ after_definition self.now }
    {
        if self.half.notes.defining.ending.is_empty() {
            return PendingAct::Look;
        }
        PendingAct::CallEnding
    }

    // The text of a name is spliced, with no arguments in force.
    fn splice<K: Copy>(&mut self, name: Name, store: &mut Store<K>) -> Result<Event, Refusal>
        ensures { let a = splicing_name name store.old self.old in
            called store.new self.new result
            ≡ acted_by (splicing_answer (has_text name store.old) a.stored self.old) a
            store.old self.old }
    {
        match store.enter(name) {
            Err(refusal) => Err(Refusal::from(refusal)),
            Ok(spliced) => {
                if spliced {
                    return self.expand();
                }
                self.half.reading.pending_act = PendingAct::Look;
                Ok(Event::Nothing)
            }
        }
    }

    // A macro is called with the arguments that were read.
    fn call<K: Copy>(&mut self, store: &mut Store<K>) -> Result<Event, Refusal>
        ensures { called store.new self.new result ≡ acted PendingAct.Call store.old self.old }
    {
        match store.call(self.name()) {
            Err(refusal) => Err(Refusal::from(refusal)),
            Ok(called) => {
                if called {
                    return self.expand();
                }
                self.half.reading.pending_act = PendingAct::Look;
                Ok(Event::Nothing)
            }
        }
    }

    /// Bytes are spliced, the arguments staying in force.
    pub(crate) fn splice_bytes<K: Copy>(
        &mut self,
        bytes: &[u8],
        store: &mut Store<K>,
    ) -> Result<Event, Refusal>
        ensures { let a = splicing_bytes bytes.now store.old self.old in
            called store.new self.new result ≡ acted_by (splicing_answer true a.stored self.old) a
            store.old self.old }
    {
        match store.enter_bytes(bytes) {
            Err(refusal) => Err(Refusal::from(refusal)),
            Ok(()) => self.expand(),
        }
    }

    // A register is spliced.
    fn splice_register<K: Copy>(&mut self, store: &mut Store<K>) -> Result<Event, Refusal>
        ensures { called store.new self.new result ≡ acted (PendingAct.Register Sign.None) store.old self.old }
    {
        let register = store.register(self.half.notes.asked);
        let text = format_number(i64::from(register.value), register.format);
        self.splice_bytes(text.as_slice(), store)
    }

    // An argument is spliced.
    fn splice_argument<K: Copy>(&mut self, n: u8, store: &mut Store<K>) -> Result<Event, Refusal>
        ensures { called store.new self.new result ≡ acted (PendingAct.Argument n) store.old self.old }
    {
        match store.enter_argument(usize::from(n)) {
            Err(refusal) => Err(Refusal::from(refusal)),
            Ok(()) => self.expand(),
        }
    }

    /// A register's step is added or taken away; it is spliced next.
    pub fn step<K: Copy>(&mut self, up: bool, store: &mut Store<K>) -> Result<Event, Refusal>
        ensures { called store.new self.new result
            ≡ called (stepped self.old.half.notes.asked up store.old)
            (then_pending (PendingAct.Register Sign.None) self.old) (Ok Event.Nothing) }
    {
        store.step_register(self.half.notes.asked, up);
        self.half.reading.pending_act = PendingAct::Register(Sign::None);
        Ok(Event::Nothing)
    }

    // A register is spliced; where it has a sign, its step is made first.
    fn interpolate<K: Copy>(&mut self, sign: Sign, store: &mut Store<K>) -> Result<Event, Refusal>
        ensures { called store.new self.new result ≡ acted (PendingAct.Register sign) store.old self.old }
    {
        match sign {
            Sign::None => self.splice_register(store),
            Sign::Plus => self.step(true, store),
            Sign::Minus => self.step(false, store),
        }
    }

    /// A byte is added to the argument that is read.
    #[inline]
    pub fn put<K: Copy>(&mut self, byte: u8, store: &mut Store<K>) -> Result<Event, Refusal>
        ensures { called store.new self.new result ≡ acted (PendingAct.Put byte) store.old self.old }
    {
        match store.add_argument_byte(byte) {
            Ok(()) => {
                self.half.reading.pending_act = PendingAct::Look;
                Ok(Event::Nothing)
            }
            Err(_) => Err(Refusal::Stored),
        }
    }

    /// The argument that is read ends.
    #[inline]
    pub fn end_argument<K: Copy>(&mut self, store: &mut Store<K>)
        ensures { called store.new self.new (Ok Event.Nothing) ≡ acted PendingAct.EndArgument store.old self.old }
    {
        store.end_argument();
        self.half.reading.pending_act = PendingAct::Look;
    }

    /// What the name that was read means.
    pub fn meaning<K: Copy>(&self, store: &Store<K>) -> Meaning
        ensures { result ≡ meaning_in store.now self.now }
    {
        let spelled = &self.half.notes.name;
        if spelled.bad || spelled.bytes.is_empty() {
            return Meaning::Unknown;
        }
        store.lookup(spelled.bytes)
    }

    /// What the name of a control line means is taken. Answers what is emitted of it.
    #[inline(always)]
    pub fn take_meaning(&mut self, meaning: Meaning) -> Event
        ensures reader { self.new ≡ after_name meaning self.old }
        ensures emitted { result ≡ sought_event (calls_of meaning) }
    {
        let calls = calls_of(meaning);
        self.half.reading.pending_act = PendingAct::Look;
        self.half.seek(calls);
        self.request = request_of(meaning, self.request);
        calls.event()
    }

    /// The name of a control line is looked up. Answers what is emitted of it.
    #[inline(always)]
    pub fn seek<K: Copy>(&mut self, store: &mut Store<K>) -> Event
        ensures { called store.new self.new (Ok result) ≡ acted PendingAct.Seek store.old self.old }
    {
        let meaning = self.meaning(store);
        if matches!(meaning, Meaning::Text) {
            store.begin_arguments();
        }
        self.take_meaning(meaning)
    }

    /// Nothing is pending: the next item is looked at.
    #[inline]
    pub fn looks(&self) -> bool
        ensures { result ≡ is_look self.now.half.reading.pending_act }
    {
        matches!(self.half.reading.pending_act, PendingAct::Look)
    }

    /// Does what is pending.
    ///
    /// Proved: What is pending with the store is done as the definition says, which knows no limit, or refused where a
    /// limit would be passed, and where that leaves all is reported.
    pub fn act<K: Copy>(&mut self, store: &mut Store<K>) -> Result<Event, Refusal>
        ensures { called store.new self.new result ≡ acted self.old.half.reading.pending_act store.old self.old }
    {
        match self.half.reading.pending_act {
            PendingAct::Look => Ok(Event::Nothing),
            PendingAct::Begin => self.begin(store),
            PendingAct::Add(byte) => self.add(byte, PendingAct::Look, store),
            PendingAct::Release { held, next, then } => self.release(held, next, then, store),
            PendingAct::Define => {
                self.name_text(store);
                self.half.reading.pending_act = PendingAct::Look;
                Ok(Event::Nothing)
            }
            PendingAct::DefineAndCall => {
                self.name_text(store);
                self.half.reading.pending_act = self.after_definition();
                Ok(Event::Nothing)
            }
            PendingAct::CallEnding => self.splice(self.half.notes.defining.ending, store),
            PendingAct::Splice => self.splice(self.half.notes.asked, store),
            PendingAct::Register(sign) => self.interpolate(sign, store),
            PendingAct::Argument(n) => self.splice_argument(n, store),
            PendingAct::Put(byte) => self.put(byte, store),
            PendingAct::EndArgument => {
                self.end_argument(store);
                Ok(Event::Nothing)
            }
            PendingAct::Call => self.call(store),
            PendingAct::Seek => Ok(self.seek(store)),
            PendingAct::Judge(found) => {
                self.half.reading.pending_act = PendingAct::Look;
                self.half.judge(found);
                Ok(Event::Nothing)
            }
            PendingAct::Lead(count) => {
                self.half.reading.pending_act = after_lead(count);
                Ok(Event::Lead)
            }
            PendingAct::Expanded => Err(Refusal::Expansions),
        }
    }
}
