//! Requests that only set or make space, acted on as soon as their line was read: many moves at once.
ghost use Rattle.std.specs.Prelude.{◌≡◌, ◌≤◌, true, false};
ghost use Rattle.nr_formatter.specs.Many.Obeying.{sets_or_spaces, is_nr, breaks_first, breaks_idly, after_space, moves_spacing, may_obey, obeyed, moves_obeying};
ghost use Rattle.nr_formatter.specs.Requests.{act};

use crate::formatter::Formatter;
use crate::paper::Outlet;
use crate::requests::breaks;
use crate::tasks::{Task, Then};
use nr_input::Event;
use nr_store::Request;

/// A request that sets, has the input read on or makes space, and does nothing else.
#[inline]
fn sets_or_spaces(request: Request) -> bool
    ensures { result ≡ sets_or_spaces request }
{
    matches!(
        request,
        Request::Ad
            | Request::Br
            | Request::Ce
            | Request::Fi
            | Request::Ft
            | Request::Hy
            | Request::In
            | Request::It
            | Request::Lc
            | Request::Ll
            | Request::Lt
            | Request::Na
            | Request::Ne
            | Request::Nf
            | Request::Nh
            | Request::Ns
            | Request::Pc
            | Request::Pl
            | Request::Po
            | Request::Rs
            | Request::Sp
            | Request::Ta
            | Request::Tc
            | Request::Ti
            | Request::Ul
            | Request::Vs
    )
}

/// `.nr`, which only sets, and may be refused.
#[inline]
fn is_nr(request: Request) -> bool
    ensures { result ≡ is_nr request }
{
    matches!(request, Request::Nr)
}

impl Formatter {
    /// Space that is to be made is made, if there is none or the open page has room. Tells how many moves that was.
    #[inline(always)]
    fn make_space(&mut self) -> u32
        ensures moves { result ≡ moves_spacing self.old }
        ensures is { self.new ≡ after_space self.old }
        ensures few { result ≤ 1 }
    {
        let Task::Space(distance) = self.task else {
            return 0;
        };
        if self.is_spaceless(distance) {
            self.task = Task::Read;
            return 1;
        }
        if !matches!(self.outlet(), Outlet::Room) {
            return 0;
        }
        self.space_down(distance);
        1
    }

    /// Such a request takes effect, and its space is made, if there is none or the open page has room. Tells how many moves the
    /// space was.
    #[inline(never)]
    fn set_or_space(&mut self, request: Request) -> u32
        requires { sets_or_spaces request ≡ true }
        ensures moves { result ≡ moves_spacing (act request self.old) }
        ensures is { self.new ≡ after_space (act request self.old) }
        ensures few { result ≤ 1 }
    {
        match request {
            Request::Ad => self.ad(),
            Request::Ce => self.ce(),
            Request::Fi => self.fi(),
            Request::Ft => self.ft(),
            Request::Hy => self.hy(),
            Request::In => self.in_(),
            Request::It => self.it(),
            Request::Lc => self.lc(),
            Request::Ll => self.ll(),
            Request::Lt => self.lt(),
            Request::Na => self.na(),
            Request::Ne => self.ne(),
            Request::Nf => self.nf(),
            Request::Nh => self.nh(),
            Request::Ns => self.ns(),
            Request::Pc => self.pc(),
            Request::Pl => self.pl(),
            Request::Po => self.po(),
            Request::Rs => self.rs(),
            Request::Sp => {
                self.sp();
                return self.make_space();
            }
            Request::Ta => self.ta(),
            Request::Tc => self.tc(),
            Request::Ti => self.ti(),
            Request::Ul => self.ul(),
            Request::Vs => self.vs(),
            _ => self.task = Task::Read,
        }
        0
    }

    /// Whether the request breaks before it takes effect.
    #[inline]
    fn breaks_first(&self, request: Request) -> bool
        requires { request ≡ self.now.reader.request }
        ensures { result ≡ breaks_first self.now }
    {
        breaks(request) && !self.reader.no_break()
    }

    /// Whether its break does nothing: nothing is collected, and no page begins.
    #[inline]
    fn breaks_idly(&self, request: Request) -> bool
        requires { request ≡ self.now.reader.request }
        ensures { result ≡ breaks_idly self.now }
    {
        self.line.is_empty() && !self.begins_first_page(Then::Act(request))
    }

    /// Whether no macro springs, and all that the request does is to set or to make space, never refused.
    #[inline]
    fn acts_freely(&self, request: Request, breaks: bool) -> bool
        requires request { request ≡ self.now.reader.request }
        requires breaks { breaks ≡ breaks_first self.now }
        ensures may { result ≡ true → may_obey self.now ≡ true }
        ensures sets { result ≡ true → sets_or_spaces request ≡ true }
        ensures other { is_nr request ≡ false → result ≡ may_obey self.now }
    {
        self.springs.is_none()
            && (sets_or_spaces(request) && (!breaks || self.breaks_idly(request)))
    }

    /// `.nr` takes effect, if no macro springs and it is not refused. Tells how many moves that was.
    #[inline(never)]
    fn obey_nr(&mut self) -> u32
        requires request { is_nr self.old.reader.request ≡ true }
        ensures moves { result ≡ moves_obeying self.old }
        ensures is { self.new ≡ obeyed self.old }
    {
        if self.springs.is_some() {
            return 0;
        }
        let (event, task) = (self.event, self.task);
        self.event = Event::Nothing;
        self.task = Task::Act(Request::Nr);
        if self.nr().is_err() {
            self.event = event;
            self.task = task;
            return 0;
        }
        2
    }

    /// The request whose line was read takes effect, if it only sets or makes space, is not refused, and its break does nothing; its
    /// space is made, if there is none or the open page has room. Tells how many moves that was.
    ///
    /// Proved: A request that only sets or makes space takes effect as soon as its line was read, where no macro
    /// springs, its break does nothing and it is not refused; the space of `.sp` is made then, where there is none or
    /// the open page has room. That this is two to four moves is fast_machine's claim.
    #[inline]
    pub fn obey(&mut self) -> u32
        ensures moves { result ≡ moves_obeying self.old }
        ensures is { self.new ≡ obeyed self.old }
    {
        let request = self.reader.request();
        let breaks = self.breaks_first(request);
        if !self.acts_freely(request, breaks) {
            return if is_nr(request) { self.obey_nr() } else { 0 };
        }
        self.event = Event::Nothing;
        self.task = Task::Act(request);
        if !breaks {
            return 2 + self.set_or_space(request);
        }
        self.break_done(Then::Act(request));
        3 + self.set_or_space(request)
    }
}
