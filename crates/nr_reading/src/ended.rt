//! What an escape asks for that has ended.
ghost use Rattle.std.specs.Prelude.{◌≡◌};
ghost use Rattle.nr_reading.specs.Ended.{pending_of, event_of};
ghost use Rattle.nr_reading.specs.Spelled.{name_of};

use super::ask::{Ask, Kind, is_given};
use super::event::Event;
use super::mode::PendingAct;

impl Ask {
    /// What is pending once it has ended.
    pub(crate) fn pending_act(&self) -> PendingAct
        ensures { result ≡ pending_of self.now.kind (name_of self.now.name) }
    {
        match self.kind {
            Kind::String => PendingAct::Splice,
            Kind::Register(sign) => {
                if is_given(self.name.name().as_bytes()) {
                    return PendingAct::Look;
                }
                PendingAct::Register(sign)
            }
            _ => PendingAct::Look,
        }
    }

    /// What is emitted once it has ended.
    pub(crate) fn event(&self) -> Event
        ensures { result ≡ event_of self.now.kind (name_of self.now.name) }
    {
        match self.kind {
            Kind::Register(_) => {
                if is_given(self.name.name().as_bytes()) {
                    return Event::Given;
                }
                Event::Nothing
            }
            Kind::Width => Event::Width,
            Kind::Font => Event::Font,
            Kind::Special => Event::Special,
            Kind::Horizontal => Event::Horizontal,
            Kind::Rule => Event::Rule,
            _ => Event::Nothing,
        }
    }
}
