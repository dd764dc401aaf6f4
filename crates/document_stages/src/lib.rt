//! Texts that go through stages: a stage over a source is itself a source, so one stage reads what another makes; and a
//! source is turned by a stage into a sink.
//!
//! It stands on nr_units and nr_vectors. To read: `stage`, `switch`; `step`; `pull`, which joins a stage to a source;
//! `running`, which joins it to a source and a sink; `joined`, `counted`, `gathered`, `text`, `buffer`.
#![tactic(auto)]

mod buffer;
mod counted;
mod gathered;
mod joined;
mod pull;
mod running;
mod stage;
mod step;
mod switch;
mod text;

pub use buffer::Buffer;
pub use counted::{Counted, Lines};
pub use gathered::{Ahead, Gathered};
pub use joined::Joined;
pub use pull::Pull;
pub use running::{RunEnd, run};
pub use stage::{LEAST_ROOM, Stage};
pub use switch::Switch;
pub use text::Text;
