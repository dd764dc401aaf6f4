//! Reading: what each item of the input does to what is half read. Plain data, and functions of it.
//!
//! It stands on nr_units and nr_vectors. To read: `next_item`, `event`, `spelled`, `ask`, `mode`, `ended`; `answers`, `kept`, `step`,
//! `notes`, `delimited`, `asks`; `escape`; a file for each group of modes, `text`, `text_escape`, `titles`,
//! `control`, `strings`, `definitions`, `conditions`, `skipping`; `reader`, which puts them together, and
//! `half`, where an item is taken in; `seeking`, `conditionals` and `setting`, what comes from outside; `runs`, many
//! items at once, with `passing`, `stretch`, `control_names`, `interpolations`, `arguments`, `request_lines`, `braces` and
//! `defined_texts`; and a file for each group of modes whose stretches have loops of their own, `line_stretches`, `condition_stretches`,
//! `request_stretches`, `part_stretches`, `argument_stretches`, `string_stretches`.
//!
//! Proved: The end of a level does nothing to what is half read. (`take_in-mark` in Marks.antt)
#![tactic(auto)]

mod answers;
mod ask;
mod asks;
mod conditionals;
mod conditions;
mod control;
mod definitions;
mod delimited;
mod ended;
mod escape;
mod event;
mod half;
mod kept;
mod many;
mod mode;
mod next_item;
mod notes;
mod reader;
mod seeking;
mod setting;
mod skipping;
mod spelled;
mod step;
mod strings;
mod text;
mod text_escape;
mod titles;

pub use answers::Answers;
pub use ask::{Ask, Kind, Sign, Stage};
pub use asks::Asks;
pub use delimited::Delimited;
pub use event::{Event, Question};
pub use half::{Half, Seen};
pub use kept::Kept;
pub use many::control_names::TakenInName;
pub use many::runs::{Items, Run};
pub use mode::{Calls, Escape, Mode, PendingAct, Reading, Signs, Standing};
pub use next_item::NextItem;
pub use notes::{Condition, Defining, Notes};
pub use spelled::Spelled;
