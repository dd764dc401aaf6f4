//! For speed: many items at once: stretches of bytes, and what a stretch may be passed by. Each contract says only that so many steps of the meaning were made.

pub(crate) mod argument_stretches;
pub(crate) mod arguments;
pub(crate) mod braces;
pub(crate) mod condition_stretches;
pub(crate) mod control_names;
pub(crate) mod defined_texts;
pub(crate) mod interpolations;
pub(crate) mod line_stretches;
pub(crate) mod part_stretches;
pub(crate) mod passing;
pub(crate) mod request_lines;
pub(crate) mod request_stretches;
pub(crate) mod runs;
pub(crate) mod stretch;
pub(crate) mod string_stretches;
