//! Texts that name others: a line `.so NAME` is followed within a folder, and nowhere else.
//!
//! It stands on nr_units, nr_vectors and document_stages. To read: `names`; `places`, `folder`, `inside`; `omissions`, `ahead`,
//! `following`, `joining`.
#![tactic(auto)]

mod ahead;
mod folder;
mod following;
mod inside;
mod joining;
mod names;
mod omissions;
mod places;

pub use folder::{Folder, Found, Why};
pub use inside::Inside;
pub use joining::{Joining, Limits};
pub use names::{is_inner, so_name};
pub use omissions::{LeftOut, Omissions};
pub use places::{Places, System};
