//! Nothing for other crates: tests of a page's own characters: texts that are looked at, coded and shown again.
//!
//! It stands on utf8_own_characters, utf8_own_stage, utf8_own_sink, document_stages, nr_vectors and nr_units. To read: `texts`, `come_back`.
#![tactic(auto)]

#[cfg(test)]
mod come_back;
#[cfg(test)]
mod texts;
