//! Nothing for other crates: tests of what the words of nulbiko mean: those of its own, and those that man-db, debhelper,
//! lintian and makefiles give GNU nroff; what a text asks for by itself.
//!
//! It stands on program_options, program_plan and nr_options. To read: the files in any order.
#![tactic(auto)]

#[cfg(test)]
mod bad_words;
#[cfg(test)]
mod good_words;
#[cfg(test)]
mod locales;
#[cfg(test)]
mod plans;
