//! What the program is given beside its words.

use program_options::{Device, device_of_locale};
use std::alloc::Global;
use std::env::FillError;
use std::rt::Env;

/// The bytes of the longest word of a locale that is read.
const LONGEST_LOCALE: usize = 256;

/// What the program is given beside its words.
#[derive(Clone, Copy)]
pub struct Surroundings {
    /// The memory.
    pub alloc: Global,
    /// What pages are printed in where no word says it.
    pub device: Device,
    /// Pages go to a terminal that takes escape sequences.
    pub shows: bool,
}

impl Surroundings {
    /// Those of a system, by the words of its locale. A variable GROFF_NO_SGR says that escape sequences are not wanted
    /// (groff's grotty(1), "Environment").
    pub fn of<R: Env>(system: &R, alloc: Global, shows: bool) -> Surroundings {
        let mut all = [0; LONGEST_LOCALE];
        let mut ctype = [0; LONGEST_LOCALE];
        let mut lang = [0; LONGEST_LOCALE];
        let device = device_of_locale(
            variable(system, "LC_ALL", &mut all),
            variable(system, "LC_CTYPE", &mut ctype),
            variable(system, "LANG", &mut lang),
        );
        Surroundings {
            alloc,
            device,
            shows: shows && !is_set(system, "GROFF_NO_SGR"),
        }
    }
}

/// Whether a variable of the environment is set, be it empty.
fn is_set<R: Env>(system: &R, name: &str) -> bool {
    let mut value = [0; 1];
    match system.var(name, &mut value) {
        Ok(_) | Err(FillError::TooLong) => true,
        Err(FillError::NotPresent) => false,
    }
}

/// The value of a variable of the environment; empty where it is not set, or longer than the buffer.
fn variable<'b, R: Env>(system: &R, name: &str, buffer: &'b mut [u8]) -> &'b [u8] {
    match system.var(name, buffer) {
        Ok(count) => &buffer[..count],
        Err(_) => &[],
    }
}
