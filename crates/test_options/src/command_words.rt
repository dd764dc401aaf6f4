// Words of every length, words that are no UTF-8, and none.

use command_line::fakes::System;
use command_line::{SystemWords, words_of};
use std::alloc::{AllocError, Global};

/// The words of a system after its program's name.
fn words_in(words: &[&[u8]], alloc: Global) -> Result<Vec<String>, AllocError> {
    let system = System { words, texts: &[] };
    words_of(&SystemWords::new(&system, alloc), alloc)
}

/// Whether these are an option, an empty word, the long one, and one that was no UTF-8.
fn are_four(read: &[String], long: &[u8]) -> bool {
    read.len() == 4
        && read[0].as_str() == "-i"
        && read[1].as_str() == ""
        && read[2].as_bytes() == long
        && read[3].as_str() == "a\u{fffd}b"
}

#[test]
fn reads_each_word_after_the_name(rt: HostRuntime) -> Result<(), AllocError> {
    let long = [b'x'; 1000];
    let read = words_in(&[b"nroff", b"-i", b"", &long, b"a\xffb"], rt.alloc())?;
    assert!(rt; are_four(&read, &long));
    Ok(())
}

/// How many words a system has after its program's name.
fn count_in(words: &[&[u8]], alloc: Global) -> Result<usize, AllocError> {
    Ok(words_in(words, alloc)?.len())
}

#[test]
fn there_may_be_none(rt: HostRuntime) -> Result<(), AllocError> {
    assert!(rt; count_in(&[b"nroff"], rt.alloc())? == 0);
    assert!(rt; count_in(&[], rt.alloc())? == 0);
    Ok(())
}
