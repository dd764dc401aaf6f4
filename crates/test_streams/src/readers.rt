// How often readers are called, which of their answers are faults, and that no byte is lost at one.
ghost use Rattle.std.specs.Prelude.{◌≤◌};

use crate::turns::{Answer, TEXT, Uneven};
use nr_units::buffered::Buffered;
use nr_units::fakes::Script;
use nr_units::over_std::{FromReader, RETRIES};
use nr_units::source::{Fault, Source};

/// Reads to the end, goes on after faults, and returns how many bytes came and how many faults.
fn read_all<S: Source>(source: &mut S, bytes: &mut [u8; 32]) -> (usize, usize) {
    let mut used = 0;
    let mut faults = 0usize;
    for _ in 0..64 {
        match source.next() {
            Ok(Some(byte)) => {
                if used < 32 {
                    bytes[used] = byte;
                    used += 1;
                }
            }
            Ok(None) => return (used, faults),
            Err(Fault) => faults = faults.saturating_add(1),
        }
    }
    (used, faults)
}

/// Whether the whole text comes, with this many faults.
fn gives_text<S: Source>(source: &mut S, faults: usize) -> bool {
    let mut bytes = [0; 32];
    read_all(source, &mut bytes) == (7, faults) && bytes[..7] == TEXT[..]
}

/// Whether the text and then its end come by way of this room.
fn ends_after_text(room: &mut [u8]) -> bool {
    let turns = [Answer::AtMost(2), Answer::AtMost(1), Answer::AtMost(3)];
    let mut reader = Uneven::new(TEXT, &turns);
    let mut source = Buffered::over(&mut reader, room);
    gives_text(&mut source, 0) && source.next() == Ok(None)
}

#[test]
fn a_buffer_of_any_length_gives_the_same(rt: HostRuntime) {
    let mut room = [0; 9];
    for length in 0..10 {
        assert!(rt; ends_after_text(&mut room[..length]), "with {length}");
    }
}

/// What the first call for a byte answers, how many failed then, and how often the reader was called.
fn first_answer(turns: &[Answer]) -> (Result<Option<u8>, Fault>, u64, usize) {
    let mut reader = Uneven::new(TEXT, turns);
    let mut source = FromReader::over(&mut reader);
    let answer = source.next();
    let failed = source.failed_calls();
    (answer, failed, reader.calls)
}

/// What the first two calls for a byte answer, and how many failed then.
fn two_answers(turns: &[Answer]) -> (Result<Option<u8>, Fault>, Result<Option<u8>, Fault>, u64) {
    let mut source = FromReader::over(Uneven::new(TEXT, turns));
    let first = source.next();
    let second = source.next();
    (first, second, source.failed_calls())
}

#[test]
fn an_interrupted_read_is_tried_again(rt: HostRuntime) {
    assert!(rt; first_answer(&[Answer::Interrupted; 64]) == (Ok(Some(b'.')), 0, 65));
    assert!(rt; two_answers(&[Answer::Interrupted; 66]) == (Err(Fault), Ok(Some(b'.')), 1));
    assert_eq!(rt; RETRIES, 64);
}

/// Whether the text comes byte by byte from a reader that fails once, and that is counted.
fn a_source_loses_none(turns: &[Answer]) -> bool {
    let mut source = FromReader::over(Uneven::new(TEXT, turns));
    gives_text(&mut source, 1) && source.failed_calls() == 1
}

#[test]
fn a_source_that_fails_loses_no_byte(rt: HostRuntime) {
    for place in 0..8 {
        let mut turns = [Answer::AtMost(1); 8];
        turns[place] = Answer::Broken;
        assert!(rt; a_source_loses_none(&turns), "at {place}");
    }
}

/// Whether the text comes by way of a buffer from a reader that fails once, and that is counted.
fn a_buffer_loses_none(turns: &[Answer]) -> bool {
    let mut room = [0; 4];
    let mut source = Buffered::over(Uneven::new(TEXT, turns), &mut room);
    gives_text(&mut source, 1) && source.failed_calls() == 1
}

#[test]
fn a_buffer_that_fails_loses_no_byte(rt: HostRuntime) {
    for place in 0..8 {
        let mut turns = [Answer::AtMost(1); 8];
        turns[place] = Answer::Broken;
        assert!(rt; a_buffer_loses_none(&turns), "at {place}");
    }
}

/// Whether this many bytes come without a fault, and after the end the end again.
fn ends_after<S: Source>(source: &mut S, used: usize) -> bool {
    let mut bytes = [0; 32];
    read_all(source, &mut bytes) == (used, 0) && source.next() == Ok(None)
}

/// Whether a buffer sees the end after two bytes, and how often its reader was called.
fn end_by_buffer(turns: &[Answer]) -> (bool, usize) {
    let mut room = [0; 4];
    let mut reader = Uneven::new(TEXT, turns);
    let ends = ends_after(&mut Buffered::over(&mut reader, &mut room), 2);
    (ends, reader.calls)
}

/// Whether a source sees the end after one byte, and how often its reader was called.
fn end_by_byte(turns: &[Answer]) -> (bool, usize) {
    let mut reader = Uneven::new(TEXT, turns);
    let ends = ends_after(&mut FromReader::over(&mut reader), 1);
    (ends, reader.calls)
}

#[test]
fn an_end_is_seen_once(rt: HostRuntime) {
    assert!(rt; end_by_buffer(&[Answer::AtMost(2), Answer::AtMost(0)]) == (true, 2));
    assert!(rt; end_by_byte(&[Answer::AtMost(1), Answer::AtMost(0)]) == (true, 2));
}

/// Whether these bytes are at hand, and this byte comes next once the first two of them, if there are two, are skipped.
fn skips_two<S: Source>(source: &mut S, at_hand: &[u8], byte: u8) -> bool {
    if source.window() != at_hand {
        return false;
    }
    if source.window().len() >= 2 {
        source.skip(2);
    }
    source.next() == Ok(Some(byte))
}

/// Whether the bytes that a buffer has at hand come next, also where it is called by reference.
fn a_buffer_skips() -> bool {
    let mut room = [0; 4];
    let mut source = Buffered::over(Uneven::new(TEXT, &[]), &mut room);
    source.next() == Ok(Some(b'.'))
        && skips_two(&mut &mut source, b"br\n", b'\n')
        && source.window().is_empty()
        && source.next() == Ok(Some(b'a'))
}

/// Whether the bytes that a script has at hand come next, and then its fault.
fn a_script_skips() -> bool {
    let mut script = Script::failing_after(TEXT, 3);
    skips_two(&mut script, b".br", b'r') && script.next() == Err(Fault)
}

#[test]
fn a_window_is_what_comes_next(rt: HostRuntime) {
    assert!(rt; a_buffer_skips());
    assert!(rt; a_script_skips());
    let mut reader = FromReader::over(Uneven::new(TEXT, &[]));
    assert!(rt; skips_two(&mut reader, b"", b'.'));
}
