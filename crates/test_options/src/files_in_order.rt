// Files one after the other: their bytes, newlines that are added, and faults.
use nr_command_options::chain;
use nr_units::fakes::Script;
use nr_units::source::{Fault, Source};

/// Takes the bytes at hand, if they fit, and gives how many.
fn take_window<S: Source>(source: &mut S, bytes: &mut [u8]) -> usize {
    let at_hand = source.window();
    let count = at_hand.len();
    if count > bytes.len() {
        return 0;
    }
    bytes[..count].copy_from_slice(at_hand);
    source.skip(count);
    count
}

/// Takes all bytes that come before the end or the first fault, by windows where `windows` says so.
fn taken<S: Source>(
    source: &mut S,
    windows: bool,
    bytes: &mut [u8; 40],
) -> (usize, Result<(), Fault>) {
    let mut used = 0;
    for _ in 0..100 {
        if windows {
            let count = take_window(source, &mut bytes[used..]);
            if 0 < count {
                used = used.saturating_add(count).min(40);
                continue;
            }
        }
        match source.next() {
            Ok(Some(byte)) => {
                if used < 40 {
                    bytes[used] = byte;
                    used += 1;
                }
            }
            Ok(None) => return (used, Ok(())),
            Err(fault) => return (used, Err(fault)),
        }
    }
    (used, Ok(()))
}

/// The same of files one after the other, and what the call after that answers.
fn taken_of(
    files: &mut [Script<'_>],
    windows: bool,
    bytes: &mut [u8; 40],
) -> (usize, Result<(), Fault>, Result<Option<u8>, Fault>) {
    let mut source = chain(files);
    let (used, end) = taken(&mut source, windows, bytes);
    (used, end, source.next())
}

/// Whether one of the files counts a call that failed.
fn has_failed(files: &[Script<'_>]) -> bool {
    files.iter().any(|file| file.failed_calls() != 0)
}

/// Whether the files give these bytes, then the end again and again, and no fault.
fn gives(files: &mut [Script<'_>], bytes: &[u8], windows: bool) -> bool {
    let mut out = [0; 40];
    let (used, end, again) = taken_of(files, windows, &mut out);
    end == Ok(()) && again == Ok(None) && !has_failed(files) && out.get(..used) == Some(bytes)
}

/// Whether a file gives its text, with a newline at its end if it is not empty.
fn one_gives(windows: bool) -> bool {
    let rows: [(&[u8], &[u8]); 3] = [(b"", b""), (b"a", b"a\n"), (b"a\n", b"a\n")];
    for (text, bytes) in rows {
        if !gives(&mut [Script::new(text)], bytes, windows) {
            return false;
        }
    }
    true
}

/// Three files' texts, and what they give.
static THREE: [([&[u8]; 3], &[u8]); 5] = [
    ([b".pl 1v\none", b"two", b""], b".pl 1v\none\ntwo\n"),
    ([b"a\n", b"", b"b"], b"a\nb\n"),
    ([b"", b"", b"\n"], b"\n"),
    ([b"a", b"\n", b""], b"a\n\n"),
    ([b"a", b"b", b"c"], b"a\nb\nc\n"),
];

/// Whether files with these texts give these bytes.
fn three_give(texts: &[&[u8]; 3], bytes: &[u8], windows: bool) -> bool {
    let [first, second, third] = *texts;
    let mut files = [Script::new(first), Script::new(second), Script::new(third)];
    gives(&mut files, bytes, windows)
}

#[test]
fn each_file_ends_its_last_line(rt: HostRuntime) {
    for windows in [false, true] {
        assert!(rt; gives(&mut [], b"", windows) && one_gives(windows));
        for (texts, bytes) in &THREE {
            assert!(rt; three_give(texts, bytes, windows));
        }
    }
}

/// How many bytes come of three files of which the second fails after so many, and whether the first file's do, and
/// then that fault again and again.
fn taken_to_fault(place: usize, windows: bool) -> (usize, bool) {
    let mut files = [
        Script::new(b"ab"),
        Script::failing_after(b"cd", place),
        Script::new(b"ef"),
    ];
    let mut out = [0; 40];
    let (used, end, again) = taken_of(&mut files, windows, &mut out);
    let [first, second, third] = files;
    let failed = (
        first.failed_calls(),
        second.failed_calls(),
        third.failed_calls(),
    );
    let stops = end == Err(Fault) && again == Err(Fault) && failed == (0, 2, 0);
    (used, stops && &out[..3] == b"ab\n".as_slice())
}

#[test]
fn a_fault_stops_all(rt: HostRuntime) {
    for place in 0..3 {
        for windows in [false, true] {
            assert!(rt;
                taken_to_fault(place, windows) == (3 + place, true),
                "at {place}"
            );
        }
    }
}

/// Whether this byte comes next, and then these are at hand.
fn comes<S: Source>(source: &mut S, byte: u8, at_hand: &[u8]) -> bool {
    source.next() == Ok(Some(byte)) && source.window() == at_hand
}

/// Whether a `b` after two bytes of a window comes once they are skipped, and then a newline that is added.
fn skips_to_b<S: Source>(source: &mut S) -> bool {
    if source.window().len() == 3 {
        source.skip(2);
    }
    if !comes(source, b'b', b"") {
        return false;
    }
    source.skip(0);
    comes(source, b'\n', b"c")
}

#[test]
fn a_part_of_a_window_is_taken(rt: HostRuntime) {
    let mut files = [Script::new(b"a\nb"), Script::new(b"c")];
    let mut source = chain(&mut files);
    assert!(rt; skips_to_b(&mut source));
    assert!(rt; comes(&mut source, b'c', b"") && comes(&mut source, b'\n', b""));
    assert!(rt; source.next() == Ok(None) && source.window().is_empty());
}
