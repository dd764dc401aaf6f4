// What a text asks for, and what is read before it.
use program_options::read_words;
use program_plan::{cells_of, is_manual, macros_of, put_prefix};
use std::alloc::Global;

/// A text, and whether it asks for the macros of manual pages.
type Case = (&'static [u8], bool);

/// Texts of pages, and of papers.
fn texts() -> &'static [Case] {
    &[
        (b"", false),
        (b".TH", true),
        (b".TH X 1\n", true),
        (b".Dd May 1, 2020\n", true),
        (b"'\\\" t\n.\\\" comment\n.de XX\n..\n.TH X 1\n.TS\n", true),
        (b"' \t.nf\n. \tTH X 1\n", true),
        (b".TS H\nl.\nhead\n.TH\na\n.TE\n", false),
        (b".THX 1\n.TL\n", false),
        (b" .TH X 1\n", false),
        (b"text .TH X 1\n", false),
        (b".TL\nA paper\n.PP\ntext\n", false),
        (b".\n.T\n..\n.TH\tX 1", true),
    ]
}

/// The place of the first text that asks for something else.
fn first_other() -> Option<usize> {
    for (place, (text, asks)) in texts().iter().enumerate() {
        if is_manual(text) != *asks {
            return Some(place);
        }
    }
    None
}

#[test]
fn texts_ask_for_their_macros(rt: HostRuntime) {
    assert_eq!(rt; first_other(), None);
}

/// What is read before a manual page with these words, and the cells of its line.
fn before(words: &[&str], alloc: Global) -> Option<(Vec<u8>, usize)> {
    let Ok(job) = read_words(words) else {
        return None;
    };
    let mut text = Vec::new(alloc);
    let Ok(()) = put_prefix(&job, true, &mut text) else {
        return None;
    };
    let cells = cells_of(&job, macros_of(&job, true));
    Some((text, cells))
}

/// Whether that is read.
fn reads(words: &[&str], text: &[u8], cells: usize, alloc: Global) -> bool {
    match before(words, alloc) {
        Some((read, line)) => read.as_slice() == text && line == cells,
        None => false,
    }
}

#[test]
fn words_are_read_before_macros(rt: HostRuntime) {
    let alloc = rt.alloc();
    assert!(rt; reads(&[], b".nr C 1\n", 78, alloc));
    assert!(rt; reads(&["-p", "-ms"], b"", 60, alloc));
    assert!(rt; reads(&["-p", "-w100"], b".nr L 100\n.ll 100n\n", 100, alloc));
    let words = ["-p", "-ml", "-rab=7n", "-dx=a \\ b"];
    let text = b".cp 0\n.nr ab 7n\n.ds x \"a \\ b\n.cp 1\n";
    assert!(rt; reads(&words, text, 65, alloc));
}
