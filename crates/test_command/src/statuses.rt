// The status and the line of runs: with a fault at every byte, with a flush that fails, and with allocations that are
// refused.

use nr_command::run_over;
use nr_engine::{CountedAlloc, Desk, Limits, Options, ToWriter};
use nr_units::fakes::{Script, Slate};
use std::process::Abort;
use std::test::Fail;

/// Two pages with a title on top and a trap at the bottom.
const TITLED: &[u8] = b"\
.pl 4v\n\
.de hd\n\
.tl 'H''%'\n\
..\n\
.de fo\n\
'bp\n\
..\n\
.wh 0 hd\n\
.wh -1v fo\n\
.lt 5n\n\
.nf\n\
a\n\
b\n\
c\n";

/// Its pages.
const PAGES: &[u8] = b"H   1\na\nb\n\nH   2\nc\n\n\n";

/// How many bytes of the text are read where the first page ends, and how many are printed then.
const FIRST_PAGE: (usize, usize) = (77, 11);

/// Runs over the input, and looks at the status, at what was printed and at the line.
fn expect(
    rt: &(impl Abort + AllocGlobal),
    input: &mut Script<'_>,
    output: &mut Slate<'_>,
    status: u8,
    printed: &[u8],
    line: &[u8],
) {
    let limits = Limits::new(1024, 4, 100, 10, 1_000_000).unwrap();
    let desk = Desk::new(&mut CountedAlloc::new(rt.alloc()), limits);
    assert!(rt; desk.is_ok());
    let mut out = [0; 80];
    let mut errors = Slate::over(&mut out);
    let came = run_over(desk, &Options::plain(), input, output, &mut errors);
    let ended = (came, output.bytes(), errors.bytes());
    assert!(rt; ended == (status, printed, line), "status {status}");
}

#[test]
fn writer_at_every_byte(rt: HostRuntime) {
    let line = b"nroff: write fault\n".as_slice();
    for taken in 0..PAGES.len() {
        let mut room = [0; 80];
        assert!(rt; taken <= room.len());
        let mut output = Slate::over(&mut room[..taken]);
        let mut input = Script::new(TITLED);
        let printed = &PAGES[..taken];
        expect(&rt, &mut input, &mut output, 4, printed, line);
    }
    let mut room = [0; 21];
    let mut output = Slate::over(&mut room);
    let mut input = Script::new(TITLED);
    expect(&rt, &mut input, &mut output, 0, PAGES, b"");
}

#[test]
fn writer_in_the_second_page(rt: HostRuntime) {
    let line = b"nroff: write fault\n";
    let mut room = [0; 3];
    let mut output = Slate::over(&mut room);
    let mut input = Script::new(b".pl 1\na\n.br\nb\n.br\n");
    expect(&rt, &mut input, &mut output, 4, b"a\nb", line);
}

// The first page is out where the line after it was read.
#[test]
fn reader_at_every_byte(rt: HostRuntime) -> Result<(), Fail> {
    for given in 0..=TITLED.len() {
        let mut room = [0; 80];
        let mut output = Slate::over(&mut room);
        let mut input = Script::failing_after(TITLED, given);
        let (read, written) = FIRST_PAGE;
        let printed = if given < read { 0 } else { written };
        let printed = &PAGES[..printed];
        let line = format!(in rt.alloc(); "nroff: read fault at byte {given}\n")?;
        let line = line.as_bytes();
        expect(&rt, &mut input, &mut output, 3, printed, line);
    }
    Ok(())
}

// Nothing but the flush fails: all bytes went out.
#[test]
fn flush_fault_alone(rt: HostRuntime) {
    let mut room = [0; 80];
    let mut output = Slate::failing_flush(&mut room);
    let mut input = Script::new(TITLED);
    let line = b"nroff: write fault\n";
    expect(&rt, &mut input, &mut output, 4, PAGES, line);
    assert_eq!(rt; (output.failed_puts(), output.failed_flushes()), (0, 1));
}

// Where no allocation is refused, the page is printed; where one is, nothing is read or printed. No test
// can have one refused: `rt try --test --fail-alloc N` runs this with the N-th refused.
#[test]
fn every_allocation_refused(rt: HostRuntime) {
    let text = b".pl 2v\nhello\n".as_slice();
    let desk = Desk::new(&mut CountedAlloc::new(rt.alloc()), Limits::default());
    let refused = desk.is_err();
    let mut input = Script::new(text);
    let mut room = [0; 10];
    let mut output = Slate::over(&mut room);
    let mut out = [0; 80];
    let mut errors = Slate::over(&mut out);
    let status = run_over(
        desk,
        &Options::plain(),
        &mut input,
        &mut output,
        &mut errors,
    );
    let ended = (status, input.rest(), output.bytes(), errors.bytes());
    let wanted: (u8, &[u8], &[u8], &[u8]) = if refused {
        (5, text, b"", b"nroff: out of memory\n")
    } else {
        (0, b"", b"hello\n\n", b"")
    };
    assert!(rt; ended == wanted);
}

// A writer of std that is full takes no byte, and answers no error: it is as one that fails at the first.
#[test]
fn writer_that_takes_no_byte(rt: HostRuntime) {
    let limits = Limits::new(1024, 4, 100, 10, 1_000_000).unwrap();
    let desk = Desk::new(&mut CountedAlloc::new(rt.alloc()), limits);
    assert!(rt; desk.is_ok());
    let mut input = Script::new(TITLED);
    let mut room = [0u8; 1];
    let mut output = ToWriter::over(&mut room[..0]);
    let mut out = [0; 80];
    let mut errors = Slate::over(&mut out);
    let status = run_over(
        desk,
        &Options::plain(),
        &mut input,
        &mut output,
        &mut errors,
    );
    assert_eq!(rt; status, 4);
    assert!(rt; errors.bytes() == b"nroff: write fault\n".as_slice());
}
