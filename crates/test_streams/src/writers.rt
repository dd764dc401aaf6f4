// How often writers are called, which of their answers are faults, and what they have then.
use crate::turns::{Answer, Narrow, TEXT};
use nr_units::over_std::ToWriter;
use nr_units::sink::Sink;
use nr_units::source::Fault;

/// How many puts and how many flushes of a sink failed.
fn failed(sink: &ToWriter<&mut Narrow<'_>>) -> (u64, u64) {
    (sink.failed_puts(), sink.failed_flushes())
}

/// Whether a sink takes nothing and then the text, passes it on, and no call fails.
fn passes_text_on(writer: &mut Narrow<'_>) -> bool {
    let mut sink = ToWriter::over(writer);
    sink.put(b"") == Ok(())
        && sink.put(TEXT) == Ok(())
        && sink.flush() == Ok(())
        && failed(&sink) == (0, 0)
}

#[test]
fn a_writer_gets_all_bytes(rt: HostRuntime) {
    let turns = [Answer::AtMost(2), Answer::Interrupted, Answer::AtMost(1)];
    let mut writer = Narrow::new(&turns);
    assert!(rt; passes_text_on(&mut writer));
    assert!(rt; writer.taken() == TEXT.as_slice());
    assert!(rt; (writer.calls, writer.flushes) == (4, 1));
}

/// What a sink over this writer answers to the text, and how many puts and flushes failed then.
fn put(writer: &mut Narrow<'_>) -> (Result<(), Fault>, (u64, u64)) {
    let mut sink = ToWriter::over(writer);
    let answer = sink.put(TEXT);
    (answer, failed(&sink))
}

/// Whether a put of the text fails with this call of the writer, and the writer then has these bytes.
fn leaves(turns: &[Answer], calls: usize, bytes: &[u8]) -> bool {
    let mut writer = Narrow::new(turns);
    put(&mut writer) == (Err(Fault), (1, 0)) && writer.calls == calls && writer.taken() == bytes
}

#[test]
fn a_write_that_fails_leaves_a_prefix(rt: HostRuntime) {
    for turn in [Answer::Broken, Answer::AtMost(0)] {
        for place in 0..7 {
            let mut turns = [Answer::AtMost(1); 7];
            turns[place] = turn;
            assert!(rt; leaves(&turns, place + 1, &TEXT[..place]), "at {place}");
        }
    }
}

/// Whether the text is put, with this many calls of the writer.
fn puts_with(turns: &[Answer], calls: usize) -> bool {
    let mut writer = Narrow::new(turns);
    put(&mut writer).0 == Ok(()) && writer.calls == calls
}

#[test]
fn an_interrupted_write_is_tried_again(rt: HostRuntime) {
    assert!(rt; puts_with(&[Answer::Interrupted; 64], 65));
    assert!(rt; leaves(&[Answer::Interrupted; 65], 65, b""));
}

/// What a flush answers, how many puts and flushes failed then, and how often the writer was flushed.
fn flush(turns: &[Answer]) -> (Result<(), Fault>, (u64, u64), usize) {
    let mut writer = Narrow::new(turns);
    let mut sink = ToWriter::over(&mut writer);
    let answer = sink.flush();
    let failed = failed(&sink);
    (answer, failed, writer.flushes)
}

#[test]
fn an_interrupted_flush_is_tried_again(rt: HostRuntime) {
    assert!(rt; flush(&[Answer::Interrupted; 64]) == (Ok(()), (0, 0), 1));
    assert!(rt; flush(&[Answer::Interrupted; 65]) == (Err(Fault), (0, 1), 0));
}

/// Whether the flush after the text fails, that is counted, and the one after it is none that fails.
fn fails_at_a_flush(writer: &mut Narrow<'_>) -> bool {
    let mut sink = ToWriter::over(writer);
    sink.put(TEXT) == Ok(())
        && sink.flush() == Err(Fault)
        && sink.flush() == Ok(())
        && failed(&sink) == (0, 1)
}

#[test]
fn a_flush_that_fails_is_counted(rt: HostRuntime) {
    let turns = [Answer::AtMost(7), Answer::Broken, Answer::Interrupted];
    let mut writer = Narrow::new(&turns);
    assert!(rt; fails_at_a_flush(&mut writer));
    assert!(rt; writer.flushes == 1 && writer.taken() == TEXT.as_slice());
}
