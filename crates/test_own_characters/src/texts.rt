//! A text is looked at, coded with a table of its own, and shown again.
ghost use Rattle.utf8_own_characters.specs.Table.{Good};

use document_stages::{Buffer, Pull, Text};
use nr_units::sink::Sink;
use nr_units::source::Source;
use nr_vectors::CountedAlloc;
use nr_vectors::slice_vec::SliceVec;
use std::alloc::{AllocError, Global};
use utf8_own_characters::{
    Cluster, Count, Listener, OwnTable, choose, end_look, fill_slots, look_at, rank,
};
use utf8_own_sink::Shown;
use utf8_own_stage::Coder;

/// The most bytes of what comes of a text.
const MOST: usize = 4_096;

/// What became of a text.
#[derive(Drop)]
pub struct ComeBack {
    pub narrow: usize,
    pub wide: usize,
    /// How many had no room.
    pub reported: usize,
    /// How many bytes stood for it.
    pub bytes: usize,
    /// What is shown of it in the end.
    pub shown: Buffer,
}

/// What a text is coded as.
fn code(text: &[u8], table: &OwnTable<'_>, coded: &mut Buffer) -> usize
    requires { Good table.now }
{
    let mut room = [0; 64];
    let mut bytes = Pull::over(Coder::over(table), Text::over(text), &mut room);
    let mut count = 0usize;
    for _ in 0..MOST {
        match bytes.next() {
            Ok(Some(byte)) => {
                let _put = coded.put(&[byte]);
                count = count.saturating_add(1);
            }
            _ => return count,
        }
    }
    count
}

/// What becomes of a text, of up to 512 different clusters.
pub fn back_of(alloc: Global, text: &str) -> Result<ComeBack, AllocError> {
    let none = Cluster::single('\0');
    let blank = Count {
        cluster: none,
        times: 0,
    };
    let mut count_cells = [blank; 512];
    let mut ranked_cells = [blank; 512];
    let mut slots = [0; 1_024];
    let mut counts = SliceVec::over(&mut count_cells);
    let mut ranked = SliceVec::over(&mut ranked_cells);
    let mut listener = Listener::new();
    look_at(text.as_bytes(), &mut listener, &mut counts, &mut slots);
    end_look(&listener, &mut counts, &mut slots);
    rank(counts.as_slice(), &mut ranked);
    let mut narrow_cells = [none; 128];
    let mut wide_cells = vec![in alloc; none; 4_096]?;
    let mut narrow = SliceVec::over(&mut narrow_cells);
    let mut wide = SliceVec::over(&mut wide_cells);
    let reported = choose(ranked.as_slice(), &mut narrow, &mut wide);
    fill_slots(narrow.as_slice(), wide.as_slice(), &mut slots);
    let table = OwnTable::chosen(
        ranked.as_slice(),
        narrow.as_slice(),
        wide.as_slice(),
        &slots,
    );
    let mut coded = Buffer::new(&mut CountedAlloc::new(alloc), MOST)?;
    let mut shown = Buffer::new(&mut CountedAlloc::new(alloc), MOST)?;
    let bytes = code(text.as_bytes(), &table, &mut coded);
    let mut room = [0; 512];
    let mut sink = Shown::over(&mut shown, &table, false, &mut room);
    let _put = sink.put(coded.as_slice());
    let (_output, _ended) = sink.finish();
    Ok(ComeBack {
        narrow: narrow.len(),
        wide: wide.len(),
        reported,
        bytes,
        shown,
    })
}
