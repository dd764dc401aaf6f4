//! What a source gives is looked at, to its end.
ghost use Rattle.std.specs.Prelude.{◌≡◌, ◌<◌, Some, length, true};
ghost use Rattle.nr_units.specs.Source.{Never, Supply};
ghost use Rattle.utf8_own_characters.specs.Counting.{is_once};
ghost use Rattle.utf8_own_characters.specs.Listening.{after, done_in};
ghost use Rattle.utf8_own_characters.specs.Looking.{seen};
ghost use Rattle.utf8_own_page.specs.Looking as specs;
ghost use Rattle.utf8_own_page.specs.Looking.{LooksOn};

use nr_units::source::Source;
use nr_vectors::slice_vec::SliceVec;
use utf8_own_characters::{Cluster, Count, Listener, count_cluster, end_look, look_at};

/// The most clusters that are counted.
pub(crate) const MOST_COUNTED: usize = 4_352;

/// The slots by which they are found.
pub(crate) const SLOTS: usize = 8_192;

/// The most calls for bytes, which come one by one at least.
const MOST_BYTES: u64 = 1_099_511_627_776;

/// What frames are drawn with.
const FRAMES: [char; 11] = ['─', '│', '┌', '┬', '┐', '├', '┼', '┤', '└', '┴', '┘'];

/// Each of these is counted.
#[tactic(auto, unfolding(crate::specs::Looking::with_all))]
fn count_all(characters: &[char], counts: &mut SliceVec<'_, Count>, slots: &mut [u16])
    requires { is_once counts.old.items ≡ true }
    ensures items { counts.new.items ≡ specs.with_all counts.old.capacity counts.old.items characters.now }
    ensures once { is_once counts.new.items ≡ true }
    ensures room { counts.new.capacity ≡ counts.old.capacity }
{
    for character in characters {
        count_cluster(counts, slots, &Cluster::single(*character));
    }
}

/// What frames are drawn with is counted, where that is asked for, and nothing else.
fn begin(frames: bool, counts: &mut SliceVec<'_, Count>, slots: &mut [u16])
    ensures items { counts.new.items ≡ specs.framed counts.old.capacity frames }
    ensures once { is_once counts.new.items ≡ true }
    ensures room { counts.new.capacity ≡ counts.old.capacity }
{
    counts.clear();
    if frames {
        count_all(&FRAMES, counts, slots);
    }
}

/// The bytes at hand are looked at, or the next one. Tells whether there was one.
fn look_on<R: Source>(
    text: &mut R,
    listener: &mut Listener,
    counts: &mut SliceVec<'_, Count>,
    slots: &mut [u16],
) -> bool
    requires { is_once counts.old.items ≡ true }
    ensures looked { LooksOn counts.old.capacity (R.supply text.old) (R.supply text.new) listener.old listener.new
        counts.old.items counts.new.items result }
    ensures once { is_once counts.new.items ≡ true }
    ensures room { counts.new.capacity ≡ counts.old.capacity }
{
    let window = text.window();
    let len = window.len();
    if len > 0 {
        look_at(window, listener, counts, slots);
        text.skip(len);
        return true;
    }
    match text.next() {
        Ok(Some(byte)) => {
            look_at(&[byte], listener, counts, slots);
            true
        }
        Ok(None) => false,
        Err(_) => false,
    }
}

/// All that a source gives is looked at.
fn look_through<R: Source>(
    text: &mut R,
    listener: &mut Listener,
    counts: &mut SliceVec<'_, Count>,
    slots: &mut [u16],
)
    requires { is_once counts.old.items ≡ true }
    ensures items { (q : Supply) → R.supply text.old ≡ Some q → q.faults ≡ Never → length q.bytes < 1099511627776 →
        counts.new.items ≡ seen counts.old.capacity counts.old.items (done_in listener.old q.bytes) }
    ensures listener { (q : Supply) → R.supply text.old ≡ Some q → q.faults ≡ Never → length q.bytes < 1099511627776 →
        listener.new ≡ after listener.old q.bytes }
    ensures once { is_once counts.new.items ≡ true }
    ensures room { counts.new.capacity ≡ counts.old.capacity }
{
    let mut calls = 0;
    while calls < MOST_BYTES {
        if !look_on(text, listener, counts, slots) {
            return;
        }
        calls += 1;
    }
}

/// Counts what a page prints beyond ASCII, and with `frames` what frames are drawn with: of a page that gives its characters as
/// themselves. The slots are at first all 0.
///
/// Proved: What is counted of a page that never fails, and has less than 2^40 bytes, are its letters with their marks that take
/// a place in a table, in the order in which they came first, after what frames are drawn with. (`look_at_page`)
pub(crate) fn look_at_page<R: Source>(
    text: &mut R,
    frames: bool,
    counts: &mut SliceVec<'_, Count>,
    slots: &mut [u16],
)
    ensures items { (q : Supply) → R.supply text.old ≡ Some q → q.faults ≡ Never → length q.bytes < 1099511627776 →
        counts.new.items ≡ specs.counts_of counts.old.capacity frames q.bytes }
    ensures once { is_once counts.new.items ≡ true }
    ensures room { counts.new.capacity ≡ counts.old.capacity }
{
    begin(frames, counts, slots);
    let mut listener = Listener::new();
    look_through(text, &mut listener, counts, slots);
    end_look(&listener, counts, slots);
}
