// Places of arguments.
ghost use Rattle.std.specs.Prelude.{◌≡◌, ◌+◌, ◌^◌, ◌<◌, ◌≤◌, ◌++◌, length, sum, slice_index_or};
ghost use Rattle.nr_levels.specs.Frame.{part, spans_from, no_span};

use crate::frame::Span;
use nr_vectors::FixedVec;

/// Adds the places of parts of these lengths, the first of which begins at `start`.
pub(crate) fn push_spans(places: &mut FixedVec<Span>, start: u32, lens: &[u32])
    requires room { length places.old.items + length lens.now ≤ places.old.capacity }
    requires small { start + sum lens.now < 2 ^ 32 }
    ensures { places.new ≡ record places.old { items = places.old.items ++ spans_from start lens.now } }
{
    let mut first = start;
    for len in lens {
        let last = first + *len;
        places.push(Span { first, last });
        first = last;
    }
}

/// The n-th place in a part of the row; an absent one is empty.
pub(crate) fn span_of(places: &FixedVec<Span>, within: Span, n: usize) -> Span
    requires { within.last ≤ length places.now.items }
    ensures { result ≡ slice_index_or (part places.now.items within) n no_span }
{
    let first = within.first as usize;
    let last = within.last as usize;
    if first < last && n < last - first {
        return places.get(first + n);
    }
    Span { first: 0, last: 0 }
}
