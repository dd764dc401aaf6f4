// The range of each limit, at both its ends.
use nr_options::Limits;

/// Stored bytes, depth, cells, expansions and moves, and whether there are such limits.
static ROWS: [([u64; 5], bool); 12] = [
    ([64, 1, 1, 1, 64], true),
    ([63, 1, 1, 1, 64], false),
    ([64, 0, 1, 1, 64], false),
    ([64, 1, 0, 1, 64], false),
    ([64, 1, 1, 0, 64], false),
    ([64, 1, 1, 1, 63], false),
    (
        [16_777_216, 4096, 16_777_216, 4_294_967_296, u64::MAX],
        true,
    ),
    (
        [16_777_217, 4096, 16_777_216, 4_294_967_296, u64::MAX],
        false,
    ),
    ([64, 4097, 1, 1, 64], false),
    ([64, 1, 16_777_217, 1, 64], false),
    ([64, 1, 1, 4_294_967_297, 64], false),
    ([64, 1, 1, 1, 1_000_000], true),
];

/// Whether there are such limits.
fn are_admitted(limits: [u64; 5]) -> bool {
    let [stored, depth, cells, expansions, moves] = limits;
    Limits::new(stored, depth, cells, expansions, moves).is_some()
}

#[test]
fn limit_ranges(rt: HostRuntime) {
    for (limits, admitted) in &ROWS {
        assert!(rt; are_admitted(*limits) == *admitted, "{limits:?}");
    }
}
