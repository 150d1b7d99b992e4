// Refusal 12.
use crate::tests::given::{ADMITTED, edge, placed, ranged, refused, release, text};
use std::ops::Bound;
use std::ops::Bound::{Excluded, Included, Unbounded};
use values::releases::{LARGEST, Release};
use values::texts::Text;

// Two edges that join at an upper and a lower bound.
fn joined(upper: Bound<Release>, lower: Bound<Release>) -> [[usize; 4]; 2] {
    let edges = [edge(Unbounded, upper, 0), edge(lower, Unbounded, 1)];
    placed(ranged(0, 0, 2), &edges, &[])
}

// The same of the other list: which of two arguments the edges are, no type parameter says.
fn texts_joined(upper: Bound<Text>, lower: Bound<Text>) -> [[usize; 4]; 2] {
    let edges = [edge(Unbounded, upper, 0), edge(lower, Unbounded, 1)];
    placed(ranged(1, 0, 2), &[], &edges)
}

// Three edges that join at 1 and 2, between two ends.
fn between(lower: Bound<Release>, upper: Bound<Release>) -> [[usize; 4]; 2] {
    let one = release(&[1]);
    let two = release(&[2]);
    let edges = [
        edge(lower, Excluded(one), 0),
        edge(Included(one), Included(two), 1),
        edge(Excluded(two), upper, 0),
    ];
    placed(ranged(0, 0, 3), &edges, &[])
}

#[test]
fn one_bound_is_included_and_one_excluded(rt: HostRuntime) {
    let at = release(&[3, 8]);
    assert_eq!(rt; joined(Excluded(at), Included(at)), ADMITTED);
    assert_eq!(rt; joined(Included(at), Excluded(at)), ADMITTED);
    assert_eq!(rt; joined(Included(at), Included(at)), refused(12, 2, 1));
    assert_eq!(rt; joined(Excluded(at), Excluded(at)), refused(12, 2, 1));
}

#[test]
fn bounds_meet_at_one_value(rt: HostRuntime) {
    let low = release(&[3, 8]);
    let high = release(&[3, 9]);
    assert_eq!(rt; joined(Excluded(low), Included(high)), refused(12, 2, 1));
    assert_eq!(rt; joined(Included(low), Excluded(high)), refused(12, 2, 1));
    assert_eq!(rt; joined(Excluded(high), Included(low)), refused(12, 2, 1));
    assert_eq!(rt; joined(Included(high), Excluded(low)), refused(12, 2, 1));
}

#[test]
fn the_spelling_of_a_value_does_not_matter(rt: HostRuntime) {
    assert_eq!(rt;
        joined(Excluded(release(&[3, 8])), Included(release(&[3, 8, 0]))),
        ADMITTED
    );
    assert_eq!(rt;
        joined(Included(release(&[3, 0, 0])), Excluded(release(&[3]))),
        ADMITTED
    );
    let stored = Release {
        count: 0,
        numbers: [u64::MAX; 8],
    };
    assert_eq!(rt;
        joined(Excluded(stored), Included(release(&[LARGEST, 0]))),
        ADMITTED
    );
}

#[test]
fn no_bound_between_edges_is_unbounded(rt: HostRuntime) {
    let at = release(&[3, 8]);
    assert_eq!(rt; joined(Unbounded, Included(at)), refused(12, 2, 1));
    assert_eq!(rt; joined(Unbounded, Excluded(at)), refused(12, 2, 1));
    assert_eq!(rt; joined(Excluded(at), Unbounded), refused(12, 2, 1));
    assert_eq!(rt; joined(Included(at), Unbounded), refused(12, 2, 1));
    assert_eq!(rt; joined(Unbounded, Unbounded), refused(12, 2, 1));
}

#[test]
fn the_ends_are_unbounded(rt: HostRuntime) {
    let first = release(&[0]);
    let last = release(&[LARGEST; 8]);
    assert_eq!(rt; between(Unbounded, Unbounded), ADMITTED);
    assert_eq!(rt; between(Included(first), Unbounded), refused(12, 2, 0));
    assert_eq!(rt; between(Excluded(first), Unbounded), refused(12, 2, 0));
    assert_eq!(rt; between(Unbounded, Included(last)), refused(12, 2, 2));
    assert_eq!(rt; between(Unbounded, Excluded(last)), refused(12, 2, 2));
    assert_eq!(rt; between(Included(first), Included(last)), refused(12, 2, 0));
}

#[test]
fn the_first_wrong_lower_bound_is_told(rt: HostRuntime) {
    let one = release(&[1]);
    let two = release(&[2]);
    let below = edge(Unbounded, Excluded(one), 0);
    let gap = edge(Included(two), Unbounded, 1);
    let high = edge(Excluded(two), Unbounded, 1);
    let inner = edge(Included(one), Excluded(two), 1);
    assert_eq!(rt;
        placed(ranged(0, 0, 3), &[below, inner, gap], &[]),
        ADMITTED
    );
    assert_eq!(rt;
        placed(ranged(0, 0, 3), &[below, inner, high], &[]),
        refused(12, 2, 2)
    );
    assert_eq!(rt;
        placed(ranged(0, 0, 3), &[below, gap, high], &[]),
        refused(12, 2, 1)
    );
    assert_eq!(rt;
        placed(ranged(0, 0, 3), &[inner, gap, inner], &[]),
        refused(12, 2, 0)
    );
    assert_eq!(rt;
        placed(ranged(0, 0, 3), &[below, inner, inner], &[]),
        refused(12, 2, 2)
    );
}

#[test]
fn text_edges_cover_likewise(rt: HostRuntime) {
    let a = text(b"a");
    let b = text(b"a\x00");
    assert_eq!(rt; texts_joined(Excluded(a), Included(a)), ADMITTED);
    assert_eq!(rt; texts_joined(Included(a), Excluded(a)), ADMITTED);
    assert_eq!(rt; texts_joined(Included(a), Included(a)), refused(12, 2, 1));
    assert_eq!(rt; texts_joined(Excluded(a), Excluded(a)), refused(12, 2, 1));
    assert_eq!(rt; texts_joined(Included(a), Included(b)), refused(12, 2, 1));
    assert_eq!(rt; texts_joined(Unbounded, Excluded(a)), refused(12, 2, 1));
    assert_eq!(rt; texts_joined(Excluded(a), Unbounded), refused(12, 2, 1));
}

#[test]
fn the_ends_of_text_edges_are_unbounded(rt: HostRuntime) {
    let none = text(b"");
    let at = text(b"a");
    let below = edge(Included(none), Excluded(at), 0);
    let above = edge(Included(at), Unbounded, 1);
    assert_eq!(rt;
        placed(ranged(1, 0, 2), &[], &[below, above]),
        refused(12, 2, 0)
    );
    let start = edge(Unbounded, Excluded(at), 0);
    let end = edge(Included(at), Included(text(&[255; 64])), 1);
    assert_eq!(rt; placed(ranged(1, 0, 2), &[], &[start, above]), ADMITTED);
    assert_eq!(rt;
        placed(ranged(1, 0, 2), &[], &[start, end]),
        refused(12, 2, 1)
    );
}
