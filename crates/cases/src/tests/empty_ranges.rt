// Refusal 11.
use crate::tests::given::{ADMITTED, edge, placed, ranged, refused, release, text};
use diagrams::rows::ReleaseEdge;
use ranges::edges::Edge;
use std::ops::Bound;
use std::ops::Bound::{Excluded, Included, Unbounded};
use values::releases::Release;
use values::texts::Text;

// The bound that meets a bound.
fn met<T>(bound: Bound<T>) -> Bound<T> {
    match bound {
        Unbounded => Unbounded,
        Included(value) => Excluded(value),
        Excluded(value) => Included(value),
    }
}

// Edges that cover the line if the middle one is not empty.
fn around<T: Copy>(lower: Bound<T>, upper: Bound<T>) -> [Edge<T>; 3] {
    [
        edge(Unbounded, met(lower), 0),
        edge(lower, upper, 1),
        edge(met(upper), Unbounded, 0),
    ]
}

fn middle(lower: Bound<Release>, upper: Bound<Release>) -> [[usize; 4]; 2] {
    placed(ranged(0, 0, 3), &around(lower, upper), &[])
}

// The same of the other list: which of two arguments the edges are, no type parameter says.
fn text_middle(lower: Bound<Text>, upper: Bound<Text>) -> [[usize; 4]; 2] {
    placed(ranged(1, 0, 3), &[], &around(lower, upper))
}

#[test]
fn equal_bounds_that_are_not_both_included_are_empty(rt: HostRuntime) {
    let at = release(&[3, 8]);
    let again = release(&[3, 8, 0]);
    assert_eq!(rt; middle(Included(at), Excluded(again)), refused(11, 2, 1));
    assert_eq!(rt; middle(Excluded(again), Included(at)), refused(11, 2, 1));
    assert_eq!(rt; middle(Excluded(at), Excluded(at)), refused(11, 2, 1));
    assert_eq!(rt; middle(Included(at), Included(again)), ADMITTED);
}

#[test]
fn a_greater_lower_bound_is_empty(rt: HostRuntime) {
    let low = release(&[3, 9]);
    let high = release(&[3, 10]);
    assert_eq!(rt; middle(Included(high), Included(low)), refused(11, 2, 1));
    assert_eq!(rt; middle(Included(high), Excluded(low)), refused(11, 2, 1));
    assert_eq!(rt; middle(Excluded(high), Included(low)), refused(11, 2, 1));
    assert_eq!(rt; middle(Excluded(high), Excluded(low)), refused(11, 2, 1));
    assert_eq!(rt; middle(Excluded(low), Excluded(high)), ADMITTED);
}

#[test]
fn a_range_that_merely_holds_no_value_is_not_empty(rt: HostRuntime) {
    let at = release(&[3, 8]);
    let next = release(&[3, 8, 0, 0, 0, 0, 0, 1]);
    assert_eq!(rt; middle(Excluded(at), Excluded(next)), ADMITTED);
    let zero = release(&[0]);
    let from_zero = [
        edge(Unbounded, Excluded(zero), 0),
        edge(Included(zero), Unbounded, 1),
    ];
    assert_eq!(rt; placed(ranged(0, 0, 2), &from_zero, &[]), ADMITTED);
}

#[test]
fn text_ranges_are_empty_likewise(rt: HostRuntime) {
    let a = text(b"a");
    let b = text(b"a\x00");
    assert_eq!(rt; text_middle(Included(a), Included(a)), ADMITTED);
    assert_eq!(rt; text_middle(Included(a), Excluded(a)), refused(11, 2, 1));
    assert_eq!(rt; text_middle(Excluded(a), Included(a)), refused(11, 2, 1));
    assert_eq!(rt; text_middle(Excluded(a), Excluded(a)), refused(11, 2, 1));
    assert_eq!(rt; text_middle(Included(b), Included(a)), refused(11, 2, 1));
    assert_eq!(rt; text_middle(Excluded(a), Excluded(b)), ADMITTED);
}

#[test]
fn the_first_empty_range_is_told(rt: HostRuntime) {
    let at = release(&[1]);
    let empty: ReleaseEdge = edge(Included(at), Excluded(at), 0);
    let below = edge(Unbounded, Excluded(at), 1);
    let above = edge(Included(at), Unbounded, 0);
    assert_eq!(rt;
        placed(ranged(0, 0, 3), &[empty, below, above], &[]),
        refused(11, 2, 0)
    );
    assert_eq!(rt;
        placed(ranged(0, 0, 3), &[below, above, empty], &[]),
        refused(11, 2, 2)
    );
    assert_eq!(rt;
        placed(ranged(0, 0, 3), &[below, empty, empty], &[]),
        refused(11, 2, 1)
    );
    assert_eq!(rt;
        placed(ranged(0, 1, 2), &[empty, below, above], &[]),
        ADMITTED
    );
    assert_eq!(rt;
        placed(ranged(0, 1, 2), &[below, above, empty], &[]),
        refused(11, 2, 1)
    );
}
