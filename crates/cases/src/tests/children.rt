// Refusals 10 and 13.
use crate::tests::given::{
    ADMITTED, NO_REFUSAL, branching, edge, first, placed, ranged, refused, release, releases,
    texts, third,
};
use diagrams::rows::ReleaseEdge;
use std::ops::Bound;

// Below 1, from 1 to below 2, and from 2 on.
fn thirds(a: u32, b: u32, c: u32) -> [ReleaseEdge; 3] {
    let one = release(&[1]);
    let two = release(&[2]);
    [
        edge(Bound::Unbounded, Bound::Excluded(one), a),
        edge(Bound::Included(one), Bound::Excluded(two), b),
        edge(Bound::Included(two), Bound::Unbounded, c),
    ]
}

#[test]
fn a_release_edge_leads_to_a_lower_node(rt: HostRuntime) {
    let node = ranged(0, 0, 2);
    assert_eq!(rt; first(node, &releases(0, 1), &[]), NO_REFUSAL);
    assert_eq!(rt; first(node, &releases(2, 0), &[]), [10, 2, 0, 0]);
    assert_eq!(rt; first(node, &releases(1, 2), &[]), [10, 2, 0, 1]);
    assert_eq!(rt; first(node, &releases(1, 3), &[]), [10, 2, 0, 1]);
    assert_eq!(rt; first(node, &releases(0, u32::MAX), &[]), [10, 2, 0, 1]);
    assert_eq!(rt; third(node, &releases(4, 5), &[]), NO_REFUSAL);
    assert_eq!(rt; third(node, &releases(6, 7), &[]), [10, 2, 2, 0]);
    assert_eq!(rt; third(node, &releases(5, 6), &[]), [10, 2, 2, 1]);
}

#[test]
fn a_text_edge_leads_to_a_lower_node(rt: HostRuntime) {
    let node = ranged(1, 0, 2);
    assert_eq!(rt; first(node, &[], &texts(0, 1)), NO_REFUSAL);
    assert_eq!(rt; first(node, &[], &texts(3, 0)), [10, 2, 0, 0]);
    assert_eq!(rt; first(node, &[], &texts(0, 2)), [10, 2, 0, 1]);
    assert_eq!(rt; third(node, &[], &texts(4, 5)), NO_REFUSAL);
    assert_eq!(rt; third(node, &[], &texts(6, 0)), [10, 2, 2, 0]);
    assert_eq!(rt; third(node, &[], &texts(5, 6)), [10, 2, 2, 1]);
}

#[test]
fn high_and_low_lead_to_a_lower_node(rt: HostRuntime) {
    for kind in [2, 3, 4, 5] {
        assert_eq!(rt; first(branching(kind, 2, 0), &[], &[]), [10, 2, 0, 0]);
        assert_eq!(rt; first(branching(kind, 1, 2), &[], &[]), [10, 2, 0, 1]);
        assert_eq!(rt;
            first(branching(kind, 3, u32::MAX), &[], &[]),
            [10, 2, 0, 0]
        );
        assert_eq!(rt; third(branching(kind, 4, 5), &[], &[]), NO_REFUSAL);
        assert_eq!(rt; third(branching(kind, 6, 5), &[], &[]), [10, 2, 2, 0]);
        assert_eq!(rt; third(branching(kind, 5, 7), &[], &[]), [10, 2, 2, 1]);
    }
}

#[test]
fn edges_of_one_child_are_refused(rt: HostRuntime) {
    for child in [0, 1] {
        assert_eq!(rt;
            placed(ranged(0, 0, 2), &releases(child, child), &[]),
            refused(13, 3, 0)
        );
        assert_eq!(rt;
            placed(ranged(1, 0, 2), &[], &texts(child, child)),
            refused(13, 3, 0)
        );
        assert_eq!(rt;
            placed(ranged(0, 0, 3), &thirds(child, child, child), &[]),
            refused(13, 3, 0)
        );
    }
    assert_eq!(rt; third(ranged(0, 0, 2), &releases(5, 5), &[]), [13, 3, 2, 0]);
    assert_eq!(rt; placed(ranged(0, 0, 3), &thirds(0, 0, 1), &[]), ADMITTED);
    assert_eq!(rt; placed(ranged(0, 0, 3), &thirds(0, 1, 0), &[]), ADMITTED);
    assert_eq!(rt; placed(ranged(0, 0, 3), &thirds(1, 0, 0), &[]), ADMITTED);
}

#[test]
fn high_and_low_of_one_child_are_refused(rt: HostRuntime) {
    for kind in [2, 3, 4, 5] {
        assert_eq!(rt; placed(branching(kind, 0, 0), &[], &[]), refused(13, 3, 0));
        assert_eq!(rt; placed(branching(kind, 1, 1), &[], &[]), refused(13, 3, 0));
        assert_eq!(rt; third(branching(kind, 4, 4), &[], &[]), [13, 3, 2, 0]);
    }
}
