// Which of several faults is told: node, then number, then place.
use crate::tests::given::{
    admission, branching, edge, node_of, placed, ranged, refused, release, releases, text, texts,
};
use diagrams::rows::{Node, ReleaseEdge};
use std::ops::Bound::{Excluded, Included, Unbounded};

// A range that is empty, and one whose bounds are wrong at either end.
fn empty(child: u32) -> ReleaseEdge {
    let at = release(&[1]);
    edge(Excluded(at), Excluded(at), child)
}

fn island(child: u32) -> ReleaseEdge {
    edge(Included(release(&[1])), Excluded(release(&[2])), child)
}

#[test]
fn the_first_node_is_told(rt: HostRuntime) {
    let same = branching(4, 1, 1);
    let unknown = node_of(6, 0);
    let good = node_of(5, 0);
    assert_eq!(rt; admission(&[same, unknown], &[], &[]), [13, 3, 0, 0]);
    assert_eq!(rt; admission(&[unknown, same], &[], &[]), [5, 3, 0, 0]);
    assert_eq!(rt; admission(&[good, same, unknown], &[], &[]), [13, 3, 1, 0]);
    assert_eq!(rt; admission(&[good, unknown, same], &[], &[]), [5, 3, 1, 0]);
    assert_eq!(rt; admission(&[good, same, same], &[], &[]), [13, 3, 1, 0]);
    let gap = [island(0), island(1)];
    assert_eq!(rt;
        admission(&[ranged(0, 0, 2), unknown], &gap, &[]),
        [12, 2, 0, 0]
    );
}

#[test]
fn a_key_is_told_before_what_follows_it(rt: HostRuntime) {
    for (kind, key) in [(0, 3), (1, 14), (2, 14), (3, 14)] {
        let node = Node {
            key,
            count: 0,
            high: u32::MAX,
            low: u32::MAX,
            ..node_of(kind, 0)
        };
        assert_eq!(rt; placed(node, &[], &[]), refused(6, 3, 0));
    }
}

#[test]
fn a_name_is_told_before_the_children(rt: HostRuntime) {
    for (high, low) in [(0, 0), (u32::MAX, 0), (0, u32::MAX)] {
        let node = Node {
            literal: text(b"a--b"),
            ..branching(4, high, low)
        };
        assert_eq!(rt; placed(node, &[], &[]), refused(7, 3, 0));
    }
}

#[test]
fn the_number_of_edges_is_told_before_their_place(rt: HostRuntime) {
    for (first, count) in [(0, 65), (u32::MAX, 0), (u32::MAX, 1), (3, 1)] {
        assert_eq!(rt;
            placed(ranged(0, first, count), &releases(0, 0), &[]),
            refused(8, 3, 0)
        );
        assert_eq!(rt;
            placed(ranged(1, first, count), &[], &texts(0, 0)),
            refused(8, 3, 0)
        );
    }
}

#[test]
fn the_place_of_edges_is_told_before_the_edges(rt: HostRuntime) {
    let large = u32::MAX;
    assert_eq!(rt;
        placed(ranged(0, 0, 3), &[empty(large), empty(large)], &[]),
        refused(9, 3, 0)
    );
    assert_eq!(rt;
        placed(ranged(0, 1, 2), &releases(large, large), &[]),
        refused(9, 3, 0)
    );
    assert_eq!(rt;
        placed(ranged(1, 1, 2), &[], &texts(large, large)),
        refused(9, 3, 0)
    );
}

#[test]
fn a_child_is_told_before_the_ranges(rt: HostRuntime) {
    let large = u32::MAX;
    let node = ranged(0, 0, 3);
    assert_eq!(rt;
        placed(node, &[empty(0), empty(0), empty(large)], &[]),
        refused(10, 2, 2)
    );
    assert_eq!(rt;
        placed(node, &[island(0), island(large), island(0)], &[]),
        refused(10, 2, 1)
    );
    assert_eq!(rt;
        placed(node, &[empty(large), island(large), empty(large)], &[]),
        refused(10, 2, 0)
    );
}

#[test]
fn an_empty_range_is_told_before_a_gap(rt: HostRuntime) {
    let node = ranged(0, 0, 3);
    assert_eq!(rt;
        placed(node, &[island(0), island(0), empty(0)], &[]),
        refused(11, 2, 2)
    );
    assert_eq!(rt;
        placed(node, &[island(0), empty(1), island(0)], &[]),
        refused(11, 2, 1)
    );
    assert_eq!(rt;
        placed(node, &[empty(0), empty(0), empty(0)], &[]),
        refused(11, 2, 0)
    );
}

#[test]
fn a_gap_is_told_before_one_child(rt: HostRuntime) {
    let below = edge(Unbounded, Excluded(release(&[1])), 0);
    assert_eq!(rt;
        placed(ranged(0, 0, 2), &[below, island(0)], &[]),
        refused(12, 2, 1)
    );
    assert_eq!(rt;
        placed(ranged(0, 0, 2), &[below, below], &[]),
        refused(12, 2, 1)
    );
    assert_eq!(rt;
        placed(ranged(0, 0, 2), &releases(0, 0), &[]),
        refused(13, 3, 0)
    );
}

#[test]
fn a_large_child_is_told_before_one_child(rt: HostRuntime) {
    for kind in [2, 3, 4, 5] {
        let node = branching(kind, u32::MAX, u32::MAX);
        assert_eq!(rt; placed(node, &[], &[]), refused(10, 2, 0));
    }
    assert_eq!(rt;
        placed(ranged(0, 0, 2), &releases(7, 7), &[]),
        refused(10, 2, 0)
    );
}
