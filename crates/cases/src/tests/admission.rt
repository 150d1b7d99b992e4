// Refusals 5 to 9.
use crate::tests::given::{
    ADMITTED, branching, node_of, placed, ranged, refused, releases, text, texts,
};
use diagrams::rows::Node;

// What is told of a node over two edges of either list.
fn told_of(node: Node) -> [[usize; 4]; 2] {
    placed(node, &releases(0, 1), &texts(0, 1))
}

fn extra(kind: u8, literal: &[u8]) -> Node {
    Node {
        literal: text(literal),
        ..node_of(kind, 0)
    }
}

#[test]
fn a_kind_above_5_is_refused(rt: HostRuntime) {
    for kind in [0, 1, 2, 3, 4, 5] {
        assert_eq!(rt; told_of(node_of(kind, 0)), ADMITTED);
    }
    for kind in [6, 7, 255] {
        assert_eq!(rt; told_of(node_of(kind, 0)), refused(5, 3, 0));
    }
}

#[test]
fn a_key_out_of_range_is_refused(rt: HostRuntime) {
    for (kind, key) in [(0, 2), (1, 13), (2, 13), (3, 13), (4, 255), (5, 255)] {
        assert_eq!(rt; told_of(node_of(kind, key)), ADMITTED);
    }
    for (kind, key) in [
        (0, 3),
        (0, 255),
        (1, 14),
        (1, 255),
        (2, 14),
        (3, 14),
        (3, 255),
    ] {
        assert_eq!(rt; told_of(node_of(kind, key)), refused(6, 3, 0));
    }
}

#[test]
fn a_named_extra_has_a_normal_name(rt: HostRuntime) {
    assert_eq!(rt; told_of(extra(4, b"a-b")), ADMITTED);
    assert_eq!(rt; told_of(extra(4, b"")), refused(7, 3, 0));
    assert_eq!(rt; told_of(extra(4, b"-a")), refused(7, 3, 0));
    assert_eq!(rt; told_of(extra(4, b"A")), refused(7, 3, 0));
    assert_eq!(rt; told_of(extra(4, b"a_b")), refused(7, 3, 0));
    assert_eq!(rt; told_of(extra(2, b"")), ADMITTED);
    assert_eq!(rt; told_of(extra(3, b"-a")), ADMITTED);
    assert_eq!(rt; told_of(extra(5, b"A")), ADMITTED);
}

#[test]
fn too_few_or_too_many_edges_are_refused(rt: HostRuntime) {
    for count in [0, 1, 65, u32::MAX] {
        assert_eq!(rt; told_of(ranged(0, 0, count)), refused(8, 3, 0));
        assert_eq!(rt; told_of(ranged(1, 0, count)), refused(8, 3, 0));
    }
    assert_eq!(rt; told_of(ranged(0, 0, 2)), ADMITTED);
    assert_eq!(rt; told_of(ranged(1, 0, 2)), ADMITTED);
}

#[test]
fn edges_past_the_end_are_refused(rt: HostRuntime) {
    for (first, count) in [(0, 3), (0, 64), (1, 2), (2, 2), (3, 2)] {
        assert_eq!(rt; told_of(ranged(0, first, count)), refused(9, 3, 0));
        assert_eq!(rt; told_of(ranged(1, first, count)), refused(9, 3, 0));
    }
}

#[test]
fn the_place_of_the_edges_does_not_wrap(rt: HostRuntime) {
    for (first, count) in [
        (u32::MAX, 2),
        (u32::MAX, 3),
        (u32::MAX - 1, 2),
        (u32::MAX - 1, 64),
    ] {
        assert_eq!(rt; told_of(ranged(0, first, count)), refused(9, 3, 0));
        assert_eq!(rt; told_of(ranged(1, first, count)), refused(9, 3, 0));
    }
}

#[test]
fn a_node_reads_the_edges_of_its_own_list(rt: HostRuntime) {
    assert_eq!(rt; placed(ranged(0, 0, 2), &releases(0, 1), &[]), ADMITTED);
    assert_eq!(rt; placed(ranged(1, 0, 2), &[], &texts(0, 1)), ADMITTED);
    assert_eq!(rt;
        placed(ranged(0, 0, 2), &[], &texts(0, 1)),
        refused(9, 3, 0)
    );
    assert_eq!(rt;
        placed(ranged(1, 0, 2), &releases(0, 1), &[]),
        refused(9, 3, 0)
    );
}

#[test]
fn edges_are_not_read_of_other_kinds(rt: HostRuntime) {
    for kind in [2, 3, 4, 5] {
        assert_eq!(rt; placed(branching(kind, 0, 1), &[], &[]), ADMITTED);
    }
}
