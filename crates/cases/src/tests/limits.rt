// How many nodes and edges there may be.
use crate::tests::given::{
    NO_REFUSAL, admission, branching, edge, first, node_of, ranged, release, text, third,
};
use diagrams::rows::{ReleaseEdge, TextEdge};
use ranges::edges::Edge;
use std::ops::Bound::{Excluded, Included, Unbounded};

// The edge at a place of edges that cover the line up to a last one.
fn step<T>(at: T, next: T, place: u8, last: u8) -> Edge<T>
where
    T: Drop,
{
    let lower = if place == 0 { Unbounded } else { Included(at) };
    let upper = if place == last {
        Unbounded
    } else {
        Excluded(next)
    };
    edge(lower, upper, u32::from(place % 2))
}

// Edges that cover the line up to a last one. Places are counted, and texts have a function of their own: of one loop
// over `iter_mut` and a closure that makes the values, the check found no proof.
fn steps(last: u8) -> [ReleaseEdge; 65] {
    let mut edges = [edge(Unbounded, Unbounded, 0); 65];
    for place in 0..65u8 {
        let at = release(&[u64::from(place)]);
        let next = release(&[u64::from(place) + 1]);
        edges[place as usize] = step(at, next, place, last);
    }
    edges
}

fn text_steps(last: u8) -> [TextEdge; 65] {
    let mut edges = [edge(Unbounded, Unbounded, 0); 65];
    for place in 0..65u8 {
        edges[place as usize] = step(text(&[place]), text(&[place + 1]), place, last);
    }
    edges
}

#[test]
fn a_node_has_up_to_64_release_edges(rt: HostRuntime) {
    let edges = steps(63);
    assert_eq!(rt; first(ranged(0, 0, 64), &edges, &[]), NO_REFUSAL);
    assert_eq!(rt; third(ranged(0, 0, 64), &edges, &[]), NO_REFUSAL);
    assert_eq!(rt; first(ranged(0, 0, 63), &edges, &[]), [12, 2, 0, 62]);
    assert_eq!(rt; first(ranged(0, 1, 64), &edges, &[]), [12, 2, 0, 0]);
    assert_eq!(rt; first(ranged(0, 2, 64), &edges, &[]), [9, 3, 0, 0]);
    let more = steps(64);
    assert_eq!(rt; first(ranged(0, 0, 65), &more, &[]), [8, 3, 0, 0]);
    assert_eq!(rt; third(ranged(0, 0, 65), &more, &[]), [8, 3, 2, 0]);
}

#[test]
fn a_node_has_up_to_64_text_edges(rt: HostRuntime) {
    assert_eq!(rt; first(ranged(1, 0, 64), &[], &text_steps(63)), NO_REFUSAL);
    assert_eq!(rt; third(ranged(1, 0, 64), &[], &text_steps(63)), NO_REFUSAL);
    assert_eq!(rt; first(ranged(1, 0, 65), &[], &text_steps(64)), [8, 3, 0, 0]);
    assert_eq!(rt; third(ranged(1, 0, 65), &[], &text_steps(64)), [8, 3, 2, 0]);
}

#[test]
fn no_nodes_at_all_are_admitted(rt: HostRuntime) {
    assert_eq!(rt; admission(&[], &[], &[]), NO_REFUSAL);
    assert_eq!(rt; admission(&[], &steps(64), &text_steps(64)), NO_REFUSAL);
}

#[test]
fn a_diagram_has_up_to_4096_nodes(rt: HostRuntime) {
    let good = node_of(5, 0);
    assert_eq!(rt; admission(&[good; 4096], &[], &[]), NO_REFUSAL);
    assert_eq!(rt; admission(&[good; 4097], &[], &[]), [4, 3, 0, 0]);
}

#[test]
fn the_number_of_nodes_is_told_first(rt: HostRuntime) {
    assert_eq!(rt; admission(&[node_of(6, 0); 4097], &[], &[]), [4, 3, 0, 0]);
}

#[test]
fn the_last_of_4096_nodes_is_checked(rt: HostRuntime) {
    let mut nodes = [node_of(5, 0); 4096];
    nodes[4095] = branching(3, 8191, 8190);
    assert_eq!(rt; admission(&nodes, &[], &[]), NO_REFUSAL);
    nodes[4095] = branching(3, 8191, 8192);
    assert_eq!(rt; admission(&nodes, &[], &[]), [10, 2, 4095, 1]);
}
