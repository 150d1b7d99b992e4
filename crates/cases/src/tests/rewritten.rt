// How rows are rewritten once a diagram has ended.
use crate::rewriting::rewrite;
use crate::tests::given::{NO_REFUSAL, edge, ranged, releases, texts, told};
use diagrams::ids::NodeId;
use std::ops::Bound::Unbounded;

#[test]
fn a_written_row_is_admitted_anew(rt: HostRuntime) {
    let mut nodes = [ranged(0, 0, 2), ranged(1, 0, 2)];
    let mut rows = releases(0, 1);
    let mut others = texts(2, 3);
    let id = NodeId(4);
    let wrong = edge(Unbounded, Unbounded, 0);
    let broken = rewrite(&mut nodes, &mut rows, &mut others, id, 1, wrong);
    assert_eq!(rt; told(broken.before), NO_REFUSAL);
    assert!(rt; broken.known);
    assert_eq!(rt; told(broken.after), [12, 2, 0, 1]);
    let [_, right] = releases(0, 1);
    let mended = rewrite(&mut nodes, &mut rows, &mut others, id, 1, right);
    assert_eq!(rt; told(mended.before), [12, 2, 0, 1]);
    assert!(rt; !mended.known);
    assert_eq!(rt; told(mended.after), NO_REFUSAL);
}

#[test]
fn a_place_past_the_end_is_not_written(rt: HostRuntime) {
    let mut nodes = [ranged(0, 0, 2)];
    let mut rows = releases(0, 1);
    let wrong = edge(Unbounded, Unbounded, 0);
    let kept = rewrite(&mut nodes, &mut rows, &mut [], NodeId::FALSE, 2, wrong);
    assert_eq!(rt; told(kept.before), NO_REFUSAL);
    assert!(rt; kept.known);
    assert_eq!(rt; told(kept.after), NO_REFUSAL);
    assert_eq!(rt; [rows[0].child, rows[1].child], [0, 1]);
}
