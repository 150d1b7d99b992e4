// What ids show.
use crate::tests::given::{edge, node_of, release, releases, text, texts, told};
use diagrams::diagram::Diagram;
use diagrams::ids::NodeId;
use diagrams::rows::{Node, ReleaseEdge, TextEdge};
use diagrams::views::{EdgesMarkerTree, MarkerTreeKind, MarkerValueExtra};
use std::ops::Bound::Unbounded;
use std::process::Abort;
use values::faults::Fault;
use values::keys::Key;

// A node of each kind, with ids 2 to 13.
fn nodes() -> [Node; 6] {
    let bare = Node {
        first: 1,
        ..node_of(0, 2)
    };
    [
        bare,
        Node {
            kind: 1,
            key: 13,
            ..bare
        },
        with_literal(node_of(2, 3), b"x86", 4, 1),
        with_literal(node_of(3, 12), b"", 0, 6),
        with_literal(node_of(4, 255), b"a-b", 1, 9),
        with_literal(node_of(5, 255), b"A b", 11, 10),
    ]
}

fn with_literal(node: Node, literal: &[u8], high: u32, low: u32) -> Node {
    Node {
        literal: text(literal),
        high,
        low,
        ..node
    }
}

// The edges of the first two nodes, behind one that belongs to none.
fn release_rows() -> [ReleaseEdge; 3] {
    let [below, above] = releases(0, 1);
    [edge(Unbounded, Unbounded, 9), below, above]
}

fn text_rows() -> [TextEdge; 3] {
    let [below, above] = texts(2, 3);
    [edge(Unbounded, Unbounded, 9), below, above]
}

// The case of a view, with its key, its literal and its two children.
type Short<'a> = (&'static str, &'static str, &'a [u8], [u32; 2]);

// The children of a view with two edges.
fn children<K, T>(view: &EdgesMarkerTree<K, T>) -> [u32; 2] {
    match view.edges {
        [a, b] => [view.child(a).0, view.child(b).0],
        _ => [u32::MAX; 2],
    }
}

fn short<'a>(kind: &MarkerTreeKind<'a>) -> Short<'a> {
    match kind {
        MarkerTreeKind::True => ("true", "", &[], [0; 2]),
        MarkerTreeKind::False => ("false", "", &[], [0; 2]),
        MarkerTreeKind::Version(v) => ("version", v.key.name(), &[], children(v)),
        MarkerTreeKind::String(v) => ("string", v.key.name(), &[], children(v)),
        MarkerTreeKind::In(v) => ("in", v.key.name(), v.value.as_bytes(), [v.high.0, v.low.0]),
        MarkerTreeKind::Contains(v) => {
            (
                "contains",
                v.key.name(),
                v.value.as_bytes(),
                [v.high.0, v.low.0],
            )
        }
        MarkerTreeKind::Extra(v) => match v.name {
            MarkerValueExtra::Extra(name) => ("extra", "", name.as_bytes(), [v.high.0, v.low.0]),
            MarkerValueExtra::Arbitrary(name) => {
                ("arbitrary", "", name.as_bytes(), [v.high.0, v.low.0])
            }
        },
    }
}

// Checks what an id shows, in short.
fn shows(rt: &impl Abort, diagram: &Diagram, id: u32, expected: Short) {
    match diagram.kind(NodeId(id)) {
        Err(_) => panic!(rt; "the id is unknown: {id}"),
        Ok(kind) => {
            let seen = short(&kind);
            assert_eq!(rt; seen.0, expected.0, "{}", id);
            assert_eq!(rt; seen.1, expected.1, "{}", id);
            assert_eq!(rt; seen.2, expected.2, "{}", id);
            assert_eq!(rt; seen.3, expected.3, "{}", id);
        }
    }
}

// What is told of an id.
fn known(diagram: &Diagram, id: u32) -> [usize; 4] {
    told(diagram.kind(NodeId(id)))
}

#[test]
fn even_ids_show_the_children_as_stored(rt: HostRuntime) {
    let nodes = nodes();
    let releases = release_rows();
    let texts = text_rows();
    let admitted = Diagram::admit(&nodes, &releases, &texts);
    assert_eq!(rt; told(admitted), [0; 4]);
    let diagram = admitted.unwrap_or(Diagram::empty());
    shows(&rt, &diagram, 0, ("true", "", b"", [0; 2]));
    shows(&rt, &diagram, 2, ("version", "python_version", b"", [0, 1]));
    shows(&rt, &diagram, 4, ("string", "sys.platform", b"", [2, 3]));
    shows(&rt, &diagram, 6, ("in", "platform_machine", b"x86", [4, 1]));
    shows(&rt, &diagram, 8, ("contains", "sys_platform", b"", [0, 6]));
    shows(&rt, &diagram, 10, ("extra", "", b"a-b", [1, 9]));
    shows(&rt, &diagram, 12, ("arbitrary", "", b"A b", [11, 10]));
}

#[test]
fn odd_ids_show_the_children_turned(rt: HostRuntime) {
    let nodes = nodes();
    let releases = release_rows();
    let texts = text_rows();
    let diagram = Diagram::admit(&nodes, &releases, &texts).unwrap_or(Diagram::empty());
    shows(&rt, &diagram, 1, ("false", "", b"", [0; 2]));
    shows(&rt, &diagram, 3, ("version", "python_version", b"", [1, 0]));
    shows(&rt, &diagram, 5, ("string", "sys.platform", b"", [3, 2]));
    shows(&rt, &diagram, 7, ("in", "platform_machine", b"x86", [5, 0]));
    shows(&rt, &diagram, 9, ("contains", "sys_platform", b"", [1, 7]));
    shows(&rt, &diagram, 11, ("extra", "", b"a-b", [0, 8]));
    shows(&rt, &diagram, 13, ("arbitrary", "", b"A b", [10, 11]));
}

#[test]
fn a_view_has_its_own_edges(rt: HostRuntime) {
    let nodes = nodes();
    let releases = release_rows();
    let texts = text_rows();
    let diagram = Diagram::admit(&nodes, &releases, &texts).unwrap_or(Diagram::empty());
    for id in [2, 3] {
        if let Ok(MarkerTreeKind::Version(view)) = diagram.kind(NodeId(id)) {
            assert!(rt; view.edges.len() == 2);
            assert!(rt; view.edges[0].contains(&release(&[3, 7])));
            assert!(rt; !view.edges[0].contains(&release(&[3, 8])));
            assert!(rt; view.edges[1].contains(&release(&[3, 8])));
            assert_eq!(rt; view.id.0, id);
        } else {
            panic!(rt; "no release node: {id}");
        }
    }
}

#[test]
fn ids_past_the_end_are_unknown(rt: HostRuntime) {
    let nodes = nodes();
    let releases = release_rows();
    let texts = text_rows();
    let diagram = Diagram::admit(&nodes, &releases, &texts).unwrap_or(Diagram::empty());
    assert_eq!(rt; known(&diagram, 13), [0; 4]);
    for id in [14, 15, 16, u32::MAX - 1, u32::MAX] {
        assert_eq!(rt; known(&diagram, id), [14, 4, 0, 0]);
    }
    let admitted = Diagram::admit(&[], &[], &[]);
    assert_eq!(rt; told(admitted), [0; 4]);
    let none = admitted.unwrap_or(Diagram::empty());
    assert_eq!(rt; known(&none, 1), [0; 4]);
    assert_eq!(rt; known(&none, 2), [14, 4, 0, 0]);
}

#[test]
fn a_refused_admission_knows_true_and_false_alone(rt: HostRuntime) {
    let nodes = [node_of(5, 0), node_of(6, 0)];
    let admitted = Diagram::admit(&nodes, &[], &[]);
    assert_eq!(rt; told(admitted), [5, 3, 1, 0]);
    let diagram = admitted.unwrap_or(Diagram::empty());
    shows(&rt, &diagram, 0, ("true", "", b"", [0; 2]));
    shows(&rt, &diagram, 1, ("false", "", b"", [0; 2]));
    for id in [2, 3, 4, 5, u32::MAX] {
        assert_eq!(rt; known(&diagram, id), [14, 4, 0, 0]);
    }
}

#[test]
fn negating_turns_the_lowest_bit_of_any_id(rt: HostRuntime) {
    for (id, negation) in [(0, 1), (1, 0), (2, 3), (3, 2), (u32::MAX, u32::MAX - 1)] {
        assert_eq!(rt; NodeId(id).negate().0, negation);
        assert_eq!(rt; NodeId(id).under(NodeId::TRUE).0, id);
        assert_eq!(rt; NodeId(id).under(NodeId::FALSE).0, negation);
    }
}
