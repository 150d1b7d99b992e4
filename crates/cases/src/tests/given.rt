// What the tests are given: values, rows, and what an answer tells.
use diagrams::diagram::Diagram;
use diagrams::rows::{Node, ReleaseEdge, TextEdge};
use ranges::edges::Edge;
use std::cmp::Ordering;
use std::ops::Bound;
use values::faults::Fault;
use values::releases::Release;
use values::texts::Text;

pub(crate) const NO_REFUSAL: [usize; 4] = [0; 4];

// No refusal, at either of two places.
pub(crate) const ADMITTED: [[usize; 4]; 2] = [[0; 4]; 2];

// Number, layer and both places of a refusal, zeros where there is none.
pub(crate) fn told<T: Drop>(answer: Result<T, Fault>) -> [usize; 4] {
    match answer {
        Ok(_) => NO_REFUSAL,
        Err(fault) => {
            let (first, second) = fault.places();
            [
                fault.number() as usize,
                fault.layer().number() as usize,
                first,
                second,
            ]
        }
    }
}

// How two values compare, either way round.
pub(crate) fn both_ways<T: Ord>(a: &T, b: &T) -> (Ordering, Ordering) {
    (a.cmp(b), b.cmp(a))
}

// What admission tells of the lists.
pub(crate) fn admission<'a>(
    nodes: &'a [Node],
    releases: &'a [ReleaseEdge],
    texts: &'a [TextEdge],
) -> [usize; 4] {
    told(Diagram::admit(nodes, releases, texts))
}

// What admission tells of the node alone. The two lists are two parameters here and below, as those of `admit` are.
pub(crate) fn first(node: Node, releases: &[ReleaseEdge], texts: &[TextEdge]) -> [usize; 4] {
    admission(&[node], releases, texts)
}

// What it tells of the node behind two others.
pub(crate) fn third(node: Node, releases: &[ReleaseEdge], texts: &[TextEdge]) -> [usize; 4] {
    admission(&[node_of(5, 0), node_of(4, 0), node], releases, texts)
}

// Both.
pub(crate) fn placed(node: Node, releases: &[ReleaseEdge], texts: &[TextEdge]) -> [[usize; 4]; 2] {
    [first(node, releases, texts), third(node, releases, texts)]
}

// A refusal of the node at either place.
pub(crate) fn refused(number: usize, layer: usize, second: usize) -> [[usize; 4]; 2] {
    [[number, layer, 0, second], [number, layer, 2, second]]
}

// The release of the numbers, 0 where they make none.
pub(crate) fn release(numbers: &[u64]) -> Release {
    let none = Release {
        count: 1,
        numbers: [0; 8],
    };
    Release::new(numbers).unwrap_or(none)
}

// The text of the bytes, empty where they make none.
pub(crate) fn text(bytes: &[u8]) -> Text {
    let none = Text {
        length: 0,
        bytes: [0; 64],
    };
    Text::new(bytes).unwrap_or(none)
}

pub(crate) fn edge<T>(lower: Bound<T>, upper: Bound<T>, child: u32) -> Edge<T> {
    Edge {
        lower,
        upper,
        child,
    }
}

// Below 3.8, and from 3.8 on.
pub(crate) fn releases(below: u32, above: u32) -> [ReleaseEdge; 2] {
    let at = release(&[3, 8]);
    [
        edge(Bound::Unbounded, Bound::Excluded(at), below),
        edge(Bound::Included(at), Bound::Unbounded, above),
    ]
}

// Up to `linux`, and above it.
pub(crate) fn texts(below: u32, above: u32) -> [TextEdge; 2] {
    let at = text(b"linux");
    [
        edge(Bound::Unbounded, Bound::Included(at), below),
        edge(Bound::Excluded(at), Bound::Unbounded, above),
    ]
}

// A node that breaks no rule of its kind where the key fits: the first two edges, children TRUE and FALSE, literal `a`.
pub(crate) fn node_of(kind: u8, key: u8) -> Node {
    Node {
        kind,
        key,
        literal: text(b"a"),
        first: 0,
        count: 2,
        high: 0,
        low: 1,
    }
}

// A node with edges, of kind 0 or 1. It has nothing that could be read as a literal or a child.
pub(crate) fn ranged(kind: u8, first: u32, count: u32) -> Node {
    Node {
        literal: text(b"-"),
        first,
        count,
        high: u32::MAX,
        low: u32::MAX,
        ..node_of(kind, 0)
    }
}

// A node with a high and a low child, of kind 2 to 5. It has no edges.
pub(crate) fn branching(kind: u8, high: u32, low: u32) -> Node {
    Node {
        first: u32::MAX,
        count: u32::MAX,
        high,
        low,
        ..node_of(kind, 0)
    }
}
