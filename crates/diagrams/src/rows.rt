ghost use Rattle.std.specs.Prelude.{◌≡◌, ◌+◌, ◌≤◌, length};
ghost use Rattle.diagrams.specs.Tables.{own};

use ranges::edges::Edge;
use values::releases::Release;
use values::texts::Text;

pub type ReleaseEdge = Edge<Release>;

pub type TextEdge = Edge<Text>;

// A node as it is stored. Kinds 0 and 1 read key, first and count; 2 and 3 key, literal, high and low; 4 and 5 literal,
// high and low. Kind and key are bytes, since a row may hold wrong ones; first and count say which edges of a lent list
// are its own.
#[derive(Clone, Copy)]
pub struct Node {
    pub kind: u8,
    pub key: u8,
    pub literal: Text,
    pub first: u32,
    pub count: u32,
    pub high: u32,
    pub low: u32,
}

// The three lists of a diagram.
#[derive(Clone, Copy)]
pub(crate) struct Rows<'a> {
    pub(crate) nodes: &'a [Node],
    pub(crate) releases: &'a [ReleaseEdge],
    pub(crate) texts: &'a [TextEdge],
}

// The node's own part of a list of edges.
pub(crate) fn own_edges<'a, T>(edges: &'a [Edge<T>], node: &Node) -> &'a [Edge<T>]
    requires { node.now.first + node.now.count ≤ length edges.now }
    ensures { result.now ≡ own edges.now node.now }
{
    let first = node.first as usize;
    let end = first + node.count as usize;
    &edges[first..end]
}
