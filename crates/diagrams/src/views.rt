ghost use Rattle.std.specs.Prelude.{◌≡◌};
ghost use Rattle.diagrams.specs.Ids.{turned};

use crate::ids::NodeId;
use ranges::edges::Edge;
use values::keys::{MarkerValueString, MarkerValueVersion};
use values::releases::Release;
use values::texts::Text;

// What an id stands for. A view borrows the node's own edges, or its literal, out of the lists.
#[derive(Clone, Copy)]
pub enum MarkerTreeKind<'a> {
    True,
    False,
    Version(VersionMarkerTree<'a>),
    String(StringMarkerTree<'a>),
    In(InMarkerTree<'a>),
    Contains(ContainsMarkerTree<'a>),
    Extra(ExtraMarkerTree<'a>),
}

// A node with edges over the values of a key, as the id shows it.
#[derive(Clone, Copy)]
pub struct EdgesMarkerTree<'a, K, T> {
    pub id: NodeId,
    pub key: K,
    pub edges: &'a [Edge<T>],
}

pub type VersionMarkerTree<'a> = EdgesMarkerTree<'a, MarkerValueVersion, Release>;

pub type StringMarkerTree<'a> = EdgesMarkerTree<'a, MarkerValueString, Text>;

impl<K, T> EdgesMarkerTree<'_, K, T> {
    // Where an edge leads under the id.
    pub fn child(&self, edge: &Edge<T>) -> NodeId
        ensures { result.0 ≡ turned self.now.id.0 edge.now.child }
    {
        NodeId(edge.child).under(self.id)
    }
}

// A node with a key and a literal, as the id shows it.
#[derive(Clone, Copy)]
pub struct LiteralMarkerTree<'a> {
    pub key: MarkerValueString,
    pub value: &'a Text,
    pub high: NodeId,
    pub low: NodeId,
}

// Whether the text of a key lies in a literal: high where it does.
pub type InMarkerTree<'a> = LiteralMarkerTree<'a>;

// Whether a literal lies in the text of a key: high where it does.
pub type ContainsMarkerTree<'a> = LiteralMarkerTree<'a>;

// The name of an extra: a normal name, or any text, which is never active.
#[derive(Clone, Copy)]
pub enum MarkerValueExtra<'a> {
    Extra(&'a Text),
    Arbitrary(&'a Text),
}

// Whether an extra is active: high where it is.
#[derive(Clone, Copy)]
pub struct ExtraMarkerTree<'a> {
    pub name: MarkerValueExtra<'a>,
    pub high: NodeId,
    pub low: NodeId,
}
