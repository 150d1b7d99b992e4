ghost use Rattle.std.specs.Prelude.{◌≡◌, ℕ, ◌/◌, ◌<◌, ◌≤◌, length, is_ok, Some, MatchOption};
ghost use Rattle.values.specs.Keys.{version_key_of, string_key_of};
ghost use Rattle.diagrams.specs.Held.{table_of};
ghost use Rattle.diagrams.specs.Rules.{SoundNode};
ghost use Rattle.diagrams.specs.Kinds.{kind_number};
ghost use Rattle.diagrams.specs.Views.{shown, shown_kind, view, node_view, Shows};

use crate::diagram::Diagram;
use crate::ids::NodeId;
use crate::rows::{Node, own_edges};
use crate::views::{
    EdgesMarkerTree, ExtraMarkerTree, LiteralMarkerTree, MarkerTreeKind, MarkerValueExtra,
};
use values::faults::Fault;
use values::keys::{Key, MarkerValueString, MarkerValueVersion};

// What a node is, by its number in a row.
#[derive(Clone, Copy)]
pub(crate) enum NodeKind {
    Version,
    String,
    In,
    Contains,
    Extra,
    Arbitrary,
}

// The kinds in the order of their numbers.
const NODE_KINDS: [NodeKind; 6] = [
    NodeKind::Version,
    NodeKind::String,
    NodeKind::In,
    NodeKind::Contains,
    NodeKind::Extra,
    NodeKind::Arbitrary,
];

impl NodeKind {
    // The kind that has a number, if one has. A kind has no name, and so is no `Key`.
    pub(crate) fn from_number(number: u8) -> Option<NodeKind>
        ensures { MatchOption result (5 < number) (λ kind. number ≡ kind_number kind) }
    {
        NODE_KINDS.get(number as usize).copied()
    }
}

impl<'a> Diagram<'a> {
    // What an id stands for, or refusal 14.
    #[tactic(auto, using(crate::proofs::Viewing::view_shows), unfolding(crate::specs::Views::view))]
    pub fn kind(&self, id: NodeId) -> Result<MarkerTreeKind<'a>, Fault>
        ensures answer { shown result ≡ view (table_of self.now) id.0 }
        ensures law { Shows (table_of self.now) id.0 }
    {
        if id == NodeId::TRUE {
            return Ok(MarkerTreeKind::True);
        }
        if id == NodeId::FALSE {
            return Ok(MarkerTreeKind::False);
        }
        let place = id.0 as usize / 2 - 1;
        let node = self.rows.nodes.get(place).ok_or(Fault::UnknownId)?;
        Ok(self.node_kind(id, node))
    }

    // What a node shows under an id.
    fn node_kind(&self, id: NodeId, node: &'a Node) -> MarkerTreeKind<'a>
        requires { (i : ℕ) × SoundNode (table_of self.now) i node.now }
        ensures { Some (shown_kind result) ≡ node_view (table_of self.now) id.0 node.now }
    {
        let value = &node.literal;
        let high = NodeId(node.high).under(id);
        let low = NodeId(node.low).under(id);
        match NodeKind::from_number(node.kind).unwrap() {
            NodeKind::Version => MarkerTreeKind::Version(EdgesMarkerTree {
                id,
                key: MarkerValueVersion::from_number(node.key).unwrap(),
                edges: own_edges(self.rows.releases, node),
            }),
            NodeKind::String => MarkerTreeKind::String(EdgesMarkerTree {
                id,
                key: MarkerValueString::from_number(node.key).unwrap(),
                edges: own_edges(self.rows.texts, node),
            }),
            NodeKind::In => MarkerTreeKind::In(literal_tree(node, high, low)),
            NodeKind::Contains => MarkerTreeKind::Contains(literal_tree(node, high, low)),
            NodeKind::Extra => MarkerTreeKind::Extra(ExtraMarkerTree {
                name: MarkerValueExtra::Extra(value),
                high,
                low,
            }),
            NodeKind::Arbitrary => MarkerTreeKind::Extra(ExtraMarkerTree {
                name: MarkerValueExtra::Arbitrary(value),
                high,
                low,
            }),
        }
    }
}

// What an admitted node with a key and a literal shows.
fn literal_tree(node: &Node, high: NodeId, low: NodeId) -> LiteralMarkerTree<'_>
    requires { node.now.key ≤ 13 }
    ensures key { Some result.key ≡ string_key_of node.now.key }
    ensures value { result.value.now ≡ node.now.literal }
    ensures children { (result.high ≡ high) × (result.low ≡ low) }
{
    LiteralMarkerTree {
        key: MarkerValueString::from_number(node.key).unwrap(),
        value: &node.literal,
        high,
        low,
    }
}
