ghost use Rattle.std.specs.Prelude.{◌≡◌, ℕ, ◌+◌, ◌≤◌, Bool, List, [], length, not, ◌==◌, if◌then◌else◌, Some, None, IfOk, is_some, slice_get};
ghost use Rattle.std.specs.Result.{result_err};
ghost use Rattle.std.specs.List.{position_from, list_any};
ghost use Rattle.values.specs.declared.faults.Fault.TheVariants.{ChildTooLarge};
ghost use Rattle.diagrams.specs.Tables.{table, held, no_table, child_ids};
ghost use Rattle.diagrams.specs.Held.{table_of};
ghost use Rattle.diagrams.specs.Admission.{key_refusal, name_refusal, too_large, child_refusal, range_refusal, cover_refusal, all_same, same_refusal, own_refusal, ranged_refusal, branches_refusal, node_refusal, first_refusal};
ghost use Rattle.diagrams.specs.Rules.{Refuses, Sound};

use crate::diagram::Diagram;
use crate::kinds::NodeKind;
use crate::rows::{Node, ReleaseEdge, Rows, TextEdge, own_edges};
use ranges::cover::uncovered_edge;
use ranges::edges::{Edge, first_empty};
use values::faults::Fault;
use values::keys::{Key, MarkerValueString, MarkerValueVersion};
use values::orders::Order;

// How many nodes a diagram has at most.
pub const MOST_NODES: usize = 4096;

// How many edges a node has at least and at most.
pub const LEAST_EDGES: u32 = 2;

pub const MOST_EDGES: u32 = 64;

// Whether a child's id names the node at the place or one behind it.
fn is_too_large(place: usize, child: u32) -> bool
    ensures { result ≡ too_large place child }
{
    child as usize / 2 > place
}

// Whether one of the edges leads to another child.
fn leads_elsewhere<T>(child: u32, edges: &[Edge<T>]) -> bool
    ensures { result ≡ list_any (λ d. not (d == child)) (child_ids edges.now) }
{
    edges
        .iter()
        .map(|edge| edge.child)
        .any(|other| other != child)
}

// Whether two of the edges lead to different children.
fn differ<T>(edges: &[Edge<T>]) -> bool
    ensures { all_same (child_ids edges.now) ≡ not result }
{
    match edges {
        [first, rest @ ..] => leads_elsewhere(first.child, rest),
        [] => false,
    }
}

// The edges of the node at a place.
#[derive(Drop)]
struct EdgesAt<'a, T> {
    place: usize,
    edges: &'a [Edge<T>],
}

impl<T: Order> EdgesAt<'_, T> {
    // The first edge whose child is too large.
    fn first_too_large(&self) -> Option<usize>
        ensures { result ≡ position_from (too_large self.now.place) 0 (child_ids self.now.edges.now) }
    {
        let place = self.place;
        self.edges
            .iter()
            .map(|edge| edge.child)
            .position(|child| is_too_large(place, child))
    }

    // Refusal 10. This check and the next two are one expression each, with another call and another case.
    fn check_children(&self) -> Result<(), Fault>
        ensures { result_err result ≡ child_refusal self.now.place (child_ids self.now.edges.now) }
    {
        let place = self.place;
        self.first_too_large().map_or(
            Ok(()),
            |child| Err(Fault::ChildTooLarge { node: place, child }),
        )
    }

    // Refusal 11.
    fn check_ranges(&self) -> Result<(), Fault>
        ensures { result_err result ≡ range_refusal T.Order.row self.now.place self.now.edges.now }
    {
        let place = self.place;
        first_empty(self.edges).map_or(Ok(()), |edge| Err(Fault::EmptyRange { node: place, edge }))
    }

    // Refusal 12.
    fn check_cover(&self) -> Result<(), Fault>
        ensures { result_err result ≡ cover_refusal T.Order.row self.now.place self.now.edges.now }
    {
        let place = self.place;
        uncovered_edge(self.edges).map_or(
            Ok(()),
            |edge| Err(Fault::Uncovered { node: place, edge }),
        )
    }

    // Refusal 13.
    fn check_difference(&self) -> Result<(), Fault>
        ensures { result_err result ≡ same_refusal self.now.place (child_ids self.now.edges.now) }
    {
        if differ(self.edges) {
            Ok(())
        } else {
            Err(Fault::OneChild { node: self.place })
        }
    }

    // Refusals 10 to 13.
    fn check(&self) -> Result<(), Fault>
        ensures { result_err result ≡ own_refusal T.Order.row self.now.place self.now.edges.now }
    {
        self.check_children()?;
        self.check_ranges()?;
        self.check_cover()?;
        self.check_difference()
    }
}

// The node at a place.
#[derive(Drop)]
struct NodeAt<'a> {
    place: usize,
    node: &'a Node,
}

impl NodeAt<'_> {
    // Refusal 6 of a node that has a key of the kind K.
    fn check_key<K: Key>(&self) -> Result<(), Fault>
        ensures { result_err result ≡ key_refusal self.now.place (is_some (slice_get K.Key.keys self.now.node.now.key)) }
    {
        if K::from_number(self.node.key).is_some() {
            Ok(())
        } else {
            Err(Fault::KeyOutOfRange { node: self.place })
        }
    }

    // Refusal 7.
    fn check_name(&self) -> Result<(), Fault>
        ensures { result_err result ≡ name_refusal self.now.place self.now.node.now.literal }
    {
        if self.node.literal.is_normal_name() {
            Ok(())
        } else {
            Err(Fault::ExtraNotNormal { node: self.place })
        }
    }

    // Refusals 8 to 13 of a node with edges, which lie in the list.
    fn check_edges<T: Order>(&self, edges: &[Edge<T>]) -> Result<(), Fault>
        ensures { result_err result ≡ ranged_refusal T.Order.row self.now.place self.now.node.now edges.now }
    {
        let NodeAt { place, node } = *self;
        if node.count < LEAST_EDGES || node.count > MOST_EDGES {
            return Err(Fault::EdgeCount { node: place });
        }
        if node.first as usize + node.count as usize > edges.len() {
            return Err(Fault::EdgesPastEnd { node: place });
        }
        let edges = own_edges(edges, node);
        EdgesAt { place, edges }.check()
    }

    // Refusal 10 of the high child, which is the child 0, or of the low one.
    fn check_child(&self, child: usize, id: u32) -> Result<(), Fault>
        ensures { result_err result ≡ (if too_large self.now.place id then Some (ChildTooLarge self.now.place child) else None) }
    {
        if is_too_large(self.place, id) {
            Err(Fault::ChildTooLarge {
                node: self.place,
                child,
            })
        } else {
            Ok(())
        }
    }

    // Refusals 10 and 13 of a node with a high and a low child.
    fn check_branches(&self) -> Result<(), Fault>
        ensures { result_err result ≡ branches_refusal self.now.place self.now.node.now.high self.now.node.now.low }
    {
        self.check_child(0, self.node.high)?;
        self.check_child(1, self.node.low)?;
        if self.node.high == self.node.low {
            return Err(Fault::OneChild { node: self.place });
        }
        Ok(())
    }

    // The first rule that the node breaks.
    fn check(&self, rows: &Rows) -> Result<(), Fault>
        ensures { result_err result ≡ node_refusal rows.now.releases.now rows.now.texts.now self.now.place self.now.node.now }
    {
        let node = self.node;
        match NodeKind::from_number(node.kind) {
            Some(NodeKind::Version) => {
                self.check_key::<MarkerValueVersion>()?;
                self.check_edges(rows.releases)
            }
            Some(NodeKind::String) => {
                self.check_key::<MarkerValueString>()?;
                self.check_edges(rows.texts)
            }
            Some(NodeKind::In | NodeKind::Contains) => {
                self.check_key::<MarkerValueString>()?;
                self.check_branches()
            }
            Some(NodeKind::Extra) => {
                self.check_name()?;
                self.check_branches()
            }
            Some(NodeKind::Arbitrary) => self.check_branches(),
            None => Err(Fault::UnknownKind { node: self.place }),
        }
    }
}

impl Rows<'_> {
    // The first rule that the lists break.
    #[tactic(auto, using(crate::proofs::Checks::many, crate::proofs::Checks::few))]
    fn check(&self) -> Result<(), Fault>
        ensures { result_err result ≡ first_refusal (held self.now) }
    {
        if self.nodes.len() > MOST_NODES {
            return Err(Fault::TooManyNodes);
        }
        // A `for`: of `try_for_each` the check found no proof, and it is no plainer.
        for (place, node) in self.nodes.iter().enumerate() {
            NodeAt { place, node }.check(self)?;
        }
        Ok(())
    }
}

impl<'a> Diagram<'a> {
    // The diagram of the lists, or the first rule that they break. The lists are lent one by one, as callers write
    // them.
    #[tactic(auto, using(crate::proofs::Lawful::refuses))]
    pub fn admit(
        nodes: &'a [Node],
        releases: &'a [ReleaseEdge],
        texts: &'a [TextEdge],
    ) -> Result<Diagram<'a>, Fault>
        ensures answer { result_err result ≡ first_refusal (table nodes.now releases.now texts.now) }
        ensures diagram { IfOk result (λ d. table_of d ≡ table nodes.now releases.now texts.now) }
        ensures law { Refuses (table nodes.now releases.now texts.now) }
        ensures sound { IfOk result (λ d. Sound (table_of d)) }
    {
        let rows = Rows {
            nodes,
            releases,
            texts,
        };
        rows.check()?;
        Ok(Diagram { rows })
    }

    // The diagram of empty lists, which knows TRUE and FALSE alone.
    #[tactic(auto, using(crate::proofs::Lawful::sound), unfolding(crate::specs::Admission::first_refusal))]
    pub fn empty() -> Diagram<'a>
        ensures diagram { table_of result ≡ no_table }
        ensures sound { Sound (table_of result) }
    {
        let rows = Rows {
            nodes: &[],
            releases: &[],
            texts: &[],
        };
        Diagram { rows }
    }
}
