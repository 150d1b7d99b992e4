ghost use Rattle.std.specs.Prelude.{◌≡◌, ◌&&◌, Some, None};
ghost use Rattle.std.specs.Option.{option_copied};
ghost use Rattle.std.specs.List.{list_any};
ghost use Rattle.values.specs.Releases.{release_row};
ghost use Rattle.ranges.specs.Bounds.{lies};
ghost use Rattle.diagrams.specs.Held.{table_of};
ghost use Rattle.diagrams.specs.Ids.{turned};
ghost use Rattle.diagrams.specs.Views.{shown_kind, edges_seen, view};
ghost use Rattle.hosts.specs.Records.{among};
ghost use Rattle.evaluation.specs.Extras.{counts as does_count, may_say, on_result, extras_answer, ExtrasLaw};
ghost use Rattle.evaluation.specs.Steps.{name_passes, releases_known, settled};

use diagrams::diagram::Diagram;
use diagrams::ids::NodeId;
use diagrams::views::{MarkerTreeKind, MarkerValueExtra, StringMarkerTree, VersionMarkerTree};
use hosts::records::{check_names, is_among};
use ranges::edges::Edge;
use ranges::points::Point;
use values::faults::Fault;
use values::keys::MarkerValueVersion;
use values::releases::Release;
use values::texts::Text;

// As many ids as the largest diagram has, TRUE and FALSE included.
const MOST_IDS: usize = 8194;

// Whether some release lies in an edge's range.
fn any_inside(edge: &Edge<Release>, releases: &[Release]) -> bool
    ensures { result ≡ list_any (λ v. lies release_row edge.now (release_row v)) releases.now }
{
    releases.iter().any(|release| edge.contains(release))
}

// What an evaluation of extras knows: the active names, the releases of Python if they are given, and what each id
// that is settled may say, in memory of fixed size, since the unit has no heap.
#[derive(Drop)]
struct Asked<'a> {
    names: &'a [Text],
    releases: Option<&'a [Release]>,
    table: [bool; MOST_IDS],
}

impl Asked<'_> {
    // Whether an id that is settled may say yes.
    fn says(&self, id: NodeId) -> bool
        ensures { result ≡ settled self.now id.0 }
    {
        self.table.get(id.0 as usize).copied().unwrap_or(false)
    }

    // Whether an edge of a release node counts.
    fn counts(&self, key: MarkerValueVersion, edge: &Edge<Release>) -> bool
        ensures { result ≡ does_count (releases_known self.now) key edge.now }
    {
        match (self.releases, key) {
            (Some(releases), MarkerValueVersion::PythonVersion) => any_inside(edge, releases),
            _ => true,
        }
    }

    // Whether an edge of a release node that counts leads to a yes.
    fn any_version(&self, tree: &VersionMarkerTree) -> bool
        ensures { result ≡ list_any (λ e. does_count (releases_known self.now) tree.now.key e && settled self.now e.child) (edges_seen tree.now) }
    {
        tree.edges.iter().any(|edge| self.counts(tree.key, edge) && self.says(tree.child(edge)))
    }

    // Whether an edge of a text node leads to a yes.
    fn any_string(&self, tree: &StringMarkerTree) -> bool
        ensures { result ≡ list_any (λ e. settled self.now e.child) (edges_seen tree.now) }
    {
        tree.edges.iter().any(|edge| self.says(tree.child(edge)))
    }

    // Whether the name of an extra is among the names; one with any text never is. A host is asked elsewhere, in as few
    // lines.
    fn is_named(&self, name: &MarkerValueExtra) -> bool
        ensures { result ≡ name_passes (among self.now.names.now) name.now }
    {
        match name {
            MarkerValueExtra::Extra(name) => is_among(name, self.names),
            MarkerValueExtra::Arbitrary(_) => false,
        }
    }

    // Whether a view may say yes, where the ids below it are settled.
    fn may_be(&self, kind: &MarkerTreeKind) -> bool
        ensures { result ≡ may_say self.now.names.now (releases_known self.now) (settled self.now) (shown_kind kind.now) }
    {
        match kind {
            MarkerTreeKind::True => true,
            MarkerTreeKind::False => false,
            MarkerTreeKind::Version(tree) => self.any_version(tree),
            MarkerTreeKind::String(tree) => self.any_string(tree),
            MarkerTreeKind::In(tree) | MarkerTreeKind::Contains(tree) => self.says(tree.high)
                || self.says(tree.low),
            MarkerTreeKind::Extra(tree) => {
                let high = self.is_named(&tree.name);
                self.says(if high { tree.high } else { tree.low })
            }
        }
    }

    // Whether an id may say yes, where the ids below it are settled.
    fn settle(&self, diagram: &Diagram, id: NodeId) -> bool
        ensures { result ≡ on_result self.now.names.now (releases_known self.now) (settled self.now) (view (table_of diagram.now) id.0) }
    {
        // With `is_ok_and` nothing would be known of what a closure answers.
        match diagram.kind(id) {
            Ok(kind) => self.may_be(&kind),
            Err(_) => false,
        }
    }
}

// Whether a root may say yes: one function for the two calls below, which the Rust crate has with these parameters.
// Each id up to it is settled once, from the lowest, since children fall.
#[tactic(auto, using(crate::proofs::Possibly::roots))]
fn evaluate_possible(
    diagram: &Diagram,
    root: NodeId,
    names: &[Text],
    releases: Option<&[Release]>,
) -> Result<bool, Fault>
    ensures { result ≡ extras_answer names.now (option_copied releases.entry) (table_of diagram.now) root.0 }
{
    diagram.kind(root)?;
    check_names(names)?;
    let mut asked = Asked {
        names,
        releases,
        table: [false; MOST_IDS],
    };
    // An id is no place in a list: it is asked about by its number, and what it says is what later ones read.
    for id in 0..=root.0 {
        asked.table[id as usize] = asked.settle(diagram, NodeId(id));
    }
    Ok(asked.says(root))
}

// Whether a root may say yes with the extras of the names active: refusal 14, then 16. Whatever else a host says counts
// as possible.
#[tactic(auto, using(crate::proofs::Possibly::extras_law))]
pub fn evaluate_extras(diagram: &Diagram, root: NodeId, names: &[Text]) -> Result<bool, Fault>
    ensures answer { result ≡ extras_answer names.now None (table_of diagram.now) root.0 }
    ensures law { ExtrasLaw (table_of diagram.now) }
{
    evaluate_possible(diagram, root, names, None)
}

// The same, where `python_version` is one of the releases.
#[tactic(auto, using(crate::proofs::Possibly::extras_law))]
pub fn evaluate_extras_and_python_version(
    diagram: &Diagram,
    root: NodeId,
    names: &[Text],
    releases: &[Release],
) -> Result<bool, Fault>
    ensures answer { result ≡ extras_answer names.now (Some releases.now) (table_of diagram.now) root.0 }
    ensures law { ExtrasLaw (table_of diagram.now) }
{
    evaluate_possible(diagram, root, names, Some(releases))
}
