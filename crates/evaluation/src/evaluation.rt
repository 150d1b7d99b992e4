ghost use Rattle.std.specs.Prelude.{◌≡◌};
ghost use Rattle.values.specs.Releases.{release_row};
ghost use Rattle.values.specs.Texts.{text_bytes};
ghost use Rattle.ranges.specs.Bounds.{lies};
ghost use Rattle.diagrams.specs.Held.{table_of};
ghost use Rattle.diagrams.specs.Views.{shown_kind, edges_seen};
ghost use Rattle.hosts.specs.Hosts.{text_of};
ghost use Rattle.evaluation.specs.Walks.{bound_reports, single, edge_reports, examined, chosen, lead as the_lead, told, walk};
ghost use Rattle.evaluation.specs.Evaluation.{Evaluates};
ghost use Rattle.evaluation.specs.Steps.{Tells, shown_step, name_passes};

use crate::substrings::contains;
use diagrams::diagram::Diagram;
use diagrams::ids::NodeId;
use diagrams::views::{MarkerTreeKind, MarkerValueExtra, StringMarkerTree, VersionMarkerTree};
use hosts::hosts::Host;
use hosts::reporters::Reporter;
use hosts::warnings::{MarkerWarningKind, Report};
use ranges::edges::Edge;
use ranges::points::{HostText, Point};
use std::ops::{Bound, ControlFlow};
use values::faults::Fault;
use values::keys::MarkerValueString;
use values::texts::Text;

// Whether a range is one value.
fn is_single(lower: &Bound<Text>, upper: &Bound<Text>) -> bool
    ensures { result ≡ single lower.now upper.now }
{
    matches!((lower, upper), (Bound::Included(x), Bound::Included(y)) if x == y)
}

// Reports a bound that has a value.
fn report_bound<R: Reporter>(reporter: &mut R, key: MarkerValueString, bound: &Bound<Text>)
    ensures { Tells R.Reporter.tally reporter.old reporter.new (bound_reports key bound.now) }
{
    match bound {
        Bound::Unbounded => {}
        Bound::Included(literal) | Bound::Excluded(literal) => reporter.report(Report {
            kind: MarkerWarningKind::LexicographicComparison,
            key,
            literal: *literal,
        }),
    }
}

// Reports the bounds of an edge that have values, the lower first, unless the edge is one value.
fn report_edge<R: Reporter>(reporter: &mut R, key: MarkerValueString, edge: &Edge<Text>)
    ensures { Tells R.Reporter.tally reporter.old reporter.new (edge_reports key edge.now) }
{
    if !is_single(&edge.lower, &edge.upper) {
        report_bound(reporter, key, &edge.lower);
        report_bound(reporter, key, &edge.upper);
    }
}

// Where the range of a release node that contains the host's release leads.
fn choose_version<H: Host>(tree: &VersionMarkerTree, host: &H) -> NodeId
    ensures { result.0 ≡ chosen release_row (release_row ((H.Host.means host.now).release tree.now.key)) (edges_seen tree.now) }
{
    let release = host.get_version(tree.key);
    // With `map_or` nothing would be known of the child that a closure answers.
    match tree.edges.iter().find(|edge| edge.contains(release)) {
        Some(edge) => tree.child(edge),
        None => NodeId::FALSE,
    }
}

// Where the range of a text node that contains the host's text leads. The edges are examined from the first to that
// one, and each reports.
#[tactic(auto, using(crate::proofs::Walking::edge_steps))]
fn choose_string<H: Host, R: Reporter>(
    tree: &StringMarkerTree,
    host: &H,
    reporter: &mut R,
) -> NodeId
    ensures child { result.0 ≡ chosen text_bytes (text_of (H.Host.means host.now) tree.now.key) (edges_seen tree.now) }
    ensures reports { Tells R.Reporter.tally reporter.old reporter.new (examined tree.now.key (text_of (H.Host.means host.now) tree.now.key) (edges_seen tree.now)) }
{
    let text = HostText {
        bytes: host.get_string(tree.key),
    };
    // A `for`, since each turn changes the reporter; a closure would leave nothing known of it.
    for edge in tree.edges {
        report_edge(reporter, tree.key, edge);
        if edge.contains(&text) {
            return tree.child(edge);
        }
    }
    NodeId::FALSE
}

// Whether an extra is active on a host; one whose name is any text never is.
fn is_active<H: Host>(name: &MarkerValueExtra, host: &H) -> bool
    ensures { result ≡ name_passes (H.Host.means host.now).active name.now }
{
    match name {
        MarkerValueExtra::Extra(name) => host.is_active(name),
        MarkerValueExtra::Arbitrary(_) => false,
    }
}

// Where a view leads on a host: to an answer, or on to an id. The reports go to the reporter. Host and reporter are no
// struct: one is read and the other written, in three functions. High or low is chosen in place: a function would take
// the same three values.
fn lead<H: Host, R: Reporter>(
    kind: &MarkerTreeKind,
    host: &H,
    reporter: &mut R,
) -> ControlFlow<bool, NodeId>
    ensures step { shown_step result ≡ the_lead (H.Host.means host.now) (shown_kind kind.now) }
    ensures reports { Tells R.Reporter.tally reporter.old reporter.new (told (H.Host.means host.now) (shown_kind kind.now)) }
{
    match kind {
        MarkerTreeKind::True => ControlFlow::Break(true),
        MarkerTreeKind::False => ControlFlow::Break(false),
        MarkerTreeKind::Version(tree) => ControlFlow::Continue(choose_version(tree, host)),
        MarkerTreeKind::String(tree) => ControlFlow::Continue(choose_string(tree, host, reporter)),
        MarkerTreeKind::In(tree) => {
            let high = contains(tree.value.as_bytes(), host.get_string(tree.key));
            ControlFlow::Continue(if high { tree.high } else { tree.low })
        }
        MarkerTreeKind::Contains(tree) => {
            let high = contains(host.get_string(tree.key), tree.value.as_bytes());
            ControlFlow::Continue(if high { tree.high } else { tree.low })
        }
        MarkerTreeKind::Extra(tree) => {
            let high = is_active(&tree.name, host);
            ControlFlow::Continue(if high { tree.high } else { tree.low })
        }
    }
}

// Whether a root holds on a host, or refusal 14. The reports go to the reporter.
#[tactic(auto, using(crate::proofs::Saying::walk_steps))]
pub fn evaluate<H: Host, R: Reporter>(
    diagram: &Diagram,
    root: NodeId,
    host: &H,
    reporter: &mut R,
) -> Result<bool, Fault>
    ensures answer { result ≡ (walk (H.Host.means host.now) (table_of diagram.now) root.0).answer }
    ensures reports { Tells R.Reporter.tally reporter.old reporter.new (walk (H.Host.means host.now) (table_of diagram.now) root.0).reports }
    ensures law { Evaluates (table_of diagram.now) }
{
    // Each turn goes to the child that the one before led to, so that there is nothing to iterate over.
    let mut at = root;
    loop {
        let kind = diagram.kind(at)?;
        match lead(&kind, host, reporter) {
            ControlFlow::Break(answer) => return Ok(answer),
            ControlFlow::Continue(child) => at = child,
        }
    }
}
