ghost use Rattle.std.specs.Prelude.{◌≡◌, is_ok, if◌then◌else◌, slice_set};
ghost use Rattle.diagrams.specs.Tables.{table, no_table};
ghost use Rattle.values.specs.Faults.{answer};
ghost use Rattle.diagrams.specs.Admission.{first_refusal};
ghost use Rattle.diagrams.specs.Views.{known as is_known};

use diagrams::diagram::Diagram;
use diagrams::ids::NodeId;
use diagrams::rows::{Node, ReleaseEdge, TextEdge};
use values::faults::Fault;

// What came of rewriting a row.
#[derive(Clone, Copy)]
pub struct Rewriting {
    // the answer of the first admission
    pub before: Result<(), Fault>,
    // whether the first diagram knew the id
    pub known: bool,
    // the answer of the admission after the write
    pub after: Result<(), Fault>,
}

// Admits the lists and asks the diagram about an id. Once the diagram has ended its rows can be written: the edge goes
// to the place, if the list has it, and the lists are admitted anew. They are lent one by one, since each is written
// apart.
pub fn rewrite(
    nodes: &mut [Node],
    releases: &mut [ReleaseEdge],
    texts: &mut [TextEdge],
    id: NodeId,
    place: usize,
    edge: ReleaseEdge,
) -> Rewriting
    ensures before { result.before ≡ answer (first_refusal (table nodes.old releases.old texts.old)) }
    ensures known { result.known ≡ is_known (if is_ok result.before then table nodes.old releases.old texts.old else no_table) id.0 }
    ensures after { result.after ≡ answer (first_refusal (table nodes.new releases.new texts.new)) }
    ensures written { releases.new ≡ slice_set releases.old place edge }
    ensures kept { (nodes.new ≡ nodes.old) × (texts.new ≡ texts.old) }
{
    let admitted = Diagram::admit(nodes, releases, texts);
    let before = admitted.map(|_| ());
    let diagram = admitted.unwrap_or(Diagram::empty());
    let known = diagram.kind(id).is_ok();
    put(releases, place, edge);
    let after = Diagram::admit(nodes, releases, texts).map(|_| ());
    Rewriting {
        before,
        known,
        after,
    }
}

// Writes the edge at the place, if the list has it.
fn put(releases: &mut [ReleaseEdge], place: usize, edge: ReleaseEdge)
    ensures { releases.new ≡ slice_set releases.old place edge }
{
    if place < releases.len() {
        releases[place] = edge;
    }
}
