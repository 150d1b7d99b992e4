// The rows that a script enters.
ghost use Rattle.std.specs.Prelude.{◌≡◌, []};
ghost use Rattle.console.specs.Rows.{Appends};
ghost use Rattle.console.specs.Entering.{Enters};

use crate::stop::Stop;
use crate::table_command::{RowWords, make_edge};
use diagrams::diagram::Diagram;
use diagrams::rows::{Node, ReleaseEdge, TextEdge};
use std::alloc::Global;
use values::faults::Fault;

#[derive(Drop)]
pub(crate) struct Table {
    nodes: Vec<Node>,
    releases: Vec<ReleaseEdge>,
    texts: Vec<TextEdge>,
}

impl Table {
    pub(crate) fn new(heap: Global) -> Table {
        Table {
            nodes: Vec::new(heap),
            releases: Vec::new(heap),
            texts: Vec::new(heap),
        }
    }

    pub(crate) fn clear(&mut self)
        ensures nodes { self.new.nodes.items ≡ [] }
        ensures releases { self.new.releases.items ≡ [] }
        ensures texts { self.new.texts.items ≡ [] }
    {
        self.nodes.clear();
        self.releases.clear();
        self.texts.clear();
    }

    // Enters a row, unless making it was refused.
    pub(crate) fn enter(&mut self, row: &RowWords) -> Result<(), Stop>
        ensures { Enters row.now self.old self.new result }
    {
        match row {
            RowWords::Node(words) => append(&mut self.nodes, words.make()),
            RowWords::ReleaseEdge(words) => append(&mut self.releases, make_edge(words)),
            RowWords::TextEdge(words) => append(&mut self.texts, make_edge(words)),
        }
    }

    // The diagram of the rows, if they are admitted.
    pub(crate) fn admit(&self) -> Result<Diagram<'_>, Fault> {
        Diagram::admit(&self.nodes, &self.releases, &self.texts)
    }
}

// Appends a row, unless making it was refused.
fn append<T: Drop>(rows: &mut Vec<T>, made: Result<T, Fault>) -> Result<(), Stop>
    ensures { Appends made rows.old.items rows.new.items result }
{
    rows.push(made?)?;
    Ok(())
}
