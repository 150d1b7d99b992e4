// The commands about the table, as a line writes them.
ghost use Rattle.std.specs.Prelude.{◌≡◌};
ghost use Rattle.console.specs.Making.{made_edge};
ghost use Rattle.console.specs.Nodes.{made_node};

use crate::words::{ReleaseWord, TextWord, Unread, Words, Written};
use diagrams::ids::NodeId;
use diagrams::rows::Node;
use ranges::edges::Edge;
use values::faults::Fault;

// A command with its words read, and no value or row made of them yet.
#[derive(Drop)]
pub(crate) enum TableCommand {
    Release(ReleaseWord),
    Text(TextWord),
    Row(RowWords),
    Clear,
    Admit,
    Negate(NodeId),
    Kind(NodeId),
}

impl TableCommand {
    // The command of a name, if it is one of these. Name and words go together only in the readers of commands.
    pub(crate) fn read(name: &[u8], words: &mut Words) -> Result<Option<TableCommand>, Unread> {
        Ok(Some(match name {
            b"release" => TableCommand::Release(words.value()?),
            b"text" => TableCommand::Text(words.value()?),
            b"node" => TableCommand::Row(RowWords::Node(NodeWords::read(words)?)),
            b"release-edge" => TableCommand::Row(RowWords::ReleaseEdge(read_edge(words)?)),
            b"text-edge" => TableCommand::Row(RowWords::TextEdge(read_edge(words)?)),
            b"clear" => TableCommand::Clear,
            b"admit" => TableCommand::Admit,
            b"negate" => TableCommand::Negate(NodeId(words.id()?)),
            b"kind" => TableCommand::Kind(NodeId(words.id()?)),
            _ => return Ok(None),
        }))
    }
}

// A row as a line writes it.
#[derive(Drop)]
pub(crate) enum RowWords {
    Node(NodeWords),
    ReleaseEdge(Edge<ReleaseWord>),
    TextEdge(Edge<TextWord>),
}

// The fields of a node, in the order of its row. It is no `Node`, which is the plain row that callers fill in.
#[derive(Drop)]
pub(crate) struct NodeWords {
    kind: u8,
    key: u8,
    literal: TextWord,
    first: u32,
    count: u32,
    high: u32,
    low: u32,
}

impl NodeWords {
    fn read(words: &mut Words) -> Result<NodeWords, Unread> {
        Ok(NodeWords {
            kind: words.byte()?,
            key: words.byte()?,
            literal: words.value()?,
            first: words.id()?,
            count: words.id()?,
            high: words.id()?,
            low: words.id()?,
        })
    }

    // As `Written::make`.
    pub(crate) fn make(&self) -> Result<Node, Fault>
        ensures { result ≡ made_node self.now }
    {
        Ok(Node {
            kind: self.kind,
            key: self.key,
            literal: self.literal.make()?,
            first: self.first,
            count: self.count,
            high: self.high,
            low: self.low,
        })
    }
}

fn read_edge<V: Written>(words: &mut Words) -> Result<Edge<V>, Unread> {
    Ok(Edge {
        lower: words.value()?,
        upper: words.value()?,
        child: words.id()?,
    })
}

// The edge, with its lower value made first, as `Written::make` has it.
pub(crate) fn make_edge<V: Written>(edge: &Edge<V>) -> Result<Edge<V::Value>, Fault>
    ensures { result ≡ made_edge V.Written.made edge.now }
{
    Ok(Edge {
        lower: edge.lower.make()?,
        upper: edge.upper.make()?,
        child: edge.child,
    })
}
