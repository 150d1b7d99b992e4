// The questions whether an id holds, as a line writes them.
use crate::words::{ReleaseWord, TextWord, Unread, Words, Written};
use diagrams::ids::NodeId;

#[derive(Drop)]
pub(crate) enum Question {
    Evaluate(NodeId, usize),
    Extras(NodeId, Vec<TextWord>),
    ExtrasPython(PythonQuestion),
}

#[derive(Drop)]
pub(crate) struct PythonQuestion {
    pub(crate) root: NodeId,
    pub(crate) releases: Vec<ReleaseWord>,
    pub(crate) names: Vec<TextWord>,
}

impl Question {
    // The question of a name, if it is one of these.
    pub(crate) fn read(name: &[u8], words: &mut Words) -> Result<Option<Question>, Unread> {
        Ok(Some(match name {
            b"evaluate" => Question::Evaluate(NodeId(words.id()?), words.places()?),
            b"extras" => Question::Extras(NodeId(words.id()?), words.values()?),
            b"extras-python" => Question::ExtrasPython(PythonQuestion::read(words)?),
            _ => return Ok(None),
        }))
    }
}

impl PythonQuestion {
    fn read(words: &mut Words) -> Result<PythonQuestion, Unread> {
        Ok(PythonQuestion {
            root: NodeId(words.id()?),
            releases: words.releases()?,
            names: words.values()?,
        })
    }
}
