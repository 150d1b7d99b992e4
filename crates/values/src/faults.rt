ghost use Rattle.std.specs.Prelude.{◌≡◌};
ghost use Rattle.values.specs.Faults.{refusal, layer_number};

// What is wrong, and where. A node is given by its place in the list of nodes, an edge or child by its place in its
// node, counted from 0.
#[derive(Clone, Copy, PartialEq, Eq)]
pub enum Fault {
    ReleaseCount,
    NumberTooLarge { index: usize },
    TextTooLong,
    TooManyNodes,
    UnknownKind { node: usize },
    KeyOutOfRange { node: usize },
    ExtraNotNormal { node: usize },
    EdgeCount { node: usize },
    EdgesPastEnd { node: usize },
    ChildTooLarge { node: usize, child: usize },
    EmptyRange { node: usize, edge: usize },
    Uncovered { node: usize, edge: usize },
    OneChild { node: usize },
    UnknownId,
    // The field is given by its place in the record, which documents number.
    HostTextTooLong { field: usize },
    NameNotNormal { index: usize },
    PathFull,
    ClausesFull,
}

// The layer of a rule.
#[derive(Clone, Copy, PartialEq, Eq)]
pub enum Layer {
    Value = 1,
    Edge,
    Node,
    Call,
}

impl Layer {
    // The number by which documents and programs name a layer.
    pub fn number(self) -> u8
        ensures { result ≡ layer_number self }
    {
        self as u8
    }
}

impl Fault {
    // The refusal's number, by which documents and programs name it; code matches on the case.
    pub fn number(self) -> u8
        ensures { result ≡ (refusal self).number }
    {
        match self {
            Fault::ReleaseCount => 1,
            Fault::NumberTooLarge { .. } => 2,
            Fault::TextTooLong => 3,
            Fault::TooManyNodes => 4,
            Fault::UnknownKind { .. } => 5,
            Fault::KeyOutOfRange { .. } => 6,
            Fault::ExtraNotNormal { .. } => 7,
            Fault::EdgeCount { .. } => 8,
            Fault::EdgesPastEnd { .. } => 9,
            Fault::ChildTooLarge { .. } => 10,
            Fault::EmptyRange { .. } => 11,
            Fault::Uncovered { .. } => 12,
            Fault::OneChild { .. } => 13,
            Fault::UnknownId => 14,
            Fault::HostTextTooLong { .. } => 15,
            Fault::NameNotNormal { .. } => 16,
            Fault::PathFull => 17,
            Fault::ClausesFull => 18,
        }
    }

    // The layer that refuses.
    pub fn layer(self) -> Layer
        ensures { layer_number result ≡ (refusal self).layer }
    {
        match self {
            Fault::ReleaseCount | Fault::NumberTooLarge { .. } | Fault::TextTooLong => Layer::Value,
            Fault::ChildTooLarge { .. } | Fault::EmptyRange { .. } | Fault::Uncovered { .. } =>
                Layer::Edge,
            Fault::TooManyNodes
            | Fault::UnknownKind { .. }
            | Fault::KeyOutOfRange { .. }
            | Fault::ExtraNotNormal { .. }
            | Fault::EdgeCount { .. }
            | Fault::EdgesPastEnd { .. }
            | Fault::OneChild { .. } => Layer::Node,
            _ => Layer::Call,
        }
    }

    // The first and the second place.
    pub fn places(self) -> (usize, usize)
        ensures { result ≡ ((refusal self).first, (refusal self).second) }
    {
        match self {
            Fault::ChildTooLarge { node, child } => (node, child),
            Fault::EmptyRange { node, edge } | Fault::Uncovered { node, edge } => (node, edge),
            Fault::UnknownKind { node }
            | Fault::KeyOutOfRange { node }
            | Fault::ExtraNotNormal { node }
            | Fault::EdgeCount { node }
            | Fault::EdgesPastEnd { node }
            | Fault::OneChild { node } => (node, 0),
            Fault::NumberTooLarge { index } | Fault::NameNotNormal { index } => (index, 0),
            Fault::HostTextTooLong { field } => (field, 0),
            _ => (0, 0),
        }
    }
}
