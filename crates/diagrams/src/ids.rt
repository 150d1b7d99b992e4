ghost use Rattle.std.specs.Prelude.{◌≡◌};
ghost use Rattle.diagrams.specs.Ids.{opposite, turned, Negations};

// What a child or a root is named by. 0 is TRUE, 1 is FALSE, 2(i + 1) is the node at place i, and an odd id is the
// negation of the even one below it. Rows hold these numbers, so the case is in the number.
#[derive(Clone, Copy, PartialEq, Eq)]
pub struct NodeId(pub u32);

impl NodeId {
    pub const TRUE: NodeId = NodeId(0);

    pub const FALSE: NodeId = NodeId(1);

    // The id of the negation.
    #[tactic(auto, using(crate::proofs::Turning::turn_is, crate::proofs::Turning::negations))]
    pub fn negate(self) -> NodeId
        ensures answer { result.0 ≡ opposite self.0 }
        ensures law { Negations }
    {
        NodeId(self.0 ^ 1)
    }

    // The id as it is seen under the id of a parent: negated where that is a negation.
    #[tactic(auto, using(crate::proofs::Turning::turn_is))]
    pub fn under(self, parent: NodeId) -> NodeId
        ensures { result.0 ≡ turned parent.0 self.0 }
    {
        NodeId(self.0 ^ (parent.0 & 1))
    }
}
