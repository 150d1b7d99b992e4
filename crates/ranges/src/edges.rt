ghost use Rattle.std.specs.Prelude.{◌≡◌, length};
ghost use Rattle.std.specs.List.{position_from};
ghost use Rattle.ranges.specs.Bounds.{above, below, lies, empty, empty_edge, HoldsNothing};

use crate::points::Point;
use std::ops::Bound;
use values::orders::Order;

// A range of values, and the id that they lead to.
#[derive(Clone, Copy)]
pub struct Edge<T> {
    pub lower: Bound<T>,
    pub upper: Bound<T>,
    pub child: u32,
}

impl<T: Order> Edge<T> {
    // Whether a value lies in the range.
    pub fn contains<V: Point<T>>(&self, value: &V) -> bool
        ensures { result ≡ lies T.Order.row self.now (V.Point.at value.now) }
    {
        is_above(&self.lower, value) && is_below(&self.upper, value)
    }

    // Whether the bounds alone say that no value lies in the range.
    pub fn is_empty(&self) -> bool
        ensures answer { result ≡ empty_edge T.Order.row self.now }
        ensures law { HoldsNothing T.Order.row self.now }
    {
        are_empty(&self.lower, &self.upper)
    }
}

// Whether both bounds have values, and the lower is greater, or they are equal and not both included.
fn are_empty<T: Order>(lower: &Bound<T>, upper: &Bound<T>) -> bool
    ensures { result ≡ empty T.Order.row lower.now upper.now }
{
    match (lower, upper) {
        (Bound::Unbounded, _) | (_, Bound::Unbounded) => false,
        (Bound::Included(x), Bound::Included(y)) => x > y,
        (Bound::Included(x) | Bound::Excluded(x), Bound::Included(y) | Bound::Excluded(y)) => x
            >= y,
    }
}

// Whether a value keeps to a lower bound. Each test differs from that of an upper bound, so that there are two
// functions.
fn is_above<T: Order, V: Point<T>>(lower: &Bound<T>, value: &V) -> bool
    ensures { result ≡ above T.Order.row lower.now (V.Point.at value.now) }
{
    match lower {
        Bound::Unbounded => true,
        Bound::Included(bound) => value.against(bound).is_ge(),
        Bound::Excluded(bound) => value.against(bound).is_gt(),
    }
}

// Whether a value keeps to an upper bound.
fn is_below<T: Order, V: Point<T>>(upper: &Bound<T>, value: &V) -> bool
    ensures { result ≡ below T.Order.row upper.now (V.Point.at value.now) }
{
    match upper {
        Bound::Unbounded => true,
        Bound::Included(bound) => value.against(bound).is_le(),
        Bound::Excluded(bound) => value.against(bound).is_lt(),
    }
}

// The place of the first edge whose range is empty.
pub fn first_empty<T: Order>(edges: &[Edge<T>]) -> Option<usize>
    ensures { result ≡ position_from (empty_edge T.Order.row) 0 edges.now }
{
    edges.iter().position(|edge| edge.is_empty())
}
