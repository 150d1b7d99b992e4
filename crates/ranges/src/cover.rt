ghost use Rattle.std.specs.Prelude.{◌≡◌};
ghost use Rattle.std.specs.Option.{option_copied};
ghost use Rattle.ranges.specs.Cover.{continues as does_continue, closed, uncovered, Parted, Placed};

use crate::edges::Edge;
use std::ops::Bound;
use values::orders::Order;

// Whether a lower bound is right behind the upper bound before it, if there is one.
fn continues<T: Order>(before: Option<&Bound<T>>, lower: &Bound<T>) -> bool
    ensures { result ≡ does_continue T.Order.row (option_copied before.entry) lower.now }
{
    match (before, lower) {
        (None, Bound::Unbounded) => true,
        (Some(Bound::Included(x)), Bound::Excluded(y))
        | (Some(Bound::Excluded(x)), Bound::Included(y)) => x == y,
        _ => false,
    }
}

// Whether the line ends behind the last upper bound.
fn is_closed<T>(last: Option<&Bound<T>>) -> bool
    ensures { result ≡ closed (option_copied last.entry) }
{
    matches!(last, Some(Bound::Unbounded))
}

// Where edges do not cover the line: the first whose lower bound is wrong, else the last.
pub fn uncovered_edge<T: Order>(edges: &[Edge<T>]) -> Option<usize>
    ensures answer { result ≡ uncovered T.Order.row edges.now }
    ensures law { Placed T.Order.row edges.now result }
    ensures one { Parted T.Order.row edges.now }
{
    // Each turn hands the upper bound on to the next one, which no search of the library does.
    let mut before = None;
    for (place, edge) in edges.iter().enumerate() {
        if !continues(before, &edge.lower) {
            return Some(place);
        }
        before = Some(&edge.upper);
    }
    if is_closed(before) {
        None
    } else {
        Some(edges.len().saturating_sub(1))
    }
}
