ghost use Rattle.std.specs.Prelude.{◌≤◌, length};

use crate::warnings::{Count, Report, Table};

// Counts the reports of each kind, and keeps them in a caller's list while a place is free. The number of used places
// stands beside the list, which is lent, since the unit has no heap.
#[derive(Drop)]
pub struct KeepingReporter<'a> {
    pub(crate) counts: Table<Count>,
    pub(crate) places: &'a mut [Report],
    pub(crate) used: usize,
    ghost within: { used ≤ length places.now },
}
