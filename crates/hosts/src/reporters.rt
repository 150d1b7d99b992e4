ghost use Rattle.std.specs.Prelude.{◌≡◌, ℕ, []};
ghost use Rattle.hosts.specs.Tallies.{Tally, tally_of, noted, numbers, no_counts, listed};
ghost use Rattle.hosts.specs.Reporters.{counting_tally, keeping_tally};

use crate::keeping::KeepingReporter;
use crate::warnings::{Count, Report, Table};

// Who is told of warnings.
pub trait Reporter {
    ghost tally: { Self → Tally };

    fn report(&mut self, report: Report)
        ensures { tally self.new ≡ noted (tally self.old) report };
}

impl Table<Count> {
    // No report of any kind.
    fn none() -> Table<Count>
        ensures { numbers result ≡ no_counts }
    {
        let none = Count { raised: 0 };
        Table {
            deprecated_marker_name: none,
            extra_invalid_comparison: none,
            lexicographic_comparison: none,
            marker_marker_comparison: none,
            pep440_error: none,
            string_string_comparison: none,
        }
    }

    // The counts in the order of the kinds: an array, since programs print them in this order.
    pub(crate) fn raised(&self) -> [u32; 6]
        ensures { result ≡ listed (numbers self.now) }
    {
        [
            self.deprecated_marker_name.raised,
            self.extra_invalid_comparison.raised,
            self.lexicographic_comparison.raised,
            self.marker_marker_comparison.raised,
            self.pep440_error.raised,
            self.string_string_comparison.raised,
        ]
    }
}

// Counts the reports of each kind, and keeps none.
#[derive(Clone, Copy)]
pub struct CountingReporter {
    counts: Table<Count>,
}

impl CountingReporter {
    pub fn new() -> CountingReporter
        ensures { counting_tally result ≡ tally_of no_counts [] [] }
    {
        CountingReporter {
            counts: Table::none(),
        }
    }

    // The counts in the order of the kinds.
    pub fn counts(&self) -> [u32; 6]
        ensures { result ≡ listed (counting_tally self.now).counts }
    {
        self.counts.raised()
    }
}

impl Reporter for CountingReporter {
    ghost tally = { counting_tally };

    fn report(&mut self, report: Report) {
        self.counts.raise(report.kind);
    }
}

impl<'a> KeepingReporter<'a> {
    // A reporter that keeps reports in the places, all of which are free.
    pub fn new(places: &'a mut [Report]) -> KeepingReporter<'a>
        ensures { keeping_tally result ≡ tally_of no_counts [] places.old }
    {
        KeepingReporter {
            counts: Table::none(),
            places,
            used: 0,
        }
    }

    // The counts in the order of the kinds, as an array and in one line, as in the other reporter.
    pub fn counts(&self) -> [u32; 6]
        ensures { result ≡ listed (keeping_tally self.now).counts }
    {
        self.counts.raised()
    }

    // The reports that are kept, in order.
    pub fn kept(&self) -> &[Report]
        ensures { result.now ≡ (keeping_tally self.now).kept }
    {
        &self.places[..self.used]
    }
}

impl Reporter for KeepingReporter<'_> {
    ghost tally = { keeping_tally };

    fn report(&mut self, report: Report) {
        self.counts.raise(report.kind);
        if self.used < self.places.len() {
            self.places[self.used] = report;
            self.used += 1;
        }
    }
}
