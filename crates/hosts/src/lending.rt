ghost use Rattle.std.specs.Prelude.{◌≡◌};
ghost use Rattle.std.specs.Borrow.{sem, follows};
ghost use Rattle.hosts.specs.contracts.warnings.Table.{the_row};
ghost use Rattle.hosts.specs.Tallies.{record_of, with_record, numbers, more};

use crate::warnings::{Count, MarkerWarningKind, Table};

impl<T> Table<T> {
    // Lends the record of a kind.
    pub(crate) fn record(&mut self, kind: MarkerWarningKind) -> &mut T
        ensures* lends { sem 𝓛 (follows (the_row T.row) T.row self.entry.ghost_name result.ghost_name (with_record self.old kind)) }
        ensures value { result.now ≡ record_of self.old kind }
    {
        match kind {
            MarkerWarningKind::DeprecatedMarkerName => &mut self.deprecated_marker_name,
            MarkerWarningKind::ExtraInvalidComparison => &mut self.extra_invalid_comparison,
            MarkerWarningKind::LexicographicComparison => &mut self.lexicographic_comparison,
            MarkerWarningKind::MarkerMarkerComparison => &mut self.marker_marker_comparison,
            MarkerWarningKind::Pep440Error => &mut self.pep440_error,
            MarkerWarningKind::StringStringComparison => &mut self.string_string_comparison,
        }
    }
}

impl Table<Count> {
    // Counts one more report of a kind, up to the largest count.
    pub(crate) fn raise(&mut self, kind: MarkerWarningKind)
        ensures { numbers self.new ≡ more (numbers self.old) kind }
    {
        let count = self.record(kind);
        count.raised = count.raised.saturating_add(1);
    }
}
