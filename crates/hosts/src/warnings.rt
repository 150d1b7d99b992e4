use values::keys::MarkerValueString;
use values::texts::Text;

// What a warning is about.
#[derive(Clone, Copy, PartialEq, Eq)]
pub enum MarkerWarningKind {
    DeprecatedMarkerName,
    ExtraInvalidComparison,
    LexicographicComparison,
    MarkerMarkerComparison,
    Pep440Error,
    StringStringComparison,
}

// A warning, with the key and the literal that it is about.
#[derive(Clone, Copy, PartialEq, Eq)]
pub struct Report {
    pub kind: MarkerWarningKind,
    pub key: MarkerValueString,
    pub literal: Text,
}

// How often a kind was reported.
#[derive(Clone, Copy)]
pub struct Count {
    pub raised: u32,
}

// One record for each kind of warning.
#[derive(Clone, Copy)]
pub struct Table<T> {
    pub deprecated_marker_name: T,
    pub extra_invalid_comparison: T,
    pub lexicographic_comparison: T,
    pub marker_marker_comparison: T,
    pub pep440_error: T,
    pub string_string_comparison: T,
}
