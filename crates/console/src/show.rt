// How the console prints values of the unit.
use diagrams::views::{
    EdgesMarkerTree, ExtraMarkerTree, LiteralMarkerTree, MarkerTreeKind, MarkerValueExtra,
};
use hosts::warnings::Report;
use std::fmt;
use std::fmt::Display;
use std::ops::Bound;
use values::faults::Fault;
use values::keys::Key;
use values::releases::Release;
use values::texts::Text;

// A value as the console prints it. The unit's types print nothing themselves, and `Display` cannot be implemented here
// for types of other crates.
#[derive(Clone, Copy, Drop)]
pub(crate) struct Shown<T>(pub(crate) T);

impl Display for Shown<bool> {
    fn fmt<W: fmt::Write>(&self, f: &mut fmt::Formatter<W>) -> fmt::Result {
        f.write_str(if self.0 { "yes" } else { "no" })
    }
}

impl Display for Shown<Fault> {
    fn fmt<W: fmt::Write>(&self, f: &mut fmt::Formatter<W>) -> fmt::Result {
        let (number, layer) = (self.0.number(), self.0.layer().number());
        let (first, second) = self.0.places();
        write!(f, "refused {number} {layer} {first} {second}")
    }
}

impl Display for Shown<Release> {
    fn fmt<W: fmt::Write>(&self, f: &mut fmt::Formatter<W>) -> fmt::Result {
        // A release gives its numbers by place alone.
        write!(f, "{}", self.0.number(0))?;
        for place in 1..self.0.written() {
            write!(f, ".{}", self.0.number(place))?;
        }
        Ok(())
    }
}

impl Display for Shown<Text> {
    fn fmt<W: fmt::Write>(&self, f: &mut fmt::Formatter<W>) -> fmt::Result {
        f.write_str("x")?;
        for byte in self.0.as_bytes() {
            write!(f, "{byte:02x}")?;
        }
        Ok(())
    }
}

impl<T: Copy> Display for Shown<Bound<T>>
where
    Shown<T>: Display,
{
    fn fmt<W: fmt::Write>(&self, f: &mut fmt::Formatter<W>) -> fmt::Result {
        match self.0 {
            Bound::Unbounded => f.write_str("*"),
            Bound::Included(value) => write!(f, "[{}", Shown(value)),
            Bound::Excluded(value) => write!(f, "({}", Shown(value)),
        }
    }
}

// The key, and a line for each edge with its child under the view's id.
impl<K: Key, T: Copy> Display for Shown<EdgesMarkerTree<'_, K, T>>
where
    Shown<T>: Display,
{
    fn fmt<W: fmt::Write>(&self, f: &mut fmt::Formatter<W>) -> fmt::Result {
        f.write_str(self.0.key.name())?;
        for edge in self.0.edges {
            let child = self.0.child(edge).0;
            write!(f, "\n{} {} {child}", Shown(edge.lower), Shown(edge.upper))?;
        }
        Ok(())
    }
}

impl Display for Shown<LiteralMarkerTree<'_>> {
    fn fmt<W: fmt::Write>(&self, f: &mut fmt::Formatter<W>) -> fmt::Result {
        let (key, high, low) = (self.0.key.name(), self.0.high.0, self.0.low.0);
        write!(f, "{key} {} {high} {low}", Shown(*self.0.value))
    }
}

impl Display for Shown<MarkerValueExtra<'_>> {
    fn fmt<W: fmt::Write>(&self, f: &mut fmt::Formatter<W>) -> fmt::Result {
        match self.0 {
            MarkerValueExtra::Extra(name) => write!(f, "extra {}", Shown(*name)),
            MarkerValueExtra::Arbitrary(text) => write!(f, "extra-text {}", Shown(*text)),
        }
    }
}

impl Display for Shown<ExtraMarkerTree<'_>> {
    fn fmt<W: fmt::Write>(&self, f: &mut fmt::Formatter<W>) -> fmt::Result {
        let (high, low) = (self.0.high.0, self.0.low.0);
        write!(f, "{} {high} {low}", Shown(self.0.name))
    }
}

impl Display for Shown<MarkerTreeKind<'_>> {
    fn fmt<W: fmt::Write>(&self, f: &mut fmt::Formatter<W>) -> fmt::Result {
        match self.0 {
            MarkerTreeKind::True => f.write_str("true"),
            MarkerTreeKind::False => f.write_str("false"),
            MarkerTreeKind::Version(view) => write!(f, "version {}", Shown(view)),
            MarkerTreeKind::String(view) => write!(f, "string {}", Shown(view)),
            MarkerTreeKind::In(view) => write!(f, "in {}", Shown(view)),
            MarkerTreeKind::Contains(view) => write!(f, "contains {}", Shown(view)),
            MarkerTreeKind::Extra(view) => Shown(view).fmt(f),
        }
    }
}

// The number of the kind, the key and the literal.
impl Display for Shown<Report> {
    fn fmt<W: fmt::Write>(&self, f: &mut fmt::Formatter<W>) -> fmt::Result {
        let (kind, key) = (self.0.kind as u8, self.0.key.name());
        write!(f, "{kind} {key} {}", Shown(self.0.literal))
    }
}
