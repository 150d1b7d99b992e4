// How the console tells its answers.
use crate::show::Shown;
use crate::stop::Stop;
use diagrams::diagram::Diagram;
use diagrams::ids::NodeId;
use evaluation::evaluation::evaluate;
use hosts::hosts::Host;
use hosts::keeping::KeepingReporter;
use hosts::warnings::{MarkerWarningKind, Report};
use std::alloc::Global;
use std::fmt::Display;
use std::io;
use std::io::{BufWriter, Stdout, Write};
use values::faults::Fault;
use values::keys::MarkerValueString;
use values::texts::Text;

// What lies in a place before a report is kept there.
const NO_REPORT: Report = Report {
    kind: MarkerWarningKind::DeprecatedMarkerName,
    key: MarkerValueString::ImplementationName,
    literal: Text {
        length: 0,
        bytes: [0; 64],
    },
};

#[derive(Drop)]
pub(crate) struct Teller {
    heap: Global,
    out: BufWriter<Stdout>,
}

impl Teller {
    pub(crate) fn new(heap: Global, out: BufWriter<Stdout>) -> Teller {
        Teller { heap, out }
    }

    // Tells a line.
    pub(crate) fn tell<L: Display + Drop>(&mut self, line: L) -> io::Result<()> {
        writeln!(self.out, "{line}")
    }

    // Prints what is still held back.
    pub(crate) fn finish(&mut self) -> io::Result<()> {
        self.out.flush()
    }

    // Evaluates a root with a fresh reporter, and tells the answer, the counts and what was kept.
    pub(crate) fn tell_evaluation<H: Host>(
        &mut self,
        diagram: &Diagram,
        root: NodeId,
        host: &H,
        places: usize,
    ) -> Result<(), Stop> {
        let mut kept = vec![in self.heap; NO_REPORT; places]?;
        let mut reporter = KeepingReporter::new(&mut kept);
        match evaluate(diagram, root, host, &mut reporter) {
            Ok(answer) => self.tell(Shown(answer))?,
            Err(fault) => self.tell(Shown(fault))?,
        }
        self.tell_counts(reporter.counts())?;
        Ok(self.tell_kept(reporter.kept())?)
    }

    fn tell_counts(&mut self, counts: [u32; 6]) -> io::Result<()> {
        write!(self.out, "counts")?;
        for count in counts {
            write!(self.out, " {count}")?;
        }
        writeln!(self.out)
    }

    fn tell_kept(&mut self, kept: &[Report]) -> io::Result<()> {
        for report in kept {
            self.tell(format_args!("kept {}", Shown(*report)))?;
        }
        Ok(())
    }
}
