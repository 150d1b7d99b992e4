// The station: the host that a script describes, and the overlays over it.
use crate::host_command::{Fixed, HostReleases, HostWords};
use crate::stop::Stop;
use crate::words::ReleaseWord;
use hosts::hosts::Host;
use hosts::overlays::Overlay;
use hosts::records::{Fields, Record};
use std::alloc::Global;
use values::faults::Fault;
use values::releases::Release;
use values::texts::Text;

impl Fixed<Release> {
    pub(crate) fn over<H: Host>(self, below: &H) -> Overlay<'_, H> {
        Overlay {
            below,
            key: self.key,
            release: self.release,
        }
    }
}

// The overlays over a host, the newest last. An overlay over another host is of another type, so no list of overlays
// can be walked.
#[derive(Clone, Copy)]
pub(crate) enum Overlays {
    None,
    One(Fixed<Release>),
    Two(Fixed<Release>, Fixed<Release>),
}

#[derive(Drop)]
pub(crate) struct Station {
    words: HostWords,
    releases: HostReleases,
    names: Vec<Text>,
    overlays: Overlays,
}

impl Station {
    // Empty texts, releases `0`, no names and no overlay.
    pub(crate) fn new(heap: Global) -> Station {
        let zero = Release {
            count: 1,
            numbers: [0; 8],
        };
        Station {
            words: HostWords::new(heap),
            releases: HostReleases {
                implementation_version: zero,
                python_full_version: zero,
                python_version: zero,
            },
            names: Vec::new(heap),
            overlays: Overlays::None,
        }
    }

    // Takes the fields of a host, unless a release is refused.
    pub(crate) fn set_host(&mut self, words: HostWords) -> Result<(), Fault> {
        self.releases = words.make()?;
        self.words = words;
        Ok(())
    }

    pub(crate) fn set_names(&mut self, names: Vec<Text>) {
        self.names = names;
    }

    // Puts one more overlay on top, where there are fewer than two.
    pub(crate) fn put_over(&mut self, words: &Fixed<ReleaseWord>) -> Result<(), Stop> {
        self.overlays = match self.overlays {
            Overlays::None => Overlays::One(words.make()?),
            Overlays::One(below) => Overlays::Two(below, words.make()?),
            Overlays::Two(_, _) => return Err(Stop::NotNow),
        };
        Ok(())
    }

    pub(crate) fn make_bare(&mut self) {
        self.overlays = Overlays::None;
    }

    pub(crate) fn overlays(&self) -> Overlays {
        self.overlays
    }

    fn fields(&self) -> Fields<&[u8]> {
        let words = &self.words;
        Fields {
            implementation_name: &words.implementation_name.bytes,
            implementation_version: self.releases.implementation_version,
            os_name: &words.os_name.bytes,
            platform_machine: &words.platform_machine.bytes,
            platform_python_implementation: &words.platform_python_implementation.bytes,
            platform_release: &words.platform_release.bytes,
            platform_system: &words.platform_system.bytes,
            platform_version: &words.platform_version.bytes,
            python_full_version: self.releases.python_full_version,
            python_version: self.releases.python_version,
            sys_platform: &words.sys_platform.bytes,
        }
    }

    // The record of the fields and the names.
    pub(crate) fn record(&self) -> Result<Record<'_>, Fault> {
        Record::new(&self.fields(), &self.names)
    }
}
