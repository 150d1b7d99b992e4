// The commands about the host, as a line writes them.
use crate::words::{ReleaseWord, TextWord, Unread, Words, Written};
use std::alloc::Global;
use values::faults::Fault;
use values::keys::MarkerValueVersion;
use values::releases::Release;

#[derive(Drop)]
pub(crate) enum HostCommand {
    Host(HostWords),
    Names(Vec<TextWord>),
    Record,
    Overlay(Fixed<ReleaseWord>),
    Bare,
}

impl HostCommand {
    // The command of a name, if it is one of these.
    pub(crate) fn read(name: &[u8], words: &mut Words) -> Result<Option<HostCommand>, Unread> {
        Ok(Some(match name {
            b"host" => HostCommand::Host(HostWords::read(words)?),
            b"names" => HostCommand::Names(words.values()?),
            b"record" => HostCommand::Record,
            b"overlay" => HostCommand::Overlay(Fixed::read(words)?),
            b"bare" => HostCommand::Bare,
            _ => return Ok(None),
        }))
    }
}

// The eleven fields of a host, in the order of the record. They are no `Fields`, since the releases are words too.
#[derive(Drop)]
pub(crate) struct HostWords {
    pub(crate) implementation_name: TextWord,
    pub(crate) implementation_version: ReleaseWord,
    pub(crate) os_name: TextWord,
    pub(crate) platform_machine: TextWord,
    pub(crate) platform_python_implementation: TextWord,
    pub(crate) platform_release: TextWord,
    pub(crate) platform_system: TextWord,
    pub(crate) platform_version: TextWord,
    pub(crate) python_full_version: ReleaseWord,
    pub(crate) python_version: ReleaseWord,
    pub(crate) sys_platform: TextWord,
}

impl HostWords {
    // The words of a host of which nothing is known.
    pub(crate) fn new(heap: Global) -> HostWords {
        HostWords {
            implementation_name: TextWord::new(heap),
            implementation_version: ReleaseWord::new(heap),
            os_name: TextWord::new(heap),
            platform_machine: TextWord::new(heap),
            platform_python_implementation: TextWord::new(heap),
            platform_release: TextWord::new(heap),
            platform_system: TextWord::new(heap),
            platform_version: TextWord::new(heap),
            python_full_version: ReleaseWord::new(heap),
            python_version: ReleaseWord::new(heap),
            sys_platform: TextWord::new(heap),
        }
    }

    fn read(words: &mut Words) -> Result<HostWords, Unread> {
        Ok(HostWords {
            implementation_name: words.value()?,
            implementation_version: words.value()?,
            os_name: words.value()?,
            platform_machine: words.value()?,
            platform_python_implementation: words.value()?,
            platform_release: words.value()?,
            platform_system: words.value()?,
            platform_version: words.value()?,
            python_full_version: words.value()?,
            python_version: words.value()?,
            sys_platform: words.value()?,
        })
    }

    // The three releases, made in the order of the fields, each as `Written::make` has it.
    pub(crate) fn make(&self) -> Result<HostReleases, Fault> {
        Ok(HostReleases {
            implementation_version: self.implementation_version.make()?,
            python_full_version: self.python_full_version.make()?,
            python_version: self.python_version.make()?,
        })
    }
}

#[derive(Clone, Copy)]
pub(crate) struct HostReleases {
    pub(crate) implementation_version: Release,
    pub(crate) python_full_version: Release,
    pub(crate) python_version: Release,
}

// The release of a key that an overlay fixes, as a word writes it or made.
#[derive(Clone, Copy)]
pub(crate) struct Fixed<R> {
    pub(crate) key: MarkerValueVersion,
    pub(crate) release: R,
}

impl Fixed<ReleaseWord> {
    fn read(words: &mut Words) -> Result<Fixed<ReleaseWord>, Unread> {
        Ok(Fixed {
            key: words.version_key()?,
            release: words.value()?,
        })
    }

    // As `Written::make`.
    pub(crate) fn make(&self) -> Result<Fixed<Release>, Fault> {
        Ok(Fixed {
            key: self.key,
            release: self.release.make()?,
        })
    }
}
