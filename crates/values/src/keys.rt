ghost use Rattle.std.specs.Prelude.{◌≡◌, ℕ, List, Some, slice_get};
ghost use Rattle.values.specs.Numbering.{versions_numbered, strings_numbered};
ghost use Rattle.values.specs.Keys.{version_keys, version_number, version_name, string_keys, string_number, string_name, Numbered};

// What a node asks about: a key with its number in a table and its name in a marker.
pub trait Key: Copy + 'static {
    ghost keys: { List Self };

    // The number that stands for a key.
    ghost number_of: { Self → ℕ };

    ghost name_of: { Self → List ℕ };

    // The keys in the order of their numbers.
    fn all() -> &'static [Self]
        ensures { result.now ≡ keys };

    // The key's number in a table.
    fn number(self) -> u8
        ensures { result ≡ number_of self };

    // The key's name in a marker; an old spelling stays the old one.
    fn name(self) -> &'static str
        ensures { result.now ≡ name_of self };

    ghost numbered: { Numbered number_of (λ n. slice_get keys n) };

    // The key that has a number, if one has. `TryFrom` would be an impl for each kind of key; this serves all.
    final fn from_number(number: u8) -> Option<Self>
        ensures answer { result ≡ slice_get keys number }
        ensures law { Numbered number_of (λ n. slice_get keys n) }
    {
        Self::all().get(number as usize).copied()
    }
}

// A key whose value is a release.
#[derive(Clone, Copy, PartialEq, Eq)]
pub enum MarkerValueVersion {
    ImplementationVersion,
    PythonFullVersion,
    PythonVersion,
}

const VERSION_KEYS: [MarkerValueVersion; 3] = [
    MarkerValueVersion::ImplementationVersion,
    MarkerValueVersion::PythonFullVersion,
    MarkerValueVersion::PythonVersion,
];

impl Key for MarkerValueVersion {
    ghost keys = { version_keys };

    ghost number_of = { version_number };

    ghost name_of = { version_name };

    ghost numbered = { versions_numbered };

    fn all() -> &'static [MarkerValueVersion] {
        &VERSION_KEYS
    }

    fn number(self) -> u8 {
        self as u8
    }

    fn name(self) -> &'static str {
        match self {
            MarkerValueVersion::ImplementationVersion => "implementation_version",
            MarkerValueVersion::PythonFullVersion => "python_full_version",
            MarkerValueVersion::PythonVersion => "python_version",
        }
    }
}

// A key whose value is a text. The deprecated ones are old spellings of others.
#[derive(Clone, Copy, PartialEq, Eq)]
pub enum MarkerValueString {
    ImplementationName,
    OsName,
    OsNameDeprecated,
    PlatformMachine,
    PlatformMachineDeprecated,
    PlatformPythonImplementation,
    PlatformPythonImplementationDeprecated,
    PythonImplementationDeprecated,
    PlatformRelease,
    PlatformSystem,
    PlatformVersion,
    PlatformVersionDeprecated,
    SysPlatform,
    SysPlatformDeprecated,
}

const STRING_KEYS: [MarkerValueString; 14] = [
    MarkerValueString::ImplementationName,
    MarkerValueString::OsName,
    MarkerValueString::OsNameDeprecated,
    MarkerValueString::PlatformMachine,
    MarkerValueString::PlatformMachineDeprecated,
    MarkerValueString::PlatformPythonImplementation,
    MarkerValueString::PlatformPythonImplementationDeprecated,
    MarkerValueString::PythonImplementationDeprecated,
    MarkerValueString::PlatformRelease,
    MarkerValueString::PlatformSystem,
    MarkerValueString::PlatformVersion,
    MarkerValueString::PlatformVersionDeprecated,
    MarkerValueString::SysPlatform,
    MarkerValueString::SysPlatformDeprecated,
];

impl Key for MarkerValueString {
    ghost keys = { string_keys };

    ghost number_of = { string_number };

    ghost name_of = { string_name };

    ghost numbered = { strings_numbered };

    fn all() -> &'static [MarkerValueString] {
        &STRING_KEYS
    }

    fn number(self) -> u8 {
        self as u8
    }

    fn name(self) -> &'static str {
        match self {
            MarkerValueString::ImplementationName => "implementation_name",
            MarkerValueString::OsName => "os_name",
            MarkerValueString::OsNameDeprecated => "os.name",
            MarkerValueString::PlatformMachine => "platform_machine",
            MarkerValueString::PlatformMachineDeprecated => "platform.machine",
            MarkerValueString::PlatformPythonImplementation => "platform_python_implementation",
            MarkerValueString::PlatformPythonImplementationDeprecated =>
                "platform.python_implementation",
            MarkerValueString::PythonImplementationDeprecated => "python_implementation",
            MarkerValueString::PlatformRelease => "platform_release",
            MarkerValueString::PlatformSystem => "platform_system",
            MarkerValueString::PlatformVersion => "platform_version",
            MarkerValueString::PlatformVersionDeprecated => "platform.version",
            MarkerValueString::SysPlatform => "sys_platform",
            MarkerValueString::SysPlatformDeprecated => "sys.platform",
        }
    }
}
