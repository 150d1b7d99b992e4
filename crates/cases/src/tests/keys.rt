use values::keys::{Key, MarkerValueString, MarkerValueVersion};

const VERSION_NAMES: [&str; 3] = [
    "implementation_version",
    "python_full_version",
    "python_version",
];

const STRING_NAMES: [&str; 14] = [
    "implementation_name",
    "os_name",
    "os.name",
    "platform_machine",
    "platform.machine",
    "platform_python_implementation",
    "platform.python_implementation",
    "python_implementation",
    "platform_release",
    "platform_system",
    "platform_version",
    "platform.version",
    "sys_platform",
    "sys.platform",
];

// The first number that does not stand for the key whose name is at its place, or stands for a key behind the last
// name.
fn first_wrong<K: Key>(names: &[&str]) -> Option<u8> {
    (0u8..=255).find(|number| {
        match (K::from_number(*number), names.get(*number as usize)) {
            (Some(key), Some(name)) => key.number() != *number || key.name() != *name,
            (None, None) => false,
            _ => true,
        }
    })
}

#[test]
fn version_keys_have_their_numbers_and_names(rt: HostRuntime) {
    assert_eq!(rt; first_wrong::<MarkerValueVersion>(&VERSION_NAMES), None);
}

#[test]
fn string_keys_have_their_numbers_and_names(rt: HostRuntime) {
    assert_eq!(rt; first_wrong::<MarkerValueString>(&STRING_NAMES), None);
}
