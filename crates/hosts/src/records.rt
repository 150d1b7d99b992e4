ghost use Rattle.std.specs.Prelude.{◌≡◌, List, not, length, take};
ghost use Rattle.std.specs.List.{position_from};
ghost use Rattle.values.specs.Names.{normal_name};
ghost use Rattle.values.specs.declared.texts.Text.{Text};
ghost use Rattle.hosts.specs.Records.{host_bytes, most_host_bytes, text_refusal, texts_refusal, names_refusal, among, kept_bytes, meaning_of, record_meaning, meant, made_record};
ghost use Rattle.values.specs.Faults.{answer};
ghost use Rattle.values.specs.Texts.{text_bytes};

use crate::hosts::Host;
use values::faults::Fault;
use values::keys::{MarkerValueString, MarkerValueVersion};
use values::releases::Release;
use values::stored::padded;
use values::texts::Text;

// How many bytes a host's text has at most.
pub const MOST_HOST_BYTES: usize = 255;

// A host's text as a record owns it, in an array, since the unit has no heap. It is not a longer `Text`: that one has
// public fields, and is read within a limit.
#[derive(Clone, Copy)]
pub struct HostBytes {
    length: u8,
    bytes: [u8; 255],
}

impl HostBytes {
    // A copy of the bytes, of which the first 255 are kept.
    fn copied(bytes: &[u8]) -> HostBytes
        ensures { host_bytes result ≡ take most_host_bytes bytes.now }
    {
        HostBytes {
            length: bytes.len().min(MOST_HOST_BYTES) as u8,
            bytes: padded(bytes, 0),
        }
    }

    fn as_bytes(&self) -> &[u8]
        ensures { result.now ≡ host_bytes self.now }
    {
        let end = self.length as usize;
        &self.bytes[..end]
    }
}

// The fields of a host, whose texts may be lent or owned.
#[derive(Clone, Copy)]
pub struct Fields<T> {
    pub implementation_name: T,
    pub implementation_version: Release,
    pub os_name: T,
    pub platform_machine: T,
    pub platform_python_implementation: T,
    pub platform_release: T,
    pub platform_system: T,
    pub platform_version: T,
    pub python_full_version: Release,
    pub python_version: Release,
    pub sys_platform: T,
}

// A host that owns its fields, with a caller's list of active names.
#[derive(Clone, Copy)]
pub struct Record<'a> {
    fields: Fields<HostBytes>,
    names: &'a [Text],
}

// Refusal 15 of the field at an index.
fn check_text(field: usize, bytes: &[u8]) -> Result<(), Fault>
    ensures { result ≡ answer (text_refusal field bytes.now) }
{
    if bytes.len() > MOST_HOST_BYTES {
        Err(Fault::HostTextTooLong { field })
    } else {
        Ok(())
    }
}

// Refusal 15 of the first field that is too long.
fn check_texts(fields: &Fields<&[u8]>) -> Result<(), Fault>
    ensures { result ≡ answer (texts_refusal fields.now) }
{
    check_text(0, fields.implementation_name)?;
    check_text(2, fields.os_name)?;
    check_text(3, fields.platform_machine)?;
    check_text(4, fields.platform_python_implementation)?;
    check_text(5, fields.platform_release)?;
    check_text(6, fields.platform_system)?;
    check_text(7, fields.platform_version)?;
    check_text(10, fields.sys_platform)
}

// The place of the first name that is not normal.
fn first_not_normal(names: &[Text]) -> Option<usize>
    ensures { result ≡ position_from (λ t. not (normal_name (text_bytes t))) 0 names.now }
{
    names.iter().position(|name| !name.is_normal_name())
}

// Refusal 16 of the first name that is not normal.
pub fn check_names(names: &[Text]) -> Result<(), Fault>
    ensures { result ≡ answer (names_refusal names.now) }
{
    first_not_normal(names).map_or(Ok(()), |index| Err(Fault::NameNotNormal { index }))
}

// Whether a name is among names, byte for byte.
pub fn is_among(name: &Text, names: &[Text]) -> bool
    ensures { result ≡ among names.now (text_bytes name.now) }
{
    names.contains(name)
}

// The fields with copies of their texts.
fn owned(fields: &Fields<&[u8]>) -> Fields<HostBytes>
    ensures { (names : List Text) → meaning_of host_bytes result names ≡ meaning_of kept_bytes fields.now names }
{
    Fields {
        implementation_name: HostBytes::copied(fields.implementation_name),
        implementation_version: fields.implementation_version,
        os_name: HostBytes::copied(fields.os_name),
        platform_machine: HostBytes::copied(fields.platform_machine),
        platform_python_implementation: HostBytes::copied(fields.platform_python_implementation),
        platform_release: HostBytes::copied(fields.platform_release),
        platform_system: HostBytes::copied(fields.platform_system),
        platform_version: HostBytes::copied(fields.platform_version),
        python_full_version: fields.python_full_version,
        python_version: fields.python_version,
        sys_platform: HostBytes::copied(fields.sys_platform),
    }
}

impl<'a> Record<'a> {
    // The record of the fields and names: refusal 15, then 16.
    pub fn new(fields: &Fields<&[u8]>, names: &'a [Text]) -> Result<Record<'a>, Fault>
        ensures { meant result ≡ made_record fields.now names.now }
    {
        check_texts(fields)?;
        check_names(names)?;
        Ok(Record {
            fields: owned(fields),
            names,
        })
    }
}

impl Host for Record<'_> {
    ghost means = { record_meaning };

    fn get_version(&self, key: MarkerValueVersion) -> &Release {
        let fields = &self.fields;
        match key {
            MarkerValueVersion::ImplementationVersion => &fields.implementation_version,
            MarkerValueVersion::PythonFullVersion => &fields.python_full_version,
            MarkerValueVersion::PythonVersion => &fields.python_version,
        }
    }

    fn get_string(&self, key: MarkerValueString) -> &[u8] {
        let fields = &self.fields;
        let text = match key {
            MarkerValueString::ImplementationName => &fields.implementation_name,
            MarkerValueString::OsName | MarkerValueString::OsNameDeprecated => &fields.os_name,
            MarkerValueString::PlatformMachine | MarkerValueString::PlatformMachineDeprecated =>
                &fields.platform_machine,
            MarkerValueString::PlatformPythonImplementation
            | MarkerValueString::PlatformPythonImplementationDeprecated
            | MarkerValueString::PythonImplementationDeprecated =>
                &fields.platform_python_implementation,
            MarkerValueString::PlatformRelease => &fields.platform_release,
            MarkerValueString::PlatformSystem => &fields.platform_system,
            MarkerValueString::PlatformVersion | MarkerValueString::PlatformVersionDeprecated =>
                &fields.platform_version,
            MarkerValueString::SysPlatform | MarkerValueString::SysPlatformDeprecated =>
                &fields.sys_platform,
        };
        text.as_bytes()
    }

    fn is_active(&self, name: &Text) -> bool {
        is_among(name, self.names)
    }
}
