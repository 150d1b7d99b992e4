use crate::tests::given::text;
use values::texts::Text;

fn is_name(bytes: &[u8]) -> bool {
    text(bytes).is_normal_name()
}

#[test]
fn normal_names_pass(rt: HostRuntime) {
    assert!(rt; is_name(b"a"));
    assert!(rt; is_name(b"z"));
    assert!(rt; is_name(b"0"));
    assert!(rt; is_name(b"9"));
    assert!(rt; is_name(b"a-b"));
    assert!(rt; is_name(b"0-z-9-a"));
    assert!(rt; is_name(b"test-utils2"));
    assert!(rt; is_name(&[b'x'; 64]));
}

#[test]
fn hyphens_at_an_end_or_together_do_not(rt: HostRuntime) {
    assert!(rt; !is_name(b""));
    assert!(rt; !is_name(b"-"));
    assert!(rt; !is_name(b"-a"));
    assert!(rt; !is_name(b"a-"));
    assert!(rt; !is_name(b"a--b"));
    assert!(rt; !is_name(b"a-b--c"));
    assert!(rt; !is_name(&[b'-'; 64]));
}

#[test]
fn other_bytes_do_not(rt: HostRuntime) {
    for byte in [
        b'A', b'Z', b'_', b'.', b' ', b'/', b':', b'`', b'{', 0, 128, 225, 255,
    ] {
        assert!(rt; !is_name(&[byte]), "{}", byte);
        assert!(rt; !is_name(&[b'a', byte, b'a']), "{}", byte);
        assert!(rt; !is_name(&[b'a', byte]), "{}", byte);
    }
}

#[test]
fn a_name_is_read_up_to_64_bytes(rt: HostRuntime) {
    for (length, last, normal) in [
        (64, b'x', true),
        (255, b'x', true),
        (64, b'-', false),
        (63, b'-', true),
    ] {
        let mut bytes = [b'x'; 64];
        bytes[63] = last;
        assert_eq!(rt; Text { length, bytes }.is_normal_name(), normal);
    }
}
