use crate::tests::given::{NO_REFUSAL, both_ways, text, told};
use std::cmp::Ordering;
use values::texts::Text;

fn made(bytes: &[u8]) -> [usize; 4] {
    told(Text::new(bytes))
}

fn compared(a: &[u8], b: &[u8]) -> (Ordering, Ordering) {
    both_ways(&text(a), &text(b))
}

#[test]
fn a_stored_length_above_64_is_read_as_64(rt: HostRuntime) {
    for (length, read) in [
        (0, 0),
        (1, 1),
        (63, 63),
        (64, 64),
        (65, 64),
        (200, 64),
        (255, 64),
    ] {
        let stored = Text {
            length,
            bytes: [7; 64],
        };
        assert_eq!(rt; stored.as_bytes().len(), read);
    }
}

#[test]
fn texts_of_one_reading_are_equal(rt: HostRuntime) {
    let whole = text(&[7; 64]);
    let same = (Ordering::Equal, Ordering::Equal);
    for length in [65, 200, 255] {
        let stored = Text {
            length,
            bytes: [7; 64],
        };
        assert_eq!(rt; both_ways(&stored, &whole), same);
    }
    let stored = Text {
        length: 2,
        bytes: [7; 64],
    };
    assert_eq!(rt; both_ways(&stored, &text(&[7, 7])), same);
}

#[test]
fn a_text_above_64_bytes_is_refused(rt: HostRuntime) {
    assert_eq!(rt; made(b""), NO_REFUSAL);
    assert_eq!(rt; made(&[255; 64]), NO_REFUSAL);
    assert_eq!(rt; made(&[255; 65]), [3, 1, 0, 0]);
    assert_eq!(rt; made(&[0; 200]), [3, 1, 0, 0]);
}

#[test]
fn a_text_keeps_its_bytes(rt: HostRuntime) {
    assert!(rt; text(b"").as_bytes().is_empty());
    assert!(rt; text(b"linux\x00").as_bytes() == b"linux\x00".as_slice());
    assert!(rt; text(&[200; 64]).as_bytes() == [200; 64].as_slice());
}

#[test]
fn texts_compare_by_bytes_a_prefix_first(rt: HostRuntime) {
    let below = (Ordering::Less, Ordering::Greater);
    assert_eq!(rt; compared(b"", b"\x00"), below);
    assert_eq!(rt; compared(b"linux", b"linux2"), below);
    assert_eq!(rt; compared(b"linux2", b"linuy"), below);
    assert_eq!(rt; compared(b"Z", b"a"), below);
    assert_eq!(rt; compared(&[127, 255], &[128]), below);
    assert_eq!(rt; compared(&[128], &[255]), below);
    assert_eq!(rt; compared(&[255; 63], &[255; 64]), below);
    let same = (Ordering::Equal, Ordering::Equal);
    assert_eq!(rt; compared(b"", b""), same);
    assert_eq!(rt; compared(&[255; 64], &[255; 64]), same);
}
