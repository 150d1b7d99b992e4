// Which values an edge contains.
use crate::tests::given::{edge, release, text};
use ranges::points::HostText;
use std::ops::Bound;
use std::ops::Bound::{Excluded, Included, Unbounded};
use values::releases::{LARGEST, Release};
use values::texts::Text;

// Whether the range contains 3.7.9, 3.8.0, 3.8.1, 3.9 and 3.10.
fn contained(lower: Bound<Release>, upper: Bound<Release>) -> [bool; 5] {
    let range = edge(lower, upper, 0);
    [
        range.contains(&release(&[3, 7, 9])),
        range.contains(&release(&[3, 8, 0])),
        range.contains(&release(&[3, 8, 1])),
        range.contains(&release(&[3, 9])),
        range.contains(&release(&[3, 10])),
    ]
}

fn holds(lower: Bound<Text>, upper: Bound<Text>, bytes: &[u8]) -> bool {
    edge(lower, upper, 0).contains(&HostText { bytes })
}

#[test]
fn releases_keep_to_both_bounds(rt: HostRuntime) {
    let low = release(&[3, 8]);
    let high = release(&[3, 9, 0]);
    assert_eq!(rt;
        contained(Included(low), Excluded(high)),
        [false, true, true, false, false]
    );
    assert_eq!(rt;
        contained(Included(low), Included(high)),
        [false, true, true, true, false]
    );
    assert_eq!(rt;
        contained(Excluded(low), Excluded(high)),
        [false, false, true, false, false]
    );
    assert_eq!(rt;
        contained(Excluded(low), Included(high)),
        [false, false, true, true, false]
    );
    assert_eq!(rt;
        contained(Included(low), Included(low)),
        [false, true, false, false, false]
    );
    assert_eq!(rt; contained(Excluded(low), Excluded(low)), [false; 5]);
    assert_eq!(rt; contained(Included(high), Included(low)), [false; 5]);
}

#[test]
fn releases_keep_to_one_bound(rt: HostRuntime) {
    let at = release(&[3, 8]);
    assert_eq!(rt; contained(Unbounded, Unbounded), [true; 5]);
    assert_eq!(rt;
        contained(Unbounded, Excluded(at)),
        [true, false, false, false, false]
    );
    assert_eq!(rt;
        contained(Unbounded, Included(at)),
        [true, true, false, false, false]
    );
    assert_eq!(rt;
        contained(Included(at), Unbounded),
        [false, true, true, true, true]
    );
    assert_eq!(rt;
        contained(Excluded(at), Unbounded),
        [false, false, true, true, true]
    );
}

#[test]
fn the_largest_release_has_a_place(rt: HostRuntime) {
    let stored = Release {
        count: 255,
        numbers: [u64::MAX; 8],
    };
    let top = release(&[LARGEST; 8]);
    assert!(rt; edge(Included(stored), Included(stored), 0).contains(&top));
    assert!(rt; edge(Unbounded, Included(top), 0).contains(&stored));
    assert!(rt; !edge(Unbounded, Excluded(top), 0).contains(&stored));
    assert!(rt; !edge(Excluded(stored), Unbounded, 0).contains(&top));
}

#[test]
fn host_texts_keep_to_both_bounds(rt: HostRuntime) {
    let low = text(b"linux");
    let high = text(b"win32");
    assert!(rt; !holds(Included(low), Excluded(high), b""));
    assert!(rt; !holds(Included(low), Excluded(high), b"linu"));
    assert!(rt; holds(Included(low), Excluded(high), b"linux"));
    assert!(rt; !holds(Excluded(low), Excluded(high), b"linux"));
    assert!(rt; holds(Excluded(low), Excluded(high), b"linux2"));
    assert!(rt; !holds(Included(low), Excluded(high), b"win32"));
    assert!(rt; holds(Included(low), Included(high), b"win32"));
    assert!(rt; !holds(Included(low), Included(high), b"win32\x00"));
    assert!(rt; !holds(Included(low), Included(high), &[200]));
}

#[test]
fn a_long_host_text_is_above_its_first_64_bytes(rt: HostRuntime) {
    let at = text(&[b'a'; 64]);
    assert!(rt; holds(Included(at), Included(at), &[b'a'; 64]));
    for long in [&[b'a'; 65][..], &[b'a'; 200][..], &[b'a'; 255][..]] {
        assert!(rt; !holds(Included(at), Included(at), long));
        assert!(rt; holds(Excluded(at), Unbounded, long));
        assert!(rt; !holds(Unbounded, Included(at), long));
        assert!(rt; holds(Unbounded, Excluded(text(b"b")), long));
        assert!(rt; holds(Unbounded, Unbounded, long));
    }
}

#[test]
fn a_long_host_text_is_below_a_greater_byte(rt: HostRuntime) {
    let mut bytes = [b'a'; 64];
    bytes[63] = b'b';
    let at = Text { length: 255, bytes };
    assert!(rt; holds(Unbounded, Excluded(at), &[b'a'; 255]));
    assert!(rt; !holds(Included(at), Unbounded, &[b'a'; 255]));
    assert!(rt; !holds(Unbounded, Included(at), &[b'b'; 200]));
    assert!(rt; holds(Included(at), Included(at), &bytes));
}
