use crate::tests::given::{NO_REFUSAL, both_ways, release, told};
use std::cmp::Ordering;
use values::releases::{LARGEST, Release};

const ONE_TO_EIGHT: [u64; 8] = [1, 2, 3, 4, 5, 6, 7, 8];

fn made(numbers: &[u64]) -> [usize; 4] {
    told(Release::new(numbers))
}

fn compared(a: &[u64], b: &[u64]) -> (Ordering, Ordering) {
    both_ways(&release(a), &release(b))
}

#[test]
fn a_stored_count_is_read_within_the_limits(rt: HostRuntime) {
    for (count, written) in [(0, 1), (1, 1), (7, 7), (8, 8), (9, 8), (255, 8)] {
        let stored = Release {
            count,
            numbers: ONE_TO_EIGHT,
        };
        assert_eq!(rt; stored.written(), written);
        assert_eq!(rt; stored.number(0), 1);
        assert_eq!(rt; stored.number(written - 1), written as u64);
        assert_eq!(rt; stored.number(written), 0);
        assert_eq!(rt; stored.number(usize::MAX), 0);
    }
}

#[test]
fn a_stored_number_above_the_largest_is_read_as_the_largest(rt: HostRuntime) {
    let stored = Release {
        count: 2,
        numbers: [u64::MAX; 8],
    };
    assert_eq!(rt; LARGEST, 18446744073709551614);
    assert_eq!(rt; stored.number(0), LARGEST);
    assert_eq!(rt; stored.number(1), LARGEST);
    assert_eq!(rt; stored.number(2), 0);
    let same = (Ordering::Equal, Ordering::Equal);
    assert_eq!(rt; both_ways(&stored, &release(&[LARGEST, LARGEST])), same);
    let above = (Ordering::Greater, Ordering::Less);
    assert_eq!(rt;
        both_ways(&stored, &release(&[LARGEST, LARGEST - 1])),
        above
    );
}

#[test]
fn a_wrong_count_is_refused(rt: HostRuntime) {
    assert_eq!(rt; made(&[]), [1, 1, 0, 0]);
    assert_eq!(rt; made(&[0]), NO_REFUSAL);
    assert_eq!(rt; made(&ONE_TO_EIGHT), NO_REFUSAL);
    assert_eq!(rt; made(&[0; 9]), [1, 1, 0, 0]);
    assert_eq!(rt; made(&[u64::MAX; 9]), [1, 1, 0, 0]);
}

#[test]
fn a_number_above_the_largest_is_refused(rt: HostRuntime) {
    let large = u64::MAX;
    assert_eq!(rt; made(&[LARGEST; 8]), NO_REFUSAL);
    assert_eq!(rt; made(&[large]), [2, 1, 0, 0]);
    assert_eq!(rt; made(&[large, 1, large]), [2, 1, 0, 0]);
    assert_eq!(rt; made(&[LARGEST, large, 0, large, large]), [2, 1, 1, 0]);
    assert_eq!(rt; made(&[0, 0, 0, 0, 0, 0, 0, large]), [2, 1, 7, 0]);
}

#[test]
fn a_release_keeps_its_numbers(rt: HostRuntime) {
    let made = release(&[3, 8, 0]);
    assert_eq!(rt; made.written(), 3);
    assert_eq!(rt;
        [
            made.number(0),
            made.number(1),
            made.number(2),
            made.number(3),
        ],
        [3, 8, 0, 0]
    );
    let longest = release(&ONE_TO_EIGHT);
    assert_eq!(rt; longest.written(), 8);
    assert_eq!(rt;
        [longest.number(0), longest.number(6), longest.number(7)],
        [1, 7, 8]
    );
}

#[test]
fn releases_compare_with_zeros_filled_in(rt: HostRuntime) {
    let same = (Ordering::Equal, Ordering::Equal);
    assert_eq!(rt; compared(&[3], &[3, 0, 0]), same);
    assert_eq!(rt; compared(&[3, 8], &[3, 8, 0, 0, 0, 0, 0, 0]), same);
    assert_eq!(rt; compared(&[0], &[0, 0]), same);
    let above = (Ordering::Greater, Ordering::Less);
    assert_eq!(rt; compared(&[3, 10], &[3, 9]), above);
    assert_eq!(rt; compared(&[3, 8, 0, 0, 0, 0, 0, 1], &[3, 8]), above);
    assert_eq!(rt; compared(&[3], &[2, 9, 9, 9, 9, 9, 9, 9]), above);
    assert_eq!(rt; compared(&[10], &[9, LARGEST]), above);
}

#[test]
fn what_lies_behind_the_count_is_not_read(rt: HostRuntime) {
    let stored = Release {
        count: 1,
        numbers: [3; 8],
    };
    assert_eq!(rt;
        both_ways(&stored, &release(&[3])),
        (Ordering::Equal, Ordering::Equal)
    );
    let none = Release {
        count: 0,
        numbers: [3; 8],
    };
    assert_eq!(rt;
        both_ways(&none, &stored),
        (Ordering::Equal, Ordering::Equal)
    );
}
