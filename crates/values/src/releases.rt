ghost use Rattle.std.specs.Cmp.{partial_equiv_from_equiv, partial_order_from_total, eq_by_cmp_equiv};
ghost use Rattle.std.specs.Ordering.{as_partial_cmp, eq_by_cmp, on, MatchOrdering};
ghost use Rattle.std.specs.Prelude.{◌≡◌, refl, ℕ, ◌+◌, ◌<◌, ◌≤◌, ◌-◌, ◌++◌, length, take, replicate, nat_lt};
ghost use Rattle.std.specs.List.{position_from};
ghost use Rattle.values.specs.Rows.{by_row};
ghost use Rattle.values.specs.Lines.{releases_total};
ghost use Rattle.values.specs.Releases.{largest, most_numbers, release_row, Before, Same, release_count, number as the_number, made_release, MakesRelease};

use crate::faults::Fault;
use std::cmp::Ordering;

// The largest number of a release.
pub const LARGEST: u64 = 18446744073709551614;

// How many numbers a release has at most.
pub const MOST_NUMBERS: usize = 8;

// One to eight numbers. A stored count or number outside the limits is read as the nearest allowed one. The count
// stands beside an array, since rows of releases are lent and the unit has no heap.
#[derive(Clone, Copy)]
pub struct Release {
    pub count: u8,
    pub numbers: [u64; 8],
}

// The place of the first number that is too large.
fn first_too_large(numbers: &[u64]) -> Option<usize>
    ensures { result ≡ position_from (nat_lt largest) 0 numbers.now }
{
    numbers.iter().position(|number| *number > LARGEST)
}

// The numbers, and zeros behind them. Place by place: a copy of as many as there are takes twice the time here.
fn zero_filled(numbers: &[u64]) -> [u64; MOST_NUMBERS]
    ensures { result ≡ take most_numbers numbers.now ++ replicate (most_numbers - length numbers.now) 0 }
{
    std::array::from_fn(|place| numbers.get(place).copied().unwrap_or(0))
}

impl Release {
    // The release of a list of numbers: refusal 1 for a wrong count, then 2.
    pub fn new(numbers: &[u64]) -> Result<Release, Fault>
        ensures answer { result ≡ made_release numbers.now }
        ensures law { MakesRelease numbers.now result }
    {
        if numbers.is_empty() || numbers.len() > MOST_NUMBERS {
            return Err(Fault::ReleaseCount);
        }
        if let Some(index) = first_too_large(numbers) {
            return Err(Fault::NumberTooLarge { index });
        }
        Ok(Release {
            count: numbers.len() as u8,
            numbers: zero_filled(numbers),
        })
    }

    // How many numbers are written. With `clamp`, comparing releases takes twice the time.
    pub fn written(&self) -> usize
        ensures { result ≡ release_count self.now }
    {
        (self.count as usize).min(MOST_NUMBERS).max(1)
    }

    // The number at a place, 0 behind those that are written.
    pub fn number(&self, place: usize) -> u64
        ensures { result ≡ the_number self.now place }
    {
        if place < self.written() {
            self.numbers[place].min(LARGEST)
        } else {
            0
        }
    }
}

impl Ord for Release {
    ghost cmp = { on release_row by_row };

    ghost total = { releases_total };

    ghost matches_partial_cmp = { λ x y. refl };

    ghost matches_eq = { λ x y. refl };

    // Number by number, zeros filled in. Places are counted, since neither release has a slice of what is compared; a
    // chain of iterators over them took twice the time.
    fn cmp(&self, other: &Release) -> Ordering
        ensures value { result ≡ by_row (release_row self.now) (release_row other.now) }
        ensures words { MatchOrdering result (Before self.now other.now) (Same self.now other.now) (Before other.now self.now) }
    {
        for place in 0..MOST_NUMBERS {
            match self.number(place).cmp(&other.number(place)) {
                Ordering::Equal => {}
                different => return different,
            }
        }
        Ordering::Equal
    }
}

// These are written for each type of values: an impl for every `Order` would meet the library's own, and a derive would
// compare what is stored, though 3.8 is 3.8.0.
impl PartialOrd for Release {
    ghost partial_cmp = { as_partial_cmp (on release_row by_row) };

    ghost laws = { partial_order_from_total releases_total };

    fn partial_cmp(&self, other: &Release) -> Option<Ordering> {
        Some(self.cmp(other))
    }
}

impl Eq for Release {
    ghost laws = { eq_by_cmp_equiv releases_total };
}

impl PartialEq for Release {
    ghost eq = { eq_by_cmp (on release_row by_row) };

    ghost laws = { partial_equiv_from_equiv (eq_by_cmp_equiv releases_total) };

    fn eq(&self, other: &Release) -> bool {
        self.cmp(other).is_eq()
    }
}
