ghost use Rattle.std.specs.Prelude.{◌≡◌};
ghost use Rattle.values.specs.Rows.{Row, by_row};
ghost use Rattle.values.specs.Releases.{release_row};

use std::cmp::Ordering;
use values::orders::Order;
use values::releases::Release;
use values::texts::Text;

// What has a place on the line of the values T: it is held against bounds, and need not be a T itself, as the library's
// comparison would want.
pub trait Point<T: Order> {
    // The row of numbers that it means.
    ghost at: { Self → Row };

    fn against(&self, value: &T) -> Ordering
        ensures { result ≡ by_row (at self.now) (T.Order.row value.now) };
}

impl Point<Release> for Release {
    ghost at = { release_row };

    fn against(&self, value: &Release) -> Ordering {
        self.cmp(value)
    }
}

// A host's text: bytes of any length.
#[derive(Clone, Copy)]
pub struct HostText<'a> {
    pub bytes: &'a [u8],
}

impl Point<Text> for HostText<'_> {
    ghost at = { λ h. h.bytes.now };

    fn against(&self, value: &Text) -> Ordering {
        self.bytes.cmp(value.as_bytes())
    }
}
