ghost use Rattle.std.specs.Prelude.{◌≡◌, refl};
ghost use Rattle.values.specs.Rows.{Row, by_row};
ghost use Rattle.values.specs.Releases.{release_row};
ghost use Rattle.values.specs.Texts.{text_bytes};

use crate::releases::Release;
use crate::texts::Text;

// Values with a place on a line: their total order is that of the rows of numbers that they mean.
pub trait Order: Ord {
    // The row of numbers that a value means.
    ghost row: { Self → Row };

    ghost rows: { (x y : Self) → Self.cmp x y ≡ by_row (row x) (row y) };
}

impl Order for Release {
    ghost row = { release_row };

    ghost rows = { λ x y. refl };
}

impl Order for Text {
    ghost row = { text_bytes };

    ghost rows = { λ x y. refl };
}
