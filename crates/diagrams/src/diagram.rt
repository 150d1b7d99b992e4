ghost use Rattle.std.specs.Prelude.{◌≡◌, false, is_some};
ghost use Rattle.diagrams.specs.Tables.{held};
ghost use Rattle.diagrams.specs.Admission.{first_refusal};

use crate::rows::Rows;

// An admitted diagram: it borrows its three lists, and they break no rule.
#[derive(Clone, Copy)]
pub struct Diagram<'a> {
    pub(crate) rows: Rows<'a>,
    ghost admitted: { is_some (first_refusal (held rows)) ≡ false },
}
