ghost use Rattle.std.specs.Cmp.{partial_equiv_from_equiv, partial_order_from_total, eq_by_cmp_equiv};
ghost use Rattle.std.specs.Ordering.{as_partial_cmp, eq_by_cmp, on, MatchOrdering};
ghost use Rattle.std.specs.Prelude.{◌≡◌, refl, true, false, length, Decides};
ghost use Rattle.values.specs.Rows.{by_row, Earlier};
ghost use Rattle.values.specs.Lines.{texts_total};
ghost use Rattle.values.specs.Texts.{text_bytes, made_text, MakesText};
ghost use Rattle.values.specs.Names.{normal_name, may_come_next, Normal};

use crate::faults::Fault;
use crate::stored::padded;
use std::cmp::Ordering;

// How many bytes a text has at most.
pub const MOST_BYTES: usize = 64;

// At most 64 bytes. A greater stored length is read as 64. The length stands beside an array, since rows of texts are
// lent and the unit has no heap.
#[derive(Clone, Copy)]
pub struct Text {
    pub length: u8,
    pub bytes: [u8; 64],
}

impl Text {
    // The text of the bytes: refusal 3 above 64.
    pub fn new(bytes: &[u8]) -> Result<Text, Fault>
        ensures answer { result ≡ made_text bytes.now }
        ensures law { MakesText bytes.now result }
    {
        if bytes.len() > MOST_BYTES {
            return Err(Fault::TextTooLong);
        }
        Ok(Text {
            length: bytes.len() as u8,
            bytes: padded(bytes, 0),
        })
    }

    pub fn as_bytes(&self) -> &[u8]
        ensures { result.now ≡ text_bytes self.now }
    {
        let end = (self.length as usize).min(MOST_BYTES);
        &self.bytes[..end]
    }

    // Whether the text is a normal name of an extra.
    pub fn is_normal_name(&self) -> bool
        ensures answer { result ≡ normal_name (text_bytes self.now) }
        ensures law { Decides result (Normal (text_bytes self.now)) }
    {
        // Each turn tells the next one whether a hyphen may come, which no test of single bytes does.
        let mut barred = true;
        for byte in self.as_bytes() {
            if !may_come(barred, *byte) {
                return false;
            }
            barred = *byte == b'-';
        }
        !barred
    }
}

impl Ord for Text {
    ghost cmp = { on text_bytes by_row };

    ghost total = { texts_total };

    ghost matches_partial_cmp = { λ x y. refl };

    ghost matches_eq = { λ x y. refl };

    // Byte by byte, a prefix first.
    fn cmp(&self, other: &Text) -> Ordering
        ensures value { result ≡ by_row (text_bytes self.now) (text_bytes other.now) }
        ensures words { MatchOrdering result (Earlier (text_bytes self.now) (text_bytes other.now)) (text_bytes self.now ≡ text_bytes other.now) (Earlier (text_bytes other.now) (text_bytes self.now)) }
    {
        self.as_bytes().cmp(other.as_bytes())
    }
}

// These are written for each type of values: an impl for every `Order` would meet the library's own, and a derive would
// compare what is stored, bytes behind the length too.
impl PartialOrd for Text {
    ghost partial_cmp = { as_partial_cmp (on text_bytes by_row) };

    ghost laws = { partial_order_from_total texts_total };

    fn partial_cmp(&self, other: &Text) -> Option<Ordering> {
        Some(self.cmp(other))
    }
}

impl Eq for Text {
    ghost laws = { eq_by_cmp_equiv texts_total };
}

impl PartialEq for Text {
    ghost eq = { eq_by_cmp (on text_bytes by_row) };

    ghost laws = { partial_equiv_from_equiv (eq_by_cmp_equiv texts_total) };

    fn eq(&self, other: &Text) -> bool {
        self.cmp(other).is_eq()
    }
}

// Whether a byte may come next in a normal name. A hyphen is barred at the start and behind a hyphen, which is all that
// the flag says; an enum of two cases would be no plainer.
fn may_come(barred: bool, byte: u8) -> bool
    ensures { result ≡ may_come_next barred byte }
{
    match byte {
        b'-' => !barred,
        b'a'..=b'z' | b'0'..=b'9' => true,
        _ => false,
    }
}
