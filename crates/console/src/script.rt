// A script: its lines, and the pieces of a line.
ghost use Rattle.std.specs.Prelude.{◌≡◌, ◌+◌, ◌^◌, ◌<◌, ◌≤◌, [], length, Decides, Option, MatchOption};
ghost use Rattle.std.specs.Option.{option_copied, option_map};
ghost use Rattle.console.specs.Cuts.{Cut, Line, Gives, unread};
ghost use Rattle.console.specs.Spelling.{Silent};
ghost use Rattle.std.specs.Iterator.{at_most};

// What is left of a script, and how many lines were read.
#[derive(Drop)]
pub(crate) struct Script<'a> {
    rest: &'a [u8],
    lines: usize,
    ghost counted: { lines + length rest.now < 2 ^ 64 },
}

impl<'a> Script<'a> {
    pub(crate) fn new(bytes: &'a [u8]) -> Script<'a>
        ensures whole { result.rest.now ≡ bytes.now }
        ensures none { result.lines ≡ 0 }
    {
        Script {
            rest: bytes,
            lines: 0,
        }
    }
}

// The lines, each with its number from 1 and without its line feed, which the last line may lack.
impl<'a> Iterator for Script<'a> {
    type Item = (usize, &'a [u8]);

    ghost next_gives = { λ s r t. Line s.rest.now (option_map (λ l. l.1.now) r) t.rest.now × MatchOption r (t.lines ≡ s.lines) (λ l. (t.lines ≡ s.lines + 1) × (l.0 ≡ t.lines)) };

    ghost remaining = { λ s. at_most (length s.rest.now) };

    fn next(&mut self) -> Option<(usize, &'a [u8])> {
        if self.rest.is_empty() {
            return None;
        }
        let (line, rest) = part(self.rest, b'\n');
        self.rest = rest.unwrap_or(&[]);
        self.lines += 1;
        Some((self.lines, line))
    }
}

// The bytes before the first mark, and those behind it if there is one.
fn part(bytes: &[u8], mark: u8) -> (&[u8], Option<&[u8]>)
    ensures cut { Cut mark bytes.now result.0.now (option_copied result.1) }
    ensures shorter { unread (option_copied result.1) ≤ length bytes.now }
{
    match bytes.iter().position(|byte| *byte == mark) {
        Some(place) => (&bytes[..place], Some(&bytes[place + 1..])),
        None => (bytes, None),
    }
}

// Whether a line answers nothing: a comment, or blanks only.
pub(crate) fn is_silent(line: &[u8]) -> bool
    ensures { Decides result (Silent line.now) }
{
    matches!(line, [b'#', ..]) || line.iter().all(|byte| *byte == b' ')
}

// The pieces between marks, of which there is one more than marks. The library's `split` takes a closure, whose type
// could not be named in a field of `Words`.
#[derive(Drop)]
pub(crate) struct Pieces<'a> {
    pub(crate) rest: Option<&'a [u8]>,
    mark: u8,
}

pub(crate) fn split(bytes: &[u8], mark: u8) -> Pieces<'_>
    ensures whole { option_copied result.rest ≡ Option.Some bytes.now }
    ensures mark { result.mark ≡ mark }
{
    Pieces {
        rest: Some(bytes),
        mark,
    }
}

impl<'a> Iterator for Pieces<'a> {
    type Item = &'a [u8];

    ghost next_gives = { λ s r t. Gives s.mark (option_copied s.rest) (option_copied r) (option_copied t.rest) × (t.mark ≡ s.mark) };

    ghost remaining = { λ s. at_most (unread (option_copied s.rest)) };

    #[tactic(auto, using(crate::proofs::Cutting::pieces_cut))]
    fn next(&mut self) -> Option<&'a [u8]> {
        let (piece, rest) = part(self.rest?, self.mark);
        self.rest = rest;
        Some(piece)
    }
}
