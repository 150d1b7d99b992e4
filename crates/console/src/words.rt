// The words of a line, and the values that they write.
ghost use Rattle.std.specs.Prelude.{◌≡◌, ℕ, ◌^◌, ◌<◌, ◌≤◌, List, [], IfOk, Result, MatchResult};
ghost use Rattle.std.specs.Option.{SomeIff};
ghost use Rattle.std.specs.Str.Parse.{IsNumeral, digits_value as value_in};
ghost use Rattle.values.specs.Releases.{made_release};
ghost use Rattle.values.specs.Texts.{made_text};
ghost use Rattle.values.specs.declared.faults.Fault.{Fault};
ghost use Rattle.console.specs.Cuts.{pieces};
ghost use Rattle.console.specs.Spelling.{Each, Decimal, HexDigit, HexBytes, IsTextWord, IsListWord, IsReleaseWord, BoundWord};
ghost use Rattle.console.specs.Words.{left_in, words_left, Next, behind, Number, ReadsNext};
ghost use Rattle.console.specs.Reading.{Reads};
ghost use Rattle.console.specs.Making.{made_bound};
ghost use Rattle.console.specs.declared.words.Unread.TheVariants.{NoMemory};

use crate::script::{Pieces, split};
use crate::stop::Stop;
use std::alloc::{AllocError, AllocFailed, Global};
use std::ops::Bound;
use values::faults::Fault;
use values::keys::{Key, MarkerValueVersion};
use values::releases::Release;
use values::texts::Text;

// Why a line gives no command.
#[derive(Clone, Copy)]
pub(crate) enum Unread {
    // A word is unknown, bad, missing or too many.
    Malformed,
    NoMemory,
}

impl From<AllocError> for Unread {
    ghost from_gives = { λ _ r. r ≡ NoMemory };

    fn from(_error: AllocError) -> Unread {
        Unread::NoMemory
    }
}

impl<T: Drop> From<AllocFailed<T>> for Unread {
    ghost from_gives = { λ _ r. r ≡ NoMemory };

    fn from(_error: AllocFailed<T>) -> Unread {
        Unread::NoMemory
    }
}

// How many places a list or path has at most.
const MOST_PLACES: u64 = 1_000_000;

// The words of a line that are not read yet, with one blank between two.
#[derive(Drop)]
pub(crate) struct Words<'a> {
    heap: Global,
    pieces: Pieces<'a>,
}

impl<'a> Words<'a> {
    pub(crate) fn new(heap: Global, line: &'a [u8]) -> Words<'a>
        ensures { words_left result ≡ pieces 32 line.now }
    {
        Words {
            heap,
            pieces: split(line, b' '),
        }
    }

    // The next word.
    pub(crate) fn word(&mut self) -> Result<&'a [u8], Unread>
        ensures next { MatchResult result (λ word. Next (λ w. w ≡ word.now) (words_left self.old)) (λ _. words_left self.old ≡ []) }
        ensures rest { words_left self.new ≡ behind (words_left self.old) }
    {
        self.pieces.next().ok_or(Unread::Malformed)
    }

    // Refuses a word too many.
    #[tactic(auto, using(crate::proofs::Cutting::pieces_some))]
    pub(crate) fn end(&self) -> Result<(), Unread>
        ensures { Reads (λ _. words_left self.now ≡ []) result }
    {
        self.pieces.rest.map_or(Ok(()), |_| Err(Unread::Malformed))
    }

    fn number(&mut self) -> Result<u64, Unread>
        ensures { ReadsNext Decimal self.old result }
    {
        self.value()
    }

    // A number up to a limit.
    #[tactic(auto, using(crate::proofs::Readings::limit_refused))]
    fn up_to(&mut self, most: u64) -> Result<u64, Unread>
        ensures number { ReadsNext (Number most) self.old result }
        ensures within { IfOk result (λ n. n ≤ most) }
    {
        let number = self.number()?;
        if number <= most {
            Ok(number)
        } else {
            Err(Unread::Malformed)
        }
    }

    // A number up to 255.
    #[tactic(auto, using(crate::proofs::Readings::refused_alike))]
    pub(crate) fn byte(&mut self) -> Result<u8, Unread>
        ensures { ReadsNext (Number 255) self.old result }
    {
        Ok(self.up_to(255)? as u8)
    }

    // An id, or another number of 32 bits.
    #[tactic(auto, using(crate::proofs::Readings::refused_alike))]
    pub(crate) fn id(&mut self) -> Result<u32, Unread>
        ensures { ReadsNext (Number 4294967295) self.old result }
    {
        Ok(self.up_to(4_294_967_295)? as u32)
    }

    // A number of places, which is at most 1,000,000.
    #[tactic(auto, using(crate::proofs::Readings::refused_alike))]
    pub(crate) fn places(&mut self) -> Result<usize, Unread>
        ensures { ReadsNext (Number 1000000) self.old result }
    {
        Ok(self.up_to(MOST_PLACES)? as usize)
    }

    // The number of a release's key.
    pub(crate) fn version_key(&mut self) -> Result<MarkerValueVersion, Unread> {
        MarkerValueVersion::from_number(self.byte()?).ok_or(Unread::Malformed)
    }

    #[tactic(auto, using(crate::proofs::Readings::value_refused, crate::proofs::Readings::value_read))]
    pub(crate) fn value<V: Written>(&mut self) -> Result<V, Unread>
        ensures { ReadsNext V.Written.written self.old result }
    {
        V::read(self.heap, self.word()?)
    }

    // A value of each word that is left.
    pub(crate) fn values<V: Written>(&mut self) -> Result<Vec<V>, Unread>
        ensures { Reads (λ vs. Each V.Written.written (words_left self.old) vs.items) result }
    {
        read_all(self.heap, &mut self.pieces)
    }

    // Releases with a comma between two, or `-` for none.
    pub(crate) fn releases(&mut self) -> Result<Vec<ReleaseWord>, Unread>
        ensures { ReadsNext (λ word vs. IsListWord (λ w v. IsReleaseWord w v.numbers.items) 44 word vs.items) self.old result }
    {
        read_list(self.heap, self.word()?, b',')
    }
}

// The values that pieces write, one each.
fn read_all<V: Written>(heap: Global, pieces: &mut Pieces) -> Result<Vec<V>, Unread>
    ensures { Reads (λ vs. Each V.Written.written (left_in pieces.old) vs.items) result }
{
    let mut values = Vec::new(heap);
    // A `for`, since what is ensured says when it fails.
    for piece in pieces {
        values.push(V::read(heap, piece)?)?;
    }
    Ok(values)
}

// The values of pieces with a mark between two, or none for `-`.
fn read_list<V: Written>(heap: Global, word: &[u8], mark: u8) -> Result<Vec<V>, Unread>
    ensures { Reads (λ vs. IsListWord V.Written.written mark word.now vs.items) result }
{
    if word == b"-".as_slice() {
        return Ok(Vec::new(heap));
    }
    read_all(heap, &mut split(word, mark))
}

// The number that decimal digits write, where it has 64 bits at most.
fn decimal(digits: &[u8]) -> Option<u64>
    ensures { SomeIff result (IsNumeral 10 digits.now × (value_in 10 digits.now < 2 ^ 64)) (value_in 10 digits.now) }
{
    if digits.is_empty() {
        return None;
    }
    // Not `parse`, which takes text: that has to be tested first, and takes up to twice the time.
    digits.iter().try_fold(0u64, |number, byte| {
        let digit = (*byte as char).to_digit(10)?;
        number.checked_mul(10)?.checked_add(digit as u64)
    })
}

// The value of a hexadecimal digit in lower case.
fn hexadecimal_digit(byte: u8) -> Result<u8, Unread>
    ensures { Reads (HexDigit byte) result }
{
    match byte {
        b'0'..=b'9' => Ok(byte - b'0'),
        b'a'..=b'f' => Ok(byte - b'a' + 10),
        _ => Err(Unread::Malformed),
    }
}

// The bytes that pairs of hexadecimal digits write.
#[tactic(auto, using(crate::proofs::Pairs::odd_refused, crate::proofs::Pairs::all_read))]
fn hexadecimal(heap: Global, digits: &[u8]) -> Result<Vec<u8>, Unread>
    ensures { Reads (λ bytes. HexBytes digits.now bytes.items) result }
{
    if digits.len() % 2 != 0 {
        return Err(Unread::Malformed);
    }
    let mut bytes = Vec::with_capacity(heap, digits.len() / 2)?;
    // A `for`, as above.
    for pair in digits.chunks_exact(2) {
        let high = hexadecimal_digit(pair[0])?;
        let low = hexadecimal_digit(pair[1])?;
        bytes.push(high * 16 + low)?;
    }
    Ok(bytes)
}

// A value as a word writes it: nothing is made before the whole line is read.
pub(crate) trait Written: Sized + Drop {
    // What it makes.
    type Value: Drop;

    // Whether a word writes it.
    ghost written: { List ℕ → Self → Type 0 };

    ghost made: { Self → Result Self.Value Fault };

    fn read(heap: Global, word: &[u8]) -> Result<Self, Unread>
        ensures { Reads (written word.now) result };

    // Not `TryFrom`, which has no law to say what it makes.
    fn make(&self) -> Result<Self::Value, Fault>
        ensures { result ≡ made self.now };
}

// Decimal digits.
impl Written for u64 {
    type Value = u64;

    ghost written = { λ word n. Decimal word n };

    ghost made = { λ n. Result.Ok n };

    fn read(_heap: Global, word: &[u8]) -> Result<u64, Unread> {
        decimal(word).ok_or(Unread::Malformed)
    }

    fn make(&self) -> Result<u64, Fault> {
        Ok(*self)
    }
}

// Numbers with a point between two, or `-` for none.
#[derive(Drop)]
pub(crate) struct ReleaseWord {
    pub(crate) numbers: Vec<u64>,
}

impl ReleaseWord {
    // No numbers; a text has a constructor of its own, since each names its field.
    pub(crate) fn new(heap: Global) -> ReleaseWord
        ensures { result.numbers.items ≡ [] }
    {
        ReleaseWord {
            numbers: Vec::new(heap),
        }
    }
}

impl Written for ReleaseWord {
    type Value = Release;

    ghost written = { λ word v. IsReleaseWord word v.numbers.items };

    ghost made = { λ v. made_release v.numbers.items };

    fn read(heap: Global, word: &[u8]) -> Result<ReleaseWord, Unread> {
        read_list(heap, word, b'.').map(|numbers| ReleaseWord { numbers })
    }

    fn make(&self) -> Result<Release, Fault> {
        Release::new(&self.numbers)
    }
}

// `x`, and two hexadecimal digits for each byte.
#[derive(Drop)]
pub(crate) struct TextWord {
    pub(crate) bytes: Vec<u8>,
}

impl TextWord {
    pub(crate) fn new(heap: Global) -> TextWord
        ensures { result.bytes.items ≡ [] }
    {
        TextWord {
            bytes: Vec::new(heap),
        }
    }
}

impl Written for TextWord {
    type Value = Text;

    ghost written = { λ word v. IsTextWord word v.bytes.items };

    ghost made = { λ v. made_text v.bytes.items };

    fn read(heap: Global, word: &[u8]) -> Result<TextWord, Unread> {
        let [b'x', digits @ ..] = word else {
            return Err(Unread::Malformed);
        };
        hexadecimal(heap, digits).map(|bytes| TextWord { bytes })
    }

    fn make(&self) -> Result<Text, Fault> {
        Text::new(&self.bytes)
    }
}

// `*`, or `[` or `(` and a value.
impl<V: Written> Written for Bound<V> {
    type Value = Bound<V::Value>;

    ghost written = { λ word b. BoundWord V.Written.written word b };

    ghost made = { λ b. made_bound V.Written.made b };

    fn read(heap: Global, word: &[u8]) -> Result<Bound<V>, Unread> {
        match word {
            b"*" => Ok(Bound::Unbounded),
            [b'[', value @ ..] => V::read(heap, value).map(Bound::Included),
            [b'(', value @ ..] => V::read(heap, value).map(Bound::Excluded),
            _ => Err(Unread::Malformed),
        }
    }

    fn make(&self) -> Result<Bound<V::Value>, Fault> {
        match self {
            Bound::Unbounded => Ok(Bound::Unbounded),
            Bound::Included(value) => value.make().map(Bound::Included),
            Bound::Excluded(value) => value.make().map(Bound::Excluded),
        }
    }
}

// What words make: the first refusal, or all.
pub(crate) fn make_all<V: Written>(heap: Global, words: &[V]) -> Result<Vec<V::Value>, Stop> {
    words
        .iter()
        .map(|word| -> Result<V::Value, Stop> { Ok(word.make()?) })
        .try_collect(heap)
}
