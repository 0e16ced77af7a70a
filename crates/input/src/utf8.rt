ghost use Rattle.std.specs.Prelude.{◌≡◌, MatchResult, OnOk, OnErr, IfErr};
ghost use Rattle.input.specs.Agreement.{Agrees};
ghost use Rattle.input.specs.Faults.{told};
ghost use Rattle.input.specs.Places.{good_bytes};
ghost use Rattle.input.specs.Text.{empty_text};
ghost use Rattle.input.specs.Utf8.{Readable, Refused, Stands, of_bytes, text_of};

use crate::fault::Fault;
use crate::source::{MAX_LENGTH, Source};

mod sequence;

use sequence::{read_at, size_at, tail_at};

/// A text in UTF-8. The places are the offsets of bytes.
// An index into the whole, and not the rest of it: a source can go back.
#[derive(Drop)]
pub struct Utf8Source<'a> {
    bytes: &'a [u8],
    at: usize,
    ghost readable: { Readable bytes.now },
    ghost stands: { Stands bytes.now at },
}

// Refuses more than 1,048,576 bytes, and then the first place where a well-formed sequence should begin
// and none does. A loop, since a step is as long as its sequence. Not the library's `from_utf8`: the promise is about
// the rows of the table in docs/TEXT.md, and that both say the same is what the clause `agrees` proves.
#[tactic(auto, using(crate::proofs::Stops::stops))]
fn check(bytes: &[u8]) -> Result<(), Fault>
    ensures { MatchResult result (λ _. Readable bytes.now) (λ f. Refused bytes.now (told f)) }
{
    if bytes.len() > MAX_LENGTH {
        return Err(Fault::TextTooLong);
    }
    let mut at = 0;
    while at < bytes.len() {
        at += size_at(bytes, at).ok_or(Fault::BadSymbol(at))?;
    }
    Ok(())
}

impl<'a> Utf8Source<'a> {
    /// A source of the empty text.
    #[tactic(auto, unfolding(crate::specs::Utf8::places_of, crate::specs::Utf8::stop_of))]
    pub fn new() -> Utf8Source<'a>
        ensures { of_bytes result.bytes.now result.at ≡ empty_text }
    {
        Utf8Source { bytes: &[], at: 0 }
    }

    /// Takes up a text, from its start. Refuses more than 1,048,576 bytes, and then the first place
    /// where a well-formed sequence should begin and none does; the source is then as it was.
    // Like an array's, over another rule of what a text is: one source for both would be no plainer, as it would have
    // to be told the rule.
    pub fn open(&mut self, bytes: &'a [u8]) -> Result<(), Fault>
        ensures readable { OnOk result (Readable bytes.now) }
        ensures text { OnOk result (of_bytes self.new.bytes.now self.new.at ≡ text_of bytes.now) }
        ensures refused { IfErr result (λ f. Refused bytes.now (told f)) }
        ensures unchanged { OnErr result (self.new ≡ self.old) }
        ensures agrees { Agrees bytes.now result }
    {
        check(bytes)?;
        self.bytes = bytes;
        self.at = 0;
        Ok(())
    }
}

/// A text from its start, or why the bytes are none: more than 1,048,576, or else the first place
/// where a well-formed sequence should begin and none does.
impl<'a> TryFrom<&'a [u8]> for Utf8Source<'a> {
    type Error = Fault;

    ghost try_from_gives = { λ bytes r. MatchResult r
        (λ s. Readable bytes.now × (of_bytes s.bytes.now s.at ≡ text_of bytes.now))
        (λ f. Refused bytes.now (told f))
        × Agrees bytes.now r };

    fn try_from(bytes: &'a [u8]) -> Result<Utf8Source<'a>, Fault> {
        let mut source = Utf8Source::new();
        source.open(bytes)?;
        Ok(source)
    }
}

impl<'a> Source for Utf8Source<'a> {
    ghost text = { λ s. of_bytes s.bytes.now s.at };

    ghost good = { λ s. good_bytes s.bytes.now s.at s.readable };

    #[tactic(auto, using(crate::proofs::Methods::methods))]
    fn look(&self) -> i32 {
        match read_at(self.bytes, self.at) {
            Some((symbol, _)) => symbol as i32,
            None => -1,
        }
    }

    #[tactic(auto, using(crate::proofs::Methods::methods))]
    fn step(&mut self) -> bool {
        match read_at(self.bytes, self.at) {
            Some((_, size)) => {
                self.at += size;
                true
            }
            None => false,
        }
    }

    fn place(&self) -> usize {
        self.at
    }

    #[tactic(auto, using(crate::proofs::Methods::methods))]
    fn seek(&mut self, place: usize) -> bool {
        if place > self.bytes.len() {
            return false;
        }
        if tail_at(self.bytes, place) {
            return false;
        }
        self.at = place;
        true
    }
}
