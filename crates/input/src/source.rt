ghost use Rattle.std.specs.Prelude.{◌≡◌};
ghost use Rattle.input.specs.Text.{Text, Good, coming, more, stepped, place_of, Sought};

/// The most numbers or bytes that a text may have.
pub const MAX_LENGTH: usize = 1_048_576;

/// The largest symbol; the smallest is 0.
pub const MAX_SYMBOL: u32 = 1_114_111;

/// A text that is read symbol by symbol. Its symbols are numbers from 0 to 1,114,111, each with a place.
pub trait Source {
    /// The whole text, and how many of its symbols are read.
    ghost text: { Self → Text };

    /// The next symbol, or -1 at the end.
    // Not an `Option`: -1 is the mark that ANTLR's streams give, and that the transitions of a table match.
    fn look(&self) -> i32
        ensures { result ≡ coming (text self.now) };

    /// Reads one symbol; at the end it answers no and reads nothing.
    fn step(&mut self) -> bool
        ensures answer { result ≡ more (text self.old) }
        ensures moved { text self.new ≡ stepped (text self.old) };

    /// The place of the next symbol, or of the end.
    fn place(&self) -> usize
        ensures { result ≡ place_of (text self.now) (text self.now).read };

    /// Goes to the place of a symbol or of the end; at any other it answers no and changes nothing.
    fn seek(&mut self, place: usize) -> bool
        ensures { Sought (text self.old) place result (text self.new) };

    // What holds of the text of every source.
    ghost good: { (s : Self) → Good (text s) };
}
