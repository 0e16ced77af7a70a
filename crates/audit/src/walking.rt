ghost use Rattle.std.specs.Prelude.{◌≡◌, length};
ghost use Rattle.audit.specs.Walks.{occurs};
ghost use Rattle.input.specs.Text.{read_to, rest};

use input::Source;

// The line feed.
const FEED: i32 = b'\n' as i32;

/// How many symbols a walk read, and how many of them were line feeds.
#[derive(Clone, Copy, PartialEq, Eq, Debug)]
pub struct Walked {
    pub symbols: usize,
    pub feeds: usize,
}

/// Reads a source to its end, symbol by symbol.
pub fn walk<S: Source>(source: &mut S) -> Walked
    ensures symbols { result.symbols ≡ length (rest (S.text source.old)) }
    ensures feeds { result.feeds ≡ occurs 10 (rest (S.text source.old)) }
    ensures ended { S.text source.new ≡ read_to (S.text source.old) (length (S.text source.old).symbols) }
{
    let mut symbols = 0;
    let mut feeds = 0;
    // A source is looked at and then stepped over, and can go back: it is no `Iterator`.
    loop {
        let symbol = source.look();
        if symbol < 0 {
            return Walked { symbols, feeds };
        }
        if symbol == FEED {
            feeds += 1;
        }
        symbols += 1;
        source.step();
    }
}
