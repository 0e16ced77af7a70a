ghost use Rattle.std.specs.Prelude.{◌≡◌, ◌<◌, true, length, slice_index};
ghost use Rattle.std.specs.List.{prefix_len};
ghost use Rattle.std.specs.Iterator.{YieldsFirstBy, item_count};
ghost use Rattle.decimals.specs.Words.{is_ink, is_white, left, told, words_of};

use super::{Word, Words};

// Is the byte white space?
fn is_white(byte: u8) -> bool
    ensures { result ≡ is_white byte }
{
    byte == b' ' || (b'\t'..=b'\r').contains(&byte)
}

// Is the byte one of a word, outside comments?
fn is_ink(byte: u8) -> bool
    ensures { result ≡ is_ink byte }
{
    !is_white(byte) && byte != b'#'
}

// How many bytes at the front are of a word.
fn word_len(text: &[u8]) -> usize
    ensures { result ≡ prefix_len is_ink text.now }
{
    text.iter().take_while(|byte| is_ink(**byte)).count()
}

impl<'a> Words<'a> {
    /// All the words of a text.
    pub fn of(text: &'a [u8]) -> Words<'a>
        ensures words { left result ≡ words_of text.now }
    {
        Words {
            rest: text,
            line: 1,
        }
    }

    // Goes on to the first byte of the next word, or to the text's end.
    fn skip_gap(&mut self)
        ensures words { left self.new ≡ left self.old }
        ensures ink { 0 < length self.new.rest.now → is_ink (slice_index self.new.rest.now 0) ≡ true }
    {
        // A loop: what a byte is depends on whether a comment goes on, and a line may end with it. The fields are
        // written once, after it: written at each byte they cost more than its tests.
        let mut rest = self.rest;
        let mut line = self.line;
        let mut comment = false;
        while let Some((&byte, after)) = rest.split_first() {
            match byte {
                b'\n' => {
                    line += 1;
                    comment = false;
                }
                b'#' => comment = true,
                _ if comment || is_white(byte) => {}
                _ => break,
            }
            rest = after;
        }
        self.rest = rest;
        self.line = line;
    }
}

impl<'a> Iterator for Words<'a> {
    type Item = Word<'a>;

    ghost next_gives = { YieldsFirstBy told left };

    ghost remaining = { item_count left };

    fn next(&mut self) -> Option<Word<'a>> {
        self.skip_gap();
        if self.rest.is_empty() {
            return None;
        }
        let (bytes, rest) = self.rest.split_at(word_len(self.rest));
        self.rest = rest;
        Some(Word {
            line: self.line,
            bytes,
        })
    }
}
