ghost use Rattle.std.specs.Prelude.{◌+◌, ◌^◌, ◌<◌, length};

mod methods;

/// A word, and the line that it stands in, counted from 1.
#[derive(Clone, Copy)]
pub struct Word<'a> {
    pub line: usize,
    pub bytes: &'a [u8],
}

/// The words of a text that are still to come: what is left of the text, and the line that it begins in.
#[derive(Drop)]
pub struct Words<'a> {
    rest: &'a [u8],
    line: usize,
    ghost small: { line + length rest.now < 2 ^ 64 },
}
