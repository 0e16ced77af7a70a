ghost use Rattle.std.specs.Prelude.{◌^◌, ◌<◌, ◌≤◌, length};

mod methods;

/// The lines of a recording that are still to come.
// An index into the recording, not what is left of it: the promises are about the whole recording.
#[derive(Drop)]
pub struct Lines<'a> {
    recording: &'a [u8],
    at: usize,
    ghost inside: { at ≤ length recording.now },
    ghost small: { length recording.now < 2 ^ 64 },
}
