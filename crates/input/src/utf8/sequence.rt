ghost use Rattle.std.specs.Prelude.{◌≡◌, ◌+◌, ◌%◌, ◌<◌, ◌≤◌, ◌↔◌, length, slice_index, IsTrue, MatchOption};
ghost use Rattle.input.specs.Rows.{Follows, Tail};
ghost use Rattle.input.specs.Utf8.{Readable, Stands, read_at, size_at};

// A slice and a place in it, not a source: all but `read_at` are asked while the bytes are checked, before there is one.

// Does the byte go on with a sequence?
fn is_tail(b: u8) -> bool
    ensures { IsTrue result ↔ Tail b }
{
    (0x80..=0xbf).contains(&b)
}

// May b stand second, after the first byte a of a sequence of three or four?
fn may_follow(a: u8, b: u8) -> bool
    ensures { IsTrue result ↔ Follows a b }
{
    match a {
        0xe0 => (0xa0..=0xbf).contains(&b),
        0xed => (0x80..=0x9f).contains(&b),
        0xf0 => (0x90..=0xbf).contains(&b),
        0xf4 => (0x80..=0x8f).contains(&b),
        _ => is_tail(b),
    }
}

// Does a byte that goes on with a sequence stand at a place?
pub fn tail_at(bytes: &[u8], at: usize) -> bool
    ensures { IsTrue result ↔ Tail (slice_index bytes.now at) }
{
    bytes.get(at).is_some_and(|b| is_tail(*b))
}

// Of a sequence of three or four that begins at a place: may its second byte stand there?
fn second_at(bytes: &[u8], at: usize) -> bool
    requires few { length bytes.now ≤ 1048576 }
    requires inside { at < length bytes.now }
    ensures { IsTrue result ↔ Follows (slice_index bytes.now at) (slice_index bytes.now (at + 1)) }
{
    let first = bytes[at];
    bytes.get(at + 1).is_some_and(|b| may_follow(first, *b))
}

/// The size of the well-formed sequence that begins at a place, or nothing where none does.
#[tactic(auto, using(crate::proofs::Sequences::sizes_by_bytes))]
pub fn size_at(bytes: &[u8], at: usize) -> Option<usize>
    requires few { length bytes.now ≤ 1048576 }
    requires inside { at < length bytes.now }
    ensures { MatchOption result (size_at bytes.now at ≡ 0) (λ n. (n ≡ size_at bytes.now at) × (0 < n)) }
{
    // By place: as patterns of the slice `bytes[at..]` the same rows left twenty goals open.
    match bytes[at] {
        0x00..=0x7f => Some(1),
        0xc2..=0xdf if tail_at(bytes, at + 1) => Some(2),
        0xe0..=0xef if second_at(bytes, at) && tail_at(bytes, at + 2) => Some(3),
        0xf0..=0xf4 if second_at(bytes, at) && tail_at(bytes, at + 2) && tail_at(bytes, at + 3) =>
            Some(4),
        _ => None,
    }
}

/// The symbol that begins at a place of a text and its size in bytes, or nothing at the end.
#[tactic(auto, using(crate::proofs::Leads::reads_by_ones))]
pub fn read_at(bytes: &[u8], at: usize) -> Option<(u32, usize)>
    requires text { Readable bytes.now }
    requires place { Stands bytes.now at }
    ensures { result ≡ read_at bytes.now at }
{
    if at >= bytes.len() {
        return None;
    }
    let first = u32::from(bytes[at]);
    // By the count of ones, which is one jump: by ranges of the first byte, as above, a symbol of Chinese took
    // 3.2 ns and not 2.2, and one of mixed scripts 9.7 ns and not 8.4 (a Latin one 1.3 ns and not 1.6).
    match bytes[at].leading_ones() {
        0 => Some((first, 1)),
        2 => Some((first % 32 * 64 + low_six(bytes[at + 1]), 2)),
        3 => Some((
            first % 16 * 4096 + low_six(bytes[at + 1]) * 64 + low_six(bytes[at + 2]),
            3,
        )),
        _ => Some((
            first % 8 * 262144
                + low_six(bytes[at + 1]) * 4096
                + low_six(bytes[at + 2]) * 64
                + low_six(bytes[at + 3]),
            4,
        )),
    }
}

// What a byte that goes on with a sequence adds to its symbol.
fn low_six(b: u8) -> u32
    ensures { result ≡ b % 64 }
{
    u32::from(b % 64)
}
