// The bytes that are well-formed, and those beside them.
use crate::reading::*;
use std::process::Abort;
use std::test::Fail;

// The rows of the Unicode Standard's table of well-formed byte sequences: how many bytes, the least
// byte at each place, the greatest, and the first symbol and the last.
const ROWS: [(usize, [u8; 4], [u8; 4], i32, i32); 9] = [
    (1, [0x00, 0, 0, 0], [0x7f, 0, 0, 0], 0, 0x7f),
    (2, [0xc2, 0x80, 0, 0], [0xdf, 0xbf, 0, 0], 0x80, 0x7ff),
    (
        3,
        [0xe0, 0xa0, 0x80, 0],
        [0xe0, 0xbf, 0xbf, 0],
        0x800,
        0xfff,
    ),
    (
        3,
        [0xe1, 0x80, 0x80, 0],
        [0xec, 0xbf, 0xbf, 0],
        0x1000,
        0xcfff,
    ),
    (
        3,
        [0xed, 0x80, 0x80, 0],
        [0xed, 0x9f, 0xbf, 0],
        0xd000,
        0xd7ff,
    ),
    (
        3,
        [0xee, 0x80, 0x80, 0],
        [0xef, 0xbf, 0xbf, 0],
        0xe000,
        0xffff,
    ),
    (
        4,
        [0xf0, 0x90, 0x80, 0x80],
        [0xf0, 0xbf, 0xbf, 0xbf],
        0x10000,
        0x3ffff,
    ),
    (
        4,
        [0xf1, 0x80, 0x80, 0x80],
        [0xf3, 0xbf, 0xbf, 0xbf],
        0x40000,
        0xfffff,
    ),
    (
        4,
        [0xf4, 0x80, 0x80, 0x80],
        [0xf4, 0x8f, 0xbf, 0xbf],
        0x100000,
        0x10ffff,
    ),
];

#[test]
fn edges_of_each_row_are_taken(rt: HostRuntime) -> Result<(), Fail> {
    for (size, low, high, first, last) in ROWS {
        assert!(rt; size <= 4);
        takes(&rt, &low[0..size], first)?;
        takes(&rt, &high[0..size], last)?;
    }
    Ok(())
}

// Sequences with some bytes at the low edge and some at the high one, and first bytes a step from a row.
const MIXED: [(&[u8], i32); 20] = [
    (&[0xc2, 0xbf], 0xbf),
    (&[0xdf, 0x80], 0x7c0),
    (&[0xe0, 0xa0, 0xbf], 0x83f),
    (&[0xe0, 0xbf, 0x80], 0xfc0),
    (&[0xe1, 0x80, 0xbf], 0x103f),
    (&[0xe1, 0xa0, 0x80], 0x1800),
    (&[0xe1, 0xbf, 0x80], 0x1fc0),
    (&[0xec, 0x80, 0x80], 0xc000),
    (&[0xec, 0xa0, 0x80], 0xc800),
    (&[0xed, 0x80, 0xbf], 0xd03f),
    (&[0xed, 0x9f, 0x80], 0xd7c0),
    (&[0xee, 0xa0, 0x80], 0xe800),
    (&[0xef, 0x80, 0xbf], 0xf03f),
    (&[0xf0, 0x90, 0x80, 0xbf], 0x1003f),
    (&[0xf0, 0x90, 0xbf, 0x80], 0x10fc0),
    (&[0xf0, 0xbf, 0x80, 0x80], 0x3f000),
    (&[0xf1, 0x90, 0x80, 0x80], 0x50000),
    (&[0xf3, 0x80, 0x80, 0x80], 0xc0000),
    (&[0xf4, 0x80, 0xbf, 0xbf], 0x100fff),
    (&[0xf4, 0x8f, 0x80, 0x80], 0x10f000),
];

#[test]
fn mixed_edges_are_taken(rt: HostRuntime) -> Result<(), Fail> {
    for (bytes, symbol) in MIXED {
        takes(&rt, bytes, symbol)?;
    }
    Ok(())
}

// The sequence is refused with the byte b at place i.
fn refuses_with(
    rt: &impl Abort,
    mut bytes: [u8; 4],
    size: usize,
    i: usize,
    b: u8,
) -> Result<(), Fail> {
    assert!(rt; i < 4);
    assert!(rt; size <= 4);
    bytes[i] = b;
    refuses(rt, &bytes[0..size], 0)
}

#[test]
fn a_step_past_each_edge_is_refused(rt: HostRuntime) -> Result<(), Fail> {
    for (size, low, high, _, _) in ROWS {
        assert!(rt; size <= 4);
        for i in 1..size {
            let below = low[i].wrapping_sub(1);
            let above = high[i].wrapping_add(1);
            refuses_with(&rt, low, size, i, below)?;
            refuses_with(&rt, low, size, i, above)?;
            refuses_with(&rt, high, size, i, below)?;
            refuses_with(&rt, high, size, i, above)?;
        }
    }
    Ok(())
}

// Bytes whose first is a step past the edge of a row, and the place of the refusal.
const BESIDE: [(&[u8], usize); 19] = [
    (&[0x80], 0),
    (&[0xc1, 0x80], 0),
    (&[0xc1, 0xbf], 0),
    (&[0xe0, 0x80], 0),
    (&[0xe0, 0xbf], 0),
    (&[0xdf, 0xa0, 0x80], 2),
    (&[0xdf, 0xbf, 0xbf], 2),
    (&[0xe0, 0x80, 0x80], 0),
    (&[0xe0, 0x9f, 0xbf], 0),
    (&[0xed, 0xa0, 0x80], 0),
    (&[0xed, 0xbf, 0xbf], 0),
    (&[0xf0, 0x80, 0x80], 0),
    (&[0xf0, 0xbf, 0xbf], 0),
    (&[0xef, 0x90, 0x80, 0x80], 3),
    (&[0xf0, 0x80, 0x80, 0x80], 0),
    (&[0xf0, 0x8f, 0xbf, 0xbf], 0),
    (&[0xf4, 0x90, 0x80, 0x80], 0),
    (&[0xf4, 0xbf, 0xbf, 0xbf], 0),
    (&[0xf5, 0x80, 0x80, 0x80], 0),
];

// A byte that goes on with no sequence, overlong forms of 0 and others, and the first bad place of several.
const BROKEN: [(&[u8], usize); 10] = [
    (&[0x61, 0x80], 1),
    (&[0x61, 0xbf, 0xbf], 1),
    (&[0xc3, 0xa9, 0x80], 2),
    (&[0xe2, 0x82, 0xac, 0xbf], 3),
    (&[0xf0, 0x9d, 0x84, 0x9e, 0x80], 4),
    (&[0xc0, 0x80], 0),
    (&[0xc0, 0xaf], 0),
    (&[0x61, 0xff, 0x61, 0xff], 1),
    (&[0xc3, 0x61], 0),
    (&[0x61, 0xed, 0xa0, 0x80], 1),
];

#[test]
fn first_bytes_beside_a_row_are_refused(rt: HostRuntime) -> Result<(), Fail> {
    for (bytes, place) in BESIDE {
        refuses(&rt, bytes, place)?;
    }
    for (bytes, place) in BROKEN {
        refuses(&rt, bytes, place)?;
    }
    Ok(())
}

// No sequence begins with the byte, whatever follows.
fn begins_none(rt: &impl Abort, b: u8) -> Result<(), Fail> {
    refuses(rt, &[b], 0)?;
    refuses(rt, &[b, 0x80, 0x80, 0x80], 0)?;
    refuses(rt, &[b, 0xbf, 0xbf, 0xbf], 0)?;
    refuses(rt, &[0x61, b, 0x61], 1)
}

#[test]
fn bytes_that_begin_no_sequence_are_refused(rt: HostRuntime) -> Result<(), Fail> {
    for b in 0x80..0xc2 {
        begins_none(&rt, b)?;
    }
    for b in 0xf5..=0xff {
        begins_none(&rt, b)?;
    }
    Ok(())
}

// Each proper front of the sequence is refused, alone and after another symbol.
fn refuses_fronts(rt: &impl Abort, bytes: [u8; 4], size: usize) -> Result<(), Fail> {
    assert!(rt; size <= 4);
    let [a, b, c, _] = bytes;
    let after = [0x61, a, b, c];
    for n in 2..=size {
        refuses(rt, &after[1..n], 0)?;
        refuses(rt, &after[0..n], 1)?;
    }
    Ok(())
}

#[test]
fn fronts_of_sequences_are_refused(rt: HostRuntime) -> Result<(), Fail> {
    for (size, low, high, _, _) in ROWS {
        refuses_fronts(&rt, low, size)?;
        refuses_fronts(&rt, high, size)?;
    }
    Ok(())
}
