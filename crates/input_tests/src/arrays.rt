// A text that is an array of symbols.
use crate::reading::*;
use input::*;
use std::test::Fail;

const TEXT: [u32; 4] = [0, 0xd800, 1114111, 0x61];

const SYMBOLS: [(usize, i32); 5] = [(0, 0), (1, 0xd800), (2, 1114111), (3, 0x61), (4, -1)];

#[test]
fn numbers_are_symbols_and_indices_places(rt: HostRuntime) -> Result<(), Fail> {
    let mut source = ArraySource::new();
    reads(&rt, &mut source, &[(0, -1), (0, -1)]);
    source.open(&TEXT)?;
    reads(&rt, &mut source, &SYMBOLS);
    reads(&rt, &mut source, &[(4, -1)]);
    seeks(&rt, &mut source, &SYMBOLS, &[5, 6, 0xffff_ffff_ffff_ffff]);
    assert!(rt; source.seek(1));
    reads(&rt, &mut source, &SYMBOLS[1..5]);
    Ok(())
}

// Texts with a number that is no symbol, and the index of the first.
const BAD: [(&[u32], usize); 5] = [
    (&[1114112], 0),
    (&[1114111, 1114112], 1),
    (&[0, 0xffff_ffff], 1),
    (&[0, 1, 1114112, 1114113], 2),
    (&[0xdfff, 0xd800, 0, 0x8000_0000], 3),
];

#[test]
fn a_refused_open_changes_nothing(rt: HostRuntime) -> Result<(), Fail> {
    for (numbers, index) in BAD {
        let mut source = ArraySource::new();
        source.open(&TEXT)?;
        assert!(rt; source.step());
        refused(&rt, source.open(numbers), 7, index)?;
        reads(&rt, &mut source, &SYMBOLS[1..5]);
        seeks(&rt, &mut source, &SYMBOLS, &[5]);
    }
    Ok(())
}

#[test]
fn open_again_starts_at_the_beginning(rt: HostRuntime) -> Result<(), Fail> {
    let mut source = ArraySource::new();
    source.open(&TEXT)?;
    assert!(rt; source.seek(4));
    source.open(&[7, 8])?;
    reads(&rt, &mut source, &[(0, 7), (1, 8), (2, -1)]);
    source.open(&[])?;
    seeks(&rt, &mut source, &[(0, -1)], &[1, 2]);
    Ok(())
}

#[test]
fn a_text_is_made_of_numbers(rt: HostRuntime) -> Result<(), Fail> {
    let mut source = ArraySource::try_from(&TEXT[..])?;
    reads(&rt, &mut source, &SYMBOLS);
    for (numbers, index) in BAD {
        refused(&rt, ArraySource::try_from(numbers).map(|_| ()), 7, index)?;
    }
    Ok(())
}
