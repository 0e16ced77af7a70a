// Moving through a text in UTF-8.
use crate::reading::*;
use input::*;
use std::test::Fail;

// A text of sequences of one, two, three and four bytes, and where its symbols and its end are.
const TEXT: [u8; 10] = [0x61, 0xc3, 0xa9, 0xe2, 0x82, 0xac, 0xf0, 0x9d, 0x84, 0x9e];

const SYMBOLS: [(usize, i32); 5] = [(0, 0x61), (1, 0xe9), (3, 0x20ac), (6, 0x1d11e), (10, -1)];

const ELSEWHERE: [usize; 9] = [2, 4, 5, 7, 8, 9, 11, 12, 0xffff_ffff_ffff_ffff];

#[test]
fn reads_and_seeks_every_place(rt: HostRuntime) -> Result<(), Fail> {
    let mut source = Utf8Source::new();
    source.open(&TEXT)?;
    reads(&rt, &mut source, &SYMBOLS);
    seeks(&rt, &mut source, &SYMBOLS, &ELSEWHERE);
    assert!(rt; source.seek(3));
    reads(&rt, &mut source, &SYMBOLS[2..5]);
    assert!(rt; source.seek(0));
    reads(&rt, &mut source, &SYMBOLS);
    Ok(())
}

#[test]
fn a_refused_open_changes_nothing(rt: HostRuntime) -> Result<(), Fail> {
    let mut source = Utf8Source::new();
    source.open(&TEXT)?;
    assert!(rt; source.step());
    refused(&rt, source.open(&[0x61, 0x62, 0xe2, 0x82]), 7, 2)?;
    reads(&rt, &mut source, &SYMBOLS[1..5]);
    refused(&rt, source.open(&[0x80]), 7, 0)?;
    seeks(&rt, &mut source, &SYMBOLS, &ELSEWHERE);
    Ok(())
}

#[test]
fn open_again_starts_at_the_beginning(rt: HostRuntime) -> Result<(), Fail> {
    let mut source = Utf8Source::new();
    source.open(&TEXT)?;
    assert!(rt; source.seek(10));
    source.open(b"xyz")?;
    reads(
        &rt,
        &mut source,
        &[(0, 0x78), (1, 0x79), (2, 0x7a), (3, -1)],
    );
    source.open(&TEXT)?;
    reads(&rt, &mut source, &SYMBOLS);
    Ok(())
}

#[test]
fn the_empty_text_is_taken(rt: HostRuntime) -> Result<(), Fail> {
    let mut source = Utf8Source::new();
    reads(&rt, &mut source, &[(0, -1), (0, -1)]);
    seeks(&rt, &mut source, &[(0, -1)], &[1, 2]);
    source.open(b"a")?;
    source.open(&[])?;
    reads(&rt, &mut source, &[(0, -1), (0, -1)]);
    seeks(&rt, &mut source, &[(0, -1)], &[1, 2]);
    Ok(())
}

#[test]
fn a_text_is_made_of_bytes(rt: HostRuntime) -> Result<(), Fail> {
    let mut source = Utf8Source::try_from(&TEXT[..])?;
    reads(&rt, &mut source, &SYMBOLS);
    seeks(&rt, &mut source, &SYMBOLS, &ELSEWHERE);
    refused(&rt, Utf8Source::try_from(&TEXT[0..5]).map(|_| ()), 7, 3)
}
