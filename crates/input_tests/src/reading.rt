// What the tests of the sources share.
use input::*;
use std::process::Abort;
use std::test::Fail;

// From where it stands, the source has these symbols at these places; -1 is the end.
pub fn reads<S: Source>(rt: &impl Abort, source: &mut S, symbols: &[(usize, i32)]) {
    for (place, symbol) in symbols {
        assert_eq!(rt; source.place(), *place);
        assert_eq!(rt; source.look(), *symbol);
        assert_eq!(rt; source.step(), *symbol >= 0);
    }
}

// The source goes to each of the places of the text, and from there to none that is not one.
pub fn seeks<S: Source>(
    rt: &impl Abort,
    source: &mut S,
    symbols: &[(usize, i32)],
    elsewhere: &[usize],
) {
    for (place, symbol) in symbols {
        assert!(rt; source.seek(*place), "{}", place);
        assert_eq!(rt; source.place(), *place);
        assert_eq!(rt; source.look(), *symbol);
        stays(rt, source, elsewhere);
    }
}

fn stays<S: Source>(rt: &impl Abort, source: &mut S, elsewhere: &[usize]) {
    let place = source.place();
    let symbol = source.look();
    for other in elsewhere {
        assert!(rt; !source.seek(*other), "{}", other);
        assert_eq!(rt; source.place(), place);
        assert_eq!(rt; source.look(), symbol);
    }
}

// The text was refused, for this reason and at this place.
pub fn refused(
    rt: &impl Abort,
    answer: Result<(), Fault>,
    number: u32,
    place: usize,
) -> Result<(), Fail> {
    match answer {
        Ok(()) => Err(Fail::new("the text was taken")),
        Err(fault) => {
            assert_eq!(rt;
                fault.told(),
                Notice {
                    number,
                    place,
                    part: Part::Text,
                }
            );
            Ok(())
        },
    }
}

// The bytes are one symbol.
pub fn takes(rt: &impl Abort, bytes: &[u8], symbol: i32) -> Result<(), Fail> {
    let end = bytes.len();
    let mut source = Utf8Source::new();
    source.open(bytes)?;
    reads(rt, &mut source, &[(0, symbol), (end, -1), (end, -1)]);
    Ok(())
}

// A sequence should begin at this place, and none does.
pub fn refuses(rt: &impl Abort, bytes: &[u8], place: usize) -> Result<(), Fail> {
    let mut source = Utf8Source::new();
    let answer = source.open(bytes);
    assert!(rt; answer.is_err(), "{bytes:?}");
    refused(rt, answer, 7, place)
}
