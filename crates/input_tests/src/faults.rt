// What a refusal tells.
use input::*;
use std::test::Fail;

const TOLD: [(Fault, u32, usize, Part); 15] = [
    (Fault::ImageEndsEarly(20), 1, 20, Part::Table),
    (Fault::CountOutOfRange(0), 2, 0, Part::Table),
    (Fault::NumbersLeftOver(31), 3, 31, Part::Table),
    (Fault::RecordBreaksRule(42), 4, 42, Part::Table),
    (Fault::GoesRound(53), 5, 53, Part::Table),
    (Fault::NoSuchMode(64), 6, 64, Part::Run),
    (Fault::BadSymbol(75), 7, 75, Part::Text),
    (Fault::TextTooLong, 8, 1048576, Part::Text),
    (Fault::JudgeAtEnd(86), 9, 86, Part::Run),
    (Fault::SetFull(97), 10, 97, Part::Run),
    (Fault::ReturnsFull(108), 11, 108, Part::Run),
    (Fault::ActionsFull(119), 12, 119, Part::Run),
    (Fault::PositionTooLarge(1048575), 13, 1048575, Part::Run),
    (Fault::FirstListShort(255), 14, 255, Part::Run),
    (
        Fault::SecondListShort(0xffff_ffff_ffff_ffff),
        15,
        0xffff_ffff_ffff_ffff,
        Part::Run,
    ),
];

#[test]
fn each_fault_tells_its_number_place_and_part(rt: HostRuntime) {
    for (fault, number, place, part) in TOLD {
        assert_eq!(rt;
            fault.told(),
            Notice {
                number,
                place,
                part,
            }
        );
    }
}

const LINES: [(Fault, &str); 4] = [
    (
        Fault::RecordBreaksRule(0),
        "refused 4 at 0 in table: a record of the table breaks a rule",
    ),
    (
        Fault::BadSymbol(3),
        "refused 7 at 3 in text: not a symbol, or not well-formed UTF-8",
    ),
    (
        Fault::TextTooLong,
        "refused 8 at 1048576 in text: longer than 1048576 numbers or bytes",
    ),
    (
        Fault::SetFull(12),
        "refused 10 at 12 in run: more than 256 configurations",
    ),
];

#[test]
fn a_fault_reads_as_a_line(rt: HostRuntime) -> Result<(), Fail> {
    let heap = rt.alloc();
    for (fault, line) in LINES {
        let text = fault.to_string(heap)?;
        assert_eq!(rt; text.as_str(), line);
    }
    Ok(())
}
