// Who says yes, and who no.
use input::*;
use std::process::Abort;

fn about(predicate: u16) -> [Question; 3] {
    [
        Question {
            rule: 0,
            predicate,
            place: 0,
            line: 1,
            column: 0,
        },
        Question {
            rule: predicate,
            predicate,
            place: 1048576,
            line: 2000000000,
            column: 2000000000,
        },
        Question {
            rule: 65535,
            predicate,
            place: 7,
            line: 3,
            column: 7,
        },
    ]
}

// Whatever else the question holds, the judge answers so at the predicate.
fn answers<J: Judge>(rt: &impl Abort, judge: &J, predicate: u16, yes: bool) {
    for question in about(predicate) {
        assert_eq!(rt; judge.ask(question), yes, "{}", predicate);
    }
}

#[test]
fn the_open_judge_says_yes(rt: HostRuntime) {
    for predicate in [0, 1, 7, 8, 9, 65535] {
        answers(&rt, &OpenJudge, predicate, true);
    }
}

// The seats from `first` on and below `end` are open, and no others.
fn open_are(rt: &impl Abort, judge: &SeatJudge, first: u16, end: u16) {
    for seat in [0, 1, 2, 3, 4, 5, 6, 7, 8, 9, 15, 256, 65535] {
        let is_open = first <= seat && seat < end;
        assert_eq!(rt; judge.is_open(seat), is_open, "{}", seat);
        answers(rt, judge, seat, is_open);
    }
}

#[test]
fn seats_open_and_shut_one_by_one(rt: HostRuntime) {
    let mut judge = SeatJudge::new();
    open_are(&rt, &judge, 0, 0);
    for seat in 0..8 {
        assert!(rt; judge.open_seat(seat));
        open_are(&rt, &judge, 0, seat + 1);
    }
    for seat in 0..8 {
        assert!(rt; judge.shut_seat(seat));
        open_are(&rt, &judge, seat + 1, 8);
    }
}

#[test]
fn an_open_seat_stays_open_and_a_shut_one_shut(rt: HostRuntime) {
    let mut judge = SeatJudge::new();
    assert!(rt; judge.open_seat(3));
    assert!(rt; judge.open_seat(3));
    assert!(rt; judge.shut_seat(5));
    open_are(&rt, &judge, 3, 4);
}

#[test]
fn there_are_eight_seats(rt: HostRuntime) {
    let mut judge = SeatJudge::new();
    assert!(rt; judge.open_seat(7));
    for seat in [8, 9, 263, 65535] {
        assert!(rt; !judge.open_seat(seat));
        open_are(&rt, &judge, 7, 8);
        assert!(rt; !judge.shut_seat(seat));
        open_are(&rt, &judge, 7, 8);
    }
}
