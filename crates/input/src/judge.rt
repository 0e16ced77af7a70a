ghost use Rattle.std.specs.Prelude.{◌≡◌, ℕ, Bool, true, false, if◌then◌else◌, nat_eq, nat_lt};
ghost use Rattle.input.specs.Judges.{seated};
ghost use Rattle.input.specs.declared.judge.Question.{Question as Asked};

/// What a judge is asked: may predicate `predicate` of rule `rule` be passed at this place, line and column?
#[derive(Clone, Copy)]
pub struct Question {
    pub rule: u16,
    pub predicate: u16,
    pub place: usize,
    pub line: u32,
    pub column: u32,
}

/// One who answers yes or no to a question. Asking changes nothing.
pub trait Judge {
    /// The answer to every question.
    ghost says: { Self → Asked → Bool };

    fn ask(&self, question: Question) -> bool
        ensures { result ≡ says self.now question };
}

/// The judge who always says yes.
#[derive(Clone, Copy)]
pub struct OpenJudge;

impl Judge for OpenJudge {
    ghost says = { λ _ _. true };

    fn ask(&self, _question: Question) -> bool {
        true
    }
}

/// Eight seats, each open or shut. It says yes exactly where the predicate is below 8 and the seat of
/// that number is open.
#[derive(Clone, Copy)]
pub struct SeatJudge {
    seats: [bool; 8],
}

impl Judge for SeatJudge {
    ghost says = { λ s q. seated s.seats q.predicate };

    fn ask(&self, question: Question) -> bool {
        self.is_open(question.predicate)
    }
}

impl SeatJudge {
    /// All seats shut.
    pub fn new() -> SeatJudge
        ensures { (n : ℕ) → seated result.seats n ≡ false }
    {
        SeatJudge { seats: [false; 8] }
    }

    /// Is there such a seat, and is it open?
    pub fn is_open(&self, seat: u16) -> bool
        ensures { result ≡ seated self.now.seats seat }
    {
        self.seats.get(usize::from(seat)).is_some_and(|open| *open)
    }

    /// Opens a seat; answers no, and changes nothing, where there is no such seat.
    pub fn open_seat(&mut self, seat: u16) -> bool
        ensures answer { result ≡ nat_lt seat 8 }
        ensures after { (n : ℕ) → seated self.new.seats n
            ≡ (if nat_eq n seat then nat_lt n 8 else seated self.old.seats n) }
    {
        self.put(seat, true)
    }

    /// Shuts a seat; answers no, and changes nothing, where there is no such seat.
    pub fn shut_seat(&mut self, seat: u16) -> bool
        ensures answer { result ≡ nat_lt seat 8 }
        ensures after { (n : ℕ) → seated self.new.seats n
            ≡ (if nat_eq n seat then false else seated self.old.seats n) }
    {
        self.put(seat, false)
    }

    // What opening and shutting share.
    fn put(&mut self, seat: u16, open: bool) -> bool
        ensures answer { result ≡ nat_lt seat 8 }
        ensures after { (n : ℕ) → seated self.new.seats n
            ≡ (if nat_eq n seat then (if nat_lt n 8 then «open» else false) else seated self.old.seats n) }
    {
        // By index: after `get_mut` nothing would be known of the other seats.
        let n = usize::from(seat);
        if n < 8 {
            self.seats[n] = open;
            true
        } else {
            false
        }
    }
}
