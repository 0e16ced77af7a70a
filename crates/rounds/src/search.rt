ghost use Rattle.std.specs.Prelude.{◌≡◌, ℕ, ◌+◌, ◌<◌, ◌≤◌, ◌↔◌, IsTrue, slice_index};
ghost use Rattle.rounds.specs.Search.{Met, Fresh, unmet, is_listed};

use crate::round::MAX_STATES;

/// The search for what a state reaches. The mark of a state that was met is one more than the state
/// searched from, so that the marks of the searches before need not be taken away. The states met are
/// the first `end` of the list: the memory is fixed, as this project takes no heap.
#[derive(Drop)]
pub struct Search {
    pub from: u16,
    pub marks: [u16; MAX_STATES],
    pub list: [u16; MAX_STATES],
    pub end: usize,
    ghost few: { from < 4096 },
    ghost fresh: { Fresh (from + 1) marks },
    ghost room: { end + unmet from marks ≤ 4096 },
    ghost met: { (j : ℕ) → j < end → Met from marks (slice_index list j) },
    ghost listed: { (k : ℕ) → Met from marks k → IsTrue (is_listed list end k) },
}

impl Search {
    ghost use Rattle.rounds.specs.Growth.{HasMet, Grown};

    // A search that has met nothing.
    pub fn new() -> Search
        ensures { Fresh 0 result.marks }
    {
        Search {
            from: 0,
            marks: [0; MAX_STATES],
            list: [0; MAX_STATES],
            end: 0,
        }
    }

    // Begins to search from `s`.
    pub fn start(&mut self, s: u16)
        requires few { s < 4096 }
        requires fresh { Fresh s self.old.marks }
        ensures from { self.new.from ≡ s }
        ensures none { (k : ℕ) → HasMet self.new k → ⊥ }
    {
        self.from = s;
        self.end = 0;
    }

    // Was `q` met?
    pub fn has_met(&self, q: u16) -> bool
        requires { q < 4096 }
        ensures { IsTrue result ↔ HasMet self.now q }
    {
        self.marks[usize::from(q)] == self.from + 1
    }

    // Meets `q`, unless it lies below the state searched from, or was met.
    pub fn visit(&mut self, q: u16)
        requires { q < 4096 }
        ensures { Grown (λ k. k ≡ q) self.old self.new }
    {
        if q < self.from || self.has_met(q) {
            return;
        }
        self.marks[usize::from(q)] = self.from + 1;
        self.list[self.end] = q;
        self.end += 1;
    }
}
