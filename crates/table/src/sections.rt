ghost use Rattle.std.specs.Prelude.{◌≡◌, ℕ, ◌≤◌, pos, ◌≢◌, MatchOption, MatchResult, IfOk};
ghost use Rattle.input.specs.Faults.{told};
ghost use Rattle.table.specs.Layout.{Unheld, Laid, Broken};
ghost use Rattle.table.specs.Spans.{forms, counts_of, Placed, Reads};

use input::Fault;

// What the records of a section are: how many numbers each has, and the least and the greatest count.
#[derive(Clone, Copy)]
struct Form {
    width: usize,
    least: usize,
    most: usize,
}

/// Where the records of a section are: the index of the first number, how many records there are, and the
/// index after the last number.
#[derive(Clone, Copy, PartialEq, Eq, Debug)]
pub struct Span {
    pub start: usize,
    pub count: usize,
    pub end: usize,
}

/// The six sections of an image.
#[derive(Clone, Copy, PartialEq, Eq, Debug)]
pub struct Sections {
    pub states: Span,
    pub transitions: Span,
    pub intervals: Span,
    pub modes: Span,
    pub rules: Span,
    pub actions: Span,
}

const STATES: Form = Form {
    width: 5,
    least: 1,
    most: 4096,
};

const TRANSITIONS: Form = Form {
    width: 4,
    least: 0,
    most: 16384,
};

const INTERVALS: Form = Form {
    width: 2,
    least: 0,
    most: 8192,
};

const MODES: Form = Form {
    width: 1,
    least: 1,
    most: 64,
};

const RULES: Form = Form {
    width: 3,
    least: 1,
    most: 512,
};

const ACTIONS: Form = Form {
    width: 2,
    least: 0,
    most: 256,
};

// The number, where it is not below 0.
fn natural(number: i32) -> Option<usize>
    ensures { MatchOption result ((n : ℕ) → number ≢ pos n) (λ n. number ≡ pos n) }
{
    usize::try_from(number).ok()
}

// The section whose count stands at an index.
fn section(image: &[i32], at: usize, form: Form) -> Result<Span, Fault>
    requires narrow { form.width ≤ 5 }
    requires few { form.most ≤ 16384 }
    ensures read { MatchResult result (Reads image.now at form) (λ f. Unheld image.now at form (told f)) }
{
    let number = image.get(at).ok_or(Fault::ImageEndsEarly(image.len()))?;
    let count = natural(*number).ok_or(Fault::CountOutOfRange(at))?;
    if !(form.least..=form.most).contains(&count) {
        return Err(Fault::CountOutOfRange(at));
    }
    let start = at + 1;
    if image.len() - start < form.width * count {
        return Err(Fault::ImageEndsEarly(image.len()));
    }
    let end = start + form.width * count;
    Ok(Span { start, count, end })
}

impl Sections {
    /// The sections of an image, in order. Refuses an image that ends early, a count outside its
    /// limits, and numbers left over, whichever comes first.
    pub fn of(image: &[i32]) -> Result<Sections, Fault>
        ensures laid { MatchResult result
            (λ s. Laid forms image.now 0 (counts_of s))
            (λ f. Broken forms image.now 0 (told f)) }
        ensures placed { IfOk result Placed }
    {
        let states = section(image, 0, STATES)?;
        let transitions = section(image, states.end, TRANSITIONS)?;
        let intervals = section(image, transitions.end, INTERVALS)?;
        let modes = section(image, intervals.end, MODES)?;
        let rules = section(image, modes.end, RULES)?;
        let actions = section(image, rules.end, ACTIONS)?;
        if actions.end < image.len() {
            return Err(Fault::NumbersLeftOver(actions.end));
        }
        Ok(Sections {
            states,
            transitions,
            intervals,
            modes,
            rules,
            actions,
        })
    }
}
