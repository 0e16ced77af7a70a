use image::{StateKind, TransitionKind};

/// A state. Its transitions are the `count` ones from `first` on.
#[derive(Clone, Copy, PartialEq, Eq, Debug)]
pub struct State {
    pub kind: StateKind,
    /// The rule that the state belongs to; 0 at the start of a mode, which belongs to none.
    // No `Option`: the meaning of a table has 0 there, and no call asks for it.
    pub rule: u16,
    /// A decision that would rather leave than go on.
    pub non_greedy: bool,
    pub first: u16,
    pub count: u16,
}

/// A transition: what it does, and the state that it leads to; a call leads to the start of its rule.
#[derive(Clone, Copy, PartialEq, Eq, Debug)]
pub struct Transition {
    pub kind: TransitionKind,
    pub target: u16,
}

/// A rule: its start, its stop, and the type of its tokens.
#[derive(Clone, Copy, PartialEq, Eq, Debug)]
pub struct Rule {
    pub start: u16,
    pub stop: u16,
    pub token_type: u16,
}
