/// What a state is.
#[derive(Clone, Copy, PartialEq, Eq, Debug)]
pub enum StateKind {
    Basic,
    RuleStart,
    /// The start of a mode: its transitions lead to the rules that the mode tries.
    TokensStart,
    RuleStop,
}

/// What a transition does, or which symbols it matches. Symbols are 0 to 1,114,111, and the end of the text is −1.
#[derive(Clone, Copy, PartialEq, Eq, Debug)]
pub enum TransitionKind {
    Epsilon,
    /// Matches the symbols from `low` to `high`.
    Range { low: i32, high: i32 },
    /// Calls a rule; at its stop the match goes on at `follow_state`.
    Rule { rule: u16, follow_state: u16 },
    /// Is passed where the judge says yes.
    Predicate { rule: u16, predicate: u16 },
    /// Matches one symbol.
    Atom { label: i32 },
    /// Notes an action.
    Action { action: u16 },
    /// Matches what lies in one of the `count` intervals from `first` on.
    Set { first: u16, count: u16 },
    /// Matches every symbol but the end of the text that lies in none of them.
    NotSet { first: u16, count: u16 },
    /// Matches every symbol but the end of the text.
    Wildcard,
}

/// What is to be done with a token.
#[derive(Clone, Copy, PartialEq, Eq, Debug)]
pub enum LexerAction {
    Channel(u16),
    Mode(u16),
    More,
    PopMode,
    PushMode(u16),
    Skip,
    Type(u16),
}
