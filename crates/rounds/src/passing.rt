/// How a transition is passed: silently, by a call of a rule, or only by reading a symbol.
#[derive(Clone, Copy, PartialEq, Eq, Debug)]
pub enum Passing {
    Silent,
    Call,
    Reads,
}
