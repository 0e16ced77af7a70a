ghost use Rattle.std.specs.Prelude.{◌≡◌, ◌+◌, ◌<◌};
ghost use Rattle.rounds.specs.Rounds.{Graph};
ghost use Rattle.rounds.specs.declared.passing.Passing.TheVariants.{Call};

use crate::passing::Passing;

/// What an automaton with calls answers of its states and transitions, which go by numbers.
pub trait Automaton {
    // The automaton, as a graph.
    ghost graph: { Self → Graph };

    /// How many states there are.
    fn states(&self) -> usize
        ensures { result ≡ (graph self.now).states };

    /// The first transition of a state.
    fn first(&self, s: usize) -> usize
        requires { s < (graph self.now).states }
        ensures { result ≡ (graph self.now).first s };

    /// The end of the transitions of a state: one past the last.
    fn end(&self, s: usize) -> usize
        requires { s < (graph self.now).states }
        ensures { result ≡ (graph self.now).first s + (graph self.now).count s };

    /// Is the state a stop, where a called rule ends?
    fn stops(&self, s: usize) -> bool
        requires { s < (graph self.now).states }
        ensures { result ≡ (graph self.now).stop s };

    /// How the transition is passed.
    fn passing(&self, t: usize) -> Passing
        requires { t < (graph self.now).transitions }
        ensures { result ≡ (graph self.now).passing t };

    /// The state that the transition leads to; of a call, the start of the rule.
    fn target(&self, t: usize) -> u16
        requires { t < (graph self.now).transitions }
        ensures { result ≡ (graph self.now).target t };

    /// The state that a call comes back to.
    fn return_state(&self, t: usize) -> u16
        requires within { t < (graph self.now).transitions }
        requires call { (graph self.now).passing t ≡ Call }
        ensures { result ≡ (graph self.now).return_state t };
}
