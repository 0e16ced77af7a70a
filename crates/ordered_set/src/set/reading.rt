ghost use Rattle.std.specs.Prelude.{◌≡◌, ◌<◌, length, slice_index_or};
ghost use Rattle.ordered_set.specs.Meanings.{Sought};
ghost use Rattle.ordered_set.specs.Members.{members, room};
ghost use Rattle.ordered_set.specs.Position.{position};

use super::OrderedSet;
use crate::element::Element;

impl<T: Element> OrderedSet<'_, T> {
    /// How many members there are.
    pub fn len(&self) -> usize
        ensures { result ≡ length (members self.now) }
    {
        self.len
    }

    /// How many members there is room for.
    pub fn capacity(&self) -> usize
        ensures { result ≡ room self.now }
    {
        self.items.len()
    }

    /// The member at index `i`.
    pub fn get(&self, i: usize) -> &T
        requires { i < length (members self.now) }
        ensures { result.now ≡ slice_index_or (members self.now) i result.now }
    {
        &self.as_slice()[i]
    }

    /// The members, in order.
    pub fn as_slice(&self) -> &[T]
        ensures { result.now ≡ members self.now }
    {
        &self.items[..self.len]
    }

    /// The index of the member that is equal to `x`, where there is one.
    pub fn position_of(&self, x: &T) -> Option<usize>
        ensures answers { result ≡ position T.alike x.now (members self.now) }
        ensures means { Sought x.now (members self.now) result }
    {
        self.as_slice().iter().position(|y| y.same(x))
    }
}
