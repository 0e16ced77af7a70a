ghost use Rattle.std.specs.Prelude.{◌≡◌, ◌≤◌, [], length, take};
ghost use Rattle.ordered_set.specs.Adding.{added, answer, written};
ghost use Rattle.ordered_set.specs.Distinct.{Distinct};
ghost use Rattle.ordered_set.specs.Meanings.{Outcome};
ghost use Rattle.ordered_set.specs.Members.{members, room, slice};

use super::{Added, OrderedSet};
use crate::element::Element;

impl<'a, T: Element + Drop> OrderedSet<'a, T> {
    /// The empty set over a slice, whatever the slice holds.
    pub fn over(items: &'a mut [T]) -> Self
        ensures empty { members result ≡ [] }
        ensures holds { slice result ≡ items.old }
        ensures lender { result.items.ghost_name ≡ items.entry.ghost_name }
    {
        OrderedSet { items, len: 0 }
    }

    /// The set over a slice of which the first `len` elements are its members already, as an
    /// earlier set over the same slice left them.
    pub fn resume(items: &'a mut [T], len: usize) -> Self
        requires fits { len ≤ length items.old }
        requires distinct { Distinct (take len items.old) }
        ensures keeps { members result ≡ take len items.old }
        ensures holds { slice result ≡ items.old }
        ensures lender { result.items.ghost_name ≡ items.entry.ghost_name }
    {
        OrderedSet { items, len }
    }

    /// Forgets the members.
    pub fn clear(&mut self)
        ensures empty { members self.new ≡ [] }
        ensures holds { slice self.new ≡ slice self.old }
        ensures lender { self.new.items.ghost_name ≡ self.old.items.ghost_name }
    {
        self.len = 0;
    }

    /// Appends `x`, unless an equal member is there or there is no room: then nothing changes.
    pub fn add(&mut self, x: T) -> Added
        ensures answers { result ≡ answer T.alike (room self.old) (members self.old) x }
        ensures adds { members self.new ≡ added T.alike (room self.old) (members self.old) x }
        ensures means { Outcome x (room self.old) (members self.old) (members self.new) result }
        ensures room { room self.new ≡ room self.old }
        ensures holds { slice self.new ≡ written result (slice self.old) x }
        ensures lender { self.new.items.ghost_name ≡ self.old.items.ghost_name }
    {
        if let Some(at) = self.position_of(&x) {
            return Added::Found(at);
        }
        let at = self.len;
        if at < self.items.len() {
            self.items[at] = x;
            self.len = at + 1;
            Added::Appended(at)
        } else {
            Added::Full
        }
    }
}
