ghost use Rattle.std.specs.Prelude.{◌≡◌, ◌&&◌, [], length, take, ◌==◌};
ghost use Rattle.ordered_set.specs.Adding.{added};
ghost use Rattle.std.proofs.Common.{rules};

use crate::{Added, Element, OrderedSet};

#[derive(Clone, Copy, PartialEq, Eq, Debug)]
struct Edge {
    from: u16,
    to: u16,
}

impl Element for Edge {
    ghost alike = { λ a b. (a.from == b.from) && a.to == b.to };

    ghost sound = { Prim.search rules };

    ghost complete = { Prim.search rules };

    fn same(&self, other: &Edge) -> bool {
        *self == *other
    }
}

const LOOP: Edge = Edge { from: 1, to: 1 };

const THERE: Edge = Edge { from: 1, to: 2 };

const BACK: Edge = Edge { from: 2, to: 1 };

#[test]
fn numbers_are_added_once_while_there_is_room(rt: HostRuntime) {
    let mut items = [0; 2];
    let mut set: OrderedSet<'_, u16> = OrderedSet::over(&mut items);
    assert_eq!(rt; set.capacity(), 2);
    assert_eq!(rt; set.add(7), Added::Appended(0));
    assert_eq!(rt; set.add(0), Added::Appended(1));
    assert_eq!(rt; set.add(7), Added::Found(0));
    assert_eq!(rt; set.add(9), Added::Full);
    assert_eq!(rt; set.as_slice(), [7, 0].as_slice());
}

#[test]
fn edges_differ_in_either_end(rt: HostRuntime) {
    let mut items = [LOOP; 4];
    let mut set = OrderedSet::over(&mut items);
    assert_eq!(rt; set.position_of(&LOOP), None);
    assert_eq!(rt; set.add(THERE), Added::Appended(0));
    assert_eq!(rt; set.add(BACK), Added::Appended(1));
    assert_eq!(rt; set.add(THERE), Added::Found(0));
    assert_eq!(rt; set.position_of(&BACK), Some(1));
    assert_eq!(rt; set.position_of(&LOOP), None);
    assert!(rt; set.len() == 2);
    assert_eq!(rt; *set.get(1), BACK);
}

#[test]
fn a_cleared_set_is_empty(rt: HostRuntime) {
    let mut items = [0; 2];
    let mut set: OrderedSet<'_, u16> = OrderedSet::over(&mut items);
    let _ = set.add(7);
    set.clear();
    assert_eq!(rt; set.len(), 0);
    assert_eq!(rt; set.position_of(&7), None);
    assert_eq!(rt; set.capacity(), 2);
}

// Adds `x` to a set over `items` and, once that set is gone, `y` to one that has its members.
fn add_in_two_turns<T: Element + Drop>(items: &mut [T], x: T, y: T) -> usize
    ensures { take result items.new ≡ added T.alike (length items.old) (added T.alike (length items.old) [] x) y }
{
    let mut first = OrderedSet::over(items);
    let _ = first.add(x);
    let n = first.len();
    let mut second = OrderedSet::resume(items, n);
    let _ = second.add(y);
    second.len()
}

#[test]
fn a_set_is_resumed_after_another_is_gone(rt: HostRuntime) {
    let mut items = [LOOP; 4];
    assert_eq!(rt; add_in_two_turns(&mut items, BACK, BACK), 1);
    assert_eq!(rt; add_in_two_turns(&mut items, THERE, BACK), 2);
    assert_eq!(rt; items, [THERE, BACK, LOOP, LOOP]);
}
