ghost use Rattle.std.specs.Prelude.{◌≤◌, length, take};
ghost use Rattle.ordered_set.specs.Distinct.{Distinct};

mod building;
mod reading;

/// What an addition came to: an equal member was there already, at the index; or the element was
/// appended and is the member at the index; or there was no room for it.
// Three outcomes, none of them a failure: neither an `Option` nor a `Result` tells them apart.
#[derive(Clone, Copy, PartialEq, Eq, Debug)]
pub enum Added {
    Found(usize),
    Appended(usize),
    Full,
}

/// Members of which no two are equal, in the order in which they came. They are the first `len`
/// elements of a slice that the caller lends.
// A lent slice and a count, not a `Vec`: memory is fixed and lent here, and there is no heap. No `Model`: callers
// resume a set over its slice, so the clauses speak of the whole slice and its lender, and not of the members alone.
#[derive(Drop)]
pub struct OrderedSet<'a, T> {
    items: &'a mut [T],
    len: usize,
    ghost fits: { len ≤ length items.now },
    ghost distinct: { Distinct (take len items.now) },
}
