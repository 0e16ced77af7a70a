ghost use Rattle.std.specs.Prelude.{◌≡◌, Bool, true, nat_eq};
ghost use Rattle.std.proofs.Common.{rules};

/// A value that a set can hold: sameness answers yes exactly when two elements are equal.
// Not the library's `Eq`, which promises an equivalence: elements that it calls equal may still differ.
pub trait Element: Sized {
    // What `same` answers, as a function of the two elements.
    ghost alike: { Self → Self → Bool };

    /// Are the two elements equal?
    fn same(&self, other: &Self) -> bool
        ensures { result ≡ alike self.now other.now };

    // A yes is right: the two elements are equal.
    ghost sound: { (a b : Self) → alike a b ≡ true → a ≡ b };

    // No equal elements are missed.
    ghost complete: { (a b : Self) → a ≡ b → alike a b ≡ true };
}

impl Element for u16 {
    ghost alike = { nat_eq };

    ghost sound = { Prim.search rules };

    ghost complete = { Prim.search rules };

    fn same(&self, other: &u16) -> bool {
        *self == *other
    }
}
