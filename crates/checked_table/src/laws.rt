ghost use Rattle.checked_table.specs.Checking.{OneFault};

/// A theorem: one fault is told of an image, and none of one that keeps the rules.
pub fn one_fault_is_told()
    ensures { OneFault }
{}
