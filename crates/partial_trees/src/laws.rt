//! The law of parts. The function does nothing; its contract is the law.

ghost use Rattle.partial_trees.specs.Laws.{PartsStand};

/// States that the pieces of a part stand at the states of its open leaves, in their order.
pub fn parts_stand()
    ensures { PartsStand }
{}
