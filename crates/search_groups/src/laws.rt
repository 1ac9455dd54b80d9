//! Laws of a search. The functions do nothing, and their contracts are the laws.

ghost use Rattle.search_groups.specs.{PartGroups.PartsServe, KnownGroups.KnownServes};

/// States that what a search knows of the groups of one size goes with it from size to size and from state to state.
/// This knowledge also gives the takes of a branch.
pub fn known_serves()
    ensures { KnownServes }
{}

/// States that the groups of the next size that fit a state are those that fit the parts of its rest, each part by
/// itself.
pub fn parts_serve()
    ensures { PartsServe }
{}
