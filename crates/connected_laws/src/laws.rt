//! Laws of growing sets: the functions do nothing, and their contracts are the laws.

ghost use Rattle.connected_laws.specs.Laws.{LeafIsFound, ForkIsFound, NothingIsLost, KeptAreGroups, ExtensionsAreSets};

/// States how growing a connected set finds all sets that contain it, each once. If no free place is adjacent to the
/// set, or it is as large as it may be, the set alone is all of them. Otherwise they are those that have a given free
/// place and those that lack it, and no set is both. If none of them passes the test, the search may stop early.
pub fn growing_finds_each_once()
    ensures leaf { LeafIsFound }
    ensures fork { ForkIsFound }
    ensures early { NothingIsLost }
{}

/// States that growing from a place gives the lawful groups from the place. They are the sets that a search keeps
/// because their people suit some number of seats, sorted by size and then by places. All sets that the search meets
/// are connected sets from the place.
pub fn growing_gives_groups()
    ensures groups { KeptAreGroups }
    ensures sets { ExtensionsAreSets }
{}
