//! Laws of what a list says. The functions do nothing; their contracts are the laws.

ghost use Rattle.list_report.specs.{GroupPeople.PeopleAreOfGroups, Chains.{RegionsAreJoined, FirstIsLeast}};

/// States which counties share a region, for lawful groupings. Take two counties that no shared set has. They lie in
/// one region exactly if they are joined by a chain of sets that aren't shared, where each set has a county in common
/// with the next. The county by which a region stands is its least.
pub fn regions_are_joined()
    ensures joined { RegionsAreJoined }
    ensures least { FirstIsLeast }
{}

/// States a law of each group of a lawful grouping. The people that the text gives for the group, those of the
/// problem's counties in it, are the people of its codes, as a report has them.
pub fn people_are_of_groups()
    ensures { PeopleAreOfGroups }
{}
