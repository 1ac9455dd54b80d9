//! Laws of proof trees: the functions do nothing, and their contracts are the laws.

ghost use Rattle.certificate_laws.specs.Certificate.{ProofTreeExcludes, CertificateShows, IsCertificate};
ghost use Rattle.certificate_laws.specs.{Branching.BranchKeepsState, Decisions.LeavesAreDecided, Depth.TreesAreShallow};
ghost use Rattle.certificate_laws.specs.{Lists.ListsServe, Places.{PlacesServe, StatesHaveCodes}};
ghost use Rattle.certificate_laws.specs.{RegionGrowth.RegionsAreGrown, Marks.PlainIsMarked};
ghost use Rattle.certificate_laws.specs.Search.{FinishedStateBeats, SearchEnds, ImpossibleIsLeaf};
ghost use Rattle.certificate_laws.specs.Examples.{stranding, plain_round, plain_tree, wide_round, wide_tree, lone_leaf};

/// States that no lawful grouping that agrees with a state is greater than the target, if a proof tree exists at the
/// state. Without a target, no lawful grouping agrees with the state.
pub fn proof_trees_exclude()
    ensures { ProofTreeExcludes }
{}

/// States that a certificate with a target proves the target best. One without a target proves that no grouping is
/// lawful.
pub fn certificates_show()
    ensures { CertificateShows }
{}

/// States what a branch does to a state. Closing a group that fits and raising a county give states again, with fewer
/// steps left. The groupings that agree with the old state are those that agree with one of the new ones. A group that
/// doesn't fit never fits again.
pub fn branches_keep_states()
    ensures { BranchKeepsState }
{}

/// States that one list of groups and one list of connected parts decide the branches and the leaves. Whoever finds
/// these lists is right to say yes, and right to say no.
pub fn leaves_are_decided()
    ensures { LeavesAreDecided }
{}

/// States what holds where no group fits and no leaf is valid. Together with seats that add up, the closed groups and
/// the connected parts of the rest are then a lawful grouping. It agrees with the state and is greater than the target.
pub fn finished_states_beat()
    ensures { FinishedStateBeats }
{}

/// States that whoever finds leaves, chooses branches and lists groups has a proof tree or a greater grouping at every
/// state.
pub fn searches_end()
    ensures { SearchEnds }
{}

/// States that if no grouping is lawful, one leaf at the empty state shows it, in a round of either format.
pub fn impossible_is_a_leaf()
    ensures { ImpossibleIsLeaf }
{}

/// States that a search that keeps a list of groups for each size has all that a branch and an end need. The takes are
/// groups of the lists, and after a branch each list is the old one, filtered.
pub fn lists_serve()
    ensures { ListsServe }
{}

/// States that parts, groups that fit and lists of groups are the same whether the places of the round's order
/// or the codes find them.
pub fn places_serve()
    ensures { PlacesServe }
{}

/// States that a state by places stands for a state by codes, also after a group is closed or a county is raised. The
/// empty state by places stands for the empty state by codes.
pub fn states_have_codes()
    ensures { StatesHaveCodes }
{}

/// States which sets are met by growing sets inside the open counties. Growing from one county meets exactly the sets
/// that a branch looks through. Growing from each county in turn meets exactly those that a weigh line looks through.
/// The branch's list of groups is what a test of fitting keeps of the former, sorted.
pub fn regions_are_grown()
    ensures { RegionsAreGrown }
{}

/// States that a proof tree keeps the depth of its format, and that no path of it has more branches than steps are
/// left.
pub fn trees_are_shallow()
    ensures { TreesAreShallow }
{}

/// States that the states, leaves and trees of a plain round are those of the rules with marks. These rules mark a
/// county as lying in a group above the one limit.
pub fn plain_rules_are_the_marked_ones()
    ensures { PlainIsMarked }
{}

/// States the certificates of an example: three counties whose middle one strands its neighbours. They have a
/// certificate in each format. In the wide format a leaf alone is a certificate too, since the dead group is left
/// out. That leaf is no certificate in the plain format.
pub fn example_certificates()
    ensures plainly { IsCertificate stranding plain_round plain_tree }
    ensures widely { IsCertificate stranding wide_round wide_tree }
    ensures alone { IsCertificate stranding wide_round lone_leaf }
    ensures not_plain { ¬ IsCertificate stranding plain_round lone_leaf }
{}
