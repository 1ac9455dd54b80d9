//! Laws of complete lists. The functions do nothing, and their contracts are the laws.

ghost use Rattle.list_laws.specs.{AllBest.{AreAllBest, ListsAreOne, SharedGroups}, Completeness.IsComplete};
ghost use Rattle.list_laws.specs.{Examples.only_together, Level.LevelStatesAreFilled};
ghost use Rattle.list_laws.specs.{Listing.{CompleteTreesList, CompleteCertificatesList}, Searching.CompleteSearchEnds};
ghost use Rattle.list_laws.specs.Shortfalls.{LeavesAreTold};
ghost use Rattle.certificate_laws.specs.Examples.{stranding, plain_round, plain_tree, wide_round, lone_leaf};
ghost use Rattle.certificate_laws.specs.State.{empty_state};

/// States what the ends of a proof tree are if the tree is complete at a state. They are the sets of all lawful
/// groupings that agree with the state and are not lesser than the target, each once.
pub fn complete_trees_list()
    ensures { CompleteTreesList }
{}

/// States that, if a certificate with a target is complete, lawful groupings with the sets of its ends are all best
/// groupings. Each of them is best, no two are the same, and each best grouping is the same as one of them. There are
/// such groupings.
pub fn complete_certificates_list()
    ensures { CompleteCertificatesList }
{}

/// States that two lists of all best groupings of a problem have the same number of groupings, and the same groupings.
pub fn lists_are_one()
    ensures { ListsAreOne }
{}

/// States when a valid bound leaf falls short. One with fewer lines than the limit does. Any other falls short exactly
/// if its last line gives too few groups.
pub fn leaves_are_told()
    ensures { LeavesAreTold }
{}

/// States that no county is left if the closed groups have the target's counts through the limit. If no county is left
/// and no seats leaf is valid, the state is filled.
pub fn level_states_are_filled()
    ensures { LevelStatesAreFilled }
{}

/// States that a search which finds stuck and seats leaves, chooses branches and lists groups comes at every state to a
/// complete proof tree or a greater grouping.
pub fn complete_searches_end()
    ensures { CompleteSearchEnds }
{}

/// States that each best grouping has a group if all groupings of a list of all best groupings have it.
pub fn shared_groups()
    ensures { SharedGroups }
{}

/// States that three counties whose middle one strands its neighbours have one best grouping. Their plain certificate
/// is complete, and its end is this grouping. Their wide certificate of one leaf is not complete, because the leaf
/// comes to the target's counts at a state with counties left.
pub fn example_lists()
    ensures complete { IsComplete plain_tree stranding plain_round (empty_state stranding) }
    ensures listed { AreAllBest stranding only_together }
    ensures not_complete { ¬ IsComplete lone_leaf stranding wide_round (empty_state stranding) }
{}
