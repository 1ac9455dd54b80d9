//! Laws of groupings and of their counts: the functions do nothing, and their contracts are the laws.

ghost use Rattle.grouping_laws.specs.{Problem.Problem, Tolerance.{HasTolerance, named_tolerance}};
ghost use Rattle.grouping_laws.specs.Totals.{SizesAddUp, WindowsAddUp, GroupsFit};
ghost use Rattle.grouping_laws.specs.Order.{GreaterIsIrreflexive, GreaterIsTransitive, GreaterIsTotal};

/// States that the sizes of the sets of a lawful grouping add up to the number of counties of the problem. The people
/// of groups together suit the sum of their seats. No lawful group has more counties than the problem.
pub fn groups_add_up()
    ensures sizes { SizesAddUp }
    ensures windows { WindowsAddUp }
    ensures fit { GroupsFit }
{}

/// States that the relation "greater" orders counts totally. No counts are greater than themselves, and what is greater
/// than something greater is greater. Of two different counts one is greater.
pub fn greater_orders_counts()
    ensures irreflexive { GreaterIsIrreflexive }
    ensures transitive { GreaterIsTransitive }
    ensures total { GreaterIsTotal }
{}

/// States that what a certificate names for a problem is the problem's tolerance.
pub fn problems_name_their_tolerance()
    ensures { (p : Problem) → HasTolerance p (named_tolerance p) }
{}
