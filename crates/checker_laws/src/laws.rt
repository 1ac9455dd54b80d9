//! Laws of verdicts: the functions do nothing, and their contracts are the laws.

ghost use Rattle.checker_laws.specs.{Laws.{TreesEnd, VerdictsShow, CostsAreOne}, Work.LinesCarry, WorkCost.LinesCost};
ghost use Rattle.checker_laws.specs.{BoundWork.{BoundLinesCarry, BoundLinesCost}, Fault.{MissingGroup, StrayGroup}};
ghost use Rattle.checker_laws.specs.{Verdict.{No, IsVerdict}, Examples.{untaken, strayed}};
ghost use Rattle.certificate_laws.specs.Examples.{stranding, plain_round};

/// States that a tree has one end at a state. The tree is a proof if its end is no fault, and otherwise it is none.
pub fn trees_end()
    ensures { TreesEnd }
{}

/// States that a certificate has one verdict. If the certificate holds, the verdict is Best or Impossible, and the
/// certificate shows it. Otherwise the verdict is the first fault.
pub fn verdicts_show()
    ensures { VerdictsShow }
{}

/// States that a tree at a state and a certificate each have one cost.
pub fn costs_are_one()
    ensures { CostsAreOne }
{}

/// States that what is left to judge ends before a line of a tree as it ends after that line.
pub fn lines_carry()
    ensures { LinesCarry }
{}

/// States what is to be looked through before a line of a tree. It is what the line looks through, and what is left
/// after the line.
pub fn lines_cost()
    ensures { LinesCost }
{}

/// States that a bound leaf ends before one of its lines as the lines that are left end after it.
pub fn bound_lines_carry()
    ensures { BoundLinesCarry }
{}

/// States what is to be looked through before a line of a bound leaf. It is what the line looks through, and what is
/// left after the line.
pub fn bound_lines_cost()
    ensures { BoundLinesCost }
{}

/// States the verdicts on two certificates that do not hold, for the three counties whose middle one strands its
/// neighbours. In one of them a take is left out, and in the other a different take stands in its place.
pub fn first_faults()
    ensures missing { IsVerdict stranding plain_round untaken (No MissingGroup 7) }
    ensures stray { IsVerdict stranding plain_round strayed (No StrayGroup 7) }
{}
