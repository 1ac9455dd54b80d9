//! Partial trees of what a search has proved when its steps run out.

ghost use Rattle.std.specs.{Prelude.{◌≡◌, ◌≤◌, ◌<◌, List, ◌∷◌, [], ◌++◌, IfOk, OnOk, IfSome}, List.AllByRecursion};
ghost use Rattle.connected_sets.specs.Graphs.{graph_order, graph_places};
ghost use Rattle.certificate_data.specs.TreeValue.{tree_of, list_of_takes};
ghost use Rattle.certificate_lines.specs.Fitting.{AreCodes};
ghost use Rattle.state_groups.specs.PlacedValues.{codes_of_set, codes_of_sets};
ghost use Rattle.board_laws.specs.PartialTrees.{PartialTree as Part, whole, open_leaf, begun, PartialTakes as Parts, take_begun, open_takes};
ghost use Rattle.partial_trees.specs.PartialValue.{partial_of, list_of_begun, list_onto, take_onto};
ghost use Rattle.partial_trees.specs.{Refusals.IsPartProof, OpenBranches.BranchesAreOpen};
ghost use Rattle.partial_trees.specs.declared.tree.PartialTake.{PartialTake as PartialTakeHeld};
ghost use Rattle.partial_trees.specs.declared.tree.PartialTree.{PartialTree as PartialTreeHeld};
ghost use Rattle.county_problem.specs.OrderedValue.{code_at};
ghost use Rattle.branch_bound.specs.declared.outcome.SearchOutcome.TheVariants as outcome;
ghost use Rattle.branch_bound.specs.Parts.{whole_takes, whole_branches, IsOpenPart};
ghost use Rattle.certificate_data.specs.Round.{Round as RoundValue};
ghost use Rattle.certificate_laws.specs.State.{State as StateValue};
ghost use Rattle.grouping_laws.specs.Problem.{Problem as ProblemLaw};
ghost use Rattle.board_laws.specs.PartialTrees.{IsPart};

use crate::outcome::SearchOutcome;
use certificate_data::{Branch, Take, Tree};
use partial_trees::{PartialBranch, PartialTake, PartialTree};
use place_sets::CountySet;
use search_groups::SearchInput;
use std::alloc::{AllocError, Global};

/// Returns the partial tree that is an open leaf.
pub(crate) fn open_part(alloc: Global) -> PartialTree
    ensures { partial_of result ≡ open_leaf }
{
    PartialTree {
        branches: Vec::new(alloc),
        rest: None,
    }
}

/// Returns the partial tree that is the whole `tree`.
fn whole_part(alloc: Global, tree: Tree) -> PartialTree
    ensures { partial_of result ≡ whole (tree_of tree) }
{
    PartialTree {
        branches: Vec::new(alloc),
        rest: Some(tree),
    }
}

/// Returns the `takes` with their whole trees, in order. Returns an error if memory was refused.
fn whole_parts(alloc: Global, takes: Vec<Take>) -> Result<Vec<PartialTake>, AllocError>
    ensures { IfOk result (λ parts. (more : List PartialTakeHeld)
        → list_of_begun (parts.items ++ more) ≡ whole_takes (list_of_takes takes.items) (list_of_begun more)) }
{
    let mut parts = Vec::new(alloc);
    for take in takes {
        let Take { codes, tree } = take;
        let tree = whole_part(alloc, tree);
        parts.push(PartialTake { codes, tree })?;
    }
    Ok(parts)
}

/// Returns the `branches`, each take with its whole tree, in order. Returns an error if memory was refused.
fn whole_lines(alloc: Global, branches: Vec<Branch>) -> Result<Vec<PartialBranch>, AllocError>
    ensures { IfOk result (λ parts. (part : Part) → list_onto parts.items part ≡ whole_branches branches.items part) }
{
    let mut parts = Vec::new(alloc);
    for branch in branches {
        let Branch {
            county,
            limit,
            takes,
        } = branch;
        let takes = whole_parts(alloc, takes)?;
        parts.push(PartialBranch {
            county,
            limit,
            takes,
        })?;
    }
    Ok(parts)
}

/// Returns `part` behind the `branches`, whose takes have whole trees. Returns an error if memory was refused.
fn part_behind(
    alloc: Global,
    branches: Vec<Branch>,
    part: PartialTree,
) -> Result<PartialTree, AllocError>
    ensures { IfOk result (λ joined. partial_of joined ≡ whole_branches branches.items (partial_of part)) }
{
    let mut branches = whole_lines(alloc, branches)?;
    let PartialTree {
        branches: mut more,
        rest,
    } = part;
    branches.append(&mut more)?;
    Ok(PartialTree { branches, rest })
}

/// Returns what a search ends with where its steps ran out behind the `branches`, with this `part`. Returns an error if
/// memory was refused.
pub(crate) fn stopped_behind(
    alloc: Global,
    branches: Vec<Branch>,
    part: PartialTree,
) -> Result<SearchOutcome, AllocError>
    ensures { IfOk result (λ found. (joined : PartialTreeHeld) × (found ≡ outcome.Open joined)
        × (partial_of joined ≡ whole_branches branches.items (partial_of part))) }
{
    let joined = part_behind(alloc, branches, part)?;
    Ok(SearchOutcome::Open(joined))
}

/// Returns what a search ends with where its steps ran out right behind the `branches`. Returns an error if memory was
/// refused.
pub(crate) fn stopped_here(
    alloc: Global,
    branches: Vec<Branch>,
) -> Result<SearchOutcome, AllocError>
    ensures { IfOk result (λ found. (joined : PartialTreeHeld) × (found ≡ outcome.Open joined)
        × (partial_of joined ≡ whole_branches branches.items open_leaf)) }
{
    stopped_behind(alloc, branches, open_part(alloc))
}

/// Appends to `takes` the take of `group` with this `part`. Returns an error if memory was refused.
fn push_part<C: CountySet>(
    input: &SearchInput<C>,
    group: &C,
    part: PartialTree,
    takes: &mut Vec<PartialTake>,
) -> Result<(), AllocError>
    requires fits { graph_places input.now.graph.now ≤ C.PLACES }
    ensures pushed { OnOk result ((take : PartialTakeHeld)
        × (takes.new.items ≡ takes.old.items ++ take ∷ [])
        × ((others : Parts) → take_onto take others ≡ take_begun (codes_of_set (graph_order input.now.graph.now) C.test group.now) (partial_of part) others)) }
    ensures small { OnOk result (AreCodes (codes_of_set (graph_order input.now.graph.now) C.test group.now)) }
{
    let codes = input.graph.ordered.codes_of(input.graph.alloc, group)?;
    takes.push(PartialTake { codes, tree: part })?;
    Ok(())
}

/// Returns the takes of a branch at which the search stopped: the `takes` before, with their whole trees, that of
/// `group` with its `part`, and those of the `later` groups with open leaves. Returns an error if memory was refused.
pub(crate) fn stopped_takes<C: CountySet>(
    input: &SearchInput<C>,
    takes: Vec<Take>,
    group: &C,
    part: PartialTree,
    later: &[C],
) -> Result<Vec<PartialTake>, AllocError>
    requires fits { graph_places input.now.graph.now ≤ C.PLACES }
    ensures takes { IfOk
        result
        (λ parts. list_of_begun parts.items
        ≡ whole_takes
        (list_of_takes takes.items)
        (take_begun
        (codes_of_set (graph_order input.now.graph.now) C.test group.now)
        (partial_of part)
        (open_takes (codes_of_sets (graph_order input.now.graph.now) C.test later.now)))) }
    ensures small { IfOk
        result
        (λ _. AllByRecursion AreCodes (codes_of_sets (graph_order input.now.graph.now) C.test (group.now ∷ later.now))) }
{
    let mut parts = whole_parts(input.graph.alloc, takes)?;
    push_part(input, group, part, &mut parts)?;
    for other in later {
        push_part(input, other, open_part(input.graph.alloc), &mut parts)?;
    }
    Ok(parts)
}

/// Returns the partial tree of a branch at the county at `place` with these `takes`, where an open leaf stands behind
/// it. Returns an error if memory was refused.
pub(crate) fn begun_branch<C>(
    input: &SearchInput<C>,
    place: u16,
    limit: Option<u16>,
    takes: Vec<PartialTake>,
) -> Result<PartialTree, AllocError>
    requires place { place < graph_places input.now.graph.now }
    ensures branch { IfOk result (λ part. partial_of part
        ≡ begun (code_at (graph_order input.now.graph.now) place) limit (list_of_begun takes.items) open_leaf) }
    ensures county { code_at (graph_order input.now.graph.now) place ≤ 99999 }
{
    let county = input.graph.ordered.code(place);
    let _small = county.get();
    let mut branches = Vec::new(input.graph.alloc);
    branches.push(PartialBranch {
        county,
        limit,
        takes,
    })?;
    Ok(PartialTree {
        branches,
        rest: None,
    })
}

/// Returns the `part` of a state at which a search stopped, if the search began a branch there.
pub(crate) fn begun_part(part: PartialTree) -> Option<PartialTree>
    ensures { (p : ProblemLaw) (round : RoundValue) (s : StateValue) → IsOpenPart p round s (partial_of part)
        → IfSome result (λ t. IsPart (partial_of t) × IsPartProof p round s (partial_of t) × BranchesAreOpen (partial_of t)) }
{
    if part.branches.is_empty() {
        return None;
    }
    Some(part)
}
