//! Partial trees, read from their lines.

ghost use Rattle.std.specs.Prelude.{◌≡◌, ◌<◌, ◌≤◌, ◌+◌, ℕ, true, false, List, [], ◌∷◌, ◌++◌, length, take, All, Err, IfOk, IfErr, OnOk};
ghost use Rattle.std.specs.List.{flat_map};
ghost use Rattle.field_lines.specs.RawPieces.{raw_lines};
ghost use Rattle.certificate_laws.specs.Depth.{after_raise};
ghost use Rattle.certificate_lines.specs.{Items.items_from, Lines.most, Reading.{ReadsAll, IsUnlessMemory}};
ghost use Rattle.certificate_lines.specs.{Rest.IsTextMemory, declared.item.Wanted.Wanted};
ghost use Rattle.certificate_lines.specs.declared.item.Item.TheVariants as item;
ghost use Rattle.certificate_lines.specs.declared.item.Wanted.TheVariants as want;
ghost use Rattle.certificate_data.specs.TreeValue.{leaf_of, list_of_takes};
ghost use Rattle.certificate_text.specs.{Trees.{leaf_items, items_of_takes}, Writing.branch_items};
ghost use Rattle.board_laws.specs.PartialTrees.{PartialTree as PartValue, open_leaves, open_in};
ghost use Rattle.partial_trees.specs.PartialValue.{partial_of, list_of_begun};
ghost use Rattle.partial_trees.specs.OpenBranches.{BranchesAreOpen, BranchesOfTakesAreOpen};
ghost use Rattle.partial_text.specs.PartItems.{items_of_part, items_of_begun};
ghost use Rattle.partial_text.specs.Reading.{part_branch_items, tree_in, takes_in, IsWholeTake, IsWholeBranch, StayOpen, StayOpenBefore};
ghost use Rattle.partial_text.specs.Spelling.{IsPartSpelling};

use certificate_data::{Branch, Format, Leaf, Take, Tree};
use certificate_lines::{Cursor, Opening, TextFault, levels_after, push_on};
use certificate_text::allowances_at;
use partial_trees::{PartialBranch, PartialTake, PartialTree};
use std::alloc::Global;
use std::mem;

/// Returns whether the tree of the `take` is whole. Any other tree has an open leaf, if each of its branches has one.
fn is_whole(take: &PartialTake) -> bool
    ensures whole { result ≡ true → IsWholeTake take.now }
    ensures opened { result ≡ false → BranchesAreOpen (tree_in take.now) → 1 ≤ open_leaves (tree_in take.now) }
{
    if !take.tree.branches.as_slice().is_empty() {
        return false;
    }
    take.tree.rest.is_some()
}

/// Returns whether a leaf is open in the trees of the `takes`.
pub(crate) fn have_open_leaf(takes: &[PartialTake]) -> bool
    requires { BranchesOfTakesAreOpen (list_of_begun takes.now) }
    ensures some { result ≡ true → 1 ≤ open_in (list_of_begun takes.now) }
    ensures none { result ≡ false → All IsWholeTake takes.now }
{
    for take in takes {
        if !is_whole(take) {
            return true;
        }
    }
    false
}

/// Returns the `takes`, whose trees are whole. If memory was refused, the fault stands at the given `line`.
fn whole_takes(alloc: Global, takes: Vec<PartialTake>, line: u64) -> Result<Vec<Take>, TextFault>
    requires { All IsWholeTake takes.items }
    ensures items { IfOk result (λ v. items_of_takes (list_of_takes v.items) ≡ items_of_begun (list_of_begun takes.items)) }
    ensures refused { IfErr result (λ f. IsTextMemory f) }
{
    let mut whole = Vec::new(alloc);
    for take in takes {
        let PartialTake { codes, tree } = take;
        let PartialTree { branches: _, rest } = tree;
        if let Some(tree) = rest {
            push_on(&mut whole, Take { codes, tree }, line)?;
        }
    }
    Ok(whole)
}

/// Returns the `branches`, in whose takes each tree is whole. If memory was refused, the fault stands at the given
/// `line`.
fn whole_branches(
    alloc: Global,
    branches: Vec<PartialBranch>,
    line: u64,
) -> Result<Vec<Branch>, TextFault>
    requires { All IsWholeBranch branches.items }
    ensures items { IfOk result (λ v. flat_map branch_items v.items ≡ flat_map part_branch_items branches.items) }
    ensures refused { IfErr result (λ f. IsTextMemory f) }
{
    let mut whole = Vec::new(alloc);
    for branch in branches {
        let PartialBranch {
            county,
            limit,
            takes,
        } = branch;
        let takes = whole_takes(alloc, takes, line)?;
        let branch = Branch {
            county,
            limit,
            takes,
        };
        push_on(&mut whole, branch, line)?;
    }
    Ok(whole)
}

/// Appends the branches of `later` to `branches`. If memory was refused, the fault stands at the given `line`.
fn push_all(
    branches: &mut Vec<PartialBranch>,
    later: Vec<PartialBranch>,
    line: u64,
) -> Result<(), TextFault>
    ensures pushed { OnOk result (branches.new.items ≡ branches.old.items ++ later.items) }
    ensures refused { IfErr result (λ f. IsTextMemory f) }
{
    for branch in later {
        push_on(branches, branch, line)?;
    }
    Ok(())
}

/// Appends a `branch` to `later`. If a leaf is open in its takes, all branches of `later` go behind `branches`. If
/// memory was refused, the fault stands at the given `line`.
fn keep_branch(
    alloc: Global,
    branches: &mut Vec<PartialBranch>,
    later: &mut Vec<PartialBranch>,
    branch: PartialBranch,
    line: u64,
) -> Result<(), TextFault>
    requires stay { StayOpen branches.old.items }
    requires before { StayOpenBefore later.old.items }
    requires whole { All IsWholeBranch later.old.items }
    requires opened { BranchesOfTakesAreOpen (takes_in branch) }
    ensures kept { OnOk result (branches.new.items ++ later.new.items
        ≡ (branches.old.items ++ later.old.items) ++ branch ∷ []) }
    ensures stay { OnOk result (StayOpen branches.new.items) }
    ensures before { OnOk result (StayOpenBefore later.new.items) }
    ensures whole { OnOk result (All IsWholeBranch later.new.items) }
    ensures refused { IfErr result (λ f. IsTextMemory f) }
{
    let open = have_open_leaf(&branch.takes);
    push_on(later, branch, line)?;
    if open {
        let kept = mem::replace(later, Vec::new(alloc));
        push_all(branches, kept, line)?;
    }
    Ok(())
}

/// Returns the partial tree of the `branches` with a whole tree behind them: the branches of `later` and the `leaf`. If
/// memory was refused, the fault stands at the given `line`.
fn with_leaf(
    alloc: Global,
    branches: Vec<PartialBranch>,
    later: Vec<PartialBranch>,
    leaf: Leaf,
    line: u64,
) -> Result<PartialTree, TextFault>
    requires stay { StayOpen branches.items }
    requires whole { All IsWholeBranch later.items }
    ensures items { IfOk result (λ t. items_of_part (partial_of t)
        ≡ flat_map part_branch_items (branches.items ++ later.items) ++ leaf_items (leaf_of leaf)) }
    ensures opened { IfOk result (λ t. BranchesAreOpen (partial_of t)) }
    ensures refused { IfErr result (λ f. IsTextMemory f) }
{
    let tree = Tree {
        branches: whole_branches(alloc, later, line)?,
        leaf,
    };
    Ok(PartialTree {
        branches,
        rest: Some(tree),
    })
}

/// Returns the partial tree of the `branches` and those of `later` with an open leaf behind them. If memory was
/// refused, the fault stands at the given `line`.
fn with_open_leaf(
    branches: Vec<PartialBranch>,
    later: Vec<PartialBranch>,
    line: u64,
) -> Result<PartialTree, TextFault>
    requires stay { StayOpen branches.items }
    requires before { StayOpenBefore later.items }
    ensures items { IfOk result (λ t. items_of_part (partial_of t)
        ≡ flat_map part_branch_items (branches.items ++ later.items) ++ item.Open ∷ []) }
    ensures opened { IfOk result (λ t. BranchesAreOpen (partial_of t)) }
    ensures refused { IfErr result (λ f. IsTextMemory f) }
{
    let mut branches = branches;
    push_all(&mut branches, later, line)?;
    Ok(PartialTree {
        branches,
        rest: None,
    })
}

/// Reads the groups that a branch takes, each with its partial tree, up to the mark of the branch. The trees may open
/// one level fewer than `levels`, which is at least 1.
#[cycle(part_lines)]
fn takes_at(
    alloc: Global,
    cursor: &mut Cursor,
    format: Format,
    levels: u16,
) -> Result<Vec<PartialTake>, TextFault>
    requires { 0 < levels }
    ensures read { ReadsAll (want.PartTakes format levels ∷ []) (λ v. items_of_begun (list_of_begun v.items)
        ++ item.Mark ∷ []) (want.Part format (after_raise format levels) ∷ []) cursor.old result cursor.new }
    ensures opened { IfOk result (λ v. BranchesOfTakesAreOpen (list_of_begun v.items)) }
    ensures rest { OnOk result (length cursor.new.text ≤ length cursor.old.text) }
{
    let mut takes = Vec::new(alloc);
    'taking: while let Some(codes) = cursor.take(alloc)? {
        let tree = part_at(alloc, cursor, format, levels - 1)?;
        push_on(&mut takes, PartialTake { codes, tree }, cursor.number())?;
    }
    Ok(takes)
}

/// Reads the partial tree that begins on the next line, where its branches may open `levels` levels.
#[cycle(part_lines)]
fn part_at(
    alloc: Global,
    cursor: &mut Cursor,
    format: Format,
    levels: u16,
) -> Result<PartialTree, TextFault>
    ensures read { ReadsAll (want.Part format levels
        ∷ []) (λ t. items_of_part (partial_of t)) [] cursor.old result cursor.new }
    ensures opened { IfOk result (λ t. BranchesAreOpen (partial_of t)) }
    ensures rest { OnOk result (length cursor.new.text ≤ length cursor.old.text) }
{
    let mut branches = Vec::new(alloc);
    let mut later = Vec::new(alloc);
    let mut levels = levels;
    'branching: loop {
        let Some(opening) = cursor.part_opening(format, levels)? else {
            return with_open_leaf(branches, later, cursor.number());
        };
        match opening {
            Opening::Branch { county, limit } => {
                let takes = takes_at(alloc, cursor, format, levels)?;
                let branch = PartialBranch {
                    county,
                    limit,
                    takes,
                };
                keep_branch(alloc, &mut branches, &mut later, branch, cursor.number())?;
                levels = levels_after(format, levels);
            }
            Opening::Stuck(county) => {
                return with_leaf(alloc, branches, later, Leaf::Stuck(county), cursor.number());
            }
            Opening::Seats => {
                return with_leaf(alloc, branches, later, Leaf::Seats, cursor.number());
            }
            Opening::Bound(count) => {
                let lines = allowances_at(alloc, cursor, count)?;
                return with_leaf(alloc, branches, later, Leaf::Bound(lines), cursor.number());
            }
        }
    }
}

/// Reads the partial tree with which a `text` begins, for an order of `counties` counties. Returns the partial tree and
/// the place of the bytes behind it.
///
/// # Errors
///
/// Returns the first fault of the text up to the end of a partial tree. If memory was refused, it returns `Memory` in
/// place of any answer.
pub fn front_part(
    alloc: Global,
    text: &[u8],
    format: Format,
    counties: u16,
) -> Result<(PartialTree, usize), TextFault>
    requires { counties ≤ most }
    ensures place { IfOk result (λ r. r.1 ≤ length text.now) }
    ensures found { IfOk result (λ r. IsPartSpelling format counties (take r.1 text.now) (partial_of r.0)) }
    // A front that spells a partial tree is read, and its length is the place, unless memory is refused.
    ensures only { (front rest : List ℕ) (t : PartValue) → text.now ≡ front ++ rest
        → IsPartSpelling format counties front t
        → IsUnlessMemory {V = PartValue × ℕ} (λ r. (partial_of r.0, r.1)) result (t, length front) }
    // The fault is met whatever is wanted behind the partial tree.
    ensures fault { IfErr result (λ f. (IsTextMemory f → ⊥) → (more : List Wanted)
        → items_from (want.Part format counties ∷ more) 1 (raw_lines text.now) ≡ Err f) }
{
    let mut cursor = Cursor::new(text);
    let part = part_at(alloc, &mut cursor, format, counties)?;
    Ok((part, text.len() - cursor.rest().len()))
}
