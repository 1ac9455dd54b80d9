//! Certificates and trees, read from their lines.

ghost use Rattle.std.specs.Prelude.{◌≡◌, ◌<◌, ◌≤◌, ◌+◌, ℕ, List, [], ◌∷◌, ◌++◌, map, length, take, Option, Ok, Err, IfOk, IfErr, OnOk};
ghost use Rattle.certificate_lines.specs.Items.{allowances_wanted, groups_wanted, items_from, certificate_items, tree_items};
ghost use Rattle.certificate_lines.specs.{declared.item.Wanted.Wanted, Lines.most};
ghost use Rattle.certificate_lines.specs.Reading.{ReadsItems, Refuses, ReadsAll, EndsUnless, GivesItems, IsUnlessMemory};
ghost use Rattle.certificate_lines.specs.Rest.{IsTextMemory};
ghost use Rattle.field_lines.specs.RawPieces.{raw_lines};
ghost use Rattle.certificate_laws.specs.Depth.{after_raise};
ghost use Rattle.certificate_text.specs.Spelling.{IsSpelling, IsTreeSpelling};
ghost use Rattle.certificate_text.specs.Trees.{items_of_tree, items_of_takes, items_of_head, items_of_target, items_of_certificate};
ghost use Rattle.certificate_data.specs.Tree.{Tree as TreeValue};
ghost use Rattle.certificate_data.specs.TreeValue.{tree_of, list_of_takes, Certificate as CertificateValue};
ghost use Rattle.certificate_data.specs.{TreeValue.certificate_of, RoundValue.target_of};
ghost use Rattle.certificate_lines.specs.declared.item.Item.TheVariants as item;
ghost use Rattle.certificate_lines.specs.declared.item.Wanted.TheVariants as want;

use certificate_data::{Allowance, Branch, Certificate, Format, Leaf, Round, Take, Tree};
use certificate_lines::{Cursor, Opening, TextFault, Version, ended, levels_after, push_on};
use county_codes::{Group, Grouping, Tolerance};
use std::alloc::Global;

/// Reads `count` lines of a bound leaf.
///
/// # Errors
///
/// Returns the first fault of the lines. If memory was refused, it returns `Memory` in place of any answer.
pub fn allowances_at(
    alloc: Global,
    cursor: &mut Cursor,
    count: u16,
) -> Result<Vec<Allowance>, TextFault>
    ensures read { ReadsAll (allowances_wanted count) (λ v. map item.Allows v.items) [] cursor.old result cursor.new }
    ensures number { IfOk result (λ v. length v.items ≡ count) }
    ensures rest { OnOk result (length cursor.new.text ≤ length cursor.old.text) }
{
    let mut allowances = Vec::new(alloc);
    for done in 0..count {
        let allowance = cursor.allowance(alloc)?;
        push_on(&mut allowances, allowance, cursor.number())?;
    }
    Ok(allowances)
}

/// Reads `count` groups of a target.
///
/// # Errors
///
/// Returns the first fault of the lines. If memory was refused, it returns `Memory` in place of any answer.
pub fn groups_at(alloc: Global, cursor: &mut Cursor, count: u16) -> Result<Vec<Group>, TextFault>
    ensures read { ReadsAll (groups_wanted count) (λ v. map item.Grouped v.items) [] cursor.old result cursor.new }
    ensures number { IfOk result (λ v. length v.items ≡ count) }
{
    let mut groups = Vec::new(alloc);
    for done in 0..count {
        let group = cursor.group(alloc)?;
        push_on(&mut groups, group, cursor.number())?;
    }
    Ok(groups)
}

/// Reads from `cursor` the groups that a branch takes, each with its tree, up to the mark of the branch. The branches
/// of these trees may open `levels - 1` levels.
#[cycle(tree_lines)]
fn takes_at(
    alloc: Global,
    cursor: &mut Cursor,
    format: Format,
    levels: u16,
) -> Result<Vec<Take>, TextFault>
    requires { 0 < levels }
    ensures read { ReadsAll (want.Takes format levels ∷ []) (λ v. items_of_takes (list_of_takes v.items)
        ++ item.Mark ∷ []) (want.Tree format (after_raise format levels) ∷ []) cursor.old result cursor.new }
    ensures rest { OnOk result (length cursor.new.text ≤ length cursor.old.text) }
{
    let mut takes = Vec::new(alloc);
    'taking: while let Some(codes) = cursor.take(alloc)? {
        let tree = tree_at(alloc, cursor, format, levels - 1)?;
        push_on(&mut takes, Take { codes, tree }, cursor.number())?;
    }
    Ok(takes)
}

/// Reads the tree that begins on the next line, where its branches may open `levels` levels.
#[cycle(tree_lines)]
fn tree_at(
    alloc: Global,
    cursor: &mut Cursor,
    format: Format,
    levels: u16,
) -> Result<Tree, TextFault>
    ensures read { ReadsAll (want.Tree format levels
        ∷ []) (λ t. items_of_tree (tree_of t)) [] cursor.old result cursor.new }
    ensures rest { OnOk result (length cursor.new.text ≤ length cursor.old.text) }
{
    let mut branches = Vec::new(alloc);
    let mut levels = levels;
    'branching: loop {
        match cursor.opening(format, levels)? {
            Opening::Branch { county, limit } => {
                let takes = takes_at(alloc, cursor, format, levels)?;
                let branch = Branch {
                    county,
                    limit,
                    takes,
                };
                push_on(&mut branches, branch, cursor.number())?;
                levels = levels_after(format, levels);
            }
            Opening::Stuck(county) => {
                return Ok(Tree {
                    branches,
                    leaf: Leaf::Stuck(county),
                });
            }
            Opening::Seats => {
                return Ok(Tree {
                    branches,
                    leaf: Leaf::Seats,
                });
            }
            Opening::Bound(count) => {
                let allowances = allowances_at(alloc, cursor, count)?;
                return Ok(Tree {
                    branches,
                    leaf: Leaf::Bound(allowances),
                });
            }
        }
    }
}

/// Reads the format from the head at `cursor`, and the tolerance if one is named.
fn head_at(cursor: &mut Cursor) -> Result<(Format, Option<Tolerance>), TextFault>
    ensures read { IfOk result (λ h. ReadsItems (want.Head ∷ []) cursor.old (items_of_head h.0 h.1) (want.Order h.0
        ∷ []) cursor.new) }
    ensures fault { IfErr result (λ f. Refuses (want.Head ∷ []) cursor.old f) }
{
    let (format, version) = cursor.head()?;
    match version {
        Version::One => Ok((format, None)),
        Version::Two => {
            let tolerance = cursor.tolerance()?;
            Ok((format, Some(tolerance)))
        }
    }
}

/// Reads the target at `cursor`, or returns `None` if there is none.
fn target_at(alloc: Global, cursor: &mut Cursor) -> Result<Option<Grouping>, TextFault>
    ensures { ReadsAll (want.Target ∷ []) (λ t. items_of_target (target_of t)) [] cursor.old result cursor.new }
{
    match cursor.target()? {
        Some(count) => {
            let groups = groups_at(alloc, cursor, count)?;
            Ok(Some(Grouping { groups }))
        }
        None => Ok(None),
    }
}

/// Reads the certificate of a `text` by its items.
fn certificate_at(alloc: Global, text: &[u8]) -> Result<Certificate, TextFault>
    ensures { GivesItems (λ c. items_of_certificate (certificate_of c)) result (certificate_items text.now) }
{
    let mut cursor = Cursor::new(text);
    let (format, tolerance) = head_at(&mut cursor)?;
    let order = cursor.order(alloc)?;
    let limit = cursor.limit()?;
    let target = target_at(alloc, &mut cursor)?;
    let tree = tree_at(alloc, &mut cursor, format, order.as_slice().len() as u16)?;
    cursor.end()?;
    ended(&cursor)?;
    Ok(Certificate {
        round: Round {
            order,
            limit,
            target,
            format,
            tolerance,
        },
        tree,
    })
}

/// Reads the certificate that a `text` spells.
///
/// # Errors
///
/// Returns the first fault of the text. If memory was refused, it returns `Memory` in place of any answer.
pub fn read(alloc: Global, text: &[u8]) -> Result<Certificate, TextFault>
    // The text spells the certificate that is read, whose numbers are in their ranges.
    ensures found { IfOk result (λ c. IsSpelling text.now (certificate_of c)) }
    // A certificate that the text spells is read, unless memory is refused.
    ensures only { (c : CertificateValue) → IsSpelling text.now c → IsUnlessMemory (λ d. certificate_of d) result c }
    // Unless memory was refused, the fault is that of the items of the text.
    ensures fault { IfErr result (λ f. (IsTextMemory f → ⊥) → certificate_items text.now ≡ Err f) }
{
    certificate_at(alloc, text)
}

/// Reads the tree of a whole `text` by its items.
fn whole_tree(alloc: Global, text: &[u8], format: Format, counties: u16) -> Result<Tree, TextFault>
    ensures { GivesItems (λ t. items_of_tree (tree_of t)) result (tree_items format counties text.now) }
{
    let mut cursor = Cursor::new(text);
    let tree = tree_at(alloc, &mut cursor, format, counties)?;
    ended(&cursor)?;
    Ok(tree)
}

/// Reads the tree that a `text` spells, for an order of `counties` counties.
///
/// # Errors
///
/// Returns the first fault of the text. If memory was refused, it returns `Memory` in place of any answer.
pub fn read_tree(
    alloc: Global,
    text: &[u8],
    format: Format,
    counties: u16,
) -> Result<Tree, TextFault>
    requires { counties ≤ most }
    ensures found { IfOk result (λ t. IsTreeSpelling format counties text.now (tree_of t)) }
    ensures only { (t : TreeValue) → IsTreeSpelling format counties text.now t
        → IsUnlessMemory (λ d. tree_of d) result t }
    ensures fault { IfErr result (λ f. (IsTextMemory f → ⊥) → tree_items format counties text.now ≡ Err f) }
{
    whole_tree(alloc, text, format, counties)
}

/// Reads the tree with which a `text` begins, for an order of `counties` counties. Returns the tree and the place of
/// the bytes behind it.
///
/// # Errors
///
/// Returns the first fault of the text up to the end of a tree. If memory was refused, it returns `Memory` in place of
/// any answer.
pub fn front_tree(
    alloc: Global,
    text: &[u8],
    format: Format,
    counties: u16,
) -> Result<(Tree, usize), TextFault>
    requires { counties ≤ most }
    ensures place { IfOk result (λ r. r.1 ≤ length text.now) }
    ensures found { IfOk result (λ r. IsTreeSpelling format counties (take r.1 text.now) (tree_of r.0)) }
    // A front that spells a tree is read, and its length is the place, unless memory is refused.
    ensures only { (front rest : List ℕ) (t : TreeValue) → text.now ≡ front ++ rest
        → IsTreeSpelling format counties front t
        → IsUnlessMemory {V = TreeValue × ℕ} (λ r. (tree_of r.0, r.1)) result (t, length front) }
    // The fault is met whatever is wanted behind the tree.
    ensures fault { IfErr result (λ f. (IsTextMemory f → ⊥) → (more : List Wanted)
        → items_from (want.Tree format counties ∷ more) 1 (raw_lines text.now) ≡ Err f) }
{
    let mut cursor = Cursor::new(text);
    let tree = tree_at(alloc, &mut cursor, format, counties)?;
    Ok((tree, text.len() - cursor.rest().len()))
}
