//! Census blocks at fault by themselves: unlisted ones, those that two lines name, and unassigned ones with people.

ghost use Rattle.std.specs.{Prelude.{◌≡◌, ◌<◌, ℕ, IfOk, All, is_none, nat_lt, ◌&&◌, not, map}, List.filter_map};
ghost use Rattle.std.specs.List.Sorted.{IsStrictlyIncreasing, IsStrictlySortedBy, IsPermutation, IsSorted};
ghost use Rattle.std.specs.{Ordering.nat_cmp, Map.lookup, BTreeMap.is_at};
ghost use Rattle.baf_auditor.specs.Order.{by_block};
ghost use Rattle.baf_auditor.specs.{Findings.{plan_of, drawn_sets}, Kinds.AreBlockKinds};
ghost use Rattle.baf_auditor.specs.{Naming.has_district, Listing.{kept, listing}};

use crate::assignments::Assignment;
use crate::block_list::listed_blocks;
use crate::entries::value_of;
use crate::line_counts::{Named, named_blocks};
use crate::lines_by_block::Line;
use county_codes::Grouping;
use county_problem::Problem;
use pl94_counties::Block;
use std::alloc::{AllocError, Global};

/// Returns `code` if `is_kept`, else `None`.
fn keep(is_kept: bool, code: u64) -> Option<u64>
    ensures { result ≡ kept is_kept code }
{
    if is_kept { Some(code) } else { None }
}

/// Returns `code` if it isn't listed.
fn unlisted(listed: &[(u64, u32)], code: u64) -> Option<u64>
    requires { IsStrictlySortedBy nat_cmp (map (λ e. e.0) listed.now) }
    ensures { result ≡ kept (is_none (lookup (is_at (nat_cmp code)) listed.now)) code }
{
    keep(value_of(listed, code).is_none(), code)
}

/// Returns the `code` of a listed block if it has `people` and no line gives it to a district.
fn unassigned(named: &[(u64, Named)], code: u64, people: u32) -> Option<u64>
    requires { IsStrictlySortedBy nat_cmp (map (λ e. e.0) named.now) }
    ensures { result ≡ kept (nat_lt 0 people && not (has_district (lookup (is_at (nat_cmp code)) named.now))) code }
{
    let assigned = value_of(named, code).is_some_and(|named| named.assigned);
    keep(people > 0 && !assigned, code)
}

/// Returns the codes of `named`, the blocks that lines name, that aren't `listed`, in ascending order.
fn unknown_codes(
    alloc: Global,
    named: &[(u64, Named)],
    listed: &[(u64, u32)],
) -> Result<Vec<u64>, AllocError>
    requires { IsStrictlySortedBy nat_cmp (map (λ e. e.0) listed.now) }
    ensures { IfOk result (λ v. v.items
        ≡ filter_map (λ e. kept (is_none (lookup (is_at (nat_cmp e.0)) listed.now)) e.0) named.now) }
{
    named
        .iter()
        .filter_map(|entry| unlisted(listed, entry.0))
        .collect(alloc)
}

/// Returns the codes of `named` that two or more lines name, in ascending order.
fn twice_codes(alloc: Global, named: &[(u64, Named)]) -> Result<Vec<u64>, AllocError>
    ensures { IfOk result (λ v. v.items ≡ filter_map (λ e. kept e.1.twice e.0) named.now) }
{
    named
        .iter()
        .filter_map(|entry| keep(entry.1.twice, entry.0))
        .collect(alloc)
}

/// Returns the codes of `listed` blocks with people that no line gives to a district, as `named` tells, in ascending
/// order.
fn unassigned_codes(
    alloc: Global,
    named: &[(u64, Named)],
    listed: &[(u64, u32)],
) -> Result<Vec<u64>, AllocError>
    requires { IsStrictlySortedBy nat_cmp (map (λ e. e.0) named.now) }
    ensures { IfOk result (λ v. v.items
        ≡ filter_map (λ e. kept (nat_lt 0 e.1
        && not (has_district (lookup (is_at (nat_cmp e.0)) named.now))) e.0) listed.now) }
{
    listed
        .iter()
        .filter_map(|entry| unassigned(named, entry.0, entry.1))
        .collect(alloc)
}

/// The blocks that findings name alone, each list by code, and the listed blocks.
#[derive(Drop)]
pub(crate) struct BlockKinds {
    /// Named by a line and not listed.
    pub(crate) unknown: Vec<u64>,
    /// Named by two or more lines.
    pub(crate) twice: Vec<u64>,
    /// Listed, with people, and given to no district.
    pub(crate) unassigned: Vec<u64>,
    /// The people of each listed block by its code.
    pub(crate) listed: Vec<(u64, u32)>,
}

/// Returns what is found of single blocks by the `ordered` lines of a file that name them. These are the `lines` of the
/// file in the order of their blocks.
pub(crate) fn block_kinds(
    alloc: Global,
    problem: &Problem,
    grouping: &Grouping,
    blocks: &[Block],
    lines: &[Assignment],
    ordered: &[Line<'_>],
) -> Result<BlockKinds, AllocError>
    requires fits { All (λ block. block.code < 1000000000000000) blocks.now }
    requires ascending { IsStrictlyIncreasing (map (λ block. block.code) blocks.now) }
    requires same { IsPermutation lines.now ordered.now }
    requires ordered { IsSorted by_block ordered.now }
    ensures kinds { IfOk result (λ k. AreBlockKinds (plan_of problem.now grouping.now.groups.items blocks.now lines.now) k.unknown.items k.twice.items k.unassigned.items) }
    ensures listed { IfOk result (λ k. (code : ℕ)
        → lookup (is_at (nat_cmp code)) k.listed.items ≡ listing (drawn_sets problem.now grouping.now.groups.items) blocks.now code) }
    ensures sorted { IfOk result (λ k. IsStrictlySortedBy nat_cmp (map (λ e. e.0) k.listed.items)) }
{
    let named = named_blocks(alloc, ordered)?;
    let listed = listed_blocks(alloc, problem, grouping, blocks)?;
    let unknown = unknown_codes(alloc, &named, &listed)?;
    let twice = twice_codes(alloc, &named)?;
    let unassigned = unassigned_codes(alloc, &named, &listed)?;
    Ok(BlockKinds {
        unknown,
        twice,
        unassigned,
        listed,
    })
}
