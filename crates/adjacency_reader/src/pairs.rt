//! The adjacent pairs of listed counties, read from the Census Bureau's county adjacency file.

ghost use Rattle.std.specs.{Prelude.{◌≡◌, ℕ, ◌&&◌, ◌||◌, nat_lt, IfOk, OnOk, filter}, Ordering.nat_cmp};
ghost use Rattle.std.specs.List.Sorted.{IsStrictlySortedBy};
ghost use Rattle.std.specs.BTreeSet.{contains as set_contains};
ghost use Rattle.grouping_laws.specs.Sets.{contains};
ghost use Rattle.county_problem.specs.ProblemValue.{names_both};
ghost use Rattle.field_lines.specs.Values.{AnswersUnless};
ghost use Rattle.grouping_reader.specs.Faults.{IsCodeLineMemory};
ghost use Rattle.adjacency_reader.specs.Pairs.{by_codes, in_order, names, ArePairs, IsPairsAnswer};

use crate::rows::read_rows;
use county_codes::CountyCode;
use grouping_reader::{CodeLineFault, CodeLineKind};
use std::alloc::{AllocError, Global};
use std::collections::BTreeSet;

/// Returns the codes `a` and `b`, the lesser first.
pub(crate) fn in_order(a: CountyCode, b: CountyCode) -> (CountyCode, CountyCode)
    ensures { result ≡ in_order a b }
{
    if a < b { (a, b) } else { (b, a) }
}

/// Returns the `codes` as a set.
fn code_set(alloc: Global, codes: &[CountyCode]) -> Result<BTreeSet<CountyCode>, AllocError>
    ensures { IfOk result (λ s. (c : ℕ) → set_contains nat_cmp s c ≡ contains codes.now c) }
{
    let mut set = BTreeSet::new(alloc);
    for code in codes {
        set.insert(*code)?;
    }
    Ok(set)
}

/// Returns whether both codes of the `row` are in the set.
fn has_both(listed: &BTreeSet<CountyCode>, row: (CountyCode, CountyCode)) -> bool
    ensures { result ≡ (set_contains nat_cmp listed.now row.0 && set_contains nat_cmp listed.now row.1) }
{
    listed.contains(&row.0) && listed.contains(&row.1)
}

/// Returns the `rows` whose codes are both in the set, in their order.
fn listed_rows(
    alloc: Global,
    listed: &BTreeSet<CountyCode>,
    rows: &[(CountyCode, CountyCode)],
) -> Result<Vec<(CountyCode, CountyCode)>, AllocError>
    ensures { IfOk result (λ v. v.items
        ≡ filter (λ q. set_contains nat_cmp listed.now q.0 && set_contains nat_cmp listed.now q.1) rows.now) }
{
    let mut kept = Vec::new(alloc);
    for row in rows {
        if has_both(listed, *row) {
            kept.push(*row)?;
        }
    }
    Ok(kept)
}

/// Adds the pair of the codes `a` and `b` to the set, the lesser first. The same code twice adds nothing.
pub(crate) fn add_pair(
    pairs: &mut BTreeSet<(CountyCode, CountyCode)>,
    a: CountyCode,
    b: CountyCode,
) -> Result<(), AllocError>
    ensures { OnOk result ((x y : ℕ)
        → set_contains by_codes pairs.new (x, y) ≡ (nat_lt x y && names x y (a, b) || set_contains by_codes pairs.old (x, y))) }
{
    if a != b {
        pairs.insert(in_order(a, b))?;
    }
    Ok(())
}

/// Returns the pairs of two different codes that the `rows` name in either order, the lesser code first.
pub(crate) fn pair_set(
    alloc: Global,
    rows: &[(CountyCode, CountyCode)],
) -> Result<BTreeSet<(CountyCode, CountyCode)>, AllocError>
    ensures { IfOk result (λ s. (x y : ℕ) → set_contains by_codes s (x, y) ≡ (nat_lt x y && names_both rows.now x y)) }
{
    let mut pairs = BTreeSet::new(alloc);
    for (a, b) in rows {
        add_pair(&mut pairs, *a, *b)?;
    }
    Ok(pairs)
}

/// Returns the pairs of the set `pairs`, ascending.
pub(crate) fn list(
    alloc: Global,
    pairs: &BTreeSet<(CountyCode, CountyCode)>,
) -> Result<Vec<(CountyCode, CountyCode)>, AllocError>
    ensures value { IfOk result (λ v. v.items ≡ pairs.now.keys) }
    ensures ascending { IsStrictlySortedBy by_codes pairs.now.keys }
{
    pairs.iter().copied().collect(alloc)
}

/// Returns the pairs of two different counties of the list that the `rows` name. They are ascending, each once and with
/// the lesser code first.
fn pairs_among(
    alloc: Global,
    counties: &[CountyCode],
    rows: &[(CountyCode, CountyCode)],
) -> Result<Vec<(CountyCode, CountyCode)>, AllocError>
    ensures { IfOk result (λ v. ArePairs counties.now rows.now v.items) }
{
    let listed = code_set(alloc, counties)?;
    let rows = listed_rows(alloc, &listed, rows)?;
    let pairs = pair_set(alloc, &rows)?;
    list(alloc, &pairs)
}

/// Reads the pairs of `counties` that meet from `bytes`, the Census Bureau's county adjacency file. They are ascending,
/// each once and with the lesser code first.
///
/// The file is a cut text (`Lines` of `field_lines`), and a line is cut into fields at each pipe. Field 2 is the
/// county's GEOID, and field 4 its neighbour's. Either direction counts. A row of a county outside `counties`, or of a
/// county beside itself, is ignored.
///
/// The first line that isn't blank is a header if its second field is missing or isn't five digits. A header is
/// dropped.
///
/// # Errors
///
/// Returns the fault of the first line that has one, and if it has several, the first kind: `TooFewFields` if the line
/// has fewer than 4 fields, then `BadCode` if field 2 or field 4 isn't five digits, whatever counties the line names.
/// Returns `Lower` for a line that can't be read, after the faults of the lines before it. `Memory` may come in the
/// place of any answer.
pub fn read_pairs(
    alloc: Global,
    bytes: &[u8],
    counties: &[CountyCode],
) -> Result<Vec<(CountyCode, CountyCode)>, CodeLineFault>
    ensures pairs { AnswersUnless IsCodeLineMemory (λ v. v.items) result (IsPairsAnswer bytes.now counties.now) }
{
    let rows = read_rows(alloc, bytes)?;
    match pairs_among(alloc, counties, &rows) {
        Ok(pairs) => Ok(pairs),
        Err(AllocError) => Err(CodeLineFault {
            kind: CodeLineKind::Memory,
            line: 0,
        }),
    }
}
