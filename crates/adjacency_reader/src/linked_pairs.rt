//! Links applied to the adjacent pairs: the last link that names two counties adds or cuts their pair.

ghost use Rattle.std.specs.Prelude.{◌≡◌, ℕ, ◌&&◌, not, nat_lt, List, IfOk, OnOk, Some, None, if◌then◌else◌};
ghost use Rattle.std.specs.BTreeSet.{contains};
ghost use Rattle.adjacency_reader.specs.{Pairs.{by_codes, names, ArePairs}, Links.is_on};
ghost use Rattle.adjacency_reader.specs.Adjacency.{joined_by, AreLinked, AreAdjacent};

use crate::links::{Link, Sign};
use crate::pairs::{add_pair, in_order, list, pair_set};
use county_codes::CountyCode;
use std::alloc::{AllocError, Global};
use std::collections::BTreeSet;

/// Cuts the pair of the codes `a` and `b` from the set, if it is there. The same code twice cuts nothing.
fn cut_pair(pairs: &mut BTreeSet<(CountyCode, CountyCode)>, a: CountyCode, b: CountyCode)
    ensures { (x y : ℕ) → contains by_codes pairs.new (x, y) ≡ (not (nat_lt x y && names x y (a, b))
        && contains by_codes pairs.old (x, y)) }
{
    if a != b {
        pairs.remove(&in_order(a, b));
    }
}

/// Adds the pair of counties of `link` to `linked` or cuts it from `linked`, as the sign of the `link` says. Two equal
/// codes change nothing.
fn apply(linked: &mut BTreeSet<(CountyCode, CountyCode)>, link: &Link) -> Result<(), AllocError>
    ensures { OnOk result ((a b : ℕ)
        → contains by_codes linked.new (a, b)
        ≡ joined_by (if nat_lt a b
        && is_on a b link.now then Some link.now.sign else None) (contains by_codes linked.old (a, b))) }
{
    match link.sign {
        Sign::Add => add_pair(linked, link.a, link.b),
        Sign::Cut => {
            cut_pair(linked, link.a, link.b);
            Ok(())
        }
    }
}

/// Returns the pairs after `links` that add or cut some. They are ascending, each once and with the lesser code first.
///
/// The last link that names two counties, in either order, decides on them. A link of a county with itself does
/// nothing, and neither does a cut of a pair that isn't there. `pairs` may come in any order, either way round, and
/// more than once. A pair of a county with itself is dropped. A pair that a link adds stays even if one of its counties
/// is in no list, for the problem to refuse.
///
/// # Errors
///
/// Returns `AllocError` if memory was refused.
pub fn apply_links(
    alloc: Global,
    pairs: &[(CountyCode, CountyCode)],
    links: &[Link],
) -> Result<Vec<(CountyCode, CountyCode)>, AllocError>
    ensures linked { IfOk result (λ v. AreLinked pairs.now links.now v.items) }
    ensures adjacent { IfOk result (λ v. (listed : List ℕ) (rows : List (ℕ × ℕ)) → ArePairs listed rows pairs.now
        → AreAdjacent listed rows links.now v.items) }
{
    let mut linked = pair_set(alloc, pairs)?;
    for link in links {
        apply(&mut linked, link)?;
    }
    list(alloc, &linked)
}
