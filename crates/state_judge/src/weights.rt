//! The weights of a line, by county: whether a text may spell them, and what each county weighs.

ghost use Rattle.std.specs.{Prelude.{◌≡◌, ◌≤◌, true, map, IfOk, IsTrue, ◌↔◌}, List.list_all};
ghost use Rattle.grouping_laws.specs.Sets.{contains};
ghost use Rattle.certificate_lines.specs.Lines.{ascend};
ghost use Rattle.state_judge.specs.Weights.{county_weight};

use certificate_data::Weight;
use certificate_lines::ascend;
use county_codes::{CountyCode, has_code};
use std::alloc::{AllocError, Global};

/// Returns whether a text may spell the `quota` and the `weights`. The quota must not be 0, and the codes must ascend.
pub(crate) fn is_spelled(quota: u32, weights: &[Weight]) -> bool
    ensures { IsTrue result ↔ ((1 ≤ quota) × (ascend weights.now ≡ true)) }
{
    quota > 0 && ascend(weights)
}

/// Returns whether each weight is that of one of the `codes`.
pub(crate) fn are_known(codes: &[CountyCode], weights: &[Weight]) -> bool
    ensures { result ≡ list_all (λ w. contains codes.now w.county) weights.now }
{
    weights.iter().all(|weight| has_code(codes, weight.county))
}

/// Returns the weight of the county with this `code`, or 0 if it has none.
fn weight_at(weights: &[Weight], code: CountyCode) -> u32
    requires { ascend weights.now ≡ true }
    ensures { result ≡ county_weight weights.now code }
{
    let mut weights = weights;
    while let [first, rest @ ..] = weights {
        if first.county == code {
            return first.weight;
        }
        weights = rest;
    }
    0
}

/// Returns the weight of each of the `codes`, in the same order.
pub(crate) fn weights_at(
    alloc: Global,
    codes: &[CountyCode],
    weights: &[Weight],
) -> Result<Vec<u32>, AllocError>
    requires { ascend weights.now ≡ true }
    ensures { IfOk result (λ v. v.items ≡ map (county_weight weights.now) codes.now) }
{
    let mut table = Vec::new(alloc);
    for code in codes {
        table.push(weight_at(weights, *code))?;
    }
    Ok(table)
}
