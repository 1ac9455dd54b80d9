//! Tests of whether a line spells a value. There is one for each form of line whose values may be out of range.

ghost use Rattle.std.specs.Prelude.{◌≡◌, ◌≤◌, ◌↔◌, ◌&&◌, ◌∷◌, ◌++◌, nat_le, length, IsTrue, codes, decimal};
ghost use Rattle.std.specs.List.{list_all, flat_map};
ghost use Rattle.field_lines.specs.Fault.{most_bytes};
ghost use Rattle.certificate_lines.specs.{Fitting.{IsWanted, IsSet, AreCodes, AreWeights}, Lines.{most, ascend}};
ghost use Rattle.certificate_lines.specs.Spelling.{weight_word};
ghost use Rattle.certificate_lines.specs.declared.item.Item.TheVariants as item;
ghost use Rattle.certificate_lines.specs.declared.item.Opening.TheVariants as opening;
ghost use Rattle.certificate_lines.specs.declared.item.Wanted.TheVariants as want;

use crate::lines::{MOST, ascend};
use certificate_data::{Allowance, Format, Weight};
use county_codes::{CountyCode, Group};
use field_lines::{MAX_LINE, decimal_length};

/// Returns whether `count` is no more than a line, a target or a leaf may have.
pub fn are_few(count: usize) -> bool
    ensures { result ≡ nat_le count most }
{
    count <= MOST as usize
}

/// Returns whether the `code` has at most five digits, as every code has.
pub fn is_code(code: CountyCode) -> bool
    ensures { result ≡ nat_le code 99999 }
{
    code.get() <= 99_999
}

/// Returns whether each of the `codes` has at most five digits, as every code has.
fn all_codes(codes: &[CountyCode]) -> bool
    ensures { result ≡ list_all (λ c. nat_le c 99999) codes.now }
{
    codes.iter().all(|code| is_code(*code))
}

/// Returns whether there are no more `codes` than an order may have.
fn has_few_codes(codes: &[CountyCode]) -> bool
    ensures { result ≡ (nat_le (length codes.now) most && list_all (λ c. nat_le c 99999) codes.now) }
{
    are_few(codes.len()) && all_codes(codes)
}

/// Returns whether there is at least one code, and there are no more `codes` than a group may have.
fn has_some_codes(codes: &[CountyCode]) -> bool
    ensures { result ≡ (nat_le 1 (length codes.now)
        && (nat_le (length codes.now) most && list_all (λ c. nat_le c 99999) codes.now)) }
{
    !codes.is_empty() && has_few_codes(codes)
}

/// Returns whether a line spells the `order`.
pub fn order_fits(order: &[CountyCode]) -> bool
    ensures { IsTrue result ↔ ((length order.now ≤ most) × AreCodes order.now) }
{
    has_few_codes(order)
}

/// Returns whether a line spells the take of a group with these `codes`.
pub fn take_fits(codes: &[CountyCode]) -> bool
    ensures { IsTrue result ↔ IsSet codes.now }
{
    has_some_codes(codes)
}

/// Returns whether a group may have this number of `seats`. It may have every number of the type.
fn are_seats(seats: u16) -> bool
    ensures { result ≡ nat_le seats 65535 }
{
    u32::from(seats) <= 65_535
}

/// Returns whether a line spells the `group` of a target.
pub fn group_fits(group: &Group) -> bool
    ensures { IsTrue result ↔ ((group.now.seats ≤ 65535) × IsSet group.now.codes) }
{
    if !are_seats(group.seats) {
        return false;
    }
    take_fits(group.codes.as_slice())
}

/// Returns whether a line spells the branch, where branches may still open `levels` levels.
pub fn branch_fits(format: Format, levels: u16, county: CountyCode, limit: Option<u16>) -> bool
    ensures { IsTrue result ↔ IsWanted (want.Tree format levels) (item.Opens (opening.Branch county limit)) }
{
    if levels == 0 || !is_code(county) {
        return false;
    }
    match (format, limit) {
        (Format::Plain, None) => true,
        (Format::Wide, Some(limit)) => limit > 0 && are_few(usize::from(limit)),
        _ => false,
    }
}

/// Returns whether the county's `weight` is in its range, and its code has at most five digits.
fn is_weight(weight: Weight) -> bool
    ensures { result ≡ (nat_le weight.county 99999 && (nat_le 1 weight.weight && nat_le weight.weight 1000000)) }
{
    is_code(weight.county) && 1 <= weight.weight && weight.weight <= 1_000_000
}

/// Returns whether each of the `weights` is in its range, with a code of at most five digits.
fn are_weights(weights: &[Weight]) -> bool
    ensures { result ≡ list_all (λ w. nat_le w.county 99999
        && (nat_le 1 w.weight && nat_le w.weight 1000000)) weights.now }
{
    weights.iter().all(|weight| is_weight(*weight))
}

/// Returns whether the `quota` and the `weights` are in their ranges, and the codes ascend.
fn have_ranges(quota: u32, weights: &[Weight]) -> bool
    ensures { result ≡ (nat_le 1 quota
        && (nat_le quota 256000000
        && (list_all (λ w. nat_le w.county 99999 && (nat_le 1 w.weight && nat_le w.weight 1000000)) weights.now
        && ascend weights.now))) }
{
    1 <= quota && quota <= 256_000_000 && are_weights(weights) && ascend(weights)
}

/// Returns whether the line of the `quota` and the `weights` is no longer than a line may be.
fn is_short(quota: u32, weights: &[Weight]) -> bool
    ensures { result ≡ nat_le (length (codes "weigh "
        ++ (decimal quota ++ flat_map (λ w. 32 ∷ weight_word w) weights.now))) most_bytes }
{
    let mut length = 6 + decimal_length(u64::from(quota));
    for weight in weights {
        if length > MAX_LINE {
            return false;
        }
        length += 7 + decimal_length(u64::from(weight.weight));
    }
    length <= MAX_LINE
}

/// Returns whether a line of a bound leaf spells the `quota` and the `weights`.
fn weigh_fits(quota: u32, weights: &[Weight]) -> bool
    ensures { IsTrue result ↔ AreWeights quota weights.now }
{
    if !have_ranges(quota, weights) {
        return false;
    }
    is_short(quota, weights)
}

/// Returns whether a line spells the `allowance` of a bound leaf.
pub fn allowance_fits(allowance: &Allowance) -> bool
    ensures { IsTrue result ↔ IsWanted (want.Allowances 1) (item.Allows allowance.now) }
{
    match allowance {
        Allowance::Room => true,
        Allowance::Weigh { quota, weights } => weigh_fits(*quota, weights.as_slice()),
    }
}
