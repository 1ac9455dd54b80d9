//! Questions about lists of county codes: membership, the first repeated code, the first unlisted code.

ghost use Rattle.std.specs.Prelude.{◌≡◌, ℕ, IfOk};
ghost use Rattle.place_sets.specs.Lists.{contains};
ghost use Rattle.county_codes.specs.{CodeLists.{first_repeated, first_unlisted}, Counties.codes_of};

use crate::code::CountyCode;
use crate::county::County;
use std::alloc::{AllocError, Global};

/// Returns whether `code` is one of the `codes`.
pub fn has_code(codes: &[CountyCode], code: CountyCode) -> bool
    ensures { result ≡ contains codes.now code }
{
    codes.iter().any(|c| *c == code)
}

/// Returns the first of the `codes` that occurred before, or `None` if none is repeated.
pub fn repeated_code(codes: &[CountyCode]) -> Option<CountyCode>
    ensures { result ≡ first_repeated codes.now }
{
    for (i, code) in codes.iter().enumerate() {
        if has_code(&codes[..i], *code) {
            return Some(*code);
        }
    }
    None
}

/// Returns the first of the `codes` that isn't in `listed`, or `None` if all of them are.
pub fn unlisted_code(listed: &[CountyCode], codes: &[CountyCode]) -> Option<CountyCode>
    ensures { result ≡ first_unlisted listed.now codes.now }
{
    for code in codes {
        if !has_code(listed, *code) {
            return Some(*code);
        }
    }
    None
}

/// Returns the codes of the `counties`, in their order.
pub fn listed_codes(alloc: Global, counties: &[County]) -> Result<Vec<CountyCode>, AllocError>
    ensures { IfOk result (λ v. v.items ≡ codes_of counties.now) }
{
    counties.iter().map(|county| county.code).collect(alloc)
}
