//! The codes of an order and of a set of its places, and the place of a code.

ghost use Rattle.std.specs.{Prelude.{◌≡◌, false, ◌<◌, ◌≤◌, length, All, IfOk, MatchOption}, List.AllByRecursion};
ghost use Rattle.grouping_laws.specs.Sets.{contains};
ghost use Rattle.county_problem.specs.{OrderedValue.code_at, OrderCodes.codes_of_set};

use crate::ordered_counties::Ordered;
use county_codes::{Codes, CountyCode};
use place_sets::CountySet;
use std::alloc::{AllocError, Global};

impl Ordered<'_> {
    /// Returns the codes of all counties, in the order of their places, or an error if memory was refused.
    pub fn codes(&self, alloc: Global) -> Result<Codes, AllocError>
        ensures value { IfOk result (λ codes. codes ≡ self.now.order) }
        ensures small { IfOk result (AllByRecursion (λ c. c ≤ 99999)) }
    {
        let mut codes = Vec::new(alloc);
        for place in 0..self.places() {
            let code = self.code(place);
            let _small = code.get();
            codes.push(code)?;
        }
        Ok(Codes::new(codes))
    }

    /// Returns the codes of the counties of `set`, in the order of their places, or an error if memory was refused.
    pub fn codes_of<C: CountySet>(&self, alloc: Global, set: &C) -> Result<Codes, AllocError>
        requires fits { length self.now.order ≤ C.PLACES }
        ensures value { IfOk result (λ codes. codes ≡ codes_of_set self.now.order C.test set.now) }
        ensures small { IfOk result (λ codes. All (λ c. c ≤ 99999) codes) }
    {
        let mut codes = Vec::new(alloc);
        for place in 0..self.places() {
            if set.has(place) {
                let code = self.code(place);
                let _small = code.get();
                codes.push(code)?;
            }
        }
        Ok(Codes::new(codes))
    }

    /// Returns the place of the county with this `code`, or `None` if the order has no such county.
    pub fn place_of(&self, code: CountyCode) -> Option<u16>
        ensures { MatchOption result (contains self.now.order code ≡ false) (λ place. (place < length self.now.order)
            × (code_at self.now.order place ≡ code)) }
    {
        for place in 0..self.places() {
            if self.code(place) == code {
                return Some(place);
            }
        }
        None
    }
}
