//! Whether a form of sets has room for an order.

ghost use Rattle.std.specs.Prelude.{◌≤◌, length, IfOk};

use anyhow::{Error, Result};
use county_problem::Ordered;
use place_sets::CountySet;

/// Checks that the form of sets has a place for each county of `ordered`. Returns an error if it has fewer places.
pub(crate) fn room_for<C: CountySet>(ordered: &Ordered) -> Result<()>
    ensures { IfOk result (λ _. length ordered.now.order ≤ C.PLACES) }
{
    if u32::from(ordered.places()) > C::PLACES {
        return Err(Error::msg("the form of sets has too few places"));
    }
    Ok(())
}
