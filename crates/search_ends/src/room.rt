//! Bound leaves that end with `room`: too few counties are open for the groups that are wanted.

ghost use Rattle.std.specs.Prelude.{ℕ, ◌<◌, ◌≤◌, List, length, ⊤, IfOk, MatchOption};
ghost use Rattle.certificate_laws.specs.Fitting.{Fits};
ghost use Rattle.search_groups.specs.Positions.{search_problem, search_state};
ghost use Rattle.search_ends.specs.GivenLeaf.{IsStateIn, IsGivenAt, IsCompleteAt};

use crate::empty_leaves::ending_leaf;
use crate::standing::wanted_more;
use certificate_data::{Allowance, Leaf};
use place_sets::CountySet;
use search_groups::SearchInput;
use state_groups::State;
use state_judge::room_left;
use std::alloc::AllocError;

/// Returns a bound leaf that ends with `room` at a `size`, in counties, below which no group fits. The leaf says that
/// there is no room for as many groups of the size as are wanted. Returns `None` if there is room, or if `wanted_more`
/// returns `None`. The leaf falls short, so it is complete.
///
/// Returns an error if memory was refused.
pub fn room_leaf<C: CountySet>(
    input: &SearchInput<C>,
    state: &State<C>,
    size: u16,
) -> Result<Option<Leaf>, AllocError>
    requires at { IsStateIn C.PLACES C.test input.now state.now }
    requires size { 1 ≤ size }
    requires small { size ≤ input.now.round.now.limit }
    requires none { (g : List ℕ)
        → Fits input.now.round.now.format (search_problem input.now) (search_state input.now C.test state.now) g
        → length g < size
        → ⊥ }
    ensures leaf { IfOk result (λ found. MatchOption found ⊤ (IsGivenAt C.test input.now state.now)) }
    ensures complete { IfOk result (λ found. MatchOption found ⊤ (IsCompleteAt C.test input.now state.now)) }
{
    let Some(wanted) = wanted_more(input, state, size) else {
        return Ok(None);
    };
    let room = room_left(input.graph.alloc, input.graph.ordered, state, size, 0)?;
    if room / u32::from(size) >= wanted {
        return Ok(None);
    }
    Ok(Some(ending_leaf(input, state, size, Allowance::Room)?))
}
