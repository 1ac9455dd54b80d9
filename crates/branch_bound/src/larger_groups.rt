//! The groups of one county more than those that are known: when they are listed ahead, and what they serve for.
//!
//! If they are listed at a state, then no list of them is made below it until a larger size is next. Those that are
//! left there are tested instead. That saves steps where many groups of the present size are still wanted.

ghost use Rattle.std.specs.Prelude.{◌≡◌, ◌≤◌, IfOk, IsErrOf};
ghost use Rattle.connected_sets.specs.declared.stop.Stop.{Stop};
ghost use Rattle.branch_bound.specs.Searching.{search_state, IsSearchInput, IsPositionAt};

use connected_sets::Stop;
use county_problem::Steps;
use place_sets::CountySet;
use search_ends::wanted_more;
use search_groups::{Position, SearchInput, larger_groups};

/// The number of steps before which no groups are listed ahead.
const FIRST_STEPS: u64 = 100_000;

/// The least number of wanted groups of the present size at which larger ones are listed ahead.
const LEAST_WANTED: u32 = 4;

/// The number of wanted groups of the present size at which the groups that are listed ahead are tested.
const TEST_WANTED: u32 = 2;

/// Returns whether `larger_groups` is called for the `position`, where `wanted` groups are wanted and `used` steps are
/// taken. If the groups of one county more aren't listed yet, it tells whether they are to be listed. Otherwise it
/// tells whether the dead ones are to be left out.
fn wants_larger<C: CountySet>(position: &Position<C>, limit: u16, wanted: u32, used: u64) -> bool {
    match &position.larger {
        Some(larger) => wanted == TEST_WANTED && !larger.tested,
        None => wanted >= LEAST_WANTED && position.size < limit && used >= FIRST_STEPS,
    }
}

/// Returns `position`, at which a branch begins, with the same groups of its size. If at least `LEAST_WANTED` more of
/// these are wanted, the groups of one county more are listed, unless fewer than `FIRST_STEPS` steps were taken or the
/// size is the round's limit. If exactly `TEST_WANTED` are wanted, those that are listed already are tested. Returns
/// `StepLimit` if the steps ran out, and `Memory` if memory was refused.
pub(crate) fn with_larger<C: CountySet>(
    input: &SearchInput<C>,
    position: Position<C>,
    steps: &mut Steps,
) -> Result<Position<C>, Stop>
    requires input { IsSearchInput C.PLACES C.test input.now }
    requires at { IsPositionAt C.test input.now (search_state input.now C.test position.state) position }
    ensures at { IfOk result (λ at. IsPositionAt C.test input.now (search_state input.now C.test position.state) at
        × (at.groups ≡ position.groups)) }
    ensures more { steps.old.used ≤ steps.new.used }
    ensures limit { steps.new.limit ≡ steps.old.limit }
    ensures stopped { IsErrOf result Stop.StepLimit → steps.new.used ≡ steps.new.limit }
{
    let Some(wanted) = wanted_more(input, &position.state, position.size) else {
        return Ok(position);
    };
    if !wants_larger(&position, input.round.limit, wanted, steps.used()) {
        return Ok(position);
    }
    match larger_groups(input, &position, steps) {
        Ok(larger) => Ok(Position {
            larger: Some(larger),
            ..position
        }),
        Err(stop) => Err(stop),
    }
}
