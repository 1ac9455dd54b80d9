//! Raising of the counties to what they ask for, where each of them may ask for it.

ghost use Rattle.std.specs.Prelude.{◌≡◌, ◌-◌, ◌≤◌, true, false, length, map, None, IfSome, IsTrue, ◌↔◌};
ghost use Rattle.certificate_data.specs.RoundValue.{round_of};
ghost use Rattle.certificate_laws.specs.State.{IsLeastSize, raise};
ghost use Rattle.state_groups.specs.PlacedValues.{state_at, IsPlaced};
ghost use Rattle.piece_states.specs.{Told.raise_all, PieceValue.asked_of, RoundStates.{CanAsk, EachCanAsk}};

use crate::piece::Asked;
use certificate_data::{Format, Round};
use county_problem::Ordered;
use place_sets::CountySet;
use state_groups::{State, raise_place};

/// Returns whether a county may ask for a group of at least `size` counties, in a round of this `format` and `limit`.
/// In a plain format only `limit` + 1 may be asked for, and in a wide one any size from 1 on.
fn is_asked_size(format: Format, limit: u16, size: u16) -> bool
    ensures { IsTrue result ↔ ((1 ≤ size) × IsLeastSize format limit size) }
{
    match format {
        Format::Plain => u32::from(size) == u32::from(limit) + 1,
        Format::Wide => size > 0,
    }
}

/// Raises the county of `asked` to the size that it asks for, if it may ask, and returns whether it may. If it may not,
/// `state` stays the same. It may ask if it is in the rest, and if the size may be asked for in this `round`.
fn raise_told<C: CountySet>(
    ordered: &Ordered,
    round: &Round,
    state: &mut State<C>,
    asked: &Asked,
) -> bool
    requires fits { length ordered.now.order ≤ C.PLACES }
    requires placed { IsPlaced (length ordered.now.order) C.test state.old }
    ensures placed { IsPlaced (length ordered.now.order) C.test state.new }
    ensures can { result ≡ true → CanAsk (round_of round.now)
        (state_at ordered.now.order C.test state.old) (asked_of asked.now) }
    ensures value { result ≡ true → state_at ordered.now.order C.test state.new
        ≡ raise asked.now.county (asked.now.size - 1) (state_at ordered.now.order C.test state.old) }
    ensures none { result ≡ false → ¬ CanAsk (round_of round.now)
        (state_at ordered.now.order C.test state.old) (asked_of asked.now) }
{
    let _places = ordered.places();
    let Some(place) = ordered.place_of(asked.county) else {
        return false;
    };
    if !state.rest.has(place) {
        return false;
    }
    if !is_asked_size(round.format, round.limit, asked.size) {
        return false;
    }
    raise_place(ordered, state, place, asked.size - 1);
    true
}

/// Returns the state that comes from `state` when the counties of `asked` are raised, one after the other. Returns
/// `None` if one of them may not ask in this `round`.
pub(crate) fn raise_all_told<C: CountySet>(
    ordered: &Ordered,
    round: &Round,
    state: State<C>,
    asked: &[Asked],
) -> Option<State<C>>
    requires fits { length ordered.now.order ≤ C.PLACES }
    requires placed { IsPlaced (length ordered.now.order) C.test state }
    ensures placed { IfSome result (IsPlaced (length ordered.now.order) C.test) }
    ensures value { IfSome result (λ s. state_at ordered.now.order C.test s
        ≡ raise_all (map asked_of asked.now) (state_at ordered.now.order C.test state)) }
    ensures can { IfSome result (λ _. EachCanAsk (round_of round.now)
        (map asked_of asked.now) (state_at ordered.now.order C.test state)) }
    ensures none { result ≡ None → ¬ EachCanAsk (round_of round.now)
        (map asked_of asked.now) (state_at ordered.now.order C.test state) }
{
    let mut state = state;
    'raising: for county in asked {
        if !raise_told(ordered, round, &mut state, county) {
            return None;
        }
    }
    Some(state)
}
