//! States by the places of an order: the first one, and those after a group is closed or a county is raised.

ghost use Rattle.std.specs.Prelude.{◌≡◌, ℕ, ◌<◌, ◌≤◌, cond, nat_lt, length, get_or, IfOk};
ghost use Rattle.county_problem.specs.{ProblemValue.problem_of, OrderedValue.{at_places, code_at}};
ghost use Rattle.certificate_laws.specs.State.{empty_state, close, raise};
ghost use Rattle.state_groups.specs.{StateValue.state_of, PlacedValues.{state_at, codes_of_set, IsPlaced, IsClosable}};

use county_problem::Ordered;
use place_sets::{CountySet, copy_sets};
use std::alloc::{AllocError, Global};

/// Where a search or a proof tree stands, by the places of an order. A state has the groups that are closed, the other
/// counties, and how large a group each of these asks for.
///
/// The type is defined here, below the checker and the solver, since both go from state to state. Their contracts speak
/// of its value by places, `state_of`, and of the value by codes that this stands for, `in_codes`.
#[derive(Debug, Drop)]
pub struct State<C> {
    /// The places of each closed group, in the order in which the groups were closed.
    pub closed: Vec<C>,
    /// The places of the counties that are in no closed group.
    pub rest: C,
    /// For each place of the order, the least size, in counties, of a group that it may lie in. It is 0 where nothing
    /// is asked, which includes each place outside the rest.
    pub least: Vec<u16>,
}

/// Returns the set of all places below `places`.
fn all_places<C: CountySet>(alloc: Global, places: u16) -> Result<C, AllocError>
    requires { places ≤ C.PLACES }
    ensures { IfOk result (λ s. (x : ℕ) → C.test s x ≡ nat_lt x places) }
{
    let mut all = C::empty(alloc)?;
    for place in 0..places {
        all = all.with(alloc, place)?;
    }
    Ok(all)
}

/// Returns a list with a 0 for each of this number of `places`.
fn no_sizes(alloc: Global, places: u16) -> Result<Vec<u16>, AllocError>
    ensures count { IfOk result (λ v. length v.items ≡ places) }
    ensures none { IfOk result (λ v. (x : ℕ) → get_or v.items x 0 ≡ 0) }
{
    let mut least = Vec::new(alloc);
    for _ in 0..places {
        least.push(0)?;
    }
    Ok(least)
}

/// Sets the numbers of `least` at the places of `set` to 0. The others stay the same.
fn clear_sizes<C: CountySet>(least: &mut Vec<u16>, set: &C)
    requires fits { length least.old.items ≤ C.PLACES }
    requires few { length least.old.items < 65536 }
    ensures count { length least.new.items ≡ length least.old.items }
    ensures sizes { (x : ℕ) → x < length least.old.items
        → get_or least.new.items x 0 ≡ cond (C.test set.now x) 0 (get_or least.old.items x 0) }
{
    for place in 0..least.len() {
        if set.has(place as u16) {
            least[place] = 0;
        }
    }
}

/// Returns the state of `ordered` at which a search begins. No group is closed, and each county may lie in a group of
/// any size.
fn empty_by_places<C: CountySet>(alloc: Global, ordered: &Ordered) -> Result<State<C>, AllocError>
    requires fits { length ordered.now.order ≤ C.PLACES }
    ensures value { IfOk result (λ s. state_of C.test s
        ≡ empty_state (at_places (problem_of ordered.now.problem) ordered.now.order)) }
    ensures places { IfOk result (λ s. length s.least.items ≡ length ordered.now.order) }
{
    let places = ordered.places();
    Ok(State {
        closed: Vec::new(alloc),
        rest: all_places(alloc, places)?,
        least: no_sizes(alloc, places)?,
    })
}

/// Returns the state of `ordered` at which a certificate begins. No group is closed, and nothing is asked of a county.
/// Returns an error if memory was refused.
pub fn first_state<C: CountySet>(alloc: Global, ordered: &Ordered) -> Result<State<C>, AllocError>
    requires fits { length ordered.now.order ≤ C.PLACES }
    ensures value { IfOk result (λ s. state_at ordered.now.order C.test s
        ≡ empty_state (problem_of ordered.now.problem)) }
    ensures placed { IfOk result (λ s. IsPlaced (length ordered.now.order) C.test s) }
{
    let _places = ordered.places();
    empty_by_places(alloc, ordered)
}

/// Returns the state where one more `group` of the rest is closed. The old state stays as it is. Returns an error if
/// memory was refused.
pub fn closed_state<C: CountySet>(
    alloc: Global,
    ordered: &Ordered,
    state: &State<C>,
    group: &C,
) -> Result<State<C>, AllocError>
    requires fits { length ordered.now.order ≤ C.PLACES }
    requires placed { IsPlaced (length ordered.now.order) C.test state.now }
    requires group { IsClosable C.test state.now group.now }
    ensures value { IfOk result (λ s. state_at ordered.now.order C.test s
        ≡ close (codes_of_set ordered.now.order C.test group.now) (state_at ordered.now.order C.test state.now)) }
    ensures placed { IfOk result (λ s. IsPlaced (length ordered.now.order) C.test s) }
{
    let _places = ordered.places();
    let mut closed = copy_sets(alloc, &state.closed)?;
    closed.push(group.copy(alloc)?)?;
    let rest = state.rest.copy(alloc)?.minus(group);
    let mut least = state.least.clone()?;
    clear_sizes(&mut least, group);
    Ok(State {
        closed,
        rest,
        least,
    })
}

/// Returns a state that equals `state`, or an error if memory was refused.
pub fn copied_state<C: CountySet>(
    alloc: Global,
    ordered: &Ordered,
    state: &State<C>,
) -> Result<State<C>, AllocError>
    requires placed { IsPlaced (length ordered.now.order) C.test state.now }
    ensures value { IfOk result (λ s. state_at ordered.now.order C.test s
        ≡ state_at ordered.now.order C.test state.now) }
    ensures placed { IfOk result (λ s. IsPlaced (length ordered.now.order) C.test s) }
{
    Ok(State {
        closed: copy_sets(alloc, &state.closed)?,
        rest: state.rest.copy(alloc)?,
        least: state.least.clone()?,
    })
}

/// Raises the county at `place` past the `limit`. From then on, it must lie in a group of more counties than that.
pub fn raise_place<C: CountySet>(ordered: &Ordered, state: &mut State<C>, place: u16, limit: u16)
    requires placed { IsPlaced (length ordered.now.order) C.test state.old }
    requires place { place < length ordered.now.order }
    requires limit { limit < 65535 }
    ensures value { state_at ordered.now.order C.test state.new
        ≡ raise (code_at ordered.now.order place) limit (state_at ordered.now.order C.test state.old) }
    ensures placed { IsPlaced (length ordered.now.order) C.test state.new }
{
    let _places = ordered.places();
    state.least[usize::from(place)] = limit + 1;
}
