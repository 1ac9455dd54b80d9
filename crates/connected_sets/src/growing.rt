//! The growth of connected sets, place by place. A test says what is kept, what is passed over and which place comes
//! next.

ghost use Rattle.std.specs.Prelude.{◌≡◌, ℕ, ◌+◌, Bool, List, ◌<◌, ◌≤◌, ◌&&◌, not, ◌==◌, MatchOption, MatchResult, OnOk, IfOk, IsErrOf, length};
ghost use Rattle.connected_laws.specs.{Growing.{IsCandidate, IsMove, IsWhole}, Listing.{IsListed, HasStepped}};
ghost use Rattle.connected_sets.specs.{Growths.{problem_in, places_in, size_in, IsSoundGrowth}, Graphs.IsGraph};
ghost use Rattle.connected_sets.specs.declared.stop.Stop.{Stop};

use crate::growth_test::GrowthTest;
use crate::input::{Growth, GrowthInput, Move};
use crate::stop::Stop;
use county_problem::Steps;
use place_sets::CountySet;
use std::alloc::AllocError;

/// Returns the place of the front that the `test` names, or `None` if there is none or the set may have no more places.
fn next_place<C: CountySet, T: GrowthTest<C>>(
    input: &GrowthInput<C>,
    test: &T,
    growth: &Growth<C>,
) -> Option<u16>
    requires growth { IsSoundGrowth C C.test input.now growth.now }
    ensures { MatchOption
        result
        (IsWhole (problem_in input.now) (places_in input.now) input.now.limit (C.test growth.now.set) (C.test growth.now.free))
        (λ c. IsCandidate (problem_in input.now) (C.test growth.now.set) (C.test growth.now.free) c
        × (size_in input.now (C.test growth.now.set) < input.now.limit)) }
{
    if growth.set.size() >= u32::from(input.limit) {
        return None;
    }
    test.next_place(input.graph.ordered, &growth.front)
}

/// Takes one of the `steps`, or returns `StepLimit` if none is left.
fn take_step(steps: &mut Steps) -> Result<(), Stop>
    ensures limit { steps.new.limit ≡ steps.old.limit }
    ensures used { MatchResult
        result
        (λ _. steps.new.used ≡ steps.old.used + 1)
        (λ fault. (fault ≡ Stop.StepLimit) × (steps.new.used ≡ steps.old.used) × (steps.new.used ≡ steps.new.limit)) }
{
    if steps.tick() {
        Ok(())
    } else {
        Err(Stop::StepLimit)
    }
}

/// Appends to `groups` the set of a `growth` that grows no further, if it is kept.
fn put_if_kept<C: CountySet, T: GrowthTest<C>>(
    input: &GrowthInput<C>,
    test: &T,
    growth: Growth<C>,
    groups: &mut Vec<C>,
) -> Result<(), AllocError>
    requires graph { IsGraph C.test C.PLACES input.now.graph.now }
    requires growth { IsSoundGrowth C C.test input.now growth }
    requires knows { T.knows test.now (problem_in input.now) (places_in input.now) input.now.limit (C.test growth.free) }
    requires whole { IsWhole (problem_in input.now) (places_in input.now) input.now.limit (C.test growth.set) (C.test growth.free) }
    ensures listed { OnOk
        result
        ((keep : List ℕ → Bool)
        → T.decides test.now (problem_in input.now) (places_in input.now) input.now.limit keep
        → IsListed
        C
        C.test
        (problem_in input.now)
        (places_in input.now)
        input.now.limit
        keep
        (C.test growth.set)
        (C.test growth.free)
        groups.old.items
        groups.new.items) }
    ensures counted { OnOk result (length groups.new.items ≤ length groups.old.items + 1) }
{
    if test.is_kept(input, &growth)? {
        groups.push(growth.set)?;
    }
    Ok(())
}

/// Ends a `growth` whose set grows no further. This takes a step, and appends the set to `groups` if it is kept.
fn end_growth<C: CountySet, T: GrowthTest<C>>(
    input: &GrowthInput<C>,
    test: &T,
    growth: Growth<C>,
    steps: &mut Steps,
    groups: &mut Vec<C>,
) -> Result<(), Stop>
    requires graph { IsGraph C.test C.PLACES input.now.graph.now }
    requires growth { IsSoundGrowth C C.test input.now growth }
    requires knows { T.knows test.now (problem_in input.now) (places_in input.now) input.now.limit (C.test growth.free) }
    requires whole { IsWhole (problem_in input.now) (places_in input.now) input.now.limit (C.test growth.set) (C.test growth.free) }
    ensures listed { OnOk
        result
        ((keep : List ℕ → Bool)
        → T.decides test.now (problem_in input.now) (places_in input.now) input.now.limit keep
        → IsListed
        C
        C.test
        (problem_in input.now)
        (places_in input.now)
        input.now.limit
        keep
        (C.test growth.set)
        (C.test growth.free)
        groups.old.items
        groups.new.items) }
    ensures steps { HasStepped (problem_in input.now) (places_in input.now) input.now.limit (C.test growth.set) (C.test growth.free) steps.old.used steps.new.used }
    ensures counted { OnOk result (steps.old.used + length groups.new.items ≤ steps.new.used
        + length groups.old.items) }
    ensures limit { steps.new.limit ≡ steps.old.limit }
    ensures stopped { IsErrOf result Stop.StepLimit → steps.new.used ≡ steps.new.limit }
{
    take_step(steps)?;
    put_if_kept(input, test, growth, groups)?;
    Ok(())
}

/// Passes over a `growth`. This takes one of the `steps` if the test counts growths that are passed over, and returns
/// `StepLimit` if none is left.
fn pass_over<C: CountySet, T: GrowthTest<C>>(
    input: &GrowthInput<C>,
    growth: &Growth<C>,
    steps: &mut Steps,
) -> Result<(), Stop>
    requires { IsSoundGrowth C C.test input.now growth.now }
    ensures steps { HasStepped (problem_in input.now) (places_in input.now) input.now.limit (C.test growth.now.set) (C.test growth.now.free) steps.old.used steps.new.used }
    ensures counted { OnOk result (steps.old.used ≤ steps.new.used) }
    ensures limit { steps.new.limit ≡ steps.old.limit }
    ensures stopped { IsErrOf result Stop.StepLimit → steps.new.used ≡ steps.new.limit }
{
    let _input = input;
    let _growth = growth;
    if T::COUNTS_PASSED {
        take_step(steps)?;
    }
    Ok(())
}

/// Returns the growth in which a `place` of the front joins the set.
fn with_place<C: CountySet>(
    input: &GrowthInput<C>,
    growth: &Growth<C>,
    place: u16,
) -> Result<Growth<C>, AllocError>
    requires graph { IsGraph C.test C.PLACES input.now.graph.now }
    requires growth { IsSoundGrowth C C.test input.now growth.now }
    requires there { IsCandidate (problem_in input.now) (C.test growth.now.set) (C.test growth.now.free) place }
    requires room { size_in input.now (C.test growth.now.set) < input.now.limit }
    ensures moved { IfOk result (λ more. IsMove (C.test growth.now.set) (C.test growth.now.free) (C.test more.set) (C.test more.free) place) }
    ensures growth { IfOk result (λ more. IsSoundGrowth C C.test input.now more) }
{
    let people = growth.people + u64::from(input.graph.ordered.people(place));
    let set = growth.set.with(input.graph.alloc, place)?;
    let free = growth.free.copy(input.graph.alloc)?.without(place);
    let both = growth
        .front
        .union(input.graph.alloc, &input.graph.near[usize::from(place)])?;
    let front = both.intersection(&free);
    Ok(Growth {
        set,
        people,
        front,
        free,
        last: Move::Joined(place),
    })
}

/// Returns the growth in which a `place` is no longer free.
fn without_place<C: CountySet>(growth: Growth<C>, place: u16) -> Growth<C>
    requires { place < C.PLACES }
    ensures set { result.set ≡ growth.set }
    ensures people { result.people ≡ growth.people }
    ensures front { (x : ℕ) → C.test result.front x ≡ (C.test growth.front x && not (x == place)) }
    ensures free { (x : ℕ) → C.test result.free x ≡ (C.test growth.free x && not (x == place)) }
{
    Growth {
        set: growth.set,
        people: growth.people,
        front: growth.front.without(place),
        free: growth.free.without(place),
        last: Move::LeftOut(place),
    }
}

/// Appends to `groups` the kept connected sets that have all places of the growth's set, and otherwise only free
/// places. The front of the `growth` has the free places that are adjacent to the set.
///
/// A step is taken for each set that grows no further. If the test counts them, a step is also taken for each set that
/// is passed over.
pub fn grow<C: CountySet, T: GrowthTest<C>>(
    input: &GrowthInput<C>,
    test: &T,
    growth: Growth<C>,
    steps: &mut Steps,
    groups: &mut Vec<C>,
) -> Result<(), Stop>
    requires graph { IsGraph C.test C.PLACES input.now.graph.now }
    requires growth { IsSoundGrowth C C.test input.now growth }
    requires knows { T.knows test.now (problem_in input.now) (places_in input.now) input.now.limit (C.test growth.free) }
    ensures listed { OnOk
        result
        ((keep : List ℕ → Bool)
        → T.decides test.now (problem_in input.now) (places_in input.now) input.now.limit keep
        → IsListed
        C
        C.test
        (problem_in input.now)
        (places_in input.now)
        input.now.limit
        keep
        (C.test growth.set)
        (C.test growth.free)
        groups.old.items
        groups.new.items) }
    ensures steps { HasStepped (problem_in input.now) (places_in input.now) input.now.limit (C.test growth.set) (C.test growth.free) steps.old.used steps.new.used }
    ensures counted { OnOk result (steps.old.used + length groups.new.items ≤ steps.new.used
        + length groups.old.items) }
    ensures limit { steps.new.limit ≡ steps.old.limit }
    ensures stopped { IsErrOf result Stop.StepLimit → steps.new.used ≡ steps.new.limit }
{
    if test.is_passed_over(input, &growth)? {
        return pass_over::<C, T>(input, &growth, steps);
    }
    match next_place(input, test, &growth) {
        None => end_growth(input, test, growth, steps, groups),
        Some(place) => {
            let joined = with_place(input, &growth, place)?;
            grow(input, test, joined, steps, groups)?;
            let others = without_place(growth, place);
            grow(input, test, others, steps, groups)
        }
    }
}
