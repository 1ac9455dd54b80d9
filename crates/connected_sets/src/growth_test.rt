//! What a growth keeps, what it passes over, and which place joins its set next.

ghost use Rattle.std.specs.Prelude.{◌≡◌, ℕ, Bool, List, [], true, false, ◌<◌, MatchOption, IfOk, IsTrue, length};
ghost use Rattle.place_sets.specs.PlaceSets.{places_of};
ghost use Rattle.grouping_laws.specs.Problem.{Problem};
ghost use Rattle.connected_laws.specs.Growing.{IsWhole, AreKept};
ghost use Rattle.connected_sets.specs.{Growths.{problem_in, places_in, IsSoundGrowth}, Graphs.IsGraph};

use crate::input::{Growth, GrowthInput};
use county_problem::Ordered;
use place_sets::CountySet;
use std::alloc::AllocError;

/// The test of a growth. It says which sets that grow no further are kept, and which growths are passed over because no
/// kept set comes of them.
pub trait GrowthTest<C: CountySet> {
    /// Whether a growth that is passed over takes a step.
    const COUNTS_PASSED: bool;

    /// Whether a test of lists of places is the one that says what is kept.
    ghost decides: { Self → Problem → ℕ → ℕ → (List ℕ → Bool) → Type 0 };

    /// What the test knows while certain places are free.
    ghost knows: { Self → Problem → ℕ → ℕ → (ℕ → Bool) → Type 0 };

    /// Returns whether a `growth` is passed over. No kept set comes of one that is.
    fn is_passed_over(&self, input: &GrowthInput<C>, growth: &Growth<C>) -> Result<bool, AllocError>
        requires graph { IsGraph C.test C.PLACES input.now.graph.now }
        requires growth { IsSoundGrowth C C.test input.now growth.now }
        requires knows { knows self.now (problem_in input.now) (places_in input.now) input.now.limit (C.test growth.now.free) }
        ensures passed { IfOk
            result
            (λ passed. IsTrue passed
            → (keep : List ℕ → Bool)
            → decides self.now (problem_in input.now) (places_in input.now) input.now.limit keep
            → AreKept (problem_in input.now) (places_in input.now) input.now.limit keep (C.test growth.now.set) (C.test growth.now.free) []) };

    /// Returns the place of the `front` that joins the set next, or `None` if there is none.
    fn next_place(&self, ordered: &Ordered, front: &C) -> Option<u16>
        requires below { (x : ℕ) → C.test front.now x ≡ true → x < length ordered.now.order }
        ensures place { MatchOption result ((x : ℕ) → C.test front.now x ≡ false) (λ c. C.test front.now c ≡ true) };

    /// Returns whether the set of a `growth` that grows no further is kept.
    fn is_kept(&self, input: &GrowthInput<C>, growth: &Growth<C>) -> Result<bool, AllocError>
        requires graph { IsGraph C.test C.PLACES input.now.graph.now }
        requires growth { IsSoundGrowth C C.test input.now growth.now }
        requires knows { knows self.now (problem_in input.now) (places_in input.now) input.now.limit (C.test growth.now.free) }
        requires whole { IsWhole (problem_in input.now) (places_in input.now) input.now.limit (C.test growth.now.set) (C.test growth.now.free) }
        ensures kept { IfOk
            result
            (λ kept. (keep : List ℕ → Bool)
            → decides self.now (problem_in input.now) (places_in input.now) input.now.limit keep
            → keep (places_of (places_in input.now) (C.test growth.now.set)) ≡ kept) };

    /// If fewer places are free, the test still knows as much.
    ghost shrinks: { (t : Self) (p : Problem) (n limit : ℕ) (free less : ℕ → Bool)
        → ((x : ℕ) → less x ≡ true → free x ≡ true)
        → knows t p n limit free
        → knows t p n limit less };
}
