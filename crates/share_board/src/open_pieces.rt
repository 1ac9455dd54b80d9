//! Which pieces wait, and the round in which they are proved.

ghost use Rattle.std.specs.Prelude.{◌≡◌, ℕ, ◌≤◌, ◌<◌, length, IfOk};
ghost use Rattle.county_codes.specs.Limits.{most_counties};
ghost use Rattle.grouping_laws.specs.GroupsFrom.{IsOrder};
ghost use Rattle.county_problem.specs.ProblemValue.{problem_of};
ghost use Rattle.certificate_data.specs.RoundValue.{round_of};
ghost use Rattle.certificate_laws.specs.State.{State as StateValue, IsState, empty_state};
ghost use Rattle.board_laws.specs.{Content.Content, Standing.StandsAt};
ghost use Rattle.share_board.specs.BoardValue.{IsOf};
ghost use Rattle.share_board.specs.OpenPieces.{AreOpen, numbers as numbers_of};

use crate::board::Board;
use crate::piece::Fate;
use certificate_data::Round;
use place_sets::CountySet;
use std::alloc::{AllocError, Global};

/// Returns the numbers of the pieces that wait, in the order of `fates`. The pieces are numbered from 1.
fn open_numbers(alloc: Global, fates: &[Fate]) -> Result<Vec<u32>, AllocError>
    requires { length fates.now < 4294967296 }
    ensures { IfOk result (λ v. v.items ≡ numbers_of 1 fates.now) }
{
    let mut numbers = Vec::new(alloc);
    for at in 0..fates.len() {
        if fates[at].waits() {
            numbers.push(at as u32 + 1)?;
        }
    }
    Ok(numbers)
}

impl<C: CountySet> Board<C> {
    /// Returns the numbers of the pieces that wait, in ascending order.
    ///
    /// # Errors
    ///
    /// Returns `AllocError` if memory was refused.
    pub fn open_pieces(&self, alloc: Global) -> Result<Vec<u32>, AllocError>
        requires { (b : Content) × IsOf C.test self.now b }
        ensures { (b : Content) → IsOf C.test self.now b → IfOk result (λ v. AreOpen b.skeleton v.items) }
    {
        open_numbers(alloc, &self.fates)
    }

    /// Returns the round in which the pieces are proved. Its order names each county of the problem once, and each
    /// piece stands at one of its states.
    pub fn proof_round(&self) -> &Round
        ensures round { (b : Content) → IsOf C.test self.now b → round_of result.now ≡ b.round }
        ensures same_order { result.now.order ≡ self.now.round.order }
        ensures order { (b : Content) → IsOf C.test self.now b
            → IsOrder (problem_of self.now.problem) result.now.order }
        ensures small { (b : Content) → IsOf C.test self.now b → result.now.limit ≤ most_counties }
        ensures states { (b : Content) (n : ℕ) (s : StateValue)
            → IsOf C.test self.now b
            → StandsAt b.skeleton b.round (empty_state (problem_of self.now.problem)) n s
            → IsState (problem_of self.now.problem) (round_of result.now) s }
    {
        &self.round
    }
}
