//! Why a partial tree isn't taken.

ghost use Rattle.std.specs.Prelude.{◌≡◌};
ghost use Rattle.partial_trees.specs.{declared.stop.PartStop.TheVariants.Memory, Refusals.part_stop};

use state_judge::LineStop;
use std::alloc::AllocError;

/// Why a partial tree isn't taken.
#[derive(Clone, Copy, Debug, PartialEq, Eq)]
pub enum PartStop {
    /// It isn't valid at its state, or no text spells it.
    NotAProof,
    /// The budget is below its cost.
    Budget,
    /// Memory was refused.
    Memory,
}

impl From<AllocError> for PartStop {
    ghost from_gives = { λ _ e. e ≡ Memory };

    fn from(_e: AllocError) -> PartStop {
        PartStop::Memory
    }
}

impl From<LineStop> for PartStop {
    ghost from_gives = { λ stop e. e ≡ part_stop stop };

    fn from(stop: LineStop) -> PartStop {
        match stop {
            LineStop::StepLimit => PartStop::Budget,
            LineStop::Memory => PartStop::Memory,
            LineStop::Fault(_) | LineStop::Unspelled => PartStop::NotAProof,
        }
    }
}
