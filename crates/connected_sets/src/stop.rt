//! The reasons why a growth of connected sets isn't made to its end.

ghost use Rattle.std.specs.Prelude.{◌≡◌};
ghost use Rattle.connected_sets.specs.declared.stop.Stop.TheVariants.{Memory};

use std::alloc::AllocError;
use thiserror::Error;

/// The reason why a growth ended early.
#[derive(Clone, Copy, Debug, PartialEq, Eq, Error)]
pub enum Stop {
    /// The limit of steps was reached.
    #[error("the limit of steps is reached")]
    StepLimit,
    /// Memory was refused.
    #[error("out of memory")]
    Memory,
}

impl From<AllocError> for Stop {
    ghost from_gives = { λ _ e. e ≡ Memory };

    fn from(_e: AllocError) -> Stop {
        Stop::Memory
    }
}
