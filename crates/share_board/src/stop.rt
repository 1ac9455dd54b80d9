//! Why a round isn't opened.

ghost use Rattle.std.specs.Prelude.{◌≡◌};
ghost use Rattle.share_board.specs.{OpeningStops.opening_stop, declared.stop.OpeningStop.TheVariants.Memory};

use connected_sets::Stop;
use std::alloc::AllocError;

/// Why a round isn't opened.
#[derive(Clone, Copy, Debug, PartialEq, Eq)]
pub(crate) enum OpeningStop {
    /// There would be too many pieces.
    TooManyPieces,
    /// A branch would cost more than its share.
    Budget,
    /// Memory was refused.
    Memory,
}

impl From<AllocError> for OpeningStop {
    ghost from_gives = { λ _ e. e ≡ Memory };

    fn from(_e: AllocError) -> OpeningStop {
        OpeningStop::Memory
    }
}

impl From<Stop> for OpeningStop {
    ghost from_gives = { λ stop e. e ≡ opening_stop stop };

    fn from(stop: Stop) -> OpeningStop {
        match stop {
            Stop::StepLimit => OpeningStop::Budget,
            Stop::Memory => OpeningStop::Memory,
        }
    }
}
