//! What may be wrong with a certificate, and why a line of a tree wasn't accepted.

ghost use Rattle.std.specs.Prelude.{◌≡◌};
ghost use Rattle.state_judge.specs.{LineStops.line_stop, declared.fault.LineStop.TheVariants.Memory};

use certificate_lines::TextFault;
use connected_sets::Stop;
use county_problem::GroupingFault;
use std::alloc::AllocError;
use thiserror::Error;

/// Why a text isn't a certificate, or a tree isn't a proof.
#[derive(Clone, Copy, Debug, PartialEq, Eq, Error)]
pub enum CheckFault {
    /// The text isn't a certificate. This is its first fault, and it comes before any other fault.
    #[error("{0}")]
    Text(TextFault),
    /// The tolerance that the text names isn't the problem's. If the text names none, its tolerance is one twentieth.
    #[error("the certificate is for another tolerance")]
    WrongWindow,
    /// The order doesn't have each county of the problem once, or it has another code.
    #[error("the order has not each county of the problem once")]
    WrongOrder,
    /// A group of the target has more counties than the limit.
    #[error("a group of the target is above the limit")]
    LimitTooSmall,
    /// The target is not lawful.
    #[error("the target is not lawful: {0}")]
    TargetFault(GroupingFault),
    /// The line names a county that may not stand there.
    #[error("the county may not stand here")]
    WrongCounty,
    /// A group that fits is left out.
    #[error("a group that fits is left out")]
    MissingGroup,
    /// The group isn't one of those that fit.
    #[error("the group is none of those that fit")]
    StrayGroup,
    /// A group that fits weighs less than the quota.
    #[error("a group that fits weighs less than the quota")]
    LightGroup,
    /// The line allows more groups than the target has.
    #[error("the line allows more groups than the target has")]
    BoundOver,
    /// The leaf has too many lines or too few, or it has lines after one that allows fewer groups than the target has.
    #[error("the leaf has too many lines or too few")]
    BoundLength,
    /// The part around the county can be filled, as far as this leaf tells.
    #[error("the part around the county is not stuck")]
    NotStuck,
    /// The seats may add up.
    #[error("the seats may add up")]
    SeatsOpen,
    /// There is no target to bound.
    #[error("there is no target to bound")]
    BoundWithoutTarget,
    /// No county is open, so a leaf has to stand here.
    #[error("no county is open: a leaf has to stand here")]
    NoLeaf,
}

/// Why a line wasn't accepted.
#[derive(Clone, Copy, Debug, PartialEq, Eq, Error)]
pub enum LineStop {
    /// The line is at fault.
    #[error("{0}")]
    Fault(CheckFault),
    /// No text spells the line.
    #[error("no text spells the line")]
    Unspelled,
    /// The limit of steps was reached.
    #[error("the limit of steps is reached")]
    StepLimit,
    /// A growth was refused.
    #[error("out of memory")]
    Memory,
}

impl From<AllocError> for LineStop {
    ghost from_gives = { λ _ e. e ≡ Memory };

    fn from(_e: AllocError) -> LineStop {
        LineStop::Memory
    }
}

impl From<Stop> for LineStop {
    ghost from_gives = { λ stop e. e ≡ line_stop stop };

    fn from(stop: Stop) -> LineStop {
        match stop {
            Stop::StepLimit => LineStop::StepLimit,
            Stop::Memory => LineStop::Memory,
        }
    }
}
