//! Why a certificate doesn't show all best groupings at one of its leaves.

/// Why a bound leaf that doesn't fall short of the target's counts isn't a best grouping by itself.
#[derive(Clone, Copy, Debug, PartialEq, Eq)]
pub enum Gap {
    /// A county lies in no closed group.
    CountiesLeft,
    /// No county is left, and no numbers of seats that suit the closed groups add up to the seats left.
    SeatsOff,
}
