//! The forms of an event's first line.

use county_codes::CountyCode;

/// What the first line of an event says.
#[derive(Clone, Copy, Debug, PartialEq, Eq)]
pub enum EventLine {
    /// A piece is asked for, with this number or a greater one.
    Hand(u32),
    /// A tree follows: the number of its round and that of its piece.
    Result(u32, u32),
    /// A piece is to be split at a county, by groups of at most a limit of counties. The fields are the round, the
    /// piece, the county and the limit.
    Split(u32, u32, CountyCode, u16),
    /// A partial tree follows: the number of its round and that of its piece.
    Part(u32, u32),
    /// Groups follow: the number of the round, and how many groups.
    Better(u32, u16),
    /// The limit is to be one greater than in the round of this number.
    Wider(u32),
}
