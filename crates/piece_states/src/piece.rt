//! Open pieces of a board, as they are told.

use county_codes::{Codes, CountyCode};

/// A county that asks for a size.
#[derive(Clone, Copy, Debug, PartialEq, Eq)]
pub struct Asked {
    /// The county, one of the rest.
    pub county: CountyCode,
    /// How many counties its group has at least.
    pub size: u16,
}

/// An open piece of a board, with what is told of its state.
#[derive(Debug, Drop)]
pub struct OpenPiece {
    /// The number of the round.
    pub round: u32,
    /// The number of the piece.
    pub piece: u32,
    /// The closed groups, in their order.
    pub closed: Vec<Codes>,
    /// What the counties of the rest ask for.
    pub asked: Vec<Asked>,
}
