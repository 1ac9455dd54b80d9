//! The forms of the lines behind the first line of an open piece.

use crate::piece::Asked;
use county_codes::Codes;

/// What a line behind the first one says.
#[derive(Debug, Drop)]
pub enum ToldLine {
    /// A closed group.
    Closed(Codes),
    /// A county that asks for a size.
    Least(Asked),
    /// The end of the piece.
    End,
}
