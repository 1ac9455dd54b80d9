//! What a run warns of: what is odd about its files, though no rule refuses it. No clause speaks of it.

use county_codes::CountyCode;

/// What is odd about the files of a run.
#[derive(Clone, Copy, Debug)]
pub enum Warning {
    /// The people of a withdrawn set don't suit its seats.
    WithdrawnSeats {
        /// The seats of the set.
        seats: u16,
        /// The first county of the set.
        county: CountyCode,
        /// The people of the set.
        people: u64,
        /// The least number of people that suit the seats.
        least: u64,
        /// The greatest number of people that suit the seats. It is below `least` if no number suits.
        greatest: u64,
    },
    /// The counties of a withdrawn set aren't connected by the adjacent pairs.
    WithdrawnApart {
        /// The seats of the set.
        seats: u16,
        /// The first county of the set.
        county: CountyCode,
    },
    /// The adjacency file has these two as neighbours in one direction only, and others in both. The lesser code comes
    /// first.
    OneWay(CountyCode, CountyCode),
    /// A link cuts the pair of these two, which isn't there.
    NoBorder(CountyCode, CountyCode),
    /// A link names a county that isn't listed.
    UnknownLink(CountyCode),
}
