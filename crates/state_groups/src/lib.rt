//! A state of a proof tree by the places of an order, and the groups of counties that fit it.
//!
//! `State` has the closed groups, the rest, and the least size that each county asks for. `first_state`, `closed_state`
//! and `raise_place` go from state to state. The tests say whether a part of the rest can be filled, whether a group
//! fits or is live, and whether a stuck leaf is valid. `groups_at` lists the groups that have a county, for a branch.
//! `groups_of` and `all_groups_of_size` list those of one size, for a line of a bound leaf. The lists are found by
//! growing connected sets of places.
//!
//! A checker and a search ask the same questions of a state, so both are built on this crate. It works with any form of
//! sets of places.
#![tactic(auto)]

mod bounds;
mod fitting;
mod kept_sets;
mod lists;
mod passing;
mod people;
mod reach;
mod round_groups;
mod seats;
mod state;
mod state_test;
mod stranding;
mod stuck_parts;
mod sums;
mod tables;
mod windows;

pub use bounds::{room, weigh_enough};
pub use connected_sets::Stop;
pub use fitting::{fits, is_open, open_places};
pub use lists::{groups_at, groups_of};
pub use round_groups::all_groups_of_size;
pub use seats::is_off_seats;
pub use state::{State, closed_state, copied_state, first_state, raise_place};
pub use stuck_parts::{has_stuck_part, is_live, is_stuck, is_stuck_at};
pub use sums::{people_in, weight_in};
