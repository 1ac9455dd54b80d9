//! What a search by branch and bound knows of the groups at a state, how it keeps that knowledge, and how it weighs the
//! groups.
//!
//! It keeps one list, of the groups of one size, and knows that no smaller group fits. If a group is closed, those that
//! meet it are removed. If a county is raised past the size, those that have it are removed. Dead ones are left out
//! when the list is tested. `specs/KnownGroups` has the definitions.
//!
//! If no group is left, it lists the groups of the next size. They are those that fit the connected parts of the rest,
//! each part by itself. That is why lists of parts are kept for all states. `specs/PartGroups` and `specs/PartLists`
//! have the definitions.
//!
//! A `Position` is a state with what is known there (`specs/Positions`). `moves` gives the position at a state, and
//! those where a group is closed or a county is raised, and `groups_ahead` the groups of one county more. The solver
//! goes from position to position, and so does the checker of certificates.
//!
//! `rounds` and `choice` are heuristics. The one gives weights of the counties of some groups, which show that few of
//! the groups are disjoint. The other gives the county to branch at. If each group weighs a quota or more, no more
//! groups are disjoint than the quota goes into the weight of all counties. Any weights would be right, since each
//! bound leaf is tested where it is written, and so would any county of a group. So the contracts only say that the
//! weights are small numbers, one for each place, and that the county is one of a group. No contract says that the
//! sums which `kept_sums` keeps from round to round are those of the weights.
#![tactic(auto)]

mod choice;
mod groups_ahead;
mod input;
mod kept_groups;
mod kept_sums;
mod laws;
mod moves;
mod part_lists;
mod position;
mod rounds;
mod sets;
mod size_groups;
mod stuck_counties;
mod weights;

pub use choice::county_of_choice;
pub use groups_ahead::{larger_groups, next_groups};
pub use input::SearchInput;
pub use kept_groups::{groups_apart, groups_having, groups_lacking, live_groups};
pub use laws::{known_serves, parts_serve};
pub use moves::{
    closed_position, first_position, groups_to_take, position_at, raised_position, without_dead,
};
pub use part_lists::PartLists;
pub use position::{Larger, Position};
pub use rounds::weigh;
pub use size_groups::groups_of_size;
pub use stuck_counties::stuck_county;
