//! The county graph by the places of an order, the connected part of a region around a place, all connected parts of a
//! region, and the growth of connected sets from a place. They serve any form of sets of places.
//!
//! `CountyGraph::build` makes the graph once for an order. `part_around`, `parts_of` and `grow` look at it.
//!
//! A further kind of growth is one more `impl GrowthTest`: it says what is kept, what is passed over and which place
//! joins next.
#![tactic(auto)]

mod county_graph;
mod growing;
mod growth_test;
mod input;
mod lists;
mod part;
mod parts;
mod rows;
mod start;
mod stop;

pub use county_graph::CountyGraph;
pub use growing::grow;
pub use growth_test::GrowthTest;
pub use input::{Growth, GrowthInput, Move};
pub use lists::place_list;
pub use part::part_around;
pub use parts::parts_of;
pub use start::start_growth;
pub use stop::Stop;
