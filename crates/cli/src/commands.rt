//! The commands, one module for each.

pub(crate) mod audit;
pub(crate) mod check;
pub(crate) mod judge;
pub(crate) mod list;
pub(crate) mod piece;
pub(crate) mod share;
pub(crate) mod size;
pub(crate) mod solve;
pub(crate) mod worker;
