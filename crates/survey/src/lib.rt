//! What a board text holds: a census of its joins, and the lines that show it.
#![tactic(auto)]

pub mod census;
pub mod summary;
