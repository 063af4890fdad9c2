//! Tests of the crates below: tables of cases, one loop to a table.
#![tactic(auto)]

pub mod boards;
mod desk;
pub mod tables;
#[cfg(test)]
mod tests;
