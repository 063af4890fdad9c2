//! Board texts: their words and lines, and the reader that hands on each join.
#![tactic(auto)]

pub mod headers;
mod lines;
pub mod reader;
pub mod takers;
mod tokens;
mod words;
