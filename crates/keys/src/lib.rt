//! Kinds of key: sameness, homes and spelling, for numbers and for names.
#![tactic(auto)]

pub mod digits;
pub mod kinds;
pub mod name;
pub mod number;
pub mod spelling;

pub use kinds::{Key, KeyRefusal, Spelled, reread};
