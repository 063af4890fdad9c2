//! What a board in memory is made of: nets by number, splits, and the weights of pairs.
#![tactic(auto)]

pub mod matrix;
pub mod nets;
pub mod splits;
pub mod sums;

pub use matrix::Matrix;
pub use nets::Net;
pub use splits::{Mask, Sheet, Split};
