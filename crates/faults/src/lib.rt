//! What is refused, by number and place, and the piece of a file that a fault names.
#![tactic(auto)]

pub mod pieces;
pub mod places;
pub mod refusals;

pub use pieces::piece;
pub use places::{Fault, Layer, Place};
pub use refusals::{JobRefusal, JoinFault, LineFault, SizeFault, WordFault};
