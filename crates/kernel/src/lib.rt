//! A board of at most 120 nets in memory: the kernel that rules make smaller and that is searched.
#![tactic(auto)]

pub mod board;
pub mod changes;
pub mod kept;
pub mod merging;
pub mod order;
pub mod readings;
pub mod values;

pub use board::Kernel;
pub use changes::SetRefusal;
pub use order::Standing;
