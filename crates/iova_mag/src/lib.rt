//! Magazines of first frames, and the two that a worker has of each order.
#![tactic(auto)]

pub mod magazine;
pub mod worker;
