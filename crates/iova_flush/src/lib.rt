//! The rings in which ranges wait for a flush, and the flushes with their credits.
#![tactic(auto)]

pub mod flights;
pub mod ring;
