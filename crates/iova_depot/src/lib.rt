//! All cached ranges of a domain: the workers' magazines, and the depot that takes full ones.
#![tactic(auto)]

pub mod caches;
mod depot;
pub mod spot;
