//! A plan's new domain, with its seats and a post at each of them. It opens nothing, and knows of
//! no fault of a run.
#![tactic(auto)]

pub mod domain;
pub mod seats;
