//! The step machine of a domain: what each step answers and what it leaves.
#![tactic(auto)]

pub mod crossing;
pub mod domain;
mod reclaim;
mod walk;
