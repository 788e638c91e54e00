//! A domain whose steps may be recorded, with their replies, and what was recorded as a trace.
#![tactic(auto)]

pub mod crossing;
pub mod record;
pub mod recorded_domain;
