//! A daemon asked over its control socket: once, or again and again.
#![tactic(auto)]

pub mod controlling;
mod sight;
pub mod watching;
