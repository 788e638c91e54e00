//! The allocated ranges of a domain, its windows among them, and the highest place where a request
//! fits between them.
#![tactic(auto)]

mod block;
mod branch;
mod node;
mod position;
mod ranges;
mod room;
mod search;
mod span;
pub mod tree;
mod window;
