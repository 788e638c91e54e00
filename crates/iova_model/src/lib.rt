//! The definitions of the service in `specs/`, and the types that they speak of. No code runs here:
//! the crates above are proved against these definitions.
#![tactic(auto)]

pub mod entry;
pub mod flight;
pub mod place;
pub mod step;
pub mod totals;
