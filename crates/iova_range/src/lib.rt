//! Ranges of page frames, the sizes that requests are rounded to, the bounds and the profile of a
//! domain, and the refusals.
#![tactic(auto)]

pub mod bounds;
pub mod limits;
pub mod profile;
pub mod range;
pub mod refusal;
pub mod sizes;
pub mod stat;
