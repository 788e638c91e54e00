//! The clients of a domain, each with a ledger of its holdings, and their totals.
#![tactic(auto)]

mod chains;
pub mod clients;
pub mod flags;
mod heaps;
mod holdings;
mod ledger;
mod ledgers;
pub mod orders;
mod sums;

pub use crate::clients::Clients;
