//! The laws of the product: what follows from the definitions of `iova_model` for every state and
//! every transcript. Each function has a law as its contract, and no body.
#![tactic(auto)]

pub mod closing;
pub mod fitting;
pub mod flushing;
pub mod ledgers;
pub mod numbers;
pub mod places;
pub mod promises;
pub mod refusals;
pub mod replies;
pub mod requests;
pub mod validity;
