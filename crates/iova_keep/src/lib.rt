//! What keeps a domain, hold by hold, for a seat of each worker, and the calls of several holds
//! that are made of these.
#![tactic(auto)]

pub mod ask;
pub mod calls;
pub mod closing;
pub mod ending;
pub mod flush_history;
pub mod keep;
pub mod ledgers;
pub mod look;
pub mod names;
pub mod release;
pub mod seat;
pub mod turnstile;
pub mod unmapped;
