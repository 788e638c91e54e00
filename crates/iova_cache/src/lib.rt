//! A cache of ranges in front of a domain: what one thread takes and gives up without the domain.
#![tactic(auto)]

pub mod apart;
mod bucket;
pub mod cache;
pub mod exchange;
pub mod laws;
mod magazine;
mod ring;
mod table;
