//! The allocator as a static library for C: `libiova.a`, whose header is `include/iova.h`. C gives
//! the memory that a domain lies in, and each export is given its address.
#![tactic(auto)]

pub mod answer;
pub mod bytes;
pub mod cache_exports;
pub mod cached;
pub mod exchanged;
pub mod exports;
pub mod granule;
pub mod lists;
pub mod names;
pub mod readers;
pub mod slot;
pub mod steps;
