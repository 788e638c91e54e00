//! The regions of addresses that a kernel tells of a group of devices, and the windows of frames
//! that they keep back.
#![tactic(auto)]

pub mod fault;
pub mod line;
mod ranges;
pub mod read;
pub mod region;
pub mod span;
pub mod windows;
