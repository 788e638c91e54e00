//! Traces: the replies written, and whole traces read and replayed. What a trace says, and its
//! lines, stand in `iova_line`.
#![tactic(auto)]

pub mod fault;
pub mod log;
pub mod recorded;
pub mod replay;
pub mod reply;
pub mod whole;
