//! What a trace says, and the text of its lines: the header and the steps, read from lines and
//! written to them.
#![tactic(auto)]

pub mod line;
pub mod trace;
