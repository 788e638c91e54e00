//! The commands that serve nothing: a trace replayed, a log checked, lines asked. And the faults
//! that a run ends by, what a daemon prints at its end, and reserved regions read from a file.
#![tactic(auto)]

pub mod answer;
pub mod asking;
pub mod checking;
pub mod fault;
pub mod outcome;
pub mod regions;
pub mod replaying;
pub mod verdict;
