//! The words of the command line: what they ask for, the command and its help.
#![tactic(auto)]

pub mod asked;
pub mod check_plan;
mod command;
pub mod control_word;
mod label;
pub mod options;
pub mod plan;
pub mod plan_words;
pub mod said;
pub mod sink_path;
pub mod usage;
pub mod words;
mod wrong_word;
