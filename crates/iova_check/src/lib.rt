//! Logs of what was mapped, unmapped and flushed, by whomever: the text of their lines, what became
//! of each frame, and the law that no frame is given out again while a device might still reach it.
#![tactic(auto)]

pub mod allowed;
pub mod checker;
pub mod counts;
pub mod event;
pub mod fault;
pub mod finding;
pub mod law;
pub mod line;
pub mod notice;
pub mod reason;
pub mod run;
pub mod scan;
pub mod source;
pub mod stage;
pub mod stages;
pub mod summary;
pub mod text;
pub mod told;
pub mod trace;
pub mod tracker;
