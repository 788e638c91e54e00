//! What a daemon's sessions come over and call: sockets and their links, sinks that posts share,
//! and which worker is the least busy; pauses, what asks for a stop, and what is done beside the
//! sessions. It starts no thread, and has no domain.
#![tactic(auto)]

pub mod accept;
pub mod control_task;
pub mod dial;
pub mod loads;
pub mod locked_sink;
pub mod made_file;
pub mod noting;
pub mod pause;
pub mod served_link;
pub mod signals;
pub mod socket;
