//! The files and sockets of a daemon: what it listens on, the sinks that it calls, the file of its
//! record, and where its notices go; and the standard streams that a run is started without. It
//! starts no thread, and has no domain.
#![tactic(auto)]

pub mod cause;
pub mod descriptors;
pub mod listening;
pub mod notices;
pub mod record_file;
pub mod sharing;
pub mod sinks;
pub mod standard;
