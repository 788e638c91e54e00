//! Where invalidations go: sinks, which get each flush, the devices that records of them
//! are written to, and the channels to a peer that answers.
#![tactic(auto)]

mod again;
mod ahead;
pub mod asking;
mod backoff;
pub mod calls;
pub mod channel;
pub mod channel_sink;
pub mod count;
pub mod device;
pub mod file;
pub mod gate;
pub mod history;
pub mod memory;
pub mod memory_channel;
pub mod memory_device;
pub mod record;
pub mod sink;
pub mod socket;
pub mod socket_calls;
pub mod soon;
pub mod stop_deadline;
