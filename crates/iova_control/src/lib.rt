//! A daemon's control socket: what the daemon does now, asked in lines, and its stop. It starts no
//! thread, and knows of a domain only what can be looked at.
#![tactic(auto)]

pub mod control;
mod info;
mod metrics;
mod sessions;
