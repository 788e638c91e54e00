//! Sessions: the lines that come over a link are asked of a desk, and its answers are written back.
#![tactic(auto)]

mod answering;
mod asking;
pub mod desk;
pub mod end;
pub mod end_post;
mod gathering;
pub mod leaving;
pub mod link;
pub mod memory_link;
pub mod pairs;
pub mod post;
pub mod retry;
pub mod run;
pub mod serve;
mod session;
mod session_desk;
pub mod session_limits;
pub mod socket_link;
mod together;
