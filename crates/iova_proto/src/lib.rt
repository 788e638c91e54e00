//! The lines of the service: requests read from them, answers written to them, and a stream of
//! bytes cut into requests.
#![tactic(auto)]

pub mod answer;
pub mod decode;
pub mod encode;
pub mod fed;
pub mod held;
pub mod lines;
pub mod request;
pub mod stream;
