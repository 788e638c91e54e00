//! Tests of a domain, of traces, of a domain under a lock, of its keepers and of what is recorded.
//! They stand apart from the crates that they test, which would be proved once more with them.
#![tactic(auto)]

#[cfg(test)]
mod lock;
#[cfg(test)]
mod machine;
#[cfg(test)]
mod replays;
#[cfg(test)]
mod traces;
