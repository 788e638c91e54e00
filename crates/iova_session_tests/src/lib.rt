//! Tests of the lines of the service, of sessions, over desks of their own and over books and
//! locks, of the threads that serve them, of the client that asks and of the peer that invalidates.
//! They stand apart from the crates that they test, which would be proved once more with them.
#![tactic(auto)]

#[cfg(test)]
mod asking;
#[cfg(test)]
mod daemon;
#[cfg(test)]
mod fresh;
#[cfg(test)]
mod in_turn;
#[cfg(test)]
mod lines;
#[cfg(test)]
mod links;
#[cfg(test)]
mod peers;
#[cfg(test)]
mod posts;
#[cfg(test)]
mod session_files;
