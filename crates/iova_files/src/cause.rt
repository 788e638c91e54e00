//! The cause of a fault, printed on the line before it.
use log::{Log, error};
use std::io;

/// Writes a notice that this can't be done to the file at this path, with the system's reason.
pub fn tell_cause<N: Log>(notices: &N, what: &str, path: &str, why: &io::Error) {
    error!(notices; target: "", "{what} {path}: {why}");
}
