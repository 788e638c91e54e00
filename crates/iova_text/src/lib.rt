//! The text of lines: numbers of one spelling, a stream cut into its lines, a line cut into words,
//! the buffer that a line is put together in, one read, and bytes written whole.
#![tactic(auto)]

pub mod buffer;
pub mod cutter;
pub mod line;
pub mod number;
pub mod read;
pub mod words;
pub mod write;
