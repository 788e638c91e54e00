//! What is read: a log, or a kernel's trace.
use crate::allowed::LogBounds;

/// What the lines of a text are.
#[derive(Clone, Copy)]
pub enum Form {
    /// Those of a log: its header, and then an event each.
    Log,
    /// Those of a kernel's trace. Of its flushes of one domain those of this one count, or all.
    Trace(Option<u64>),
}

/// What is read, and the bounds that are asked for.
#[derive(Clone, Copy)]
pub struct Source<'a> {
    /// What its lines are.
    pub form: Form,
    /// The bounds that are asked for.
    pub asked: LogBounds<'a>,
}
