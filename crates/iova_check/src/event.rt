//! What a line of a log says.
use iova_range::range::Range;

/// What a line says. Its ranges end below frame 2^64 - 1; the number of a flush is any number.
#[derive(Clone, Copy)]
pub enum Event {
    /// The frames were mapped for a device.
    Map(Range),
    /// The frames were unmapped.
    Unmap(Range),
    /// A device was seen to reach the frames.
    Use(Range),
    /// A flush of these frames began, or of every frame.
    Begin { no: u64, range: Option<Range> },
    /// The flush of this number ended, well or not.
    End { no: u64, ok: bool },
    /// A flush of these frames began at this line and ended well, or of every frame. No line of a
    /// log says it.
    Flush(Option<Range>),
    /// Nothing of frames or flushes.
    Other(OtherLine),
}

/// A line that says nothing of frames or flushes.
#[derive(Clone, Copy)]
pub enum OtherLine {
    /// A log's header, or a line that is passed over.
    Plain,
    /// Events were lost before it: the kernel's buffer was full.
    Lost,
    /// It is too long to be read, so it may be a map's.
    TooLong,
}
