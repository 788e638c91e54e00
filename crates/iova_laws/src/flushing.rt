//! No frame is used again before a flush.
ghost use Rattle.iova_model.specs.Laws.{TranscriptsAreFlushed, ReuseIsFlushed};

/// In every transcript from every valid state, a frame that was unmapped has left the rings only
/// where a flush that began afterwards has ended well.
pub fn transcripts_are_flushed()
    ensures { TranscriptsAreFlushed }
{}

/// Between an unmap of a frame and the next time that a request is given it, a flush has begun and
/// ended well.
pub fn reuse_is_flushed()
    ensures { ReuseIsFlushed }
{}
