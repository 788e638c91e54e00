//! What was recorded is replayed.
ghost use Rattle.iova_trace.specs.Recorded.{RecordsReplay, TranscriptsReplay};

use iova_laws::refusals::points_only_refuse;

/// The text of a transcript from a new domain, its header and its steps, is replayed to the replies
/// of the transcript and the state that it leaves, wherever memory was refused neither then nor in
/// the replay.
pub fn records_replay()
    ensures { RecordsReplay }
{
    // for the proof: a refused growth is answered by `NoMemory`, or the step is as it would be with
    // memory
    points_only_refuse();
}

/// A text to which what a domain has recorded was appended, of at most 1,000,000 steps, is replayed
/// to the stored replies and the state that they leave, where memory was refused neither then nor
/// in the replay.
pub fn transcripts_replay()
    ensures { TranscriptsReplay }
{
    records_replay();
}
