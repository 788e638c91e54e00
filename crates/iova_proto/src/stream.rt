//! The law of streams.
ghost use Rattle.iova_proto.specs.Streams.{PiecesRead, OneReading, AnyCut};

/// What the pieces of a stream give is what stands in the whole of it, a stream is read in one way,
/// and so it gives the same requests and ends in the same state however it is cut.
pub fn any_cut()
    ensures pieces { PiecesRead }
    ensures one { OneReading }
    ensures cuts { AnyCut }
{}
