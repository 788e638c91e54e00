//! What each refusal means.

/// What this answer means, where it is a refusal that a session is given: words that stand in the
/// manual's table of refusals. None of any other text.
pub(crate) fn meaning_of(answer: &str) -> Option<&'static str> {
    match answer {
        "no 1 Zero" => Some("0 frames are asked for"),
        "no 2 TooBig" => Some("more than 1,048,576 frames are asked for"),
        "no 3 NoClient" => Some("a request other than hello and bye before a client was opened"),
        "no 5 HoldingsFull" => Some("the client holds 4,096 ranges"),
        "no 6 NoSpace" => Some("nothing fits below the limit, though all magazines were emptied"),
        "no 7 RingFull" => Some("the ring has 255 ranges that no flush has covered"),
        "no 8 NotHeld" => Some("no range of the client begins there"),
        "no 13 FlightsFull" => Some("32 flushes are in flight"),
        "no 15 Worn" => Some("the numbers of clients or flushes are used up"),
        "no 16 ClientsFull" => Some("there are 1,024 clients; those whose end waits count"),
        "no 17 NoMemory" => Some("memory was refused"),
        "no 18 SinkFault" => Some(
            "the record of a flush couldn't be written, or its peer didn't answer that it is done",
        ),
        "no 20 BadLine" => Some("the line is no request"),
        "no 21 TooMany" => Some("a limit of the session was passed"),
        "no 23 NoDomain" => Some("hello names another domain"),
        "no 24 Twice" => Some("a second hello"),
        _ => None,
    }
}
