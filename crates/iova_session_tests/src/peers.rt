//! Peers of every kind, with what goes to them and comes from them. Over sockets they are seen on
//! the program (tests/run_service, tests/run_links).
use iova_sink::channel_sink::ChannelSink;
use iova_sink::memory_channel::{MemoryChannel, Peer};
use iova_sink::sink::Sink;

/// Peers, the call of the channel that fails, how the calls for the numbers 1 and 2 went, and the
/// bytes sent and received.
struct Row {
    peers: &'static [Peer<'static>],
    fail_at: u64,
    went: [bool; 2],
    sent: &'static [u8],
    received: &'static [u8],
}

const ROWS: [Row; 11] = [
    // two answers over one connection
    Row {
        peers: &[Peer {
            says: &[b"", b"done inval 1\n", b"done inval 2\n"],
            ends: false,
        }],
        fail_at: 0,
        went: [true, true],
        sent: b"inval 7 1\ninval 7 2\n",
        received: b"done inval 1\ndone inval 2\n",
    },
    // a whole answer of `fail` keeps the connection
    Row {
        peers: &[Peer {
            says: &[b"", b"fail inval 1\n", b"done inval 2\n"],
            ends: false,
        }],
        fail_at: 0,
        went: [false, true],
        sent: b"inval 7 1\ninval 7 2\n",
        received: b"fail inval 1\ndone inval 2\n",
    },
    // an answer of another number
    Row {
        peers: &[
            Peer {
                says: &[b"", b"done inval 2\n"],
                ends: false,
            },
            Peer {
                says: &[b"", b"done inval 2\n"],
                ends: false,
            },
        ],
        fail_at: 0,
        went: [false, true],
        sent: b"inval 7 1\ninval 7 2\n",
        received: b"done inval 2\ndone inval 2\n",
    },
    // other bytes: no byte behind the LF is taken, nor one behind the length of an answer
    Row {
        peers: &[
            Peer {
                says: &[b"", b"no\ndone inval 1\n"],
                ends: false,
            },
            Peer {
                says: &[b"", b"done inval 23\n"],
                ends: false,
            },
        ],
        fail_at: 0,
        went: [false, false],
        sent: b"inval 7 1\ninval 7 2\n",
        received: b"no\ndone inval 23",
    },
    // the stream ends within an answer, and a receive takes too long
    Row {
        peers: &[
            Peer {
                says: &[b"", b"done inval 1"],
                ends: true,
            },
            Peer {
                says: &[b"", b"done inval 2"],
                ends: false,
            },
        ],
        fail_at: 0,
        went: [false, false],
        sent: b"inval 7 1\ninval 7 2\n",
        received: b"done inval 1done inval 2",
    },
    // bytes stand in the connection before the second call
    Row {
        peers: &[Peer {
            says: &[b"", b"done inval 1\ndone inval 2\n"],
            ends: false,
        }],
        fail_at: 0,
        went: [true, false],
        sent: b"inval 7 1\n",
        received: b"done inval 1\n",
    },
    // the stream has ended before the second call
    Row {
        peers: &[
            Peer {
                says: &[b"", b"done inval 1\n"],
                ends: true,
            },
            Peer {
                says: &[b"", b"done inval 2\n"],
                ends: true,
            },
        ],
        fail_at: 0,
        went: [true, true],
        sent: b"inval 7 1\ninval 7 2\n",
        received: b"done inval 1\ndone inval 2\n",
    },
    // no peer
    Row {
        peers: &[],
        fail_at: 0,
        went: [false, false],
        sent: b"",
        received: b"",
    },
    // the connect, the send and the look of the second call fail
    Row {
        peers: &[Peer {
            says: &[b"", b"done inval 2\n"],
            ends: false,
        }],
        fail_at: 1,
        went: [false, true],
        sent: b"inval 7 2\n",
        received: b"done inval 2\n",
    },
    Row {
        peers: &[
            Peer {
                says: &[b"", b"done inval 1\n"],
                ends: false,
            },
            Peer {
                says: &[b"", b"done inval 2\n"],
                ends: false,
            },
        ],
        fail_at: 2,
        went: [false, true],
        sent: b"inval 7 2\n",
        received: b"done inval 2\n",
    },
    Row {
        peers: &[Peer {
            says: &[b"", b"done inval 1\n", b"done inval 2\n"],
            ends: false,
        }],
        fail_at: 16,
        went: [true, false],
        sent: b"inval 7 1\n",
        received: b"done inval 1\n",
    },
];

#[test]
fn peers_of_every_kind(rt: HostRuntime) {
    for row in &ROWS {
        let (went, sent, received) = (row.went, row.sent, row.received);
        let channel = MemoryChannel::new(rt.alloc(), row.peers, 64, row.fail_at);
        let mut sink = ChannelSink::new(channel);
        let first = sink.invalidate(7, 1).is_ok();
        let second = sink.invalidate(7, 2).is_ok();
        assert_eq!(rt; (first, second), (went[0], went[1]));
        assert_eq!(rt; sink.channel().sent(), sent);
        assert_eq!(rt; sink.channel().received(), received);
        drop(sink);
    }
}
