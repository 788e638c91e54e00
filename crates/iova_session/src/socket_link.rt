//! A link over a socket.
ghost use Rattle.std.specs.Prelude.{◌≡◌, None};

use crate::link::{Link, LinkFault};
use iova_sink::count::Count;
use iova_sink::device::bytes_taken;
use iova_text::read::bytes_read;
use std::io::{Read, Write};
use std::marker::Model;
use std::os::unix::net::UnixStream;

/// A connected Unix socket. Each call is one call of the operating system, which may wait for the
/// other end, and none is made again. Contracts see the numbers of its calls, its reads, its
/// failures and the reads that found the end; what bytes come and go, no contract can say.
#[derive(Drop)]
pub struct SocketLink {
    stream: UnixStream,
    calls: Count,
    reads: Count,
    failed: Count,
    ended: Count,
}

impl Model for SocketLink {
    ghost use Rattle.iova_session.specs.Links.{LinkCounts};

    ghost Value = { LinkCounts };

    ghost view = { λ l. record {
      calls = l.calls;
      reads = l.reads;
      failures = l.failed;
      ends = l.ended;
    } };
}

impl SocketLink {
    /// A link over this socket, of which no call was made.
    pub fn new(stream: UnixStream) -> SocketLink
        ensures { result ≡ record { calls = 0; reads = 0; failures = 0; ends = 0 } }
    {
        SocketLink {
            stream,
            calls: Count::new(),
            reads: Count::new(),
            failed: Count::new(),
            ended: Count::new(),
        }
    }
}

impl Link for SocketLink {
    ghost left = { λ l. None };

    ghost sent = { λ l. None };

    ghost calls = { λ l. l.calls };

    ghost reads = { λ l. l.reads };

    ghost failures = { λ l. l.failures };

    ghost ends = { λ l. l.ends };

    fn read(&mut self, buf: &mut [u8]) -> Result<usize, LinkFault> {
        self.calls.up();
        self.reads.up();
        let read = self.stream.read(buf);
        let Ok(n) = bytes_read(read) else {
            self.failed.up();
            return Err(LinkFault);
        };
        if n == 0 && !buf.is_empty() {
            self.ended.up();
        }
        Ok(n)
    }

    fn write(&mut self, bytes: &[u8]) -> Result<usize, LinkFault> {
        self.calls.up();
        let written = self.stream.write(bytes);
        match bytes_taken(written, bytes.len()) {
            Some(n) => Ok(n),
            None => {
                self.failed.up();
                Err(LinkFault)
            }
        }
    }
}
