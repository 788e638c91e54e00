//! A sink over a channel: a peer invalidates, and answers.
ghost use Rattle.std.specs.Prelude.{◌≡◌, ◌≤◌, ◌++◌, [], is_ok, length, codes};
ghost use Rattle.iova_sink.specs.Calls.{with_call, with_gone};
ghost use Rattle.iova_sink.specs.Channels.{Adds, Answers, Requests, SendsAll};
ghost use Rattle.iova_sink.specs.Talks.{IsTalk, GoodCallsAreAnswered};
ghost use Rattle.iova_sink.specs.Records.{inval_line, reset_line, gone_line, range_line, ranges_text, gone_text, done_line, fail_line};

use crate::asking::{conclude, ready, send_all, tell};
use crate::calls::Calls;
use crate::channel::{Channel, ChannelFault};
use crate::record::{MAX_RECORD, put, put_digits, put_number, record_of};
use crate::sink::{Sink, SinkFault};
use arrayvec::ArrayVec;
use iova_range::range::Range;
use std::marker::Model;

/// The most bytes that are sent at a time of a request of many lines.
const BLOCK: usize = 4_096;

/// A sink over a channel. It sends a request for each call, one at a time, and takes the answer:
/// `done` or `fail`, the request's word and its number, and a line feed. Any other bytes, the end
/// of the stream and a failure of the channel, a time-out too, close the connection, and the next
/// call connects anew.
pub struct ChannelSink<C: Channel> {
    channel: C,
    calls: Calls,
}

/// Drops its parts. The proof stands here, once for all crates above.
impl<C: Channel + Drop> Drop for ChannelSink<C> {
    fn drop(self) {
        let ChannelSink {
            channel: _,
            calls: _,
        } = self;
    }
}

impl<C: Channel> Model for ChannelSink<C> {
    ghost use Rattle.iova_sink.specs.Channels.{Asking};
    ghost use Rattle.iova_sink.specs.Talks.{IsTalk};

    ghost Value = { Asking C };

    ghost view = { λ s. record { channel = s.channel; calls = s.calls } };

    ghost invariant = { λ s. IsTalk s.calls (C.talk s.channel).passed };
}

impl<C: Channel> ChannelSink<C> {
    /// A sink over this channel that was never called.
    pub fn new(channel: C) -> ChannelSink<C>
        ensures { result ≡ record { channel = channel; calls = [] } }
    {
        ChannelSink {
            channel,
            calls: Calls::new(),
        }
    }

    /// The channel. What passed over it comes of the calls of this sink, in their order: each good
    /// one had its request sent and was answered behind it.
    pub fn channel(&self) -> &C
        ensures channel { result.now ≡ self.now.channel }
        ensures talk { IsTalk self.now.calls (C.talk self.now.channel).passed }
    {
        &self.channel
    }

    /// Sends the line that nothing of the domain is mapped. Good exactly where it answers `done
    /// reset <domain>`.
    pub fn reset(&mut self, domain: u64) -> Result<(), SinkFault>
        ensures answers { Answers (C.talk self.old.channel) (C.talk self.new.channel)
            (reset_line domain)
            (done_line (codes "reset") domain) (fail_line (codes "reset") domain) result }
        ensures calls { self.new.calls ≡ self.old.calls }
    {
        let line = reset_of(domain);
        tell(&mut self.channel, line.as_slice(), b"reset", domain)
    }
}

impl<C: Channel> Sink for ChannelSink<C> {
    ghost calls = { λ s. s.calls };

    /// Sends the record of the invalidation. Good exactly where the peer answers `done inval
    /// <number>`.
    fn invalidate(&mut self, domain: u64, no: u64) -> Result<(), SinkFault>
        ensures calls { self.new.calls ≡ with_call self.old.calls domain no (is_ok result) }
        ensures answers { Answers (C.talk self.old.channel) (C.talk self.new.channel)
            (inval_line domain no)
            (done_line (codes "inval") no) (fail_line (codes "inval") no) result }
    {
        let line = record_of(false, domain, no);
        let told = tell(&mut self.channel, line.as_slice(), b"inval", no);
        self.calls.add(domain, no, told.is_ok());
        told
    }

    /// Sends the line of the client that is gone, and one for each range. Good exactly where the
    /// peer answers `done gone <client>`. It takes no memory: the request goes out a block of 4 KiB
    /// at a time.
    fn gone(&mut self, domain: u64, client: u64, ranges: &Vec<Range>) -> Result<(), SinkFault>
        ensures calls { self.new.calls ≡ with_gone self.old.calls domain client ranges.now.items
            result }
        ensures answers { Answers (C.talk self.old.channel) (C.talk self.new.channel)
            (gone_text domain client ranges.now.items) (done_line (codes "gone") client)
            (fail_line (codes "gone") client)
            result }
    {
        let sent = begin_gone(&mut self.channel, domain, client, ranges.as_slice());
        let told = conclude(&mut self.channel, sent, b"gone", client);
        self.calls.add_gone(domain, client, ranges, told);
        told
    }
}

/// In whatever passed over a channel at the calls of its sink, the answer of each good one stands
/// directly behind its request.
pub fn good_calls_are_answered()
    ensures { GoodCallsAreAnswered }
{}

/// Makes a connection ready, and sends that the client is gone.
fn begin_gone<C: Channel>(
    channel: &mut C,
    domain: u64,
    client: u64,
    ranges: &[Range],
) -> Result<(), ChannelFault>
    ensures { Requests (C.talk channel.old) (C.talk channel.new)
        (gone_text domain client ranges.now) result }
{
    match ready(channel) {
        Ok(()) => send_gone(channel, domain, client, ranges),
        Err(fault) => Err(fault),
    }
}

/// Sends the line of a client that is gone, and those of its ranges.
fn send_gone<C: Channel>(
    channel: &mut C,
    domain: u64,
    client: u64,
    ranges: &[Range],
) -> Result<(), ChannelFault>
    ensures { SendsAll (C.talk channel.old) (C.talk channel.new)
        (gone_text domain client ranges.now) result }
{
    let line = gone_of(domain, client, ranges.len());
    let mut block = ArrayVec::new();
    let _fits = block.try_extend_from_slice(line.as_slice());
    send_ranges(channel, &mut block, ranges)
}

/// The line of a domain of which nothing is mapped.
fn reset_of(domain: u64) -> ArrayVec<u8, MAX_RECORD>
    ensures { result.items ≡ reset_line domain }
{
    let mut line = ArrayVec::new();
    put(&mut line, b"reset");
    put_number(&mut line, domain);
    put(&mut line, b"\n");
    line
}

/// The line of a client that is gone.
fn gone_of(domain: u64, client: u64, count: usize) -> ArrayVec<u8, MAX_RECORD>
    ensures items { result.items ≡ gone_line domain client count }
    ensures bound { length result.items ≤ MAX_RECORD }
{
    let mut line = ArrayVec::new();
    put(&mut line, b"gone");
    put_number(&mut line, domain);
    put_number(&mut line, client);
    put_number(&mut line, count as u64);
    put(&mut line, b"\n");
    line
}

/// Sends the block, and a line for each range behind it.
fn send_ranges<C: Channel>(
    channel: &mut C,
    block: &mut ArrayVec<u8, BLOCK>,
    ranges: &[Range],
) -> Result<(), ChannelFault>
    ensures { SendsAll (C.talk channel.old) (C.talk channel.new)
        (block.old.items ++ ranges_text ranges.now) result }
{
    for range in ranges {
        let line = line_of(*range);
        match add(channel, block, line.as_slice()) {
            Ok(()) => {}
            Err(fault) => return Err(fault),
        }
    }
    send_all(channel, block.as_slice())
}

/// Appends the line to the block, which is sent first where it has no room for it.
fn add<C: Channel>(
    channel: &mut C,
    block: &mut ArrayVec<u8, BLOCK>,
    line: &[u8],
) -> Result<(), ChannelFault>
    requires { length line.now ≤ MAX_RECORD }
    ensures { Adds (C.talk channel.old) (C.talk channel.new) block.old.items block.new.items
        line.now result }
{
    if block.remaining_capacity() < line.len() {
        match send_all(channel, block.as_slice()) {
            Ok(()) => block.clear(),
            Err(fault) => return Err(fault),
        }
    }
    let _fits = block.try_extend_from_slice(line);
    Ok(())
}

/// The line of a range.
fn line_of(range: Range) -> ArrayVec<u8, MAX_RECORD>
    ensures items { result.items ≡ range_line range }
    ensures bound { length result.items ≤ MAX_RECORD }
{
    let mut line = ArrayVec::new();
    put_digits(&mut line, range.lo());
    put_number(&mut line, range.len());
    put(&mut line, b"\n");
    line
}
