//! One request over a channel, and its answer.
ghost use Rattle.std.specs.Prelude.{◌≡◌, ◌≤◌, ◌+◌, [], length};
ghost use Rattle.iova_sink.specs.Channels.{SendsAll, Takes, EndsAtLf, IsSaid, Hears, Requests, Readies, Settles, Concludes, Answers};
ghost use Rattle.iova_sink.specs.Records.{answer_line, done_line, fail_line};

use crate::channel::{Channel, ChannelFault, Incoming};
use crate::record::{MAX_RECORD, put, put_number};
use crate::sink::SinkFault;
use arrayvec::ArrayVec;

/// What came after a request.
#[derive(Clone, Copy, PartialEq, Eq, Debug)]
pub enum AnswerState {
    /// The answer that all is done.
    Done,
    /// The answer that it failed.
    Failed,
    /// Neither: other bytes, the end of the stream, or a failure of the channel.
    Broken,
}

/// Sends the request, and takes its answer, `done` or `fail` with this word and this number.
pub(crate) fn tell<C: Channel>(
    channel: &mut C,
    request: &[u8],
    word: &[u8],
    number: u64,
) -> Result<(), SinkFault>
    requires { length word.now ≤ 8 }
    ensures { Answers (C.talk channel.old) (C.talk channel.new) request.now
        (done_line word.now number) (fail_line word.now number) result }
{
    let sent = begin(channel, request);
    conclude(channel, sent, word, number)
}

/// Makes a connection ready, and sends the request.
fn begin<C: Channel>(channel: &mut C, request: &[u8]) -> Result<(), ChannelFault>
    ensures { Requests (C.talk channel.old) (C.talk channel.new) request.now result }
{
    match ready(channel) {
        Ok(()) => send_all(channel, request),
        Err(fault) => Err(fault),
    }
}

/// Makes a connection ready for a request: one that has ended is connected anew, and one in which
/// bytes stand is refused.
pub(crate) fn ready<C: Channel>(channel: &mut C) -> Result<(), ChannelFault>
    ensures { Readies (C.talk channel.old) (C.talk channel.new) result }
{
    if !channel.is_open() {
        return channel.connect();
    }
    match channel.look() {
        Ok(Incoming::Nothing) => Ok(()),
        Ok(Incoming::Bytes) => Err(ChannelFault),
        Ok(Incoming::End) => channel.connect(),
        Err(fault) => Err(fault),
    }
}

/// Sends all bytes, going on after short counts.
pub(crate) fn send_all<C: Channel>(channel: &mut C, bytes: &[u8]) -> Result<(), ChannelFault>
    ensures { SendsAll (C.talk channel.old) (C.talk channel.new) bytes.now result }
{
    let mut done = 0;
    while done < bytes.len() {
        match channel.send(&bytes[done..]) {
            Ok(n) => done += n,
            Err(fault) => return Err(fault),
        }
    }
    Ok(())
}

/// Takes the answer of a request that was sent, and closes the connection after anything but one of
/// its two answers.
pub(crate) fn conclude<C: Channel>(
    channel: &mut C,
    sent: Result<(), ChannelFault>,
    word: &[u8],
    number: u64,
) -> Result<(), SinkFault>
    requires { length word.now ≤ 8 }
    ensures { Concludes (C.talk channel.old) (C.talk channel.new) (done_line word.now number)
        (fail_line word.now number)
        sent result }
{
    match sent {
        Ok(()) => settle(channel, word, number),
        Err(_) => {
            channel.close();
            Err(SinkFault::Broken)
        }
    }
}

/// Takes the answer of a request that was sent whole.
fn settle<C: Channel>(channel: &mut C, word: &[u8], number: u64) -> Result<(), SinkFault>
    requires { length word.now ≤ 8 }
    ensures { Settles (C.talk channel.old) (C.talk channel.new) (done_line word.now number)
        (fail_line word.now number) result }
{
    let done = answer(b"done", word, number);
    let failed = answer(b"fail", word, number);
    match hear(channel, done.as_slice(), failed.as_slice()) {
        AnswerState::Done => Ok(()),
        AnswerState::Failed => Err(SinkFault::Refused),
        AnswerState::Broken => {
            channel.close();
            Err(SinkFault::Broken)
        }
    }
}

/// The line of an answer, which says how a request of this word and number went.
fn answer(outcome: &[u8], word: &[u8], number: u64) -> ArrayVec<u8, MAX_RECORD>
    requires outcome { length outcome.now ≤ 4 }
    requires word { length word.now ≤ 8 }
    ensures items { result.items ≡ answer_line outcome.now word.now number }
    ensures bound { length result.items ≤ MAX_RECORD }
{
    let mut line = ArrayVec::new();
    put(&mut line, outcome);
    put(&mut line, b" ");
    put(&mut line, word);
    put_number(&mut line, number);
    put(&mut line, b"\n");
    line
}

/// Receives an answer, and says which of the two it is.
fn hear<C: Channel>(channel: &mut C, done: &[u8], failed: &[u8]) -> AnswerState
    requires { length done.now ≤ MAX_RECORD }
    ensures { Hears (C.talk channel.old) (C.talk channel.new) done.now failed.now result }
{
    let mut got = ArrayVec::new();
    match receive_line(channel, done.len(), &mut got) {
        Ok(()) => said(got.as_slice(), done, failed),
        Err(_) => AnswerState::Broken,
    }
}

/// Which of the two answers these bytes are.
fn said(got: &[u8], done: &[u8], failed: &[u8]) -> AnswerState
    ensures { IsSaid got.now done.now failed.now result }
{
    if got == done {
        AnswerState::Done
    } else if got == failed {
        AnswerState::Failed
    } else {
        AnswerState::Broken
    }
}

/// Receives the bytes of one line from the channel's buffer, one at a time: up to an LF, the end of
/// the stream or `limit` bytes. It leaves later bytes in the buffer.
fn receive_line<C: Channel>(
    channel: &mut C,
    limit: usize,
    got: &mut ArrayVec<u8, MAX_RECORD>,
) -> Result<(), ChannelFault>
    requires empty { got.old.items ≡ [] }
    requires room { limit ≤ MAX_RECORD }
    ensures takes { Takes (C.talk channel.old) (C.talk channel.new) got.new.items result }
    ensures short { length got.new.items ≤ limit }
    ensures one { EndsAtLf got.new.items }
{
    let mut byte = [0u8];
    while got.len() < limit {
        match channel.receive(&mut byte) {
            Ok(0) => return Ok(()),
            Ok(_) => got.push(byte[0]),
            Err(fault) => return Err(fault),
        }
        if byte[0] == b'\n' {
            return Ok(());
        }
    }
    Ok(())
}
