//! A sink that writes a record of each good invalidation.
ghost use Rattle.std.specs.Prelude.{◌≡◌, ℕ, ◌+◌, ◌<◌, ◌≤◌, [], ◌∷◌, ◌++◌, is_ok, length, take, decimal, IsOk, OnOk, OnErr};
ghost use Rattle.std.specs.Io.KnownBytes.{Appends};
ghost use Rattle.iova_sink.specs.Calls.{is_last_failed, with_call, with_gone};
ghost use Rattle.iova_sink.specs.Counts.{CountsFailure};
ghost use Rattle.iova_sink.specs.Records.{record_text};

use crate::calls::Calls;
use crate::device::{Device, DeviceFault};
use crate::sink::{Sink, SinkFault};
use arrayvec::ArrayVec;
use iova_range::range::Range;
use itoa::Buffer;
use std::marker::Model;

/// The most bytes of a record, of a line of a request and of an answer: words, at most three
/// numbers, and line feeds.
pub(crate) const MAX_RECORD: usize = 72;

/// Writes `inval <domain> <number>` and a line feed for each invalidation. The first record after
/// one that failed begins with a line feed of its own, so that what was written of the failed one
/// stays a line by itself.
pub struct RecordSink<D: Device> {
    device: D,
    calls: Calls,
    broken: bool,
}

/// Drops its parts. The proof stands here, once for all crates above.
impl<D: Device + Drop> Drop for RecordSink<D> {
    fn drop(self) {
        let RecordSink {
            device: _,
            calls: _,
            broken: _,
        } = self;
    }
}

impl<D: Device> Model for RecordSink<D> {
    ghost use Rattle.std.specs.Prelude.{◌≡◌};
    ghost use Rattle.iova_sink.specs.Calls.{is_last_failed};
    ghost use Rattle.iova_sink.specs.Devices.{RecordSinkState};

    ghost Value = { RecordSinkState D };

    ghost view = { λ s. record { device = s.device; calls = s.calls } };

    ghost invariant = { λ s. s.broken ≡ is_last_failed s.calls };
}

impl<D: Device> RecordSink<D> {
    /// A sink that writes to this device and was never called.
    pub fn new(device: D) -> RecordSink<D>
        ensures { result ≡ record { device = device; calls = [] } }
    {
        RecordSink {
            device,
            calls: Calls::new(),
            broken: false,
        }
    }

    /// The device that it writes to.
    pub fn device(&self) -> &D
        ensures { result.now ≡ self.now.device }
    {
        &self.device
    }
}

impl<D: Device> Sink for RecordSink<D> {
    ghost calls = { λ s. s.calls };

    /// Writes the record, and pushes it out. It fails where the device failed in this call, and
    /// nowhere else; some first bytes of the record may be written then.
    fn invalidate(&mut self, domain: u64, no: u64) -> Result<(), SinkFault>
        ensures calls { self.new.calls ≡ with_call self.old.calls domain no (is_ok result) }
        ensures written { OnOk result (Appends (D.taken self.old.device) (D.taken self.new.device)
            (record_text (is_last_failed self.old.calls) domain no)) }
        ensures cut { OnErr result ((n : ℕ)
            × Appends (D.taken self.old.device) (D.taken self.new.device)
            (take n (record_text (is_last_failed self.old.calls) domain no))) }
        ensures failures { CountsFailure result (D.failures self.old.device)
            (D.failures self.new.device) }
    {
        let text = record_of(self.broken, domain, no);
        let ok = put_all(&mut self.device, text.as_slice()).is_ok();
        self.broken = !ok;
        self.calls.add(domain, no, ok);
        if ok { Ok(()) } else { Err(SinkFault::Broken) }
    }

    /// Does nothing, and is good: a device doesn't answer.
    fn gone(&mut self, domain: u64, client: u64, ranges: &Vec<Range>) -> Result<(), SinkFault>
        ensures calls { self.new.calls ≡ with_gone self.old.calls domain client ranges.now.items
            result }
        ensures good { IsOk result }
        ensures same { self.new.device ≡ self.old.device }
    {
        self.calls.add_gone(domain, client, ranges, Ok(()));
        Ok(())
    }
}

/// The bytes of a record. One after a call that failed begins with a line feed.
pub(crate) fn record_of(after_failure: bool, domain: u64, no: u64) -> ArrayVec<u8, MAX_RECORD>
    ensures { result.items ≡ record_text after_failure domain no }
{
    let mut text = ArrayVec::new();
    if after_failure {
        put(&mut text, b"\n");
    }
    put(&mut text, b"inval");
    put_number(&mut text, domain);
    put_number(&mut text, no);
    put(&mut text, b"\n");
    text
}

/// Appends the bytes, for which there is room.
pub(crate) fn put(text: &mut ArrayVec<u8, MAX_RECORD>, bytes: &[u8])
    requires { length text.old.items + length bytes.now ≤ MAX_RECORD }
    ensures { text.new.items ≡ text.old.items ++ bytes.now }
{
    let _fits = text.try_extend_from_slice(bytes);
}

/// Appends a space and the number.
pub(crate) fn put_number(text: &mut ArrayVec<u8, MAX_RECORD>, number: u64)
    requires { length text.old.items + 21 ≤ MAX_RECORD }
    ensures items { text.new.items ≡ text.old.items ++ 32 ∷ decimal number }
    ensures longer { length text.new.items ≤ length text.old.items + 21 }
{
    put(text, b" ");
    put_digits(text, number);
}

/// Appends the number.
pub(crate) fn put_digits(text: &mut ArrayVec<u8, MAX_RECORD>, number: u64)
    requires { length text.old.items + 20 ≤ MAX_RECORD }
    ensures items { text.new.items ≡ text.old.items ++ decimal number }
    ensures longer { length text.new.items ≤ length text.old.items + 20 }
{
    put(text, Buffer::new().format(number).as_bytes());
}

/// Puts all bytes, going on where the device takes fewer, and pushes them out.
fn put_all<D: Device>(device: &mut D, bytes: &[u8]) -> Result<(), DeviceFault>
    ensures ok { OnOk result (Appends (D.taken device.old) (D.taken device.new) bytes.now) }
    ensures err { OnErr result ((n : ℕ)
        × Appends (D.taken device.old) (D.taken device.new) (take n bytes.now)) }
    ensures failures { CountsFailure result (D.failures device.old) (D.failures device.new) }
{
    let mut done = 0;
    while done < bytes.len() {
        done += device.put(&bytes[done..])?;
    }
    device.push_out()
}
