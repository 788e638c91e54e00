//! A reply's line, written.
ghost use Rattle.std.specs.Prelude.{◌≡◌, ◌+◌, ◌<◌, ◌≤◌, ◌++◌, length, OnOk, OnErr, vec_len, vec_capacity};
ghost use Rattle.iova_trace.specs.Replies.{reply_text};

use iova_model::step::Reply;
use iova_range::limits::MAX_LINE;
use iova_range::refusal::Refusal;
use iova_text::buffer::{LineBuffer, append, put, put_numbers, put_refusal, put_two_numbers};

/// The most bytes that a reply's line has, with its LF.
pub const MAX_REPLY: usize = 64;

/// Appends the reply's line with its LF, at most 64 bytes, for which there is room. It takes no
/// memory.
pub fn put_reply(reply: &Reply, out: &mut LineBuffer)
    requires { length out.old.items + MAX_REPLY ≤ MAX_LINE }
    ensures items { out.new.items ≡ out.old.items ++ reply_text reply.now }
    ensures short { length out.new.items ≤ length out.old.items + MAX_REPLY }
{
    match *reply {
        Reply::Reserved(range) => put_numbers(out, b"reserved", &[range.lo(), range.hi()]),
        Reply::Opened(serial) => put_numbers(out, b"opened", &[serial]),
        Reply::Given(range) => put_two_numbers(out, b"given", range.lo(), range.len()),
        Reply::Queued(range) => put_two_numbers(out, b"queued", range.lo(), range.len()),
        Reply::Empty => put(out, b"empty"),
        Reply::Begun(number) => put_numbers(out, b"begun", &[number]),
        Reply::Ended => put(out, b"ended"),
        Reply::Drained(count) => put_numbers(out, b"drained", &[count]),
        Reply::Marked(left) => put_numbers(out, b"marked", &[left]),
        Reply::Refused(refusal) => put_refusal(out, refusal),
    }
    put(out, b"\n");
}

/// Appends the reply's line with its LF. Refused by `NoMemory`, which appends nothing and comes
/// only where `out` has to grow.
pub fn write_reply(reply: &Reply, out: &mut Vec<u8>) -> Result<(), Refusal>
    ensures ok { OnOk result (out.new.items ≡ out.old.items ++ reply_text reply.now) }
    ensures err { OnErr result ((result ≡ Err Refusal.NoMemory) × (out.new.items ≡ out.old.items)) }
    ensures full { OnErr result (vec_capacity out.old < vec_len out.old + length
        (reply_text reply.now)) }
{
    let mut text = LineBuffer::new();
    put_reply(reply, &mut text);
    append(out, &text)
}
