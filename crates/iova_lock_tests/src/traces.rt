//! Whole traces written and read, and replies whose numbers are the greatest. How traces are read
//! and replies written is seen on the program (tests/run_traces, tests/run_replays).

use iova_line::line::{write_header, write_step};
use iova_model::step::{Reply, Step};
use iova_range::bounds::Bounds;
use iova_range::profile::Profile;
use iova_range::range::Range;
use iova_range::refusal::Refusal;
use iova_text::buffer::LineBuffer;
use iova_trace::fault::ReplayFault;
use iova_trace::reply::put_reply;
use iova_trace::whole::read_trace;
use std::alloc::Global;
use std::process::Abort;
use std::test::*;

static STEPS: [Step; 10] = [
    Step::Reserve { lo: 16, hi: 23 },
    Step::Open {
        worker: 1,
        sac: true,
    },
    Step::Open {
        worker: 0,
        sac: false,
    },
    Step::Alloc {
        worker: 1,
        client: 1,
        frames: 5,
        limit: u64::MAX,
    },
    Step::Unmap {
        worker: 1,
        client: 1,
        lo: 1016,
    },
    Step::Begin,
    Step::End { no: 1, ok: false },
    Step::Drain { ring: 1, by: 0 },
    Step::Close {
        worker: 1,
        client: 1,
    },
    Step::CloseOne {
        worker: 1,
        client: 1,
    },
];

const LINES: &str =
    "reserve 16 23\nopen 1 sac\nopen 0 dac\nalloc 1 1 5 18446744073709551615\nunmap 1 1 1016\nbegin\nend 1 fail\ndrain 1 0\nclose 1 1\ncloseone 1 1\n";

// Appends the lines of the header and of these steps. Where memory is refused, nothing is appended,
// and the same call goes well then.
fn write<R: Abort + Print>(
    rt: &R,
    bounds: &Bounds,
    workers: u64,
    steps: &[Step],
    text: &mut Vec<u8>,
) {
    if write_header(bounds, workers, text) == Err(Refusal::NoMemory) {
        println!(rt; "refused at write_header").expect(rt, "a line");
        assert!(rt; text.is_empty());
        assert_eq!(rt; write_header(bounds, workers, text), Ok(()));
    }
    for step in steps {
        let before = text.len();
        if write_step(step, text) == Err(Refusal::NoMemory) {
            println!(rt; "refused at write_step").expect(rt, "a line");
            assert_eq!(rt; text.len(), before);
            assert_eq!(rt; write_step(step, text), Ok(()));
        }
    }
}

// What is read of these lines is what they were written of, and is written again as it was.
fn is_read<R: Abort + Print>(rt: &R, alloc: Global, bounds: &Bounds, workers: u64, text: &[u8]) {
    let read = match read_trace(alloc, text) {
        Err(ReplayFault::NoMemory) => read_trace(alloc, text),
        read => read,
    };
    match read {
        Ok(trace) => {
            assert!(rt; trace.bounds == *bounds && trace.workers == workers);
            let mut again = Vec::new(alloc);
            write(
                rt,
                &trace.bounds,
                trace.workers,
                trace.steps.as_slice(),
                &mut again,
            );
            assert_eq!(rt; again.as_slice(), text);
        }
        Err(_) => panic!(rt; "it isn't read"),
    }
}

// What is written of a domain of each profile is read back as that. It passes whichever growth is
// refused, and prints where.
#[test]
fn what_is_written_is_read_also_after_a_refused_growth(rt: HostRuntime) {
    let profile = Profile::two(7).expect(&rt, "a profile");
    let first = Bounds::new(1, 1023).expect(&rt, "bounds");
    let second = Bounds::new_in(profile, 5, 1_099_511_627_775).expect(&rt, "bounds");
    for (bounds, workers, header) in [
        (first, 2, "iovatrace 1 1 1023 2\n"),
        (second, 16, "iovatrace 2 5 1099511627775 16 7\n"),
    ] {
        let mut text = Vec::new(rt.alloc());
        write(&rt, &bounds, workers, &STEPS, &mut text);
        assert_eq!(rt;
            text.strip_prefix(header.as_bytes()),
            Some(LINES.as_bytes())
        );
        is_read(&rt, rt.alloc(), &bounds, workers, text.as_slice());
    }
}

// No domain has such frames; the other replies are in tests/traces.
#[test]
fn the_longest_reply(rt: HostRuntime) {
    let mut line = LineBuffer::new();
    put_reply(
        &Reply::Reserved(Range::new(18446744073709551614, 2)),
        &mut line,
    );
    assert_eq!(rt;
        line.as_slice(),
        b"reserved 18446744073709551614 18446744073709551615\n".as_slice()
    );
}
