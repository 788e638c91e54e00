//! The points at which a growth of a step may be refused, and a list of steps whose replies have no
//! room. What a step leaves then, and what a domain tells, is seen through the library for C
//! (tests/c/machine.c).
use iova_core::domain::{Domain, run};
use iova_model::step::{Point, Reply, Step};
use iova_range::bounds::Bounds;
use iova_range::refusal::Refusal;
use std::alloc::Global;
use std::process::Abort;
use std::test::*;

const SAC: Step = Step::Open {
    worker: 0,
    sac: true,
};

const DAC: Step = Step::Open {
    worker: 0,
    sac: false,
};

const ONE: Step = Step::Alloc {
    worker: 0,
    client: 1,
    frames: 1,
    limit: 1_048_675,
};

const TWO: Step = Step::Alloc {
    worker: 0,
    client: 1,
    frames: 2,
    limit: 1_048_675,
};

// Steps of a domain of these bounds, each of which is good.
static CASES: [(u64, u64, &[Step]); 4] = [
    (1, 1023, &[Step::Reserve { lo: 1, hi: 3 }, DAC]),
    // in the ledger, and then in the first search, below 4 GiB
    (1, 1_048_675, &[SAC, ONE]),
    // and in the second one
    (1_048_570, 1_048_675, &[DAC, ONE]),
    // in the last one, once the caches were emptied
    (
        1,
        3,
        &[
            DAC,
            ONE,
            Step::Unmap {
                worker: 0,
                client: 1,
                lo: 3,
            },
            Step::Begin,
            Step::End { no: 1, ok: true },
            Step::Drain { ring: 0, by: 0 },
            TWO,
        ],
    ),
];

// Runs a step. Where a growth is refused, the point is printed, and the same step then succeeds.
fn ask<R: Abort + Print>(rt: &R, domain: &mut Domain, asked: Step) {
    let (mut reply, point) = domain.step_at(asked);
    let is_refused = matches!(reply, Reply::Refused(Refusal::NoMemory));
    assert_eq!(rt; is_refused, point != Point::Never, "{asked:?}");
    if is_refused {
        println!(rt; "refused at {point:?}").expect(rt, "a line");
        reply = domain.step(asked);
    }
    assert!(rt; !matches!(reply, Reply::Refused(_)), "{asked:?}");
}

// Steps that take no memory themselves: where a reply has no room, those before it are kept.
fn run_twenty<R: Abort>(rt: &R, domain: &mut Domain, replies: &mut Vec<Reply>) {
    let steps = [Step::Begin; 20];
    if run(domain, &steps, replies).is_err() {
        let done = replies.len();
        assert_eq!(rt; domain.in_flight(), done);
        assert!(rt; run(domain, steps.get(done..).unwrap_or(&[]), replies).is_ok());
    }
    assert_eq!(rt; replies.len(), 20);
    assert_eq!(rt; replies.last(), Some(&Reply::Begun(20)));
}

fn new_domain<R: Abort>(rt: &R, alloc: Global, start: u64, last: u64) -> Domain {
    let bounds = Bounds::new(start, last).expect(rt, "bounds");
    match Domain::new(alloc, bounds, 1) {
        Ok(domain) => domain,
        Err(_) => Domain::new(alloc, bounds, 1).expect(rt, "memory"),
    }
}

// It passes whichever growth is refused, and prints where.
#[test]
fn at_which_point(rt: HostRuntime) {
    for (start, last, steps) in CASES {
        let mut domain = new_domain(&rt, rt.alloc(), start, last);
        for asked in steps {
            ask(&rt, &mut domain, *asked);
        }
        drop(domain);
    }
    let mut domain = new_domain(&rt, rt.alloc(), 1, 1023);
    let mut replies = Vec::new(rt.alloc());
    run_twenty(&rt, &mut domain, &mut replies);
    drop(domain);
}
