//! Answers written whose numbers are the greatest, and refused growths of one. Which lines are
//! requests, and what answers look like, is seen on the program (tests/run_links).
use iova_proto::answer::Answer;
use iova_proto::encode::encode;
use iova_proto::held::HeldRanges;
use iova_range::range::Range;
use iova_range::refusal::Refusal;
use iova_range::stat::Stat;
use std::process::Abort;
use std::test::*;

// Appends an answer. Where memory is refused nothing is appended, and the same call goes well then.
fn append<R: Abort + Print>(rt: &R, answer: &Answer, kind: &str, out: &mut Vec<u8>) {
    let before = out.len();
    let mut done = encode(answer, out);
    if done == Err(Refusal::NoMemory) {
        println!(rt; "refused at {kind}").expect(rt, "a line");
        assert_eq!(rt; out.len(), before);
        done = encode(answer, out);
    }
    assert_eq!(rt; done, Ok(()));
}

// It passes whichever growth is refused, and prints where.
#[test]
fn answers_with_a_refused_growth(rt: HostRuntime) {
    let most = u64::MAX;
    let stat = Stat {
        free: most,
        reserved: most,
        client: most,
        magazine: most,
        depot: most,
        ring: most,
        start: most,
        finish: most,
    };
    let mut line = Vec::new(rt.alloc());
    append(&rt, &Answer::Stat(stat), "encode", &mut line);
    assert_eq!(rt; line.len(), 173);
    let ranges = [Range::new(1, 2), Range::new(16, 1), Range::new(most, 1)];
    let held = match ranges.to_vec(rt.alloc()) {
        Ok(held) => held,
        Err(_) => ranges.to_vec(rt.alloc()).expect(&rt, "memory"),
    };
    let answer = Answer::Held(HeldRanges::new(held));
    let mut out = Vec::new(rt.alloc());
    append(&rt, &answer, "ranges", &mut out);
    assert_eq!(rt;
        out.as_slice(),
        b"held 3\n1 2\n16 1\n18446744073709551615 1\n".as_slice()
    );
    drop(answer);
}
