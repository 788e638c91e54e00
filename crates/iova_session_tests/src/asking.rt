//! Asking over a link in memory, and its refused growths. Inputs, outputs and links that are cut or
//! fail are seen on the program (tests/run_links).
use iova_ask::ask_lines;
use iova_ask::fault::AskFault;
use iova_session::memory_link::MemoryLink;
use std::alloc::Global;
use std::process::Abort;
use std::test::*;

// Two lines asked: where memory is refused nothing is sent and nothing written. Whether the call
// itself was refused.
fn asked<R: Abort + Print>(rt: &R, alloc: Global, answers: &mut Vec<u8>) -> bool {
    let mut input = b"list\nbye".as_slice();
    let mut link = MemoryLink::new(alloc, b"held 1\n9 1\nbye\n", 4096, 0);
    let outcome = ask_lines(alloc, &mut input, answers, &mut link);
    if outcome == Err(AskFault::NoMemory) {
        println!(rt; "refused at ask_lines").expect(rt, "a line");
        assert!(rt; answers.is_empty() && link.sent().is_empty());
        return true;
    }
    if outcome == Ok(2) {
        assert_eq!(rt; link.sent(), b"list\nbye\n".as_slice());
        assert_eq!(rt; answers.as_slice(), b"held 1\n9 1\nbye\n".as_slice());
        return false;
    }
    println!(rt; "refused at a link or a writer in memory").expect(rt, "a line");
    answers.clear();
    true
}

// It passes whichever growth is refused, and prints where.
#[test]
fn a_refused_growth_of_asking(rt: HostRuntime) {
    let mut answers = Vec::new(rt.alloc());
    if asked(&rt, rt.alloc(), &mut answers) {
        assert!(rt; !asked(&rt, rt.alloc(), &mut answers));
    }
}
