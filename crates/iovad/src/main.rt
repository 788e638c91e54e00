//! `iovad`, the address service: it replays traces, serves sessions on a socket, and asks lines of
//! such a service.
#![tactic(auto)]

mod daemon;

use daemon::{Host, serve};
use iova_command::asked::Asked;
use iova_command::words::{asked, words};
use iova_files::standard::hold_closed_streams;
use iova_keep::ledgers::Blanks;
use iova_planned::seats::seat_count;
use iova_range::limits::SEAT_PARTS;
use iova_tools::asking::ask_at;
use iova_tools::checking::check_planned;
use iova_tools::fault::Fault;
use iova_tools::replaying::replay;
use iova_watch::controlling::control;
use iova_watch::watching::{WatchPlan, watch};
use std::io::IsTerminal;
use std::marker::Brand;
use std::process::ExitCode;

fn main(rt: HostRuntime) -> ExitCode {
    hold_closed_streams(&rt);
    let words = match words(&rt) {
        Ok(words) => words,
        Err(fault) => return Fault::from(fault).tell(&rt),
    };
    // whether lines are typed, and answers are read, at a terminal
    let is_by_hand = rt.stdin().is_terminal() && rt.stdout().is_terminal();
    match run(&rt, &words, is_by_hand) {
        Ok(()) => ExitCode::SUCCESS,
        Err(fault) => fault.tell(&rt),
    }
}

/// Does what the words ask for. The four ledgers of a domain that is served get their names here.
fn run<'a, R: Host>(rt: &R, words: &'a [String], is_by_hand: bool) -> Result<(), Fault<'a>> {
    match asked(rt.alloc(), words)? {
        Asked::Replay {
            path,
            has_report,
            log,
        } => replay(rt, path, has_report, log),
        Asked::Serve(plan, said) => {
            let blanks = Blanks::new(seat_count(&plan), SEAT_PARTS);
            serve::<R, Brand>(rt, &plan, &said, blanks)
        }
        Asked::Ask { path, timeout } => ask_at(rt, path, timeout, is_by_hand),
        Asked::Check(plan) => check_planned(rt, &plan),
        Asked::Control {
            path,
            word,
            timeout,
        } => control(rt, path, word, timeout),
        Asked::Watch {
            path,
            seconds,
            is_top,
            timeout,
        } => {
            let how = WatchPlan {
                seconds: seconds.unwrap_or(1),
                is_top,
                is_at_terminal: is_by_hand,
                timeout,
            };
            watch(rt, path, how)
        }
    }
}
