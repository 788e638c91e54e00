//! Calls of two seats by numbers from a fixed seed, so that a book and a lock that are asked the
//! same are seen to answer alike: what a call of `&Shared` hands on to its book is what it was
//! given.
ghost use Rattle.std.specs.Prelude.{◌<◌};

use crate::lock::action::{Action, answer, said};
use iova_keep::ask::Ask;
use iova_keep::keep::Keep;
use iova_keep::names::Names;
use iova_keep::seat::Seat;
use std::alloc::Global;
use std::process::Abort;
use std::test::*;

const CALLS: u64 = 16_000;

// Two times 4 GiB, in frames.
pub(crate) const LAST: u64 = 2_097_151;

// Numbers from a fixed seed: Steele, Lea and Flood's SplitMix64. The clients of worker 0 are the
// first two, those of worker 1 the others.
#[derive(Drop)]
struct Script {
    alloc: Global,
    state: u64,
    clients: [u64; 4],
    // what was answered, a line for each answer
    said: Vec<String>,
}

impl Script {
    fn below(&mut self, n: u64) -> u64
        requires { 0 < n }
        ensures { result < n }
    {
        self.state = self.state.wrapping_add(0x9e37_79b9_7f4a_7c15);
        let mut z = self.state;
        z = (z ^ (z >> 30)).wrapping_mul(0xbf58_476d_1ce4_e5b9);
        z = (z ^ (z >> 27)).wrapping_mul(0x94d0_49bb_1331_11eb);
        (z ^ (z >> 31)) % n
    }

    // Mostly one of the worker's two clients, else one of all four.
    fn place(&mut self, worker: u64) -> usize
        ensures { result < 4 }
    {
        if self.below(8) > 0 {
            let own = self.below(2);
            let first = if worker == 0 { 0 } else { 2 };
            return (first + own) as usize;
        }
        self.below(4) as usize
    }

    // Asks for an action, over a sink that mostly fails at its first call.
    fn ask<B: Names, K: Keep<B>, R: Abort>(
        &mut self,
        rt: &R,
        keeper: &mut K,
        seat: &mut Seat<B>,
        action: &Action<'_>,
    ) {
        let fail_at = [0, 1, 1, 2][self.below(4) as usize];
        let text = answer(rt, self.alloc, keeper, seat, fail_at, action);
        self.said.push(text).expect(rt, "memory");
    }

    // Opens a client in place of the one that stood there.
    fn open<B: Names, K: Keep<B>, R: Abort>(
        &mut self,
        rt: &R,
        keeper: &mut K,
        seat: &mut Seat<B>,
        place: usize,
    )
        requires { place < 4 }
    {
        let sac = self.below(2) == 0;
        let opened = keeper.open(seat, sac);
        self.said
            .push(said(rt, self.alloc, "opened", &opened))
            .expect(rt, "memory");
        if let Ok(id) = opened {
            self.clients[place] = id;
        }
    }

    // The first frame of one of the client's ranges, or how many there are.
    fn held<B: Names, K: Keep<B>>(&mut self, keeper: &K, seat: &Seat<B>, id: u64) -> u64 {
        let mut ranges = Vec::new(self.alloc);
        let _listed = keeper.holdings(seat, id, &mut ranges);
        let n = self.below((ranges.len() as u64).saturating_add(1)) as usize;
        match ranges.get(n) {
            Some(range) => range.lo(),
            None => n as u64,
        }
    }

    // The end of a client, and another client in its place.
    fn end<B: Names, K: Keep<B>, R: Abort>(
        &mut self,
        rt: &R,
        keeper: &mut K,
        seat: &mut Seat<B>,
        place: usize,
    )
        requires { place < 4 }
    {
        let id = self.clients[place];
        self.ask(rt, keeper, seat, &Action::EndClient(id));
        if let Some(text) = self.said.last() {
            if text.starts_with("ended Ok(Ended(") {
                self.open(rt, keeper, seat, place);
            }
        }
    }

    // One of the calls that are made seldom.
    fn other<B: Names, K: Keep<B>, R: Abort>(
        &mut self,
        rt: &R,
        keeper: &mut K,
        seat: &mut Seat<B>,
        place: usize,
    )
        requires { place < 4 }
    {
        let by = [0, 1, 16][self.below(3) as usize];
        match self.below(16) {
            0 => {
                self.ask(rt, keeper, seat, &Action::Flush);
                self.ask(rt, keeper, seat, &Action::DrainAll(by));
            }
            1 => self.ask(rt, keeper, seat, &Action::Timeout),
            2..=8 => self.end(rt, keeper, seat, place),
            _ => self.ask(rt, keeper, seat, &Action::DrainAll(by)),
        }
    }

    // One call, and then how the domain stands.
    fn call<B: Names, K: Keep<B>, R: Abort>(&mut self, rt: &R, keeper: &mut K, seat: &mut Seat<B>) {
        let place = self.place(seat.worker());
        let id = self.clients[place];
        let lo = self.held(keeper, seat, id);
        let limit = [1000, 1_500_000, LAST, LAST][self.below(4) as usize];
        let frames = self.below(5);
        let asks = [
            Ask::Alloc {
                frames: 2,
                limit: 1_500_000,
            },
            Ask::Stat,
            Ask::Free { lo },
        ];
        match self.below(128) {
            0 => self.other(rt, keeper, seat, place),
            n if n < 76 => self.ask(rt, keeper, seat, &Action::Alloc(id, frames, limit)),
            n if n < 84 => self.ask(rt, keeper, seat, &Action::Batch(id, &asks)),
            n if n < 106 => self.ask(rt, keeper, seat, &Action::Release(id, lo)),
            n if n < 108 => self.ask(rt, keeper, seat, &Action::Holdings(id)),
            _ => self.ask(rt, keeper, seat, &Action::Unmap(id, lo)),
        }
        self.ask(rt, keeper, seat, &Action::Stat);
        self.ask(rt, keeper, seat, &Action::Totals);
    }
}

// Two clients of each of two workers, and then calls of either worker in turn, and of either one's
// clients. What was answered.
pub(crate) fn said_by<B: Names, K: Keep<B>, R: Abort>(
    rt: &R,
    alloc: Global,
    keeper: &mut K,
    seats: &mut [Seat<B>],
) -> Vec<String> {
    let mut script = Script {
        alloc,
        state: 11,
        clients: [0; 4],
        said: Vec::new(alloc),
    };
    let [first, second, ..] = seats else {
        return script.said;
    };
    script.open(rt, keeper, first, 0);
    script.open(rt, keeper, first, 1);
    script.open(rt, keeper, second, 2);
    script.open(rt, keeper, second, 3);
    for _ in 0..CALLS / 2 {
        script.call(rt, keeper, first);
        script.call(rt, keeper, second);
    }
    script.said
}
