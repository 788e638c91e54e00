//! The way to a lock, which one thread at a time may pass.
use std::hint::spin_loop;
use std::sync::Wait;
use std::sync::atomic::AtomicU64;
use std::sync::atomic::Ordering::SeqCst;

/// How often a thread looks whether the way is free before it sleeps: to sleep and to be woken
/// costs more than most holds do.
const LOOKS: u32 = 200;

/// Nobody is in it.
const FREE: u64 = 0;

/// A thread is in it, and nobody sleeps.
const TAKEN: u64 = 1;

/// A thread is in it, and others may sleep until it leaves.
const AWAITED: u64 = 2;

/// A turnstile before a lock. It isn't handed on: where a thread leaves, whoever comes first is the
/// next one, one that has just come or one that is woken. So no time passes in which nobody has the
/// lock while the one that it was handed to waits for a processor. It protects nothing, and no
/// proof rests on it: the lock behind it does.
#[derive(Drop)]
pub struct Turnstile {
    state: AtomicU64,
}

/// Says that this thread is in the turnstile, which it leaves when this is dropped.
pub struct Passage<'a> {
    of: &'a Turnstile,
}

impl Turnstile {
    /// Nobody is in it.
    pub fn new() -> Turnstile {
        Turnstile {
            state: AtomicU64::new(FREE),
        }
    }

    /// Waits until this thread is in it.
    pub fn pass<R: Wait>(&self, rt: &R) -> Passage<'_> {
        if !self.passes_at_a_look() {
            self.wait(rt);
        }
        Passage { of: self }
    }

    /// Whether a thread is in it.
    pub fn is_taken(&self) -> bool {
        self.state.load(SeqCst) != FREE
    }

    /// Whether it was free at one of `LOOKS` looks, so that this thread is in it now.
    fn passes_at_a_look(&self) -> bool {
        for _ in 0..LOOKS {
            if self.state.load(SeqCst) == FREE
                && self
                    .state
                    .compare_exchange(FREE, TAKEN, SeqCst, SeqCst)
                    .is_ok()
            {
                return true;
            }
            spin_loop();
        }
        false
    }

    /// Sleeps until it is free and this thread is in it. It is awaited from then on, since others
    /// may sleep as well.
    fn wait<R: Wait>(&self, rt: &R) {
        for _ in rt.forever() {
            if self.state.swap(AWAITED, SeqCst) == FREE {
                break;
            }
            self.state.park(rt, AWAITED as u32);
        }
    }
}

impl<'a> Drop for Passage<'a> {
    fn drop(self) {
        let Passage { of } = self;
        if of.state.swap(FREE, SeqCst) == AWAITED {
            of.state.wake_one();
        }
    }
}
