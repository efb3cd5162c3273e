//! The site: what all workers share while they work.
ghost use Rattle.std.specs.Prelude.{◌≡◌};

use crate::name::Name;
use crate::shared::Shared;
use std::sync::atomic::{AtomicU64, Ordering};

// What each worker gets: the runtime by which it waits, the pool, the gate, and whether replies are kept. It also notes which
// worker had no thread.
pub(super) struct Site<'s, N: Name, R, G> {
    pub(super) rt: &'s R,
    pub(super) shared: &'s Shared<N>,
    pub(super) gate: &'s G,
    pub(super) keeps: bool,
    // The number of the last worker without a thread, plus 1, or 0.
    refused: AtomicU64,
}

impl<'s, N: Name, R, G> Drop for Site<'s, N, R, G> {
    fn drop(self) {
        let Site {
            rt: _,
            shared: _,
            gate: _,
            keeps: _,
            refused: _,
        } = self;
    }
}

impl<'s, N: Name, R, G> Site<'s, N, R, G> {
    // A site at which each worker had a thread so far.
    pub(super) fn new(
        rt: &'s R,
        shared: &'s Shared<N>,
        gate: &'s G,
        keeps: bool,
    ) -> Site<'s, N, R, G>
        ensures { result.keeps ≡ keeps }
    {
        Site {
            rt,
            shared,
            gate,
            keeps,
            refused: AtomicU64::new(0),
        }
    }

    // Notes that this worker has no thread.
    pub(super) fn refuse(&self, number: u8) {
        self.refused.store(u64::from(number) + 1, Ordering::SeqCst);
    }

    // Whether this worker was the last one without a thread.
    pub(super) fn has_refused(&self, number: u8) -> bool {
        self.refused.load(Ordering::SeqCst) == u64::from(number) + 1
    }
}
