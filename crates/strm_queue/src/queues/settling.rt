//! Settling: each wanted band that has drained loses its wanted mark; if one does, the waker is enabled.
ghost use Rattle.std.specs.Prelude.{◌≡◌, ◌≢◌, ◌<◌, ℕ, length};
ghost use Rattle.strm_mblk.specs.Arena.{Arena};
ghost use Rattle.strm_queue.specs.QueueCalls.{with_queue_settled, waker_enabled};
ghost use Rattle.strm_queue.specs.QueuedBlocks.{Agrees, AreInOrder, AreMarksLawful, queued_blocks};

use super::Queues;

impl Queues {
    // Clears the wanted mark of each band that has drained, and if there was any, enables the waker. Takes a step for each
    // wanted band; the waker takes at most 120 more, over all lower queues.
    #[inline(always)]
    pub(super) fn settle(&mut self, queue: u8)
        requires queue { queue < length self.old.state.specs }
        ensures state { (arena : Arena) → AreInOrder self.old arena
            → queued_blocks self.new arena ≡ with_queue_settled queue (queued_blocks self.old arena) }
        ensures agrees { (arena : Arena) → AreInOrder self.old arena
            → ((other : ℕ) → other ≢ queue → AreMarksLawful self.old.state arena other) → Agrees self.new arena }
    {
        if self.relieve(queue) {
            self.enable_waker(queue);
        }
    }

    // Enables the waker, the nearest queue behind with a service procedure, if any.
    #[inline(never)]
    fn enable_waker(&mut self, queue: u8)
        requires { queue < length self.old.state.specs }
        ensures { self.new ≡ record self.old { state = waker_enabled queue self.old.state } }
    {
        if let Some(behind) = self.waker(queue) {
            self.enable(behind);
        }
    }
}
