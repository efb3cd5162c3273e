//! The stored number of a queue's messages and bytes, which is the true one while the queues are in order.
ghost use Rattle.std.specs.Prelude.{◌≡◌, ◌<◌, length};
ghost use Rattle.strm_mblk.specs.Arena.{Arena, shelf_at};
ghost use Rattle.strm_queue.specs.Flow.{band_count, bytes_on, fills, hiwat_of};
ghost use Rattle.strm_queue.specs.QueuedBlocks.{AreInOrder};

use super::Queues;

impl Queues {
    // The number of messages on a queue.
    pub(super) fn len(&self, queue: u8) -> u32
        requires { queue < length self.now.state.specs }
        ensures { (arena : Arena) → AreInOrder self.now arena → result ≡ length (shelf_at arena queue) }
    {
        self.tally(queue).len()
    }

    // The number of bytes of one band of a queue.
    pub(super) fn band_count(&self, queue: u8, band: u8) -> u32
        requires { queue < length self.now.state.specs }
        ensures { (arena : Arena) → AreInOrder self.now arena
            → result ≡ band_count arena.store band (shelf_at arena queue) }
    {
        self.tally(queue).count(band)
    }

    // Whether one band of a queue is full.
    pub(super) fn is_full(&self, queue: u8, band: u8) -> bool
        requires { queue < length self.now.state.specs }
        ensures { (arena : Arena) → AreInOrder self.now arena
            → result ≡ fills (hiwat_of self.now.state queue band) (band_count arena.store band (shelf_at arena queue)) }
    {
        self.tally(queue).is_full(band)
    }

    // The number of bytes on a queue.
    pub(super) fn bytes(&self, queue: u8) -> u32
        requires { queue < length self.now.state.specs }
        ensures { (arena : Arena) → AreInOrder self.now arena → result ≡ bytes_on (shelf_at arena queue) }
    {
        self.tally(queue).bytes()
    }
}
