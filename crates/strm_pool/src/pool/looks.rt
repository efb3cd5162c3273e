//! Looks at queues and at the messages on them: each makes the call of strm_queue with its name, and changes nothing.
ghost use Rattle.std.specs.Prelude.{◌≡◌, ◌-◌, ◌++◌, ℕ, IfErr, Ok, drop, length, min, take};
ghost use Rattle.strm_mblk.specs.Block.{Message, bytes_of, size_of};
ghost use Rattle.strm_mblk.specs.Given.{answer_map};
ghost use Rattle.strm_pool.specs.PoolValue.{queued_blocks_of};
ghost use Rattle.strm_queue.specs.QueueLooks as looks;

use super::Pool;
use strm_data::Refusal;
use strm_queue::{QueueSpec, QueuedInfo};

impl Pool {
    /// Returns the spec with which a queue was made, its next queue included. Refused as `NoSuchQueue`. As
    /// [`Queues::queue_spec`] of strm_queue.
    pub fn queue_spec(&self, queue: u8) -> Result<QueueSpec, Refusal>
        ensures { result ≡ looks.queue_spec queue (queued_blocks_of self.now) }
    {
        self.queues.queue_spec(&self.blocks, queue)
    }

    /// Returns the head of the first message on a queue, or none. Refused as `NoSuchQueue`. As [`Queues::first_queued`] of
    /// strm_queue.
    pub fn first_queued(&self, queue: u8) -> Result<Option<u32>, Refusal>
        ensures { result ≡ looks.first_queued queue (queued_blocks_of self.now) }
    {
        self.queues.first_queued(&self.blocks, queue)
    }

    /// Returns the head of the last message on a queue, or none. Refused as `NoSuchQueue`. As [`Queues::last_queued`] of
    /// strm_queue.
    pub fn last_queued(&self, queue: u8) -> Result<Option<u32>, Refusal>
        ensures { result ≡ looks.last_queued queue (queued_blocks_of self.now) }
    {
        self.queues.last_queued(&self.blocks, queue)
    }

    /// Returns the queue that has the message with this head. Refused as `NoSuchPlace`. As [`Queues::queue_of`] of strm_queue.
    pub fn queue_of(&self, head: u32) -> Result<u8, Refusal>
        ensures { result ≡ looks.queue_of head (queued_blocks_of self.now) }
    {
        self.queues.queue_of(&self.blocks, head)
    }

    /// Returns the head of the message after the one with this head on its queue, or none. Refused as `NoSuchPlace`. As
    /// [`Queues::queued_after`] of strm_queue.
    pub fn queued_after(&self, head: u32) -> Result<Option<u32>, Refusal>
        ensures { result ≡ looks.queued_after head (queued_blocks_of self.now) }
    {
        self.queues.queued_after(&self.blocks, head)
    }

    /// Returns the head of the message before the one with this head on its queue, or none. Refused as `NoSuchPlace`. As
    /// [`Queues::queued_before`] of strm_queue.
    pub fn queued_before(&self, head: u32) -> Result<Option<u32>, Refusal>
        ensures { result ≡ looks.queued_before head (queued_blocks_of self.now) }
    {
        self.queues.queued_before(&self.blocks, head)
    }

    /// Returns what the message at `place` of a queue is like, counted from 0. Refused as `NoSuchQueue`, then
    /// `NoSuchPlace`. As [`Queues::queued_at`] of strm_queue.
    pub fn queued_at(&self, queue: u8, place: u32) -> Result<QueuedInfo, Refusal>
        ensures { result ≡ looks.queued_at queue place (queued_blocks_of self.now) }
    {
        self.queues.queued_at(&self.blocks, queue, place)
    }

    /// Copies the bytes of the message at `place` of a queue, counted from 0, from byte `at` on into `into`, and returns
    /// their number. Refused as `NoSuchQueue`, then `NoSuchPlace`. As [`Queues::read_queued`] of strm_queue.
    pub fn read_queued(
        &self,
        queue: u8,
        place: u32,
        at: u32,
        into: &mut [u8],
    ) -> Result<usize, Refusal>
        ensures count { result ≡ answer_map (λ m. min (length into.old) (size_of m - at))
            (looks.queued_message queue place (queued_blocks_of self.now)) }
        ensures bytes { (m : Message) (n : ℕ) → looks.queued_message queue place (queued_blocks_of self.now) ≡ Ok m
            → result ≡ Ok n → into.new ≡ take n (drop at (bytes_of self.now.arena.store m)) ++ drop n into.old }
        ensures kept { IfErr result (λ why. into.new ≡ into.old) }
    {
        self.queues
            .read_queued(&self.blocks, queue, place, at, into)
    }

    /// Lends the bytes of block `place` of the queued message with this head. Refused as `NoSuchPlace`, then `NoSuchBlock`. As
    /// [`Queues::queued_bytes`] of strm_queue.
    pub fn queued_bytes(&self, head: u32, place: u32) -> Result<&[u8], Refusal>
        ensures { answer_map (λ lent. lent.now) result
            ≡ looks.queued_bytes head place (queued_blocks_of self.now) }
    {
        self.queues.queued_bytes(&self.blocks, head, place)
    }
}
