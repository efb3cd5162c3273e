//! Looks at queues and at the messages on them, which change nothing.
ghost use Rattle.std.specs.Prelude.{◌≡◌, ◌-◌, ◌++◌, ℕ, IfErr, IfOk, IsSome, Ok, drop, length, min, take};
ghost use Rattle.strm_mblk.specs.Block.{Message, bytes_of, size_of};
ghost use Rattle.strm_mblk.specs.Given.{answer_map};
ghost use Rattle.strm_mblk.specs.Shelves.{shelf_of, shelved_message};
ghost use Rattle.strm_queue.specs.QueueLooks as model;
ghost use Rattle.strm_queue.specs.QueuedBlocks.{Agrees, queued_blocks};

use super::Queues;
use super::places::head_at;
use crate::queue_spec::QueueSpec;
use crate::queued_info::QueuedInfo;
use strm_data::Refusal;
use strm_mblk::{BlockNo, Blocks};

// What the message with this head is like, which is on a queue.
fn info_of(blocks: &Blocks, head: BlockNo) -> QueuedInfo
    requires { IsSome (shelf_of blocks.now head) }
    ensures { model.info_of_message blocks.now.store (shelved_message blocks.now head) ≡ Ok result }
{
    QueuedInfo {
        head,
        kind: blocks.head_kind(head),
        band: blocks.head_band(head),
        size: blocks.head_size(head),
        blocks: blocks.head_blocks(head),
    }
}

impl Queues {
    // The head of the message at a place of a queue. Takes `place` steps.
    fn queued_head(&self, blocks: &Blocks, queue: u8, place: u32) -> Result<BlockNo, Refusal>
        requires { Agrees self.now blocks.now }
        ensures message { answer_map (shelved_message blocks.now) result
            ≡ model.queued_message queue place (queued_blocks self.now blocks.now) }
        ensures there { IfOk result (λ head. IsSome (shelf_of blocks.now head)) }
    {
        blocks.lawful();
        if !self.has_queue(queue) {
            return Err(Refusal::NoSuchQueue);
        }
        match head_at(blocks, queue, place) {
            Some(head) => Ok(head),
            None => Err(Refusal::NoSuchPlace),
        }
    }

    /// Returns the spec with which a queue was made, its next queue included; `strqset` does not change that. Changes
    /// nothing. Refused as `NoSuchQueue` if there is no such queue. Takes constant time.
    pub fn queue_spec(&self, blocks: &Blocks, queue: u8) -> Result<QueueSpec, Refusal>
        requires { Agrees self.now blocks.now }
        ensures { result ≡ model.queue_spec queue (queued_blocks self.now blocks.now) }
    {
        if !self.has_queue(queue) {
            return Err(Refusal::NoSuchQueue);
        }
        Ok(self.queues[usize::from(queue)].spec)
    }

    /// Returns the head of the first message on a queue, or none if the queue is empty. Changes nothing, no mark either.
    /// Refused as `NoSuchQueue` if there is no such queue. Takes constant time. In STREAMS, modules do this by hand (`q_first`).
    pub fn first_queued(&self, blocks: &Blocks, queue: u8) -> Result<Option<BlockNo>, Refusal>
        requires { Agrees self.now blocks.now }
        ensures { result ≡ model.first_queued queue (queued_blocks self.now blocks.now) }
    {
        if !self.has_queue(queue) {
            return Err(Refusal::NoSuchQueue);
        }
        Ok(blocks.first(queue))
    }

    /// Returns the head of the last message on a queue, or none if the queue is empty. Changes nothing, no mark either.
    /// Refused as `NoSuchQueue` if there is no such queue. Takes constant time. In STREAMS, modules do this by hand (`q_last`).
    pub fn last_queued(&self, blocks: &Blocks, queue: u8) -> Result<Option<BlockNo>, Refusal>
        requires { Agrees self.now blocks.now }
        ensures { result ≡ model.last_queued queue (queued_blocks self.now blocks.now) }
    {
        if !self.has_queue(queue) {
            return Err(Refusal::NoSuchQueue);
        }
        Ok(blocks.last(queue))
    }

    /// Returns the queue that has the message with this head. Changes nothing. Once the message was taken off, its head can be
    /// that of another message. Refused as `NoSuchPlace` if no message on a queue has this head. Takes constant time. This
    /// project's own call: in STREAMS a message does not say which queue it is on.
    pub fn queue_of(&self, blocks: &Blocks, head: BlockNo) -> Result<u8, Refusal>
        requires { Agrees self.now blocks.now }
        ensures { result ≡ model.queue_of head (queued_blocks self.now blocks.now) }
    {
        self.made_lawful();
        match blocks.shelf_of(head) {
            Some(shelf) => Ok(shelf as u8),
            None => Err(Refusal::NoSuchPlace),
        }
    }

    /// Returns the head of the message after the one with this head on its queue, or none if that is the last. Changes
    /// nothing. Once a message was taken off, its head can be that of another message, so go on from one that is there.
    /// Refused as `NoSuchPlace` if no message on a queue has this head. Takes constant time. In STREAMS, modules do this by hand
    /// (`b_next`).
    pub fn queued_after(&self, blocks: &Blocks, head: BlockNo) -> Result<Option<BlockNo>, Refusal>
        requires { Agrees self.now blocks.now }
        ensures { result ≡ model.queued_after head (queued_blocks self.now blocks.now) }
    {
        if !blocks.is_shelved(head) {
            return Err(Refusal::NoSuchPlace);
        }
        Ok(blocks.after(head))
    }

    /// Returns the head of the message before the one with this head on its queue, or none if that is the first. Changes
    /// nothing. Once a message was taken off, its head can be that of another message, so go on from one that is there.
    /// Refused as `NoSuchPlace` if no message on a queue has this head. Takes constant time. In STREAMS, modules do this by hand
    /// (`b_prev`).
    pub fn queued_before(&self, blocks: &Blocks, head: BlockNo) -> Result<Option<BlockNo>, Refusal>
        requires { Agrees self.now blocks.now }
        ensures { result ≡ model.queued_before head (queued_blocks self.now blocks.now) }
    {
        if !blocks.is_shelved(head) {
            return Err(Refusal::NoSuchPlace);
        }
        Ok(blocks.before(head))
    }

    /// Returns what the message at `place` of a queue is like, counted from 0. Changes nothing. Refused as `NoSuchQueue` if
    /// there is no such queue, then as `NoSuchPlace` if it has no such message. Takes `place` steps, and one for each block of
    /// the message. In STREAMS, modules do this by hand (`q_first`, `b_next`).
    pub fn queued_at(&self, blocks: &Blocks, queue: u8, place: u32) -> Result<QueuedInfo, Refusal>
        requires { Agrees self.now blocks.now }
        ensures { result ≡ model.queued_at queue place (queued_blocks self.now blocks.now) }
    {
        let head = self.queued_head(blocks, queue, place)?;
        Ok(info_of(blocks, head))
    }

    /// Copies the bytes of the message at `place` of a queue, counted from 0, from byte `at` on into `into`, as far as both
    /// reach, and returns their number. The rest of `into` stays unchanged, and nothing else changes.
    ///
    /// Refused as `NoSuchQueue`, then as `NoSuchPlace`; then `into` stays unchanged. Takes `place` steps, and a step and at
    /// most one slice copy for each block. In STREAMS, modules do this by hand (`q_first`, `b_next`, `b_rptr`).
    pub fn read_queued(
        &self,
        blocks: &Blocks,
        queue: u8,
        place: u32,
        at: u32,
        into: &mut [u8],
    ) -> Result<usize, Refusal>
        requires { Agrees self.now blocks.now }
        ensures count { result ≡ answer_map (λ m. min (length into.old) (size_of m - at))
            (model.queued_message queue place (queued_blocks self.now blocks.now)) }
        ensures bytes { (m : Message) (n : ℕ)
            → model.queued_message queue place (queued_blocks self.now blocks.now) ≡ Ok m
            → result ≡ Ok n → into.new ≡ take n (drop at (bytes_of blocks.now.store m)) ++ drop n into.old }
        ensures kept { IfErr result (λ why. into.new ≡ into.old) }
    {
        let head = self.queued_head(blocks, queue, place)?;
        Ok(blocks.read_shelved(head, at, into))
    }

    /// Lends the bytes of block `place` of the message with this head, which is on a queue, from its read place to its write
    /// place. Places count from 0. Changes nothing.
    ///
    /// Refused as `NoSuchPlace` if no message on a queue has this head, then as `NoSuchBlock` if the message has no such
    /// block. Takes at most `place` steps. In STREAMS, modules do this by hand (`b_rptr`, `b_wptr`).
    pub fn queued_bytes<'a>(
        &self,
        blocks: &'a Blocks,
        head: BlockNo,
        place: u32,
    ) -> Result<&'a [u8], Refusal>
        requires { Agrees self.now blocks.now }
        ensures { answer_map (λ lent. lent.now) result
            ≡ model.queued_bytes head place (queued_blocks self.now blocks.now) }
    {
        if !blocks.is_shelved(head) {
            return Err(Refusal::NoSuchPlace);
        }
        blocks.shelved_bytes(head, place)
    }
}
