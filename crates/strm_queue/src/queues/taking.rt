//! `take_flushed` and `take_flushed_band`: messages that a flush would free leave their queue and are held again.
ghost use Rattle.std.specs.Prelude.{◌≡◌, ◌<◌, ◌∷◌, ◌++◌, IsTrue, List, Ok, false, length, map};
ghost use Rattle.strm_mblk.specs.declared.token.TokenValue.{TokenValue};
ghost use Rattle.strm_mblk.specs.Arena.{shelf_at, with_shelf};
ghost use Rattle.strm_mblk.specs.Block.{Message, head_of};
ghost use Rattle.strm_mblk.specs.Calls.{Takes, itself};
ghost use Rattle.strm_mblk.specs.Shelves.{is_on, unshelve};
ghost use Rattle.strm_queue.specs.Flush.{is_flushed, is_picked};
ghost use Rattle.strm_queue.specs.QueuedBlocks.{Agrees, AreInOrder, queued_blocks, arena};
ghost use Rattle.strm_queue.specs.Taking as model;
ghost use Rattle.strm_queue.specs.Taking.{Hands, first_picked, left_after, with_all_held};

use super::Queues;
use super::flushing::takes;
use crate::{Flush, Receiver};
use strm_data::Refusal;
use strm_mblk::{BlockNo, Blocks};

impl Queues {
    /// Takes messages off a queue, front to back, at most `most`: those that [`Queues::flushq`] would free. Their tokens go
    /// to `into`, and their number is returned. The others keep their places. Then the queue is settled once, as by
    /// [`Queues::getq`]. Nothing else enables a queue.
    ///
    /// Refused as `NoSuchQueue`; then nothing changes. Takes a step for each message up to the last one taken if that makes
    /// `most`, otherwise for each message, one for each block that is taken, and those to settle. This project's own call: a
    /// `flushq` whose messages the caller frees.
    pub fn take_flushed<R: Receiver>(
        &mut self,
        blocks: &mut Blocks,
        queue: u8,
        flush: Flush,
        most: u32,
        into: &mut R,
    ) -> Result<u32, Refusal>
        requires { Agrees self.old blocks.old }
        ensures does { Hands arena R.receives (model.take_flushed queue flush most (queued_blocks self.old blocks.old))
            (queued_blocks self.old blocks.old) (queued_blocks self.new blocks.new) into.old into.new result }
        ensures agrees { Agrees self.new blocks.new }
    {
        self.take_band(blocks, queue, None, flush, most, into)
    }

    /// Takes messages of one band off a queue, front to back, at most `most`: those that [`Queues::flushband`] would free.
    /// Otherwise it does what [`Queues::take_flushed`] does.
    ///
    /// Refused as `NoSuchQueue`; then nothing changes. Takes a step for each message of the band, one for each block that is
    /// taken, and those to settle. It looks at no more than one message behind the last one taken if it takes `most`
    /// messages.
    pub fn take_flushed_band<R: Receiver>(
        &mut self,
        blocks: &mut Blocks,
        queue: u8,
        band: u8,
        flush: Flush,
        most: u32,
        into: &mut R,
    ) -> Result<u32, Refusal>
        requires { Agrees self.old blocks.old }
        ensures does { Hands arena R.receives (model.take_flushed_band queue band flush most
            (queued_blocks self.old blocks.old)) (queued_blocks self.old blocks.old)
            (queued_blocks self.new blocks.new) into.old into.new result }
        ensures agrees { Agrees self.new blocks.new }
    {
        self.take_band(blocks, queue, Some(band), flush, most, into)
    }

    // Takes the messages that a flush picks, of a queue or of one band of it, at most `most`, and settles the queue.
    fn take_band<R: Receiver>(
        &mut self,
        blocks: &mut Blocks,
        queue: u8,
        band: Option<u8>,
        flush: Flush,
        most: u32,
        into: &mut R,
    ) -> Result<u32, Refusal>
        requires { Agrees self.old blocks.old }
        ensures does { Hands arena R.receives (model.take_messages queue band flush most
            (queued_blocks self.old blocks.old)) (queued_blocks self.old blocks.old)
            (queued_blocks self.new blocks.new) into.old into.new result }
        ensures agrees { Agrees self.new blocks.new }
    {
        if !self.has_queue(queue) {
            return Err(Refusal::NoSuchQueue);
        }
        let taken = self.take_shelf(blocks, queue, band, flush, most, into);
        self.settle(queue);
        Ok(taken)
    }

    // Takes the messages that a flush picks, of a queue or of one band of it, front to back, at most `most`.
    fn take_shelf<R: Receiver>(
        &mut self,
        blocks: &mut Blocks,
        queue: u8,
        band: Option<u8>,
        flush: Flush,
        most: u32,
        into: &mut R,
    ) -> u32
        requires queue { queue < length self.old.state.specs }
        requires in_order { AreInOrder self.old blocks.old }
        ensures hands { let picked = is_picked blocks.old.store band flush in let ms = shelf_at blocks.old queue in
            Hands itself R.receives (Ok (
              map head_of (first_picked most picked ms),
              with_all_held (first_picked most picked ms) (with_shelf queue (left_after most picked ms) blocks.old),
            ))
            blocks.old blocks.new into.old into.new (Ok result) }
        ensures state { self.new.state ≡ self.old.state }
        ensures in_order { AreInOrder self.new blocks.new }
    {
        let mut taken = 0;
        let mut at = self.onward(blocks, queue, band, blocks.first(queue));
        for _message in 0..self.len(queue) {
            let Some(head) = at else {
                return taken;
            };
            if taken == most {
                return taken;
            }
            blocks.reads_alike();
            at = self.onward(blocks, queue, band, blocks.after(head));
            if self.take_one(blocks, queue, head, flush, into) {
                taken += 1;
            }
        }
        taken
    }

    // Takes the message with this head, if a flush takes it. Says whether it does.
    fn take_one<R: Receiver>(
        &mut self,
        blocks: &mut Blocks,
        queue: u8,
        head: BlockNo,
        flush: Flush,
        into: &mut R,
    ) -> bool
        requires queue { queue < length self.old.state.specs }
        requires in_order { AreInOrder self.old blocks.old }
        requires there { IsTrue (is_on blocks.old queue head) }
        ensures asked { (pre post : List Message) (m : Message) → shelf_at blocks.old queue ≡ pre ++ m ∷ post
            → head_of m ≡ head
            → result ≡ is_flushed blocks.old.store flush m }
        ensures taken { IsTrue result → (token : TokenValue)
            × Takes itself (Ok (head, unshelve queue head blocks.old)) blocks.old blocks.new (Ok token)
            × R.receives into.old token into.new }
        ensures kept { result ≡ false → (blocks.new ≡ blocks.old) × (into.new ≡ into.old) }
        ensures state { self.new.state ≡ self.old.state }
        ensures in_order { AreInOrder self.new blocks.new }
    {
        if !takes(blocks, head, flush) {
            return false;
        }
        let token = self.unshelve_apart(blocks, queue, head);
        into.receive(token);
        true
    }
}
