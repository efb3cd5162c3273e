//! `getq`, `rmvq` and `rmvq_head`: messages leave a queue and are held again.
ghost use Rattle.std.specs.Prelude.{◌≡◌, ◌<◌, ℕ, IsTrue, None, Ok, Some, length, slice_get};
ghost use Rattle.strm_mblk.specs.Calls.{Takes, TakesAny};
ghost use Rattle.strm_mblk.specs.Shelves.{heads_at, is_on};
ghost use Rattle.strm_queue.specs.HeadCalls as by_head;
ghost use Rattle.strm_queue.specs.QueueCalls as model;
ghost use Rattle.strm_queue.specs.QueuedBlocks.{Agrees, queued_blocks, arena};
ghost use Rattle.strm_queue.specs.Taking.{IsRunOver, TakesEach};

use super::Queues;
use super::places::{head_at, queued_rank};
use crate::Receiver;
use crate::tally::Leaving;
use strm_data::Refusal;
use strm_mblk::{BlockNo, Blocks, Token};

impl Queues {
    /// Removes the first message of a queue and returns its token, or returns none if the queue is empty.
    ///
    /// If it removes a message, it clears the want-to-read mark and settles the queue: each wanted band with at most as
    /// many bytes as its low water mark loses its wanted mark. If one does, the nearest queue behind with a service
    /// procedure is enabled. If the queue is empty, this sets the want-to-read mark.
    ///
    /// Refused as `NoSuchQueue`; then nothing changes. Takes a step for each block of the message. To settle takes a step
    /// for each wanted band. If a band loses its mark, the search for the queue to enable takes at most 120 more: for each
    /// queue behind, it looks at all queues of lower number.
    #[inline(always)]
    #[tactic(auto, using(strm_mblk::proofs::arena::Calls::takes_any_none))]
    pub fn getq(&mut self, blocks: &mut Blocks, queue: u8) -> Result<Option<Token>, Refusal>
        requires { Agrees self.old blocks.old }
        ensures does { TakesAny arena (model.getq queue (queued_blocks self.old blocks.old))
            (queued_blocks self.old blocks.old)
            (queued_blocks self.new blocks.new) result }
        ensures agrees { Agrees self.new blocks.new }
    {
        blocks.lawful();
        if !self.has_queue(queue) {
            return Err(Refusal::NoSuchQueue);
        }
        let Some(head) = blocks.first(queue) else {
            self.set_read(queue, true);
            return Ok(None);
        };
        let token = self.unshelve_first(blocks, queue, head);
        self.settle(queue);
        self.set_read(queue, false);
        Ok(Some(token))
    }

    /// Removes the first messages of a queue, at most `most`, each as [`Queues::getq`] does. Their tokens go to `into`, and their
    /// number is returned. What is stored of the queue is written once.
    ///
    /// It removes fewer than `most` only if there is no such queue or no message left. Or the want-to-read mark is set, which
    /// `getq` clears, or a band is wanted, or the first message is the last of its rank. So a caller takes turns: `getq`, then
    /// this. Takes a step for each block of the messages. This project's own call.
    #[inline(always)]
    #[tactic(auto, using(crate::proofs::moving::Fronts::takes_none))]
    pub fn getq_run<R: Receiver>(
        &mut self,
        blocks: &mut Blocks,
        queue: u8,
        most: u32,
        into: &mut R,
    ) -> u32
        requires { Agrees self.old blocks.old }
        ensures takes { TakesEach arena R.receives (model.getq queue) most (queued_blocks self.old blocks.old)
            (queued_blocks self.new blocks.new) into.old into.new result }
        ensures over { result < most → IsRunOver queue (queued_blocks self.new blocks.new) }
        ensures agrees { Agrees self.new blocks.new }
    {
        blocks.lawful();
        self.lawful(blocks);
        if !self.has_queue(queue) {
            return 0;
        }
        if self.is_read(queue) || self.is_any_wanted(queue) {
            return 0;
        }
        let Some(first) = blocks.first(queue) else {
            return 0;
        };
        let rank = queued_rank(blocks, first);
        let last = self.tally(queue).last(rank).number();
        if first == last {
            return 0;
        }
        let mut leaving = Leaving {
            rank,
            len: 0,
            bytes: 0,
            first,
        };
        while leaving.len < most && leaving.first != last {
            blocks.lawful();
            let head = leaving.first;
            leaving.len += 1;
            leaving.bytes += blocks.head_size(head);
            leaving.first = blocks.after(head).unwrap();
            let token = blocks.unshelve(queue, head);
            into.receive(token);
        }
        blocks.lawful();
        self.leave_front(queue, leaving);
        leaving.len
    }

    /// Removes the message at `place`, counted from 0, and returns its token. It settles the queue, as [`Queues::getq`]
    /// does; the want-to-read mark stays.
    ///
    /// Refused as `NoSuchQueue`, then as `NoSuchPlace` if there is no such message; then nothing changes. Takes `place`
    /// steps, one for each block of the message, and those to settle.
    #[tactic(auto, using(strm_mblk::proofs::arena::Calls::takes_none))]
    pub fn rmvq(&mut self, blocks: &mut Blocks, queue: u8, place: u32) -> Result<Token, Refusal>
        requires { Agrees self.old blocks.old }
        ensures does { Takes arena (model.rmvq queue place (queued_blocks self.old blocks.old))
            (queued_blocks self.old blocks.old) (queued_blocks self.new blocks.new) result }
        ensures agrees { Agrees self.new blocks.new }
    {
        if !self.has_queue(queue) {
            return Err(Refusal::NoSuchQueue);
        }
        if place >= self.len(queue) {
            return Err(Refusal::NoSuchPlace);
        }
        let Some(head) = head_at(blocks, queue, place) else {
            return Err(Refusal::NoSuchPlace);
        };
        Ok(self.remove(blocks, queue, head))
    }

    /// Removes the message with this head from the queue that has it, and returns its token. Otherwise it does what
    /// [`Queues::rmvq`] does at the message's place.
    ///
    /// Refused as `NoSuchPlace` if no message on a queue has this head; then nothing changes. Takes a step for each block of
    /// the message, and those to settle. STREAMS' `rmvq`, whose `mp` is the head; the queue `q` is found.
    #[tactic(auto, using(strm_mblk::proofs::arena::Calls::takes_none))]
    pub fn rmvq_head(&mut self, blocks: &mut Blocks, head: BlockNo) -> Result<Token, Refusal>
        requires { Agrees self.old blocks.old }
        ensures does { Takes arena (by_head.rmvq_head head (queued_blocks self.old blocks.old))
            (queued_blocks self.old blocks.old) (queued_blocks self.new blocks.new) result }
        ensures agrees { Agrees self.new blocks.new }
    {
        match self.queue_of(blocks, head) {
            Ok(queue) => Ok(self.remove(blocks, queue, head)),
            Err(why) => Err(why),
        }
    }

    // Takes the message with this head off its queue, whatever its place there, and settles the queue.
    #[inline(always)]
    fn remove(&mut self, blocks: &mut Blocks, queue: u8, head: BlockNo) -> Token
        requires agrees { Agrees self.old blocks.old }
        requires queue { queue < length self.old.state.specs }
        requires there { IsTrue (is_on blocks.old queue head) }
        ensures does { (place : ℕ) → slice_get (heads_at blocks.old queue) place ≡ Some head
            → Takes arena (model.rmvq queue place (queued_blocks self.old blocks.old))
            (queued_blocks self.old blocks.old) (queued_blocks self.new blocks.new) (Ok result) }
        ensures agrees { Agrees self.new blocks.new }
    {
        blocks.lawful();
        let token = self.unshelve(blocks, queue, head);
        self.settle(queue);
        token
    }
}
