//! `putq`, `putbq`, `insq` and `insq_before`: held messages join a queue.
ghost use Rattle.std.specs.Prelude.{◌≡◌, ◌<◌, ◌≤◌, ℕ, IsTrue, None, Ok, Some, length, slice_get};
ghost use Rattle.std.specs.Option.{ForSome};
ghost use Rattle.strm_mblk.specs.Arena.{has, shelf_at, with_shelf, without_held};
ghost use Rattle.strm_mblk.specs.Given.{given_nothing};
ghost use Rattle.strm_mblk.specs.Shelves.{heads_at, is_on};
ghost use Rattle.strm_mblk.specs.Calls.{Puts, itself};
ghost use Rattle.strm_queue.specs.HeadCalls as by_head;
ghost use Rattle.strm_queue.specs.Joining.{IsAfterEqual, IsRank, shelf_with};
ghost use Rattle.strm_queue.specs.QueueCalls as model;
ghost use Rattle.strm_queue.specs.QueueCalls.{IsBurstPlace, IsPlaceOn};
ghost use Rattle.strm_queue.specs.QueuedBlocks.{Agrees, AreInOrder, QueuedBlocks, queued_blocks, arena};
ghost use Rattle.strm_queue.specs.Rank.{is_ordered, rank_of};

use super::Queues;
use super::places::{fits_before, head_at, held_rank, is_at};
use crate::limits::{HIGH_RANK, RANKS};
use strm_data::Refusal;
use strm_mblk::{BlockNo, Blocks, Rejected, Token};

/// Where the next message of a burst joins a queue if it has the band of the last one, so that it need not be looked up
/// again.
///
/// It is for one queue, and holds while no other call changes that queue, its messages or the run list.
#[derive(Clone, Copy, Debug)]
pub struct BurstPlace {
    // The rank of the last message, or `RANKS` before the first one.
    rank: u16,
    // The head of the message after the last one, if any.
    before: Option<BlockNo>,
}

impl BurstPlace {
    /// The place before the first message of a burst: that one looks its place up.
    pub fn new() -> BurstPlace
        ensures { (queue : ℕ) (v : QueuedBlocks) → IsBurstPlace result queue v }
    {
        BurstPlace {
            rank: RANKS as u16,
            before: None,
        }
    }
}

impl Queues {
    // Does what `shelve` does. Most messages go last. Each call is inlined, and the first one is then shorter.
    #[inline(always)]
    fn lay(
        &mut self,
        blocks: &mut Blocks,
        queue: u8,
        before: Option<BlockNo>,
        rank: u16,
        follows: bool,
        token: Token,
    )
        requires queue { queue < length self.old.state.specs }
        requires in_order { AreInOrder self.old blocks.old }
        requires had { IsTrue (has blocks.old token) }
        requires rank { IsRank blocks.old token rank }
        requires follows { IsTrue follows → IsAfterEqual blocks.old queue before token rank }
        requires before { ForSome before (λ head. IsTrue (is_on blocks.old queue head)) }
        requires ordered { IsTrue (is_ordered (rank_of blocks.old.store)
            (shelf_with blocks.old queue before token.head)) }
        ensures puts { Puts itself token (given_nothing
            (with_shelf queue (shelf_with blocks.old queue before token.head) (without_held token.head blocks.old)))
            blocks.old blocks.new (Ok tt) }
        ensures state { self.new.state ≡ self.old.state }
        ensures in_order { AreInOrder self.new blocks.new }
    {
        match before {
            None => self.shelve(blocks, queue, None, rank, follows, token),
            Some(_) => self.shelve(blocks, queue, before, rank, follows, token),
        }
    }

    // Puts a message of this rank on a queue that exists, as `putq` does.
    #[inline(always)]
    fn put_ranked(&mut self, blocks: &mut Blocks, queue: u8, rank: u16, token: Token)
        requires queue { queue < length self.old.state.specs }
        requires agrees { Agrees self.old blocks.old }
        requires had { IsTrue (has blocks.old token) }
        requires rank { IsRank blocks.old token rank }
        ensures does { Puts arena token (model.putq queue token.head (queued_blocks self.old blocks.old))
            (queued_blocks self.old blocks.old) (queued_blocks self.new blocks.new) (Ok tt) }
        ensures agrees { Agrees self.new blocks.new }
    {
        // Whether the message enables the queue is asked last: then most messages need no more than the want-to-read mark.
        let before = self.place_behind(blocks, queue, rank).get();
        self.lay(blocks, queue, before, rank, false, token);
        let enables = self.enables_put(queue, rank);
        self.enable_where(enables, queue);
    }

    // Does what `put_ranked` does. It is not inlined, so that `putq` is shorter where no message has high priority.
    #[inline(never)]
    fn put_high(&mut self, blocks: &mut Blocks, queue: u8, rank: u16, token: Token)
        requires queue { queue < length self.old.state.specs }
        requires agrees { Agrees self.old blocks.old }
        requires had { IsTrue (has blocks.old token) }
        requires rank { IsRank blocks.old token rank }
        ensures does { Puts arena token (model.putq queue token.head (queued_blocks self.old blocks.old))
            (queued_blocks self.old blocks.old) (queued_blocks self.new blocks.new) (Ok tt) }
        ensures agrees { Agrees self.new blocks.new }
    {
        self.put_ranked(blocks, queue, rank, token);
    }

    /// Puts a message on a queue, after the last message whose rank is at least its own. A high priority message
    /// ranks above all bands, and its first block gets band 0.
    ///
    /// It enables the queue, as [`Queues::qenable`] does, if the message is high priority. Otherwise it does so if enabling
    /// is on, and either the want-to-read mark is set or the message's band is above 0.
    ///
    /// Rejected as `NoSuchQueue`; then nothing changes, and the token comes back. Takes a step for each block of the
    /// message.
    #[inline(always)]
    #[tactic(auto, using(strm_mblk::proofs::arena::Calls::puts_none))]
    pub fn putq(&mut self, blocks: &mut Blocks, queue: u8, token: Token) -> Result<(), Rejected>
        requires agrees { Agrees self.old blocks.old }
        requires had { IsTrue (has blocks.old token) }
        ensures does { Puts arena token (model.putq queue token.head (queued_blocks self.old blocks.old))
            (queued_blocks self.old blocks.old) (queued_blocks self.new blocks.new) result }
        ensures agrees { Agrees self.new blocks.new }
    {
        if !self.has_queue(queue) {
            let why = Refusal::NoSuchQueue;
            return Err(Rejected { why, token });
        }
        let rank = held_rank(blocks, &token);
        if rank == HIGH_RANK {
            self.put_high(blocks, queue, rank, token);
        } else {
            self.put_ranked(blocks, queue, rank, token);
        }
        Ok(())
    }

    // Puts the next message of a burst on a queue, as `putq` does. It has the rank of the last one, and follows it.
    #[inline(always)]
    fn join_burst(
        &mut self,
        blocks: &mut Blocks,
        queue: u8,
        place: BurstPlace,
        rank: u16,
        token: Token,
    )
        requires agrees { Agrees self.old blocks.old }
        requires had { IsTrue (has blocks.old token) }
        requires rank { IsRank blocks.old token rank }
        requires same { rank ≡ place.rank }
        requires place { IsPlaceOn place queue (queued_blocks self.old blocks.old) }
        ensures does { Puts arena token (model.putq queue token.head (queued_blocks self.old blocks.old))
            (queued_blocks self.old blocks.old) (queued_blocks self.new blocks.new) (Ok tt) }
        ensures agrees { Agrees self.new blocks.new }
        ensures place { IsPlaceOn place queue (queued_blocks self.new blocks.new) }
    {
        blocks.lawful();
        self.lay(blocks, queue, place.before, rank, true, token);
        blocks.lawful();
    }

    // Puts a message of a burst on a queue, as `putq` does. It has high priority, or another rank than the last one.
    #[inline(never)]
    #[tactic(auto, using(strm_mblk::proofs::arena::Calls::puts_none))]
    fn begin_burst(
        &mut self,
        blocks: &mut Blocks,
        queue: u8,
        place: &mut BurstPlace,
        rank: u16,
        token: Token,
    ) -> Result<(), Rejected>
        requires agrees { Agrees self.old blocks.old }
        requires had { IsTrue (has blocks.old token) }
        requires rank { IsRank blocks.old token rank }
        requires place { IsBurstPlace place.old queue (queued_blocks self.old blocks.old) }
        ensures does { Puts arena token (model.putq queue token.head (queued_blocks self.old blocks.old))
            (queued_blocks self.old blocks.old) (queued_blocks self.new blocks.new) result }
        ensures agrees { Agrees self.new blocks.new }
        ensures place { IsBurstPlace place.new queue (queued_blocks self.new blocks.new) }
    {
        if !self.has_queue(queue) {
            let why = Refusal::NoSuchQueue;
            return Err(Rejected { why, token });
        }
        blocks.lawful();
        let head = token.head();
        self.put_ranked(blocks, queue, rank, token);
        blocks.lawful();
        let before = blocks.after(head);
        *place = BurstPlace { rank, before };
        Ok(())
    }

    /// Puts the next message of a burst on a queue, as [`Queues::putq`] does, and moves `place` after it. A message that has
    /// the rank of the burst's last one, and not high priority, is put at `place`. It need not enable the queue: if messages
    /// of this band do, the last one did.
    ///
    /// Rejected as `NoSuchQueue`; then nothing changes, and the token comes back. Takes a step for each block of the
    /// message. This project's own call.
    #[inline(always)]
    pub fn putq_in_burst(
        &mut self,
        blocks: &mut Blocks,
        queue: u8,
        place: &mut BurstPlace,
        token: Token,
    ) -> Result<(), Rejected>
        requires agrees { Agrees self.old blocks.old }
        requires had { IsTrue (has blocks.old token) }
        requires place { IsBurstPlace place.old queue (queued_blocks self.old blocks.old) }
        ensures does { Puts arena token (model.putq queue token.head (queued_blocks self.old blocks.old))
            (queued_blocks self.old blocks.old) (queued_blocks self.new blocks.new) result }
        ensures agrees { Agrees self.new blocks.new }
        ensures place { IsBurstPlace place.new queue (queued_blocks self.new blocks.new) }
    {
        let rank = held_rank(blocks, &token);
        if rank == HIGH_RANK || rank != place.rank {
            return self.begin_burst(blocks, queue, place, rank, token);
        }
        self.join_burst(blocks, queue, *place, rank, token);
        Ok(())
    }

    /// Puts a message on a queue, before the first message whose rank is at most its own. A high priority message
    /// ranks above all bands, and its first block gets band 0.
    ///
    /// It enables the queue, as [`Queues::qenable`] does, if the message is high priority, or if enabling is on and the
    /// want-to-read mark is set. The message's band makes no difference.
    ///
    /// Rejected as `NoSuchQueue`; then nothing changes, and the token comes back. Takes a step for each block of the
    /// message.
    #[tactic(auto, using(strm_mblk::proofs::arena::Calls::puts_none))]
    pub fn putbq(&mut self, blocks: &mut Blocks, queue: u8, token: Token) -> Result<(), Rejected>
        requires agrees { Agrees self.old blocks.old }
        requires had { IsTrue (has blocks.old token) }
        ensures does { Puts arena token (model.putbq queue token.head (queued_blocks self.old blocks.old))
            (queued_blocks self.old blocks.old) (queued_blocks self.new blocks.new) result }
        ensures agrees { Agrees self.new blocks.new }
    {
        if !self.has_queue(queue) {
            let why = Refusal::NoSuchQueue;
            return Err(Rejected { why, token });
        }
        let rank = held_rank(blocks, &token);
        let before = self.place_ahead(blocks, queue, rank);
        self.lay(blocks, queue, before, rank, false, token);
        let enables = self.enables_put_back(queue, rank);
        self.enable_where(enables, queue);
        Ok(())
    }

    /// Puts a message on a queue before the one at `place`, counted from 0, or last if `place` is the number of messages.
    /// The first block of a high priority message gets band 0.
    ///
    /// It enables the queue, as [`Queues::qenable`] does, if enabling is on and the want-to-read mark is set, whatever the
    /// rank.
    ///
    /// Rejected as `NoSuchQueue`, then as `NoSuchPlace` if the queue has fewer messages, then as `BadOrder` if ranks would
    /// rise from front to back; then nothing changes, and the token comes back. Takes `place` steps, and one for each block
    /// of the message.
    #[tactic(auto, using(strm_mblk::proofs::arena::Calls::puts_none))]
    pub fn insq(
        &mut self,
        blocks: &mut Blocks,
        queue: u8,
        place: u32,
        token: Token,
    ) -> Result<(), Rejected>
        requires agrees { Agrees self.old blocks.old }
        requires had { IsTrue (has blocks.old token) }
        ensures does { Puts arena token (model.insq queue place token.head (queued_blocks self.old blocks.old))
            (queued_blocks self.old blocks.old) (queued_blocks self.new blocks.new) result }
        ensures agrees { Agrees self.new blocks.new }
    {
        blocks.lawful();
        if !self.has_queue(queue) {
            let why = Refusal::NoSuchQueue;
            return Err(Rejected { why, token });
        }
        if place > self.len(queue) {
            let why = Refusal::NoSuchPlace;
            return Err(Rejected { why, token });
        }
        let before = head_at(blocks, queue, place);
        self.insert(blocks, queue, before, token)
    }

    /// Puts a message on a queue before the one with this head, or last if none is given. Otherwise it does what
    /// [`Queues::insq`] does at that message's place.
    ///
    /// Rejected as `NoSuchQueue`, then as `NoSuchPlace` if no message on this queue has the head, then as `BadOrder` if ranks
    /// would rise from front to back; then nothing changes, and the token comes back. Takes a step for each block of the
    /// message. STREAMS' `insq`, whose `emp` is the head or null.
    #[tactic(auto, using(strm_mblk::proofs::arena::Calls::puts_none))]
    pub fn insq_before(
        &mut self,
        blocks: &mut Blocks,
        queue: u8,
        before: Option<BlockNo>,
        token: Token,
    ) -> Result<(), Rejected>
        requires agrees { Agrees self.old blocks.old }
        requires had { IsTrue (has blocks.old token) }
        ensures does { Puts arena token
            (by_head.insq_before queue before token.head (queued_blocks self.old blocks.old))
            (queued_blocks self.old blocks.old) (queued_blocks self.new blocks.new) result }
        ensures agrees { Agrees self.new blocks.new }
    {
        blocks.lawful();
        if !self.has_queue(queue) {
            let why = Refusal::NoSuchQueue;
            return Err(Rejected { why, token });
        }
        if !is_at(blocks, queue, before) {
            let why = Refusal::NoSuchPlace;
            return Err(Rejected { why, token });
        }
        self.insert(blocks, queue, before, token)
    }

    // Puts a message on a queue, before the one with this head or last, or rejects it as `BadOrder`. It may enable the queue.
    #[inline(always)]
    #[tactic(auto, using(strm_mblk::proofs::arena::Calls::puts_none))]
    fn insert(
        &mut self,
        blocks: &mut Blocks,
        queue: u8,
        before: Option<BlockNo>,
        token: Token,
    ) -> Result<(), Rejected>
        requires queue { queue < length self.old.state.specs }
        requires agrees { Agrees self.old blocks.old }
        requires had { IsTrue (has blocks.old token) }
        requires before { ForSome before (λ head. IsTrue (is_on blocks.old queue head)) }
        ensures does { (place : ℕ) → place ≤ length (shelf_at blocks.old queue)
            → before ≡ slice_get (heads_at blocks.old queue) place
            → Puts arena token (model.insq queue place token.head (queued_blocks self.old blocks.old))
            (queued_blocks self.old blocks.old) (queued_blocks self.new blocks.new) result }
        ensures agrees { Agrees self.new blocks.new }
    {
        blocks.lawful();
        let rank = held_rank(blocks, &token);
        if !fits_before(blocks, queue, before, rank) {
            let why = Refusal::BadOrder;
            return Err(Rejected { why, token });
        }
        self.lay(blocks, queue, before, rank, false, token);
        let enables = self.enables_inserted(queue);
        self.enable_where(enables, queue);
        Ok(())
    }
}
