//! Calls on queues: each makes the call of strm_queue with its name, on the pool's own message blocks.
ghost use Rattle.std.specs.Prelude.{Ok, ◌≡◌, ◌<◌, IsTrue};
ghost use Rattle.strm_mblk.specs.Arena.{has};
ghost use Rattle.strm_mblk.specs.Calls.{Flushes, LeavesBlocks, Puts, Takes, TakesAny};
ghost use Rattle.strm_mblk.specs.Given.{answer_of};
ghost use Rattle.strm_pool.specs.PoolValue.{arena, on_queues, queued_blocks_of};
ghost use Rattle.strm_queue.specs.HeadCalls as by_head;
ghost use Rattle.strm_queue.specs.QueueCalls as queues;
ghost use Rattle.strm_queue.specs.QueueCalls.{IsBurstPlace};
ghost use Rattle.strm_queue.specs.Taking as taking;
ghost use Rattle.strm_queue.specs.Taking.{Hands, IsRunOver, TakesEach};

use super::Pool;
use strm_data::Refusal;
use strm_mblk::{Rejected, Token};
use strm_queue::{BandInfo, BurstPlace, Flush, Marks, QueueInfo, Receiver};

impl Pool {
    /// Puts a message on a queue, after the last message whose rank is at least its own. Rejected as `NoSuchQueue`. As
    /// [`Queues::putq`] of strm_queue.
    #[inline(always)]
    pub fn putq(&mut self, queue: u8, token: Token) -> Result<(), Rejected>
        requires { IsTrue (has self.old.arena token) }
        ensures { Puts arena token (on_queues self.old (queues.putq queue token.head (queued_blocks_of self.old)))
            self.old self.new result }
    {
        self.queues.putq(&mut self.blocks, queue, token)
    }

    /// Puts the next message of a burst on a queue as `putq` does, by the place of the last one. Rejected as `NoSuchQueue`. As
    /// [`Queues::putq_in_burst`] of strm_queue.
    #[inline(always)]
    pub fn putq_in_burst(
        &mut self,
        queue: u8,
        place: &mut BurstPlace,
        token: Token,
    ) -> Result<(), Rejected>
        requires had { IsTrue (has self.old.arena token) }
        requires place { IsBurstPlace place.old queue (queued_blocks_of self.old) }
        ensures does { Puts arena token (on_queues self.old (queues.putq queue token.head (queued_blocks_of self.old)))
            self.old self.new result }
        ensures place { IsBurstPlace place.new queue (queued_blocks_of self.new) }
    {
        self.queues
            .putq_in_burst(&mut self.blocks, queue, place, token)
    }

    /// Puts a message on a queue, before the first message whose rank is at most its own. Rejected as `NoSuchQueue`. As
    /// [`Queues::putbq`] of strm_queue.
    pub fn putbq(&mut self, queue: u8, token: Token) -> Result<(), Rejected>
        requires { IsTrue (has self.old.arena token) }
        ensures { Puts arena token (on_queues self.old (queues.putbq queue token.head (queued_blocks_of self.old)))
            self.old self.new result }
    {
        self.queues.putbq(&mut self.blocks, queue, token)
    }

    /// Puts a message on a queue at `place`, counted from 0. Rejected as `NoSuchQueue`, `NoSuchPlace`, then `BadOrder`. As
    /// [`Queues::insq`] of strm_queue.
    pub fn insq(&mut self, queue: u8, place: u32, token: Token) -> Result<(), Rejected>
        requires { IsTrue (has self.old.arena token) }
        ensures { Puts arena token (on_queues self.old (queues.insq queue place token.head (queued_blocks_of self.old)))
            self.old self.new result }
    {
        self.queues.insq(&mut self.blocks, queue, place, token)
    }

    /// Puts a message on a queue before the one with this head, or last if none is given. Rejected as `NoSuchQueue`,
    /// `NoSuchPlace`, then `BadOrder`. As [`Queues::insq_before`] of strm_queue.
    pub fn insq_before(
        &mut self,
        queue: u8,
        before: Option<u32>,
        token: Token,
    ) -> Result<(), Rejected>
        requires { IsTrue (has self.old.arena token) }
        ensures { Puts arena token (on_queues self.old (by_head.insq_before queue before token.head
            (queued_blocks_of self.old))) self.old self.new result }
    {
        self.queues
            .insq_before(&mut self.blocks, queue, before, token)
    }

    /// Removes the first message of a queue, if any, and returns its token. Refused as `NoSuchQueue`. As [`Queues::getq`]
    /// of strm_queue.
    #[inline(always)]
    pub fn getq(&mut self, queue: u8) -> Result<Option<Token>, Refusal>
        ensures { TakesAny arena (on_queues self.old (queues.getq queue
            (queued_blocks_of self.old))) self.old self.new result }
    {
        self.queues.getq(&mut self.blocks, queue)
    }

    /// Removes the first messages of a queue, at most `most`, each as [`Pool::getq`] does. Their tokens go to `into`, and their
    /// number is returned. It may stop before the last message of a rank, and where the want-to-read mark is set or a band is
    /// wanted; call `getq` before it. As [`Queues::getq_run`] of strm_queue.
    #[inline(always)]
    pub fn getq_run<R: Receiver>(&mut self, queue: u8, most: u32, into: &mut R) -> u32
        ensures takes { TakesEach arena R.receives (λ v. on_queues v (queues.getq queue (queued_blocks_of v))) most
            self.old self.new into.old into.new result }
        ensures over { result < most → IsRunOver queue (queued_blocks_of self.new) }
    {
        self.queues.getq_run(&mut self.blocks, queue, most, into)
    }

    /// Removes the message at `place` of a queue, counted from 0, and returns its token. Refused as `NoSuchQueue`, then
    /// `NoSuchPlace`. As [`Queues::rmvq`] of strm_queue.
    pub fn rmvq(&mut self, queue: u8, place: u32) -> Result<Token, Refusal>
        ensures { Takes arena (on_queues self.old (queues.rmvq queue place (queued_blocks_of self.old)))
            self.old self.new result }
    {
        self.queues.rmvq(&mut self.blocks, queue, place)
    }

    /// Removes the message with this head from its queue, and returns its token. Refused as `NoSuchPlace`. As
    /// [`Queues::rmvq_head`] of strm_queue.
    pub fn rmvq_head(&mut self, head: u32) -> Result<Token, Refusal>
        ensures { Takes arena (on_queues self.old (by_head.rmvq_head head (queued_blocks_of self.old)))
            self.old self.new result }
    {
        self.queues.rmvq_head(&mut self.blocks, head)
    }

    /// Returns the number of messages on a queue. Refused as `NoSuchQueue`. As [`Queues::qsize`] of strm_queue.
    pub fn qsize(&self, queue: u8) -> Result<u32, Refusal>
        ensures { result ≡ answer_of (queues.qsize queue (queued_blocks_of self.now)) }
    {
        self.queues.qsize(&self.blocks, queue)
    }

    /// Frees messages of a queue: all, or only those that carry data. Refused as `NoSuchQueue`. As [`Queues::flushq`] of
    /// strm_queue.
    pub fn flushq(&mut self, queue: u8, flush: Flush) -> Result<(), Refusal>
        ensures { Flushes arena (on_queues self.old (queues.flushq queue flush (queued_blocks_of self.old)))
            self.old self.new result }
    {
        self.queues.flushq(&mut self.blocks, queue, flush)
    }

    /// Frees messages of one band of a queue: all, or only those that carry data. Refused as `NoSuchQueue`. As
    /// [`Queues::flushband`] of strm_queue.
    pub fn flushband(&mut self, queue: u8, band: u8, flush: Flush) -> Result<(), Refusal>
        ensures { Flushes arena (on_queues self.old (queues.flushband queue band flush (queued_blocks_of self.old)))
            self.old self.new result }
    {
        self.queues.flushband(&mut self.blocks, queue, band, flush)
    }

    /// Takes messages off a queue that [`Pool::flushq`] would free, at most `most`; their tokens go to `into`. Returns their
    /// number. Refused as `NoSuchQueue`. As [`Queues::take_flushed`] of strm_queue.
    pub fn take_flushed<R: Receiver>(
        &mut self,
        queue: u8,
        flush: Flush,
        most: u32,
        into: &mut R,
    ) -> Result<u32, Refusal>
        ensures { Hands arena R.receives (on_queues self.old (taking.take_flushed queue flush most
            (queued_blocks_of self.old))) self.old self.new into.old into.new result }
    {
        self.queues
            .take_flushed(&mut self.blocks, queue, flush, most, into)
    }

    /// Takes messages of one band off a queue that [`Pool::flushband`] would free, at most `most`; their tokens go to `into`.
    /// Returns their number. Refused as `NoSuchQueue`. As [`Queues::take_flushed_band`] of strm_queue.
    pub fn take_flushed_band<R: Receiver>(
        &mut self,
        queue: u8,
        band: u8,
        flush: Flush,
        most: u32,
        into: &mut R,
    ) -> Result<u32, Refusal>
        ensures { Hands arena R.receives (on_queues self.old (taking.take_flushed_band queue band flush most
            (queued_blocks_of self.old))) self.old self.new into.old into.new result }
    {
        self.queues
            .take_flushed_band(&mut self.blocks, queue, band, flush, most, into)
    }

    /// Says whether a band has room at the target of a queue; if not, the band is wanted there. Refused as `NoSuchQueue`.
    /// As [`Queues::bcanput`] of strm_queue.
    pub fn bcanput(&mut self, queue: u8, band: u8) -> Result<bool, Refusal>
        ensures { LeavesBlocks arena (on_queues self.old (queues.bcanput queue band (queued_blocks_of self.old)))
            self.old self.new result }
    {
        self.queues.bcanput(&self.blocks, queue, band)
    }

    /// Sets both water marks of one band of a queue, in bytes. Refused as `NoSuchQueue`, then `BadMarks`. As
    /// [`Queues::strqset`] of strm_queue.
    pub fn strqset(&mut self, queue: u8, band: u8, hiwat: u32, lowat: u32) -> Result<(), Refusal>
        ensures { LeavesBlocks arena (on_queues self.old
            (queues.strqset queue band hiwat lowat (queued_blocks_of self.old)))
            self.old self.new result }
    {
        self.queues.strqset(&self.blocks, queue, band, hiwat, lowat)
    }

    /// Returns both water marks of one band of a queue. Refused as `NoSuchQueue`. As [`Queues::strqget`] of strm_queue.
    pub fn strqget(&self, queue: u8, band: u8) -> Result<Marks, Refusal>
        ensures { result ≡ answer_of (queues.strqget queue band (queued_blocks_of self.now)) }
    {
        self.queues.strqget(queue, band)
    }

    /// Puts a queue at the end of the run list, unless it is on the list or has no service procedure. Refused as
    /// `NoSuchQueue`. As [`Queues::qenable`] of strm_queue.
    pub fn qenable(&mut self, queue: u8) -> Result<(), Refusal>
        ensures { LeavesBlocks arena (on_queues self.old (queues.qenable queue (queued_blocks_of self.old)))
            self.old self.new result }
    {
        self.queues.qenable(queue)
    }

    /// Switches enabling of a queue off. Refused as `NoSuchQueue`. As [`Queues::noenable`] of strm_queue.
    pub fn noenable(&mut self, queue: u8) -> Result<(), Refusal>
        ensures { LeavesBlocks arena (on_queues self.old (queues.noenable queue (queued_blocks_of self.old)))
            self.old self.new result }
    {
        self.queues.noenable(queue)
    }

    /// Switches enabling of a queue on again. Refused as `NoSuchQueue`. As [`Queues::enableok`] of strm_queue.
    pub fn enableok(&mut self, queue: u8) -> Result<(), Refusal>
        ensures { LeavesBlocks arena (on_queues self.old (queues.enableok queue (queued_blocks_of self.old)))
            self.old self.new result }
    {
        self.queues.enableok(queue)
    }

    /// Takes the first queue, if any, off the run list, and returns its number. As [`Queues::next_service`] of strm_queue.
    pub fn next_service(&mut self) -> Option<u8>
        ensures { LeavesBlocks arena (on_queues self.old (Ok (queues.next_service (queued_blocks_of self.old))))
            self.old self.new (Ok result) }
    {
        self.queues.next_service()
    }

    /// Returns the queue at a place of the run list, counted from 0, if any. As [`Queues::run_at`] of strm_queue.
    pub fn run_at(&self, place: u32) -> Option<u8>
        ensures { result ≡ queues.run_at place (queued_blocks_of self.now) }
    {
        self.queues.run_at(place)
    }

    /// Returns the messages, bytes and marks of a queue. Refused as `NoSuchQueue`. As [`Queues::queue_info`] of strm_queue.
    pub fn queue_info(&self, queue: u8) -> Result<QueueInfo, Refusal>
        ensures { result ≡ answer_of (queues.queue_info queue (queued_blocks_of self.now)) }
    {
        self.queues.queue_info(&self.blocks, queue)
    }

    /// Returns the bytes and marks of one band of a queue. Refused as `NoSuchQueue`. As [`Queues::band_info`] of
    /// strm_queue.
    pub fn band_info(&self, queue: u8, band: u8) -> Result<BandInfo, Refusal>
        ensures { result ≡ answer_of (queues.band_info queue band (queued_blocks_of self.now)) }
    {
        self.queues.band_info(&self.blocks, queue, band)
    }
}
