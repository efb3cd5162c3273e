//! Calls that read a queue's messages, bytes and marks; `bcanput`; and calls on the run list.
ghost use Rattle.std.specs.Prelude.{Ok, ◌≡◌};
ghost use Rattle.strm_mblk.specs.Arena.{Arena};
ghost use Rattle.strm_mblk.specs.Given.{answer_of};
ghost use Rattle.strm_mblk.specs.Calls.{LeavesBlocks};
ghost use Rattle.strm_queue.specs.QueueCalls as model;
ghost use Rattle.strm_queue.specs.QueuedBlocks.{Agrees, queued_blocks, arena};

use super::Queues;
use crate::{BandInfo, QueueInfo};
use strm_data::Refusal;
use strm_mblk::Blocks;

impl Queues {
    /// Returns the number of messages on a queue. Refused as `NoSuchQueue`. Takes constant time.
    pub fn qsize(&self, blocks: &Blocks, queue: u8) -> Result<u32, Refusal>
        requires { Agrees self.now blocks.now }
        ensures { result ≡ answer_of (model.qsize queue (queued_blocks self.now blocks.now)) }
    {
        if !self.has_queue(queue) {
            return Err(Refusal::NoSuchQueue);
        }
        Ok(self.len(queue))
    }

    /// Returns the number of messages and bytes on a queue, and its marks. Refused as `NoSuchQueue`. Takes constant time.
    /// This project's own call.
    pub fn queue_info(&self, blocks: &Blocks, queue: u8) -> Result<QueueInfo, Refusal>
        requires { Agrees self.now blocks.now }
        ensures { result ≡ answer_of (model.queue_info queue (queued_blocks self.now blocks.now)) }
    {
        if !self.has_queue(queue) {
            return Err(Refusal::NoSuchQueue);
        }
        Ok(QueueInfo {
            msgs: self.len(queue),
            bytes: self.bytes(queue),
            read: self.is_read(queue),
            noenable: self.is_off(queue),
            enabled: self.is_enabled(queue),
        })
    }

    /// Returns the bytes of one band of a queue, and its marks; high priority messages count with band 0. Refused as
    /// `NoSuchQueue`. Takes constant time. This project's own call; STREAMS has `qband` structures.
    pub fn band_info(&self, blocks: &Blocks, queue: u8, band: u8) -> Result<BandInfo, Refusal>
        requires { Agrees self.now blocks.now }
        ensures { result ≡ answer_of (model.band_info queue band (queued_blocks self.now blocks.now)) }
    {
        if !self.has_queue(queue) {
            return Err(Refusal::NoSuchQueue);
        }
        Ok(BandInfo {
            bytes: self.band_count(queue, band),
            full: self.is_full(queue, band),
            wanted: self.is_wanted(queue, band),
        })
    }

    /// Says whether a band has room at the target: the first queue with a service procedure from this one on, or else the
    /// last one. If the band is full there, this sets its wanted mark and returns false. Refused as `NoSuchQueue`; then
    /// nothing changes. Takes a step for each queue that is passed.
    #[tactic(auto, using(strm_mblk::proofs::arena::Calls::leaves_blocks, crate::proofs::Flow::agrees_wanted))]
    pub fn bcanput(&mut self, blocks: &Blocks, queue: u8, band: u8) -> Result<bool, Refusal>
        requires { Agrees self.old blocks.now }
        ensures does { LeavesBlocks arena (model.bcanput queue band (queued_blocks self.old blocks.now))
            (queued_blocks self.old blocks.now) (queued_blocks self.new blocks.now) result }
        ensures agrees { Agrees self.new blocks.now }
    {
        if !self.has_queue(queue) {
            return Err(Refusal::NoSuchQueue);
        }
        self.made_lawful();
        let target = self.target(queue);
        if !self.is_full(target, band) {
            return Ok(true);
        }
        self.set_wanted(target, band);
        Ok(false)
    }

    /// Adds a queue at the end of the run list, unless it is on the list or has no service procedure. Refused as
    /// `NoSuchQueue`; then nothing changes. Takes constant time.
    #[tactic(auto, using(strm_mblk::proofs::arena::Calls::leaves_blocks))]
    pub fn qenable(&mut self, queue: u8) -> Result<(), Refusal>
        ensures does { (a : Arena) → LeavesBlocks arena (model.qenable queue (queued_blocks self.old a))
            (queued_blocks self.old a) (queued_blocks self.new a) result }
        ensures agrees { (a : Arena) → Agrees self.old a → Agrees self.new a }
    {
        if !self.has_queue(queue) {
            return Err(Refusal::NoSuchQueue);
        }
        self.enable(queue);
        Ok(())
    }

    /// Switches enabling off: now only a high priority message in `putq` or `putbq`, `qenable` and back-enabling enable the
    /// queue. Refused as `NoSuchQueue`; then nothing changes. Takes constant time.
    pub fn noenable(&mut self, queue: u8) -> Result<(), Refusal>
        ensures does { (a : Arena) → LeavesBlocks arena (model.noenable queue (queued_blocks self.old a))
            (queued_blocks self.old a) (queued_blocks self.new a) result }
        ensures agrees { (a : Arena) → Agrees self.old a → Agrees self.new a }
    {
        self.switch(queue, true)
    }

    /// Switches enabling on again, and enables nothing by itself. Refused as `NoSuchQueue`; then nothing changes. Takes
    /// constant time.
    pub fn enableok(&mut self, queue: u8) -> Result<(), Refusal>
        ensures does { (a : Arena) → LeavesBlocks arena (model.enableok queue (queued_blocks self.old a))
            (queued_blocks self.old a) (queued_blocks self.new a) result }
        ensures agrees { (a : Arena) → Agrees self.old a → Agrees self.new a }
    {
        self.switch(queue, false)
    }

    /// Takes the first queue off the run list and returns its number, or none if the list is empty. Takes constant time.
    /// This project's own call: in STREAMS the scheduler does this.
    #[tactic(auto, using(strm_mblk::proofs::arena::Calls::leaves_blocks))]
    pub fn next_service(&mut self) -> Option<u8>
        ensures does { (a : Arena) → LeavesBlocks arena (Ok (model.next_service (queued_blocks self.old a)))
            (queued_blocks self.old a) (queued_blocks self.new a) (Ok result) }
        ensures agrees { (a : Arena) → Agrees self.old a → Agrees self.new a }
    {
        self.take_first()
    }

    /// Returns the queue at a place of the run list, counted from 0, or none if the list is shorter. Takes at most
    /// `place` steps. This project's own call.
    #[tactic(auto, using(crate::proofs::Laid::run_within, crate::proofs::Laid::run_step))]
    pub fn run_at(&self, place: u32) -> Option<u8>
        ensures { (arena : Arena) → result ≡ model.run_at place (queued_blocks self.now arena) }
    {
        self.run.parts_nodes();
        let mut at = self.run.front(0);
        for _queue in 0..place {
            at = self.run.next(at?);
        }
        let node = at?;
        Some(node as u8)
    }
}
