//! Calls of the bench for flow control, the run list, and what can be read of queues and bands.
ghost use Rattle.strm_queue.specs.QueuedBlocks.{Agrees};

use super::Bench;
use crate::tests::MESSAGES;
use crate::tests::reading::assert_on;
use std::process::Abort;
use strm_data::Refusal;
use strm_queue::{BandInfo, Marks, QueueInfo};

impl Bench {
    // `bcanput` returns this.
    pub(in crate::tests) fn bcanput(
        &mut self,
        rt: &impl Abort,
        at: (u8, u8),
        wanted: Result<bool, Refusal>,
    )
        requires { Agrees self.old.queues self.old.blocks }
        ensures { Agrees self.new.queues self.new.blocks }
    {
        assert!(rt; self.queues.bcanput(&self.blocks, at.0, at.1) == wanted);
    }

    // There is no such queue, and so no last message.
    pub(in crate::tests) fn assert_missing(&self, rt: &impl Abort, queue: u8)
        requires { Agrees self.now.queues self.now.blocks }
    {
        assert!(rt; self.queues.last_queued(&self.blocks, queue) == Err(Refusal::NoSuchQueue));
    }

    // No queue has a message with this head.
    pub(in crate::tests) fn assert_unqueued(&self, rt: &impl Abort, head: u32)
        requires { Agrees self.now.queues self.now.blocks }
    {
        assert!(rt; self.queues.queue_of(&self.blocks, head) == Err(Refusal::NoSuchPlace));
        assert!(rt; self.queues.queued_before(&self.blocks, head) == Err(Refusal::NoSuchPlace));
    }

    // `strqset`, with the high water mark first, returns this.
    pub(in crate::tests) fn strqset(
        &mut self,
        rt: &impl Abort,
        at: (u8, u8),
        marks: (u32, u32),
        wanted: Result<(), Refusal>,
    )
        requires { Agrees self.old.queues self.old.blocks }
        ensures { Agrees self.new.queues self.new.blocks }
    {
        let (hiwat, lowat) = marks;
        let answer = self.queues.strqset(&self.blocks, at.0, at.1, hiwat, lowat);
        assert!(rt; answer == wanted);
    }

    // `strqget` returns this.
    pub(in crate::tests) fn strqget(
        &self,
        rt: &impl Abort,
        at: (u8, u8),
        wanted: Result<Marks, Refusal>,
    ) {
        assert!(rt; self.queues.strqget(at.0, at.1) == wanted);
    }

    // A band of a queue has these water marks, the high one first.
    pub(in crate::tests) fn assert_marks(&self, rt: &impl Abort, at: (u8, u8), marks: (u32, u32)) {
        let (hiwat, lowat) = marks;
        self.strqget(rt, at, Ok(Marks { hiwat, lowat }));
    }

    // `qenable` returns this.
    pub(in crate::tests) fn qenable(
        &mut self,
        rt: &impl Abort,
        queue: u8,
        wanted: Result<(), Refusal>,
    )
        requires { Agrees self.old.queues self.old.blocks }
        ensures { Agrees self.new.queues self.new.blocks }
    {
        assert!(rt; self.queues.qenable(queue) == wanted);
    }

    // `noenable` returns this.
    pub(in crate::tests) fn noenable(
        &mut self,
        rt: &impl Abort,
        queue: u8,
        wanted: Result<(), Refusal>,
    )
        requires { Agrees self.old.queues self.old.blocks }
        ensures { Agrees self.new.queues self.new.blocks }
    {
        assert!(rt; self.queues.noenable(queue) == wanted);
    }

    // `enableok` returns this.
    pub(in crate::tests) fn enableok(
        &mut self,
        rt: &impl Abort,
        queue: u8,
        wanted: Result<(), Refusal>,
    )
        requires { Agrees self.old.queues self.old.blocks }
        ensures { Agrees self.new.queues self.new.blocks }
    {
        assert!(rt; self.queues.enableok(queue) == wanted);
    }

    // `next_service` takes this queue off the run list, or none.
    pub(in crate::tests) fn next_service(&mut self, rt: &impl Abort, wanted: Option<u8>)
        requires { Agrees self.old.queues self.old.blocks }
        ensures { Agrees self.new.queues self.new.blocks }
    {
        assert!(rt; self.queues.next_service() == wanted);
    }

    // The run list has these queues, at most two.
    pub(in crate::tests) fn assert_waiting(&self, rt: &impl Abort, queues: &[u8]) {
        for place in 0..3 {
            let wanted = queues.get(place as usize).copied();
            assert!(rt; self.queues.run_at(place) == wanted);
        }
    }

    // `qsize` returns this.
    pub(in crate::tests) fn qsize(&self, rt: &impl Abort, queue: u8, wanted: Result<u32, Refusal>)
        requires { Agrees self.now.queues self.now.blocks }
    {
        assert!(rt; self.queues.qsize(&self.blocks, queue) == wanted);
    }

    // `queue_info` returns this.
    pub(in crate::tests) fn queue_info(
        &self,
        rt: &impl Abort,
        queue: u8,
        wanted: Result<QueueInfo, Refusal>,
    )
        requires { Agrees self.now.queues self.now.blocks }
    {
        assert!(rt; self.queues.queue_info(&self.blocks, queue) == wanted);
    }

    // `band_info` returns this.
    pub(in crate::tests) fn band_info(
        &self,
        rt: &impl Abort,
        at: (u8, u8),
        wanted: Result<BandInfo, Refusal>,
    )
        requires { Agrees self.now.queues self.now.blocks }
    {
        assert!(rt; self.queues.band_info(&self.blocks, at.0, at.1) == wanted);
    }

    // A band has this number of bytes, and these full and wanted marks.
    pub(in crate::tests) fn assert_band(
        &self,
        rt: &impl Abort,
        at: (u8, u8),
        bytes: u32,
        marks: (bool, bool),
    )
        requires { Agrees self.now.queues self.now.blocks }
    {
        let (full, wanted) = marks;
        let told = BandInfo {
            bytes,
            full,
            wanted,
        };
        self.band_info(rt, at, Ok(told));
    }

    // `has_queue` returns this.
    pub(in crate::tests) fn has_queue(&self, rt: &impl Abort, queue: u8, wanted: bool) {
        assert!(rt; self.queues.has_queue(queue) == wanted);
    }

    // The messages of a queue have these heads, front to back.
    pub(in crate::tests) fn assert_heads(&self, rt: &impl Abort, queue: u8, heads: &[u32])
        requires { Agrees self.now.queues self.now.blocks }
    {
        assert_on(rt, &self.queues, &self.blocks, queue, heads);
    }

    // Whether `testb` says that a new message can be made.
    pub(in crate::tests) fn has_free(&self) -> bool {
        self.blocks.testb(0)
    }

    // `testb` returns this.
    pub(in crate::tests) fn testb(&self, rt: &impl Abort, wanted: bool) {
        assert!(rt; self.has_free() == wanted);
    }

    // All message blocks are free.
    pub(in crate::tests) fn assert_all_free(&self, rt: &impl Abort) {
        let census = self.blocks.census();
        assert!(rt; (census.free, census.queued, census.held) == (MESSAGES, 0, 0));
    }
}
