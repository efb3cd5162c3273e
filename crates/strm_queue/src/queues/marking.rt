//! `strqset` and `strqget`: the water marks of a band.
ghost use Rattle.std.specs.Prelude.{◌≡◌, ◌<◌, length};
ghost use Rattle.strm_mblk.specs.Arena.{Arena};
ghost use Rattle.strm_mblk.specs.Given.{answer_of};
ghost use Rattle.strm_mblk.specs.Calls.{LeavesBlocks};
ghost use Rattle.strm_queue.specs.Flow.{with_marks};
ghost use Rattle.strm_queue.specs.QueueCalls as model;
ghost use Rattle.strm_queue.specs.QueuedBlocks.{Agrees, queued_blocks, arena};

use super::Queues;
use crate::marks::Marks;
use strm_data::Refusal;
use strm_mblk::Blocks;

impl Queues {
    /// Sets both water marks of one band of a queue, in bytes. All other bands keep theirs.
    ///
    /// The band is full from now on if it has at least `hiwat` bytes. This sets no wanted mark, as only `bcanput` does
    /// that. Then the queue is settled, as by [`Queues::getq`].
    ///
    /// Refused as `NoSuchQueue`, then as `BadMarks` if `lowat` is not below `hiwat`; then nothing changes. Takes the steps
    /// to settle.
    ///
    /// STREAMS' `strqset` sets one of many fields, among them `QHIWAT` and `QLOWAT`. Our own choices: it sets both at once,
    /// `lowat` must be below `hiwat`, the full mark follows at once, and the queue is settled.
    #[tactic(auto, using(strm_mblk::proofs::arena::Calls::leaves_blocks))]
    pub fn strqset(
        &mut self,
        blocks: &Blocks,
        queue: u8,
        band: u8,
        hiwat: u32,
        lowat: u32,
    ) -> Result<(), Refusal>
        requires { Agrees self.old blocks.now }
        ensures does { LeavesBlocks arena (model.strqset queue band hiwat lowat (queued_blocks self.old blocks.now))
            (queued_blocks self.old blocks.now) (queued_blocks self.new blocks.now) result }
        ensures agrees { Agrees self.new blocks.now }
    {
        if !self.has_queue(queue) {
            return Err(Refusal::NoSuchQueue);
        }
        if lowat >= hiwat {
            return Err(Refusal::BadMarks);
        }
        self.set_marks(queue, band, Marks { hiwat, lowat });
        self.recount(queue, band);
        self.settle(queue);
        Ok(())
    }

    /// Returns the water marks of one band of a queue: those of its spec, or of the last `strqset`. Refused as
    /// `NoSuchQueue`. Takes constant time. STREAMS' `strqget` returns one of many fields; this returns both water marks,
    /// and no others.
    pub fn strqget(&self, queue: u8, band: u8) -> Result<Marks, Refusal>
        ensures { (arena : Arena) → result ≡ answer_of (model.strqget queue band (queued_blocks self.now arena)) }
    {
        if !self.has_queue(queue) {
            return Err(Refusal::NoSuchQueue);
        }
        Ok(self.marks(queue, band))
    }

    // Sets the water marks of a band, and leaves its full mark.
    fn set_marks(&mut self, queue: u8, band: u8, marks: Marks)
        requires queue { queue < length self.old.state.specs }
        requires apart { marks.lowat < marks.hiwat }
        ensures { self.new ≡ record self.old { state = with_marks queue band marks self.old.state } }
    {
        self.queues[usize::from(queue)].marks.set(band, marks);
    }
}
