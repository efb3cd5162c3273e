//! `flushq` and `flushband`: messages of a queue are freed where they are.
ghost use Rattle.std.specs.Prelude.{◌≡◌, ◌<◌, ◌∷◌, ◌++◌, ℕ, IsSome, IsTrue, List, filter, length, map, not};
ghost use Rattle.std.specs.Option.{ForSome};
ghost use Rattle.strm_links.specs.Rows as rows;
ghost use Rattle.strm_mblk.specs.Arena.{shelf_at, with_shelf};
ghost use Rattle.strm_mblk.specs.Block.{Message, head_of};
ghost use Rattle.strm_mblk.specs.Shelves.{shelf_of, is_on};
ghost use Rattle.strm_mblk.specs.Calls.{Flushes};
ghost use Rattle.strm_queue.specs.Flush.{carries_data, is_flushed, is_picked, with_freed};
ghost use Rattle.strm_queue.specs.Flushing.{messages_from_band};
ghost use Rattle.strm_queue.specs.QueueCalls as model;
ghost use Rattle.strm_queue.specs.QueuedBlocks.{Agrees, AreInOrder, queued_blocks, arena};

use super::Queues;
use super::places::queued_rank;
use crate::Flush;
use crate::tally::band_of;
use strm_data::{MsgType, Refusal};
use strm_mblk::{BlockNo, Blocks};

// Whether messages of this type carry data, so that `Flush::Data` frees them.
fn carries_data(kind: MsgType) -> bool
    ensures { result ≡ carries_data kind }
{
    matches!(
        kind,
        MsgType::MData | MsgType::MProto | MsgType::MPcproto | MsgType::MDelay
    )
}

// Whether a flush of all bands frees the message with this head.
#[tactic(auto, using(crate::proofs::moving::Flushing::head_told, crate::proofs::moving::Flushing::data_told))]
pub(super) fn takes(blocks: &Blocks, head: BlockNo, flush: Flush) -> bool
    requires { IsSome (shelf_of blocks.now head) }
    ensures { (queue : ℕ) (pre post : List Message) (m : Message) → shelf_at blocks.now queue ≡ pre ++ m ∷ post
        → head_of m ≡ head
        → result ≡ is_flushed blocks.now.store flush m }
{
    blocks.lawful();
    match flush {
        Flush::All => true,
        Flush::Data => carries_data(blocks.head_kind(head)),
    }
}

impl Queues {
    /// Frees messages of a queue, front to back: all, or only those that carry data. The others keep their places. Then the
    /// queue is settled, as by [`Queues::getq`]. Nothing else enables a queue.
    ///
    /// Refused as `NoSuchQueue`; then nothing changes. Takes a step for each message, three for each block that is freed,
    /// and those to settle.
    pub fn flushq(&mut self, blocks: &mut Blocks, queue: u8, flush: Flush) -> Result<(), Refusal>
        requires { Agrees self.old blocks.old }
        ensures does { Flushes arena (model.flushq queue flush (queued_blocks self.old blocks.old))
            (queued_blocks self.old blocks.old) (queued_blocks self.new blocks.new) result }
        ensures agrees { Agrees self.new blocks.new }
    {
        self.flush_band(blocks, queue, None, flush)
    }

    /// Frees messages of one band of a queue, front to back: all, or only those that carry data. High priority messages
    /// belong to band 0. The others keep their places. Then the queue is settled, as by [`Queues::getq`]. Nothing else
    /// enables a queue.
    ///
    /// Refused as `NoSuchQueue`; then nothing changes. Takes a step for each message of the band, three for each block that
    /// is freed, and those to settle.
    pub fn flushband(
        &mut self,
        blocks: &mut Blocks,
        queue: u8,
        band: u8,
        flush: Flush,
    ) -> Result<(), Refusal>
        requires { Agrees self.old blocks.old }
        ensures does { Flushes arena (model.flushband queue band flush (queued_blocks self.old blocks.old))
            (queued_blocks self.old blocks.old) (queued_blocks self.new blocks.new) result }
        ensures agrees { Agrees self.new blocks.new }
    {
        self.flush_band(blocks, queue, Some(band), flush)
    }

    // Frees the messages that a flush picks, of a queue or of one band of it, and settles the queue.
    #[tactic(auto, using(strm_mblk::proofs::arena::Calls::flushes_none))]
    fn flush_band(
        &mut self,
        blocks: &mut Blocks,
        queue: u8,
        band: Option<u8>,
        flush: Flush,
    ) -> Result<(), Refusal>
        requires { Agrees self.old blocks.old }
        ensures does { Flushes arena (model.flush_messages queue band flush (queued_blocks self.old blocks.old))
            (queued_blocks self.old blocks.old) (queued_blocks self.new blocks.new) result }
        ensures agrees { Agrees self.new blocks.new }
    {
        if !self.has_queue(queue) {
            return Err(Refusal::NoSuchQueue);
        }
        self.flush_shelf(blocks, queue, band, flush);
        self.settle(queue);
        Ok(())
    }

    // The head of the first message that counts with the band, from `at` on, if any; without a band, `at`. Skips other
    // bands in one step.
    pub(super) fn onward(
        &self,
        blocks: &Blocks,
        queue: u8,
        band: Option<u8>,
        at: Option<BlockNo>,
    ) -> Option<BlockNo>
        requires queue { queue < length self.now.state.specs }
        requires in_order { AreInOrder self.now blocks.now }
        requires at { ForSome at (λ head. IsTrue (is_on blocks.now queue head)) }
        ensures { (pre post : List Message) → shelf_at blocks.now queue ≡ pre ++ post
            → at ≡ rows.first (map head_of post)
            → result ≡ rows.first (map head_of (messages_from_band blocks.now.store band post)) }
    {
        let (Some(band), Some(head)) = (band, at) else {
            return at;
        };
        let rank = queued_rank(blocks, head);
        if band_of(rank) == band {
            return at;
        }
        if rank < u16::from(band) {
            return None;
        }
        self.tally(queue).first(u16::from(band))
    }

    // Frees the messages that a flush picks, of a queue or of one band of it, front to back.
    fn flush_shelf(&mut self, blocks: &mut Blocks, queue: u8, band: Option<u8>, flush: Flush)
        requires queue { queue < length self.old.state.specs }
        requires in_order { AreInOrder self.old blocks.old }
        ensures after { let picked = is_picked blocks.old.store band flush in let ms = shelf_at blocks.old queue in
            blocks.new ≡ with_freed (filter picked ms) (with_shelf queue (filter (λ m. not (picked m)) ms) blocks.old) }
        ensures state { self.new.state ≡ self.old.state }
        ensures in_order { AreInOrder self.new blocks.new }
    {
        let mut at = self.onward(blocks, queue, band, blocks.first(queue));
        for _message in 0..self.len(queue) {
            let Some(head) = at else {
                return;
            };
            blocks.reads_alike();
            at = self.onward(blocks, queue, band, blocks.after(head));
            if takes(blocks, head, flush) {
                let token = self.unshelve_apart(blocks, queue, head);
                blocks.freemsg(token);
            }
        }
    }
}
