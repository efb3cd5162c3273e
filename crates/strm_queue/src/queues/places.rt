//! The rank of a message, and the place where it belongs on a queue.
ghost use Rattle.std.specs.Prelude.{◌≡◌, ◌<◌, ℕ, true, List, ◌∷◌, ◌++◌, None, Some, IsSome, IsTrue, length, map, nat_le, slice_get, if◌then◌else◌};
ghost use Rattle.std.specs.Option.{ForSome};
ghost use Rattle.strm_data.specs.MsgType.{is_high_priority};
ghost use Rattle.strm_links.specs.Rows as rows;
ghost use Rattle.strm_mblk.specs.Arena.{has, shelf_at};
ghost use Rattle.strm_mblk.specs.Block.{Message, head_of};
ghost use Rattle.strm_mblk.specs.Messages.{put_before_head};
ghost use Rattle.strm_mblk.specs.Shelves.{heads_at, shelf_of, is_on};
ghost use Rattle.strm_queue.specs.Joining.{IsRank};
ghost use Rattle.strm_queue.specs.Limits.{high_rank, ranks};
ghost use Rattle.strm_queue.specs.QueuedBlocks.{AreInOrder};
ghost use Rattle.strm_queue.specs.Rank.{is_ordered, put_ahead, put_behind, rank_of};

use super::Queues;
use crate::limits::HIGH_RANK;
use strm_data::MsgType;
use strm_links::Slot;
use strm_mblk::{BlockNo, Blocks, Token};

// The rank of a message whose first block is of this type and band.
fn rank(kind: MsgType, band: u8) -> u16
    ensures value { result ≡ (if is_high_priority kind then high_rank else band) }
    ensures few { result < ranks }
    ensures high { result ≡ high_rank → IsTrue (is_high_priority kind) }
{
    if kind.is_high_priority() {
        HIGH_RANK
    } else {
        u16::from(band)
    }
}

// The rank of a held message, by its first block.
pub(super) fn held_rank(blocks: &Blocks, token: &Token) -> u16
    requires { IsTrue (has blocks.now token.now) }
    ensures { IsRank blocks.now token.now result }
{
    match blocks.block(token, 0) {
        Ok(first) => rank(first.kind, first.band),
        Err(_) => 0,
    }
}

// The rank of a message on a queue.
#[tactic(auto, using(crate::proofs::order::Order::rank_asked, crate::proofs::Shelf::shelved_message_at))]
pub(super) fn queued_rank(blocks: &Blocks, head: BlockNo) -> u16
    requires { IsSome (shelf_of blocks.now head) }
    ensures value { (queue : ℕ) (pre post : List Message) (m : Message) → shelf_at blocks.now queue ≡ pre ++ m ∷ post
        → head_of m ≡ head
        → result ≡ rank_of blocks.now.store m }
    ensures few { result < ranks }
{
    blocks.lawful();
    rank(blocks.head_kind(head), blocks.head_band(head))
}

// The head of the message at a place, counted from 0, if any. Takes `place` steps.
pub(super) fn head_at(blocks: &Blocks, queue: u8, place: u32) -> Option<BlockNo>
    requires { queue < length blocks.now.shelves }
    ensures value { result ≡ slice_get (heads_at blocks.now queue) place }
    ensures there { ForSome result (λ head. IsTrue (is_on blocks.now queue head)) }
{
    blocks.lawful();
    let mut at = blocks.first(queue);
    for _message in 0..place {
        at = blocks.after(at?);
    }
    at
}

// Whether the message with this head is on this queue; true if no head is given.
#[tactic(auto, using(crate::proofs::Shelf::shelf_asked, crate::proofs::Shelf::shelf_absent))]
pub(super) fn is_at(blocks: &Blocks, queue: u8, at: Option<BlockNo>) -> bool
    ensures none { at ≡ None → result ≡ true }
    ensures some { ForSome at (λ head. result ≡ is_on blocks.now queue head) }
{
    blocks.lawful();
    let Some(head) = at else {
        return true;
    };
    match blocks.shelf_of(head) {
        Some(shelf) => shelf == u32::from(queue),
        None => false,
    }
}

// Whether the message with this head has at most this rank; true if there is none.
fn is_at_most(blocks: &Blocks, at: Option<BlockNo>, rank: u16) -> bool
    requires { ForSome at (λ head. IsSome (shelf_of blocks.now head)) }
    ensures none { at ≡ None → result ≡ true }
    ensures some { (queue : ℕ) (pre post : List Message) (m : Message) → shelf_at blocks.now queue ≡ pre ++ m ∷ post
        → at ≡ Some (head_of m)
        → result ≡ nat_le (rank_of blocks.now.store m) rank }
{
    match at {
        Some(head) => queued_rank(blocks, head) <= rank,
        None => true,
    }
}

// The head of the message just before this one, or of the last message if none is given.
#[inline(always)]
pub(super) fn ahead_of(blocks: &Blocks, queue: u8, before: Option<BlockNo>) -> Slot
    requires queue { queue < length blocks.now.shelves }
    requires before { ForSome before (λ head. IsTrue (is_on blocks.now queue head)) }
    ensures { (pre post : List Message) → shelf_at blocks.now queue ≡ pre ++ post
        → before ≡ rows.first (map head_of post)
        → result ≡ rows.last (map head_of pre) }
{
    blocks.lawful();
    match before {
        Some(head) => Slot::of(blocks.before(head)),
        None => Slot::of(blocks.last(queue)),
    }
}

// Whether ranks still do not rise once a message of this rank is put before the one with this head, or last if none is
// given.
pub(super) fn fits_before(blocks: &Blocks, queue: u8, before: Option<BlockNo>, rank: u16) -> bool
    requires queue { queue < length blocks.now.shelves }
    requires before { ForSome before (λ head. IsTrue (is_on blocks.now queue head)) }
    requires ordered { IsTrue (is_ordered (rank_of blocks.now.store) (shelf_at blocks.now queue)) }
    ensures { (m : Message) → rank_of blocks.now.store m ≡ rank
        → result ≡ is_ordered (rank_of blocks.now.store)
        (put_before_head head_of before m (shelf_at blocks.now queue)) }
{
    blocks.lawful();
    if !is_at_most(blocks, before, rank) {
        return false;
    }
    match ahead_of(blocks, queue, before).get() {
        Some(head) => queued_rank(blocks, head) >= rank,
        None => true,
    }
}

impl Queues {
    // Where `putq` puts a message of this rank: the head of the message that comes after it, or none for the end. If the
    // rank has messages, that is the one after its last message.
    #[inline(always)]
    pub(super) fn place_behind(&self, blocks: &Blocks, queue: u8, rank: u16) -> Slot
        requires queue { queue < length self.now.state.specs }
        requires rank { rank < ranks }
        requires in_order { AreInOrder self.now blocks.now }
        ensures there { ForSome result (λ head. IsTrue (is_on blocks.now queue head)) }
        ensures place { (m : Message) → rank_of blocks.now.store m ≡ rank
            → put_before_head head_of result m (shelf_at blocks.now queue)
            ≡ put_behind (rank_of blocks.now.store) m (shelf_at blocks.now queue) }
    {
        blocks.lawful();
        if let Some(last) = self.tally(queue).last(rank).get() {
            // Most messages go last on the queue.
            if blocks.last(queue) == Some(last) {
                return Slot::none();
            }
            return Slot::of(blocks.after(last));
        }
        self.place_above(blocks, queue, rank)
    }

    // Does what `place_behind` does, for any rank: finds the message after the last one of the smallest rank, this or above,
    // that has messages, or else the queue's first message. An empty queue needs no search.
    #[inline(always)]
    fn place_above(&self, blocks: &Blocks, queue: u8, rank: u16) -> Slot
        requires queue { queue < length self.now.state.specs }
        requires rank { rank < ranks }
        requires in_order { AreInOrder self.now blocks.now }
        ensures there { ForSome result (λ head. IsTrue (is_on blocks.now queue head)) }
        ensures place { (m : Message) → rank_of blocks.now.store m ≡ rank
            → put_before_head head_of result m (shelf_at blocks.now queue)
            ≡ put_behind (rank_of blocks.now.store) m (shelf_at blocks.now queue) }
    {
        blocks.lawful();
        let tally = self.tally(queue);
        if tally.len() == 0 {
            return Slot::none();
        }
        match tally.rank_at_least(rank) {
            Some(found) => Slot::of(blocks.after(tally.last(found).number())),
            None => Slot::of(blocks.first(queue)),
        }
    }

    // Where `putbq` puts a message of this rank: before the first message of the greatest rank, this or below, that has
    // messages. Returns its head, or none for the end.
    pub(super) fn place_ahead(&self, blocks: &Blocks, queue: u8, rank: u16) -> Option<BlockNo>
        requires queue { queue < length self.now.state.specs }
        requires rank { rank < ranks }
        requires in_order { AreInOrder self.now blocks.now }
        ensures there { ForSome result (λ head. IsTrue (is_on blocks.now queue head)) }
        ensures place { (m : Message) → rank_of blocks.now.store m ≡ rank
            → put_before_head head_of result m (shelf_at blocks.now queue)
            ≡ put_ahead (rank_of blocks.now.store) m (shelf_at blocks.now queue) }
    {
        blocks.lawful();
        let tally = self.tally(queue);
        let found = tally.rank_at_most(rank)?;
        tally.first(found)
    }
}
