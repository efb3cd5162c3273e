//! Messages join and leave a queue's shelf, and what is stored of the queue stays true.
ghost use Rattle.std.specs.Prelude.{Ok, Some, ◌≡◌, ◌<◌, IsTrue, length};
ghost use Rattle.std.specs.Option.{ForSome};
ghost use Rattle.strm_links.specs.Rows as rows;
ghost use Rattle.strm_mblk.specs.Arena.{has, with_shelf, without_held};
ghost use Rattle.strm_mblk.specs.Given.{given_nothing};
ghost use Rattle.strm_mblk.specs.Shelves as model;
ghost use Rattle.strm_mblk.specs.Shelves.{heads_at, is_on};
ghost use Rattle.strm_mblk.specs.Calls.{Puts, Takes, itself};
ghost use Rattle.strm_queue.specs.Joining.{IsAfterEqual, IsRank, shelf_with};
ghost use Rattle.strm_queue.specs.QueuedBlocks.{AreInOrder};
ghost use Rattle.strm_queue.specs.Rank.{is_ordered, rank_of};

use super::Queues;
use super::places::{ahead_of, queued_rank};
use crate::limits::HIGH_RANK;
use crate::tally::Placed;
use strm_mblk::{BlockNo, Blocks, Token};

impl Queues {
    // Puts a message of this rank on a queue's shelf, before the one with this head, or last. Ranks must not rise then.
    // High priority gives the first block band 0. `follows` says that the message is known to follow the last one of its
    // rank. Takes a step for each block of the message.
    #[inline(always)]
    pub(super) fn shelve(
        &mut self,
        blocks: &mut Blocks,
        queue: u8,
        before: Option<BlockNo>,
        rank: u16,
        follows: bool,
        token: Token,
    )
        requires queue { queue < length self.old.state.specs }
        requires in_order { AreInOrder self.old blocks.old }
        requires had { IsTrue (has blocks.old token) }
        requires rank { IsRank blocks.old token rank }
        requires follows { IsTrue follows → IsAfterEqual blocks.old queue before token rank }
        requires before { ForSome before (λ head. IsTrue (is_on blocks.old queue head)) }
        requires ordered { IsTrue (is_ordered (rank_of blocks.old.store)
            (shelf_with blocks.old queue before token.head)) }
        ensures puts { Puts itself token (given_nothing
            (with_shelf queue (shelf_with blocks.old queue before token.head) (without_held token.head blocks.old)))
            blocks.old blocks.new (Ok tt) }
        ensures state { self.new.state ≡ self.old.state }
        ensures in_order { AreInOrder self.new blocks.new }
    {
        blocks.lawful();
        let placed = Placed {
            head: token.head(),
            rank,
            size: blocks.size(&token),
            ahead: ahead_of(blocks, queue, before).get(),
            behind: before,
        };
        if rank == HIGH_RANK {
            blocks.setband(&token, 0);
        }
        blocks.shelve(queue, before, token);
        blocks.lawful();
        self.join(queue, placed, follows);
    }

    // Takes the message with this head off a queue's shelf. Takes a step for each of its blocks.
    #[inline(always)]
    pub(super) fn unshelve(&mut self, blocks: &mut Blocks, queue: u8, head: BlockNo) -> Token
        requires queue { queue < length self.old.state.specs }
        requires in_order { AreInOrder self.old blocks.old }
        requires there { IsTrue (is_on blocks.old queue head) }
        ensures takes { Takes itself (Ok (head, model.unshelve queue head blocks.old))
            blocks.old blocks.new (Ok result) }
        ensures state { self.new.state ≡ self.old.state }
        ensures in_order { AreInOrder self.new blocks.new }
    {
        // Most messages are first, and of a band. Each call is inlined, and the first one is then shorter.
        let ahead = blocks.before(head);
        match ahead {
            None if queued_rank(blocks, head) < HIGH_RANK => self.unshelve_behind(
                blocks, queue, None, head,
            ),
            _ => self.unshelve_behind(blocks, queue, ahead, head),
        }
    }

    // Does what `unshelve` does, for the first message of a queue.
    #[inline(always)]
    #[tactic(auto, using(crate::proofs::Shelf::before_first, crate::proofs::Shelf::on_some_shelf))]
    pub(super) fn unshelve_first(&mut self, blocks: &mut Blocks, queue: u8, head: BlockNo) -> Token
        requires queue { queue < length self.old.state.specs }
        requires in_order { AreInOrder self.old blocks.old }
        requires first { rows.first (heads_at blocks.old queue) ≡ Some head }
        requires there { IsTrue (is_on blocks.old queue head) }
        ensures takes { Takes itself (Ok (head, model.unshelve queue head blocks.old))
            blocks.old blocks.new (Ok result) }
        ensures state { self.new.state ≡ self.old.state }
        ensures in_order { AreInOrder self.new blocks.new }
    {
        // Most messages are of a band. Each call is inlined, and the first one is then shorter.
        if queued_rank(blocks, head) < HIGH_RANK {
            return self.unshelve_behind(blocks, queue, None, head);
        }
        self.unshelve(blocks, queue, head)
    }

    // Does what `unshelve` does. It is not inlined, so that a flush goes faster over messages that it leaves.
    #[inline(never)]
    pub(super) fn unshelve_apart(&mut self, blocks: &mut Blocks, queue: u8, head: BlockNo) -> Token
        requires queue { queue < length self.old.state.specs }
        requires in_order { AreInOrder self.old blocks.old }
        requires there { IsTrue (is_on blocks.old queue head) }
        ensures takes { Takes itself (Ok (head, model.unshelve queue head blocks.old))
            blocks.old blocks.new (Ok result) }
        ensures state { self.new.state ≡ self.old.state }
        ensures in_order { AreInOrder self.new blocks.new }
    {
        self.unshelve(blocks, queue, head)
    }

    // Does what `unshelve` does, for the message after `ahead`, or the first one.
    #[inline(always)]
    fn unshelve_behind(
        &mut self,
        blocks: &mut Blocks,
        queue: u8,
        ahead: Option<BlockNo>,
        head: BlockNo,
    ) -> Token
        requires queue { queue < length self.old.state.specs }
        requires in_order { AreInOrder self.old blocks.old }
        requires there { IsTrue (is_on blocks.old queue head) }
        requires ahead { ahead ≡ rows.before head (heads_at blocks.old queue) }
        ensures takes { Takes itself (Ok (head, model.unshelve queue head blocks.old))
            blocks.old blocks.new (Ok result) }
        ensures state { self.new.state ≡ self.old.state }
        ensures in_order { AreInOrder self.new blocks.new }
    {
        blocks.lawful();
        let placed = Placed {
            head,
            rank: queued_rank(blocks, head),
            size: blocks.head_size(head),
            ahead,
            behind: blocks.after(head),
        };
        let token = blocks.unshelve(queue, head);
        self.leave(queue, placed);
        token
    }
}
