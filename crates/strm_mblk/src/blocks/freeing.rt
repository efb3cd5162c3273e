//! Messages, and first blocks of messages, are freed: `freemsg`, `freeb`.
ghost use Rattle.std.specs.Prelude.{Ok, ◌≡◌, ◌≤◌, ◌<◌, ℕ, IsTrue, Some, length, slice_get, take};
ghost use Rattle.strm_data.specs.CountedStore.{IsKept, count_of};
ghost use Rattle.strm_data.specs.DataStore.{times};
ghost use Rattle.strm_mblk.specs.Arena.{has};
ghost use Rattle.strm_mblk.specs.BlockCalls as model;
ghost use Rattle.strm_mblk.specs.BlocksLayout.{fields_at, data_used_by, with_references_dropped};
ghost use Rattle.strm_mblk.specs.Calls.{Frees, Spends, itself};
ghost use Rattle.strm_mblk.specs.Freeing.{freemsg, with_token_spent};
ghost use Rattle.strm_links.specs.ChainLists.{nodes_at};

use super::{Blocks, Fields, fields_at, onward};
use crate::token::Token;
use strm_data::Data;
use strm_links::Chained;

// Removes the references of the first `count` blocks of a held message, first to last. Most messages have one block, for
// which no loop runs.
#[inline(always)]
pub(super) fn drop_references(chains: &Chained<Fields>, stored: &mut Data, head: u32, count: u32)
    requires begun { slice_get (nodes_at chains.now.lists head) 0 ≡ Some head }
    requires count { count ≤ length (nodes_at chains.now.lists head) }
    requires blocks { length chains.now.loads ≡ length chains.now.lists.held }
    requires there { (n : ℕ) → n < length chains.now.loads → (fields_at chains.now.loads n).data_number
        < length stored.old.store.blocks }
    requires named { (d : ℕ) → times d (take count (data_used_by chains.now.loads (nodes_at chains.now.lists head)))
        ≤ count_of stored.old d }
    requires kept { IsKept stored.old }
    ensures after { stored.new ≡ with_references_dropped
        (take count (data_used_by chains.now.loads (nodes_at chains.now.lists head)))
        stored.old }
    ensures kept { IsKept stored.new }
{
    if count == 0 {
        return;
    }
    stored.drop_name(fields_at(chains, head).data_number);
    let mut node = onward(chains, head);
    for _block in 1..count {
        stored.drop_name(fields_at(chains, node).data_number);
        node = onward(chains, node);
    }
}

impl Blocks {
    /// Frees a message: its blocks, first to last, each to the front of the free list. In the same order, each data
    /// block that loses its last reference is freed, to the front of its class's list. A token that these blocks do not
    /// have is spent, and nothing else changes. Takes two steps for each block.
    pub fn freemsg(&mut self, token: Token)
        ensures { Spends itself token (with_token_spent self.old token) self.old self.new }
    {
        if self.has(&token) {
            self.free_held(token);
        } else {
            token.forget();
        }
    }

    /// Frees a message as [`Blocks::freemsg`] does, where these blocks have its token. That saves the test.
    #[inline(always)]
    pub fn free_held(&mut self, token: Token)
        requires { IsTrue (has self.old token) }
        ensures { Spends itself token (freemsg token.head self.old) self.old self.new }
    {
        if token.blocks() == 1 {
            self.free_counted(token, 1);
        } else {
            self.free_apart(token);
        }
    }

    // Frees a message of more than one block. Compiled apart, so that most calls of `free_held` have no loop.
    #[inline(never)]
    fn free_apart(&mut self, token: Token)
        requires { IsTrue (has self.old token) }
        ensures { Spends itself token (freemsg token.head self.old) self.old self.new }
    {
        let blocks = token.blocks();
        self.free_counted(token, blocks);
    }

    // Frees a message with this number of blocks.
    #[inline(always)]
    fn free_counted(&mut self, token: Token, blocks: u32)
        requires had { IsTrue (has self.old token) }
        requires blocks { blocks ≡ token.blocks }
        ensures { Spends itself token (freemsg token.head self.old) self.old self.new }
    {
        let token = token.spend();
        drop_references(&self.chains, &mut self.data, token.head, blocks);
        self.chains.free(token.head, blocks);
    }

    /// Frees the first block of a message, to the front of the free list. If its data block loses its last reference, it
    /// is freed too, to the front of its class's list. The other blocks become a message of their own, whose token is
    /// returned; none if there are no others. They keep what they store. Takes constant time.
    pub fn freeb(&mut self, token: Token) -> Option<Token>
        requires { IsTrue (has self.old token) }
        ensures { Frees itself token (Ok (model.freeb token.head self.old)) self.old self.new (Ok result) }
    {
        self.lawful();
        let mut first = token;
        let rest = self.unlinkb(&mut first);
        self.freemsg(first);
        rest
    }
}
