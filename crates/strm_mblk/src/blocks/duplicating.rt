//! Duplicates: new messages over the same data blocks.
ghost use Rattle.std.specs.Prelude.{◌≡◌, ◌⊎◌, ℕ, ◌+◌, ◌<◌, ◌≤◌, IsTrue, Some, if◌then◌else◌, length, map, not, slice_get, take};
ghost use Rattle.strm_data.specs.CountedStore.{IsKept, count_of};
ghost use Rattle.strm_data.specs.DataStore.{times};
ghost use Rattle.strm_mblk.specs.Arena.{has, message_at};
ghost use Rattle.strm_mblk.specs.BlockCalls as model;
ghost use Rattle.strm_mblk.specs.BlocksLayout.{exceeds_counts, fields_at, data_used_by, with_fields, with_references_given};
ghost use Rattle.strm_mblk.specs.Calls.{Gives, itself};
ghost use Rattle.strm_links.specs.ChainLists.{nodes_at};

use super::freeing::drop_references;
use super::{Blocks, Fields, fields_at, onward};
use crate::token::Token;
use strm_data::{Data, MOST_REFERENCES, Refusal};
use strm_links::Chained;

// Adds a reference to the data block of each of the first `count` blocks of a held message, first to last. Returns false,
// and leaves all data blocks unchanged, if one would have more than `MOST_REFERENCES` references.
#[inline(always)]
fn give_references(chains: &Chained<Fields>, stored: &mut Data, head: u32, count: u32) -> bool
    requires begun { slice_get (nodes_at chains.now.lists head) 0 ≡ Some head }
    requires count { count ≤ length (nodes_at chains.now.lists head) }
    requires blocks { length chains.now.loads ≡ length chains.now.lists.held }
    requires there { (n : ℕ) → n < length chains.now.loads → (fields_at chains.now.loads n).data_number
        < length stored.old.store.blocks }
    requires used { (d : ℕ) → 0 < times d (data_used_by chains.now.loads (nodes_at chains.now.lists head))
        → 0 < count_of stored.old d }
    requires kept { IsKept stored.old }
    ensures answer { result ≡ not (exceeds_counts
        (take count (data_used_by chains.now.loads (nodes_at chains.now.lists head)))
        stored.old) }
    ensures after { stored.new ≡ (if result then with_references_given
        (take count (data_used_by chains.now.loads (nodes_at chains.now.lists head))) stored.old else stored.old) }
    ensures kept { IsKept stored.new }
{
    let mut node = head;
    for given in 0..count {
        let data_number = fields_at(chains, node).data_number;
        if stored.count(data_number) == MOST_REFERENCES {
            drop_references(chains, stored, head, given);
            return false;
        }
        stored.name(data_number);
        node = onward(chains, node);
    }
    true
}

// Copies the fields of the first `count` blocks of a held message to the blocks of another, which has as many.
#[inline(always)]
fn copy_fields(chains: &mut Chained<Fields>, from: u32, to: u32, count: u32)
    requires from { slice_get (nodes_at chains.old.lists from) 0 ≡ Some from }
    requires to { slice_get (nodes_at chains.old.lists to) 0 ≡ Some to }
    requires enough { count ≤ length (nodes_at chains.old.lists from) }
    requires count { count ≡ length (nodes_at chains.old.lists to) }
    requires blocks { length chains.old.loads ≡ length chains.old.lists.held }
    requires apart { (n : ℕ) → times n (nodes_at chains.old.lists from) + times n (nodes_at chains.old.lists to) ≤ 1 }
    ensures lists { chains.new.lists ≡ chains.old.lists }
    ensures loads { chains.new.loads ≡ with_fields (nodes_at chains.old.lists to)
        (map (fields_at chains.old.loads) (take count (nodes_at chains.old.lists from))) chains.old.loads }
{
    let mut read = from;
    let mut written = to;
    for _block in 0..count {
        let said = fields_at(chains, read);
        chains.set_load(written, said);
        read = onward(chains, read);
        written = onward(chains, written);
    }
}

impl Blocks {
    // Makes a message of new blocks for the first `count` blocks of this message, as `dupmsg` does for all of them.
    #[inline(always)]
    fn duplicate(&mut self, token: &Token, count: u32) -> Result<Token, Refusal>
        requires had { IsTrue (has self.old token.now) }
        requires count { (count ≡ 1) ⊎ (count ≡ token.now.blocks) }
        ensures { Gives itself (Some token.now) (model.message_duplicated
            (take count (message_at self.old token.now.head))
            self.old) self.old self.new result }
    {
        if self.chains.free_len() < count {
            return Err(Refusal::NoMblk);
        }
        let from = token.head();
        if !give_references(&self.chains, &mut self.data, from, count) {
            return Err(Refusal::RefMax);
        }
        let head = self.chains.begin_all(count);
        copy_fields(&mut self.chains, from, head, count);
        Ok(self.token(head))
    }

    /// Makes a message of one new block, the first free one, and returns its token. The new block has the data block,
    /// places and band of this message's first block.
    ///
    /// Refused as `NoMblk` if no message block is free, then as `RefMax` if the data block has `MOST_REFERENCES`
    /// references. On an error nothing changes. Takes constant time.
    pub fn dupb(&mut self, token: &Token) -> Result<Token, Refusal>
        requires { IsTrue (has self.old token.now) }
        ensures { Gives itself (Some token.now) (model.dupb token.now.head self.old) self.old self.new result }
    {
        self.duplicate(token, 1)
    }

    /// Makes a message of new blocks, the first free ones in order, one for each block of this message, and returns its
    /// token. Each has the data block, places and band of its old block. All blocks are duplicated or none.
    ///
    /// Refused as `NoMblk` if fewer message blocks are free than the message has, then as `RefMax` if a data block would
    /// have more than `MOST_REFERENCES` references. On an error nothing changes. Takes at most three steps for
    /// each block.
    pub fn dupmsg(&mut self, token: &Token) -> Result<Token, Refusal>
        requires { IsTrue (has self.old token.now) }
        ensures { Gives itself (Some token.now) (model.dupmsg token.now.head self.old) self.old self.new result }
    {
        match token.blocks() {
            // Most messages have one block, for which no loop runs.
            1 => self.duplicate(token, 1),
            count => self.duplicate(token, count),
        }
    }
}
