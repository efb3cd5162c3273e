//! Bytes of a held message are overwritten in place, across its blocks.
ghost use Rattle.std.specs.Prelude.{◌≡◌, ◌<◌, ℕ, IsTrue, Some, length, nat_lt, slice_get};
ghost use Rattle.strm_data.specs.CountedStore.{IsKept};
ghost use Rattle.strm_data.specs.DataStore.{capacity_of};
ghost use Rattle.strm_mblk.specs.Arena.{has, message_at};
ghost use Rattle.strm_mblk.specs.Block.{size_of};
ghost use Rattle.strm_mblk.specs.BlocksLayout.{IsPlaced, fields_at, message_of};
ghost use Rattle.strm_mblk.specs.Calls.{Alters, itself};
ghost use Rattle.strm_mblk.specs.InPlace as model;
ghost use Rattle.strm_links.specs.ChainLists.{nodes_at};

use super::finding::find_byte;
use super::{Blocks, Fields, fields_at, onward};
use crate::token::Token;
use strm_data::{Data, Refusal};
use strm_links::Chained;

// Writes bytes over those of a message, from place `at` on. `count` is the number of its blocks.
fn overwrite_blocks(
    chains: &Chained<Fields>,
    stored: &mut Data,
    head: u32,
    count: u32,
    at: u32,
    bytes: &[u8],
)
    requires begun { slice_get (nodes_at chains.now.lists head) 0 ≡ Some head }
    requires count { length (nodes_at chains.now.lists head) ≡ count }
    requires listed { length chains.now.loads ≡ length chains.now.lists.held }
    requires placed { (n : ℕ) → n < length chains.now.loads → IsPlaced stored.old.store (fields_at chains.now.loads n) }
    requires kept { IsKept stored.old }
    ensures after { stored.new ≡ record stored.old {
      store = model.store_overwritten at bytes.now
          (message_of chains.now.loads (nodes_at chains.now.lists head)) stored.old.store;
    } }
    ensures blocks { length stored.new.store.blocks ≡ length stored.old.store.blocks }
    ensures rooms { (d : ℕ) → capacity_of stored.new.store d ≡ capacity_of stored.old.store d }
    ensures kept { IsKept stored.new }
{
    let mut skip = at;
    let mut rest = bytes;
    let mut node = head;
    for _block in 0..count {
        if rest.len() == 0 {
            return;
        }
        let fields = fields_at(chains, node);
        let here = rest.len().min(fields.len.saturating_sub(skip) as usize);
        let (now, behind) = rest.split_at(here);
        stored.write(
            fields.data_number,
            fields.offset + skip.min(fields.len),
            now,
        );
        rest = behind;
        skip = skip.saturating_sub(fields.len);
        node = onward(chains, node);
    }
}

impl Blocks {
    // Whether a message has fewer bytes than this. Takes a step for each block up to the one that has the last of them.
    fn is_shorter(&self, token: &Token, count: usize) -> bool
        requires { IsTrue (has self.now token.now) }
        ensures { result ≡ nat_lt (size_of (message_at self.now token.now.head)) count }
    {
        let mut left = count;
        let mut node = token.head();
        for _block in 0..token.blocks() {
            let len = fields_at(&self.chains, node).len as usize;
            if left <= len {
                return false;
            }
            left -= len;
            node = onward(&self.chains, node);
        }
        left > 0
    }

    // Whether one of `count` bytes of a message, from place `at` on, is in a data block that another block uses.
    fn touches_shared(&self, token: &Token, at: u32, count: usize) -> bool
        requires { IsTrue (has self.now token.now) }
        ensures { result ≡ model.touches_shared self.now at count (message_at self.now token.now.head) }
    {
        let mut skip = at;
        let mut left = count;
        let mut node = token.head();
        for _block in 0..token.blocks() {
            if left == 0 {
                return false;
            }
            let fields = fields_at(&self.chains, node);
            let here = left.min(fields.len.saturating_sub(skip) as usize);
            if here > 0 && self.data.count(fields.data_number) > 1 {
                return true;
            }
            left -= here;
            skip = skip.saturating_sub(fields.len);
            node = onward(&self.chains, node);
        }
        false
    }

    // Does what `overwrite` does, block by block. Compiled apart, so that most calls of `overwrite` have no loop.
    #[inline(never)]
    fn overwrite_across(&mut self, token: &Token, at: u32, bytes: &[u8]) -> Result<(), Refusal>
        requires { IsTrue (has self.old token.now) }
        ensures { Alters itself token.now token.now (model.overwrite token.now.head at bytes.now self.old)
            self.old self.new result }
    {
        if self.is_shorter(token, at as usize + bytes.len()) {
            return Err(Refusal::Short);
        }
        if self.touches_shared(token, at, bytes.len()) {
            return Err(Refusal::Shared);
        }
        overwrite_blocks(
            &self.chains,
            &mut self.data,
            token.head(),
            token.blocks(),
            at,
            bytes,
        );
        Ok(())
    }

    /// Writes `bytes` over those of a message, from byte `at` on. Places count over all blocks. All bytes are written or
    /// none. All else stays unchanged.
    ///
    /// Refused as `Short` if `at` and the number of bytes to write are together more than the message has. Then refused as
    /// `Shared` if another message block, also one of this message, refers to the data block of one of the bytes. On an
    /// error nothing changes. Takes at most four steps for each block up to the last one that is written, and a copy of the
    /// bytes. In STREAMS, modules do this by hand (`b_rptr`, `b_cont`).
    pub fn overwrite(&mut self, token: &Token, at: u32, bytes: &[u8]) -> Result<(), Refusal>
        requires { IsTrue (has self.old token.now) }
        ensures { Alters itself token.now token.now (model.overwrite token.now.head at bytes.now self.old)
            self.old self.new result }
    {
        self.chains.finds_chains();
        let start = find_byte(&self.chains, token.head(), at);
        let fields = fields_at(&self.chains, start.node);
        if start.at as usize + bytes.len() > fields.len as usize {
            return self.overwrite_across(token, at, bytes);
        }
        if bytes.len() > 0 && self.data.count(fields.data_number) > 1 {
            return Err(Refusal::Shared);
        }
        self.write_data(fields.data_number, fields.offset + start.at, bytes);
        Ok(())
    }
}
