//! Blocks of messages by place, or by a byte: how calls find them, change their bytes and move their places.
ghost use Rattle.std.specs.Prelude.{◌≡◌, ◌+◌, ◌<◌, ◌≤◌, ℕ, IfOk, IsTrue, Some, length, slice_get};
ghost use Rattle.std.specs.Fn.{FnOnceReturnsAtMut, FnOnceTakesAtMut};
ghost use Rattle.strm_data.specs.DataStore.{bytes_at, capacity_of};
ghost use Rattle.strm_data.specs.Lending.{Edits};
ghost use Rattle.strm_links.specs.ChainLists.{chain_of};
ghost use Rattle.strm_mblk.specs.Arena.{has, message_at};
ghost use Rattle.strm_mblk.specs.Block.{Block};
ghost use Rattle.strm_mblk.specs.BlockCalls as model;
ghost use Rattle.strm_mblk.specs.BlockCalls.{info_of};
ghost use Rattle.strm_mblk.specs.BlocksLayout.{IsFoundIn, IsPlaced, IsStart, Suits, block_of, block_of_found};
ghost use Rattle.strm_mblk.specs.Given.{answer_map};

use super::{Blocks, Fields, fields_at, node_at};
use crate::block_info::BlockInfo;
use crate::token::Token;
use strm_data::Refusal;
use strm_links::Chained;

// A block of a held message, with the capacity of its data block.
#[derive(Clone, Copy, Debug)]
pub(super) struct Found {
    pub(super) node: u32,
    pub(super) fields: Fields,
    pub(super) capacity: u32,
}

// Where the bytes of a message from some byte on begin: the number of a block, its place in the message, and the place there.
#[derive(Clone, Copy, Debug)]
pub(super) struct Start {
    pub(super) node: u32,
    pub(super) block: u32,
    pub(super) at: u32,
}

// Finds the block that has byte `at` of a message, held or on a shelf, or if none has, the last block. Takes a step for each
// block before it. Most messages have one block, for which no loop runs.
#[inline(always)]
pub(super) fn find_byte(chains: &Chained<Fields>, head: u32, at: u32) -> Start
    requires begins { slice_get (chain_of chains.now.lists head) 0 ≡ Some head }
    requires there { head < length chains.now.lists.held }
    requires listed { length chains.now.loads ≡ length chains.now.lists.held }
    ensures { IsStart chains.now.lists chains.now.loads head at result }
{
    let last = chains.len(head) - 1;
    let mut node = head;
    let mut skip = at;
    for block in 0..last {
        let len = fields_at(chains, node).len;
        if skip < len {
            return Start {
                node,
                block,
                at: skip,
            };
        }
        skip -= len;
        node = chains.next(node).unwrap_or(u32::MAX);
    }
    Start {
        node,
        block: last,
        at: skip,
    }
}

impl Blocks {
    // Finds a message's block `place`. Takes at most `place` steps.
    pub(super) fn found(&self, token: &Token, place: u32) -> Result<Found, Refusal>
        requires { IsTrue (has self.now token.now) }
        ensures answer { answer_map block_of_found result ≡ model.block_found token.now.head place self.now }
        ensures within { IfOk result (IsFoundIn self.now.store) }
    {
        let Some(node) = node_at(&self.chains, token.head(), place) else {
            return Err(Refusal::NoSuchBlock);
        };
        let fields = fields_at(&self.chains, node);
        Ok(Found {
            node,
            fields,
            capacity: self.data.cap(fields.data_number),
        })
    }

    // Finds a message's block `place`, if no other block uses its data block. Takes at most `place` steps.
    pub(super) fn own(&self, token: &Token, place: u32) -> Result<Found, Refusal>
        requires { IsTrue (has self.now token.now) }
        ensures answer { answer_map block_of_found result ≡ model.own_block token.now.head place self.now }
        ensures within { IfOk result (IsFoundIn self.now.store) }
    {
        let found = self.found(token, place)?;
        if self.data.count(found.fields.data_number) > 1 {
            return Err(Refusal::Shared);
        }
        Ok(found)
    }

    // What `block` returns of a block with these fields.
    pub(super) fn info(&self, fields: Fields) -> BlockInfo
        requires { IsPlaced self.now.store fields }
        ensures { (n : ℕ) → result ≡ info_of self.now (block_of n fields) }
    {
        BlockInfo {
            kind: self.data.kind(fields.data_number),
            len: fields.len,
            band: fields.band,
            room: self.data.cap(fields.data_number) - (fields.offset + fields.len),
            names: self.data.count(fields.data_number),
        }
    }

    // Gives a block of a held message other fields, with the same data block. All else stays unchanged.
    pub(super) fn set_fields(&mut self, node: u32, fields: Fields)
        requires { Suits self.old node fields }
        ensures { (h k : ℕ) (b : Block) → slice_get (message_at self.old h) k ≡ Some b → b.number ≡ node
            → self.new ≡ model.with_block h k (block_of node fields) self.old }
    {
        self.chains.set_load(node, fields);
    }

    // Lends bytes of a data block to `change`. All else stays unchanged.
    pub(super) fn edit_data<R, F: FnOnce(&mut [u8]) -> R>(
        &mut self,
        data_number: u32,
        at: u32,
        len: usize,
        change: F,
    ) -> R
        requires there { data_number < length self.old.store.blocks }
        requires room { at + len ≤ capacity_of self.old.store data_number }
        requires callable { FnOnceTakesAtMut F.FnOnce change (bytes_at data_number at len self.old.store) }
        ensures { Edits (FnOnceReturnsAtMut F.FnOnce change) (bytes_at data_number at len self.old.store) result
            (λ bytes. self.new ≡ model.with_bytes data_number at bytes self.old) }
    {
        self.data.edit(data_number, at, len, change)
    }

    // Overwrites bytes of a data block. All else stays unchanged.
    pub(super) fn write_data(&mut self, data_number: u32, at: u32, bytes: &[u8])
        requires there { data_number < length self.old.store.blocks }
        requires room { at + length bytes.now ≤ capacity_of self.old.store data_number }
        ensures { self.new ≡ model.with_bytes data_number at bytes.now self.old }
    {
        self.data.write(data_number, at, bytes);
    }
}
