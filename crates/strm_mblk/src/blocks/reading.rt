//! The sizes of held messages, and their bytes.
ghost use Rattle.std.specs.Prelude.{◌≡◌, ◌<◌, ◌-◌, ◌++◌, ℕ, IsTrue, drop, length, min, sum_by, take};
ghost use Rattle.strm_data.specs.CountedStore.{IsKept};
ghost use Rattle.strm_mblk.specs.Arena.{has, message_at};
ghost use Rattle.strm_links.specs.ChainLists.{chain_of};
ghost use Rattle.strm_mblk.specs.BlocksLayout.{IsPlaced, IsReadable, IsSummable, block_of, message_of};
ghost use Rattle.strm_mblk.specs.Block.{bytes_of, bytes_of_block, data_size_of, len_counted, size_of};

use super::finding::find_byte;
use super::{Blocks, Fields, fields_at};
use crate::token::Token;
use strm_data::{Data, MsgType};
use strm_links::Chained;

// The bytes of a message block that count: all of them, or with `data_alone` only those of an M_DATA block.
fn length_of(stored: &Data, fields: Fields, data_alone: bool) -> u32
    requires { fields.data_number < length stored.now.store.blocks }
    ensures { (n : ℕ) → result ≡ len_counted data_alone stored.now.store (block_of n fields) }
{
    if !data_alone {
        return fields.len;
    }
    let is_data = stored.kind(fields.data_number) == MsgType::MData;
    if is_data { fields.len } else { 0 }
}

// Adds up the lengths of a message's blocks, or with `data_alone` of its M_DATA blocks only. Takes a step for each block.
// Most messages have one block, for which no loop runs.
pub(super) fn sum_of_lengths(
    chains: &Chained<Fields>,
    stored: &Data,
    head: u32,
    data_alone: bool,
) -> u32
    requires { IsSummable chains.now.lists chains.now.loads stored.now.store head }
    ensures { result ≡ sum_by (len_counted data_alone stored.now.store)
        (message_of chains.now.loads (chain_of chains.now.lists head)) }
{
    // Each step finds a block, so `u32::MAX`, which means none, is never used; that saves a branch.
    let mut sum = length_of(stored, fields_at(chains, head), data_alone);
    let mut node = head;
    for _block in 1..chains.len(head) {
        node = chains.next(node).unwrap_or(u32::MAX);
        sum += length_of(stored, fields_at(chains, node), data_alone);
    }
    sum
}

// Copies the bytes of a message block from place `at` on into `into`, as far as both reach, and returns their number.
fn read_block(stored: &Data, fields: Fields, at: u32, into: &mut [u8]) -> usize
    requires kept { IsKept stored.now }
    requires placed { IsPlaced stored.now.store fields }
    ensures count { result ≡ min (length into.old) (fields.len - at) }
    ensures bytes { (n : ℕ) → into.new ≡ take result (drop at (bytes_of_block stored.now.store (block_of n fields)))
        ++ drop result into.old }
{
    let skipped = at.min(fields.len);
    let count = into.len().min((fields.len - skipped) as usize);
    stored.read(
        fields.data_number,
        fields.offset + skipped,
        &mut into[..count],
    );
    count
}

// Copies the bytes of a message from place `at` on into `into`, as far as both reach, and returns their number. Takes a
// step and at most one slice copy for each block up to the last one that is read.
// Most messages have one block, for which no loop runs.
pub(super) fn read_bytes(
    chains: &Chained<Fields>,
    stored: &Data,
    head: u32,
    at: u32,
    into: &mut [u8],
) -> usize
    requires { IsReadable chains.now.lists chains.now.loads stored.now head }
    ensures count { result ≡ min (length into.old)
        (size_of (message_of chains.now.loads (chain_of chains.now.lists head)) - at) }
    ensures bytes { into.new ≡ take result
        (drop at (bytes_of stored.now.store (message_of chains.now.loads (chain_of chains.now.lists head))))
        ++ drop result into.old }
{
    if chains.len(head) == 1 {
        return read_block(stored, fields_at(chains, head), at, into);
    }
    read_across(chains, stored, head, at, into)
}

// Does what `read_bytes` does, block by block from the one that has byte `at` on.
#[inline(never)]
fn read_across(
    chains: &Chained<Fields>,
    stored: &Data,
    head: u32,
    at: u32,
    into: &mut [u8],
) -> usize
    requires { IsReadable chains.now.lists chains.now.loads stored.now head }
    ensures count { result ≡ min (length into.old)
        (size_of (message_of chains.now.loads (chain_of chains.now.lists head)) - at) }
    ensures bytes { into.new ≡ take result
        (drop at (bytes_of stored.now.store (message_of chains.now.loads (chain_of chains.now.lists head))))
        ++ drop result into.old }
{
    let start = find_byte(chains, head, at);
    let mut skip = start.at;
    let mut done = 0;
    let mut node = start.node;
    for _block in start.block..chains.len(head) {
        if done == into.len() {
            return done;
        }
        let fields = fields_at(chains, node);
        done += read_block(stored, fields, skip, &mut into[done..]);
        skip = skip.saturating_sub(fields.len);
        node = chains.next(node).unwrap_or(u32::MAX);
    }
    done
}

impl Blocks {
    // Adds up the lengths of a held message's blocks, as `sum_of_lengths` does.
    fn sum_of_held(&self, token: &Token, data_alone: bool) -> u32
        requires { IsTrue (has self.now token.now) }
        ensures { result ≡ sum_by (len_counted data_alone self.now.store) (message_at self.now token.now.head) }
    {
        self.chains.finds_chains();
        sum_of_lengths(&self.chains, &self.data, token.head(), data_alone)
    }

    /// Returns the number of bytes of a message, over all its blocks. Changes nothing. Takes a step for each block.
    pub fn size(&self, token: &Token) -> u32
        requires { IsTrue (has self.now token.now) }
        ensures { result ≡ size_of (message_at self.now token.now.head) }
    {
        self.sum_of_held(token, false)
    }

    /// Returns the number of bytes of a message in its blocks of type M_DATA. Changes nothing. Takes a step for each
    /// block.
    pub fn msgdsize(&self, token: &Token) -> u32
        requires { IsTrue (has self.now token.now) }
        ensures { result ≡ data_size_of self.now.store (message_at self.now token.now.head) }
    {
        self.sum_of_held(token, true)
    }

    /// Copies the bytes of a message from place `at` on into `into`, as far as both reach, and returns their number.
    /// Places count over all blocks. The rest of `into` stays unchanged, and nothing else changes. Takes a step and at
    /// most one slice copy for each block up to the last one that is read.
    pub fn read(&self, token: &Token, at: u32, into: &mut [u8]) -> usize
        requires { IsTrue (has self.now token.now) }
        ensures count { result ≡ min (length into.old) (size_of (message_at self.now token.now.head) - at) }
        ensures bytes { into.new ≡ take result (drop at (bytes_of self.now.store (message_at self.now token.now.head)))
            ++ drop result into.old }
        // The number of a message's bytes is its size.
        ensures sized { length (bytes_of self.now.store (message_at self.now token.now.head))
            ≡ size_of (message_at self.now token.now.head) }
    {
        self.chains.finds_chains();
        read_bytes(&self.chains, &self.data, token.head(), at, into)
    }
}
