//! Bytes are removed at an end of a message: `adjmsg`.
ghost use Rattle.std.specs.Prelude.{◌≡◌, ◌+◌, ◌-◌, ◌≤◌, ◌^◌, ◌<◌, ℕ, IsTrue, Some, drop, if◌then◌else◌, length, slice_get};
ghost use Rattle.strm_mblk.specs.Arena.{has, message_at};
ghost use Rattle.strm_mblk.specs.Block.{size_of};
ghost use Rattle.strm_mblk.specs.BlocksLayout.{fields_at, message_of};
ghost use Rattle.strm_mblk.specs.Cutting.{IsRun, IsTail, fields_cut, run_with, with_bytes_cut};
ghost use Rattle.strm_mblk.specs.Calls.{Alters, itself};
ghost use Rattle.strm_links.specs.ChainLists.{nodes_at};
ghost use Rattle.strm_mblk.specs.Trimming as model;
ghost use Rattle.strm_mblk.specs.Trimming.{run_of};

use super::{Blocks, Fields, fields_at, onward};
use crate::token::Token;
use strm_data::{Data, MsgType, Refusal};
use strm_links::Chained;

// A run: blocks of one type that follow each other in a message. It has the first of them, the number of blocks from
// there to the message's end, the number of the run's bytes, and its type.
#[derive(Clone, Copy, Debug)]
struct Run {
    first: u32,
    blocks: u32,
    size: u32,
    kind: MsgType,
}

impl Run {
    // The run with one more block, which is the first of the message's last `blocks` ones. If it has another type, it
    // begins a new run.
    fn with(self, node: u32, blocks: u32, kind: MsgType, len: u32) -> Run
        requires { self.size + len < 2 ^ 32 }
        ensures { result ≡ run_with node blocks kind len self }
    {
        if kind == self.kind {
            Run {
                size: self.size + len,
                ..self
            }
        } else {
            Run {
                first: node,
                blocks,
                size: len,
                kind,
            }
        }
    }

    // The number of the run's bytes before the cut, which removes `bytes` bytes at the tail or at the head.
    fn ahead(self, bytes: u32, from_tail: bool) -> u32
        requires { bytes ≤ self.size }
        ensures { result ≡ (if from_tail then self.size - bytes else bytes) }
    {
        if from_tail { self.size - bytes } else { bytes }
    }
}

// The run of leading blocks that have the first block's type, or with `from_tail` that of trailing blocks that have the
// last block's type. Walks from the first block on, at the head only to the end of the run.
fn run_in(chains: &Chained<Fields>, stored: &Data, head: u32, count: u32, from_tail: bool) -> Run
    requires begun { slice_get (nodes_at chains.now.lists head) 0 ≡ Some head }
    requires count { count ≡ length (nodes_at chains.now.lists head) }
    requires blocks { length chains.now.loads ≡ length chains.now.lists.held }
    requires there { (n : ℕ) → n < length chains.now.loads → (fields_at chains.now.loads n).data_number
        < length stored.now.store.blocks }
    requires small { size_of (message_of chains.now.loads (nodes_at chains.now.lists head)) < 2 ^ 32 }
    ensures { IsRun from_tail stored.now.store chains.now.loads (nodes_at chains.now.lists head) result }
{
    let data_number = fields_at(chains, head).data_number;
    let mut run = Run {
        first: head,
        blocks: count,
        size: 0,
        kind: stored.kind(data_number),
    };
    let mut node = head;
    for block in 0..count {
        let fields = fields_at(chains, node);
        let kind = stored.kind(fields.data_number);
        if !from_tail && kind != run.kind {
            return run;
        }
        run = run.with(node, count - block, kind, fields.len);
        node = onward(chains, node);
    }
    run
}

impl Fields {
    // The block without its first `bytes` bytes, or with `from_tail` only with these. Fewer if it has fewer.
    pub(super) fn cut(self, bytes: u32, from_tail: bool) -> Fields
        requires { self.offset + self.len < 2 ^ 32 }
        ensures { result ≡ fields_cut from_tail bytes self }
    {
        let ahead = bytes.min(self.len);
        let mut rest = self;
        if from_tail {
            rest.len = ahead;
        } else {
            rest.offset += ahead;
            rest.len -= ahead;
        }
        rest
    }
}

// Cuts `count` blocks of a held message, from `first` on. The first `bytes` bytes of these blocks are removed, or with
// `from_tail` all others. Each block loses those that it has.
fn cut(chains: &mut Chained<Fields>, first: u32, count: u32, bytes: u32, from_tail: bool)
    requires first { first < length chains.old.lists.held }
    requires tail { IsTail chains.old.lists first count }
    requires blocks { length chains.old.loads ≡ length chains.old.lists.held }
    requires small { (n : ℕ) → n < length chains.old.loads
        → (fields_at chains.old.loads n).offset + (fields_at chains.old.loads n).len
        < 2 ^ 32 }
    ensures lists { chains.new.lists ≡ chains.old.lists }
    ensures loads { (h i : ℕ) → slice_get (nodes_at chains.old.lists h) i ≡ Some first
        → i + count ≡ length (nodes_at chains.old.lists h)
        → chains.new.loads ≡ with_bytes_cut from_tail bytes (drop i (nodes_at chains.old.lists h)) chains.old.loads }
{
    let mut left = bytes;
    let mut node = first;
    for _block in 0..count {
        if left == 0 && !from_tail {
            return;
        }
        let fields = fields_at(chains, node);
        chains.set_load(node, fields.cut(left, from_tail));
        left = left.saturating_sub(fields.len);
        node = onward(chains, node);
    }
}

impl Blocks {
    // The number of bytes of the leading blocks that have the first block's type.
    pub(super) fn run_size(&self, token: &Token) -> u32
        requires { IsTrue (has self.now token.now) }
        ensures { result ≡ size_of (run_of self.now.store (message_at self.now token.now.head)) }
    {
        run_in(
            &self.chains,
            &self.data,
            token.head(),
            token.blocks(),
            false,
        )
        .size
    }

    /// Removes `count` bytes at a message's head or, if `count` is below 0, `-count` bytes at its tail. At the head they
    /// come from the leading blocks of the first block's type, whose read places rise. At the tail they come from the
    /// trailing blocks of the last block's type, whose write places fall. Nothing else changes: emptied blocks stay, and
    /// a data block can be shared. A count of 0 changes nothing.
    ///
    /// Refused as `Short` if these blocks have fewer bytes. On an error nothing changes. Takes at most two steps for
    /// each block.
    pub fn adjmsg(&mut self, token: &Token, count: i32) -> Result<(), Refusal>
        requires { IsTrue (has self.old token.now) }
        ensures { Alters itself token.now token.now (model.adjmsg token.now.head count self.old)
            self.old self.new result }
    {
        let from_tail = count.is_negative();
        let bytes = count.unsigned_abs();
        let run = run_in(
            &self.chains,
            &self.data,
            token.head(),
            token.blocks(),
            from_tail,
        );
        if run.size < bytes {
            return Err(Refusal::Short);
        }
        cut(
            &mut self.chains,
            run.first,
            run.blocks,
            run.ahead(bytes, from_tail),
            from_tail,
        );
        Ok(())
    }
}
