//! Shelves, numbered from 0 on: lists of messages, which the layer above uses for its queues.
ghost use Rattle.std.specs.Prelude.{Ok, ◌≡◌, ◌-◌, ◌++◌, ◌<◌, ℕ, IsSome, IsTrue, Some, drop, is_some, length, min, option_map, reverse, take};
ghost use Rattle.std.specs.Option.{ForSome};
ghost use Rattle.strm_links.specs.Rows as rows;
ghost use Rattle.strm_mblk.specs.Arena.{has};
ghost use Rattle.strm_mblk.specs.Block.{bytes_of, kind_of, size_of};
ghost use Rattle.strm_mblk.specs.Calls.{Puts, Takes, itself};
ghost use Rattle.strm_mblk.specs.Given.{given_nothing};
ghost use Rattle.strm_mblk.specs.Shelves as model;
ghost use Rattle.strm_mblk.specs.Shelves.{head_block, heads_at, shelf_of, shelved_message, is_on};

use super::reading::{read_bytes, sum_of_lengths};
use super::{BlockNo, Blocks, fields_at, len};
use crate::token::Token;
use strm_data::MsgType;

impl Blocks {
    /// Returns the head of the first message on a shelf, or none if the shelf is empty. Changes nothing.
    pub fn first(&self, shelf: u8) -> Option<BlockNo>
        requires { shelf < length self.now.shelves }
        ensures { result ≡ rows.first (heads_at self.now shelf) }
    {
        self.chains.first(u32::from(shelf))
    }

    /// Returns the head of the last message on a shelf, or none if the shelf is empty. Changes nothing.
    pub fn last(&self, shelf: u8) -> Option<BlockNo>
        requires { shelf < length self.now.shelves }
        ensures { result ≡ rows.last (heads_at self.now shelf) }
    {
        self.chains.last(u32::from(shelf))
    }

    /// Returns the shelf that has a message with this head, or none if no shelf has one. Changes nothing. Takes constant
    /// time.
    pub fn shelf_of(&self, head: BlockNo) -> Option<u32>
        ensures { result ≡ shelf_of self.now head }
    {
        if head as usize >= self.chains.node_count() {
            return None;
        }
        self.chains.shelf_of(head)
    }

    /// Says whether a message with this head is on a shelf. Changes nothing. Takes constant time.
    pub fn is_shelved(&self, head: BlockNo) -> bool
        ensures { result ≡ is_some (shelf_of self.now head) }
    {
        self.shelf_of(head).is_some()
    }

    /// Returns the head of the message after this one on its shelf, or none if this is the last. Changes nothing.
    pub fn after(&self, head: BlockNo) -> Option<BlockNo>
        requires { IsSome (shelf_of self.now head) }
        ensures { (shelf : ℕ) → IsTrue (is_on self.now shelf head)
            → result ≡ rows.after head (heads_at self.now shelf) }
    {
        self.chains.after(head)
    }

    /// Returns the head of the message before this one on its shelf, or none if this is the first. Changes nothing.
    pub fn before(&self, head: BlockNo) -> Option<BlockNo>
        requires { IsSome (shelf_of self.now head) }
        ensures { (shelf : ℕ) → IsTrue (is_on self.now shelf head)
            → result ≡ rows.before head (heads_at self.now shelf) }
    {
        self.chains.before(head)
    }

    /// Law: each shelf reads alike both ways: `after` from its first head leads along its heads, and `before` from its
    /// last head along their reverse. No head is on it twice. Does nothing.
    pub fn reads_alike(&self)
        ensures forward { (shelf : ℕ) → let heads = heads_at self.now shelf in
            rows.Reads (λ head. rows.after head heads) (rows.first heads) heads }
        ensures backward { (shelf : ℕ) → let heads = heads_at self.now shelf in
            rows.Reads (λ head. rows.before head heads) (rows.last heads) (reverse heads) }
        ensures apart { (shelf : ℕ) → rows.IsApart (heads_at self.now shelf) }
    {
        let _ = &self.chains;
    }

    /// Puts a held message on a shelf, before the message with head `before`, which is on that shelf, or last if `before`
    /// is none. The shelf's other messages keep their order, and all blocks keep what they store. Takes constant time.
    pub fn shelve(&mut self, shelf: u8, before: Option<BlockNo>, token: Token)
        requires shelf { shelf < length self.old.shelves }
        requires had { IsTrue (has self.old token) }
        requires before { ForSome before (λ at. IsTrue (is_on self.old shelf at)) }
        ensures { Puts itself token (given_nothing (model.shelve shelf before token.head self.old)) self.old self.new
            (Ok tt) }
    {
        let head = token.spend().head;
        let blocks = len(&self.chains, head);
        self.chains.shelve(u32::from(shelf), before, head);
        self.queued += blocks;
    }

    /// Takes the message with this head off its shelf, and returns its token. The shelf's other messages keep their
    /// order, and all blocks keep what they store. Takes constant time.
    pub fn unshelve(&mut self, shelf: u8, head: BlockNo) -> Token
        requires shelf { shelf < length self.old.shelves }
        requires there { IsTrue (is_on self.old shelf head) }
        ensures { Takes itself (Ok (head, model.unshelve shelf head self.old)) self.old self.new (Ok result) }
    {
        self.chains.unshelve(u32::from(shelf), head);
        let blocks = len(&self.chains, head);
        self.queued -= blocks;
        self.token_of(head, blocks)
    }

    /// Returns the type of the first block of a message on a shelf. Changes nothing.
    pub fn head_kind(&self, head: BlockNo) -> MsgType
        requires { IsSome (shelf_of self.now head) }
        ensures { option_map (kind_of self.now.store) (head_block self.now head) ≡ Some result }
    {
        self.data.kind(fields_at(&self.chains, head).data_number)
    }

    /// Returns the band of the first block of a message on a shelf. Changes nothing.
    pub fn head_band(&self, head: BlockNo) -> u8
        requires { IsSome (shelf_of self.now head) }
        ensures { option_map (λ b. b.band) (head_block self.now head) ≡ Some result }
    {
        fields_at(&self.chains, head).band
    }

    /// Returns the number of blocks of a message on a shelf. Changes nothing. Takes constant time.
    pub fn head_blocks(&self, head: BlockNo) -> u32
        requires { IsSome (shelf_of self.now head) }
        ensures { result ≡ length (shelved_message self.now head) }
    {
        self.chains.finds_chains();
        self.chains.len(head)
    }

    /// Copies the bytes of a message on a shelf, as [`Blocks::read`] copies those of a held message, at the same cost.
    pub fn read_shelved(&self, head: BlockNo, at: u32, into: &mut [u8]) -> usize
        requires { IsSome (shelf_of self.now head) }
        ensures count { result ≡ min (length into.old) (size_of (shelved_message self.now head) - at) }
        ensures bytes { into.new ≡ take result (drop at (bytes_of self.now.store (shelved_message self.now head)))
            ++ drop result into.old }
    {
        self.chains.finds_chains();
        read_bytes(&self.chains, &self.data, head, at, into)
    }

    /// Returns the number of bytes of a message on a shelf. Changes nothing. Takes a step for each block.
    pub fn head_size(&self, head: BlockNo) -> u32
        requires { IsSome (shelf_of self.now head) }
        ensures { result ≡ size_of (shelved_message self.now head) }
    {
        self.chains.finds_chains();
        sum_of_lengths(&self.chains, &self.data, head, false)
    }
}
