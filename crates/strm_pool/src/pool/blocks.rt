//! Calls on messages that tokens are for: each makes the call of strm_mblk with its name.
ghost use Rattle.std.specs.Prelude.{Ok, Err, Some, ◌≡◌, ◌-◌, ◌<◌, ◌++◌, None, IfErr, IfOk, IsTrue, drop, length, min, take};
ghost use Rattle.std.specs.Option.{option_map_or};
ghost use Rattle.strm_mblk.specs.Arena.{has, message_at};
ghost use Rattle.strm_mblk.specs.Block.{bytes_of, data_size_of, size_of};
ghost use Rattle.strm_mblk.specs.BlockCalls as blocks;
ghost use Rattle.strm_mblk.specs.BlockCalls.{IsSupplied, calls_supplied};
ghost use Rattle.strm_mblk.specs.Calls.{Alters, Frees, Gives, Joins, Parts, Spends, Transfers, Unlinks};
ghost use Rattle.strm_mblk.specs.Freeing as freeing;
ghost use Rattle.strm_mblk.specs.Given.{answer_of, given_nothing};
ghost use Rattle.strm_mblk.specs.Trimming as trimming;
ghost use Rattle.strm_pool.specs.Limits.{most_octets};
ghost use Rattle.strm_pool.specs.PoolValue.{arena, with_tokens_spent, on_arena, with_token_spent, with_arena};

use super::Pool;
use crate::limits::MOST_OCTETS;
use crate::regs::Regs;
use crate::short_list::Octets;
use arrayvec::ArrayVec;
use strm_data::{MsgType, Refusal};
use strm_mblk::{BlockInfo, Rejected, Supply, Token};

impl Pool {
    /// Makes a message of one block for `size` bytes. Refused as `TooLarge`, `NoMblk`, then `NoData`. As [`Blocks::allocb`]
    /// of strm_mblk.
    #[inline(always)]
    pub fn allocb(&mut self, size: u32) -> Result<Token, Refusal>
        ensures { Gives arena None (on_arena self.old (blocks.allocb size self.old.arena)) self.old self.new result }
    {
        let supply = self.supply(size)?;
        Ok(self.allocb_from(size, supply))
    }

    /// Returns the class from which `allocb` takes a data block for this size, and for how many calls. Refused as `allocb`
    /// would be. As [`Blocks::supply`] of strm_mblk.
    #[inline(always)]
    pub fn supply(&self, size: u32) -> Result<Supply, Refusal>
        ensures supply { IfOk result (IsSupplied size self.now.arena) }
        ensures count { IfOk result (λ supply. supply.count ≡ calls_supplied supply.class self.now.arena) }
        ensures some { IfOk result (λ supply. 0 < supply.count) }
        ensures refused { IfErr result (λ why. blocks.allocb size self.now.arena ≡ Err why) }
    {
        self.blocks.supply(size)
    }

    /// Makes a message as `allocb` does for this size, from a supply that `supply` returned, and returns its token. Each such
    /// call leaves the supply one call less. So a burst chooses the class once. As [`Blocks::allocb_from`] of strm_mblk.
    #[inline(always)]
    pub fn allocb_from(&mut self, size: u32, supply: Supply) -> Token
        requires supply { IsSupplied size self.old.arena supply }
        requires some { 0 < supply.count }
        ensures gives { Gives arena None (on_arena self.old (blocks.allocb size self.old.arena))
            self.old self.new (Ok result) }
        ensures supply { IsSupplied size self.new.arena (record supply { count = supply.count - 1 }) }
    {
        self.blocks.allocb_from(size, supply)
    }

    /// Says whether `allocb` would succeed for this size now. As [`Blocks::testb`] of strm_mblk.
    pub fn testb(&self, size: u32) -> bool
        ensures { result ≡ blocks.testb size self.now.arena }
    {
        self.blocks.testb(size)
    }

    /// Makes a message of one block that references the data of this message's first block. Refused as `NoMblk`, then
    /// `RefMax`. As [`Blocks::dupb`] of strm_mblk.
    pub fn dupb(&mut self, token: &Token) -> Result<Token, Refusal>
        requires { IsTrue (has self.old.arena token.now) }
        ensures { Gives arena (Some token.now) (on_arena self.old (blocks.dupb token.now.head self.old.arena))
            self.old self.new result }
    {
        self.blocks.dupb(token)
    }

    /// Makes a message whose blocks reference the data of this message's blocks. Refused as `NoMblk`, then `RefMax`. As
    /// [`Blocks::dupmsg`] of strm_mblk.
    pub fn dupmsg(&mut self, token: &Token) -> Result<Token, Refusal>
        requires { IsTrue (has self.old.arena token.now) }
        ensures { Gives arena (Some token.now) (on_arena self.old (blocks.dupmsg token.now.head self.old.arena))
            self.old self.new result }
    {
        self.blocks.dupmsg(token)
    }

    /// Makes a message of one block over a copy of the data of this message's first block. Refused as `NoMblk`, then
    /// `NoData`. As [`Blocks::copyb`] of strm_mblk.
    pub fn copyb(&mut self, token: &Token) -> Result<Token, Refusal>
        requires { IsTrue (has self.old.arena token.now) }
        ensures { Gives arena (Some token.now) (on_arena self.old (blocks.copyb token.now.head self.old.arena))
            self.old self.new result }
    {
        self.blocks.copyb(token)
    }

    /// Makes a message of blocks over copies of the data of this message's blocks. Refused as `NoMblk`, then `NoData`. As
    /// [`Blocks::copymsg`] of strm_mblk.
    pub fn copymsg(&mut self, token: &Token) -> Result<Token, Refusal>
        requires { IsTrue (has self.old.arena token.now) }
        ensures { Gives arena (Some token.now) (on_arena self.old (blocks.copymsg token.now.head self.old.arena))
            self.old self.new result }
    {
        self.blocks.copymsg(token)
    }

    /// Puts bytes at the write place of a message's block `place`, counted from 0. Refused as `NoSuchBlock`, `Shared`, then
    /// `NoRoom`. As [`Blocks::write`] of strm_mblk.
    pub fn write(&mut self, token: &Token, place: u32, bytes: &[u8]) -> Result<(), Refusal>
        requires { IsTrue (has self.old.arena token.now) }
        ensures { Alters arena token.now token.now (on_arena self.old
            (blocks.write token.now.head place bytes.now self.old.arena)) self.old self.new result }
    {
        self.blocks.write(token, place, bytes)
    }

    /// Gives the data block of a message's block `place`, counted from 0, a type. Refused as `NoSuchBlock`, then `Shared`.
    /// As [`Blocks::settype`] of strm_mblk.
    pub fn settype(&mut self, token: &Token, place: u32, kind: MsgType) -> Result<(), Refusal>
        requires { IsTrue (has self.old.arena token.now) }
        ensures { Alters arena token.now token.now (on_arena self.old
            (blocks.settype token.now.head place kind self.old.arena)) self.old self.new result }
    {
        self.blocks.settype(token, place, kind)
    }

    /// Gives a message's first block a band. As [`Blocks::setband`] of strm_mblk.
    pub fn setband(&mut self, token: &Token, band: u8)
        requires { IsTrue (has self.old.arena token.now) }
        ensures { Alters arena token.now token.now (on_arena self.old
            (given_nothing (blocks.setband token.now.head band self.old.arena))) self.old self.new (Ok tt) }
    {
        self.blocks.setband(token, band);
    }

    /// Appends the blocks of message `tail` to the other message. As [`Blocks::linkb`] of strm_mblk.
    pub fn linkb(&mut self, token: &mut Token, tail: Token)
        requires head { IsTrue (has self.old.arena token.old) }
        requires tail { IsTrue (has self.old.arena tail) }
        ensures { Joins arena token.old token.new tail (with_arena self.old
            (blocks.linkb token.old.head tail.head self.old.arena)) self.old self.new }
    {
        self.blocks.linkb(token, tail);
    }

    /// Makes the blocks after the first, if any, a second message, and returns its token. As [`Blocks::unlinkb`] of
    /// strm_mblk.
    pub fn unlinkb(&mut self, token: &mut Token) -> Option<Token>
        requires { IsTrue (has self.old.arena token.old) }
        ensures { Unlinks arena token.old token.new (on_arena self.old
            (Ok (blocks.unlinkb token.old.head self.old.arena))) self.old self.new (Ok result) }
    {
        self.blocks.unlinkb(token)
    }

    /// Makes block `place` of a message, counted from 0, a message; the token of the other blocks, if any, comes second.
    /// Rejected as `NoSuchBlock`. As [`Blocks::rmvb`] of strm_mblk.
    pub fn rmvb(&mut self, token: Token, place: u32) -> Result<(Token, Option<Token>), Rejected>
        requires { IsTrue (has self.old.arena token) }
        ensures { Parts arena token (on_arena self.old (blocks.rmvb token.head place self.old.arena))
            self.old self.new result }
    {
        self.blocks.rmvb(token, place)
    }

    /// Removes `count` bytes at the head of a message or, if `count` is below 0, -`count` bytes at its tail, from
    /// blocks of one type. Refused as `Short`. As [`Blocks::adjmsg`] of strm_mblk.
    pub fn adjmsg(&mut self, token: &Token, count: i32) -> Result<(), Refusal>
        requires { IsTrue (has self.old.arena token.now) }
        ensures { Alters arena token.now token.now (on_arena self.old
            (trimming.adjmsg token.now.head count self.old.arena)) self.old self.new result }
    {
        self.blocks.adjmsg(token, count)
    }

    /// Brings the first `count` bytes of a message into its first block; -1 means all bytes of its leading blocks of one
    /// type. Refused as `Short`, `TooLarge`, then `NoData`. As [`Blocks::pullupmsg`] of strm_mblk.
    pub fn pullupmsg(&mut self, token: &mut Token, count: i32) -> Result<(), Refusal>
        requires { IsTrue (has self.old.arena token.old) }
        ensures { Alters arena token.old token.new (on_arena self.old
            (trimming.pullupmsg token.old.head count self.old.arena)) self.old self.new result }
    {
        self.blocks.pullupmsg(token, count)
    }

    /// Counts the bytes of a message in its blocks of type M_DATA. As [`Blocks::msgdsize`] of strm_mblk.
    pub fn msgdsize(&self, token: &Token) -> u32
        requires { IsTrue (has self.now.arena token.now) }
        ensures { result ≡ data_size_of self.now.arena.store (message_at self.now.arena token.now.head) }
    {
        self.blocks.msgdsize(token)
    }

    /// Counts the bytes of a message. As [`Blocks::size`] of strm_mblk.
    pub fn size(&self, token: &Token) -> u32
        requires { IsTrue (has self.now.arena token.now) }
        ensures { result ≡ size_of (message_at self.now.arena token.now.head) }
    {
        self.blocks.size(token)
    }

    /// Copies the bytes of a message from place `at` on into `into`, and returns how many. As [`Blocks::read`] of
    /// strm_mblk.
    pub fn read(&self, token: &Token, at: u32, into: &mut [u8]) -> usize
        requires { IsTrue (has self.now.arena token.now) }
        ensures count { result ≡ min (length into.old) (size_of (message_at self.now.arena token.now.head) - at) }
        ensures bytes { into.new ≡ take result
            (drop at (bytes_of self.now.arena.store (message_at self.now.arena token.now.head)))
            ++ drop result into.old }
        // The message has as many bytes as `size` counts.
        ensures sized { length (bytes_of self.now.arena.store (message_at self.now.arena token.now.head))
            ≡ size_of (message_at self.now.arena token.now.head) }
    {
        self.blocks.read(token, at, into)
    }

    /// Returns what a message's block `place`, counted from 0, is like. Refused as `NoSuchBlock`. As [`Blocks::block`] of
    /// strm_mblk.
    pub fn block(&self, token: &Token, place: u32) -> Result<BlockInfo, Refusal>
        requires { IsTrue (has self.now.arena token.now) }
        ensures { result ≡ answer_of (blocks.block token.now.head place self.now.arena) }
    {
        self.blocks.block(token, place)
    }

    /// Frees the first block of a message, and returns the token of the others, if any. As [`Blocks::freeb`] of strm_mblk.
    pub fn freeb(&mut self, token: Token) -> Option<Token>
        requires { IsTrue (has self.old.arena token) }
        ensures { Frees arena token (on_arena self.old (Ok (blocks.freeb token.head self.old.arena)))
            self.old self.new (Ok result) }
    {
        self.blocks.freeb(token)
    }

    /// Frees a message. A token that the pool does not have is spent, and nothing else changes. As [`Blocks::freemsg`] of
    /// strm_mblk.
    pub fn freemsg(&mut self, token: Token)
        ensures { Spends arena token (with_token_spent self.old token) self.old self.new }
    {
        self.blocks.freemsg(token);
    }

    /// Frees a message that the pool has, without a test. As [`Blocks::free_held`] of strm_mblk.
    #[inline(always)]
    pub fn free_held(&mut self, token: Token)
        requires { IsTrue (has self.old.arena token) }
        ensures { Spends arena token (with_arena self.old (freeing.freemsg token.head self.old.arena))
            self.old self.new }
    {
        self.blocks.free_held(token);
    }

    /// Makes a message anew in another pool, frees it here, and returns the new one's token, which is one of `other`. Returns
    /// the token with `TooLarge`, `NoMblk`, then `NoData`. As [`Blocks::transfer`] of strm_mblk.
    pub fn transfer(&mut self, other: &mut Pool, token: Token) -> Result<Token, Rejected>
        requires { IsTrue (has self.old.arena token) }
        ensures { Transfers arena token (on_arena other.old
            (blocks.transfer self.old.arena token.head other.old.arena))
            (with_token_spent self.old token) self.old self.new other.old other.new result }
    {
        self.blocks.transfer(&mut other.blocks, token)
    }

    // The bytes of a message from a place on, as many as a reply carries.
    pub(crate) fn octets(&self, token: &Token, at: u32) -> Octets
        requires { IsTrue (has self.now.arena token.now) }
        ensures { result ≡ take most_octets
            (drop at (bytes_of self.now.arena.store (message_at self.now.arena token.now.head))) }
    {
        let mut bytes = ArrayVec::from([0; MOST_OCTETS]);
        let count = self.read(token, at, bytes.as_mut_slice());
        bytes.truncate(count);
        Octets::of(bytes)
    }

    // Frees the message of a register, if the register has one.
    fn free_any(&mut self, slot: Option<Token>)
        ensures { self.new ≡ option_map_or (with_token_spent self.old) slot self.old }
    {
        if let Some(token) = slot {
            self.freemsg(token);
        }
    }

    /// Frees the messages of the registers, a to z, as `freemsg` does, and spends the registers.
    pub fn drain(&mut self, regs: Regs)
        ensures { self.new ≡ with_tokens_spent self.old regs }
    {
        for slot in regs.into_slots() {
            self.free_any(slot.into_token());
        }
    }
}
