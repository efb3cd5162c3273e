//! Calls on the blocks of named messages. Each first refuses a name that is not valid as `Invalid`.
ghost use Rattle.std.specs.Prelude.{◌≡◌, ◌-◌, [], ◌∷◌, ◌++◌, IfErr, IfOk, Ok, drop, length, min, take};
ghost use Rattle.strm_mblk.specs.Arena.{message_at};
ghost use Rattle.strm_mblk.specs.Block.{bytes_of, data_size_of, size_of};
ghost use Rattle.strm_mblk.specs.BlockCalls as blocks;
ghost use Rattle.strm_mblk.specs.Trimming as trimming;
ghost use Rattle.strm_mblk.specs.Given.{given_nothing};
ghost use Rattle.strm_named.specs.NamedCalls.{Does, answer_told, any_message, asked, if_valid, on_name, on_names, no_message, two_messages};
ghost use Rattle.strm_pool.specs.PoolValue.{on_arena, with_arena};
ghost use Rattle.strm_queue.specs.QueueLooks.{info_of_message};

use super::NamedPool;
use crate::fault::{Fault, answered};
use crate::name::Name;
use crate::stamps::{give_any, part};
use strm_pool::{BlockInfo, MsgType, QueuedInfo};

impl NamedPool {
    /// Puts bytes at the write place of a message's block `place`, counted from 0. Refused as `Invalid`, `NoSuchBlock`,
    /// `Shared`, then `NoRoom`. As [`Blocks::write`] of strm_mblk.
    pub fn write(&mut self, name: Name, place: u32, bytes: &[u8]) -> Result<(), Fault>
        ensures { Does no_message (on_name self.old name (on_arena self.old.pool
            (blocks.write name.head place bytes.now self.old.pool.arena))) [] self.old self.new result }
    {
        if !self.has(name) {
            return Err(Fault::Invalid);
        }
        let token = self.token(name);
        let answer = self.pool.write(&token, place, bytes);
        token.forget();
        answered(answer)
    }

    /// Gives the data block of a message's block `place`, counted from 0, a type. Refused as `Invalid`, `NoSuchBlock`, then
    /// `Shared`. As [`Blocks::settype`] of strm_mblk.
    pub fn settype(&mut self, name: Name, place: u32, kind: MsgType) -> Result<(), Fault>
        ensures { Does no_message (on_name self.old name (on_arena self.old.pool
            (blocks.settype name.head place kind self.old.pool.arena))) [] self.old self.new result }
    {
        if !self.has(name) {
            return Err(Fault::Invalid);
        }
        let token = self.token(name);
        let answer = self.pool.settype(&token, place, kind);
        token.forget();
        answered(answer)
    }

    /// Gives a message's first block a band. Refused as `Invalid`. As [`Blocks::setband`] of strm_mblk.
    pub fn setband(&mut self, name: Name, band: u8) -> Result<(), Fault>
        ensures { Does no_message (on_name self.old name
            (given_nothing (with_arena self.old.pool (blocks.setband name.head band self.old.pool.arena))))
            [] self.old self.new result }
    {
        if !self.has(name) {
            return Err(Fault::Invalid);
        }
        let token = self.token(name);
        self.pool.setband(&token, band);
        token.forget();
        Ok(())
    }

    /// Appends the blocks of message `tail` to the other message, which keeps its name. The name `tail` is spent. Refused as
    /// `Invalid`, also if both names are of one message. As [`Blocks::linkb`] of strm_mblk.
    pub fn linkb(&mut self, name: Name, tail: Name) -> Result<(), Fault>
        ensures { Does no_message (on_names self.old name tail (given_nothing
            (with_arena self.old.pool (blocks.linkb name.head tail.head self.old.pool.arena)))) (tail.head ∷ [])
            self.old self.new result }
    {
        if !self.has_both(name, tail) {
            return Err(Fault::Invalid);
        }
        let mut token = self.token(name);
        let behind = self.token(tail);
        self.pool.linkb(&mut token, behind);
        token.forget();
        Ok(())
    }

    /// Makes the blocks after the first, if any, a second message, and returns its name; the first block keeps the name.
    /// Refused as `Invalid`. As [`Blocks::unlinkb`] of strm_mblk.
    pub fn unlinkb(&mut self, name: Name) -> Result<Option<Name>, Fault>
        ensures { Does any_message (on_name self.old name (on_arena self.old.pool
            (Ok (blocks.unlinkb name.head self.old.pool.arena)))) [] self.old self.new result }
    {
        if !self.has(name) {
            return Err(Fault::Invalid);
        }
        let mut token = self.token(name);
        let rest = self.pool.unlinkb(&mut token);
        token.forget();
        Ok(give_any(&mut self.stamps, rest))
    }

    /// Makes block `place` of a message, counted from 0, a message. Returns its name and that of the other blocks, if any; the
    /// old name is spent. Refused as `Invalid`, then `NoSuchBlock`. As [`Blocks::rmvb`] of strm_mblk.
    pub fn rmvb(&mut self, name: Name, place: u32) -> Result<(Name, Option<Name>), Fault>
        ensures { Does two_messages (on_name self.old name (on_arena self.old.pool
            (blocks.rmvb name.head place self.old.pool.arena))) (name.head ∷ []) self.old self.new result }
    {
        if !self.has(name) {
            return Err(Fault::Invalid);
        }
        let token = self.token(name);
        let parted = self.pool.rmvb(token, place);
        part(&mut self.stamps, parted)
    }

    /// Removes `count` bytes at the head of a message or, if `count` is below 0, -`count` bytes at its tail, from blocks of one
    /// type. Refused as `Invalid`, then `Short`. As [`Blocks::adjmsg`] of strm_mblk.
    pub fn adjmsg(&mut self, name: Name, count: i32) -> Result<(), Fault>
        ensures { Does no_message (on_name self.old name (on_arena self.old.pool
            (trimming.adjmsg name.head count self.old.pool.arena))) [] self.old self.new result }
    {
        if !self.has(name) {
            return Err(Fault::Invalid);
        }
        let token = self.token(name);
        let answer = self.pool.adjmsg(&token, count);
        token.forget();
        answered(answer)
    }

    /// Brings the first `count` bytes of a message into its first block; -1 means all bytes of its leading blocks of one type.
    /// Refused as `Invalid`, `Short`, `TooLarge`, then `NoData`. As [`Blocks::pullupmsg`] of strm_mblk.
    pub fn pullupmsg(&mut self, name: Name, count: i32) -> Result<(), Fault>
        ensures { Does no_message (on_name self.old name (on_arena self.old.pool
            (trimming.pullupmsg name.head count self.old.pool.arena))) [] self.old self.new result }
    {
        if !self.has(name) {
            return Err(Fault::Invalid);
        }
        let mut token = self.token(name);
        let pulled = self.pool.pullupmsg(&mut token, count);
        token.forget();
        answered(pulled)
    }

    /// Counts the bytes of a message in its blocks of type M_DATA. Refused as `Invalid`. As [`Blocks::msgdsize`] of strm_mblk.
    pub fn msgdsize(&self, name: Name) -> Result<u32, Fault>
        ensures { result ≡ if_valid self.now name (data_size_of self.now.pool.arena.store
            (message_at self.now.pool.arena name.head)) }
    {
        if !self.has(name) {
            return Err(Fault::Invalid);
        }
        let token = self.token(name);
        let bytes = self.pool.msgdsize(&token);
        token.forget();
        Ok(bytes)
    }

    /// Counts the bytes of a message. Refused as `Invalid`. As [`Blocks::size`] of strm_mblk.
    pub fn size(&self, name: Name) -> Result<u32, Fault>
        ensures { result ≡ if_valid self.now name (size_of (message_at self.now.pool.arena name.head)) }
    {
        if !self.has(name) {
            return Err(Fault::Invalid);
        }
        let token = self.token(name);
        let bytes = self.pool.size(&token);
        token.forget();
        Ok(bytes)
    }

    /// Copies the bytes of a message from place `at` on into `into`, and returns how many. Refused as `Invalid`; then `into`
    /// stays unchanged. As [`Blocks::read`] of strm_mblk.
    pub fn read(&self, name: Name, at: u32, into: &mut [u8]) -> Result<usize, Fault>
        ensures count { result ≡ if_valid self.now name (min (length into.old)
            (size_of (message_at self.now.pool.arena name.head) - at)) }
        ensures bytes { IfOk result (λ count. into.new ≡ take count
            (drop at (bytes_of self.now.pool.arena.store (message_at self.now.pool.arena name.head)))
            ++ drop count into.old) }
        ensures kept { IfErr result (λ fault. into.new ≡ into.old) }
    {
        if !self.has(name) {
            return Err(Fault::Invalid);
        }
        let token = self.token(name);
        let count = self.pool.read(&token, at, into);
        token.forget();
        Ok(count)
    }

    /// Returns what a message's block `place`, counted from 0, is like. Refused as `Invalid`, then `NoSuchBlock`. As
    /// [`Blocks::block`] of strm_mblk.
    pub fn block(&self, name: Name, place: u32) -> Result<BlockInfo, Fault>
        ensures { result ≡ answer_told no_message self.now (on_name self.now name
            (on_arena self.now.pool (blocks.block name.head place self.now.pool.arena))) }
    {
        if !self.has(name) {
            return Err(Fault::Invalid);
        }
        let token = self.token(name);
        let answer = self.pool.block(&token, place);
        token.forget();
        answered(answer)
    }

    /// Returns what a message is like: type and band of its first block, and its numbers of bytes and blocks. Refused as
    /// `Invalid`. As [`Queues::queued_at`] of strm_queue, which looks at a queued one. Takes a step for each block.
    pub fn message(&self, name: Name) -> Result<QueuedInfo, Fault>
        ensures { result ≡ asked self.now name (info_of_message self.now.pool.arena.store
            (message_at self.now.pool.arena name.head)) }
    {
        if !self.has(name) {
            return Err(Fault::Invalid);
        }
        self.pool.lawful();
        let token = self.token(name);
        let Ok(first) = self.pool.block(&token, 0) else {
            unreachable!()
        };
        let size = self.pool.size(&token);
        let blocks = token.blocks();
        token.forget();
        Ok(QueuedInfo {
            head: name.head,
            kind: first.kind,
            band: first.band,
            size,
            blocks,
        })
    }
}
