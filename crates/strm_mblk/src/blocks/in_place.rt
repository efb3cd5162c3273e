//! Bytes of held messages in place: a caller looks at them, changes them, or moves the places of a block.
ghost use Rattle.std.specs.Prelude.{◌≡◌, ◌-◌, ◌++◌, IfOk, IsTrue, drop, length, min, take};
ghost use Rattle.std.specs.Fn.{FnOnceReturnsAtMut, FnOnceTakesAtMut};
ghost use Rattle.strm_mblk.specs.Arena.{has, message_at};
ghost use Rattle.strm_mblk.specs.Calls.{Alters, Lends, itself};
ghost use Rattle.strm_mblk.specs.Given.{answer_map};
ghost use Rattle.strm_mblk.specs.InPlace as model;

use super::finding::Found;
use super::{Blocks, Fields, fields_at, node_at, onward};
use crate::block_info::BlockInfo;
use crate::block_place::BlockPlace;
use crate::token::Token;
use strm_data::Refusal;

impl Blocks {
    /// Lends the bytes of a message's block `place`, from its read place to its write place. Places count from 0. Changes
    /// nothing.
    ///
    /// Refused as `NoSuchBlock` if the message has no such block. Takes at most `place` steps. In STREAMS, modules do this
    /// by hand (`b_rptr`, `b_wptr`).
    pub fn bytes(&self, token: &Token, place: u32) -> Result<&[u8], Refusal>
        requires { IsTrue (has self.now token.now) }
        ensures { answer_map (λ lent. lent.now) result ≡ model.bytes token.now.head place self.now }
    {
        let Found { fields, .. } = self.found(token, place)?;
        Ok(
            self.data
                .bytes(fields.data_number, fields.offset, fields.len as usize),
        )
    }

    /// Returns the number of the data block of a message's block `place`, its capacity, and where the block's bytes are in
    /// it. Places count from 0. Changes nothing.
    ///
    /// Refused as `NoSuchBlock` if the message has no such block. Takes at most `place` steps. In STREAMS, modules do this
    /// by hand (`db_base`, `db_lim`, `b_rptr`, `b_wptr`).
    pub fn place(&self, token: &Token, place: u32) -> Result<BlockPlace, Refusal>
        requires { IsTrue (has self.now token.now) }
        ensures { result ≡ model.place token.now.head place self.now }
    {
        let Found {
            fields,
            capacity,
            ..
        } = self.found(token, place)?;
        Ok(BlockPlace {
            data: fields.data_number,
            at: fields.offset,
            len: fields.len,
            capacity,
        })
    }

    /// Writes what `block` returns of a message's blocks, from block `from` on, into `into`, as far as both reach, and
    /// returns how many it wrote. Places count from 0. The rest of `into` stays unchanged, and nothing else changes. Takes
    /// at most `from` steps, and one for each block that it writes of. In STREAMS, modules do this by hand (`b_cont`).
    pub fn walk(&self, token: &Token, from: u32, into: &mut [BlockInfo]) -> usize
        requires { IsTrue (has self.now token.now) }
        ensures count { result ≡ min (length into.old) (length (message_at self.now token.now.head) - from) }
        ensures infos { into.new ≡ take result (model.infos_from token.now.head from self.now) ++ drop result into.old }
    {
        let count = into.len().min(token.blocks().saturating_sub(from) as usize);
        // Each step finds a block, so `u32::MAX`, which means none, is never used.
        let mut node = node_at(&self.chains, token.head(), from).unwrap_or(u32::MAX);
        for done in 0..count {
            into[done] = self.info(fields_at(&self.chains, node));
            node = onward(&self.chains, node);
        }
        count
    }

    /// Lends the bytes of a message's block `place` to `change`, which may change them, and returns what `change` returns.
    /// Places count from 0. All else stays unchanged.
    ///
    /// Refused as `NoSuchBlock` if the message has no such block, then as `Shared` if another message block refers to its
    /// data block. On an error `change` is not called, and nothing changes. Takes at most `place` steps, and copies no
    /// bytes. In STREAMS, modules do this by hand (`b_rptr`, `b_wptr`).
    pub fn edit<R, F: FnOnce(&mut [u8]) -> R>(
        &mut self,
        token: &Token,
        place: u32,
        change: F,
    ) -> Result<R, Refusal>
        requires had { IsTrue (has self.old token.now) }
        requires callable { IfOk (model.bytes_to_edit token.now.head place self.old)
            (FnOnceTakesAtMut F.FnOnce change) }
        ensures { Lends itself token.now (FnOnceReturnsAtMut F.FnOnce change)
            (model.bytes_to_edit token.now.head place self.old)
            (λ r left. model.edit token.now.head place r left self.old) self.old self.new result }
    {
        let Found { fields, .. } = self.own(token, place)?;
        Ok(self.edit_data(
            fields.data_number,
            fields.offset,
            fields.len as usize,
            change,
        ))
    }

    /// Lends the room after the write place of a message's block `place` to `write`. Then moves the write place over as
    /// many bytes as `write` returns, or over the whole room if `write` returns more. Returns over how many. Places count
    /// from 0. The room has old bytes, perhaps of another message. What `write` puts behind the new write place stays
    /// there. All else stays unchanged.
    ///
    /// Refused as `NoSuchBlock` if the message has no such block, then as `Shared` if another message block refers to its
    /// data block. On an error `write` is not called, and nothing changes. Takes at most `place` steps, and copies no
    /// bytes. In STREAMS, modules do this by hand (`b_wptr`).
    pub fn fill<F: FnOnce(&mut [u8]) -> usize>(
        &mut self,
        token: &Token,
        place: u32,
        write: F,
    ) -> Result<u32, Refusal>
        requires had { IsTrue (has self.old token.now) }
        requires callable { IfOk (model.bytes_to_fill token.now.head place self.old) (FnOnceTakesAtMut F.FnOnce write) }
        ensures { Lends itself token.now (FnOnceReturnsAtMut F.FnOnce write)
            (model.bytes_to_fill token.now.head place self.old)
            (λ count left. model.fill token.now.head place count left self.old) self.old self.new result }
    {
        let Found {
            node,
            fields,
            capacity,
        } = self.own(token, place)?;
        let end = fields.offset + fields.len;
        let room = (capacity - end) as usize;
        let count = self
            .edit_data(fields.data_number, end, room, write)
            .min(room) as u32;
        let len = fields.len + count;
        self.set_fields(node, Fields { len, ..fields });
        Ok(count)
    }

    /// Lends all bytes of the data block of a message's block `place` to `change`, which may change them, and returns what
    /// `change` returns. This is for callers that keep places of their own. Places count from 0. The bytes outside the
    /// block's places are old, perhaps of another message. All else stays unchanged, the block's places too.
    ///
    /// Refused as `NoSuchBlock` if the message has no such block, then as `Shared` if another message block refers to its
    /// data block. On an error `change` is not called, and nothing changes. Takes at most `place` steps, and copies no
    /// bytes. In STREAMS, modules do this by hand (`db_base`, `db_lim`).
    pub fn window<R, F: FnOnce(&mut [u8]) -> R>(
        &mut self,
        token: &Token,
        place: u32,
        change: F,
    ) -> Result<R, Refusal>
        requires had { IsTrue (has self.old token.now) }
        requires callable { IfOk (model.bytes_of_window token.now.head place self.old)
            (FnOnceTakesAtMut F.FnOnce change) }
        ensures { Lends itself token.now (FnOnceReturnsAtMut F.FnOnce change)
            (model.bytes_of_window token.now.head place self.old)
            (λ r left. model.window token.now.head place r left self.old) self.old self.new result }
    {
        let Found {
            fields,
            capacity,
            ..
        } = self.own(token, place)?;
        Ok(self.edit_data(fields.data_number, 0, capacity as usize, change))
    }

    /// Moves the write place of a message's block `place` over `count` bytes that its data block has behind it, such as
    /// those that a device put there. Places count from 0. All else stays unchanged.
    ///
    /// Refused as `NoSuchBlock` if the message has no such block, then as `Shared` if another message block refers to its
    /// data block. Then refused as `NoRoom` if the data block has fewer bytes after the write place. On an error nothing
    /// changes. Takes at most `place` steps. In STREAMS, modules do this by hand (`b_wptr`).
    pub fn advance(&mut self, token: &Token, place: u32, count: u32) -> Result<(), Refusal>
        requires { IsTrue (has self.old token.now) }
        ensures { Alters itself token.now token.now (model.advance token.now.head place count self.old)
            self.old self.new result }
    {
        let Found {
            node,
            fields,
            capacity,
        } = self.own(token, place)?;
        if count > capacity - (fields.offset + fields.len) {
            return Err(Refusal::NoRoom);
        }
        let len = fields.len + count;
        self.set_fields(node, Fields { len, ..fields });
        Ok(())
    }

    /// Leaves headroom of `count` bytes in a message's block `place`, which must have no bytes: its read place and its
    /// write place become `count`. Places count from 0. All else stays unchanged.
    ///
    /// Refused as `NoSuchBlock` if the message has no such block, then as `Shared` if another message block refers to its
    /// data block. Then refused as `NoRoom` if the block has bytes, or its data block fewer than `count`. On an error
    /// nothing changes. Takes at most `place` steps. In STREAMS, modules do this by hand (`b_rptr`, `b_wptr`).
    pub fn reserve(&mut self, token: &Token, place: u32, count: u32) -> Result<(), Refusal>
        requires { IsTrue (has self.old token.now) }
        ensures { Alters itself token.now token.now (model.reserve token.now.head place count self.old)
            self.old self.new result }
    {
        let Found {
            node,
            fields,
            capacity,
        } = self.own(token, place)?;
        if fields.len > 0 || count > capacity {
            return Err(Refusal::NoRoom);
        }
        self.set_fields(
            node,
            Fields {
                offset: count,
                ..fields
            },
        );
        Ok(())
    }

    /// Gives a message's block `place` the `len` bytes of its data block from byte `at` on: its read place becomes `at`, and
    /// its write place `at + len`. Other blocks may use its data block too, since this writes no byte. Places count from 0.
    /// The bytes that this adds to the block are old, perhaps of another message. All else stays unchanged.
    ///
    /// Refused as `NoSuchBlock` if the message has no such block, then as `NoRoom` if its data block has fewer bytes than
    /// `at + len`. On an error nothing changes. Takes at most `place` steps. In STREAMS, modules do this by hand (`b_rptr`,
    /// `b_wptr`).
    pub fn shape(&mut self, token: &Token, place: u32, at: u32, len: u32) -> Result<(), Refusal>
        requires { IsTrue (has self.old token.now) }
        ensures { Alters itself token.now token.now (model.shape token.now.head place at len self.old)
            self.old self.new result }
    {
        let Found {
            node,
            fields,
            capacity,
        } = self.found(token, place)?;
        if at > capacity || len > capacity - at {
            return Err(Refusal::NoRoom);
        }
        self.set_fields(
            node,
            Fields {
                offset: at,
                len,
                ..fields
            },
        );
        Ok(())
    }

    /// Puts bytes before those of a message's first block, and moves its read place before them. All else stays unchanged.
    ///
    /// Refused as `Shared` if another message block refers to its data block, then as `NoRoom` if that has fewer bytes
    /// before the read place. On an error nothing changes. Takes constant time and a copy of the bytes. In STREAMS, modules
    /// do this by hand (`b_rptr`).
    pub fn prepend(&mut self, token: &Token, bytes: &[u8]) -> Result<(), Refusal>
        requires { IsTrue (has self.old token.now) }
        ensures { Alters itself token.now token.now (model.prepend token.now.head bytes.now self.old)
            self.old self.new result }
    {
        let Found { node, fields, .. } = self.own(token, 0)?;
        if bytes.len() > fields.offset as usize {
            return Err(Refusal::NoRoom);
        }
        let count = bytes.len() as u32;
        let offset = fields.offset - count;
        let len = fields.len + count;
        self.set_fields(
            node,
            Fields {
                offset,
                len,
                ..fields
            },
        );
        self.write_data(fields.data_number, offset, bytes);
        Ok(())
    }
}
