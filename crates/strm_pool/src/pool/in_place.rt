//! Bytes of held messages in place: each makes the call of strm_mblk with its name.
ghost use Rattle.std.specs.Prelude.{◌≡◌, ◌-◌, ◌++◌, IfOk, IsTrue, drop, length, map, min, take};
ghost use Rattle.std.specs.Fn.{FnOnceReturnsAtMut, FnOnceTakesAtMut};
ghost use Rattle.strm_mblk.specs.Arena.{has, message_at};
ghost use Rattle.strm_mblk.specs.Calls.{Alters, Lends};
ghost use Rattle.strm_mblk.specs.Given.{answer_map};
ghost use Rattle.strm_mblk.specs.InPlace as in_place;
ghost use Rattle.strm_mblk.specs.Looks as looks;
ghost use Rattle.strm_pool.specs.PoolValue.{arena, on_arena};

use super::Pool;
use strm_data::Refusal;
use strm_mblk::{BlockInfo, BlockPlace, Shaped, Token};

impl Pool {
    /// Lends the bytes of a message's block `place`, counted from 0. Refused as `NoSuchBlock`. As [`Blocks::bytes`] of
    /// strm_mblk.
    pub fn bytes(&self, token: &Token, place: u32) -> Result<&[u8], Refusal>
        requires { IsTrue (has self.now.arena token.now) }
        ensures { answer_map (λ lent. lent.now) result ≡ in_place.bytes token.now.head place self.now.arena }
    {
        self.blocks.bytes(token, place)
    }

    /// Returns the data block of a message's block `place`, counted from 0, and where its bytes are. Refused as `NoSuchBlock`.
    /// As [`Blocks::place`] of strm_mblk.
    pub fn place(&self, token: &Token, place: u32) -> Result<BlockPlace, Refusal>
        requires { IsTrue (has self.now.arena token.now) }
        ensures { result ≡ in_place.place token.now.head place self.now.arena }
    {
        self.blocks.place(token, place)
    }

    /// Returns the number of a message's block `place`, counted from 0. Refused as `NoSuchBlock`. As [`Blocks::number`] of
    /// strm_mblk.
    pub fn number(&self, token: &Token, place: u32) -> Result<u32, Refusal>
        requires { IsTrue (has self.now.arena token.now) }
        ensures { result ≡ looks.number token.now.head place self.now.arena }
    {
        self.blocks.number(token, place)
    }

    /// Writes what `block` returns of a message's blocks, from block `from` on, into `into`, and returns their number. As
    /// [`Blocks::walk`] of strm_mblk.
    pub fn walk(&self, token: &Token, from: u32, into: &mut [BlockInfo]) -> usize
        requires { IsTrue (has self.now.arena token.now) }
        ensures count { result ≡ min (length into.old) (length (message_at self.now.arena token.now.head) - from) }
        ensures infos { into.new ≡ take result (in_place.infos_from token.now.head from self.now.arena)
            ++ drop result into.old }
    {
        self.blocks.walk(token, from, into)
    }

    /// Lends the bytes of a message's block `place`, counted from 0, to `change`, which may change them, and returns what
    /// `change` returns. Refused as `NoSuchBlock`, then `Shared`. As [`Blocks::edit`] of strm_mblk.
    pub fn edit<R, F: FnOnce(&mut [u8]) -> R>(
        &mut self,
        token: &Token,
        place: u32,
        change: F,
    ) -> Result<R, Refusal>
        requires had { IsTrue (has self.old.arena token.now) }
        requires callable { IfOk (in_place.bytes_to_edit token.now.head place self.old.arena)
            (FnOnceTakesAtMut F.FnOnce change) }
        ensures { Lends arena token.now (FnOnceReturnsAtMut F.FnOnce change)
            (in_place.bytes_to_edit token.now.head place self.old.arena)
            (λ r left. on_arena self.old (in_place.edit token.now.head place r left self.old.arena))
            self.old self.new result }
    {
        self.blocks.edit(token, place, change)
    }

    /// Lends the room after the write place of a message's block `place`, counted from 0, to `write`, and moves the write
    /// place over as many bytes as that returns, at most over all. Refused as `NoSuchBlock`, then `Shared`. As
    /// [`Blocks::fill`] of strm_mblk.
    pub fn fill<F: FnOnce(&mut [u8]) -> usize>(
        &mut self,
        token: &Token,
        place: u32,
        write: F,
    ) -> Result<u32, Refusal>
        requires had { IsTrue (has self.old.arena token.now) }
        requires callable { IfOk (in_place.bytes_to_fill token.now.head place self.old.arena)
            (FnOnceTakesAtMut F.FnOnce write) }
        ensures { Lends arena token.now (FnOnceReturnsAtMut F.FnOnce write)
            (in_place.bytes_to_fill token.now.head place self.old.arena)
            (λ count left. on_arena self.old (in_place.fill token.now.head place count left self.old.arena))
            self.old self.new result }
    {
        self.blocks.fill(token, place, write)
    }

    /// Lends all bytes of the data block of a message's block `place`, counted from 0, to `change`, which may change them, and
    /// returns what `change` returns. Refused as `NoSuchBlock`, then `Shared`. As [`Blocks::window`] of strm_mblk.
    pub fn window<R, F: FnOnce(&mut [u8]) -> R>(
        &mut self,
        token: &Token,
        place: u32,
        change: F,
    ) -> Result<R, Refusal>
        requires had { IsTrue (has self.old.arena token.now) }
        requires callable { IfOk (in_place.bytes_of_window token.now.head place self.old.arena)
            (FnOnceTakesAtMut F.FnOnce change) }
        ensures { Lends arena token.now (FnOnceReturnsAtMut F.FnOnce change)
            (in_place.bytes_of_window token.now.head place self.old.arena)
            (λ r left. on_arena self.old (in_place.window token.now.head place r left self.old.arena))
            self.old self.new result }
    {
        self.blocks.window(token, place, change)
    }

    /// Moves the write place of a message's block `place`, counted from 0, over `count` bytes behind it. Refused as
    /// `NoSuchBlock`, `Shared`, then `NoRoom`. As [`Blocks::advance`] of strm_mblk.
    pub fn advance(&mut self, token: &Token, place: u32, count: u32) -> Result<(), Refusal>
        requires { IsTrue (has self.old.arena token.now) }
        ensures { Alters arena token.now token.now (on_arena self.old
            (in_place.advance token.now.head place count self.old.arena)) self.old self.new result }
    {
        self.blocks.advance(token, place, count)
    }

    /// Leaves room for `count` bytes before the bytes to come of a message's empty block `place`, counted from 0. Refused as
    /// `NoSuchBlock`, `Shared`, then `NoRoom`. As [`Blocks::reserve`] of strm_mblk.
    pub fn reserve(&mut self, token: &Token, place: u32, count: u32) -> Result<(), Refusal>
        requires { IsTrue (has self.old.arena token.now) }
        ensures { Alters arena token.now token.now (on_arena self.old
            (in_place.reserve token.now.head place count self.old.arena)) self.old self.new result }
    {
        self.blocks.reserve(token, place, count)
    }

    /// Gives a message's block `place`, counted from 0, the `len` bytes of its data block from byte `at` on, also where other
    /// blocks use that. Refused as `NoSuchBlock`, then `NoRoom`. As [`Blocks::shape`] of strm_mblk.
    pub fn shape(&mut self, token: &Token, place: u32, at: u32, len: u32) -> Result<(), Refusal>
        requires { IsTrue (has self.old.arena token.now) }
        ensures { Alters arena token.now token.now (on_arena self.old
            (in_place.shape token.now.head place at len self.old.arena)) self.old self.new result }
    {
        self.blocks.shape(token, place, at, len)
    }

    /// Gives the first blocks of a message these shapes, to all or none. Refused as `NoSuchBlock`, then as the first shape that
    /// does not fit: `NoRoom`, then `Shared`. As [`Blocks::shape_all`] of strm_mblk.
    pub fn shape_all<S: Shaped>(&mut self, token: &Token, shapes: &[S]) -> Result<(), Refusal>
        requires { IsTrue (has self.old.arena token.now) }
        ensures { Alters arena token.now token.now (on_arena self.old
            (in_place.shape_all token.now.head (map S.shape shapes.now) self.old.arena)) self.old self.new result }
    {
        self.blocks.shape_all(token, shapes)
    }

    /// Puts bytes before those of a message's first block. Refused as `Shared`, then `NoRoom`. As [`Blocks::prepend`] of
    /// strm_mblk.
    pub fn prepend(&mut self, token: &Token, bytes: &[u8]) -> Result<(), Refusal>
        requires { IsTrue (has self.old.arena token.now) }
        ensures { Alters arena token.now token.now (on_arena self.old
            (in_place.prepend token.now.head bytes.now self.old.arena)) self.old self.new result }
    {
        self.blocks.prepend(token, bytes)
    }

    /// Writes `bytes` over those of a message, from byte `at` on, across its blocks. Refused as `Short`, then `Shared`. As
    /// [`Blocks::overwrite`] of strm_mblk.
    pub fn overwrite(&mut self, token: &Token, at: u32, bytes: &[u8]) -> Result<(), Refusal>
        requires { IsTrue (has self.old.arena token.now) }
        ensures { Alters arena token.now token.now (on_arena self.old
            (in_place.overwrite token.now.head at bytes.now self.old.arena)) self.old self.new result }
    {
        self.blocks.overwrite(token, at, bytes)
    }
}
