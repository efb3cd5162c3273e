//! Bytes of named messages in place. Each call first refuses a name that is not valid as `Invalid`.
ghost use Rattle.std.specs.Prelude.{◌≡◌, ◌-◌, [], ◌++◌, IfErr, IfOk, drop, length, map, min, take};
ghost use Rattle.std.specs.Fn.{FnOnceReturnsAtMut, FnOnceTakesAtMut};
ghost use Rattle.strm_mblk.specs.Arena.{message_at};
ghost use Rattle.strm_mblk.specs.InPlace as in_place;
ghost use Rattle.strm_mblk.specs.Looks as looks;
ghost use Rattle.strm_named.specs.NamedCalls.{Does, LendsNamed, asked, if_valid, no_message, on_name, result_map};
ghost use Rattle.strm_pool.specs.PoolValue.{on_arena};

use super::NamedPool;
use crate::fault::{Fault, answered};
use crate::name::Name;
use strm_mblk::Shaped;
use strm_pool::{BlockInfo, BlockPlace};

impl NamedPool {
    /// Lends the bytes of a message's block `place`, counted from 0. Refused as `Invalid`, then `NoSuchBlock`. As
    /// [`Blocks::bytes`] of strm_mblk.
    pub fn bytes(&self, name: Name, place: u32) -> Result<&[u8], Fault>
        ensures { result_map (λ lent. lent.now) result
            ≡ asked self.now name (in_place.bytes name.head place self.now.pool.arena) }
    {
        if !self.has(name) {
            return Err(Fault::Invalid);
        }
        let token = self.token(name);
        let answer = self.pool.bytes(&token, place);
        token.forget();
        answered(answer)
    }

    /// Returns the data block of a message's block `place`, counted from 0, and where its bytes are. Refused as `Invalid`, then
    /// `NoSuchBlock`. As [`Blocks::place`] of strm_mblk.
    pub fn place(&self, name: Name, place: u32) -> Result<BlockPlace, Fault>
        ensures { result ≡ asked self.now name (in_place.place name.head place self.now.pool.arena) }
    {
        if !self.has(name) {
            return Err(Fault::Invalid);
        }
        let token = self.token(name);
        let answer = self.pool.place(&token, place);
        token.forget();
        answered(answer)
    }

    /// Returns the number of a message's block `place`, counted from 0. Refused as `Invalid`, then `NoSuchBlock`. As
    /// [`Blocks::number`] of strm_mblk.
    pub fn number(&self, name: Name, place: u32) -> Result<u32, Fault>
        ensures { result ≡ asked self.now name (looks.number name.head place self.now.pool.arena) }
    {
        if !self.has(name) {
            return Err(Fault::Invalid);
        }
        let token = self.token(name);
        let answer = self.pool.number(&token, place);
        token.forget();
        answered(answer)
    }

    /// Writes what `block` returns of a message's blocks, from block `from` on, into `into`, and returns their number. Refused
    /// as `Invalid`; then `into` stays unchanged. As [`Blocks::walk`] of strm_mblk.
    pub fn walk(&self, name: Name, from: u32, into: &mut [BlockInfo]) -> Result<usize, Fault>
        ensures count { result ≡ if_valid self.now name (min (length into.old)
            (length (message_at self.now.pool.arena name.head) - from)) }
        ensures infos { IfOk result (λ count. into.new ≡ take count
            (in_place.infos_from name.head from self.now.pool.arena) ++ drop count into.old) }
        ensures kept { IfErr result (λ fault. into.new ≡ into.old) }
    {
        if !self.has(name) {
            return Err(Fault::Invalid);
        }
        let token = self.token(name);
        let count = self.pool.walk(&token, from, into);
        token.forget();
        Ok(count)
    }

    /// Lends the bytes of a message's block `place`, counted from 0, to `change`, which may change them, and returns what
    /// `change` returns. Refused as `Invalid`, `NoSuchBlock`, then `Shared`. As [`Blocks::edit`] of strm_mblk.
    pub fn edit<R, F: FnOnce(&mut [u8]) -> R>(
        &mut self,
        name: Name,
        place: u32,
        change: F,
    ) -> Result<R, Fault>
        requires { IfOk (asked self.old name (in_place.bytes_to_edit name.head place self.old.pool.arena))
            (FnOnceTakesAtMut F.FnOnce change) }
        ensures { LendsNamed (FnOnceReturnsAtMut F.FnOnce change)
            (asked self.old name (in_place.bytes_to_edit name.head place self.old.pool.arena))
            (λ r left. on_name self.old name (on_arena self.old.pool
            (in_place.edit name.head place r left self.old.pool.arena))) self.old self.new result }
    {
        if !self.has(name) {
            return Err(Fault::Invalid);
        }
        let token = self.token(name);
        let answer = self.pool.edit(&token, place, change);
        token.forget();
        answered(answer)
    }

    /// Lends the room after the write place of a message's block `place`, counted from 0, to `write`, and moves the write
    /// place over as many bytes as that returns, at most over all. Refused as `Invalid`, `NoSuchBlock`, then `Shared`. As
    /// [`Blocks::fill`] of strm_mblk.
    pub fn fill<F: FnOnce(&mut [u8]) -> usize>(
        &mut self,
        name: Name,
        place: u32,
        write: F,
    ) -> Result<u32, Fault>
        requires { IfOk (asked self.old name (in_place.bytes_to_fill name.head place self.old.pool.arena))
            (FnOnceTakesAtMut F.FnOnce write) }
        ensures { LendsNamed (FnOnceReturnsAtMut F.FnOnce write)
            (asked self.old name (in_place.bytes_to_fill name.head place self.old.pool.arena))
            (λ count left. on_name self.old name (on_arena self.old.pool
            (in_place.fill name.head place count left self.old.pool.arena))) self.old self.new result }
    {
        if !self.has(name) {
            return Err(Fault::Invalid);
        }
        let token = self.token(name);
        let answer = self.pool.fill(&token, place, write);
        token.forget();
        answered(answer)
    }

    /// Lends all bytes of the data block of a message's block `place`, counted from 0, to `change`, which may change them, and
    /// returns what `change` returns. Refused as `Invalid`, `NoSuchBlock`, then `Shared`. As [`Blocks::window`] of strm_mblk.
    pub fn window<R, F: FnOnce(&mut [u8]) -> R>(
        &mut self,
        name: Name,
        place: u32,
        change: F,
    ) -> Result<R, Fault>
        requires { IfOk (asked self.old name (in_place.bytes_of_window name.head place self.old.pool.arena))
            (FnOnceTakesAtMut F.FnOnce change) }
        ensures { LendsNamed (FnOnceReturnsAtMut F.FnOnce change)
            (asked self.old name (in_place.bytes_of_window name.head place self.old.pool.arena))
            (λ r left. on_name self.old name (on_arena self.old.pool
            (in_place.window name.head place r left self.old.pool.arena))) self.old self.new result }
    {
        if !self.has(name) {
            return Err(Fault::Invalid);
        }
        let token = self.token(name);
        let answer = self.pool.window(&token, place, change);
        token.forget();
        answered(answer)
    }

    /// Moves the write place of a message's block `place`, counted from 0, over `count` bytes behind it. Refused as `Invalid`,
    /// `NoSuchBlock`, `Shared`, then `NoRoom`. As [`Blocks::advance`] of strm_mblk.
    pub fn advance(&mut self, name: Name, place: u32, count: u32) -> Result<(), Fault>
        ensures { Does no_message (on_name self.old name (on_arena self.old.pool
            (in_place.advance name.head place count self.old.pool.arena))) [] self.old self.new result }
    {
        if !self.has(name) {
            return Err(Fault::Invalid);
        }
        let token = self.token(name);
        let answer = self.pool.advance(&token, place, count);
        token.forget();
        answered(answer)
    }

    /// Leaves room for `count` bytes before the bytes to come of a message's empty block `place`, counted from 0. Refused as
    /// `Invalid`, `NoSuchBlock`, `Shared`, then `NoRoom`. As [`Blocks::reserve`] of strm_mblk.
    pub fn reserve(&mut self, name: Name, place: u32, count: u32) -> Result<(), Fault>
        ensures { Does no_message (on_name self.old name (on_arena self.old.pool
            (in_place.reserve name.head place count self.old.pool.arena))) [] self.old self.new result }
    {
        if !self.has(name) {
            return Err(Fault::Invalid);
        }
        let token = self.token(name);
        let answer = self.pool.reserve(&token, place, count);
        token.forget();
        answered(answer)
    }

    /// Gives a message's block `place`, counted from 0, the `len` bytes of its data block from byte `at` on, also where other
    /// blocks use that. Refused as `Invalid`, `NoSuchBlock`, then `NoRoom`. As [`Blocks::shape`] of strm_mblk.
    pub fn shape(&mut self, name: Name, place: u32, at: u32, len: u32) -> Result<(), Fault>
        ensures { Does no_message (on_name self.old name (on_arena self.old.pool
            (in_place.shape name.head place at len self.old.pool.arena))) [] self.old self.new result }
    {
        if !self.has(name) {
            return Err(Fault::Invalid);
        }
        let token = self.token(name);
        let answer = self.pool.shape(&token, place, at, len);
        token.forget();
        answered(answer)
    }

    /// Gives the first blocks of a message these shapes, to all or none. Refused as `Invalid`, `NoSuchBlock`, then as the first
    /// shape that does not fit: `NoRoom`, then `Shared`. As [`Blocks::shape_all`] of strm_mblk.
    pub fn shape_all<S: Shaped>(&mut self, name: Name, shapes: &[S]) -> Result<(), Fault>
        ensures { Does no_message (on_name self.old name (on_arena self.old.pool
            (in_place.shape_all name.head (map S.shape shapes.now) self.old.pool.arena))) [] self.old self.new result }
    {
        if !self.has(name) {
            return Err(Fault::Invalid);
        }
        let token = self.token(name);
        let answer = self.pool.shape_all(&token, shapes);
        token.forget();
        answered(answer)
    }

    /// Puts bytes before those of a message's first block. Refused as `Invalid`, `Shared`, then `NoRoom`. As
    /// [`Blocks::prepend`] of strm_mblk.
    pub fn prepend(&mut self, name: Name, bytes: &[u8]) -> Result<(), Fault>
        ensures { Does no_message (on_name self.old name (on_arena self.old.pool
            (in_place.prepend name.head bytes.now self.old.pool.arena))) [] self.old self.new result }
    {
        if !self.has(name) {
            return Err(Fault::Invalid);
        }
        let token = self.token(name);
        let answer = self.pool.prepend(&token, bytes);
        token.forget();
        answered(answer)
    }

    /// Writes `bytes` over those of a message, from byte `at` on, across its blocks. Refused as `Invalid`, `Short`, then
    /// `Shared`. As [`Blocks::overwrite`] of strm_mblk.
    pub fn overwrite(&mut self, name: Name, at: u32, bytes: &[u8]) -> Result<(), Fault>
        ensures { Does no_message (on_name self.old name (on_arena self.old.pool
            (in_place.overwrite name.head at bytes.now self.old.pool.arena))) [] self.old self.new result }
    {
        if !self.has(name) {
            return Err(Fault::Invalid);
        }
        let token = self.token(name);
        let answer = self.pool.overwrite(&token, at, bytes);
        token.forget();
        answered(answer)
    }
}
