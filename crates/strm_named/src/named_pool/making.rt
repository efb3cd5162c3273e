//! Calls that make messages and return their names, and calls that free messages.
ghost use Rattle.std.specs.Prelude.{◌-◌, ◌<◌, [], ◌∷◌, Ok};
ghost use Rattle.strm_mblk.specs.BlockCalls as blocks;
ghost use Rattle.strm_mblk.specs.BlockCalls.{IsSupplied};
ghost use Rattle.strm_mblk.specs.Freeing as freeing;
ghost use Rattle.strm_mblk.specs.Given.{given_nothing};
ghost use Rattle.strm_named.specs.NamedCalls.{Does, TransfersNamed, any_message, on_name, one_message, outcome_of, no_message};
ghost use Rattle.strm_pool.specs.PoolValue.{on_arena, with_arena};

use super::NamedPool;
use crate::fault::{Fault, refused};
use crate::name::Name;
use crate::stamps::{answer, give, give_any};
use strm_pool::Supply;

impl NamedPool {
    /// Makes a message of one block for `size` bytes, and returns its name. Refused as `TooLarge`, `NoMblk`, then `NoData`. As
    /// [`Blocks::allocb`] of strm_mblk.
    #[inline(always)]
    pub fn allocb(&mut self, size: u32) -> Result<Name, Fault>
        ensures { Does one_message (outcome_of (on_arena self.old.pool (blocks.allocb size self.old.pool.arena)))
            [] self.old self.new result }
    {
        match self.pool().supply(size) {
            Ok(supply) => Ok(self.allocb_from(size, supply)),
            Err(why) => Err(Fault::Refused(why)),
        }
    }

    /// Makes a message as `allocb` does for this size, from a supply that the pool returned, and returns its name. As
    /// [`Blocks::allocb_from`] of strm_mblk.
    #[inline(always)]
    pub fn allocb_from(&mut self, size: u32, supply: Supply) -> Name
        requires supply { IsSupplied size self.old.pool.arena supply }
        requires some { 0 < supply.count }
        ensures does { Does one_message (outcome_of (on_arena self.old.pool (blocks.allocb size self.old.pool.arena)))
            [] self.old self.new (Ok result) }
        ensures supply { IsSupplied size self.new.pool.arena (record supply { count = supply.count - 1 }) }
    {
        let token = self.pool.allocb_from(size, supply);
        give(&mut self.stamps, token)
    }

    /// Makes a message of one block that references the data of this message's first block, and returns its name. Refused as
    /// `Invalid`, `NoMblk`, then `RefMax`. As [`Blocks::dupb`] of strm_mblk.
    pub fn dupb(&mut self, name: Name) -> Result<Name, Fault>
        ensures { Does one_message (on_name self.old name (on_arena self.old.pool
            (blocks.dupb name.head self.old.pool.arena))) [] self.old self.new result }
    {
        if !self.has(name) {
            return Err(Fault::Invalid);
        }
        let token = self.token(name);
        let given = self.pool.dupb(&token);
        token.forget();
        answer(&mut self.stamps, given)
    }

    /// Makes a message whose blocks reference the data of this message's blocks, and returns its name. Refused as `Invalid`,
    /// `NoMblk`, then `RefMax`. As [`Blocks::dupmsg`] of strm_mblk.
    pub fn dupmsg(&mut self, name: Name) -> Result<Name, Fault>
        ensures { Does one_message (on_name self.old name (on_arena self.old.pool
            (blocks.dupmsg name.head self.old.pool.arena))) [] self.old self.new result }
    {
        if !self.has(name) {
            return Err(Fault::Invalid);
        }
        let token = self.token(name);
        let given = self.pool.dupmsg(&token);
        token.forget();
        answer(&mut self.stamps, given)
    }

    /// Makes a message of one block over a copy of the data of this message's first block, and returns its name. Refused as
    /// `Invalid`, `NoMblk`, then `NoData`. As [`Blocks::copyb`] of strm_mblk.
    pub fn copyb(&mut self, name: Name) -> Result<Name, Fault>
        ensures { Does one_message (on_name self.old name (on_arena self.old.pool
            (blocks.copyb name.head self.old.pool.arena))) [] self.old self.new result }
    {
        if !self.has(name) {
            return Err(Fault::Invalid);
        }
        let token = self.token(name);
        let given = self.pool.copyb(&token);
        token.forget();
        answer(&mut self.stamps, given)
    }

    /// Makes a message of blocks over copies of the data of this message's blocks, and returns its name. Refused as `Invalid`,
    /// `NoMblk`, then `NoData`. As [`Blocks::copymsg`] of strm_mblk.
    pub fn copymsg(&mut self, name: Name) -> Result<Name, Fault>
        ensures { Does one_message (on_name self.old name (on_arena self.old.pool
            (blocks.copymsg name.head self.old.pool.arena))) [] self.old self.new result }
    {
        if !self.has(name) {
            return Err(Fault::Invalid);
        }
        let token = self.token(name);
        let given = self.pool.copymsg(&token);
        token.forget();
        answer(&mut self.stamps, given)
    }

    /// Frees the first block of a message, and returns a new name for the others, if any; the old name is spent. Refused as
    /// `Invalid`. As [`Blocks::freeb`] of strm_mblk.
    pub fn freeb(&mut self, name: Name) -> Result<Option<Name>, Fault>
        ensures { Does any_message (on_name self.old name (on_arena self.old.pool
            (Ok (blocks.freeb name.head self.old.pool.arena)))) (name.head ∷ []) self.old self.new result }
    {
        if !self.has(name) {
            return Err(Fault::Invalid);
        }
        let token = self.token(name);
        let rest = self.pool.freeb(token);
        Ok(give_any(&mut self.stamps, rest))
    }

    /// Frees a message, and spends its name. Refused as `Invalid`. As [`Blocks::freemsg`] of strm_mblk.
    #[inline(always)]
    pub fn freemsg(&mut self, name: Name) -> Result<(), Fault>
        ensures { Does no_message (on_name self.old name
            (given_nothing (with_arena self.old.pool (freeing.freemsg name.head self.old.pool.arena)))) (name.head ∷ [])
            self.old self.new result }
    {
        if !self.has(name) {
            return Err(Fault::Invalid);
        }
        let token = self.token(name);
        self.pool.free_held(token);
        Ok(())
    }

    /// Makes a message anew in another named pool, frees it here, and spends its name. Returns the new message's name, which is
    /// one of `other`. The pools should have different ids, so that no name is valid in both. Refused as `Invalid`, `TooLarge`,
    /// `NoMblk`, then `NoData`; nothing changes in either pool then. As [`Blocks::transfer`] of strm_mblk.
    pub fn transfer(&mut self, other: &mut NamedPool, name: Name) -> Result<Name, Fault>
        ensures { TransfersNamed name (on_name self.old name (on_arena other.old.pool
            (blocks.transfer self.old.pool.arena name.head other.old.pool.arena)))
            (outcome_of (given_nothing (with_arena self.old.pool (freeing.freemsg name.head self.old.pool.arena))))
            self.old self.new other.old other.new result }
    {
        if !self.has(name) {
            return Err(Fault::Invalid);
        }
        let token = self.token(name);
        match self.pool.transfer(&mut other.pool, token) {
            Ok(made) => Ok(give(&mut other.stamps, made)),
            Err(rejected) => Err(refused(rejected)),
        }
    }
}
