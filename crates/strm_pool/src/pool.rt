//! The pool: what it is made of, its laws, and what it says of tokens, registers and blocks.
ghost use Rattle.std.specs.Prelude.{◌≡◌, List, true, IfOk, IsTrue, None, slice_get};
ghost use Rattle.std.specs.Option.{option_map_or};
ghost use Rattle.strm_data.specs.DataStore.{DataBlock, class_infos};
ghost use Rattle.strm_mblk.specs.Arena.{census_of, has, with_least_reset};
ghost use Rattle.strm_pool.specs.Config.{fault_of};
ghost use Rattle.strm_pool.specs.Lawful.{DifferInBytes, IsLawful, TakesAsFlushes, with_data_blocks};
ghost use Rattle.strm_pool.specs.PoolValue.{Opens, has_queue, opening_pool, owns, queued_blocks_of, with_arena};
ghost use Rattle.strm_pool.specs.Registers.{CarryId, AreOfHeld, entries_of};
ghost use Rattle.strm_queue.specs.QueuedBlocks.{Agrees};

mod blocks;
mod in_place;
mod looks;
mod queues;
mod wishes;

use crate::config::{Config, NewFault};
use crate::regs::Regs;
use crate::wishes::Wishes;
use std::alloc::{AllocError, Global};
use std::marker::Model;
use strm_data::ClassInfo;
use strm_mblk::{Blocks, Census, Token};
use strm_queue::Queues;

/// A pool of message blocks over data blocks, with its queues and wishes. Callers hold messages as tokens; the others are
/// on queues. Only `new` allocates.
#[derive(Debug, Drop)]
pub struct Pool {
    blocks: Blocks,
    queues: Queues,
    wishes: Wishes,
}

impl Model for Pool {
    ghost use Rattle.strm_pool.specs.PoolValue.{PoolValue};

    ghost Value = { PoolValue };

    ghost use Rattle.strm_pool.specs.PoolLayout.{pool_value, IsSound};

    ghost view = { pool_value };

    ghost invariant = { IsSound };
}

impl Pool {
    /// Makes the pool of a configuration: all blocks are free, and all queues are empty. Returns `BadConfig` with the first
    /// fault, if any, then `Memory` if memory is refused; no memory is kept then.
    pub fn new(alloc: Global, config: Config) -> Result<Pool, NewFault>
        ensures opens { Opens config result }
        // No message is held.
        ensures idle { IfOk result (λ pool. (census_of pool.arena).held ≡ 0) }
    {
        if let Some(which) = config.fault() {
            return Err(NewFault::BadConfig(which));
        }
        match Pool::build(alloc, &config) {
            Ok(pool) => Ok(pool),
            Err(_) => Err(NewFault::Memory),
        }
    }

    // Makes the pool of a lawful configuration.
    fn build(alloc: Global, config: &Config) -> Result<Pool, AllocError>
        requires { fault_of config.now ≡ None }
        ensures { IfOk result (λ v. v ≡ opening_pool config.now) }
    {
        let queues = config.queues.items();
        Ok(Pool {
            blocks: Blocks::new(
                alloc,
                config.id,
                config.mblks,
                config.classes.items(),
                queues.len() as u8,
            )?,
            queues: Queues::new(alloc, queues)?,
            wishes: Wishes::new(config.bufcalls, config.first_id),
        })
    }

    /// Law: each pool is as [`IsLawful`] says: each block is in one place, and each queue in priority order. Does nothing.
    pub fn lawful(&self)
        ensures { IsLawful self.now }
    {
        self.blocks.lawful();
        self.queues.lawful(&self.blocks);
        self.wishes.lawful();
    }

    /// Law: a pool stays lawful if its data blocks get other bytes, as many as before. Does nothing.
    pub fn lawful_with_any_bytes(&self)
        ensures { (blocks : List DataBlock) → DifferInBytes self.now.arena.store.blocks blocks
            → IsLawful (with_data_blocks blocks self.now) }
    {
        self.lawful();
    }

    /// Law: if `take_flushed` takes as many messages as there are, it leaves the queues as `flushq` does, and
    /// `take_flushed_band` as `flushband`. Does nothing.
    pub fn takes_as_flushes(&self)
        ensures { TakesAsFlushes (queued_blocks_of self.now) }
    {}

    /// Lends the queues, which agree with the message blocks.
    pub fn queues(&self) -> &Queues
        ensures state { result.now.state ≡ self.now.queues }
        ensures agrees { Agrees result.now self.now.arena }
    {
        &self.queues
    }

    /// Lends the message blocks.
    pub fn blocks(&self) -> &Blocks
        ensures { result.now ≡ self.now.arena }
    {
        &self.blocks
    }

    /// Says whether the pool has the token. As [`Blocks::has`] of strm_mblk.
    pub fn has(&self, token: &Token) -> bool
        ensures { result ≡ has self.now.arena token.now }
    {
        self.blocks.has(token)
    }

    // Whether the pool has the token of a register; true if the register is empty.
    fn has_any(&self, slot: &Option<Token>) -> bool
        ensures { result ≡ option_map_or (has self.now.arena) slot.now true }
    {
        match slot {
            Some(token) => self.has(token),
            None => true,
        }
    }

    /// Says whether the pool has each token in these registers.
    pub fn owns(&self, regs: &Regs) -> bool
        ensures { result ≡ owns self.now regs.now }
    {
        regs.slots().iter().all(|slot| self.has_any(slot.token()))
    }

    /// Law: a pool has the tokens of registers if they all carry its id, and each is of a held message with its number of
    /// blocks. Does nothing.
    pub fn lawful_regs(&self, regs: &Regs)
        ensures { CarryId self.now.arena.id regs.now → AreOfHeld self.now.arena (entries_of regs.now)
            → IsTrue (owns self.now regs.now) }
    {
        let _ = regs;
    }

    /// Says whether there is a queue of this number.
    pub fn has_queue(&self, queue: u8) -> bool
        ensures { result ≡ has_queue self.now queue }
    {
        self.queues.has_queue(queue)
    }

    /// Returns the size of a class and its free and total data blocks, or none. As [`Blocks::class_info`] of strm_mblk.
    pub fn class_info(&self, class: u8) -> Option<ClassInfo>
        ensures { result ≡ slice_get (class_infos self.now.arena.store) class }
    {
        self.blocks.class_info(class)
    }

    /// Makes the message blocks and data blocks that are free now the fewest that were free, which
    /// [`Blocks::least_free_blocks`] and [`Blocks::least_free`] of strm_mblk return. As [`Blocks::reset_least`] of it.
    pub fn reset_least(&mut self)
        ensures { self.new ≡ with_arena self.old (with_least_reset self.old.arena) }
    {
        self.blocks.reset_least();
    }

    /// Counts message blocks: free, queued and held. As [`Blocks::census`] of strm_mblk.
    pub fn census(&self) -> Census
        ensures { result ≡ census_of self.now.arena }
    {
        self.blocks.census()
    }
}
