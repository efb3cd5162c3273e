//! The pool with names: what it is made of, and what it says of names, queues and blocks.
ghost use Rattle.std.specs.Prelude.{◌≡◌, ◌&&◌, IfOk, IsTrue, Ok, length, not, ◌==◌};
ghost use Rattle.strm_mblk.specs.Arena.{with_least_reset};
ghost use Rattle.strm_mblk.specs.Given.{given_nothing};
ghost use Rattle.strm_named.specs.NamedCalls.{LeavesNames};
ghost use Rattle.strm_named.specs.NamedValue.{HasNoNames, OpensNamed, is_valid, name_at};
ghost use Rattle.strm_named.specs.Stamps.{IsTokenOf};
ghost use Rattle.strm_pool.specs.Lawful.{IsLawful};
ghost use Rattle.strm_pool.specs.PoolValue.{on_arena};

mod blocks;
mod in_place;
mod making;
mod queues;
mod wishes;

use crate::name::Name;
use std::alloc::Global;
use std::marker::Model;
use strm_pool::{Config, NewFault, Pool, Token};

/// A pool in which each held message has a name.
///
/// Calls take and return names instead of tokens, and require nothing of them. A name that is not valid is refused as
/// `Fault::Invalid`, and nothing changes then; `linkb` of a message to itself is refused so too. `has` returns false for it.
/// Otherwise a call on a name does what the call does that its comment names, by a token that it makes. Only `new` allocates:
/// what `Pool::new` does, and 8 bytes for each message block.
#[derive(Drop)]
pub struct NamedPool {
    pool: Pool,
    // The stamp of each message block, by its number.
    stamps: Vec<u64>,
}

impl Model for NamedPool {
    ghost use Rattle.strm_named.specs.NamedValue.{NamedValue};

    ghost Value = { NamedValue };

    ghost use Rattle.strm_named.specs.NamedLayout.{named_value, IsSound};

    ghost view = { named_value };

    ghost invariant = { IsSound };
}

impl NamedPool {
    /// Makes the named pool of a configuration; no name is valid yet. Returns `BadConfig` with the first fault, if any, then
    /// `Memory` if memory is refused; no memory is kept then. As [`Pool::new`] of strm_pool.
    pub fn new(alloc: Global, config: Config) -> Result<NamedPool, NewFault>
        ensures opens { OpensNamed config result }
        ensures unnamed { IfOk result HasNoNames }
    {
        let mblks = config.mblks;
        let pool = Pool::new(alloc, config)?;
        match vec![in alloc; 0; mblks as usize] {
            Ok(stamps) => Ok(NamedPool { pool, stamps }),
            Err(_) => Err(NewFault::Memory),
        }
    }

    /// Law: a named pool has the laws of a pool, and a stamp for each message block. Does nothing.
    pub fn lawful(&self)
        ensures pool { IsLawful self.now.pool }
        ensures stamps { length self.now.stamps ≡ length self.now.pool.arena.held }
    {
        self.pool.lawful();
    }

    /// Lends the pool, for calls that change nothing and take no name, such as `pool.pool().census()`.
    pub fn pool(&self) -> &Pool
        ensures { result.now ≡ self.now.pool }
    {
        &self.pool
    }

    /// Makes the message blocks and data blocks that are free now the fewest that were free. Changes no name. As
    /// [`Pool::reset_least`] of strm_pool.
    pub fn reset_least(&mut self)
        ensures { LeavesNames (on_arena self.old.pool (given_nothing (with_least_reset self.old.pool.arena)))
            self.old self.new (Ok tt) }
    {
        self.pool.reset_least();
    }

    /// Says whether a name is valid: it has this pool's id, a message is held at its head, and its stamp is the last one of
    /// that head.
    pub fn has(&self, name: Name) -> bool
        ensures { result ≡ is_valid self.now name }
    {
        self.pool.blocks().is_held(name.pool, name.head)
            && name.stamp == self.stamps[name.head as usize]
    }

    /// Returns the name of the message that is held at a head, or none if no message is held there; a queued message is not
    /// held. Changes nothing. Takes constant time. So a program that lost a name finds it again: it asks with the number of each
    /// message block in turn.
    pub fn name_at(&self, head: u32) -> Option<Name>
        ensures { result ≡ name_at self.now head }
    {
        let blocks = self.pool.blocks();
        let pool = blocks.id();
        if !blocks.is_held(pool, head) {
            return None;
        }
        Some(Name {
            pool,
            head,
            stamp: self.stamps[head as usize],
        })
    }

    // Whether two names are valid, and of different messages.
    fn has_both(&self, first: Name, second: Name) -> bool
        ensures { result ≡ (is_valid self.now first && (is_valid self.now second && not (first.head == second.head))) }
    {
        self.has(first) && self.has(second) && first.head != second.head
    }

    // Makes the token of the message of a valid name.
    #[inline(always)]
    fn token(&self, name: Name) -> Token
        requires { IsTrue (is_valid self.now name) }
        ensures { IsTokenOf name self.now.pool.arena result }
    {
        self.pool.blocks().token(name.head)
    }
}
