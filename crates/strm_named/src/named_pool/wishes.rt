//! Calls on wishes, which have no names: each is that of `Pool`.
ghost use Rattle.std.specs.Prelude.{Ok};
ghost use Rattle.strm_named.specs.NamedCalls.{LeavesNames};
ghost use Rattle.strm_pool.specs.Wishes as wishes;

use super::NamedPool;
use strm_pool::Refusal;

#[tactic(auto, using(crate::proofs::Shaped::leaves_names))]
impl NamedPool {
    /// Records a wish for a message block of `size` bytes or more, and returns its id. Refused as `TooLarge`, `Full`, then
    /// `IdsSpent`. As [`Pool::bufcall`] of strm_pool.
    pub fn bufcall(&mut self, size: u32) -> Result<u32, Refusal>
        ensures { LeavesNames (wishes.bufcall size self.old.pool) self.old self.new result }
    {
        self.pool.bufcall(size)
    }

    /// Removes the wish with this id. Refused as `NotPending`. As [`Pool::unbufcall`] of strm_pool.
    pub fn unbufcall(&mut self, id: u32) -> Result<(), Refusal>
        ensures { LeavesNames (wishes.unbufcall id self.old.pool) self.old self.new result }
    {
        self.pool.unbufcall(id)
    }

    /// Removes the earliest wish for which `allocb` would succeed now, if any, and returns its id and size. As
    /// [`Pool::take_ready`] of strm_pool.
    pub fn take_ready(&mut self) -> Option<(u32, u32)>
        ensures { LeavesNames (Ok (wishes.take_ready self.old.pool)) self.old self.new (Ok result) }
    {
        self.pool.take_ready()
    }
}
