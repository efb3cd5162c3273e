//! Calls on wishes: `bufcall`, `unbufcall`, and `take_ready`, which callers use instead of a callback.
ghost use Rattle.std.specs.Prelude.{Ok, ◌≡◌, ◌<◌, IfSome, length};
ghost use Rattle.std.specs.List.{position};
ghost use Rattle.strm_mblk.specs.Calls.{LeavesBlocks};
ghost use Rattle.strm_pool.specs.PoolValue.{arena};
ghost use Rattle.strm_pool.specs.Wishes as wishes;

use super::Pool;
use strm_data::Refusal;

impl Pool {
    /// Records a wish for a message block over a data block of `size` bytes or more, after all others, and returns its id.
    /// Ids rise by 1 from the configuration's first one up to `LAST_ID`.
    ///
    /// Refused as `TooLarge` if the size is above the largest class, then as `Full` if there are as many wishes as the
    /// configuration allows, then as `IdsSpent` after the last id; then nothing changes. Takes at most a step for each size
    /// class. STREAMS' `bufcall` later calls a function; here callers ask [`Pool::take_ready`].
    pub fn bufcall(&mut self, size: u32) -> Result<u32, Refusal>
        ensures { LeavesBlocks arena (wishes.bufcall size self.old) self.old self.new result }
    {
        if !self.blocks.has_class_for(size) {
            return Err(Refusal::TooLarge);
        }
        self.wishes.record(size)
    }

    /// Removes the wish with this id. Refused as `NotPending` if there is none; then nothing changes. Takes a step for each
    /// wish.
    pub fn unbufcall(&mut self, id: u32) -> Result<(), Refusal>
        ensures { LeavesBlocks arena (wishes.unbufcall id self.old) self.old self.new result }
    {
        match self.wishes.place_of(id) {
            Some(place) => {
                self.wishes.remove(place);
                Ok(())
            }
            None => Err(Refusal::NotPending),
        }
    }

    // The place of the first wish for which `allocb` would succeed now, if any.
    fn ready_place(&self) -> Option<usize>
        ensures place { result ≡ position (wishes.is_ready self.now) self.now.wishes.pending }
        ensures there { IfSome result (λ place. place < length self.now.wishes.pending) }
    {
        self.wishes
            .items()
            .iter()
            .position(|wish| self.blocks.testb(wish.1))
    }

    /// Removes the earliest wish for which `allocb` would succeed now, if any, and returns its id and size. It reserves no
    /// block. Takes at most two steps for each pair of a wish and a size class. This project's own call.
    pub fn take_ready(&mut self) -> Option<(u32, u32)>
        ensures { LeavesBlocks arena (Ok (wishes.take_ready self.old)) self.old self.new (Ok result) }
    {
        let place = self.ready_place()?;
        self.wishes.remove(place)
    }

    /// Returns the id and the size of the wish at a place, counted from 0 in the order of recording, if any. This project's
    /// own call.
    pub fn wish_at(&self, place: u32) -> Option<(u32, u32)>
        ensures { result ≡ wishes.wish_at place self.now }
    {
        self.wishes.items().get(place as usize).copied()
    }
}
