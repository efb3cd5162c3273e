//! The wishes of `bufcall`, in the order in which they were recorded.
ghost use Rattle.std.specs.Prelude.{◌≡◌, ◌<◌, ◌≤◌, IfSome, Some, [], length, slice_get};
ghost use Rattle.std.specs.List.{position};
ghost use Rattle.strm_mblk.specs.Given.{answer_of, value_after};
ghost use Rattle.strm_pool.specs.Limits.{most_wishes};
ghost use Rattle.strm_pool.specs.Wishes.{AreLawful, has_id, wish_recorded, wishes_without};

use crate::limits::{LAST_ID, MOST_WISHES};
use arrayvec::ArrayVec;
use std::marker::Model;
use strm_data::Refusal;

// Wishes, each with an id and a size.
#[derive(Debug, Drop)]
pub(crate) struct Wishes {
    pending: ArrayVec<(u32, u32), MOST_WISHES>,
    // How many wishes there may be at one time.
    most: u32,
    // The id of the next wish, or none after `LAST_ID`.
    next: Option<u32>,
}

impl Model for Wishes {
    ghost use Rattle.strm_pool.specs.PoolValue.{WishState};

    ghost Value = { WishState };

    ghost use Rattle.strm_pool.specs.WishesLayout.{wishes_in, IsSound};

    ghost view = { wishes_in };

    ghost invariant = { IsSound };
}

impl Wishes {
    // No wishes yet; there may be `most` of them, and the first gets this id.
    pub(crate) fn new(most: u32, first_id: u32) -> Wishes
        requires { most ≤ most_wishes }
        ensures { result ≡ record { most = most; next = Some first_id; pending = [] } }
    {
        Wishes {
            pending: ArrayVec::new(),
            most,
            next: Some(first_id),
        }
    }

    // Law: wishes are within their limit, and their ids rise. Does nothing.
    pub(crate) fn lawful(&self)
        ensures lawful { AreLawful self.now }
        ensures few { length self.now.pending ≤ most_wishes }
    {
        let _ = &self.pending;
    }

    // The wishes, earliest first.
    pub(crate) fn items(&self) -> &[(u32, u32)]
        ensures { result.now ≡ self.now.pending }
    {
        self.pending.as_slice()
    }

    // Records a wish of a size, and returns its id.
    pub(crate) fn record(&mut self, size: u32) -> Result<u32, Refusal>
        ensures after { self.new ≡ value_after self.old (wish_recorded size self.old) }
        ensures answer { result ≡ answer_of (wish_recorded size self.old) }
    {
        if self.pending.len() >= self.most as usize {
            return Err(Refusal::Full);
        }
        let Some(id) = self.next else {
            return Err(Refusal::IdsSpent);
        };
        self.pending.push((id, size));
        self.next = if id < LAST_ID { Some(id + 1) } else { None };
        Ok(id)
    }

    // The place of the wish with this id, if any.
    pub(crate) fn place_of(&self, id: u32) -> Option<usize>
        ensures place { result ≡ position (has_id id) self.now.pending }
        ensures there { IfSome result (λ place. place < length self.now.pending) }
    {
        self.items().iter().position(|wish| wish.0 == id)
    }

    // Removes and returns the wish at a place, counted from 0.
    pub(crate) fn remove(&mut self, place: usize) -> Option<(u32, u32)>
        requires { place < length self.old.pending }
        ensures after { self.new ≡ wishes_without place self.old }
        ensures wish { result ≡ slice_get self.old.pending place }
    {
        self.pending.pop_at(place)
    }
}
