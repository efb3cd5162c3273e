//! A list of desks that allocates nothing, and what gathering does with all desks at once.
ghost use Rattle.std.specs.Prelude.{◌≡◌, ℕ, ◌+◌, ◌≤◌, ◌<◌, ◌++◌, ◌∷◌, List, [], length, map, All, slice_index_or, IsPermutation, IsTrue, ◌↔◌};
ghost use Rattle.std.specs.List.Sorted.{IsNonDecreasingBy};
ghost use Rattle.strm_links.specs.Counting.{times};
ghost use Rattle.strm_shared.specs.Desks.{DeskValue, with_pair_seen};
ghost use Rattle.strm_shared.specs.Ledger.{blocks_at};
ghost use Rattle.strm_pool.specs.Limits.{most_workers};
ghost use Rattle.strm_shared.specs.Pairs.{pair_at};
ghost use Rattle.strm_shared.specs.SeatsLayout.{AreGuestsShown, IsLock, IsDeskOfHistory};
ghost use Rattle.strm_shared.specs.declared.views.History.{History};
ghost use Rattle.strm_shared.specs.declared.views.Known.{Known};

use crate::board::Board;
use crate::desk::Desk;
use crate::desk_slot::DeskSlot;
use crate::held::Held;
use crate::name::Name;
use crate::views::View;
use arrayvec::ArrayVec;
use atomic_table::Seat;
use std::marker::Model;
use std::sync::ledger::{self, Share};
use strm_pool::{Census, MOST_WORKERS};

/// At most `MOST_WORKERS` desks of one shared pool, in order, stored in the value itself: no call allocates. A list cannot be
/// cloned or dropped; `forget` loses it with all that its desks have.
#[must_use]
pub struct Desks<N: Name> {
    slots: ArrayVec<DeskSlot<N>, MOST_WORKERS>,
}

impl<N: Name> Model for Desks<N> {
    ghost use Rattle.std.specs.Prelude.{List};
    ghost use Rattle.strm_shared.specs.Desks.{DeskValue};
    ghost use Rattle.strm_shared.specs.DesksLayout.{AreFilled, desks_in};

    ghost Value = { List DeskValue };

    ghost view = { λ d. desks_in d.slots.items };

    ghost invariant = { λ d. AreFilled d.slots.items };
}

impl<N: Name> Desks<N> {
    ghost use Rattle.std.specs.Borrow.{Lends, sem};
    ghost use Rattle.std.specs.Prelude.{slice_set};
    ghost use Rattle.strm_shared.specs.contracts.desks.Desks.{the_row as desks_row};
    ghost use Rattle.strm_shared.specs.contracts.desk.Desk.{the_row as desk_row};

    /// Makes an empty list.
    pub fn new() -> Desks<N>
        ensures { result ≡ [] }
    {
        Desks {
            slots: ArrayVec::new(),
        }
    }

    /// Returns the number of desks.
    pub fn len(&self) -> usize
        ensures count { result ≡ length self.now }
        ensures few { result ≤ most_workers }
    {
        self.slots.len()
    }

    /// Says whether the list is empty.
    pub fn is_empty(&self) -> bool
        ensures { IsTrue result ↔ (self.now ≡ []) }
    {
        self.slots.is_empty()
    }

    /// Adds a desk at the end. The list must have room for it.
    pub fn push(&mut self, desk: Desk<N>)
        requires { length self.old < most_workers }
        ensures { self.new ≡ self.old ++ desk ∷ [] }
    {
        self.slots.push(DeskSlot::of(desk));
    }

    /// Removes and returns the last desk. The list must not be empty.
    pub fn take_last(&mut self) -> Desk<N>
        requires { 0 < length self.old }
        ensures { self.old ≡ self.new ++ result ∷ [] }
    {
        let Some(slot) = self.slots.pop() else {
            unreachable!()
        };
        slot.into_desk()
    }

    /// Lends the desk at a place, counted from 0, which must exist.
    pub fn desk_mut(&mut self, place: usize) -> &mut Desk<N>
        requires { place < length self.old }
        ensures* writes_back { sem 𝓛 (Lends (desks_row N.row N.Name) (desk_row N.row N.Name) self.entry result
            (slice_set self.old place)) }
        ensures value { result.now ≡ slice_index_or self.old place result.now }
    {
        let Some(slot) = self.slots.get_mut(place) else {
            unreachable!()
        };
        slot.desk_mut()
    }

    // Sorts the desks by their numbers.
    pub(crate) fn sort(&mut self)
        ensures same { IsPermutation self.old self.new }
        ensures sorted { IsNonDecreasingBy (λ (d : DeskValue). d.number) self.new }
    {
        self.slots
            .as_mut_slice()
            .sort_unstable_by_key(|slot| slot.number());
    }

    // Shows, from the ledger, that there are no more desks than its parts. If all parts are here, the ledger's book counts
    // exactly the blocks of these desks. Nothing changes.
    pub(crate) fn audit(&mut self, held: &mut ledger::Book<Held<N>>)
        requires some { 0 < length self.old }
        requires few { length self.old ≤ most_workers }
        ensures same { self.new ≡ self.old }
        ensures within { length self.old ≤ N.desks }
        ensures all { N.desks ≤ length self.old → held.old.total ≡ blocks_at self.old }
    {
        let Desk {
            number,
            seen,
            calls,
            regs,
            seat,
            mut share,
            of,
        } = self.take_last();
        self.audit_beside(held, &mut share);
        self.push(Desk {
            number,
            seen,
            calls,
            regs,
            seat,
            share,
            of,
        });
    }

    // Shows the same if some parts of the ledger are in a share apart from these desks.
    fn audit_beside(&mut self, held: &mut ledger::Book<Held<N>>, share: &mut Share<Held<N>>)
        requires room { length self.old < most_workers }
        requires some { 0 < share.old.parts }
        requires few { share.old.parts ≤ N.desks }
        ensures same { self.new ≡ self.old }
        ensures parts { share.new.parts ≡ share.old.parts }
        ensures amount { share.new.amount ≡ share.old.amount }
        ensures within { share.old.parts + length self.old ≤ N.desks }
        ensures all { N.desks ≤ share.old.parts + length self.old
            → held.old.total ≡ share.old.amount + blocks_at self.old }
    {
        if self.is_empty() {
            held.audit(share);
            return;
        }
        let desk = self.take_last();
        let blocks = desk.blocks_held();
        let Desk {
            number,
            seen,
            calls,
            regs,
            seat,
            share: part,
            of,
        } = desk;
        share.merge(part);
        self.audit_beside(held, share);
        self.push(Desk {
            number,
            seen,
            calls,
            regs,
            seat,
            share: share.split_off(1, blocks),
            of,
        });
    }

    // The seats of all these desks join the lock's seat, which loads the word once. Then each leaves, and its desk has seen the
    // pair.
    pub(crate) fn meet(&mut self, board: &Board<N>, lock: &mut Seat<(), View>) -> (u64, Census)
        requires lock { (h : History) × (gs : List Known) × IsLock N.board h gs lock.old }
        requires few { length self.old ≤ most_workers }
        ensures guests { (h : History) (gs : List Known) → IsLock N.board h gs lock.old
            → AreGuestsShown N.board (pair_at N.first N.opened) h gs result lock.new }
        ensures shown { self.new ≡ map (with_pair_seen result) self.old }
        ensures met { (h : History) (gs : List Known) → IsLock N.board h gs lock.old
            → All (IsDeskOfHistory N.opened.arena.id N.desks N.first h) self.new }
        ensures apart { (h : History) (gs : List Known) → IsLock N.board h gs lock.old → (n : ℕ)
            → times n (map (λ (d : DeskValue). d.number) self.new ++ map (λ (d : Known). d.number) gs) ≤ 1 }
    {
        if self.is_empty() {
            return board.show_guests(lock);
        }
        let Desk {
            number,
            seen: _,
            calls,
            regs,
            seat,
            share,
            of,
        } = self.take_last();
        let Some(seat) = seat else { unreachable!() };
        board.join(lock, seat);
        let pair = self.meet(board, lock);
        let seat = board.leave(lock);
        self.push(Desk {
            number,
            seen: pair.0,
            calls,
            regs,
            seat: Some(seat),
            share,
            of,
        });
        pair
    }

    /// Ends an empty list.
    pub fn end(self)
        requires { self ≡ [] }
    {
        let Desks { slots: _ } = self;
    }

    /// Loses the desks and the tokens in their registers. The messages stay held. If the pool was not gathered before,
    /// no call can reach them any more.
    pub fn forget(self) {
        let Desks { slots: _ } = self;
    }
}
