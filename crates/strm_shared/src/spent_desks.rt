//! A list of spent desks, which keeps what they were served.
ghost use Rattle.std.specs.Prelude.{◌≡◌, ◌<◌, ◌∷◌, [], length};
ghost use Rattle.strm_pool.specs.Limits.{most_workers};

use crate::desk::Desk;
use crate::name::Name;
use crate::views::View;
use arrayvec::ArrayVec;
use atomic_table::Seat;
use std::marker::Model;
use strm_pool::{MOST_WORKERS, Regs};

/// At most `MOST_WORKERS` spent desks, in order. Contracts see the calls that each was served, with their stamps. A desk's seat
/// knows them, and only [`SpentDesks::spend`] adds a seat. The list cannot be cloned; it has no tokens and may be dropped.
#[derive(Drop)]
pub struct SpentDesks {
    seats: ArrayVec<Option<Seat<(), View>>, MOST_WORKERS>,
}

impl Model for SpentDesks {
    ghost use Rattle.std.specs.Prelude.{ℕ, List, map};
    ghost use Rattle.strm_pool.specs.declared.line.Entry.{Entry};
    ghost use Rattle.strm_shared.specs.SeatsLayout.{known_in};

    ghost Value = { List (List (ℕ × Entry)) };

    ghost view = { λ s. map (λ o. (known_in o).served) s.seats.items };
}

impl SpentDesks {
    /// Makes an empty list.
    pub fn new() -> SpentDesks
        ensures { result ≡ [] }
    {
        SpentDesks {
            seats: ArrayVec::new(),
        }
    }

    /// Returns the number of desks.
    pub fn len(&self) -> usize
        ensures { result ≡ length self.now }
    {
        self.seats.len()
    }

    /// Spends a desk: adds it before the others, and returns its registers. The list must have room for it. The desk's shared
    /// pool cannot be gathered any more.
    pub fn spend<N: Name>(&mut self, desk: Desk<N>) -> Regs
        requires { length self.old < most_workers }
        ensures regs { result ≡ desk.regs }
        ensures served { self.new ≡ desk.served ∷ self.old }
    {
        let Desk {
            number: _,
            seen: _,
            calls: _,
            regs,
            seat,
            share: _,
            of: _,
        } = desk;
        self.seats.insert(0, seat);
        regs
    }
}
