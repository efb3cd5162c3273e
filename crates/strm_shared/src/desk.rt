//! Desks: each gives one worker its place at a shared pool.
ghost use Rattle.std.specs.Prelude.{◌≡◌, ◌<◌, ◌^◌, All, length};
ghost use Rattle.strm_shared.specs.Desks.{stamp_seen};
ghost use Rattle.strm_shared.specs.Ledger.{blocks_held, entry_blocks};
ghost use Rattle.strm_shared.specs.Pairs.{AreSeen, HasStamp};

use crate::held::Held;
use crate::name::Name;
use crate::views::View;
use atomic_table::Seat;
use std::marker::{Model, PhantomData};
use std::sync::ledger::Share;
use strm_pool::{MOST_REGISTERS, Reg, Regs};

/// A worker's place at a shared pool: its number, its registers, and the pairs of a stamp and the census at it that it saw. A
/// desk cannot be cloned or dropped. Gather it, spend it, or lose it with its tokens by `Desks::forget`.
#[must_use]
pub struct Desk<N: Name> {
    pub(crate) number: u8,
    pub(crate) seen: u64,
    pub(crate) calls: u64,
    pub(crate) regs: Regs,
    // The seat at which it takes steps at the word; none only while a call moves it.
    pub(crate) seat: Option<Seat<(), View>>,
    pub(crate) share: Share<Held<N>>,
    pub(crate) of: PhantomData<N>,
}

impl<N: Name> Model for Desk<N> {
    ghost use Rattle.strm_shared.specs.Desks.{DeskValue, desk_value};
    ghost use Rattle.strm_shared.specs.Invariants.{IsSoundDesk};
    ghost use Rattle.strm_shared.specs.SeatsLayout.{known_in};

    ghost Value = { DeskValue };

    ghost view = { λ d. desk_value d.number d.regs (known_in d.seat).pairs (known_in d.seat).served };

    ghost invariant = { λ d. IsSoundDesk N.Name d.number d.seen d.calls d.regs d.share.parts d.share.amount d.seat };
}

impl<N: Name> Desk<N> {
    ghost use Rattle.strm_shared.specs.Desks.{IsDeskOf};

    /// Returns the desk's number, from 0.
    pub fn number(&self) -> u8
        ensures { result ≡ self.now.number }
    {
        self.number
    }

    /// Returns the stamp of the pair that the desk saw last, the greatest that it saw. A new desk has seen the first stamp.
    pub fn seen(&self) -> u64
        ensures { result ≡ stamp_seen self.now }
    {
        self.seen
    }

    /// Returns the number of calls that the desk was served.
    pub fn calls(&self) -> u64
        ensures { result ≡ length self.now.served }
    {
        self.calls
    }

    /// Law: a desk's number is below that of the desks, and its tokens have the pool's id. The pair that it saw last has the
    /// greatest stamp that it saw, and one stamp has one census. Each census counts the pool's message blocks. The desk saw the
    /// pair of each call that it was served. Does nothing.
    pub fn lawful(&self)
        ensures desk { IsDeskOf N.opened.arena.id N.desks self.now }
        ensures seen { AreSeen (length N.opened.arena.held) self.now.pairs }
        ensures carried { All (λ s. HasStamp self.now.pairs s.0) self.now.served }
    {
        let _ = &self.regs;
    }

    /// Spends the desk, and returns its registers. Its shared pool cannot be gathered any more.
    pub fn into_regs(self) -> Regs
        ensures { result ≡ self.regs }
    {
        let Desk {
            number: _,
            seen: _,
            calls: _,
            regs,
            seat: _,
            share: _,
            of: _,
        } = self;
        regs
    }

    // The number of blocks of the tokens in its registers.
    pub(crate) fn blocks_held(&self) -> u64
        ensures { result ≡ blocks_held self.now.regs }
    {
        self.regs.lawful();
        let mut blocks = 0;
        for place in 0..MOST_REGISTERS as u8 {
            let Some(reg) = Reg::new(place) else {
                unreachable!()
            };
            blocks += blocks_told(self.regs.entry(reg));
        }
        blocks
    }

    // Spends the desk, and loses the tokens in its registers.
    pub(crate) fn forget(self) {
        self.into_regs().forget();
    }
}

// The number of blocks of a register's message, by its entry.
fn blocks_told(entry: Option<(u32, u32)>) -> u64
    ensures value { result ≡ entry_blocks entry }
    ensures small { result < 2 ^ 32 }
{
    match entry {
        Some((_, blocks)) => u64::from(blocks),
        None => 0,
    }
}
