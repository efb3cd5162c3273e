//! The board of a shared pool: one atomic word with a stamp and the census at it, and the steps that seats take at it.
ghost use Rattle.std.specs.Prelude.{◌≡◌, ◌<◌, ◌≤◌, List, [], ◌∷◌};
ghost use Rattle.strm_pool.specs.Registers.{entries_of};
ghost use Rattle.strm_shared.specs.Limits.{most_stamp};
ghost use Rattle.strm_shared.specs.Pairs.{count_in, pair_at};
ghost use Rattle.strm_shared.specs.Seats.{IsHistory, IsOf, Shows, history_with_desk, new_known, view_with_pair, with_pair};
ghost use Rattle.strm_shared.specs.Chronicle.{entry_of};
ghost use Rattle.strm_shared.specs.SeatsLayout.{AreEntered, AreGuestsShown, IsAt, IsLock, IsNextOf, IsShownBy};
ghost use Rattle.strm_shared.specs.declared.views.History.{History};
ghost use Rattle.strm_shared.specs.declared.views.Known.{Known};
ghost use Rattle.strm_shared.specs.declared.views.View.TheVariants.{At};

use crate::name::Name;
use crate::rule::{Loads, NewDesk, Reads, Says, Stores, Visits, WordRule};
use crate::told::Told;
use crate::views::View;
use crate::word::{pack, unpack};
use atomic_table::{Seat, Table};
use std::alloc::Global;
use std::marker::PhantomData;
use strm_pool::{Census, Regs};

// The table with the word, and the number of the pool's message blocks.
#[derive(Drop)]
pub(crate) struct Board<N: Name> {
    pub(crate) table: Table<(), View, (u64, Census), WordRule, Global>,
    pub(crate) blocks: u32,
    pub(crate) of: PhantomData<N>,
    pub ghost named: { table.shared.table_id ≡ N.board },
    pub ghost opened: { table.shared.key ≡ pair_at N.first N.opened },
    pub ghost one_word: { table.shared.table_id.words ≡ 1 },
    pub ghost sized: { blocks ≡ count_in (pair_at N.first N.opened).1 },
}

impl<N: Name> Board<N> {
    // A seat loads the word. The desk of the seat has seen the pair then; if it is the lock's seat, each of its guests has.
    fn load(&self, seat: &mut Seat<(), View>) -> (u64, Census)
        requires { seat.old.table_id ≡ N.board }
        ensures seat { (seat.new.table_id ≡ N.board)
            × (seat.new.me ≡ (view_with_pair result seat.old.me.0, seat.old.me.1)) }
        ensures shown { Shows (pair_at N.first N.opened) result seat.new.me.0 }
    {
        let word = self.table.shared.load::<Loads<N>>(seat, 0);
        unpack(self.blocks, word)
    }

    // A desk's seat joins the lock's seat as a guest.
    pub(crate) fn join(&self, lock: &mut Seat<(), View>, desk: Seat<(), View>)
        requires lock { (h : History) × (gs : List Known) × IsLock N.board h gs lock.old }
        requires desk { (d : Known) × IsAt N.board d desk }
        ensures lock { (h : History) × (gs : List Known) × IsLock N.board h gs lock.new }
        ensures joined { (h : History) (gs : List Known) (d : Known) → IsLock N.board h gs lock.old
            → IsAt N.board d desk → IsLock N.board h (d ∷ gs) lock.new }
    {
        self.table.shared.join_seat::<Visits>(lock, desk);
    }

    // The guest that joined the lock's seat last leaves it.
    pub(crate) fn leave(&self, lock: &mut Seat<(), View>) -> Seat<(), View>
        requires { (h : History) × (d : Known) × (gs : List Known) × IsLock N.board h (d ∷ gs) lock.old }
        ensures { (h : History) (d : Known) (gs : List Known) → IsLock N.board h (d ∷ gs) lock.old
            → IsLock N.board h gs lock.new × IsAt N.board d result }
    {
        self.table.shared.split_seat::<Visits>(lock)
    }

    // The lock's seat loads the word, and each of its guests has seen the pair then.
    pub(crate) fn show_guests(&self, lock: &mut Seat<(), View>) -> (u64, Census)
        requires { (h : History) × (gs : List Known) × IsLock N.board h gs lock.old }
        ensures { (h : History) (gs : List Known) → IsLock N.board h gs lock.old
            → AreGuestsShown N.board (pair_at N.first N.opened) h gs result lock.new }
    {
        self.load(lock)
    }

    // A desk's seat joins the lock's seat, which loads the word. This shows that what the desk knows is of the lock's history.
    pub(crate) fn admit(&self, lock: &mut Seat<(), View>, desk: Seat<(), View>)
        requires lock { (h : History) × IsLock N.board h [] lock.old }
        requires desk { (d : Known) × IsAt N.board d desk }
        ensures { (h : History) (d : Known) → IsLock N.board h [] lock.old → IsAt N.board d desk
            → IsLock N.board h (d ∷ []) lock.new × IsOf N.first h d }
    {
        self.join(lock, desk);
        let _ = self.table.shared.load::<Reads<N>>(lock, 0);
    }

    // The lock's seat stores the word of the next pair, with the entry of a call of its guest and the table of the guest's
    // registers. The guest leaves, and knows the pair, the entry and the table.
    pub(crate) fn enter<E: Says>(
        &self,
        lock: &mut Seat<(), View>,
        pair: (u64, Census),
        told: Told<'_>,
        regs: &Regs,
    ) -> Seat<(), View>
        requires lock { (h : History) × (d : Known) × IsLock N.board h (d ∷ []) lock.old
            × IsHistory (pair_at N.first N.opened) h × IsNextOf (pair_at N.first N.opened) h pair
            × (told.desk ≡ d.number) }
        requires unspent { pair.0 ≤ most_stamp }
        requires entry { entry_of told.desk told.line told.call.now told.reply.now ≡ E.entry }
        requires table { entries_of regs.now ≡ E.table }
        ensures { (h : History) (d : Known) → IsLock N.board h (d ∷ []) lock.old
            → AreEntered N.board pair
            (entry_of told.entry.desk told.entry.line told.entry.call.now told.entry.reply.now)
            (entries_of regs.now) h d lock.new result }
    {
        let _ = told;
        let _ = regs;
        self.table.shared.store::<Stores<N, E>>(lock, 0, pack(pair));
        self.leave(lock)
    }

    // A desk's seat joins the lock's seat, which loads the word, and leaves it; the desk has seen the pair then.
    pub(crate) fn show_desk(
        &self,
        lock: &mut Seat<(), View>,
        desk: Seat<(), View>,
    ) -> ((u64, Census), Seat<(), View>)
        requires lock { (h : History) × IsLock N.board h [] lock.old }
        requires desk { (d : Known) × IsAt N.board d desk }
        ensures { (h : History) (d : Known) → IsLock N.board h [] lock.old → IsAt N.board d desk
            → IsShownBy N.board (pair_at N.first N.opened) h d result.0 lock.new result.1 }
    {
        self.join(lock, desk);
        let pair = self.show_guests(lock);
        (pair, self.leave(lock))
    }

    // A desk's seat loads the word; the desk has seen the pair then.
    pub(crate) fn see(&self, desk: &mut Seat<(), View>) -> (u64, Census)
        requires { (d : Known) × IsAt N.board d desk.old }
        ensures { (d : Known) → IsAt N.board d desk.old → IsAt N.board (with_pair result d) desk.new
            × Shows (pair_at N.first N.opened) result (At (with_pair result d)) }
    {
        self.load(desk)
    }

    // Makes the seat of a new desk.
    pub(crate) fn seat_desk(&self, lock: &mut Seat<(), View>) -> Seat<(), View>
        requires { (h : History) × IsLock N.board h [] lock.old }
        ensures { (h : History) → IsLock N.board h [] lock.old → IsLock N.board (history_with_desk h) [] lock.new
            × IsAt N.board (new_known h) result }
    {
        self.table.shared.split_seat::<NewDesk>(lock)
    }
}
