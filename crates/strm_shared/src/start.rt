//! The start of sharing: all memory is taken first, then the pool gets its name.
ghost use Rattle.std.specs.Prelude.{◌≡◌, ◌≤◌, [], ◌∷◌, length};
ghost use Rattle.strm_mblk.specs.Arena.{census_of};
ghost use Rattle.strm_mblk.specs.Limits.{most_message_blocks};
ghost use Rattle.strm_shared.specs.Desks.{fresh_desks};
ghost use Rattle.strm_pool.specs.Limits.{most_workers};
ghost use Rattle.strm_shared.specs.Pairs.{count_in, pair_at};
ghost use Rattle.strm_shared.specs.Seats.{opening_history};
ghost use Rattle.strm_shared.specs.SeatsLayout.{IsLock};
ghost use Rattle.strm_shared.specs.Starts.{IsNameOf, Starts};

use crate::board::Board;
use crate::book::Book;
use crate::desk::Desk;
use crate::desk_count::DeskCount;
use crate::desks::Desks;
use crate::held::Held;
use crate::kept_trace::KeptTrace;
use crate::name::Name;
use crate::rule::WordRule;
use crate::setup::Setup;
use crate::shared::Shared;
use crate::views::View;
use crate::word::pack;
use atomic_table::{Seat, Table};
use std::alloc::Global;
use std::marker::{Model, PhantomData};
use std::sync::Mutex;
use std::sync::ledger::{Blank, Share};
use strm_pool::{Census, NewFault, Pool, Regs};

/// A pool that is ready to be shared, with all memory that its sharing takes. It has no name yet.
#[derive(Drop)]
pub struct Start {
    pool: Pool,
    desks: u8,
    first_stamp: u64,
    trace: KeptTrace,
    blank: Blank,
    table: Table<(), View, (u64, Census), WordRule, Global>,
    seat: Seat<(), View>,
}

impl Model for Start {
    ghost use Rattle.strm_shared.specs.Starts.{StartValue};
    ghost use Rattle.strm_shared.specs.Invariants.{IsSoundStart};

    ghost Value = { StartValue };

    ghost view = { λ s. record {
      pool = s.pool;
      board = s.table.shared.table_id;
      desks = s.desks;
      first = s.first_stamp;
      kept = s.trace.most;
      ledger = s.blank.name;
    } };

    ghost invariant = { λ s. IsSoundStart s.pool s.desks s.first_stamp s.trace s.blank.parts
        s.table.shared.table_id s.table.shared.key s.seat };
}

impl Start {
    /// Takes all memory for sharing the pool. No message of the pool may be held.
    ///
    /// Returns `BadShared` if the number of desks, the first stamp or the number of trace entries is out of range, then
    /// `Memory` if memory is refused. The pool then comes back unchanged.
    pub fn new(alloc: Global, pool: Pool, setup: Setup) -> Result<Start, (NewFault, Pool)>
        requires { (census_of pool.arena).held ≡ 0 }
        ensures { Starts pool setup result }
    {
        if setup.is_bad_shared() {
            return Err((NewFault::BadShared, pool));
        }
        let Ok(trace) = KeptTrace::new(alloc, setup.trace) else {
            return Err((NewFault::Memory, pool));
        };
        pool.lawful();
        let opening = (setup.first_stamp, pool.census());
        let Ok((table, seat)) = Table::of_words(alloc, &[pack(opening)], &opening) else {
            return Err((NewFault::Memory, pool));
        };
        Ok(Start {
            pool,
            desks: setup.desks,
            first_stamp: setup.first_stamp,
            trace,
            blank: Blank::new(u64::from(setup.desks)),
            table,
            seat,
        })
    }

    /// Shares the pool under a name, which must be that of this start. Returns the shared pool and its desks, numbered from 0,
    /// with empty registers. Each desk has seen the first stamp and the pool's census. This allocates nothing and cannot fail.
    pub fn open<N: Name>(self) -> (Shared<N>, Desks<N>)
        requires { IsNameOf N.Name self }
        ensures { result.1 ≡ fresh_desks N.desks (pair_at N.first N.opened ∷ []) }
    {
        let Start {
            pool,
            desks: count,
            first_stamp,
            trace,
            blank,
            table,
            mut seat,
        } = self;
        pool.lawful();
        let census = pool.census();
        let board = Board {
            table,
            blocks: census.free + census.queued + census.held,
            of: PhantomData,
        };
        let (held, share) = blank.open::<Held<N>>();
        let desks = hand_out(&board, &mut seat, count, first_stamp, share);
        let book = Book {
            pool,
            stamp: first_stamp,
            trace,
            seat,
            held,
            of: PhantomData,
        };
        let shared = Shared {
            board,
            book: Mutex::new(book),
            count: DeskCount {
                number: count,
                of: PhantomData,
            },
        };
        (shared, desks)
    }
}

// Makes the desks, numbered from 0. Each gets one part of a ledger that counts nothing yet, and a seat that leaves the lock's
// seat.
fn hand_out<N: Name>(
    board: &Board<N>,
    lock: &mut Seat<(), View>,
    count: u8,
    first_stamp: u64,
    share: Share<Held<N>>,
) -> Desks<N>
    requires lock { IsLock N.board (opening_history (pair_at N.first N.opened) 0) [] lock.old }
    requires blocks { count_in (census_of N.opened.arena) ≡ length N.opened.arena.held }
    requires few_blocks { length N.opened.arena.held ≤ most_message_blocks }
    requires first { first_stamp ≡ N.first }
    requires few { count ≤ most_workers }
    requires below { count ≤ N.desks }
    requires parts { share.parts ≡ count }
    requires amount { share.amount ≡ 0 }
    ensures lock { IsLock N.board (opening_history (pair_at N.first N.opened) count) [] lock.new }
    ensures desks { result ≡ fresh_desks count (pair_at N.first N.opened ∷ []) }
{
    let mut share = share;
    let mut desks = Desks::new();
    for number in 0..count {
        desks.push(Desk {
            number,
            seen: first_stamp,
            calls: 0,
            regs: Regs::new(),
            seat: Some(board.seat_desk(lock)),
            share: share.split_off(1, 0),
            of: PhantomData,
        });
    }
    desks
}
