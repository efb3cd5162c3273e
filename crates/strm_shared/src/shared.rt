//! Shared pools: calls under a lock, looks at the census without it, and the end of sharing.
ghost use Rattle.std.specs.Prelude.{◌≡◌, ◌≤◌, ◌<◌, ℕ, All, IsTrue, drop, length, map, slice_index_or, IfErr, IfOk, OnOk};
ghost use Rattle.std.specs.List.Sorted.{IsNonDecreasingBy};
ghost use Rattle.strm_data.specs.declared.refusal.Refusal.TheVariants.{DeskMissing};
ghost use Rattle.strm_mblk.specs.Given.{answer_map};
ghost use Rattle.strm_pool.specs.PoolValue.{owns};
ghost use Rattle.strm_pool.specs.Registers.{AreAccounted, entries_of};
ghost use Rattle.strm_shared.specs.Batches.{AreAfter, IsAfterBatch, IsAsAlone};
ghost use Rattle.strm_shared.specs.Books.{AreShown, IsAfter, IsEnd, IsWholeUnder, TellsNewest};
ghost use Rattle.strm_shared.specs.Desks.{DeskValue, no_desk, with_pair_seen, stamp_seen};
ghost use Rattle.strm_shared.specs.Ledger.{AreAll};

use crate::board::Board;
use crate::book::Book;
use crate::desk::Desk;
use crate::desk_count::DeskCount;
use crate::desks::Desks;
use crate::limits::MOST_BATCH;
use crate::name::Name;
use std::hint::spin_loop;
use std::sync::{Mutex, MutexGuard, Wait};
use strm_pool::{Call, Census, Line, Pool, Refusal, Reply, TraceEntries};

// How many times a thread looks whether the lock is free before it sleeps.
const LOOKS: u32 = 16;

/// A pool that threads share under one lock, each with its own desk. An atomic word next to the lock has a stamp, and the
/// numbers of free and queued message blocks at it. Each served call stores the word once, while it has the lock.
#[derive(Drop)]
pub struct Shared<N: Name> {
    pub(crate) board: Board<N>,
    pub(crate) book: Mutex<Book<N>>,
    pub(crate) count: DeskCount<N>,
}

/// What `gather` returns: the pool, the trace, which is empty if none was kept, and the desks in the order of their numbers.
pub struct Gathered<N: Name> {
    pub pool: Pool,
    pub trace: TraceEntries,
    pub desks: Desks<N>,
}

impl<N: Name> Shared<N> {
    /// Serves a call on the desk's registers, and returns its reply. It waits for the lock, and has it for this one call.
    /// `line` is the number of the call's line in its script, from 1. The call is served as [`Book::turn`] says, by a book that
    /// this pool may have. Contracts cannot say which, since other threads change it.
    ///
    /// Refused as `Worn`, then as `TraceFull`, as [`Book::turn`] is, and for no other reason. The desk then has seen the last
    /// stamp that there is, or the stamp at which the trace became full.
    // Inlined into its caller, so that the reply is moved once less.
    #[inline(always)]
    pub fn serve(
        &self,
        rt: &impl Wait,
        desk: &mut Desk<N>,
        line: u32,
        call: &Call,
    ) -> Result<Reply, Refusal>
        ensures after { IsAfter N.Name desk.old line call.now desk.new result }
        ensures census { TellsNewest desk.new result call.now }
        ensures refused { IfErr result (λ why. IsEnd N.Name why (stamp_seen desk.new)) }
    {
        let mut reply = Reply::Done;
        match self.serve_into(rt, desk, line, call, &mut reply) {
            Ok(()) => Ok(reply),
            Err(why) => Err(why),
        }
    }

    /// Serves a call as [`Shared::serve`] does, and writes the reply into `reply`, which stays unchanged if the call is
    /// refused. A reply has room for 64 bytes, so a caller that keeps one saves a copy.
    pub fn serve_into(
        &self,
        rt: &impl Wait,
        desk: &mut Desk<N>,
        line: u32,
        call: &Call,
        reply: &mut Reply,
    ) -> Result<(), Refusal>
        ensures after { IsAfter N.Name desk.old line call.now desk.new (answer_map (λ done. reply.new) result) }
        ensures census { TellsNewest desk.new (answer_map (λ done. reply.new) result) call.now }
        ensures refused { IfErr result (λ why. IsEnd N.Name why (stamp_seen desk.new)) }
        ensures kept { IfErr result (λ why. reply.new ≡ reply.old) }
    {
        let mut lock = self.wait_for_book(rt);
        let book = &mut *lock;
        book.lawful();
        let answer = book.turn_into(self, desk, line, call, reply);
        book.lawful();
        answer
    }

    /// Serves lines in order on the desk's registers, each as [`Shared::serve`] does, and writes each reply at its line's place.
    /// There must be as many replies as lines. It takes the lock once for up to `MOST_BATCH` lines, and no other call is served
    /// between these. After `MOST_BATCH` lines it lets the lock go and takes it again, so other calls may be served there. Each
    /// line raises the stamp by 1, stores the word, and has its own entry in a trace that is kept. Waits for the lock, also if
    /// it then refuses; with no lines it does not take it. Allocates nothing.
    ///
    /// Refused as `Worn`, then as `TraceFull`, at the first line that [`Shared::serve`] would refuse; later lines are not tried.
    /// Returns why, and the number of lines that were served: their replies are written, and the others stay unchanged. The desk
    /// then has seen the last stamp that there is, or the stamp at which the trace became full. A line whose reply is `Refused`,
    /// `Empty` or `Taken` was served.
    pub fn serve_all(
        &self,
        rt: &impl Wait,
        desk: &mut Desk<N>,
        lines: &[Line],
        replies: &mut [Reply],
    ) -> Result<(), (Refusal, usize)>
        requires { length lines.now ≡ length replies.old }
        ensures after { AreAfter N.Name desk.old lines.now replies.new desk.new result }
        ensures alone { IsAsAlone N.Name desk.old lines.now replies.new desk.new result }
        ensures refused { IfErr result (λ e. IsEnd N.Name e.0 (stamp_seen desk.new)) }
        ensures kept { IfErr result (λ e. drop e.1 replies.new ≡ drop e.1 replies.old) }
    {
        for batch in 0..lines.len().div_ceil(MOST_BATCH) {
            let from = batch * MOST_BATCH;
            let until = lines.len().min(from + MOST_BATCH);
            match self.serve_batch(rt, desk, &lines[from..until], &mut replies[from..until]) {
                Ok(()) => {}
                Err((why, served)) => return Err((why, from + served)),
            }
        }
        Ok(())
    }

    // Serves a batch: these lines, while the lock is taken once.
    fn serve_batch(
        &self,
        rt: &impl Wait,
        desk: &mut Desk<N>,
        lines: &[Line],
        replies: &mut [Reply],
    ) -> Result<(), (Refusal, usize)>
        requires { length lines.now ≡ length replies.old }
        ensures after { IsAfterBatch N.Name desk.old lines.now replies.new desk.new result }
        ensures refused { IfErr result (λ e. IsEnd N.Name e.0 (stamp_seen desk.new)) }
        ensures kept { IfErr result (λ e. drop e.1 replies.new ≡ drop e.1 replies.old) }
    {
        let mut guard = self.wait_for_book(rt);
        let book = &mut *guard;
        book.lawful();
        let answer = book.turn_all(self, desk, lines, replies);
        book.lawful();
        answer
    }

    // Waits for the lock. A thread that finds it taken pauses, twice as long each time: the thread with the lock keeps the pool
    // in its processor's cache, and need not wake another. After the last look it sleeps.
    fn wait_for_book(&self, rt: &impl Wait) -> MutexGuard<'_, Book<N>> {
        let mut pauses = 1u32;
        for _ in 0..LOOKS {
            if let Some(book) = self.book.try_lock() {
                return book;
            }
            pause(pauses);
            pauses = pauses.saturating_mul(2);
        }
        self.book.lock(rt)
    }

    /// Returns a stamp, and how many message blocks were free, queued and held at it. This is one load of the word: it takes no
    /// lock, waits for no thread, and allocates nothing. The desk has then seen this pair; its stamp is at least the last one
    /// that the desk saw. Nothing else of the desk changes. This project's own.
    pub fn census_now(&self, desk: &mut Desk<N>) -> (u64, Census)
        ensures longer { desk.new ≡ with_pair_seen result desk.old }
        ensures later { stamp_seen desk.old ≤ result.0 }
        ensures whole { IsWholeUnder N.Name result }
    {
        let Some(seat) = &mut desk.seat else {
            unreachable!()
        };
        let pair = self.board.see(seat);
        desk.seen = pair.0;
        pair
    }

    /// Ends the sharing: returns the pool, the trace, and the desks in the order of their numbers. Numbers and registers are
    /// unchanged; each desk has seen the pool's last pair.
    ///
    /// There is a list of all served calls such that pool and replies are those of their replay from the pool as it was shared.
    /// A trace, if kept, is this list. All pairs that desks saw are of its chronicle, and each desk was served exactly the
    /// calls of its number.
    ///
    /// Free, queued and held message blocks are together as many as when the pool was shared; the held ones are those of the
    /// tokens in registers. The pool has all these tokens, and each held message is in exactly one register of one desk.
    ///
    /// Refused as `DeskMissing` if desks are missing; the others come back unchanged, and the pool stays shared. Contracts do
    /// not see the book behind the lock. But a later `gather` of all desks returns a pool that is the replay of what they were
    /// served, and nothing else.
    pub fn gather(self, desks: Desks<N>) -> Result<Gathered<N>, (Refusal, Shared<N>, Desks<N>)>
        ensures missing { IfErr result (λ e. (length desks < N.desks) × (e.0 ≡ DeskMissing) × (e.1 ≡ self)
            × (e.2 ≡ desks)) }
        ensures enough { OnOk result (length desks ≡ N.desks) }
        ensures shown { IfOk result (λ g. AreShown N.Name desks g.pool g.trace g.desks) }
        ensures sorted { IfOk result (λ g. IsNonDecreasingBy (λ (d : DeskValue). d.number) g.desks) }
        ensures numbered { IfOk result (λ g. (k : ℕ) → k < N.desks → (slice_index_or g.desks k no_desk).number ≡ k) }
        ensures pool { IfOk result (λ g. g.pool.arena.id ≡ N.opened.arena.id) }
        ensures all { IfOk result (λ g. AreAll (length N.opened.arena.held) g.pool g.desks) }
        // The pool has the tokens of all registers, and each held message is in exactly one register of one desk.
        ensures owned { IfOk result (λ g. All (λ d. IsTrue (owns g.pool d.regs)) g.desks) }
        ensures accounted { IfOk result (λ g. AreAccounted g.pool.arena (map (λ d. entries_of d.regs) g.desks)) }
    {
        if desks.len() < usize::from(self.count.number) {
            return Err((Refusal::DeskMissing, self, desks));
        }
        let Shared {
            board,
            book,
            count: _,
        } = self;
        let Book {
            pool,
            stamp: _,
            trace,
            mut seat,
            mut held,
            of: _,
        } = book.into_inner();
        pool.lawful();
        let mut desks = desks;
        desks.audit(&mut held);
        desks.sort();
        desks.meet(&board, &mut seat);
        let trace = TraceEntries::of(trace.into_entries());
        Ok(Gathered { pool, trace, desks })
    }
}

// Pauses this number of times.
fn pause(times: u32) {
    for _ in 0..times {
        spin_loop();
    }
}
