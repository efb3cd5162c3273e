//! The book: what the lock of a shared pool guards, and how a call is served by it.
ghost use Rattle.std.specs.Prelude.{◌≡◌, ◌+◌, ◌<◌, ◌≤◌, IfErr, drop, length};
ghost use Rattle.strm_mblk.specs.Given.{answer_map};
ghost use Rattle.strm_shared.specs.Batches.{AnswersAll};
ghost use Rattle.strm_shared.specs.Books.{Answers, IsLawfulBook, end_of, pair_in};
ghost use Rattle.strm_shared.specs.Desks.{with_pair_seen};

use crate::board::Board;
use crate::desk::Desk;
use crate::held::Held;
use crate::kept_trace::KeptTrace;
use crate::limits::MOST_STAMP;
use crate::name::Name;
use crate::shared::Shared;
use crate::told::Told;
use crate::views::View;
use atomic_table::Seat;
use std::marker::{Brand, Model, PhantomData};
use std::sync::ledger::{self, Ledger, Share};
use strm_pool::{Call, Line, Pool, Refusal, Reply};

/// What the lock of a shared pool guards: the pool, the stamp, the trace, if kept, and the seat that stores the word. Each
/// served call raises the stamp by 1 and stores the word once. In contracts the seat knows the table of each desk's registers.
#[derive(Drop)]
pub struct Book<N: Name> {
    pub(crate) pool: Pool,
    pub(crate) stamp: u64,
    pub(crate) trace: KeptTrace,
    pub(crate) seat: Seat<(), View>,
    pub(crate) held: ledger::Book<Held<N>>,
    pub(crate) of: PhantomData<N>,
}

impl<N: Name> Model for Book<N> {
    ghost use Rattle.strm_shared.specs.Books.{BookValue};
    ghost use Rattle.strm_shared.specs.Invariants.{IsSoundBook};
    ghost use Rattle.strm_shared.specs.SeatsLayout.{book_with, history_at};

    ghost Value = { BookValue };

    ghost view = { λ b. book_with (history_at b.seat) b.pool b.stamp b.trace };

    ghost invariant = { λ b. IsSoundBook N.Name b.pool b.stamp b.trace b.held.total b.seat };
}

impl<N: Name> Book<N> {
    /// Law: whenever the lock is taken, the laws of a pool hold, and each held message is in one register of one desk's table.
    /// Does nothing.
    pub fn lawful(&self)
        ensures law { IsLawfulBook N.Name self.now }
        // The pool has as many message blocks as when it was shared.
        ensures sized { length self.now.pool.arena.held ≡ length N.opened.arena.held }
    {
        self.pool.lawful();
    }

    /// Lends the pool, so that the laws of `Pool` are known of it.
    pub fn pool(&self) -> &Pool
        ensures { result.now ≡ self.now.pool }
    {
        &self.pool
    }

    // Why the book refuses each call from now on, if it does.
    fn end(&self) -> Option<Refusal>
        ensures { result ≡ end_of self.now }
    {
        if self.stamp == MOST_STAMP {
            Some(Refusal::Worn)
        } else if self.trace.is_full() {
            Some(Refusal::TraceFull)
        } else {
            None
        }
    }

    // Lets a desk see the last pair.
    fn show(&mut self, board: &Board<N>, desk: &mut Desk<N>)
        ensures book { self.new ≡ self.old }
        ensures desk { desk.new ≡ with_pair_seen (pair_in self.old) desk.old }
    {
        let Some(seat) = desk.seat.take() else {
            unreachable!()
        };
        let (pair, seat) = board.show_desk(&mut self.seat, seat);
        desk.seat = Some(seat);
        desk.seen = pair.0;
    }

    /// Serves a call on the desk's registers, and returns its reply. The stamp rises by 1, the word is stored, the desk has
    /// seen the new pair, and a trace that is kept gets the call's entry. `shared` is the pool that has this book; `line` is
    /// the call's line in its script. Every reply counts as served, also `Refused`, `Empty` and `Taken`.
    ///
    /// Refused as `Worn` if the stamp is `MOST_STAMP`, then as `TraceFull` if the trace has as many entries as it may; then
    /// nothing changes, but the desk has seen the last pair. Takes the steps of the call, and a constant number more. Allocates
    /// nothing.
    pub fn turn(
        &mut self,
        shared: &Shared<N>,
        desk: &mut Desk<N>,
        line: u32,
        call: &Call,
    ) -> Result<Reply, Refusal>
        ensures { Answers self.old desk.old line call.now self.new desk.new result }
    {
        let mut reply = Reply::Done;
        match self.turn_into(shared, desk, line, call, &mut reply) {
            Ok(()) => Ok(reply),
            Err(why) => Err(why),
        }
    }

    /// Serves a call as [`Book::turn`] does, and writes the reply into `reply`, which stays unchanged if the call is refused.
    /// `Shared` serves calls this way.
    // Inlined into its callers, so that a line of a batch costs no function call more than a line alone.
    #[inline(always)]
    pub fn turn_into(
        &mut self,
        shared: &Shared<N>,
        desk: &mut Desk<N>,
        line: u32,
        call: &Call,
        reply: &mut Reply,
    ) -> Result<(), Refusal>
        ensures answer { Answers self.old desk.old line call.now self.new desk.new
            (answer_map (λ done. reply.new) result) }
        ensures kept { IfErr result (λ why. reply.new ≡ reply.old) }
    {
        if let Some(why) = self.end() {
            self.show(&shared.board, desk);
            return Err(why);
        }
        let Some(seat) = desk.seat.take() else {
            unreachable!()
        };
        shared.board.admit(&mut self.seat, seat);
        let before = self.pool.census().held;
        self.pool.apply_into(&mut desk.regs, call, reply);
        self.pool.lawful();
        let census = self.pool.census();
        count_held(&mut self.held, &mut desk.share, before, census.held);
        let told = Told {
            desk: desk.number,
            line,
            call,
            reply,
        };
        self.trace.keep(told);
        self.stamp += 1;
        let pair = (self.stamp, census);
        let seat = shared
            .board
            .enter::<Brand>(&mut self.seat, pair, told, &desk.regs);
        desk.seat = Some(seat);
        desk.seen = self.stamp;
        desk.calls += 1;
        Ok(())
    }

    /// Serves lines in order, each as [`Book::turn_into`] does, and writes each reply at its line's place. There must be as many
    /// replies as lines. `Shared` serves batches this way.
    ///
    /// Refused at the first line that [`Book::turn_into`] refuses; later lines are not tried. Returns why, and the number of lines
    /// that were served: their replies are written, and the others stay unchanged.
    pub fn turn_all(
        &mut self,
        shared: &Shared<N>,
        desk: &mut Desk<N>,
        lines: &[Line],
        replies: &mut [Reply],
    ) -> Result<(), (Refusal, usize)>
        requires { length lines.now ≡ length replies.old }
        ensures answer { AnswersAll N.Name self.old desk.old lines.now replies.new self.new desk.new result }
        ensures kept { IfErr result (λ e. drop e.1 replies.new ≡ drop e.1 replies.old) }
    {
        for place in 0..lines.len() {
            let line = &lines[place];
            let reply = &mut replies[place];
            match self.turn_into(shared, desk, line.number, &line.call, reply) {
                Ok(()) => {}
                Err(why) => return Err((why, place)),
            }
            self.lawful();
        }
        Ok(())
    }
}

// Counts in the ledger that a desk's call changed the number of held blocks from `before` to `after`.
fn count_held<L: Ledger>(held: &mut ledger::Book<L>, share: &mut Share<L>, before: u32, after: u32)
    requires part { 0 < share.old.parts }
    requires enough { before ≤ share.old.amount + after }
    ensures total { held.new.total + before ≡ held.old.total + after }
    ensures amount { share.new.amount + before ≡ share.old.amount + after }
    ensures parts { share.new.parts ≡ share.old.parts }
{
    if before < after {
        held.add(share, u64::from(after - before));
    } else {
        held.sub(share, u64::from(before - after));
    }
}
