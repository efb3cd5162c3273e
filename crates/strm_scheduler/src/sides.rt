//! Sides of streams over a pool.
ghost use Rattle.std.specs.Prelude.{◌≡◌, ◌≤◌, ℕ, IsTrue, Ok, [], None, is_some, length};
ghost use Rattle.std.specs.Fn.{FnOnceReturnsAtMut, FnOnceTakesAtMut};
ghost use Rattle.strm_mblk.specs.Arena.{has};
ghost use Rattle.strm_mblk.specs.BlockCalls as blocks;
ghost use Rattle.strm_mblk.specs.Calls.{Frees, Joins, LeavesBlocks, Parts, Puts, Spends, TakesAny, Transfers};
ghost use Rattle.strm_mblk.specs.Freeing as freeing;
ghost use Rattle.strm_pool.specs.PoolValue.{PoolValue, arena, on_arena, on_queues, queued_blocks_of, with_arena, with_token_spent};
ghost use Rattle.strm_queue.specs.QueueCalls as queues;
ghost use Rattle.strm_scheduler.specs.Laws.{AreAllEmpty, AreEndsEmpty, AreKept, AreWaiting, AreWoken, KeepsQueued, hold, take};
ghost use Rattle.strm_scheduler.specs.Sides.{KeepsOrder, NoneWaits, SidesOpen, fault_from, fault_of_queue, need_at, next_of};
ghost use Rattle.strm_scheduler.specs.Modules.{PassesOne};
ghost use Rattle.strm_scheduler.specs.Running.{IsServed, Starts};
ghost use Rattle.strm_scheduler.specs.Waits.{AreReadyWoken, IsRunOfSides, ThenWakes, with_all_woken};

use crate::ended::Ended;
use crate::module::Module;
use crate::serving::serve_all;
use crate::sides_fault::SidesFault;
use crate::starting::{Service, serve};
use crate::steps::hold;
use crate::treating::treat_all;
use crate::waits::{Waits, rest_all};
use std::alloc::Global;
use std::marker::Model;
use strm_pool::{Config, Pool, QueueSpec, Refusal, Rejected, Token};

/// A pool whose queues form sides of streams. Each queue with a next queue has a service procedure that forwards its messages
/// there. The last queue of a side has none: from it, the user takes messages.
///
/// No wake-up is lost, whatever calls are made ([`lawful`](Sides::lawful)). So a caller puts a message back only by
/// [`hold`](Sides::hold), which enables the queue. No call switches enabling off. Of a queue with a next queue, only services take
/// messages: those of [`run`](Sides::run), [`run_with`](Sides::run_with) and [`serve`](Sides::serve). They take none that may not go on.
#[derive(Debug, Drop)]
pub struct Sides {
    pool: Pool,
    waits: Waits,
}

impl Model for Sides {
    ghost use Rattle.strm_scheduler.specs.Sides.{SidesValue};

    ghost Value = { SidesValue };

    ghost view = { λ a. record { pool = a.pool; waits = a.waits } };

    ghost use Rattle.strm_scheduler.specs.Laws.{AreKept};

    ghost invariant = { λ a. AreKept (record { pool = a.pool; waits = a.waits }) };
}

// What is wrong with a queue of a configuration, if anything.
fn fault_of_queue(queue: u8, spec: &QueueSpec) -> Option<SidesFault>
    ensures { result ≡ fault_of_queue queue spec.now.service spec.now.next }
{
    match (spec.service, spec.next) {
        (true, None) => Some(SidesFault::NoNext(queue)),
        (false, Some(_)) => Some(SidesFault::NoService(queue)),
        _ => None,
    }
}

// The first fault of the queues of a configuration, if any.
fn first_fault(specs: &[QueueSpec]) -> Option<SidesFault>
    requires { length specs.now ≤ 16 }
    ensures { result ≡ fault_from 0 specs.now }
{
    for (queue, spec) in specs.iter().enumerate() {
        let fault = fault_of_queue(queue as u8, spec);
        if fault.is_some() {
            return fault;
        }
    }
    None
}

impl Sides {
    /// Makes the pool of a configuration whose queues form sides: each queue with a next queue has a service procedure, and
    /// no other. Returns `NoNext` or `NoService` with the first queue where that is not so, then `NotMade` with the fault of
    /// the pool.
    pub fn new(alloc: Global, config: Config) -> Result<Sides, SidesFault>
        ensures { SidesOpen config result }
    {
        if let Some(fault) = first_fault(config.queues.items()) {
            return Err(fault);
        }
        match Pool::new(alloc, config) {
            Ok(pool) => Ok(Sides {
                pool,
                waits: Waits::none(),
            }),
            Err(why) => Err(SidesFault::NotMade(why)),
        }
    }

    /// Law: each queue with a next queue is on the run list, or rests for one of three reasons. It has no message and its
    /// want-to-read mark is set. Its first message is not of high priority, and that band is wanted on the next queue. It waits
    /// for blocks, which are not free. Does nothing.
    pub fn lawful(&self)
        ensures { AreKept self.now }
    {
        self.pool.lawful();
    }

    /// Law: a queue that has a next queue and a message, is not on the run list, and does not wait for blocks, waits for the band
    /// of its first message. On the next queue, that band has more bytes than its low water mark. Each call after which it has no
    /// more wakes the queue: `take` puts it at the end of the run list, and enables no other queue. Calls that may free blocks put
    /// a queue that waits for blocks there if they are free then, and enable no other queue. Does nothing.
    pub fn waiting(&self)
        ensures waits { AreWaiting self.now.waits (queued_blocks_of self.now.pool) }
        ensures wakes { AreWoken self.now.waits (queued_blocks_of self.now.pool) }
        ensures blocks { AreReadyWoken self.now }
    {
        self.pool.lawful();
    }

    /// Law: if no queue is enabled or waits for blocks, as after `run`, and the last queue of each side has no message, no queue
    /// has one. Does nothing.
    pub fn delivered(&self)
        requires idle { self.now.pool.queues.run ≡ [] }
        requires none { NoneWaits self.now.waits }
        requires ends { AreEndsEmpty (queued_blocks_of self.now.pool) }
        ensures { AreAllEmpty (queued_blocks_of self.now.pool) }
    {
        self.pool.lawful();
    }

    /// Lends the pool, for all calls that change nothing.
    pub fn pool(&self) -> &Pool
        ensures { result.now ≡ self.now.pool }
    {
        &self.pool
    }

    /// Says whether a queue waits for blocks: those that a module needed for the message that was first there at the end of a run.
    /// They are not free. The queue rests until they are, or until the next `run`, `run_with` or `serve`, unless a message that came
    /// since, or room on its next queue, enabled it.
    pub fn is_short(&self, queue: u8) -> bool
        ensures { result ≡ is_some (need_at self.now.waits queue) }
    {
        self.waits.has(queue)
    }

    /// Puts a message on any queue, after the last message whose rank is at least its own. Rejected as `NoSuchQueue`. As
    /// [`Pool::putq`].
    pub fn put(&mut self, queue: u8, token: Token) -> Result<(), Rejected>
        requires { IsTrue (has self.old.pool.arena token) }
        ensures puts { Puts arena token
            (on_queues self.old.pool (queues.putq queue token.head (queued_blocks_of self.old.pool)))
            self.old.pool self.new.pool result }
        ensures waits { self.new.waits ≡ self.old.waits }
    {
        self.pool.lawful();
        self.pool.putq(queue, token)
    }

    /// Removes the first message of the last queue of a side, if any, and returns its token. Refused as `NoSuchQueue`, also
    /// if the queue is not the last one of a side. As [`Pool::getq`].
    pub fn take(&mut self, queue: u8) -> Result<Option<Token>, Refusal>
        ensures takes { TakesAny arena (on_queues self.old.pool (take queue (queued_blocks_of self.old.pool)))
            self.old.pool self.new.pool result }
        ensures waits { self.new.waits ≡ self.old.waits }
    {
        self.pool.lawful();
        let spec = self.pool.queue_spec(queue)?;
        if spec.next.is_some() {
            return Err(Refusal::NoSuchQueue);
        }
        self.pool.getq(queue)
    }

    /// Serves the queues on the run list, one after another, until none is enabled. Each service forwards messages to the next
    /// queue, as [`forward`](crate::forward) does.
    ///
    /// It ends, and loses nothing: the messages of each side, read from its last queue back to its first, are the same as
    /// before, and within each rank in the same order. Queues that wait for blocks are enabled first.
    pub fn run(&mut self)
        ensures idle { self.new.pool.queues.run ≡ [] }
        ensures none { NoneWaits self.new.waits }
        ensures served { IsServed (queued_blocks_of (with_all_woken self.old).pool) (queued_blocks_of self.new.pool) }
        ensures wishes { self.new.pool.wishes ≡ self.old.pool.wishes }
        ensures order { KeepsOrder self.old.pool self.new.pool }
    {
        self.waits.wake(&mut self.pool, true);
        serve_all(&mut self.pool);
    }

    /// As `run`, but a module treats each message that has left its queue and may go on to the next one.
    ///
    /// A message is held back while what the module needs for it ([`Module::need`]) is not free. It stays first on its queue. Other
    /// queues are served meanwhile. Once each enabled queue is held back, those held back for blocks leave the run list and rest. A
    /// call that frees these blocks enables them, as do the next `run`, `run_with` and `serve`. A message that is wanted later stays on
    /// an enabled queue (`HeldBack`).
    ///
    /// If the pool has fewer blocks in all than the module needs for a message, the run ends at the turn of its queue (`NeverMet`), and
    /// no queue rests for blocks. All blocks of the pool count, also those of messages on queues, and of this message. So a queue may
    /// wait for ever for blocks that only its own message has.
    ///
    /// No message is lost: one that was on a queue, or that the module put there, is there still, went to the module, or was
    /// flushed. On a queue that is not flushed, messages of a rank leave in the order in which they came. That is said of each queue,
    /// not of a side.
    ///
    /// `budget` is the greatest number of services. Once they are spent, the run ends if a queue is enabled (`Spent`), and no queue rests
    /// for blocks. Without a budget, the module must pass one message on at most for each that it gets, and leave the queues unchanged
    /// otherwise: so the run ends.
    pub fn run_with<M: Module>(&mut self, handler: &mut M, budget: Option<u32>) -> Ended
        requires ends { budget ≡ None → PassesOne M.treats }
        ensures { IsRunOfSides M.needs M.treats budget handler.old self.old result handler.new self.new }
    {
        self.waits.wake(&mut self.pool, true);
        match treat_all(&mut self.pool, handler, budget) {
            Ended::HeldBack => rest_all(&mut self.pool, &mut self.waits, handler),
            ended => ended,
        }
    }

    /// Serves queues until one gives a message that may go on, and takes that message off. Then the queue is enabled again, as the
    /// last one. Queues that give none rest. A queue that this woke comes first. The caller treats the message in calls of its own. It passes it on
    /// ([`put`](Sides::put) on `next`), replies (`put` on a queue of the other side), frees it, keeps it for later, or puts it back
    /// ([`hold`](Sides::hold)). No queue is asleep meanwhile.
    ///
    /// The last `held` queues of the run list are not served: those that the caller holds back. So the caller starts with 0, and
    /// goes on with one more than [`Service::held`] if it has only called `hold`, and otherwise with 0. If no message is returned,
    /// no other queue is enabled.
    pub fn serve(&mut self, held: u32) -> Option<(Service, Token)>
        ensures starts { Starts held (with_all_woken self.old).pool result self.new.pool }
        ensures none { NoneWaits self.new.waits }
    {
        self.waits.wake(&mut self.pool, true);
        serve(&mut self.pool, held)
    }

    /// Puts a message back on a queue, before its equals, and enables the queue. Rejected as `NoSuchQueue`. As [`Pool::putbq`] and
    /// [`Pool::qenable`].
    pub fn hold(&mut self, queue: u8, token: Token) -> Result<(), Rejected>
        requires { IsTrue (has self.old.pool.arena token) }
        ensures puts { Puts arena token
            (on_queues self.old.pool (hold queue token.head (queued_blocks_of self.old.pool)))
            self.old.pool self.new.pool result }
        ensures waits { self.new.waits ≡ self.old.waits }
    {
        self.pool.lawful();
        hold(&mut self.pool, queue, token)
    }

    /// Lends the pool to `call`, which may make and change held messages, and record wishes, but must leave the queues and the
    /// messages on them unchanged. Then wakes the queues whose blocks are free. Returns what `call` returns.
    pub fn change<R, F: FnOnce(&mut Pool) -> R>(&mut self, call: F) -> R
        requires callable { FnOnceTakesAtMut F.FnOnce call self.old.pool }
        requires keeps { (r : R) (left : PoolValue) → FnOnceReturnsAtMut F.FnOnce call self.old.pool r left
            → KeepsQueued self.old.pool left }
        ensures { ThenWakes (λ left. FnOnceReturnsAtMut F.FnOnce call self.old.pool result left) self.old self.new }
    {
        let returned = call(&mut self.pool);
        self.waits.wake(&mut self.pool, false);
        returned
    }

    /// Frees a message, and wakes the queues whose blocks are free then. As [`Pool::free_held`].
    pub fn freemsg(&mut self, token: Token)
        requires { IsTrue (has self.old.pool.arena token) }
        ensures { ThenWakes (λ left. Spends arena token
            (with_arena self.old.pool (freeing.freemsg token.head self.old.pool.arena)) self.old.pool left)
            self.old self.new }
    {
        self.pool.free_held(token);
        self.waits.wake(&mut self.pool, false);
    }

    /// Frees the first block of a message, wakes the queues whose blocks are free then, and returns the token of the other blocks,
    /// if any. As [`Pool::freeb`].
    pub fn freeb(&mut self, token: Token) -> Option<Token>
        requires { IsTrue (has self.old.pool.arena token) }
        ensures { ThenWakes (λ left. Frees arena token
            (on_arena self.old.pool (Ok (blocks.freeb token.head self.old.pool.arena))) self.old.pool left (Ok result))
            self.old self.new }
    {
        let rest = self.pool.freeb(token);
        self.waits.wake(&mut self.pool, false);
        rest
    }

    /// Appends the blocks of message `tail` to the other message. As [`Pool::linkb`].
    pub fn linkb(&mut self, token: &mut Token, tail: Token)
        requires head { IsTrue (has self.old.pool.arena token.old) }
        requires tail { IsTrue (has self.old.pool.arena tail) }
        ensures joins { Joins arena token.old token.new tail (with_arena self.old.pool
            (blocks.linkb token.old.head tail.head self.old.pool.arena)) self.old.pool self.new.pool }
        ensures waits { self.new.waits ≡ self.old.waits }
    {
        self.pool.linkb(token, tail);
    }

    /// Makes block `place` of a message, counted from 0, a message; the token of the other blocks, if any, comes second.
    /// Rejected as `NoSuchBlock`. As [`Pool::rmvb`].
    pub fn rmvb(&mut self, token: Token, place: u32) -> Result<(Token, Option<Token>), Rejected>
        requires { IsTrue (has self.old.pool.arena token) }
        ensures parts { Parts arena token (on_arena self.old.pool (blocks.rmvb token.head place self.old.pool.arena))
            self.old.pool self.new.pool result }
        ensures waits { self.new.waits ≡ self.old.waits }
    {
        self.pool.rmvb(token, place)
    }

    /// Makes a message anew in another pool, frees it here, and returns the new one's token, which is one of `other`. Wakes the
    /// queues whose blocks are free then. Returns the token with `TooLarge`, `NoMblk`, then `NoData`. As [`Pool::transfer`].
    pub fn transfer(&mut self, other: &mut Pool, token: Token) -> Result<Token, Rejected>
        requires { IsTrue (has self.old.pool.arena token) }
        ensures { ThenWakes (λ left. Transfers arena token (on_arena other.old
            (blocks.transfer self.old.pool.arena token.head other.old.arena))
            (with_token_spent self.old.pool token) self.old.pool left other.old other.new result) self.old self.new }
    {
        let moved = self.pool.transfer(other, token);
        self.waits.wake(&mut self.pool, false);
        moved
    }

    /// Makes a message of another pool anew here, frees it there, and returns the new one's token. Returns the token with
    /// `TooLarge`, `NoMblk`, then `NoData`. As [`Pool::transfer`] of the other pool.
    pub fn receive(&mut self, other: &mut Pool, token: Token) -> Result<Token, Rejected>
        requires { IsTrue (has other.old.arena token) }
        ensures { ThenWakes (λ left. Transfers arena token (on_arena self.old.pool
            (blocks.transfer other.old.arena token.head self.old.pool.arena))
            (with_token_spent other.old token) other.old other.new self.old.pool left result) self.old self.new }
    {
        let moved = other.transfer(&mut self.pool, token);
        self.waits.wake(&mut self.pool, false);
        moved
    }

    /// Says whether a band has room at the target of a queue; if not, the band is wanted there. Refused as `NoSuchQueue`. As
    /// [`Pool::bcanput`].
    pub fn bcanput(&mut self, queue: u8, band: u8) -> Result<bool, Refusal>
        ensures leaves { LeavesBlocks arena
            (on_queues self.old.pool (queues.bcanput queue band (queued_blocks_of self.old.pool)))
            self.old.pool self.new.pool result }
        ensures waits { self.new.waits ≡ self.old.waits }
    {
        self.pool.lawful();
        self.pool.bcanput(queue, band)
    }

    /// Sets both water marks of one band of a queue, in bytes. Refused as `NoSuchQueue`, then `BadMarks`. As
    /// [`Pool::strqset`].
    pub fn strqset(&mut self, queue: u8, band: u8, hiwat: u32, lowat: u32) -> Result<(), Refusal>
        ensures leaves { LeavesBlocks arena (on_queues self.old.pool
            (queues.strqset queue band hiwat lowat (queued_blocks_of self.old.pool)))
            self.old.pool self.new.pool result }
        ensures waits { self.new.waits ≡ self.old.waits }
    {
        self.pool.lawful();
        self.pool.strqset(queue, band, hiwat, lowat)
    }
}
