//! Service procedures of modules: they treat each message that may go on to the next queue.
ghost use Rattle.std.specs.Prelude.{◌≡◌, ◌≢◌, ◌+◌, ◌-◌, ◌<◌, ◌≤◌, ℕ, IsTrue, IfSome, None, false, length, option_map, true};
ghost use Rattle.strm_scheduler.specs.Forwarding.{Goes, KeepsRest, all_forwarded, handed_on};
ghost use Rattle.strm_mblk.specs.Arena.{has, held_at, shelf_at};
ghost use Rattle.strm_pool.specs.PoolValue.{has_queue, queued_blocks_of};
ghost use Rattle.strm_scheduler.specs.Waits.{is_spent};
ghost use Rattle.strm_scheduler.specs.Laws.{AreKeptAwake};
ghost use Rattle.strm_scheduler.specs.Modules.{IsFirstTreated, IsHeldBack, IsMet, IsQueueTreated, IsRunWith, IsTreated, IsTurned, NeedsNothing, PassesEach, PassesOne};
ghost use Rattle.strm_scheduler.specs.Sides.{KeepsOrder};
ghost use Rattle.strm_scheduler.specs.Running.{with_first_served};
ghost use Rattle.strm_scheduler.specs.Serving.{FallsBy, IsServing, KeepsAllowed, TakesTo, power, powers, weigh, work};

use crate::ended::Ended;
use crate::module::Module;
use crate::service::may_go;
use crate::starting::begin;
use crate::steps::enable;
use strm_pool::{Pool, Token};

// A queue that was found held back: its number, and whether what is needed for its first message can become free.
#[derive(Clone, Copy)]
struct Held {
    queue: u8,
    ever: bool,
}

// Takes queues off the run list and serves them, until all that are left on it are held back, the need of one is never met, or
// the budget of services, if any, is spent.
pub(crate) fn treat_all<M: Module>(pool: &mut Pool, handler: &mut M, budget: Option<u32>) -> Ended
    requires awake { AreKeptAwake pool.old }
    requires ends { budget ≡ None → PassesOne M.treats }
    ensures awake { AreKeptAwake pool.new }
    ensures ran { IsRunWith M.needs M.treats budget handler.old pool.old result handler.new pool.new }
{
    pool.lawful();
    // How many queues were held back since the last service. They are at the end of the run list.
    let mut count = 0;
    let mut left = budget;
    while pool.run_at(count).is_some() {
        if is_spent(left) {
            return Ended::Spent;
        }
        pool.lawful();
        match treat_first(pool, handler) {
            None => {
                count = 0;
                left = one_less(left);
            }
            Some(held) if held.ever => count += 1,
            Some(held) => return Ended::NeverMet(held.queue),
        }
    }
    if count > 0 {
        Ended::HeldBack
    } else {
        Ended::Idle
    }
}

// Whether there is a budget, and nothing is left of it.
fn is_spent(left: Option<u32>) -> bool
    ensures { result ≡ is_spent left }
{
    match left {
        Some(services) => services == 0,
        None => false,
    }
}

// What is left of a budget after a service.
fn one_less(left: Option<u32>) -> Option<u32>
    ensures { result ≡ option_map (λ services. services - 1) left }
{
    match left {
        Some(services) => Some(services.saturating_sub(1)),
        None => None,
    }
}

// Takes the first queue off the run list. If it is held back, puts it at the end of the list, and returns it; otherwise serves
// it.
fn treat_first<M: Module>(pool: &mut Pool, handler: &mut M) -> Option<Held>
    requires awake { AreKeptAwake pool.old }
    requires some { 0 < length pool.old.queues.run }
    ensures awake { AreKeptAwake pool.new }
    ensures treated { result ≡ None → IsFirstTreated M.needs M.treats handler.old pool.old handler.new pool.new }
    ensures falls { result ≡ None → PassesOne M.treats
        → work (queued_blocks_of pool.new) < work (queued_blocks_of pool.old) }
    ensures short { result ≡ None → length pool.new.queues.run ≤ length pool.new.queues.specs }
    ensures turned { IfSome result (λ held.
        IsTurned M.needs held.queue held.ever handler.old pool.old handler.new pool.new) }
    ensures order { PassesEach M.treats → KeepsOrder pool.old pool.new }
    ensures served { NeedsNothing M.needs → PassesEach M.treats
        → with_first_served (queued_blocks_of pool.old) ≡ queued_blocks_of pool.new }
    ensures specs { pool.new.queues.specs ≡ pool.old.queues.specs }
{
    let Some((queue, next)) = begin(pool) else {
        unreachable!()
    };
    if let Some(ever) = held_back(pool, handler, queue) {
        enable(pool, queue);
        return Some(Held { queue, ever });
    }
    treat_queue(pool, handler, queue, next);
    pool.lawful();
    None
}

// Serves a queue that is not held back: its messages are treated and go on to the next queue, until none is left, one may not
// go, or one is held back. Then the queue is enabled again.
fn treat_queue<M: Module>(pool: &mut Pool, handler: &mut M, queue: u8, next: u8)
    requires serving { IsServing queue next pool.old }
    requires behind { IsTrue (has_queue pool.old queue) }
    requires met { IsMet M.needs handler.old queue pool.old }
    ensures awake { AreKeptAwake pool.new }
    ensures treated { IsQueueTreated M.needs M.treats queue next handler.old pool.old handler.new pool.new }
    ensures falls { PassesOne M.treats → FallsBy queue pool.old pool.new }
    ensures order { PassesEach M.treats → KeepsOrder pool.old pool.new }
    ensures forwards { NeedsNothing M.needs → PassesEach M.treats → (count : ℕ)
        × (all_forwarded queue next (queued_blocks_of pool.old) ≡ (count, queued_blocks_of pool.new)) }
    ensures specs { pool.new.queues.specs ≡ pool.old.queues.specs }
{
    while treat_one(pool, handler, queue, next) {
        if let Some(_ever) = held_back(pool, handler, queue) {
            enable(pool, queue);
            return;
        }
    }
}

// Whether what the module needs for the first message of a queue can become free; none if it is free, or there is no message.
fn held_back<M: Module>(pool: &Pool, handler: &M, queue: u8) -> Option<bool>
    ensures held { IfSome result (λ ever. IsHeldBack M.needs handler.now queue pool.now ever) }
    ensures met { result ≡ None → IsMet M.needs handler.now queue pool.now }
{
    let Ok(first) = pool.queued_at(queue, 0) else {
        return None;
    };
    let need = handler.need(pool, queue, &first);
    if need.is_free(pool) {
        None
    } else {
        Some(need.can_be_free(pool))
    }
}

// Takes the first message off a queue, if it may go on to the next queue, and treats it. Says whether there was one.
fn treat_one<M: Module>(pool: &mut Pool, handler: &mut M, queue: u8, next: u8) -> bool
    requires serving { IsServing queue next pool.old }
    requires met { IsMet M.needs handler.old queue pool.old }
    ensures serving { IsTrue result → IsServing queue next pool.new }
    ensures treated { IsTrue result → IsTreated M.needs M.treats queue next handler.old pool.old handler.new pool.new }
    ensures fewer { IsTrue result → length (shelf_at pool.new.arena queue) < length (shelf_at pool.old.arena queue) }
    ensures less { IsTrue result → PassesOne M.treats
        → weigh pool.new.arena.shelves < weigh pool.old.arena.shelves }
    ensures ends { result ≡ false → handed_on queue next (queued_blocks_of pool.old)
        ≡ (false, queued_blocks_of pool.new) }
    ensures rest { result ≡ false → (handler.new ≡ handler.old) × (pool.new.wishes ≡ pool.old.wishes) }
    ensures awake { result ≡ false → AreKeptAwake pool.new }
    ensures same { result ≡ false → weigh pool.new.arena.shelves ≡ weigh pool.old.arena.shelves }
    ensures run { result ≡ false → powers pool.new.queues.run < power queue + powers pool.old.queues.run }
    ensures order { PassesEach M.treats → KeepsOrder pool.old pool.new }
    ensures hands { IsTrue result → PassesEach M.treats → Goes queue next pool.old pool.new
        × (handed_on queue next (queued_blocks_of pool.old) ≡ (true, queued_blocks_of pool.new)) }
    ensures specs { pool.new.queues.specs ≡ pool.old.queues.specs }
{
    pool.lawful();
    let Some(token) = take_allowed(pool, queue, next) else {
        return false;
    };
    pool.lawful();
    handler.treat(pool, queue, next, token);
    true
}

// Takes the first message off a queue, if it may go on to the next queue. Otherwise it is put back.
pub(crate) fn take_allowed(pool: &mut Pool, queue: u8, next: u8) -> Option<Token>
    requires apart { queue ≢ next }
    requires behind { IsTrue (has_queue pool.old queue) }
    requires ahead { IsTrue (has_queue pool.old next) }
    ensures takes { TakesTo queue next pool.old result pool.new }
    ensures unheld { IfSome result (λ t. held_at pool.old.arena t.head ≡ None) }
    ensures rest { KeepsRest pool.old pool.new }
{
    pool.lawful();
    match pool.getq(queue) {
        Ok(Some(token)) => keep_allowed(pool, queue, next, token),
        Ok(None) => None,
        Err(_) => unreachable!(),
    }
}

// Returns a message that may go on to the next queue. Puts any other back on its queue.
fn keep_allowed(pool: &mut Pool, queue: u8, next: u8, token: Token) -> Option<Token>
    requires has { IsTrue (has pool.old.arena token) }
    requires behind { IsTrue (has_queue pool.old queue) }
    requires ahead { IsTrue (has_queue pool.old next) }
    ensures keeps { KeepsAllowed queue next token pool.old result pool.new }
    ensures rest { KeepsRest pool.old pool.new }
{
    if may_go(pool, next, &token) {
        return Some(token);
    }
    match pool.putbq(queue, token) {
        Ok(()) => None,
        Err(_) => unreachable!(),
    }
}
