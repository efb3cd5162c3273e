//! The start of a service.
ghost use Rattle.std.specs.Prelude.{◌≡◌, ◌⊎◌, ◌++◌, ◌∷◌, ℕ, IfSome, List, None, [], Ok, length, option_map};
ghost use Rattle.strm_mblk.specs.Calls.{TakesAny};
ghost use Rattle.strm_pool.specs.PoolValue.{arena};
ghost use Rattle.strm_scheduler.specs.Laws.{AreKeptAwake};
ghost use Rattle.strm_scheduler.specs.Running.{IsBlocked, Serves, Starts, with_woken_first};
ghost use Rattle.strm_scheduler.specs.Serving.{IsBegun};
ghost use Rattle.strm_scheduler.specs.Steps.{with_run};

use crate::steps::enable;
use crate::treating::take_allowed;
use strm_pool::{Pool, Token};

/// The service of a queue that gave a message.
#[derive(Clone, Copy, Debug)]
pub struct Service {
    /// The queue.
    pub queue: u8,
    /// Its next queue, to which the message may go on.
    pub next: u8,
    /// How many queues, those just before this one at the end of the run list, are held back.
    pub held: u32,
}

/// Serves queues of any pool, but for the last `held` ones of the run list, until one gives a message that may go on to its next
/// queue; then the queue is enabled again. As [`Sides::serve`](crate::Sides::serve), which keeps the pool's queues awake.
///
/// A queue that has no next one stays first on the run list, and no message is returned. On sides there is none such.
pub fn serve(pool: &mut Pool, held: u32) -> Option<(Service, Token)>
    ensures awake { AreKeptAwake pool.old → AreKeptAwake pool.new }
    ensures serves { Serves held pool.old result pool.new }
    ensures starts { AreKeptAwake pool.old → Starts held pool.old result pool.new }
    ensures holds { TakesAny arena (Ok (option_map (λ given. given.1.head) result, pool.new)) pool.old pool.new
        (Ok (option_map (λ given. given.1) result)) }
{
    while pool.run_at(held).is_some() {
        let enabled = count_enabled(pool);
        let Some((queue, next)) = begin(pool) else {
            return None;
        };
        let taken = take_allowed(pool, queue, next);
        put_woken_first(pool, enabled);
        if let Some(token) = taken {
            enable(pool, queue);
            return Some((Service { queue, next, held }, token));
        }
    }
    None
}

// Makes the last queue of the run list the first if taking a message off woke it, also one that was put back: then as many are enabled
// as before with the queue that had the message. So those held back stay together at the end.
#[tactic(auto, using(crate::proofs::Turning::turned_first))]
fn put_woken_first(pool: &mut Pool, enabled: u32)
    ensures { pool.new ≡ with_woken_first enabled pool.old }
{
    let now = count_enabled(pool);
    if now == enabled {
        turn(pool, now.saturating_sub(1));
    }
}

// Moves the first queues of the run list to its end, this number of them.
fn turn(pool: &mut Pool, count: u32)
    ensures { (first behind : List ℕ) → pool.old.queues.run ≡ first ++ behind → length first ≡ count
        → pool.new ≡ with_run (behind ++ first) pool.old }
{
    if count > 0 {
        turn_first(pool);
        turn(pool, count - 1);
    }
}

// Moves the first queue of the run list to its end.
fn turn_first(pool: &mut Pool)
    ensures { (first : ℕ) (behind : List ℕ) → pool.old.queues.run ≡ first ∷ behind
        → pool.new ≡ with_run (behind ++ first ∷ []) pool.old }
{
    pool.lawful();
    if let Some(queue) = pool.next_service() {
        let _ = pool.qenable(queue);
    }
}

// How many queues are on the run list.
pub(crate) fn count_enabled(pool: &Pool) -> u32
    ensures { result ≡ length pool.now.queues.run }
{
    pool.lawful();
    let mut count = 0;
    while pool.run_at(count).is_some() {
        count += 1;
    }
    count
}

// Takes the first queue off the run list. Returns it, and its next queue; none if the list is empty, or the queue has no next one.
pub(crate) fn begin(pool: &mut Pool) -> Option<(u8, u8)>
    ensures begun { IfSome result (λ hop. IsBegun hop.0 hop.1 pool.old pool.new) }
    ensures stops { result ≡ None → (pool.old.queues.run ≡ []) ⊎ IsBlocked pool.old }
    ensures idle { AreKeptAwake pool.old → result ≡ None → pool.old.queues.run ≡ [] }
    ensures same { result ≡ None → pool.new ≡ pool.old }
{
    pool.lawful();
    let Some(queue) = pool.run_at(0) else {
        return None;
    };
    let Ok(spec) = pool.queue_spec(queue) else {
        unreachable!()
    };
    let Some(next) = spec.next else {
        return None;
    };
    pool.next_service();
    pool.lawful();
    Some((queue, next))
}
