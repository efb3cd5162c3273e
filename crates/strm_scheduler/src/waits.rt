//! Queues that rest because blocks are not free, and what they wait for.
ghost use Rattle.std.specs.Prelude.{◌≡◌, ◌≢◌, ◌<◌, ◌++◌, ◌∷◌, [], ℕ, List, false, is_some, length, map};
ghost use Rattle.strm_scheduler.specs.Sides.{NoneWaits, need_at};
ghost use Rattle.strm_scheduler.specs.Steps.{with_run};
ghost use Rattle.strm_scheduler.specs.Waits.{AreEntries, IsEntry, Rests, ended_by, is_over, not_waiting, unless_over, with_queue_woken, with_queues_woken};

use crate::ended::Ended;
use crate::module::Module;
use crate::need::Need;
use crate::starting::count_enabled;
use std::marker::Model;
use strm_pool::{MOST_QUEUES, Pool};

// For each queue what it waits for, if it rests because that is not free.
#[derive(Debug, Drop)]
pub(crate) struct Waits {
    needs: [Option<Need>; MOST_QUEUES],
    // Whether a queue may wait.
    any: bool,
}

impl Model for Waits {
    ghost use Rattle.std.specs.Prelude.{List, Option};
    ghost use Rattle.strm_scheduler.specs.declared.need.Need.{Need};

    ghost Value = { List (Option Need) };

    ghost view = { λ a. a.needs };

    ghost use Rattle.std.specs.Prelude.{◌≡◌, ℕ, false, None};
    ghost use Rattle.strm_scheduler.specs.Sides.{NoneWaits};

    ghost invariant = { λ a. a.any ≡ false → NoneWaits a.needs };
}

impl Waits {
    // No queue waits.
    pub(crate) fn none() -> Waits
        ensures { NoneWaits result }
    {
        Waits {
            needs: [
                None, None, None, None, None, None, None, None, None, None, None, None, None, None,
                None, None,
            ],
            any: false,
        }
    }

    // Whether a queue waits.
    pub(crate) fn has(&self, queue: u8) -> bool
        ensures { result ≡ is_some (need_at self.now queue) }
    {
        matches!(self.needs.get(usize::from(queue)), Some(Some(_)))
    }

    // Enables the queues whose wait is over, in the order of their numbers: `all`, or those whose need is free now.
    pub(crate) fn wake(&mut self, pool: &mut Pool, all: bool)
        ensures waits { self.new ≡ map (unless_over all pool.old.arena) self.old }
        ensures pool { pool.new ≡ with_queues_woken all self.old (length self.old) pool.old }
    {
        if self.any {
            self.any = wake_each(&mut self.needs, pool, all);
        }
    }

    // Records what the module needs for the first messages of the queues that are enabled and held back for blocks.
    pub(crate) fn ask<M: Module>(&mut self, pool: &Pool, handler: &M)
        ensures { AreEntries M.needs handler.now pool.now self.new }
    {
        self.any = true;
        ask_each(&mut self.needs, pool, handler);
    }
}

// Enables the queues whose wait is over. Says whether others wait.
fn wake_each(needs: &mut [Option<Need>; MOST_QUEUES], pool: &mut Pool, all: bool) -> bool
    ensures waits { needs.new ≡ map (unless_over all pool.old.arena) needs.old }
    ensures pool { pool.new ≡ with_queues_woken all needs.old (length needs.old) pool.old }
    ensures none { result ≡ false → NoneWaits needs.new }
{
    let mut any = false;
    let mut queue = 0;
    while usize::from(queue) < MOST_QUEUES {
        let waits = wake_one(needs, queue, pool, all);
        any = any || waits;
        queue += 1;
    }
    any
}

// Enables a queue if its wait is over. Says whether it waits still.
fn wake_one(needs: &mut [Option<Need>; MOST_QUEUES], queue: u8, pool: &mut Pool, all: bool) -> bool
    requires { queue < 16 }
    ensures here { need_at needs.new queue ≡ unless_over all pool.old.arena (need_at needs.old queue) }
    ensures others { (q : ℕ) → q ≢ queue → need_at needs.new q ≡ need_at needs.old q }
    ensures long { length needs.new ≡ length needs.old }
    ensures pool { pool.new ≡ with_queue_woken (is_over all pool.old.arena (need_at needs.old queue)) queue pool.old }
    ensures left { result ≡ is_some (need_at needs.new queue) }
{
    let index = usize::from(queue);
    let Some(wanted) = &needs[index] else {
        return false;
    };
    if !all && !wanted.is_free(pool) {
        return true;
    }
    needs[index] = None;
    let _ = pool.qenable(queue);
    false
}

// Records for each queue what it waits for, if it does.
fn ask_each<M: Module>(needs: &mut [Option<Need>; MOST_QUEUES], pool: &Pool, handler: &M)
    ensures { AreEntries M.needs handler.now pool.now needs.new }
{
    pool.lawful();
    let mut queue = 0;
    while usize::from(queue) < MOST_QUEUES {
        needs[usize::from(queue)] = entry_of(pool, handler, queue);
        queue += 1;
    }
}

// What a queue waits for that is enabled, if its first message is held back for blocks that can become free.
fn entry_of<M: Module>(pool: &Pool, handler: &M, queue: u8) -> Option<Need>
    ensures { IsEntry M.needs handler.now queue pool.now result }
{
    let Ok(info) = pool.queue_info(queue) else {
        return None;
    };
    if !info.enabled {
        return None;
    }
    let Ok(first) = pool.queued_at(queue, 0) else {
        return None;
    };
    let need = handler.need(pool, queue, &first);
    if need.can_wait(pool) {
        Some(need)
    } else {
        None
    }
}

// Lets the queues of the run list rest that are held back for blocks. Returns how the run ended.
pub(crate) fn rest_all<M: Module>(pool: &mut Pool, waits: &mut Waits, handler: &M) -> Ended
    ensures rests { Rests M.needs handler.now pool.old (record { pool = pool.new; waits = waits.new }) }
    ensures ended { result ≡ ended_by pool.new.queues.run }
{
    waits.ask(pool, handler);
    let enabled = count_enabled(pool);
    rest_each(pool, waits, enabled);
    if pool.run_at(0).is_some() {
        Ended::HeldBack
    } else {
        Ended::Idle
    }
}

// Takes the first queues of the run list off it, this number of them. Those that do not wait are enabled again.
fn rest_each(pool: &mut Pool, waits: &Waits, count: u32)
    ensures { (first behind : List ℕ) → pool.old.queues.run ≡ first ++ behind → length first ≡ count
        → pool.new ≡ with_run (behind ++ not_waiting waits.now first) pool.old }
{
    if count > 0 {
        rest_first(pool, waits);
        rest_each(pool, waits, count - 1);
    }
}

// Takes the first queue off the run list. If it does not wait, it is enabled again.
fn rest_first(pool: &mut Pool, waits: &Waits)
    ensures { (first : ℕ) (behind : List ℕ) → pool.old.queues.run ≡ first ∷ behind
        → pool.new ≡ with_run (behind ++ not_waiting waits.now (first ∷ [])) pool.old }
{
    pool.lawful();
    if let Some(queue) = pool.next_service()
        && !waits.has(queue)
    {
        let _ = pool.qenable(queue);
    }
}
