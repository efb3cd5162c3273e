//! What workers leave, with and without replies; each number of workers, and workers without lines.
ghost use Rattle.strm_shared.specs.Starts.{IsNameOf};

use super::steps::assert_counts;
use super::workers::{assert_count, lines};
use super::{drained, end, opened, push, reg, setup, start_of, take_last};
use std::alloc::{AllocError, Global};
use std::hint::spin_loop;
use std::process::Abort;
use std::sync::Wait;
use std::sync::atomic::{AtomicU32, Ordering};
use std::thread::Threads;
use strm_pool::{Census, Reg};
use strm_shared::{
    AllReplies, BareOutcome, Brand, Desks, End, Ends, Gate, Gathered, MOST_WORKERS, Name, Outcome,
    Parts, Shared, Start, Trace, TraceEntries, run_workers, run_workers_without_replies,
};

// The greatest number of times that a worker looks for the others.
const LOOKS: u32 = 100_000_000;

// A gate at which workers wait before their first lines until this number of them has come. It notes how many came and how
// many waited in vain.
#[derive(Drop)]
pub(super) struct Assembly {
    workers: u32,
    pub(super) came: AtomicU32,
    pub(super) missed: AtomicU32,
}

impl Assembly {
    pub(super) fn new(workers: u32) -> Assembly {
        Assembly {
            workers,
            came: AtomicU32::new(0),
            missed: AtomicU32::new(0),
        }
    }

    // Whether all workers come in time.
    fn is_full(&self) -> bool {
        for _ in 0..LOOKS {
            if self.came.load(Ordering::SeqCst) == self.workers {
                return true;
            }
            spin_loop();
        }
        false
    }
}

impl Gate for Assembly {
    fn before(&self, _worker: u8, line: u32) {
        if line > 0 {
            return;
        }
        self.came.fetch_add(1, Ordering::SeqCst);
        if !self.is_full() {
            self.missed.fetch_add(1, Ordering::SeqCst);
        }
    }

    fn after(&self, _worker: u8, _line: u32) {}
}

// Runs workers, each on the desk at its place.
pub(super) fn ran<N: Name + Send + Sync, R: Threads + Wait + Abort + Sync, G: Gate>(
    rt: &R,
    alloc: Global,
    shared: &Shared<N>,
    desks: Desks<N>,
    parts: &Parts,
    gate: &G,
) -> Outcome<N> {
    assert!(rt; parts.items().len() == desks.len());
    match run_workers(rt, alloc, shared, desks, parts, gate) {
        Ok(outcome) => outcome,
        Err((_, desks)) => {
            desks.forget();
            panic!(rt; "out of memory")
        }
    }
}

// Runs workers without replies.
fn ran_without<N: Name + Send + Sync, R: Threads + Wait + Abort + Sync, G: Gate>(
    rt: &R,
    alloc: Global,
    shared: &Shared<N>,
    desks: Desks<N>,
    parts: &Parts,
    gate: &G,
) -> Outcome<N> {
    assert!(rt; parts.items().len() == desks.len());
    match run_workers_without_replies(rt, alloc, shared, desks, parts, gate) {
        Ok(outcome) => {
            let BareOutcome { desks, ends } = outcome;
            let replies = AllReplies::of(Vec::new(alloc));
            Outcome {
                desks,
                replies,
                ends,
            }
        }
        Err((_, desks)) => {
            desks.forget();
            panic!(rt; "out of memory")
        }
    }
}

// Moves this number of desks from the end of one list to the end of another, the last one first.
fn moved<N: Name>(rt: &impl Abort, from: &mut Desks<N>, to: &mut Desks<N>, count: usize) {
    for _ in 0..count {
        let desk = take_last(rt, from);
        push(rt, to, desk);
    }
}

// Workers' desks, and then the others, the last one first.
fn joined<N: Name>(rt: &impl Abort, mut others: Desks<N>, mut desks: Desks<N>) -> Desks<N> {
    let count = others.len();
    moved(rt, &mut others, &mut desks, count);
    others.forget();
    desks
}

// The number of message blocks that desks hold.
fn held_in<N: Name>(gathered: &Gathered<N>) -> u32 {
    gathered.pool.census().held
}

// What workers left: their replies, of which there are none if nobody keeps them, how each ended, the number of message blocks
// that they held, the census once these are freed, and the trace.
#[derive(Drop)]
pub(super) struct Left {
    pub(super) replies: AllReplies,
    pub(super) ends: Ends,
    pub(super) held: u32,
    pub(super) census: Census,
    pub(super) trace: TraceEntries,
}

// What workers leave at a pool, with and without replies. They have the last desks, the last one first; the other desks are
// given to nobody. All desks come back in order, and have then seen this stamp.
pub(super) fn crew<R: Threads + Wait + Abort + Sync, G: Gate>(
    rt: &R,
    alloc: Global,
    start: Start,
    parts: &Parts,
    gate: &G,
    keeps: bool,
    stamp: u64,
) -> Left {
    crew_of::<Brand, R, G>(rt, alloc, start, parts, gate, keeps, stamp)
}

fn crew_of<N: Name + Send + Sync, R: Threads + Wait + Abort + Sync, G: Gate>(
    rt: &R,
    alloc: Global,
    start: Start,
    parts: &Parts,
    gate: &G,
    keeps: bool,
    stamp: u64,
) -> Left
    requires { IsNameOf N.Name start }
{
    let (shared, mut others) = start.open::<N>();
    let mut desks = Desks::new();
    moved(rt, &mut others, &mut desks, parts.items().len());
    let outcome = if keeps {
        ran(rt, alloc, &shared, desks, parts, gate)
    } else {
        ran_without(rt, alloc, &shared, desks, parts, gate)
    };
    left_by(rt, shared, others, outcome, stamp)
}

// What workers left, and the desks that were given to nobody.
fn left_by<N: Name>(
    rt: &impl Abort,
    shared: Shared<N>,
    others: Desks<N>,
    outcome: Outcome<N>,
    stamp: u64,
) -> Left {
    let Outcome {
        desks,
        replies,
        ends,
    } = outcome;
    let desks = joined(rt, others, desks);
    let count = desks.len();
    let gathered = end(rt, shared, desks);
    let held = held_in(&gathered);
    let (pool, trace) = drained(rt, gathered, count, stamp);
    let census = pool.census();
    Left {
        replies,
        ends,
        held,
        census,
        trace,
    }
}

// All workers are done, this number of them. They hold nothing, and this number of message blocks is free.
pub(super) fn assert_done(rt: &impl Abort, left: &Left, workers: usize, free: u32) {
    assert!(rt; left.ends.items().len() == workers);
    assert!(rt; left.ends.items().iter().all(|end| *end == End::Done));
    assert!(rt; left.held == 0);
    assert_counts(rt, left.census, (free, 0, 0));
}

// A list of lines for each of these numbers of rounds. A round is an `allocb` and then a `freemsg` of a register.
fn parts_of(alloc: Global, reg: Reg, rounds: &[u32]) -> Result<Parts, AllocError> {
    let mut list = Vec::new(alloc);
    for count in rounds {
        list.push(lines(alloc, reg, *count)?)?;
    }
    Ok(Parts::of(list))
}

// Such lists on register a.
pub(super) fn parts_on_a(rt: &impl Abort, alloc: Global, rounds: &[u32]) -> Parts {
    parts_of(alloc, reg(rt, b'a'), rounds).expect(rt, "memory")
}

// Starts sharing a pool of sixteen message blocks and data blocks, with the greatest number of desks.
fn sixteen(rt: &impl Abort, alloc: Global) -> Start {
    let pool = opened(rt, alloc, 1, 16, &[(16, 16)]);
    start_of(rt, alloc, pool, setup(MOST_WORKERS as u8, Trace::Off, 0))
}

// Workers with these numbers of rounds are done; `workers` of them have lines, and wait for each other.
fn assert_ended<R: Threads + Wait + Abort + Sync>(
    rt: &R,
    alloc: Global,
    rounds: &[u32],
    workers: u32,
    keeps: bool,
) {
    let gate = Assembly::new(workers);
    let stamp = u64::from(workers).wrapping_mul(2);
    let parts = parts_on_a(rt, alloc, rounds);
    let left = crew(rt, alloc, sixteen(rt, alloc), &parts, &gate, keeps, stamp);
    assert_done(rt, &left, rounds.len(), 16);
    assert_count(rt, &gate.came, workers);
    assert_count(rt, &gate.missed, 0);
}

// One round for each of no, one, two, four, and the greatest number of workers. Then workers of which some have no lines.
const CREWS: [(&[u32], u32); 5] = [
    (&[], 0),
    (&[1], 1),
    (&[1, 1], 2),
    (&[1; 4], 4),
    (&[1; MOST_WORKERS], MOST_WORKERS as u32),
];

const SOME_WITHOUT_LINES: [(&[u32], u32); 3] = [(&[1, 0, 1], 2), (&[0, 1, 0], 1), (&[0], 0)];

// Crews with and without replies.
fn assert_all_ended<R: Threads + Wait + Abort + Sync>(
    rt: &R,
    alloc: Global,
    crews: &[(&[u32], u32)],
) {
    for (rounds, workers) in crews {
        for keeps in [true, false] {
            assert_ended(rt, alloc, rounds, *workers, keeps);
        }
    }
}

// Whatever the number of workers is, each has its own thread, and all of them run at once. There may be no workers.
#[test]
fn each_number_of_workers(rt: HostRuntime) {
    assert_all_ended(&rt, rt.alloc(), &CREWS);
}

// A worker without lines is done as the others are, whatever its place is.
#[test]
fn workers_without_lines(rt: HostRuntime) {
    assert_all_ended(&rt, rt.alloc(), &SOME_WITHOUT_LINES);
}
