//! Workers on their own threads, next to each other and to a monitor.
ghost use Rattle.strm_shared.specs.Starts.{IsNameOf};

use super::crews::{Left, assert_done, crew, parts_on_a, ran};
use super::steps::{Step, assert_census, assert_counts, assert_same, take_steps};
use super::traces::{assert_len, assert_replayed, expect_entries, kept};
use super::{drained, eight, end, last, opened, push, reg, setup, start_of, ungathered};
use std::alloc::{AllocError, Global};
use std::process::Abort;
use std::sync::Wait;
use std::sync::atomic::{AtomicU32, Ordering};
use std::thread::Threads;
use std::{mem, thread};
use strm_pool::{Call, Census, Pool, Refusal, Reg, Reply};
use strm_shared::{
    Brand, Desk, Desks, End, Entry, Gate, Line, Lines, MOST_STAMP, Name, OpenGate, Outcome, Parts,
    Replies, Shared, Start, Trace, TraceEntries,
};

// The greatest number of turns that a worker waits and a monitor looks.
const TURNS: u32 = 100_000_000;

// The least number of looks of a monitor while workers work.
const LOOKS: u32 = 10_000;

// Whether one of these bits is set in time.
pub(super) fn comes(flags: &AtomicU32, bits: u32) -> bool {
    for _ in 0..TURNS {
        if flags.load(Ordering::SeqCst) & bits != 0 {
            return true;
        }
    }
    false
}

// The number is this count.
pub(super) fn assert_count(rt: &impl Abort, number: &AtomicU32, count: u32) {
    assert_same(
        rt,
        u64::from(number.load(Ordering::SeqCst)),
        u64::from(count),
    );
}

// A gate at which two workers of two lines each wait for each other. It notes which lines came and were served, one digit of
// four bits for each, how many waited in vain, and how many were served that had not come.
#[derive(Drop)]
pub(super) struct Meeting {
    pub(super) came: AtomicU32,
    pub(super) answered: AtomicU32,
    pub(super) missed: AtomicU32,
    pub(super) early: AtomicU32,
}

// All four lines, each once.
pub(super) const ALL: u32 = 0x1111;

// The digit of a worker's line.
fn digit(worker: u8, line: u32) -> u32 {
    1_u32.wrapping_shl(
        u32::from(worker)
            .wrapping_mul(8)
            .wrapping_add(line.wrapping_mul(4)),
    )
}

impl Meeting {
    pub(super) fn new() -> Meeting {
        Meeting {
            came: AtomicU32::new(0),
            answered: AtomicU32::new(0),
            missed: AtomicU32::new(0),
            early: AtomicU32::new(0),
        }
    }

    // Waits for the other worker, which has other digits, and says whether it came in time.
    fn meets(&self, worker: u8) -> bool {
        let others = if worker == 0 { 0xFF00 } else { 0x00FF };
        comes(&self.came, others)
    }
}

impl Gate for Meeting {
    fn before(&self, worker: u8, line: u32) {
        self.came.fetch_add(digit(worker, line), Ordering::SeqCst);
        if !self.meets(worker) {
            self.missed.fetch_add(1, Ordering::SeqCst);
        }
    }

    fn after(&self, worker: u8, line: u32) {
        let own = digit(worker, line);
        if self.came.load(Ordering::SeqCst) & own == 0 {
            self.early.fetch_add(1, Ordering::SeqCst);
        }
        self.answered.fetch_add(own, Ordering::SeqCst);
    }
}

// A gate at which two workers wait: before their first lines until a monitor has looked, and before their last until it has
// seen enough. It notes what the monitor has shown, how often a worker waited in vain, and how many workers ended.
#[derive(Drop)]
struct Watch {
    last: u32,
    shown: AtomicU32,
    missed: AtomicU32,
    ended: AtomicU32,
}

// The monitor has looked, or has seen enough.
const LOOKED: u32 = 1;

const ENOUGH: u32 = 2;

impl Watch {
    // A gate for workers whose last lines have this number.
    fn new(last: u32) -> Watch {
        Watch {
            last,
            shown: AtomicU32::new(0),
            missed: AtomicU32::new(0),
            ended: AtomicU32::new(0),
        }
    }

    // Notes that the monitor has looked, or has seen enough.
    fn show(&self, what: u32) {
        self.shown.fetch_or(what, Ordering::SeqCst);
    }

    // Whether both workers have ended.
    fn is_over(&self) -> bool {
        self.ended.load(Ordering::SeqCst) == 2
    }
}

impl Gate for Watch {
    fn before(&self, _worker: u8, line: u32) {
        let missed = (line == 0 && !comes(&self.shown, LOOKED))
            || (line == self.last && !comes(&self.shown, ENOUGH));
        if missed {
            self.missed.fetch_add(1, Ordering::SeqCst);
        }
    }

    fn after(&self, _worker: u8, line: u32) {
        if line == self.last {
            self.ended.fetch_add(1, Ordering::SeqCst);
        }
    }
}

// A worker's line: `allocb` into a register if its number is even, otherwise `freemsg` of it.
pub(super) fn line(reg: Reg, number: u32) -> Line {
    let call = if number % 2 == 0 {
        Call::Allocb(reg, 16)
    } else {
        Call::Freemsg(reg)
    };
    Line { number, call }
}

// This number of rounds of a worker, each an `allocb` and then a `freemsg` of a register.
pub(super) fn lines(alloc: Global, reg: Reg, rounds: u32) -> Result<Lines, AllocError> {
    let mut list = Vec::new(alloc);
    for number in 0..rounds.wrapping_mul(2) {
        list.push(line(reg, number))?;
    }
    Ok(Lines::of(list))
}

// Each of these workers has the reply `Done` to all its lines, this number of them.
pub(super) fn assert_all_done(rt: &impl Abort, replies: &[Replies], count: usize) {
    for given in replies {
        assert!(rt; given.items().len() == count);
        assert!(rt; given.items().iter().all(|reply| *reply == Reply::Done));
    }
}

// Opens a pool of four message blocks and two data blocks of 16 bytes.
pub(super) fn four(rt: &impl Abort, alloc: Global) -> Pool {
    opened(rt, alloc, 1, 4, &[(16, 2)])
}

// Starts sharing such a pool, with this number of desks and this trace.
pub(super) fn small(rt: &impl Abort, alloc: Global, desks: u8, trace: Trace) -> Start {
    start_of(rt, alloc, four(rt, alloc), setup(desks, trace, 0))
}

// All four lines came to the gate, and were served after that. Nobody waited in vain.
fn assert_met(rt: &impl Abort, gate: &Meeting) {
    assert_count(rt, &gate.missed, 0);
    assert_count(rt, &gate.early, 0);
    assert_count(rt, &gate.came, ALL);
    assert_count(rt, &gate.answered, ALL);
}

// Two workers have two lines each served at the same time, with or without replies.
pub(super) fn meet<R: Threads + Wait + Abort + Sync>(rt: &R, alloc: Global, keeps: bool) -> Left {
    let gate = Meeting::new();
    let two = small(rt, alloc, 2, Trace::Keep(4));
    let left = crew(
        rt,
        alloc,
        two,
        &parts_on_a(rt, alloc, &[1, 1]),
        &gate,
        keeps,
        4,
    );
    assert_met(rt, &gate);
    assert_done(rt, &left, 2, 4);
    assert_small_trace(rt, alloc, left.trace.items(), 2, 4);
    left
}

#[test]
fn two_threads_at_once(rt: HostRuntime) {
    let left = meet(&rt, rt.alloc(), true);
    assert!(&rt; left.replies.items().len() == 2);
    assert_all_done(&rt, left.replies.items(), 2);
}

#[test]
fn two_workers_and_a_monitor(rt: HostRuntime) {
    let three = small(&rt, rt.alloc(), 3, Trace::Keep(2001));
    watched::<Brand, _>(&rt, rt.alloc(), three);
}

// The entries of a worker are those of this number of lines, in order, each with the reply `Done`.
pub(super) fn assert_lines(rt: &impl Abort, entries: &[Entry], worker: u8, count: u32) {
    let mut next: u32 = 0;
    for entry in entries {
        if entry.desk == worker {
            assert!(rt; entry.line == next && entry.reply == Reply::Done);
            next = next.wrapping_add(1);
        }
    }
    assert!(rt; next == count);
}

// The trace has this number of entries, with these lines of each of two workers. A pool like theirs gives the same replies to
// it.
fn assert_small_trace(rt: &impl Abort, alloc: Global, entries: &[Entry], lines: u32, count: usize) {
    assert_lines(rt, entries, 0, lines);
    assert_lines(rt, entries, 1, lines);
    assert!(rt; entries.len() == count);
    assert_replayed(rt, alloc, four(rt, alloc), entries, (4, 0, 0));
}

// Two workers of 500 rounds each, while a monitor on its own thread looks until they have ended. A closure owns only values
// that may be dropped, so it borrows the workers' desks.
fn watched<N: Name + Send + Sync, R: Threads + Wait + Abort + Sync>(
    rt: &R,
    alloc: Global,
    start: Start,
)
    requires { IsNameOf N.Name start }
{
    let (shared, mut desks) = start.open::<N>();
    let mut monitor = last(rt, &mut desks, 2);
    let parts = parts_on_a(rt, alloc, &[500, 500]);
    let gate = Watch::new(999);
    let (in_time, outcome) = thread::join(
        rt,
        || monitored(rt, &shared, &mut monitor, &gate),
        || {
            let workers = mem::replace(&mut desks, Desks::new());
            ran(rt, alloc, &shared, workers, &parts, &gate)
        },
    );
    desks.forget();
    assert!(rt; in_time);
    assert_count(rt, &gate.missed, 0);
    after_work(rt, alloc, shared, monitor, outcome);
}

// All workers are done. No desks can be gathered without the monitor's, which then sees what the workers left.
fn after_work<N: Name>(
    rt: &(impl Wait + Abort),
    alloc: Global,
    shared: Shared<N>,
    monitor: Desk<N>,
    outcome: Outcome<N>,
) {
    let Outcome {
        desks,
        replies,
        ends,
    } = outcome;
    assert!(rt; ends.items() == [End::Done, End::Done].as_slice());
    assert_all_done(rt, replies.items(), 1000);
    let (shared, mut desks) = ungathered(rt, shared, desks, 2);
    push(rt, &mut desks, monitor);
    let (free, queued, held) = (4, 0, 0);
    let census = Reply::Census(Census { free, queued, held });
    let rows = [
        (2, Step::Look(2000, (free, queued, held))),
        (2, Step::Serve(Call::Census, census)),
    ];
    take_steps(rt, &shared, &mut desks, &rows);
    let (pool, trace) = drained(rt, end(rt, shared, desks), 3, 2001);
    assert_census(rt, &pool, (4, 0, 0));
    assert_small_trace(rt, alloc, trace.items(), 1000, 2001);
}

// The number of message blocks that a census counts.
fn blocks(census: Census) -> u64 {
    u64::from(census.free) + u64::from(census.queued) + u64::from(census.held)
}

// Looks until the workers have ended, and says whether they did so in time. Each look counts four blocks, at a stamp not below
// the one before. The workers wait for enough looks, of which one must see another stamp than the first.
fn monitored<N: Name>(
    rt: &impl Abort,
    shared: &Shared<N>,
    desk: &mut Desk<N>,
    gate: &Watch,
) -> bool {
    let (first, _) = shared.census_now(desk);
    gate.show(LOOKED);
    for look in 0..TURNS {
        let seen = desk.seen();
        let (stamp, census) = shared.census_now(desk);
        assert!(rt; seen <= stamp && blocks(census) == 4);
        if first < stamp && LOOKS <= look {
            gate.show(ENOUGH);
        }
        if gate.is_over() {
            return true;
        }
    }
    false
}

#[test]
fn one_worker_of_many_lines(rt: HostRuntime) {
    let one = small(&rt, rt.alloc(), 1, Trace::Off);
    let parts = parts_on_a(&rt, rt.alloc(), &[1500]);
    let left = crew(&rt, rt.alloc(), one, &parts, &OpenGate, true, 3000);
    assert_done(&rt, &left, 1, 4);
    assert_all_done(&rt, left.replies.items(), 3000);
    assert!(rt; left.trace.items().is_empty());
}

// One of the two workers is done, and the other is refused as `TraceFull`.
fn assert_one_refused(rt: &impl Abort, ends: &[End]) {
    let refused = End::Refused(Refusal::TraceFull);
    assert!(rt; ends == [End::Done, refused].as_slice() || ends == [refused, End::Done].as_slice());
}

// Of two workers of two lines each one is done. The other is refused at its second line, and then holds a message.
#[test]
fn a_full_trace(rt: HostRuntime) {
    let two = kept(&rt, rt.alloc(), 2, 3, 0);
    let parts = parts_on_a(&rt, rt.alloc(), &[1, 1]);
    let left = crew(&rt, rt.alloc(), two, &parts, &OpenGate, true, 3);
    assert_one_refused(&rt, left.ends.items());
    assert!(rt; left.held == 1);
    assert_len(&rt, &left.trace, 3);
    let pool = eight(&rt, rt.alloc(), 7);
    assert_replayed(&rt, rt.alloc(), pool, left.trace.items(), (7, 0, 1));
}

// Two runs of one worker of four lines: the first stamp, how the worker ends, and how many lines are served. In the second the last
// stamp comes before the last line.
pub(super) const RUNS: [(u64, End, usize); 2] = [
    (0, End::Done, 4),
    (MOST_STAMP - 3, End::Refused(Refusal::Worn), 3),
];

// What one worker leaves in such a run. Its lines have four kinds of replies.
pub(super) fn unlike<R: Threads + Wait + Abort + Sync>(
    rt: &R,
    alloc: Global,
    run: (u64, End, usize),
    keeps: bool,
) -> Left {
    let (first, end, count) = run;
    let start = kept(rt, alloc, 1, 4, first);
    let parts = one_part(alloc, reg(rt, b'a')).expect(rt, "memory");
    let stamp = first.wrapping_add(count as u64);
    let left = crew(rt, alloc, start, &parts, &OpenGate, keeps, stamp);
    assert!(rt; left.ends.items() == [end].as_slice());
    assert_counts(rt, left.census, (8, 0, 0));
    left
}

// The lines of one worker, with four kinds of replies.
fn one_part(alloc: Global, reg: Reg) -> Result<Parts, AllocError> {
    let calls = [
        Call::Allocb(reg, 3),
        Call::Allocb(reg, 3),
        Call::Msgdsize(reg),
        Call::Qsize(9),
    ];
    let mut lines = Vec::new(alloc);
    for call in calls {
        lines.push(Line { number: 1, call })?;
    }
    let mut list = Vec::new(alloc);
    list.push(Lines::of(lines))?;
    Ok(Parts::of(list))
}

// The entries of a trace of all four lines.
const ENTRIES: [&str; 4] = [
    "Entry { desk: 0, line: 1, call: Allocb(Reg { place: 0 }, 3), reply: Done }",
    "Entry { desk: 0, line: 1, call: Allocb(Reg { place: 0 }, 3), reply: Taken }",
    "Entry { desk: 0, line: 1, call: Msgdsize(Reg { place: 0 }), reply: Size(0) }",
    "Entry { desk: 0, line: 1, call: Qsize(9), reply: Refused(NoSuchQueue) }",
];

// The trace has the first `count` of these entries.
pub(super) fn expect_first(rt: &(impl Abort + AllocGlobal), trace: &TraceEntries, count: usize) {
    assert!(rt; count <= ENTRIES.len());
    expect_entries(rt, trace, &ENTRIES[..count]);
}

// The one worker has the first `count` of these replies.
fn assert_unlike(rt: &impl Abort, replies: &[Replies], count: usize) {
    let wanted = [
        Reply::Done,
        Reply::Taken,
        Reply::Size(0),
        Reply::Refused(Refusal::NoSuchQueue),
    ];
    assert!(rt; replies.len() == 1);
    assert!(rt; count <= wanted.len() && replies[0].items() == &wanted[..count]);
}

#[test]
fn replies_in_order(rt: HostRuntime) {
    for run in RUNS {
        let left = unlike(&rt, rt.alloc(), run, true);
        assert_unlike(&rt, left.replies.items(), run.2);
        expect_first(&rt, &left.trace, run.2);
    }
}

// With or without replies, the trace, the desk and the end are the same.
#[test]
fn the_same_trace(rt: HostRuntime) {
    for run in RUNS {
        let left = unlike(&rt, rt.alloc(), run, false);
        assert!(rt; left.replies.items().is_empty());
        expect_first(&rt, &left.trace, run.2);
    }
}

#[test]
fn two_threads_without_replies(rt: HostRuntime) {
    let left = meet(&rt, rt.alloc(), false);
    assert!(rt; left.replies.items().is_empty());
}
