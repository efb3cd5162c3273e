//! Steps at the desks of a shared pool, each with what is expected of it.
ghost use Rattle.strm_shared.specs.Starts.{IsNameOf};

use super::{drained, end};
use std::process::Abort;
use std::sync::Wait;
use strm_pool::{Call, Census, Pool, Refusal, Reply};
use strm_shared::{Brand, Desk, Desks, Name, Shared, Start, TraceEntries};

// The numbers of free, queued and held message blocks.
pub(super) type Counts = (u32, u32, u32);

// A step at a desk, and what is expected.
#[derive(Drop)]
pub(super) enum Step {
    // The call is served, with this reply.
    Serve(Call, Reply),
    // The call is refused for this reason.
    Refuse(Call, Refusal),
    // A look sees this stamp and these numbers of message blocks.
    Look(u64, Counts),
    // The desk has seen this stamp, and was served this number of calls.
    Stand(u64, u64),
}

// The call was served, with this reply.
pub(super) fn assert_served(rt: &impl Abort, served: Result<Reply, Refusal>, reply: &Reply) {
    match served {
        Ok(given) => assert!(rt; given == *reply),
        Err(_) => panic!(rt; "refused"),
    }
}

// The call was refused for this reason.
fn assert_refused(rt: &impl Abort, served: Result<Reply, Refusal>, why: Refusal) {
    match served {
        Ok(_) => panic!(rt; "served"),
        Err(given) => assert!(rt; given == why),
    }
}

// The numbers are the same.
pub(super) fn assert_same(rt: &impl Abort, found: u64, wanted: u64) {
    assert_eq!(rt; found, wanted);
}

// A census has these numbers of message blocks.
pub(super) fn assert_counts(rt: &impl Abort, census: Census, counts: Counts) {
    assert!(rt; (census.free, census.queued, census.held) == counts);
}

// The pool's census has these numbers.
pub(super) fn assert_census(rt: &impl Abort, pool: &Pool, counts: Counts) {
    assert_counts(rt, pool.census(), counts);
}

// A look saw this stamp and these numbers of message blocks.
pub(super) fn assert_told(rt: &impl Abort, told: (u64, Census), stamp: u64, counts: Counts) {
    let (found, census) = told;
    assert_same(rt, found, stamp);
    assert_counts(rt, census, counts);
}

// The desk has seen this stamp.
pub(super) fn assert_seen<N: Name>(rt: &impl Abort, desk: &Desk<N>, stamp: u64) {
    assert_same(rt, desk.seen(), stamp);
}

// The desk was served this number of calls.
pub(super) fn assert_calls<N: Name>(rt: &impl Abort, desk: &Desk<N>, calls: u64) {
    assert_same(rt, desk.calls(), calls);
}

// Has a call served, as this line.
fn serve<N: Name>(
    rt: &impl Wait,
    shared: &Shared<N>,
    desk: &mut Desk<N>,
    line: u32,
    call: &Call,
) -> Result<Reply, Refusal> {
    shared.serve(rt, desk, line, call)
}

impl Step {
    // Takes the step at a desk, as this line.
    fn take<N: Name>(
        &self,
        rt: &(impl Wait + Abort),
        shared: &Shared<N>,
        desk: &mut Desk<N>,
        line: u32,
    ) {
        match self {
            Step::Serve(call, reply) => {
                assert_served(rt, serve(rt, shared, desk, line, call), reply);
            }
            Step::Refuse(call, why) => {
                assert_refused(rt, serve(rt, shared, desk, line, call), *why);
            }
            Step::Look(stamp, counts) => {
                assert_told(rt, shared.census_now(desk), *stamp, *counts);
                assert_seen(rt, desk, *stamp);
            }
            Step::Stand(stamp, calls) => {
                assert_seen(rt, desk, *stamp);
                assert_calls(rt, desk, *calls);
            }
        }
    }
}

// The calls are served on the desk, with these replies.
pub(super) fn serve_calls<N: Name>(
    rt: &(impl Wait + Abort),
    shared: &Shared<N>,
    desk: &mut Desk<N>,
    rows: &[(Call, Reply)],
) {
    for (call, reply) in rows {
        assert_served(rt, serve(rt, shared, desk, 1, call), reply);
    }
}

// Takes a step at the desk at this place, as this line.
fn take_at<N: Name>(
    rt: &(impl Wait + Abort),
    shared: &Shared<N>,
    desks: &mut Desks<N>,
    place: usize,
    step: &Step,
    line: u32,
) {
    assert!(rt; place < desks.len());
    step.take(rt, shared, desks.desk_mut(place), line);
}

// Takes steps as lines 1, 2 and so on, each at the desk with the number before it.
pub(super) fn take_steps<N: Name>(
    rt: &(impl Wait + Abort),
    shared: &Shared<N>,
    desks: &mut Desks<N>,
    rows: &[(u8, Step)],
) {
    let mut line: u32 = 0;
    for (number, step) in rows {
        line = line.wrapping_add(1);
        take_at(rt, shared, desks, usize::from(*number), step, line);
    }
}

// Pool and trace after these steps; this number of desks has seen this stamp, and what they hold is freed.
fn ended<N: Name, R: Wait + Abort>(
    rt: &R,
    start: Start,
    rows: &[(u8, Step)],
    count: usize,
    stamp: u64,
) -> (Pool, TraceEntries)
    requires { IsNameOf N.Name start }
{
    let (shared, mut desks) = start.open::<N>();
    take_steps(rt, &shared, &mut desks, rows);
    drained(rt, end(rt, shared, desks), count, stamp)
}

// Pool and trace after these steps, under a name of its own.
pub(super) fn traced(
    rt: &(impl Wait + Abort),
    start: Start,
    rows: &[(u8, Step)],
    count: usize,
    stamp: u64,
) -> (Pool, TraceEntries) {
    ended::<Brand, _>(rt, start, rows, count, stamp)
}

// The pool after these steps, without a trace.
pub(super) fn untraced(
    rt: &(impl Wait + Abort),
    start: Start,
    rows: &[(u8, Step)],
    count: usize,
    stamp: u64,
) -> Pool {
    let (pool, trace) = traced(rt, start, rows, count, stamp);
    assert!(rt; trace.items().is_empty());
    pool
}

// The census after these steps, without a trace.
pub(super) fn assert_ended(
    rt: &(impl Wait + Abort),
    start: Start,
    rows: &[(u8, Step)],
    count: usize,
    stamp: u64,
    counts: Counts,
) {
    let pool = untraced(rt, start, rows, count, stamp);
    assert_census(rt, &pool, counts);
}
