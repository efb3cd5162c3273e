//! Traces: which calls they have, and that a replay of them gives the same replies.
use super::steps::{Counts, Step, assert_census, assert_same, traced};
use super::{eight, reg, setup, start_of};
use std::alloc::Global;
use std::process::Abort;
use std::sync::Wait;
use strm_pool::{Call, Pool, Refusal, Regs, Reply};
use strm_shared::{Entry, MOST_STAMP, MOST_WORKERS, Start, Trace, TraceEntries};

// Starts sharing a pool of eight message blocks, with this number of desks, greatest number of entries, and first stamp.
pub(super) fn kept(
    rt: &impl Abort,
    alloc: Global,
    desks: u8,
    most: u32,
    first_stamp: u64,
) -> Start {
    let setup = setup(desks, Trace::Keep(most), first_stamp);
    start_of(rt, alloc, eight(rt, alloc, 7), setup)
}

// The registers of a desk in a replay. They may be dropped, as elements of a `Vec` must.
struct Registers {
    regs: Regs,
}

impl Drop for Registers {
    fn drop(self) {
        let Registers { regs } = self;
        regs.forget();
    }
}

// The registers of each desk that there may be, all empty.
fn empty_desks(rt: &impl Abort, alloc: Global) -> Vec<Registers> {
    let mut desks = Vec::new(alloc);
    for _ in 0..MOST_WORKERS {
        desks
            .push(Registers { regs: Regs::new() })
            .expect(rt, "memory");
    }
    desks
}

// Makes the call of an entry again, which must have the same reply.
fn replay(rt: &impl Abort, pool: &mut Pool, regs: &mut Regs, entry: &Entry) {
    assert!(rt; pool.owns(regs));
    let reply = pool.apply(regs, &entry.call);
    assert!(rt; reply == entry.reply);
}

// Makes the calls of these entries again, each on the registers of its desk.
fn replay_all(rt: &impl Abort, pool: &mut Pool, desks: &mut [Registers], entries: &[Entry]) {
    for entry in entries {
        let place = usize::from(entry.desk);
        assert!(rt; place < desks.len());
        replay(rt, pool, &mut desks[place].regs, entry);
    }
}

// Makes the calls of these entries again, on one thread, which must have the same replies, and leave these numbers of message
// blocks.
pub(super) fn assert_replayed(
    rt: &impl Abort,
    alloc: Global,
    mut pool: Pool,
    entries: &[Entry],
    counts: Counts,
) {
    let mut desks = empty_desks(rt, alloc);
    replay_all(rt, &mut pool, desks.as_mut_slice(), entries);
    assert_census(rt, &pool, counts);
}

// The trace has this number of entries.
pub(super) fn assert_len(rt: &impl Abort, trace: &TraceEntries, count: usize) {
    assert_same(rt, trace.items().len() as u64, count as u64);
}

// The entry has this text.
fn expect_entry(rt: &(impl Abort + AllocGlobal), entry: &Entry, wanted: &str) {
    let found = format!(in rt.alloc(); "{entry:?}").expect(rt, "memory");
    assert!(rt; found.as_str() == wanted);
}

// The entries have these texts.
pub(super) fn expect_entries(
    rt: &(impl Abort + AllocGlobal),
    trace: &TraceEntries,
    wanted: &[&str],
) {
    assert_len(rt, trace, wanted.len());
    for (entry, text) in trace.items().iter().zip(wanted) {
        expect_entry(rt, entry, text);
    }
}

// The trace of a pool of eight message blocks after these steps. Each of these desks has seen this stamp. All blocks are free
// once what the desks hold is freed.
fn trace_of(
    rt: &(impl Wait + Abort),
    start: Start,
    rows: &[(u8, Step)],
    count: usize,
    stamp: u64,
) -> TraceEntries {
    let (pool, trace) = traced(rt, start, rows, count, stamp);
    assert_census(rt, &pool, (8, 0, 0));
    trace
}

// A message goes from one desk to the other over the queue, and is held at the end. Each desk is served two calls.
#[test]
fn a_trace_by_turns(rt: HostRuntime) {
    let a = reg(&rt, b'a');
    let rows = [
        (0, Step::Serve(Call::Allocb(a, 1), Reply::Done)),
        (1, Step::Serve(Call::Getq(0, a), Reply::Nothing)),
        (0, Step::Serve(Call::Putq(0, a), Reply::Done)),
        (1, Step::Serve(Call::Getq(0, a), Reply::Done)),
        (0, Step::Stand(3, 2)),
        (1, Step::Stand(4, 2)),
        (1, Step::Look(4, (7, 0, 1))),
    ];
    let trace = trace_of(&rt, kept(&rt, rt.alloc(), 2, 4, 0), &rows, 2, 4);
    let wanted = [
        "Entry { desk: 0, line: 1, call: Allocb(Reg { place: 0 }, 1), reply: Done }",
        "Entry { desk: 1, line: 2, call: Getq(0, Reg { place: 0 }), reply: Nothing }",
        "Entry { desk: 0, line: 3, call: Putq(0, Reg { place: 0 }), reply: Done }",
        "Entry { desk: 1, line: 4, call: Getq(0, Reg { place: 0 }), reply: Done }",
    ];
    expect_entries(&rt, &trace, &wanted);
}

// A call that is refused, one with an empty source, and one with a taken destination are entries as all others are.
#[test]
fn refused_calls_in_a_trace(rt: HostRuntime) {
    let a = reg(&rt, b'a');
    let no_queue = Reply::Refused(Refusal::NoSuchQueue);
    let rows = [
        (0, Step::Serve(Call::Putq(9, a), no_queue)),
        (0, Step::Serve(Call::Putq(0, a), Reply::Empty)),
        (0, Step::Serve(Call::Allocb(a, 16), Reply::Done)),
        (0, Step::Serve(Call::Allocb(a, 16), Reply::Taken)),
    ];
    let trace = trace_of(&rt, kept(&rt, rt.alloc(), 1, 4, 0), &rows, 1, 4);
    let wanted = [
        "Entry { desk: 0, line: 1, call: Putq(9, Reg { place: 0 }), reply: Refused(NoSuchQueue) }",
        "Entry { desk: 0, line: 2, call: Putq(0, Reg { place: 0 }), reply: Empty }",
        "Entry { desk: 0, line: 3, call: Allocb(Reg { place: 0 }, 16), reply: Done }",
        "Entry { desk: 0, line: 4, call: Allocb(Reg { place: 0 }, 16), reply: Taken }",
    ];
    expect_entries(&rt, &trace, &wanted);
}

#[test]
fn a_trace_of_one_entry(rt: HostRuntime) {
    let rows = [(5, Refusal::TraceFull), (MOST_STAMP - 1, Refusal::Worn)];
    for (first, why) in rows {
        one_entry(&rt, rt.alloc(), first, why);
    }
}

// After this first stamp one call is served. Later calls, on either desk, are refused for this reason, which the desk sees by
// the stamp. Nothing else changes.
fn one_entry(rt: &(impl Wait + Abort), alloc: Global, first: u64, why: Refusal) {
    let a = reg(rt, b'a');
    let stamp = first.wrapping_add(1);
    let rows = [
        (0, Step::Serve(Call::Allocb(a, 1), Reply::Done)),
        (0, Step::Stand(stamp, 1)),
        (1, Step::Stand(first, 0)),
        (1, Step::Refuse(Call::Allocb(a, 1), why)),
        (1, Step::Stand(stamp, 0)),
        (0, Step::Refuse(Call::Freemsg(a), why)),
        (0, Step::Stand(stamp, 1)),
        (1, Step::Look(stamp, (7, 0, 1))),
    ];
    let trace = trace_of(rt, kept(rt, alloc, 2, 1, first), &rows, 2, stamp);
    assert_len(rt, &trace, 1);
}
