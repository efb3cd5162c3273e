//! Each call on a queue that does not exist is refused as `NoSuchQueue`, and changes nothing.
use super::CLASSES;
use crate::tests::bench::Bench;
use crate::tests::{ALONE, HIGH_RANK, ranked};
use strm_data::Refusal;
use strm_queue::Flush;

// Calls that put, take or flush messages refuse a missing queue, and return the token.
#[test]
fn moves_nothing(rt: HostRuntime) {
    let mut bench = Bench::opened(&rt, rt.alloc(), &CLASSES, &ALONE);
    bench.has_queue(&rt, 0, true);
    bench.has_queue(&rt, 1, false);
    // A refused high priority message keeps its band.
    let token = bench.drafted(&rt, ranked(HIGH_RANK));
    let token = bench.not_queued(&rt, 1, token);
    bench.free(token);
    bench.assert_none(&rt, 1, Err(Refusal::NoSuchQueue));
    bench.flushq(&rt, 1, Flush::All, Err(Refusal::NoSuchQueue));
    bench.flushband(&rt, (1, 0), Flush::All, Err(Refusal::NoSuchQueue));
    bench.assert_all_free(&rt);
}

// Calls on room, water marks and counts refuse a missing queue, and do so before they look at other arguments.
#[test]
fn tells_nothing(rt: HostRuntime) {
    let mut bench = Bench::opened(&rt, rt.alloc(), &CLASSES, &ALONE);
    bench.bcanput(&rt, (1, 0), Err(Refusal::NoSuchQueue));
    bench.strqset(&rt, (1, 0), (5, 5), Err(Refusal::NoSuchQueue));
    bench.strqget(&rt, (1, 0), Err(Refusal::NoSuchQueue));
    bench.qsize(&rt, 1, Err(Refusal::NoSuchQueue));
    bench.queue_info(&rt, 1, Err(Refusal::NoSuchQueue));
    bench.band_info(&rt, (1, 0), Err(Refusal::NoSuchQueue));
}

// Looks refuse a missing queue, and a head that is on none.
#[test]
fn looks_at_nothing(rt: HostRuntime) {
    let mut bench = Bench::opened(&rt, rt.alloc(), &CLASSES, &ALONE);
    bench.assert_missing(&rt, 1);
    let token = bench.drafted(&rt, ranked(HIGH_RANK));
    bench.assert_unqueued(&rt, token.head());
    bench.assert_unqueued(&rt, u32::MAX);
    bench.free(token);
}

// Calls on enabling refuse a missing queue.
#[test]
fn enables_nothing(rt: HostRuntime) {
    let mut bench = Bench::opened(&rt, rt.alloc(), &CLASSES, &ALONE);
    bench.qenable(&rt, 1, Err(Refusal::NoSuchQueue));
    bench.noenable(&rt, 1, Err(Refusal::NoSuchQueue));
    bench.enableok(&rt, 1, Err(Refusal::NoSuchQueue));
    bench.assert_waiting(&rt, &[]);
}
