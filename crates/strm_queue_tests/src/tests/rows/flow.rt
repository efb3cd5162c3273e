//! Flow control step by step: full and wanted marks, water marks, targets and wakers.
ghost use Rattle.strm_queue.specs.QueuedBlocks.{Agrees};

use super::{CLASSES, chained, of_band};
use crate::tests::bench::Bench;
use crate::tests::{Draft, QUEUE};
use std::alloc::Global;
use std::process::Abort;
use strm_data::Refusal;
use strm_queue::{Flush, QueueSpec};

// Two queues with service procedures.
const TWO: [QueueSpec; 2] = [
    QueueSpec {
        next: Some(1),
        ..QUEUE
    },
    QUEUE,
];

// Two queues without service procedures behind one that has one.
const AHEAD: [QueueSpec; 3] = [
    QueueSpec {
        service: false,
        next: Some(1),
        ..QUEUE
    },
    QueueSpec {
        service: false,
        next: Some(2),
        ..QUEUE
    },
    QUEUE,
];

// A draft of a message of band 0 with `size` bytes.
fn bytes(size: u32) -> Draft {
    of_band(0, size)
}

// A wanted band that drains to its low water mark back-enables the queue behind.
#[test]
fn back_enabling(rt: HostRuntime) {
    let mut bench = Bench::opened(&rt, rt.alloc(), &CLASSES, &TWO);
    bench.put_new(&rt, 1, bytes(4));
    bench.put_new(&rt, 1, bytes(3));
    bench.bcanput(&rt, (1, 0), Ok(true));
    bench.assert_band(&rt, (1, 0), 7, (false, false));
    bench.put_new(&rt, 1, bytes(3));
    bench.bcanput(&rt, (1, 0), Ok(false));
    bench.assert_band(&rt, (1, 0), 10, (true, true));
    bench.assert_waiting(&rt, &[1]);
    // The band has six bytes, above its low water mark, and then three, which are not.
    bench.drop_first(&rt, 1);
    bench.assert_band(&rt, (1, 0), 6, (false, true));
    bench.assert_waiting(&rt, &[1]);
    bench.drop_first(&rt, 1);
    bench.assert_band(&rt, (1, 0), 3, (false, false));
    bench.assert_waiting(&rt, &[1, 0]);
}

// `strqset` sets both water marks of one band, and settles the queue. The low mark must be below the high one.
#[test]
fn water_marks_of_a_band(rt: HostRuntime) {
    let mut bench = Bench::opened(&rt, rt.alloc(), &CLASSES, &TWO);
    bench.put_new(&rt, 1, bytes(4));
    bench.put_new(&rt, 1, bytes(3));
    bench.put_new(&rt, 1, bytes(3));
    bench.bcanput(&rt, (1, 0), Ok(false));
    // The band has as many bytes as the new low water mark.
    bench.strqset(&rt, (1, 0), (20, 10), Ok(()));
    bench.assert_band(&rt, (1, 0), 10, (false, false));
    bench.assert_waiting(&rt, &[1, 0]);
    bench.bcanput(&rt, (1, 0), Ok(true));
    let refused = Err(Refusal::BadMarks);
    bench.strqset(&rt, (1, 0), (5, 5), refused);
    bench.assert_marks(&rt, (1, 0), (20, 10));
    bench.assert_marks(&rt, (1, 3), (10, 4));
    // The band is now full with the messages that it has. It is wanted only once `bcanput` is called.
    bench.strqset(&rt, (1, 0), (10, 9), Ok(()));
    bench.assert_band(&rt, (1, 0), 10, (true, false));
    bench.bcanput(&rt, (1, 0), Ok(false));
    bench.assert_band(&rt, (1, 0), 10, (true, true));
    // A band keeps its marks once its messages have gone.
    bench.flushq(&rt, 1, Flush::All, Ok(()));
    bench.assert_marks(&rt, (1, 0), (10, 9));
    bench.strqset(&rt, (1, 255), (u32::MAX, u32::MAX - 1), Ok(()));
    bench.assert_marks(&rt, (1, 255), (u32::MAX, u32::MAX - 1));
    bench.strqset(&rt, (1, 255), (0, 0), refused);
}

// All bands start with the water marks of their queue. `strqset` changes those of one band of one queue.
#[test]
fn marks_of_other_bands_and_queues(rt: HostRuntime) {
    let mut bench = chained(&rt, rt.alloc());
    bench.assert_marks(&rt, (3, 9), (10, 4));
    bench.strqset(&rt, (3, 9), (2, 1), Ok(()));
    bench.assert_marks(&rt, (3, 9), (2, 1));
    bench.assert_marks(&rt, (3, 8), (10, 4));
    bench.assert_marks(&rt, (2, 9), (10, 4));
}

// Bands 1 and 2 of queue 1 have 8 and 10 bytes, and both are wanted.
fn two_wanted(rt: &impl Abort, alloc: Global) -> Bench
    ensures { Agrees result.queues result.blocks }
{
    let mut bench = Bench::opened(rt, alloc, &CLASSES, &TWO);
    bench.put_new(rt, 1, of_band(1, 8));
    bench.put_new(rt, 1, of_band(2, 8));
    bench.put_new(rt, 1, of_band(2, 2));
    bench.strqset(rt, (1, 1), (8, 4), Ok(()));
    bench.bcanput(rt, (1, 1), Ok(false));
    bench.bcanput(rt, (1, 2), Ok(false));
    bench.next_service(rt, Some(1));
    bench
}

// New water marks of a third band clear the wanted mark of no other band, and set none.
#[test]
fn a_third_band_clears_none(rt: HostRuntime) {
    let mut bench = two_wanted(&rt, rt.alloc());
    bench.strqset(&rt, (1, 3), (100, 50), Ok(()));
    bench.assert_band(&rt, (1, 1), 8, (true, true));
    bench.assert_band(&rt, (1, 2), 10, (true, true));
    bench.assert_band(&rt, (1, 3), 0, (false, false));
    bench.assert_waiting(&rt, &[]);
}

// A band loses its wanted mark by its own low water mark, and other bands keep theirs.
#[test]
fn each_band_by_its_own_low_mark(rt: HostRuntime) {
    let mut bench = two_wanted(&rt, rt.alloc());
    // The band is full no more, but still wanted.
    bench.strqset(&rt, (1, 1), (20, 7), Ok(()));
    bench.assert_band(&rt, (1, 1), 8, (false, true));
    bench.assert_waiting(&rt, &[]);
    // The low mark is raised to what the other band has, which stays wanted.
    bench.strqset(&rt, (1, 1), (20, 10), Ok(()));
    bench.assert_band(&rt, (1, 1), 8, (false, false));
    bench.assert_band(&rt, (1, 2), 10, (true, true));
    bench.assert_band(&rt, (1, 3), 0, (false, false));
    bench.assert_waiting(&rt, &[0]);
    bench.strqset(&rt, (1, 2), (11, 10), Ok(()));
    bench.assert_band(&rt, (1, 2), 10, (false, false));
    bench.assert_waiting(&rt, &[0]);
}

// From a queue without a service procedure on, the target is the first queue that has one.
#[test]
fn looks_ahead(rt: HostRuntime) {
    let mut bench = Bench::opened(&rt, rt.alloc(), &CLASSES, &AHEAD);
    bench.put_new(&rt, 0, bytes(5));
    bench.put_new(&rt, 0, bytes(5));
    bench.bcanput(&rt, (0, 0), Ok(true));
    bench.put_new(&rt, 2, bytes(5));
    bench.put_new(&rt, 2, bytes(5));
    bench.bcanput(&rt, (0, 0), Ok(false));
    bench.bcanput(&rt, (1, 1), Ok(true));
    bench.assert_band(&rt, (0, 0), 10, (true, false));
    bench.assert_band(&rt, (2, 0), 10, (true, true));
    bench.assert_band(&rt, (2, 1), 0, (false, false));
    // No queue behind has a service procedure, so none is enabled.
    bench.drop_first(&rt, 2);
    bench.drop_first(&rt, 2);
    bench.assert_band(&rt, (2, 0), 0, (false, false));
    bench.assert_waiting(&rt, &[2]);
}

// Both the target and the waker are past the queues without service procedures.
#[test]
fn far_target_and_far_waker(rt: HostRuntime) {
    let mut bench = chained(&rt, rt.alloc());
    // The target of queue 1 is queue 3. Its band 9 has 2 bytes, below the high water mark of 10; its band 3 has 15.
    bench.bcanput(&rt, (1, 9), Ok(true));
    bench.bcanput(&rt, (1, 3), Ok(false));
    bench.assert_band(&rt, (3, 3), 15, (true, true));
    bench.assert_waiting(&rt, &[]);
    // Without message 1, band 3 has 4 bytes, exactly its low water mark. The waker of queue 3 is queue 0.
    bench.assert_at(&rt, (3, 1), 1, 3);
    bench.assert_band(&rt, (3, 3), 4, (false, false));
    bench.assert_waiting(&rt, &[0]);
}

// `rmvq_head` settles the queue as `rmvq` does.
#[test]
fn settled_by_its_head(rt: HostRuntime) {
    let mut bench = chained(&rt, rt.alloc());
    bench.bcanput(&rt, (1, 3), Ok(false));
    bench.assert_removed(&rt, 1, 3);
    bench.assert_band(&rt, (3, 3), 4, (false, false));
    bench.assert_waiting(&rt, &[0]);
}

// `take_flushed_band` settles the queue, once its messages are taken.
#[test]
fn settled_by_what_is_taken(rt: HostRuntime) {
    let mut bench = chained(&rt, rt.alloc());
    bench.bcanput(&rt, (1, 3), Ok(false));
    bench.take_flushed(&rt, (3, Some(3)), (Flush::All, 1), Ok(&[1]));
    bench.assert_band(&rt, (3, 3), 4, (false, false));
    bench.assert_waiting(&rt, &[0]);
}

// Once `getq` took a message, `getq_run` takes the first ones of a rank but the last. While a band is wanted, it takes none.
#[test]
fn taken_together(rt: HostRuntime) {
    let mut bench = Bench::opened(&rt, rt.alloc(), &CLASSES, &TWO);
    bench.put_new(&rt, 1, of_band(5, 2));
    bench.put_new(&rt, 1, of_band(5, 3));
    bench.put_new(&rt, 1, of_band(5, 1));
    bench.put_new(&rt, 1, bytes(1));
    bench.put_new(&rt, 1, bytes(3));
    bench.put_new(&rt, 1, bytes(3));
    bench.put_new(&rt, 1, bytes(8));
    bench.getq_run(&rt, (1, 9), &[]);
    bench.assert_first(&rt, 1, 0, 5);
    bench.getq_run(&rt, (1, 9), &[1]);
    bench.assert_band(&rt, (1, 5), 1, (false, false));
    bench.getq_run(&rt, (1, 9), &[]);
    bench.assert_first(&rt, 1, 2, 5);
    bench.assert_first(&rt, 1, 3, 0);
    bench.getq_run(&rt, (1, 1), &[4]);
    bench.assert_band(&rt, (1, 0), 11, (true, false));
    bench.getq_run(&rt, (1, 9), &[5]);
    bench.assert_band(&rt, (1, 0), 8, (false, false));
    // Band 0 is wanted until four of its bytes are left.
    bench.put_new(&rt, 1, bytes(3));
    bench.put_new(&rt, 1, bytes(1));
    bench.bcanput(&rt, (1, 0), Ok(false));
    bench.assert_heads(&rt, 1, &[6, 3, 2]);
    bench.getq_run(&rt, (1, 9), &[]);
    bench.assert_first(&rt, 1, 6, 0);
    bench.assert_waiting(&rt, &[1, 0]);
    bench.getq_run(&rt, (1, 9), &[3]);
    bench.qsize(&rt, 1, Ok(1));
    bench.getq_run(&rt, (2, 9), &[]);
}

// A queue with a service procedure is its own target, even if it has a next queue. With no queue behind it, it has no waker.
#[test]
fn own_target(rt: HostRuntime) {
    let mut bench = chained(&rt, rt.alloc());
    // Band 3 is full on queue 3, and has room on queue 0.
    bench.assert_band(&rt, (3, 3), 15, (true, false));
    bench.bcanput(&rt, (0, 3), Ok(true));
    bench.put_new(&rt, 0, of_band(3, 8));
    bench.put_new(&rt, 0, of_band(3, 2));
    bench.next_service(&rt, Some(0));
    bench.bcanput(&rt, (0, 3), Ok(false));
    bench.assert_band(&rt, (0, 3), 10, (true, true));
    bench.assert_band(&rt, (3, 3), 15, (true, false));
    // The 2 bytes that stay are below the low water mark.
    bench.drop_first(&rt, 0);
    bench.assert_band(&rt, (0, 3), 2, (false, false));
    bench.assert_waiting(&rt, &[]);
}

// A queue without a service procedure is its own target if it has no next queue.
#[test]
fn last_queue_is_the_target(rt: HostRuntime) {
    let mut bench = chained(&rt, rt.alloc());
    bench.bcanput(&rt, (4, 3), Ok(true));
    bench.put_new(&rt, 4, of_band(3, 8));
    bench.put_new(&rt, 4, of_band(3, 2));
    bench.bcanput(&rt, (4, 3), Ok(false));
    bench.assert_band(&rt, (4, 3), 10, (true, true));
    bench.assert_band(&rt, (3, 3), 15, (true, false));
}
