//! What enables a queue, step by step: `putq`, `putbq`, `insq` and `qenable`, with enabling on and off.
use super::{CLASSES, chained};
use crate::tests::bench::Bench;
use crate::tests::{HIGH_RANK, QUEUE, ranked};
use strm_queue::{QueueInfo, QueueSpec};

// One queue with a service procedure, and one without.
const QUEUES: [QueueSpec; 2] = [
    QUEUE,
    QueueSpec {
        service: false,
        ..QUEUE
    },
];

// What `queue_info` returns after four messages of no bytes were put, with enabling off.
const OFF: QueueInfo = QueueInfo {
    msgs: 4,
    bytes: 0,
    read: true,
    noenable: true,
    enabled: true,
};

// While enabling is off, ordinary messages do not enable the queue. `putq` and `putbq` of high priority messages do, and so
// does `qenable`.
#[test]
fn switched_off(rt: HostRuntime) {
    let mut bench = Bench::opened(&rt, rt.alloc(), &CLASSES, &QUEUES);
    bench.noenable(&rt, 0, Ok(()));
    bench.put_new(&rt, 0, ranked(0));
    bench.put_new(&rt, 0, ranked(3));
    bench.put_back_new(&rt, 0, ranked(0));
    bench.assert_waiting(&rt, &[]);
    bench.put_new(&rt, 0, ranked(HIGH_RANK));
    bench.assert_waiting(&rt, &[0]);
    bench.queue_info(&rt, 0, Ok(OFF));
    bench.next_service(&rt, Some(0));
    bench.put_back_new(&rt, 0, ranked(HIGH_RANK));
    bench.assert_waiting(&rt, &[0]);
    bench.next_service(&rt, Some(0));
    bench.next_service(&rt, None);
    bench.qenable(&rt, 0, Ok(()));
    bench.qenable(&rt, 0, Ok(()));
    bench.assert_waiting(&rt, &[0]);
    bench.next_service(&rt, Some(0));
    bench.enableok(&rt, 0, Ok(()));
    bench.assert_waiting(&rt, &[]);
    bench.put_new(&rt, 0, ranked(0));
    bench.assert_waiting(&rt, &[0]);
}

// Without the want-to-read mark an ordinary message enables the queue only by `putq`, and only above band 0.
#[test]
fn nobody_wants_to_read(rt: HostRuntime) {
    let mut bench = Bench::opened(&rt, rt.alloc(), &CLASSES, &QUEUES);
    bench.put_new(&rt, 0, ranked(0));
    bench.next_service(&rt, Some(0));
    bench.drop_first(&rt, 0);
    bench.put_new(&rt, 0, ranked(0));
    bench.put_back_new(&rt, 0, ranked(2));
    bench.assert_waiting(&rt, &[]);
    bench.put_new(&rt, 0, ranked(2));
    bench.assert_waiting(&rt, &[0]);
    bench.next_service(&rt, Some(0));
    // The queue is read until it is empty.
    bench.drop_first(&rt, 0);
    bench.drop_first(&rt, 0);
    bench.drop_first(&rt, 0);
    bench.put_new(&rt, 0, ranked(0));
    bench.assert_waiting(&rt, &[]);
    bench.drop_first(&rt, 0);
    bench.assert_none(&rt, 0, Ok(()));
    bench.put_back_new(&rt, 0, ranked(2));
    bench.assert_waiting(&rt, &[0]);
}

// What `queue_info` returns for a queue that is not enabled, with enabling on: this number of messages and bytes, and whether
// the queue has the want-to-read mark.
fn not_enabled(msgs: u32, bytes: u32, read: bool) -> QueueInfo {
    QueueInfo {
        msgs,
        bytes,
        read,
        noenable: false,
        enabled: false,
    }
}

// A new queue has the want-to-read mark. A `getq` that returns a message clears it, and one that returns none sets it.
#[test]
fn want_to_read_mark(rt: HostRuntime) {
    let mut bench = chained(&rt, rt.alloc());
    bench.queue_info(&rt, 3, Ok(not_enabled(3, 17, true)));
    bench.drop_first(&rt, 3);
    bench.queue_info(&rt, 3, Ok(not_enabled(2, 15, false)));
    bench.drop_first(&rt, 3);
    bench.drop_first(&rt, 3);
    bench.queue_info(&rt, 3, Ok(not_enabled(0, 0, false)));
    bench.assert_none(&rt, 3, Ok(()));
    bench.queue_info(&rt, 3, Ok(not_enabled(0, 0, true)));
}

// While enabling is off, `insq` does not enable the queue, not even for a high priority message.
#[test]
fn put_at_a_place(rt: HostRuntime) {
    let mut bench = Bench::opened(&rt, rt.alloc(), &CLASSES, &QUEUES);
    bench.noenable(&rt, 0, Ok(()));
    let high = bench.drafted(&rt, ranked(HIGH_RANK));
    bench.insq(&rt, (0, 0), high);
    bench.assert_waiting(&rt, &[]);
    bench.enableok(&rt, 0, Ok(()));
    let low = bench.drafted(&rt, ranked(0));
    bench.insq(&rt, (0, 1), low);
    bench.assert_waiting(&rt, &[0]);
}

// A queue without a service procedure is never enabled.
#[test]
fn no_service_procedure(rt: HostRuntime) {
    let mut bench = Bench::opened(&rt, rt.alloc(), &CLASSES, &QUEUES);
    bench.qenable(&rt, 1, Ok(()));
    bench.put_new(&rt, 1, ranked(0));
    bench.put_new(&rt, 1, ranked(3));
    bench.put_new(&rt, 1, ranked(HIGH_RANK));
    bench.put_back_new(&rt, 1, ranked(HIGH_RANK));
    bench.assert_waiting(&rt, &[]);
}
