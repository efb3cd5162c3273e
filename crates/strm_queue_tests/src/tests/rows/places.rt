//! The places that `putq`, `putbq`, `insq` and `insq_before` give messages, step by step.
use super::CLASSES;
use crate::tests::bench::Bench;
use crate::tests::{ALONE, HIGH_RANK, QUEUE, ranked};
use strm_data::Refusal;

// `putq` puts a message after those of its rank or a greater one. High priority is the greatest rank, and then has band 0.
#[test]
fn priority_order(rt: HostRuntime) {
    let mut bench = Bench::opened(&rt, rt.alloc(), &CLASSES, &ALONE);
    bench.put_new(&rt, 0, ranked(0));
    bench.put_new(&rt, 0, ranked(3));
    bench.put_new(&rt, 0, ranked(1));
    bench.put_new(&rt, 0, ranked(HIGH_RANK));
    bench.put_new(&rt, 0, ranked(3));
    bench.assert_heads(&rt, 0, &[3, 1, 4, 2, 0]);
    bench.assert_first(&rt, 0, 3, HIGH_RANK);
    bench.assert_first(&rt, 0, 1, 3);
    bench.assert_first(&rt, 0, 4, 3);
    bench.assert_first(&rt, 0, 2, 1);
    bench.assert_first(&rt, 0, 0, 0);
    bench.assert_none(&rt, 0, Ok(()));
}

// `putbq` puts a message before those of its rank or a lower one.
#[test]
fn put_back_in_front(rt: HostRuntime) {
    let mut bench = Bench::opened(&rt, rt.alloc(), &CLASSES, &ALONE);
    bench.put_new(&rt, 0, ranked(HIGH_RANK));
    bench.put_new(&rt, 0, ranked(3));
    bench.put_new(&rt, 0, ranked(3));
    bench.put_back_new(&rt, 0, ranked(3));
    bench.put_back_new(&rt, 0, ranked(HIGH_RANK));
    bench.assert_heads(&rt, 0, &[4, 0, 3, 1, 2]);
    bench.assert_first(&rt, 0, 4, HIGH_RANK);
    bench.assert_first(&rt, 0, 0, HIGH_RANK);
    bench.assert_first(&rt, 0, 3, 3);
    bench.assert_first(&rt, 0, 1, 3);
    bench.assert_first(&rt, 0, 2, 3);
    bench.assert_none(&rt, 0, Ok(()));
}

// `insq` and `rmvq` refuse a place that the queue does not have, and `insq` one where ranks would rise from front to back.
#[test]
fn insert_at_a_place(rt: HostRuntime) {
    let mut bench = Bench::opened(&rt, rt.alloc(), &CLASSES, &ALONE);
    bench.put_new(&rt, 0, ranked(2));
    let lower = bench.drafted(&rt, ranked(1));
    let lower = bench.not_put(&rt, (0, 0), lower, Refusal::BadOrder);
    bench.insq(&rt, (0, 1), lower);
    // A refused message of high priority keeps its band, and the first reason counts.
    let high = bench.drafted(&rt, ranked(HIGH_RANK));
    let high = bench.not_put(&rt, (0, 1), high, Refusal::BadOrder);
    let high = bench.not_put(&rt, (0, 3), high, Refusal::NoSuchPlace);
    let high = bench.not_put(&rt, (1, 9), high, Refusal::NoSuchQueue);
    bench.qsize(&rt, 0, Ok(2));
    bench.assert_not_at(&rt, (0, 2), Refusal::NoSuchPlace);
    bench.assert_not_at(&rt, (1, 9), Refusal::NoSuchQueue);
    bench.assert_at(&rt, (0, 0), 0, 2);
    bench.insq(&rt, (0, 0), high);
    bench.assert_at(&rt, (0, 1), 1, 1);
    bench.assert_at(&rt, (0, 0), 2, HIGH_RANK);
    bench.assert_none(&rt, 0, Ok(()));
}

// `insq_before` puts a message before another one of its queue, or last. It and `rmvq_head` refuse all other heads.
#[test]
fn insert_before_a_message(rt: HostRuntime) {
    let mut bench = Bench::opened(&rt, rt.alloc(), &CLASSES, &[QUEUE, QUEUE]);
    bench.put_new(&rt, 0, ranked(2));
    bench.put_new(&rt, 1, ranked(HIGH_RANK));
    let lower = bench.drafted(&rt, ranked(1));
    let lower = bench.not_put_before(&rt, (0, Some(0)), lower, Refusal::BadOrder);
    bench.insq_before(&rt, (0, None), lower);
    let high = bench.drafted(&rt, ranked(HIGH_RANK));
    let high = bench.not_put_before(&rt, (0, Some(2)), high, Refusal::BadOrder);
    let high = bench.not_put_before(&rt, (0, None), high, Refusal::BadOrder);
    // Message 1 is on the other queue, message 3 is held, and the first reason counts.
    let high = bench.not_put_before(&rt, (0, Some(1)), high, Refusal::NoSuchPlace);
    let high = bench.not_put_before(&rt, (0, Some(3)), high, Refusal::NoSuchPlace);
    let high = bench.not_put_before(&rt, (2, Some(9)), high, Refusal::NoSuchQueue);
    bench.assert_not_removed(&rt, 3);
    bench.insq_before(&rt, (0, Some(0)), high);
    bench.assert_heads(&rt, 0, &[3, 0, 2]);
    bench.assert_removed(&rt, 0, 2);
    bench.assert_not_removed(&rt, 0);
    bench.assert_not_removed(&rt, u32::MAX);
    bench.assert_removed(&rt, 1, HIGH_RANK);
    bench.assert_heads(&rt, 0, &[3, 2]);
    bench.assert_removed(&rt, 2, 1);
    bench.assert_removed(&rt, 3, HIGH_RANK);
    bench.assert_none(&rt, 0, Ok(()));
    bench.assert_none(&rt, 1, Ok(()));
}
