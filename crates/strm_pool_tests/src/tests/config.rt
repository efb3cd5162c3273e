use super::{classes, queues};
use std::alloc::Global;
use std::process::Abort;
use std::test::Fail;
use strm_pool::{Config, NewFault, Pool, Which};

const CLASSES: [(u32, u32); 2] = [(4, 1), (16, 2)];

const QUEUES: [(u32, u32, Option<u8>); 2] = [(10, 4, Some(1)), (10, 4, None)];

type Row<'a> = (
    u32,
    &'a [(u32, u32)],
    &'a [(u32, u32, Option<u8>)],
    u32,
    u32,
    Option<Which>,
);

// Number of message blocks, classes, queues, wishes, first id, and the first fault.
const ROWS: [Row<'static>; 16] = [
    (1, &[(1, 1)], &[(1, 0, None)], 0, 1, None),
    (16_383, &[(4096, 16_383)], &QUEUES, 64, u32::MAX, None),
    (4, &CLASSES, &[(u32::MAX, 0, None)], 64, 1, None),
    // Each fault together with all later ones: the first is reported.
    (0, &[], &[], 65, 0, Some(Which::Mblks)),
    (16_384, &[], &[], 65, 0, Some(Which::Mblks)),
    (4, &[], &[], 65, 0, Some(Which::Classes)),
    (4, &[(0, 0)], &[], 65, 0, Some(Which::ClassSize)),
    (4, &[(1, 0)], &[], 65, 0, Some(Which::ClassTotal)),
    (4, &[(1, 1)], &[], 65, 0, Some(Which::Queues)),
    (4, &[(1, 1)], &[(4, 4, Some(0))], 65, 0, Some(Which::Marks)),
    (4, &[(1, 1)], &[(5, 4, Some(0))], 65, 0, Some(Which::Next)),
    (4, &[(1, 1)], &[(5, 4, None)], 65, 0, Some(Which::Bufcalls)),
    (4, &[(1, 1)], &[(5, 4, None)], 64, 0, Some(Which::FirstId)),
    // All is right but one thing.
    (u32::MAX, &CLASSES, &QUEUES, 0, 1, Some(Which::Mblks)),
    (4, &CLASSES, &QUEUES, u32::MAX, 1, Some(Which::Bufcalls)),
    (4, &CLASSES, &QUEUES, 0, 0, Some(Which::FirstId)),
];

const CLASS_ROWS: [Row<'static>; 8] = [
    (4, &[(4097, 1)], &QUEUES, 0, 1, Some(Which::ClassSize)),
    (4, &[(4, 1), (4, 1)], &QUEUES, 0, 1, Some(Which::ClassSize)),
    (4, &[(4, 0), (3, 1)], &QUEUES, 0, 1, Some(Which::ClassSize)),
    (4, &[(4, 0), (0, 0)], &QUEUES, 0, 1, Some(Which::ClassSize)),
    (4, &[(4, 1), (8, 0)], &QUEUES, 0, 1, Some(Which::ClassTotal)),
    (4, &[(4, 16_384)], &QUEUES, 0, 1, Some(Which::ClassTotal)),
    (
        4,
        &[(4, 16_000), (8, 384)],
        &QUEUES,
        0,
        1,
        Some(Which::ClassTotal),
    ),
    // The counts add up to 2^32 + 1.
    (
        4,
        &[(4, u32::MAX), (8, 2)],
        &QUEUES,
        0,
        1,
        Some(Which::ClassTotal),
    ),
];

const QUEUE_ROWS: [Row<'static>; 7] = [
    (4, &CLASSES, &[(0, 0, None)], 0, 1, Some(Which::Marks)),
    (
        4,
        &CLASSES,
        &[(5, 4, Some(9)), (4, 5, None)],
        0,
        1,
        Some(Which::Marks),
    ),
    // A next queue that is the queue itself, does not exist, has a lower number, or is named twice.
    (
        4,
        &CLASSES,
        &[(5, 4, Some(0)), (5, 4, None)],
        0,
        1,
        Some(Which::Next),
    ),
    (
        4,
        &CLASSES,
        &[(5, 4, Some(2)), (5, 4, None)],
        0,
        1,
        Some(Which::Next),
    ),
    (4, &CLASSES, &[(5, 4, Some(255))], 0, 1, Some(Which::Next)),
    (
        4,
        &CLASSES,
        &[(5, 4, None), (5, 4, Some(0))],
        0,
        1,
        Some(Which::Next),
    ),
    (
        4,
        &CLASSES,
        &[(5, 4, Some(2)), (5, 4, Some(2)), (5, 4, None)],
        0,
        1,
        Some(Which::Next),
    ),
];

// The most classes, of the greatest sizes and with the most data blocks.
const MOST_CLASSES: [(u32, u32); 8] = [
    (4089, 1),
    (4090, 1),
    (4091, 1),
    (4092, 1),
    (4093, 1),
    (4094, 1),
    (4095, 1),
    (4096, 16_376),
];

// The most queues, with the greatest water marks; each but the last has a next queue.
const MOST_QUEUES: [(u32, u32, Option<u8>); 16] = [
    (u32::MAX, u32::MAX - 1, Some(1)),
    (u32::MAX, u32::MAX - 1, Some(2)),
    (u32::MAX, u32::MAX - 1, Some(3)),
    (u32::MAX, u32::MAX - 1, Some(4)),
    (u32::MAX, u32::MAX - 1, Some(5)),
    (u32::MAX, u32::MAX - 1, Some(6)),
    (u32::MAX, u32::MAX - 1, Some(7)),
    (u32::MAX, u32::MAX - 1, Some(8)),
    (u32::MAX, u32::MAX - 1, Some(9)),
    (u32::MAX, u32::MAX - 1, Some(10)),
    (u32::MAX, u32::MAX - 1, Some(11)),
    (u32::MAX, u32::MAX - 1, Some(12)),
    (u32::MAX, u32::MAX - 1, Some(13)),
    (u32::MAX, u32::MAX - 1, Some(14)),
    (u32::MAX, u32::MAX - 1, Some(15)),
    (u32::MAX, u32::MAX - 1, None),
];

// The most classes and the most data blocks, of few bytes.
const SMALL_CLASSES: [(u32, u32); 8] = [
    (1, 16_376),
    (2, 1),
    (3, 1),
    (4, 1),
    (5, 1),
    (6, 1),
    (7, 1),
    (8, 1),
];

// The least of everything, and the most of each thing beside the least of the others.
const LIMITS: [Row<'static>; 6] = [
    (1, &[(1, 1)], &[(1, 0, None)], 0, 1, None),
    (16_383, &[(1, 1)], &[(1, 0, None)], 0, 1, None),
    (1, &SMALL_CLASSES, &[(1, 0, None)], 0, 1, None),
    (1, &[(1, 1)], &MOST_QUEUES, 0, 1, None),
    (1, &[(1, 1)], &[(1, 0, None)], 64, 1, None),
    (1, &[(1, 1)], &[(1, 0, None)], 0, u32::MAX, None),
];

// The most of everything, with which a pool takes 69 MB.
const MOST: [Row<'static>; 1] = [(16_383, &MOST_CLASSES, &MOST_QUEUES, 64, u32::MAX, None)];

// The configuration has this first fault; if it has none, its pool opens.
fn assert_fault(rt: &impl Abort, alloc: Global, config: Config, fault: Option<Which>) {
    let mblks = config.mblks;
    assert!(rt; config.fault() == fault);
    match Pool::new(alloc, config) {
        Ok(pool) => {
            assert!(rt; fault.is_none() && pool.census().free == mblks);
        }
        Err(NewFault::BadConfig(which)) => assert!(rt; fault == Some(which)),
        Err(_) => panic!(rt; "out of memory"),
    }
}

// The configuration of a row, with this id.
fn config(rt: &impl Abort, row: &Row<'_>, id: u32) -> Config {
    Config {
        id,
        mblks: row.0,
        classes: classes(rt, row.1),
        queues: queues(rt, row.2),
        bufcalls: row.3,
        first_id: row.4,
    }
}

fn assert_faults(rt: &impl Abort, alloc: Global, rows: &[Row<'_>], id: u32) {
    for row in rows {
        assert_fault(rt, alloc, config(rt, row, id), row.5);
    }
}

#[test]
fn answers_the_first_fault(rt: HostRuntime) {
    assert_faults(&rt, rt.alloc(), &ROWS, 7);
}

#[test]
fn answers_faults_of_classes(rt: HostRuntime) {
    assert_faults(&rt, rt.alloc(), &CLASS_ROWS, 7);
}

#[test]
fn answers_faults_of_queues(rt: HostRuntime) {
    assert_faults(&rt, rt.alloc(), &QUEUE_ROWS, 7);
}

#[test]
fn opens_at_each_limit(rt: HostRuntime) {
    for id in [0, 1, u32::MAX] {
        assert_faults(&rt, rt.alloc(), &LIMITS, id);
    }
}

#[test]
fn opens_the_most_of_everything(rt: HostRuntime) {
    assert_faults(&rt, rt.alloc(), &MOST, u32::MAX);
}

// The fault has this name.
fn assert_told(rt: &impl Abort, alloc: Global, fault: NewFault, text: &str) -> Result<(), Fail> {
    assert!(rt; format!(in alloc; "{fault}")?.as_str() == text);
    Ok(())
}

#[test]
fn faults_are_told_by_name(rt: HostRuntime) -> Result<(), Fail> {
    for (which, text) in [
        (Which::Mblks, "bad config: Mblks"),
        (Which::Classes, "bad config: Classes"),
        (Which::ClassSize, "bad config: ClassSize"),
        (Which::ClassTotal, "bad config: ClassTotal"),
        (Which::Queues, "bad config: Queues"),
        (Which::Marks, "bad config: Marks"),
        (Which::Next, "bad config: Next"),
        (Which::Bufcalls, "bad config: Bufcalls"),
        (Which::FirstId, "bad config: FirstId"),
    ] {
        assert_told(&rt, rt.alloc(), NewFault::BadConfig(which), text)?;
    }
    assert_told(&rt, rt.alloc(), NewFault::BadShared, "bad shared")?;
    assert_told(&rt, rt.alloc(), NewFault::Memory, "out of memory")
}
