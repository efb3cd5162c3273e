//! The pool on which rounds run.
use arrayvec::ArrayVec;
use std::alloc::Global;
use strm_pool::{ClassSpec, ClassSpecs, Config, Pool, QueueSpec, QueueSpecs};
use strm_shared::{Setup, Start, Trace};

// The queue whose band 0 is full once it has two messages of 64 bytes; it is wanted only after a `bcanput`.
pub(crate) const NARROW: u8 = 1;

// The first of eight queues without service procedures: each but the last has the following number as its next.
pub(crate) const CHAIN: u8 = 2;

// A queue with room for all messages, with a service procedure.
const WIDE: QueueSpec = QueueSpec {
    hiwat: 16_777_216,
    lowat: 8_388_608,
    service: true,
    next: None,
};

// A queue whose bands are full from two blocks of 64 bytes on.
const FILLED: QueueSpec = QueueSpec {
    hiwat: 128,
    lowat: 64,
    service: true,
    next: None,
};

// A queue of the chain.
const fn link(next: Option<u8>) -> QueueSpec {
    QueueSpec {
        hiwat: 16_777_216,
        lowat: 8_388_608,
        service: false,
        next,
    }
}

// Queue 0 is wide, queue `NARROW` is soon full, the chain follows, and the others are wide.
fn queues() -> QueueSpecs {
    QueueSpecs::of(ArrayVec::from([
        WIDE,
        FILLED,
        link(Some(3)),
        link(Some(4)),
        link(Some(5)),
        link(Some(6)),
        link(Some(7)),
        link(Some(8)),
        link(Some(9)),
        link(None),
        WIDE,
        WIDE,
        WIDE,
        WIDE,
        WIDE,
        WIDE,
    ]))
}

/// Returns a configuration with this number of message blocks, and as many data blocks: 32 of 256 bytes, 8 of 4,096, the others
/// of 64.
pub(crate) fn configured(blocks: u32) -> Config {
    let mut classes = ArrayVec::new();
    classes.push(ClassSpec {
        size: 64,
        count: blocks.saturating_sub(40),
    });
    classes.push(ClassSpec {
        size: 256,
        count: 32,
    });
    classes.push(ClassSpec {
        size: 4_096,
        count: 8,
    });
    Config {
        id: 1,
        mblks: blocks,
        classes: ClassSpecs::of(classes),
        queues: queues(),
        bufcalls: 2,
        first_id: 1,
    }
}

/// Opens such a pool; returns none if it would have too few or too many blocks, or if memory is refused.
pub(crate) fn opened(alloc: Global, blocks: u32) -> Option<Pool> {
    Pool::new(alloc, configured(blocks)).ok()
}

/// Starts sharing such a pool, with this number of desks.
pub(crate) fn start(alloc: Global, blocks: u32, desks: u8, trace: Trace) -> Option<Start> {
    let pool = Pool::new(alloc, configured(blocks)).ok()?;
    let setup = Setup {
        desks,
        trace,
        first_stamp: 0,
    };
    Start::new(alloc, pool, setup).ok()
}
