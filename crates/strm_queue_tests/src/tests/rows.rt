//! Queues step by step: expected results are worked out by hand.
ghost use Rattle.strm_queue.specs.QueuedBlocks.{Agrees};

mod enabling;
mod flow;
mod flushing;
mod missing;
mod places;

use super::bench::Bench;
use super::{Draft, QUEUE};
use std::alloc::Global;
use std::process::Abort;
use strm_data::{ClassSpec, MsgType};
use strm_queue::QueueSpec;

// One class of eight data blocks.
const CLASSES: [ClassSpec; 1] = [ClassSpec { size: 8, count: 8 }];

// Queues 0 to 3 are a chain: 1 is next of 0, 2 of 1, and 3 of 2. Queue 4 is alone. Only queues 0 and 3 have a service procedure.
const CHAIN: [QueueSpec; 5] = [
    QueueSpec {
        next: Some(1),
        ..QUEUE
    },
    QueueSpec {
        service: false,
        next: Some(2),
        ..QUEUE
    },
    QueueSpec {
        service: false,
        next: Some(3),
        ..QUEUE
    },
    QUEUE,
    QueueSpec {
        service: false,
        ..QUEUE
    },
];

// A message of a band, with this number of bytes.
fn of_band(band: u8, size: u32) -> Draft {
    Draft {
        kind: MsgType::MData,
        band,
        size,
    }
}

// The queues of `CHAIN`, none of them enabled. Queue 3 has three messages: message 0 has 2 bytes in band 9. Message 1 has 11
// bytes in band 3: 8 in block 1, which is of band 3, and 3 in block 2, which is of band 0. Message 3 has 4 bytes in band 3.
fn chained(rt: &impl Abort, alloc: Global) -> Bench
    ensures { Agrees result.queues result.blocks }
{
    let mut bench = Bench::opened(rt, alloc, &CLASSES, &CHAIN);
    bench.put_new(rt, 3, of_band(9, 2));
    bench.put_linked(rt, 3, (of_band(3, 8), of_band(0, 3)));
    bench.put_new(rt, 3, of_band(3, 4));
    bench.next_service(rt, Some(3));
    bench
}
