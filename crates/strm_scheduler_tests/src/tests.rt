use arrayvec::ArrayVec;
use std::alloc::Global;
use std::process::Abort;
use strm_pool::{ClassSpec, ClassSpecs, Config, QueueSpec, QueueSpecs};
use strm_scheduler::{Sides, SidesFault};

mod drawn;
mod forwarding;
mod lines;
mod making;
mod modules;
mod plain;
mod rows;

// The greatest number of bytes of a message, and of queues.
const MOST: usize = 4_096;

const QUEUES: usize = 8;

// The number of message blocks, and of data blocks.
const MESSAGES: u32 = 48;

// The spec of a queue with these water marks: with a service procedure, if it has a next queue.
fn queue(hiwat: u32, lowat: u32, next: Option<u8>) -> QueueSpec {
    QueueSpec {
        hiwat,
        lowat,
        service: next.is_some(),
        next,
    }
}

// A class of data blocks as large as messages may be.
const CLASS: ClassSpec = ClassSpec {
    size: 4_096,
    count: MESSAGES,
};

// The configuration of a pool with this id and these queues, and with a message block for each data block of this class.
fn configured(rt: &impl Abort, id: u32, class: ClassSpec, specs: &[QueueSpec]) -> Config {
    let mut classes = ArrayVec::new();
    classes.push(class);
    let mut queues = ArrayVec::new();
    assert!(rt; queues.try_extend_from_slice(specs).is_ok());
    Config {
        id,
        mblks: class.count,
        classes: ClassSpecs::of(classes),
        queues: QueueSpecs::of(queues),
        bufcalls: 0,
        first_id: 1,
    }
}

// Makes sides of these queues.
fn opened(rt: &impl Abort, alloc: Global, specs: &[QueueSpec]) -> Result<Sides, SidesFault> {
    Sides::new(alloc, configured(rt, 1, CLASS, specs))
}
