//! Calls that open a pool in a handle, and close it.
ghost use Rattle.std.specs.Prelude.{◌≡◌, ◌≢◌, ◌≤◌, pos, None, length, map};
ghost use Rattle.strm_data.specs.Limits.{most_classes};
ghost use Rattle.strm_queue.specs.Limits.{most_queues};
ghost use Rattle.strm_c.specs.Codes.{number_returned};
ghost use Rattle.strm_c.specs.Opening.{OpensBoxed, OpensHandle, class_spec_of, answer_of_close, config_of, queue_spec_of};

use crate::code::Code;
use crate::handle::StrmPool;
use crate::layout::{StrmClassSpec, StrmQueueSpec};
use crate::numbers::next_of;
use arrayvec::ArrayVec;
use std::alloc::Global;
use strm_data::MOST_CLASSES;
use strm_named::NamedPool;
use strm_pool::{ClassSpec, ClassSpecs, Config, MOST_QUEUES, NewFault, QueueSpec, QueueSpecs};

// The size classes, which are no more than a pool can have.
fn classes_of(classes: &[StrmClassSpec]) -> ClassSpecs
    requires { length classes.now ≤ most_classes }
    ensures { result ≡ map class_spec_of classes.now }
{
    let mut array = ArrayVec::new();
    for class in classes {
        array.push(ClassSpec {
            size: class.size,
            count: class.count,
        });
    }
    ClassSpecs::of(array)
}

// The queues, which are no more than a pool can have.
fn queues_of(queues: &[StrmQueueSpec]) -> QueueSpecs
    requires { length queues.now ≤ most_queues }
    ensures { result ≡ map queue_spec_of queues.now }
{
    let mut array = ArrayVec::new();
    for queue in queues {
        array.push(QueueSpec {
            hiwat: queue.hiwat,
            lowat: queue.lowat,
            service: queue.service != 0,
            next: next_of(queue.next),
        });
    }
    QueueSpecs::of(array)
}

// The configuration, if there are no more classes and queues than a pool can have.
pub(crate) fn config_of(
    id: u32,
    mblks: u32,
    classes: &[StrmClassSpec],
    queues: &[StrmQueueSpec],
    bufcalls: u32,
    first_id: u32,
) -> Option<Config>
    ensures { result ≡ config_of id mblks classes.now queues.now bufcalls first_id }
{
    if classes.len() > MOST_CLASSES || queues.len() > MOST_QUEUES {
        return None;
    }
    Some(Config {
        id,
        mblks,
        classes: classes_of(classes),
        queues: queues_of(queues),
        bufcalls,
        first_id,
    })
}

// The pool of a configuration, in a box.
fn boxed(alloc: Global, config: Config) -> Result<Box<NamedPool>, Code>
    ensures { OpensBoxed config result }
{
    let named = match NamedPool::new(alloc, config) {
        Ok(named) => named,
        Err(NewFault::BadConfig(which)) => return Err(Code::BadConfig(which)),
        Err(NewFault::BadShared) => unreachable!(),
        Err(NewFault::Memory) => return Err(Code::NoMemory),
    };
    Box::new(alloc, named).map_err(|_| Code::NoMemory)
}

/// Opens the pool of a configuration in a handle. As [`NamedPool::new`] of strm_named. Returns `IsOpen` if the handle is open,
/// then `BadArgument` if there are more classes or queues than a pool can have, then `BadConfig` with the first fault, then
/// `NoMemory`. The handle is unchanged then.
#[unsafe(no_mangle)]
pub extern "C" fn strm_c_open(
    alloc: Global,
    pool: &mut StrmPool,
    id: u32,
    mblks: u32,
    classes: &[StrmClassSpec],
    queues: &[StrmQueueSpec],
    bufcalls: u32,
    first_id: u32,
) -> i32
    ensures opens { OpensHandle (config_of id mblks classes.now queues.now bufcalls first_id)
        pool.old.at.named pool.new.at.named result }
    ensures kept { result ≢ pos 0 → pool.new ≡ pool.old }
{
    let None = pool.named_mut() else {
        return Code::IsOpen.number();
    };
    let Some(config) = config_of(id, mblks, classes, queues, bufcalls, first_id) else {
        return Code::BadArgument.number();
    };
    match boxed(alloc, config) {
        Ok(named) => {
            pool.hold(named);
            0
        }
        Err(code) => code.number(),
    }
}

/// Closes a handle, and frees its pool with all messages. Returns `NotOpen` if it is not open.
#[unsafe(no_mangle)]
pub extern "C" fn strm_c_close(alloc: Global, pool: &mut StrmPool) -> i32
    ensures held { pool.new.at.named ≡ None }
    ensures number { result ≡ number_returned (answer_of_close pool.old.at.named) }
{
    let Some(named) = pool.take(alloc) else {
        return Code::NotOpen.number();
    };
    drop(named);
    0
}
