use arrayvec::ArrayVec;
use std::alloc::Global;
use std::process::Abort;
use std::test::Fail;
use strm_named::{Fault, Name, NamedPool};
use strm_pool::{ClassSpec, ClassSpecs, Config, NewFault, QueueSpec, QueueSpecs, Refusal, Which};

mod blocks;
mod in_place;
mod queues;
mod spent;
mod transfers;

// A configuration with this id and number of message blocks, eight data blocks of 16 bytes, and two queues: 1 is next of 0.
fn config(id: u32, mblks: u32) -> Config {
    let mut classes = ArrayVec::new();
    classes.push(ClassSpec { size: 16, count: 8 });
    let mut queues = ArrayVec::new();
    queues.push(queue(Some(1)));
    queues.push(queue(None));
    Config {
        id,
        mblks,
        classes: ClassSpecs::of(classes),
        queues: QueueSpecs::of(queues),
        bufcalls: 2,
        first_id: 1,
    }
}

// The spec of a queue with a service procedure.
const fn queue(next: Option<u8>) -> QueueSpec {
    QueueSpec {
        hiwat: 10,
        lowat: 4,
        service: true,
        next,
    }
}

// Opens a pool with this id and eight message blocks.
fn opened(rt: &impl Abort, alloc: Global, id: u32) -> NamedPool {
    NamedPool::new(alloc, config(id, 8)).expect(rt, "a pool")
}

// A name with pool id 1.
const fn name(head: u32, stamp: u64) -> Name {
    Name {
        pool: 1,
        head,
        stamp,
    }
}

// Makes a message of these bytes.
fn message(rt: &impl Abort, pool: &mut NamedPool, bytes: &[u8]) -> Name {
    let name = pool.allocb(16).expect(rt, "a message");
    assert_is(rt, pool.write(name, 0, bytes), Ok(()));
    name
}

// The two values are equal.
fn assert_is<T: PartialEq + Drop>(rt: &impl Abort, given: T, wanted: T) {
    assert!(rt; given == wanted);
}

// The census is this: free, queued and held message blocks.
fn assert_census(rt: &impl Abort, pool: &NamedPool, wanted: (u32, u32, u32)) {
    let census = pool.pool().census();
    assert_is(rt, (census.free, census.queued, census.held), wanted);
}

// `size` returns this for the message.
fn assert_size(rt: &impl Abort, pool: &NamedPool, name: Name, wanted: Result<u32, Fault>) {
    assert_is(rt, pool.size(name), wanted);
}

fn assert_linked(
    rt: &impl Abort,
    pool: &mut NamedPool,
    names: (Name, Name),
    wanted: Result<(), Fault>,
) {
    assert_is(rt, pool.linkb(names.0, names.1), wanted);
}

fn assert_freed(rt: &impl Abort, pool: &mut NamedPool, name: Name, wanted: Result<(), Fault>) {
    assert_is(rt, pool.freemsg(name), wanted);
}

#[test]
fn tells_what_is_wrong_with_a_configuration(rt: HostRuntime) {
    let answer = NamedPool::new(rt.alloc(), config(1, 0));
    assert_is(&rt, answer.err(), Some(NewFault::BadConfig(Which::Mblks)));
}

#[test]
fn refuses_as_the_pool_does(rt: HostRuntime) {
    let mut pool = opened(&rt, rt.alloc(), 1);
    assert!(rt; pool.pool().testb(16) && !pool.pool().testb(17));
    assert_is(&rt, pool.allocb(17), Err(Fault::Refused(Refusal::TooLarge)));
}

// A pool of this id and this number of message blocks opens, and its first message has a name of this id.
fn assert_opens(rt: &impl Abort, alloc: Global, id: u32, mblks: u32) {
    let mut pool = NamedPool::new(alloc, config(id, mblks)).expect(rt, "a pool");
    assert_census(rt, &pool, (mblks, 0, 0));
    let first = Name {
        pool: id,
        head: 0,
        stamp: 1,
    };
    assert_is(rt, pool.allocb(16), Ok(first));
    assert_census(rt, &pool, (mblks.wrapping_sub(1), 0, 1));
}

#[test]
fn opens_with_each_id(rt: HostRuntime) {
    for id in [0, 1, u32::MAX] {
        assert_opens(&rt, rt.alloc(), id, 8);
    }
}

#[test]
fn opens_with_the_fewest_and_the_most_message_blocks(rt: HostRuntime) {
    for mblks in [1, 16_383] {
        assert_opens(&rt, rt.alloc(), 1, mblks);
    }
}

// The fault has this text.
fn assert_told(rt: &impl Abort, alloc: Global, fault: Fault, text: &str) -> Result<(), Fail> {
    assert!(rt; format!(in alloc; "{fault}")?.as_str() == text);
    Ok(())
}

// An invalid name has a text; a refusal has its own.
#[test]
fn faults_are_told(rt: HostRuntime) -> Result<(), Fail> {
    for (fault, text) in [
        (Fault::Invalid, "a name is not valid"),
        (
            Fault::Refused(Refusal::TooLarge),
            "the size is above the largest class",
        ),
        (
            Fault::Refused(Refusal::NoSuchBlock),
            "the message has no such block",
        ),
    ] {
        assert_told(&rt, rt.alloc(), fault, text)?;
    }
    Ok(())
}
