use arrayvec::ArrayVec;
use std::alloc::Global;
use std::process::Abort;
use strm_pool::{
    Call, ClassSpec, ClassSpecs, Config, Octets, Pool, QueueSpec, QueueSpecs, Reg, Reply,
};

mod bench;
mod config;
mod copies;
mod in_place;
mod in_place_rows;
mod pool;
mod regs;
mod rows;
mod transfers;

// Two size classes: the size of each, and its number of data blocks.
const SIZES: [(u32, u32); 2] = [(16, 4), (64, 2)];

// Size classes, each of a size and a count.
fn classes(rt: &impl Abort, specs: &[(u32, u32)]) -> ClassSpecs {
    let mut list = ArrayVec::new();
    for (size, count) in specs {
        let spec = ClassSpec {
            size: *size,
            count: *count,
        };
        assert!(rt; list.try_push(spec).is_ok());
    }
    ClassSpecs::of(list)
}

// Queues, each of a high and a low water mark, and a next queue if any.
fn queues(rt: &impl Abort, specs: &[(u32, u32, Option<u8>)]) -> QueueSpecs {
    let mut list = ArrayVec::new();
    for (hiwat, lowat, next) in specs {
        let spec = QueueSpec {
            hiwat: *hiwat,
            lowat: *lowat,
            service: true,
            next: *next,
        };
        assert!(rt; list.try_push(spec).is_ok());
    }
    QueueSpecs::of(list)
}

// Opens a pool with this id, number of message blocks, classes, queues, greatest number of wishes, and first wish id.
fn opened(
    rt: &impl Abort,
    alloc: Global,
    named: (u32, u32),
    classes: ClassSpecs,
    queues: QueueSpecs,
    wishes: (u32, u32),
) -> Pool {
    let config = Config {
        id: named.0,
        mblks: named.1,
        classes,
        queues,
        bufcalls: wishes.0,
        first_id: wishes.1,
    };
    Pool::new(alloc, config).expect(rt, "a lawful configuration")
}

// The bytes as a call or reply carries them; at most `MOST_OCTETS`.
fn octets(rt: &impl Abort, bytes: &[u8]) -> Octets {
    let mut list = ArrayVec::new();
    assert!(rt; list.try_extend_from_slice(bytes).is_ok());
    Octets::of(list)
}

// The register named by a letter.
fn reg(rt: &impl Abort, letter: u8) -> Reg {
    register(rt, letter.wrapping_sub(b'a'))
}

// The register at this place of the alphabet, from 0.
fn register(rt: &impl Abort, place: u8) -> Reg {
    Reg::new(place).expect(rt, "a register")
}

// The reply to a call is this one.
fn assert_reply(rt: &impl Abort, call: &Call, given: &Reply, reply: &Reply) {
    assert!(rt; given == reply, "{call:?} {given:?}");
}
