use super::spent::assert_invalid;
use super::{assert_freed, assert_is, message, name, opened};
use std::process::Abort;
use strm_named::{Fault, Name, NamedPool};
use strm_pool::{MsgType, Refusal, Shape};

// Sets each byte that `edit` lends to this one, and asserts what the call returns.
fn assert_set(
    rt: &impl Abort,
    pool: &mut NamedPool,
    block: (Name, u32),
    byte: u8,
    wanted: Result<(), Fault>,
) {
    let given = pool.edit(block.0, block.1, |lent| lent.fill(byte));
    assert_is(rt, given, wanted);
}

// Sets each byte that `fill` lends to this one, says that they are a number of bytes, and asserts what the call returns.
fn assert_filled(
    rt: &impl Abort,
    pool: &mut NamedPool,
    name: Name,
    count: usize,
    wanted: Result<u32, Fault>,
) {
    let given = pool.fill(name, 0, |lent| {
        lent.fill(b'f');
        count
    });
    assert_is(rt, given, wanted);
}

#[test]
fn lends_bytes_to_change(rt: HostRuntime) {
    let mut pool = opened(&rt, rt.alloc(), 1);
    let first = message(&rt, &mut pool, b"abc");
    assert_set(&rt, &mut pool, (first, 0), b'x', Ok(()));
    let missing = Err(Fault::Refused(Refusal::NoSuchBlock));
    assert_set(&rt, &mut pool, (first, 1), b'x', missing);
    assert_filled(&rt, &mut pool, first, 2, Ok(2));
    assert_is(&rt, pool.bytes(first, 0), Ok(&b"xxxff"[..]));
    assert_freed(&rt, &mut pool, first, Ok(()));
    assert_set(&rt, &mut pool, (first, 0), b'x', Err(Fault::Invalid));
    assert_filled(&rt, &mut pool, first, 0, Err(Fault::Invalid));
}

// The places, type and band of a block, as of the whole message.
#[test]
fn shapes_blocks(rt: HostRuntime) {
    let mut pool = opened(&rt, rt.alloc(), 1);
    let first = message(&rt, &mut pool, b"abc");
    let shape = Shape {
        at: 1,
        len: 2,
        kind: MsgType::MProto,
        band: 3,
    };
    let missing = Err(Fault::Refused(Refusal::NoSuchBlock));
    assert_is(&rt, pool.shape_all(first, &[shape, shape]), missing);
    assert_is(&rt, pool.shape_all(first, &[shape]), Ok(()));
    assert_is(&rt, pool.bytes(first, 0), Ok(&b"bc"[..]));
    assert_freed(&rt, &mut pool, first, Ok(()));
    assert_is(&rt, pool.shape_all(first, &[shape]), Err(Fault::Invalid));
}

// Names that were lost are found again by the heads of their messages.
#[test]
fn finds_names(rt: HostRuntime) {
    let mut pool = opened(&rt, rt.alloc(), 1);
    let first = message(&rt, &mut pool, b"one");
    let second = message(&rt, &mut pool, b"two");
    assert_is(&rt, pool.name_at(0), Some(first));
    assert_is(&rt, pool.name_at(1), Some(second));
    assert_is(&rt, pool.name_at(2), None);
    assert_is(&rt, pool.name_at(u32::MAX), None);
    assert_is(&rt, pool.putq(0, first), Ok(()));
    assert_is(&rt, pool.name_at(0), None);
    assert_freed(&rt, &mut pool, second, Ok(()));
    assert_is(&rt, pool.name_at(1), None);
    assert_invalid(&rt, &mut pool, second);
}
