use super::spent::assert_invalid;
use super::{
    assert_census, assert_freed, assert_is, assert_linked, assert_size, message, name, opened,
};
use std::process::Abort;
use strm_named::{Fault, Name, NamedPool};
use strm_pool::{MsgType, QueuedInfo, Refusal, Supply};

fn assert_unlinked(rt: &impl Abort, pool: &mut NamedPool, name: Name, wanted: Option<Name>) {
    assert_is(rt, pool.unlinkb(name), Ok(wanted));
}

fn assert_parted(
    rt: &impl Abort,
    pool: &mut NamedPool,
    from: (Name, u32),
    wanted: Result<(Name, Option<Name>), Fault>,
) {
    assert_is(rt, pool.rmvb(from.0, from.1), wanted);
}

fn assert_typed(
    rt: &impl Abort,
    pool: &mut NamedPool,
    block: (Name, u32),
    kind: MsgType,
    wanted: Result<(), Fault>,
) {
    assert_is(rt, pool.settype(block.0, block.1, kind), wanted);
}

// A message of two blocks has this type, band and size.
#[test]
fn tells_what_a_message_is_like(rt: HostRuntime) {
    let mut pool = opened(&rt, rt.alloc(), 1);
    let first = message(&rt, &mut pool, b"one");
    let second = message(&rt, &mut pool, b"four");
    assert_typed(&rt, &mut pool, (first, 0), MsgType::MProto, Ok(()));
    assert_is(&rt, pool.setband(first, 3), Ok(()));
    assert_linked(&rt, &mut pool, (first, second), Ok(()));
    let info = QueuedInfo {
        head: 0,
        kind: MsgType::MProto,
        band: 3,
        size: 7,
        blocks: 2,
    };
    assert_is(&rt, pool.message(first), Ok(info));
    assert_is(&rt, pool.message(second), Err(Fault::Invalid));
}

#[test]
fn joins_messages(rt: HostRuntime) {
    let mut pool = opened(&rt, rt.alloc(), 1);
    let first = message(&rt, &mut pool, b"one");
    let second = message(&rt, &mut pool, b"two");
    assert_linked(&rt, &mut pool, (first, first), Err(Fault::Invalid));
    assert_linked(&rt, &mut pool, (first, second), Ok(()));
    assert_invalid(&rt, &mut pool, second);
    assert_size(&rt, &pool, first, Ok(6));
    assert_linked(&rt, &mut pool, (first, second), Err(Fault::Invalid));
    assert_unlinked(&rt, &mut pool, first, Some(name(1, 2)));
    assert_unlinked(&rt, &mut pool, first, None);
    assert_invalid(&rt, &mut pool, second);
    assert_size(&rt, &pool, name(1, 2), Ok(3));
}

// One of the two parts keeps the head, but gets a new name.
#[test]
fn parts_messages(rt: HostRuntime) {
    let mut pool = opened(&rt, rt.alloc(), 1);
    let first = message(&rt, &mut pool, b"one");
    let second = message(&rt, &mut pool, b"two");
    assert_linked(&rt, &mut pool, (first, second), Ok(()));
    let missing = Err(Fault::Refused(Refusal::NoSuchBlock));
    assert_parted(&rt, &mut pool, (first, 2), missing);
    assert_parted(
        &rt,
        &mut pool,
        (first, 1),
        Ok((name(1, 2), Some(name(0, 2)))),
    );
    assert_invalid(&rt, &mut pool, first);
    assert_invalid(&rt, &mut pool, second);
    assert_parted(&rt, &mut pool, (name(0, 2), 0), Ok((name(0, 3), None)));
    assert_invalid(&rt, &mut pool, name(0, 2));
    assert_freed(&rt, &mut pool, name(0, 3), Ok(()));
    assert_census(&rt, &pool, (7, 0, 1));
}

#[test]
fn frees_a_first_block(rt: HostRuntime) {
    let mut pool = opened(&rt, rt.alloc(), 1);
    let first = message(&rt, &mut pool, b"one");
    let second = message(&rt, &mut pool, b"two");
    assert_linked(&rt, &mut pool, (first, second), Ok(()));
    assert_is(&rt, pool.freeb(first), Ok(Some(name(1, 2))));
    assert_invalid(&rt, &mut pool, first);
    assert_is(&rt, pool.freeb(name(1, 2)), Ok(None));
    assert_census(&rt, &pool, (8, 0, 0));
}

#[test]
fn names_what_it_copies(rt: HostRuntime) {
    let mut pool = opened(&rt, rt.alloc(), 1);
    let source = message(&rt, &mut pool, b"one");
    assert_is(&rt, pool.dupb(source), Ok(name(1, 1)));
    assert_is(&rt, pool.dupmsg(source), Ok(name(2, 1)));
    assert_is(&rt, pool.copyb(source), Ok(name(3, 1)));
    assert_is(&rt, pool.copymsg(source), Ok(name(4, 1)));
    let shared = Err(Fault::Refused(Refusal::Shared));
    assert_typed(&rt, &mut pool, (source, 0), MsgType::MProto, shared);
    assert_census(&rt, &pool, (3, 0, 5));
}

// Each message that is made from a supply gets a new name.
#[test]
fn names_what_it_makes_from_a_supply(rt: HostRuntime) {
    let mut pool = opened(&rt, rt.alloc(), 1);
    let first = message(&rt, &mut pool, b"one");
    assert_freed(&rt, &mut pool, first, Ok(()));
    let supply = pool.pool().supply(16).expect(&rt, "a supply");
    assert_is(&rt, (supply.class, supply.count), (0, 8));
    assert_is(&rt, pool.allocb_from(16, supply), name(0, 2));
    let rest = Supply { count: 7, ..supply };
    assert_is(&rt, pool.allocb_from(16, rest), name(1, 1));
    assert_invalid(&rt, &mut pool, first);
    assert_census(&rt, &pool, (6, 0, 2));
}
