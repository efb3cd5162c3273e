use super::{assert_census, assert_freed, assert_is, assert_size, message, name, opened};
use std::process::Abort;
use strm_named::{Fault, Name, NamedPool};
use strm_pool::MsgType;

fn assert_not_copied(rt: &impl Abort, pool: &mut NamedPool, name: Name) {
    assert_is(rt, pool.dupb(name), Err(Fault::Invalid));
    assert_is(rt, pool.dupmsg(name), Err(Fault::Invalid));
    assert_is(rt, pool.copyb(name), Err(Fault::Invalid));
    assert_is(rt, pool.copymsg(name), Err(Fault::Invalid));
}

fn assert_not_parted(rt: &impl Abort, pool: &mut NamedPool, name: Name) {
    assert_is(rt, pool.freeb(name), Err(Fault::Invalid));
    assert_is(rt, pool.freemsg(name), Err(Fault::Invalid));
    assert_is(rt, pool.unlinkb(name), Err(Fault::Invalid));
    assert_is(rt, pool.rmvb(name, 0), Err(Fault::Invalid));
}

fn assert_not_changed(rt: &impl Abort, pool: &mut NamedPool, name: Name) {
    assert_is(rt, pool.write(name, 0, b"x"), Err(Fault::Invalid));
    assert_is(
        rt,
        pool.settype(name, 0, MsgType::MProto),
        Err(Fault::Invalid),
    );
    assert_is(rt, pool.setband(name, 1), Err(Fault::Invalid));
}

fn assert_not_trimmed(rt: &impl Abort, pool: &mut NamedPool, name: Name) {
    assert_is(rt, pool.linkb(name, name), Err(Fault::Invalid));
    assert_is(rt, pool.adjmsg(name, 0), Err(Fault::Invalid));
    assert_is(rt, pool.pullupmsg(name, 0), Err(Fault::Invalid));
}

fn assert_not_told(rt: &impl Abort, pool: &NamedPool, name: Name) {
    assert!(rt; !pool.has(name));
    assert_is(rt, pool.msgdsize(name), Err(Fault::Invalid));
    assert_is(rt, pool.size(name), Err(Fault::Invalid));
    assert_is(rt, pool.block(name, 0), Err(Fault::Invalid));
}

fn assert_not_read(rt: &impl Abort, pool: &NamedPool, name: Name) {
    let mut bytes = [7];
    assert_is(rt, pool.read(name, 0, &mut bytes), Err(Fault::Invalid));
    assert_is(rt, bytes, [7]);
}

fn assert_not_put(rt: &impl Abort, pool: &mut NamedPool, name: Name) {
    assert_is(rt, pool.putq(0, name), Err(Fault::Invalid));
    assert_is(rt, pool.putbq(0, name), Err(Fault::Invalid));
    assert_is(rt, pool.insq(0, 0, name), Err(Fault::Invalid));
    assert_is(rt, pool.insq_before(0, None, name), Err(Fault::Invalid));
}

// Each call refuses this name as `Invalid`.
pub(super) fn assert_invalid(rt: &impl Abort, pool: &mut NamedPool, name: Name) {
    let before = pool.pool().census();
    assert_not_copied(rt, pool, name);
    assert_not_parted(rt, pool, name);
    assert_not_changed(rt, pool, name);
    assert_not_trimmed(rt, pool, name);
    assert_not_told(rt, pool, name);
    assert_not_read(rt, pool, name);
    assert_not_put(rt, pool, name);
    assert_is(rt, pool.pool().census(), before);
}

#[test]
fn spends_a_name_once(rt: HostRuntime) {
    let mut pool = opened(&rt, rt.alloc(), 1);
    let first = message(&rt, &mut pool, b"one");
    assert_is(&rt, first, name(0, 1));
    assert_freed(&rt, &mut pool, first, Ok(()));
    assert_invalid(&rt, &mut pool, first);
    // The second message begins with the same block, but has another name.
    let second = message(&rt, &mut pool, b"two");
    assert_is(&rt, second, name(0, 2));
    assert_invalid(&rt, &mut pool, first);
    assert_size(&rt, &pool, second, Ok(3));
    assert_census(&rt, &pool, (7, 0, 1));
}

#[test]
fn knows_no_name_of_another_pool(rt: HostRuntime) {
    let mut one = opened(&rt, rt.alloc(), 1);
    let mut two = opened(&rt, rt.alloc(), 2);
    let first = message(&rt, &mut one, b"one");
    let second = message(&rt, &mut two, b"two");
    assert_invalid(&rt, &mut two, first);
    assert_invalid(&rt, &mut one, second);
}

#[test]
fn knows_no_name_that_was_made_up(rt: HostRuntime) {
    let mut pool = opened(&rt, rt.alloc(), 1);
    message(&rt, &mut pool, b"one");
    for stranger in [
        name(0, 0),
        name(0, 2),
        name(1, 0),
        name(8, 1),
        name(u32::MAX, u64::MAX),
    ] {
        assert_invalid(&rt, &mut pool, stranger);
    }
}
