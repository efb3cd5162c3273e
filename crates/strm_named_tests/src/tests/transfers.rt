use super::{assert_census, assert_freed, assert_is, assert_size, message, name, opened};
use std::process::Abort;
use strm_named::{Fault, Name, NamedPool};
use strm_pool::Refusal;

// Transfers a message, and asserts the name or the fault that the call returns.
fn assert_moved(
    rt: &impl Abort,
    here: &mut NamedPool,
    there: &mut NamedPool,
    name: Name,
    wanted: Result<Name, Fault>,
) {
    assert_is(rt, here.transfer(there, name), wanted);
}

// The first name of a pool with id 2.
const FIRST_THERE: Name = Name {
    pool: 2,
    head: 0,
    stamp: 1,
};

#[test]
fn moves_a_message(rt: HostRuntime) {
    let mut here = opened(&rt, rt.alloc(), 1);
    let mut there = opened(&rt, rt.alloc(), 2);
    let moved = message(&rt, &mut here, b"abc");
    assert_moved(&rt, &mut here, &mut there, moved, Ok(FIRST_THERE));
    assert_size(&rt, &there, FIRST_THERE, Ok(3));
    assert_size(&rt, &here, moved, Err(Fault::Invalid));
    assert_size(&rt, &here, FIRST_THERE, Err(Fault::Invalid));
    assert_moved(&rt, &mut here, &mut there, moved, Err(Fault::Invalid));
    assert_census(&rt, &here, (8, 0, 0));
    assert_census(&rt, &there, (7, 0, 1));
    assert_is(&rt, here.allocb(16), Ok(name(0, 2)));
    assert_freed(&rt, &mut there, FIRST_THERE, Ok(()));
}

// All message blocks of the other pool are held.
#[test]
fn keeps_the_name_of_a_message_that_is_refused(rt: HostRuntime) {
    let mut here = opened(&rt, rt.alloc(), 1);
    let mut there = opened(&rt, rt.alloc(), 2);
    let stays = message(&rt, &mut here, b"abc");
    for _block in 0..8 {
        there.allocb(16).expect(&rt, "a message");
    }
    let no_mblk = Err(Fault::Refused(Refusal::NoMblk));
    assert_moved(&rt, &mut here, &mut there, stays, no_mblk);
    assert_size(&rt, &here, stays, Ok(3));
    assert_census(&rt, &here, (7, 0, 1));
    assert_census(&rt, &there, (0, 0, 8));
    assert_freed(&rt, &mut there, FIRST_THERE, Ok(()));
    let next = Name {
        stamp: 2,
        ..FIRST_THERE
    };
    assert_moved(&rt, &mut here, &mut there, stays, Ok(next));
}
