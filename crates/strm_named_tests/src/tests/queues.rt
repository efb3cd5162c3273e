use super::spent::assert_invalid;
use super::{assert_census, assert_freed, assert_is, message, name, opened};
use std::process::Abort;
use strm_named::{Fault, Name, NamedPool};
use strm_pool::{Flush, Refusal};

fn assert_put(
    rt: &impl Abort,
    pool: &mut NamedPool,
    queue: u8,
    name: Name,
    wanted: Result<(), Fault>,
) {
    assert_is(rt, pool.putq(queue, name), wanted);
}

fn assert_inserted(
    rt: &impl Abort,
    pool: &mut NamedPool,
    place: u32,
    name: Name,
    wanted: Result<(), Fault>,
) {
    assert_is(rt, pool.insq(0, place, name), wanted);
}

fn assert_got(rt: &impl Abort, pool: &mut NamedPool, wanted: Option<Name>) {
    assert_is(rt, pool.getq(0), Ok(wanted));
}

fn assert_removed(rt: &impl Abort, pool: &mut NamedPool, place: u32, wanted: Result<Name, Fault>) {
    assert_is(rt, pool.rmvq(0, place), wanted);
}

// Puts three messages on queue 0, with heads 1, 0 and 2.
fn filled(rt: &impl Abort, pool: &mut NamedPool) {
    let first = message(rt, pool, b"one");
    let second = message(rt, pool, b"two");
    let third = message(rt, pool, b"three");
    assert_put(
        rt,
        pool,
        2,
        first,
        Err(Fault::Refused(Refusal::NoSuchQueue)),
    );
    assert_put(rt, pool, 0, first, Ok(()));
    assert_invalid(rt, pool, first);
    assert_is(rt, pool.putbq(0, second), Ok(()));
    let missing = Err(Fault::Refused(Refusal::NoSuchPlace));
    assert_inserted(rt, pool, 3, third, missing);
    assert_inserted(rt, pool, 2, third, Ok(()));
}

#[test]
fn puts_and_gets(rt: HostRuntime) {
    let mut pool = opened(&rt, rt.alloc(), 1);
    assert_got(&rt, &mut pool, None);
    filled(&rt, &mut pool);
    assert_census(&rt, &pool, (5, 3, 0));
    assert_got(&rt, &mut pool, Some(name(1, 2)));
    assert_invalid(&rt, &mut pool, name(1, 1));
    assert_removed(&rt, &mut pool, 1, Ok(name(2, 2)));
    let missing = Err(Fault::Refused(Refusal::NoSuchPlace));
    assert_removed(&rt, &mut pool, 1, missing);
    assert_census(&rt, &pool, (5, 1, 2));
}

// Messages are inserted and removed by their heads: queue 0 has 1, 0 and 2, and then 1, 3, 0 and 2.
#[test]
fn inserts_and_removes_by_head(rt: HostRuntime) {
    let mut pool = opened(&rt, rt.alloc(), 1);
    filled(&rt, &mut pool);
    let fourth = message(&rt, &mut pool, b"four");
    let missing = Err(Fault::Refused(Refusal::NoSuchPlace));
    assert_is(&rt, pool.insq_before(0, Some(3), fourth), missing);
    assert_is(&rt, pool.insq_before(0, Some(0), fourth), Ok(()));
    assert_invalid(&rt, &mut pool, fourth);
    assert_is(&rt, pool.rmvq_head(0), Ok(name(0, 2)));
    let missing = Err(Fault::Refused(Refusal::NoSuchPlace));
    assert_is(&rt, pool.rmvq_head(0), missing);
    assert_is(&rt, pool.insq_before(0, None, name(0, 2)), Ok(()));
    assert_got(&rt, &mut pool, Some(name(1, 2)));
    assert_got(&rt, &mut pool, Some(name(3, 2)));
    assert_got(&rt, &mut pool, Some(name(2, 2)));
    assert_got(&rt, &mut pool, Some(name(0, 3)));
    assert_census(&rt, &pool, (4, 0, 4));
}

// `take_flushed` of these messages has stored these names at the beginning, and left the others.
fn assert_taken(
    rt: &impl Abort,
    taken: Result<u32, Fault>,
    into: &[Name],
    wanted: Result<u32, Fault>,
    names: &[Name],
) {
    assert_is(rt, taken, wanted);
    assert!(rt; into == names);
}

// Queue 0 has messages with heads 1, 0 and 2. Those that a flush would free are taken, as many as fit.
#[test]
fn takes_what_a_flush_would_free(rt: HostRuntime) {
    let mut pool = opened(&rt, rt.alloc(), 1);
    filled(&rt, &mut pool);
    let none = name(9, 9);
    let missing = Err(Fault::Refused(Refusal::NoSuchQueue));
    let mut into = [none; 2];
    let taken = pool.take_flushed(2, Flush::All, &mut into);
    assert_taken(&rt, taken, &into, missing, &[none; 2]);
    let taken = pool.take_flushed(0, Flush::All, &mut []);
    assert_taken(&rt, taken, &into, Ok(0), &[none; 2]);
    let taken = pool.take_flushed(0, Flush::All, &mut into);
    assert_taken(&rt, taken, &into, Ok(2), &[name(1, 2), name(0, 2)]);
    assert_invalid(&rt, &mut pool, name(1, 1));
    assert_census(&rt, &pool, (5, 1, 2));
    let taken = pool.take_flushed(0, Flush::Data, &mut into);
    assert_taken(&rt, taken, &into, Ok(1), &[name(2, 2), name(0, 2)]);
    assert_census(&rt, &pool, (5, 0, 3));
    for taken in [name(1, 2), name(0, 2), name(2, 2)] {
        assert_freed(&rt, &mut pool, taken, Ok(()));
    }
}

// Those of one band are taken, and the others stay.
#[test]
fn takes_what_a_flush_of_a_band_would_free(rt: HostRuntime) {
    let mut pool = opened(&rt, rt.alloc(), 1);
    filled(&rt, &mut pool);
    let fourth = message(&rt, &mut pool, b"four");
    assert_is(&rt, pool.setband(fourth, 3), Ok(()));
    assert_put(&rt, &mut pool, 0, fourth, Ok(()));
    let mut into = [name(9, 9); 3];
    let taken = pool.take_flushed_band(0, 3, Flush::All, &mut into);
    let names = [name(3, 2), name(9, 9), name(9, 9)];
    assert_taken(&rt, taken, &into, Ok(1), &names);
    let taken = pool.take_flushed_band(0, 4, Flush::All, &mut into);
    assert_taken(&rt, taken, &into, Ok(0), &names);
    assert_census(&rt, &pool, (4, 3, 1));
    let missing = Err(Fault::Refused(Refusal::NoSuchQueue));
    let taken = pool.take_flushed_band(2, 3, Flush::All, &mut into);
    assert_taken(&rt, taken, &into, missing, &names);
}

// `getq_run` from this place on has stored names up to that one.
fn assert_run(
    rt: &impl Abort,
    pool: &mut NamedPool,
    into: &mut [Name; 4],
    run: (usize, usize),
    names: [Name; 4],
) {
    let end = pool.getq_run(0, into, run.0);
    assert!(rt; end == run.1 && *into == names);
}

// Queue 0 has messages with heads 1, 0, 2, 3 and 4, all of one rank. After `getq`, those before the last one are taken together, as many
// as fit.
#[test]
fn takes_messages_of_a_rank_together(rt: HostRuntime) {
    let mut pool = opened(&rt, rt.alloc(), 1);
    filled(&rt, &mut pool);
    for bytes in [b"four", b"five"] {
        let next = message(&rt, &mut pool, bytes);
        assert_put(&rt, &mut pool, 0, next, Ok(()));
    }
    let none = name(9, 9);
    let mut into = [none; 4];
    assert_run(&rt, &mut pool, &mut into, (0, 0), [none; 4]);
    assert_got(&rt, &mut pool, Some(name(1, 2)));
    assert_run(&rt, &mut pool, &mut into, (4, 4), [none; 4]);
    let names = [none, none, none, name(0, 2)];
    assert_run(&rt, &mut pool, &mut into, (3, 4), names);
    assert_invalid(&rt, &mut pool, name(0, 1));
    let names = [none, name(2, 2), name(3, 2), name(0, 2)];
    assert_run(&rt, &mut pool, &mut into, (1, 3), names);
    assert_run(&rt, &mut pool, &mut into, (0, 0), names);
    assert_census(&rt, &pool, (3, 1, 4));
    assert_got(&rt, &mut pool, Some(name(4, 2)));
    for taken in [1, 0, 2, 3, 4] {
        assert_freed(&rt, &mut pool, name(taken, 2), Ok(()));
    }
}

#[test]
fn records_wishes(rt: HostRuntime) {
    let mut pool = opened(&rt, rt.alloc(), 1);
    assert_is(&rt, pool.bufcall(16), Ok(1));
    assert_is(&rt, pool.bufcall(16), Ok(2));
    assert_is(&rt, pool.unbufcall(1), Ok(()));
    assert_is(&rt, pool.pool().wish_at(0), Some((2, 16)));
    assert_is(&rt, pool.take_ready(), Some((2, 16)));
    assert_is(&rt, pool.take_ready(), None);
}
