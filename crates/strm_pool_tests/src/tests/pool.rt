use super::bench::Bench;
use super::{SIZES, reg};
use std::alloc::Global;
use std::process::Abort;
use strm_pool::{Call, Refusal, Reply};

// A bench with a pool of this id and four message blocks, and a message in register a.
fn holding(rt: &impl Abort, alloc: Global, id: u32) -> Bench {
    let mut bench = Bench::opened(rt, alloc, (id, 4), &SIZES);
    bench.done(rt, &[Call::Allocb(reg(rt, b'a'), 1)], &[Some(0)]);
    bench
}

#[test]
fn gives_a_rejected_token_back(rt: HostRuntime) {
    let mut one = holding(&rt, rt.alloc(), 7);
    let a = reg(&rt, b'a');
    let token = one.taken(&rt, a);
    let token = one.not_put(&rt, 1, token);
    let token = one.not_put(&rt, 255, token);
    one.assert_census(&rt, 3, 1);
    one.hold(&rt, a, token);
    let one = one.drained();
    one.assert_census(&rt, 4, 0);
    one.end();
}

#[test]
fn spends_the_token_of_another_pool(rt: HostRuntime) {
    let mut one = holding(&rt, rt.alloc(), 1);
    let two = holding(&rt, rt.alloc(), 2);
    assert!(rt; one.owns(&one) && two.owns(&two));
    assert!(rt; !one.owns(&two) && !two.owns(&one));
    let mut two = two.drained();
    let token = one.taken(&rt, reg(&rt, b'a'));
    assert!(rt; (token.pool(), token.head(), token.blocks()) == (1, 0, 1));
    two.free(token);
    one.assert_census(&rt, 3, 1);
    two.assert_census(&rt, 4, 0);
    one.end();
    two.end();
}

#[test]
fn has_no_message_that_was_freed(rt: HostRuntime) {
    // Two pools with one id: each has a token that fits the other.
    let one = holding(&rt, rt.alloc(), 1);
    let mut two = holding(&rt, rt.alloc(), 1);
    assert!(rt; one.owns(&two));
    let mut one = one.drained();
    assert!(rt; !one.owns(&two) && two.owns(&two));
    let token = two.taken(&rt, reg(&rt, b'a'));
    one.free(token);
    one.assert_census(&rt, 4, 0);
    two.assert_census(&rt, 3, 1);
    one.end();
    two.end();
}

// A pool whose registers a and b have two tokens of its one message: the one in b is from another pool with its id.
fn held_twice(rt: &impl Abort, alloc: Global) -> Bench {
    let mut one = holding(rt, alloc, 1);
    let mut two = holding(rt, alloc, 1);
    let token = two.taken(rt, reg(rt, b'a'));
    one.hold(rt, reg(rt, b'b'), token);
    assert!(rt; one.owns(&one) && two.owns(&one));
    two.assert_census(rt, 3, 1);
    two.end();
    one
}

#[test]
fn drains_a_message_held_twice_once(rt: HostRuntime) {
    let one = held_twice(&rt, rt.alloc()).drained();
    one.assert_census(&rt, 4, 0);
    one.end();
}

#[test]
fn links_no_message_behind_itself(rt: HostRuntime) {
    let mut one = held_twice(&rt, rt.alloc());
    let (a, b) = (reg(&rt, b'a'), reg(&rt, b'b'));
    one.done(&rt, &[Call::Linkb(a, b)], &[Some(0), None]);
    assert!(rt; one.regs().entry(a) == Some((0, 1)));
    one.assert_census(&rt, 3, 1);
    one.end();
}

#[test]
fn lends_its_parts(rt: HostRuntime) {
    let (a, b) = (reg(&rt, b'a'), reg(&rt, b'b'));
    let mut one = holding(&rt, rt.alloc(), 7);
    one.done(&rt, &[Call::Dupb(a, b), Call::Putq(0, b)], &[Some(0), None]);
    one.assert_lent(&rt, 1, 2);
    one.end();
}

// A supply is as long as its class has data blocks, and as message blocks are free.
#[test]
fn makes_messages_from_a_supply(rt: HostRuntime) {
    let mut one = holding(&rt, rt.alloc(), 7);
    assert!(rt; one.supplied(&rt, 17) == Ok((1, 2)));
    one.done(&rt, &[], &[Some(0), Some(1), Some(2), None]);
    assert!(rt; one.supplied(&rt, 17) == Err(Refusal::NoData));
    let mut one = one.drained();
    assert!(rt; one.supplied(&rt, 1) == Ok((0, 4)));
    assert!(rt; one.supplied(&rt, 1) == Err(Refusal::NoMblk));
    assert!(rt; one.supplied(&rt, 65) == Err(Refusal::TooLarge));
    one.end();
}

// A bench with three messages, in registers a to c. That of c is of band 1.
fn holding_three(rt: &impl Abort, alloc: Global) -> Bench {
    let (b, c) = (reg(rt, b'b'), reg(rt, b'c'));
    let mut bench = holding(rt, alloc, 7);
    let calls = [Call::Allocb(b, 1), Call::Allocb(c, 1), Call::Setband(c, 1)];
    bench.done(rt, &calls, &[Some(0), Some(1), Some(2), None]);
    bench
}

// Messages of a burst go after those of their band, also behind a message of another band.
#[test]
fn puts_a_burst_in_order(rt: HostRuntime) {
    let (a, b, c) = (reg(&rt, b'a'), reg(&rt, b'b'), reg(&rt, b'c'));
    let mut one = holding_three(&rt, rt.alloc());
    let taken = [Call::Getq(0, a), Call::Getq(0, b), Call::Getq(0, c)];
    let heads = [Some(2), Some(0), Some(1), None];
    one.put_burst(&rt, [a, b, c]);
    one.assert_lent(&rt, 3, 1);
    one.done(&rt, &taken, &heads);
    one.put_burst(&rt, [b, a, c]);
    one.done(&rt, &taken, &heads);
    one.end();
}

#[test]
fn enables_the_queue_of_a_burst(rt: HostRuntime) {
    let mut one = holding_three(&rt, rt.alloc());
    one.put_burst(&rt, [reg(&rt, b'a'), reg(&rt, b'b'), reg(&rt, b'c')]);
    let rows = [
        (Call::Service, Reply::Queue(0)),
        (Call::Service, Reply::Nothing),
    ];
    one.serve(&rt, &rows, &[None, None, None]);
}
