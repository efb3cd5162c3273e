use super::bench::Bench;
use super::{SIZES, reg};
use std::process::Abort;
use strm_pool::{Call, Reg, Regs, Token, TokenSlot};

#[test]
fn there_are_registers_a_to_z(rt: HostRuntime) {
    for (place, there) in [(0, true), (25, true), (26, false), (255, false)] {
        assert!(rt; Reg::new(place).is_some() == there);
    }
}

// The number of a register, if there is one.
fn place(reg: Option<Reg>) -> Option<usize> {
    match reg {
        Some(reg) => Some(reg.index()),
        None => None,
    }
}

#[test]
fn a_call_names_a_queue_and_registers(rt: HostRuntime) {
    let (b, c) = (reg(&rt, b'b'), reg(&rt, b'c'));
    for (call, queue, named) in [
        (Call::Getq(3, c), Some(3), [None, None, Some(2)]),
        (Call::Linkb(b, c), None, [Some(1), Some(2), None]),
        (Call::Rmvb(b, 7, c), None, [Some(1), None, Some(2)]),
        (Call::Census, None, [None, None, None]),
    ] {
        let names = call.names();
        assert!(rt; names.queue == queue);
        assert!(rt;
            [
                place(names.source),
                place(names.second),
                place(names.destination)
            ] == named
        );
    }
}

// Whether registers a and z have tokens.
fn assert_holds(rt: &impl Abort, regs: &Regs, a: bool, z: bool) {
    assert!(rt; regs.holds(reg(rt, b'a')) == a);
    assert!(rt; regs.holds(reg(rt, b'z')) == z);
}

// The entries of registers a and z.
fn assert_entries(rt: &impl Abort, regs: &Regs, a: Option<(u32, u32)>, z: Option<(u32, u32)>) {
    assert!(rt; regs.entry(reg(rt, b'a')) == a);
    assert!(rt; regs.entry(reg(rt, b'z')) == z);
}

// The register keeps its token, and `put` returns the other one.
fn rejected(rt: &impl Abort, regs: &mut Regs, reg: Reg, token: Token) -> Token {
    match regs.put(reg, token) {
        Some(token) => token,
        None => panic!(rt; "the register was free"),
    }
}

#[test]
fn registers_hold_tokens(rt: HostRuntime) {
    let mut bench = Bench::opened(&rt, rt.alloc(), (7, 4), &SIZES);
    let (a, z) = (reg(&rt, b'a'), reg(&rt, b'z'));
    assert_holds(&rt, bench.regs(), false, false);
    bench.done(&rt, &[Call::Allocb(z, 1), Call::Allocb(a, 1)], &[Some(1)]);
    assert_holds(&rt, bench.regs(), true, true);
    let second = bench.taken(&rt, a);
    assert_holds(&rt, bench.regs(), false, true);
    let second = rejected(&rt, bench.regs(), z, second);
    assert!(rt; second.head() == 1);
    let first = bench.taken(&rt, z);
    assert!(rt; first.head() == 0);
    assert_holds(&rt, bench.regs(), false, false);
    bench.free(first);
    bench.hold(&rt, a, second);
    let bench = bench.drained();
    bench.assert_census(&rt, 4, 0);
    bench.end();
}

#[test]
fn registers_tell_heads_and_numbers_of_blocks(rt: HostRuntime) {
    let mut bench = Bench::opened(&rt, rt.alloc(), (7, 4), &SIZES);
    let (a, z) = (reg(&rt, b'a'), reg(&rt, b'z'));
    assert_entries(&rt, bench.regs(), None, None);
    bench.done(&rt, &[Call::Allocb(z, 1), Call::Allocb(a, 1)], &[Some(1)]);
    assert_entries(&rt, bench.regs(), Some((1, 1)), Some((0, 1)));
    bench.done(&rt, &[Call::Linkb(z, a)], &[None]);
    assert_entries(&rt, bench.regs(), None, Some((0, 2)));
    let bench = bench.drained();
    bench.end();
}

// There is no token.
fn assert_none(rt: &impl Abort, given: Option<Token>) {
    if let Some(token) = given {
        token.forget();
        panic!(rt; "a token");
    }
}

// Returns the token, which must have this head.
fn token_of(rt: &impl Abort, given: Option<Token>, head: u32) -> Token {
    let token = given.expect(rt, "a token");
    assert!(rt; token.head() == head);
    token
}

// The slot's token has this head, or there is none.
fn assert_slot(rt: &impl Abort, slot: &TokenSlot, head: Option<u32>) {
    assert!(rt; slot.token().as_ref().map(Token::head) == head);
}

#[test]
fn slots_give_back_what_they_held(rt: HostRuntime) {
    let mut bench = Bench::opened(&rt, rt.alloc(), (7, 4), &SIZES);
    let (a, b) = (reg(&rt, b'a'), reg(&rt, b'b'));
    bench.done(
        &rt,
        &[Call::Allocb(a, 1), Call::Allocb(b, 1)],
        &[Some(0), Some(1)],
    );
    let mut slot = TokenSlot::none();
    assert_slot(&rt, &slot, None);
    assert_none(&rt, slot.replace(bench.taken(&rt, a)));
    assert_slot(&rt, &slot, Some(0));
    let first = token_of(&rt, slot.replace(bench.taken(&rt, b)), 0);
    bench.free(first);
    let second = token_of(&rt, slot.take(), 1);
    assert_slot(&rt, &slot, None);
    assert_none(&rt, slot.take());
    assert_none(&rt, slot.replace(second));
    let second = token_of(&rt, slot.into_token(), 1);
    bench.free(second);
    let bench = bench.drained();
    bench.assert_census(&rt, 4, 0);
    bench.end();
}

#[test]
fn a_dropped_slot_gives_its_token_up(rt: HostRuntime) {
    let mut bench = Bench::opened(&rt, rt.alloc(), (7, 4), &SIZES);
    let a = reg(&rt, b'a');
    bench.done(&rt, &[Call::Allocb(a, 1)], &[Some(0)]);
    let mut slot = TokenSlot::none();
    assert_none(&rt, slot.replace(bench.taken(&rt, a)));
    drop(slot);
    let bench = bench.drained();
    bench.assert_census(&rt, 3, 1);
    bench.end();
}
