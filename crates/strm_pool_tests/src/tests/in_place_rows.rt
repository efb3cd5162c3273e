//! Calls in place and looks, worked out by hand.
use super::bench::Bench;
use super::in_place::InPlace;
use super::in_place::InPlace::{
    Advance, Edit, Fill, Overwrite, Prepend, Reserve, ShapeAll, Window,
};
use super::{SIZES, octets, reg};
use std::fmt::Debug;
use std::process::Abort;
use strm_pool::{BlockInfo, BlockPlace, Call, MsgType, QueuedInfo, Refusal, Shape};

const NO_ROOM: Result<u32, Refusal> = Err(Refusal::NoRoom);

const NO_SUCH_BLOCK: Result<u32, Refusal> = Err(Refusal::NoSuchBlock);

const SHARED: Result<u32, Refusal> = Err(Refusal::Shared);

const SHORT: Result<u32, Refusal> = Err(Refusal::Short);

fn assert_is<T: Copy + Debug + PartialEq>(rt: &impl Abort, given: T, wanted: T) {
    assert!(rt; given == wanted, "{given:?} {wanted:?}");
}

// Where a block has its bytes: in this data block, of 16 bytes.
const fn placed(data: u32, at: u32, len: u32) -> BlockPlace {
    BlockPlace {
        data,
        at,
        len,
        capacity: 16,
    }
}

// What `block` returns of a block of type M_DATA and band 0 with this length, room and number of references.
const fn told(len: u32, room: u32, names: u8) -> BlockInfo {
    BlockInfo {
        kind: MsgType::MData,
        len,
        band: 0,
        room,
        names,
    }
}

#[test]
fn leaves_room_for_headers(rt: HostRuntime) {
    let a = reg(&rt, b'a');
    let mut bench = Bench::opened(&rt, rt.alloc(), (1, 8), &SIZES);
    bench.done(&rt, &[Call::Allocb(a, 16)], &[Some(0)]);
    let rows = [
        (Reserve(0, 17), NO_ROOM),
        (Reserve(1, 0), NO_SUCH_BLOCK),
        (Reserve(0, 4), Ok(0)),
        (Fill(0, b"data", 4), Ok(4)),
        (Reserve(0, 0), NO_ROOM),
        (Prepend(b"12345"), NO_ROOM),
        (Prepend(b"123"), Ok(0)),
    ];
    bench.change(&rt, a, &rows);
    bench.assert_blocks(&rt, a, &[(placed(0, 1, 7), b"123data")]);
    bench.end();
}

// Bytes that `fill` does not count stay after the write place, and `advance` counts them.
#[test]
fn fills_the_room(rt: HostRuntime) {
    let a = reg(&rt, b'a');
    let mut bench = Bench::opened(&rt, rt.alloc(), (1, 8), &SIZES);
    bench.done(&rt, &[Call::Allocb(a, 16)], &[Some(0)]);
    let rows = [
        (Fill(0, b"abcdef", 3), Ok(3)),
        (Fill(1, b"", 0), NO_SUCH_BLOCK),
        (Advance(0, 14), NO_ROOM),
        (Advance(1, 0), NO_SUCH_BLOCK),
        (Advance(0, 2), Ok(0)),
        (Edit(0, b"AB"), Ok(0)),
        (Edit(1, b"AB"), NO_SUCH_BLOCK),
    ];
    bench.change(&rt, a, &rows);
    bench.assert_blocks(&rt, a, &[(placed(0, 0, 5), b"ABcde")]);
    // All room is filled, and no more is counted.
    bench.change(&rt, a, &[(Fill(0, b"f", 99), Ok(11))]);
    bench.assert_blocks(&rt, a, &[(placed(0, 0, 16), b"ABcdef\0\0\0\0\0\0\0\0\0\0")]);
    bench.end();
}

// The first block of the message has a duplicate, so only its second can be changed.
#[test]
fn changes_what_is_not_shared(rt: HostRuntime) {
    let (a, b) = (reg(&rt, b'a'), reg(&rt, b'b'));
    let mut bench = Bench::opened(&rt, rt.alloc(), (1, 8), &SIZES);
    let calls = [
        Call::Allocb(a, 16),
        Call::Write(a, 0, octets(&rt, b"head")),
        Call::Allocb(b, 16),
        Call::Write(b, 0, octets(&rt, b"tail")),
        Call::Linkb(a, b),
        Call::Dupb(a, b),
    ];
    bench.done(&rt, &calls, &[Some(0), Some(2)]);
    let rows = [
        (Edit(0, b"H"), SHARED),
        (Fill(0, b"H", 1), SHARED),
        (Advance(0, 99), SHARED),
        (Reserve(0, 0), SHARED),
        (Prepend(b"more"), SHARED),
        (Overwrite(3, b"xy"), SHARED),
        (Overwrite(4, b"TA"), Ok(0)),
        (Overwrite(6, b"xyz"), SHORT),
        (Overwrite(9, b""), SHORT),
        (Edit(1, b"tA"), Ok(0)),
    ];
    bench.change(&rt, a, &rows);
    bench.assert_blocks(
        &rt,
        a,
        &[(placed(0, 0, 4), b"head"), (placed(1, 0, 4), b"tAil")],
    );
    let (head, tail) = (told(4, 12, 2), told(4, 12, 1));
    let other = told(9, 9, 9);
    assert_is(&rt, bench.walked(&rt, a, 0, [other; 2]), [head, tail]);
    assert_is(&rt, bench.walked(&rt, a, 1, [other; 2]), [tail, other]);
    assert_is(&rt, bench.walked(&rt, a, 2, [other; 2]), [other; 2]);
    bench.done(&rt, &[Call::Freemsg(b)], &[Some(0), None]);
    bench.change(&rt, a, &[(Overwrite(2, b"-over"), Ok(0))]);
    bench.assert_blocks(
        &rt,
        a,
        &[(placed(0, 0, 4), b"he-o"), (placed(1, 0, 4), b"verl")],
    );
    bench.end();
}

// What a block is to be like.
const fn shape(at: u32, len: u32, kind: MsgType, band: u8) -> Shape {
    Shape {
        at,
        len,
        kind,
        band,
    }
}

// The first block of the message has a duplicate, so it keeps its type, and its data block is lent to no one.
#[test]
fn shapes_blocks(rt: HostRuntime) {
    let (a, b) = (reg(&rt, b'a'), reg(&rt, b'b'));
    let mut bench = Bench::opened(&rt, rt.alloc(), (1, 8), &SIZES);
    let calls = [
        Call::Allocb(a, 16),
        Call::Write(a, 0, octets(&rt, b"head")),
        Call::Allocb(b, 16),
        Call::Write(b, 0, octets(&rt, b"tail")),
        Call::Linkb(a, b),
        Call::Dupb(a, b),
    ];
    bench.done(&rt, &calls, &[Some(0), Some(2)]);
    bench.assert_numbers(&rt, a, &[0, 1]);
    let (kept, new) = (MsgType::MData, MsgType::MProto);
    let whole = shape(0, 16, kept, 0);
    let refused = [
        (ShapeAll(&[whole, whole, whole]), NO_SUCH_BLOCK),
        (ShapeAll(&[shape(0, 17, kept, 0)]), NO_ROOM),
        (ShapeAll(&[whole, shape(16, 1, kept, 0)]), NO_ROOM),
        (ShapeAll(&[shape(0, 4, new, 0)]), SHARED),
        (ShapeAll(&[shape(9, 8, new, 0)]), NO_ROOM),
        (
            ShapeAll(&[shape(0, 4, new, 0), shape(9, 8, kept, 0)]),
            SHARED,
        ),
        (ShapeAll(&[]), Ok(0)),
        (InPlace::Shape(2, 0, 0), NO_SUCH_BLOCK),
        (InPlace::Shape(0, 17, 0), NO_ROOM),
        (Window(0, b"x"), SHARED),
        (Window(2, b""), NO_SUCH_BLOCK),
    ];
    bench.change(&rt, a, &refused);
    bench.assert_blocks(
        &rt,
        a,
        &[(placed(0, 0, 4), b"head"), (placed(1, 0, 4), b"tail")],
    );
    let done = [
        (Window(1, b"T"), Ok(0)),
        (InPlace::Shape(0, 0, 3), Ok(0)),
        (
            ShapeAll(&[shape(1, 3, kept, 2), shape(0, 2, new, 9)]),
            Ok(0),
        ),
    ];
    bench.change(&rt, a, &done);
    bench.assert_blocks(
        &rt,
        a,
        &[(placed(0, 1, 3), b"ead"), (placed(1, 0, 2), b"Ta")],
    );
    bench.assert_told(&rt, a, 0, (kept, 2));
    bench.assert_told(&rt, a, 1, (new, 9));
    bench.assert_told(&rt, b, 0, (kept, 0));
    bench.end();
}

#[test]
fn looks_at_a_queue(rt: HostRuntime) {
    let (a, b) = (reg(&rt, b'a'), reg(&rt, b'b'));
    let mut bench = Bench::opened(&rt, rt.alloc(), (1, 8), &SIZES);
    assert_is(&rt, bench.pool().first_queued(0), Ok(None));
    let calls = [
        Call::Allocb(a, 16),
        Call::Write(a, 0, octets(&rt, b"one")),
        Call::Putq(0, a),
        Call::Allocb(a, 16),
        Call::Write(a, 0, octets(&rt, b"more")),
        Call::Dupb(a, b),
        Call::Linkb(a, b),
        Call::Setband(a, 2),
        Call::Putq(0, a),
    ];
    bench.done(&rt, &calls, &[None, None]);
    let pool = bench.pool();
    assert_is(&rt, pool.first_queued(0), Ok(Some(1)));
    assert_is(&rt, pool.first_queued(1), Err(Refusal::NoSuchQueue));
    assert_is(&rt, pool.queued_after(1), Ok(Some(0)));
    assert_is(&rt, pool.queued_after(0), Ok(None));
    assert_is(&rt, pool.queued_after(2), Err(Refusal::NoSuchPlace));
    let told = QueuedInfo {
        head: 1,
        kind: MsgType::MData,
        band: 2,
        size: 8,
        blocks: 2,
    };
    assert_is(&rt, pool.queued_at(0, 0), Ok(told));
    assert_is(&rt, pool.queued_at(0, 2), Err(Refusal::NoSuchPlace));
    assert_is(&rt, pool.queued_at(1, 0), Err(Refusal::NoSuchQueue));
    assert_is(&rt, pool.queued_bytes(1, 1), Ok(&b"more"[..]));
    assert_is(&rt, pool.queued_bytes(0, 0), Ok(&b"one"[..]));
    assert_is(&rt, pool.queued_bytes(0, 1), Err(Refusal::NoSuchBlock));
    assert_is(&rt, pool.queued_bytes(2, 1), Err(Refusal::NoSuchPlace));
    let mut bytes = [b'.'; 6];
    assert_is(&rt, pool.read_queued(0, 0, 3, &mut bytes), Ok(5));
    assert_is(&rt, bytes, *b"emore.");
    bench.end();
}
