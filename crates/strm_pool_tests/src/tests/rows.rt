//! Calls on registers, worked out by hand: the reply to each, and the heads that the registers have afterwards.
use super::bench::Bench;
use super::{SIZES, octets, reg};
use strm_pool::{BlockInfo, Call, Census, Flush, MsgType, Refusal, Reg, Reply};

const fn census(free: u32, queued: u32, held: u32) -> Reply {
    Reply::Census(Census { free, queued, held })
}

const fn refused(why: Refusal) -> Reply {
    Reply::Refused(why)
}

// The reply to `block` for a block of band 0.
const fn block(kind: MsgType, len: u32, room: u32, names: u8) -> Reply {
    Reply::Block(BlockInfo {
        kind,
        len,
        band: 0,
        room,
        names,
    })
}

#[test]
fn first_run(rt: HostRuntime) {
    let (a, b) = (reg(&rt, b'a'), reg(&rt, b'b'));
    let rows = [
        (Call::Allocb(a, 3), Reply::Done),
        (Call::Write(a, 0, octets(&rt, b"abc")), Reply::Done),
        (Call::Putq(0, a), Reply::Done),
        (Call::Census, census(7, 1, 0)),
        (Call::Getq(0, b), Reply::Done),
        (Call::Census, census(7, 0, 1)),
        (Call::Read(b, 0), Reply::Bytes(octets(&rt, b"abc"))),
        (Call::Freemsg(b), Reply::Done),
        (Call::Census, census(8, 0, 0)),
        (Call::Getq(0, b), Reply::Nothing),
    ];
    let bench = Bench::opened(&rt, rt.alloc(), (1, 8), &SIZES);
    bench.serve(&rt, &rows, &[None, None]);
}

#[test]
fn refuses_in_order(rt: HostRuntime) {
    let (a, b, c) = (reg(&rt, b'a'), reg(&rt, b'b'), reg(&rt, b'c'));
    let rows = [
        // A missing queue is found before an empty source.
        (Call::Putq(1, a), refused(Refusal::NoSuchQueue)),
        (Call::Insq(1, 9, a), refused(Refusal::NoSuchQueue)),
        (Call::Qsize(255), refused(Refusal::NoSuchQueue)),
        (Call::Putq(0, a), Reply::Empty),
        (Call::Insq(0, 9, a), Reply::Empty),
        (Call::Allocb(a, 65), refused(Refusal::TooLarge)),
        (Call::Allocb(a, 0), Reply::Done),
        (Call::Allocb(b, 0), Reply::Done),
        // A missing queue is found before a full destination, and that before the call's own refusals.
        (Call::Getq(255, a), refused(Refusal::NoSuchQueue)),
        (Call::Getq(0, a), Reply::Taken),
        (Call::Rmvq(0, 9, a), Reply::Taken),
        (Call::Allocb(a, 65), Reply::Taken),
        // An empty source is found before a full destination.
        (Call::Dupb(c, a), Reply::Empty),
        (Call::Unlinkb(c, a), Reply::Empty),
        (Call::Rmvb(c, 9, a), Reply::Empty),
        (Call::Unlinkb(a, b), Reply::Taken),
        (Call::Rmvb(a, 9, b), Reply::Taken),
        (Call::Rmvb(a, 9, c), refused(Refusal::NoSuchBlock)),
        // A source that is also the destination, or both sources.
        (Call::Dupmsg(a, a), Reply::Taken),
        (Call::Copyb(a, a), Reply::Taken),
        (Call::Unlinkb(a, a), Reply::Taken),
        (Call::Linkb(a, a), Reply::Empty),
        (Call::Linkb(a, c), Reply::Empty),
        (Call::Linkb(c, a), Reply::Empty),
        (Call::Census, census(6, 0, 2)),
    ];
    let bench = Bench::opened(&rt, rt.alloc(), (1, 8), &SIZES);
    bench.serve(&rt, &rows, &[Some(0), Some(1), None]);
}

#[test]
fn tells_of_messages(rt: HostRuntime) {
    let (a, b, c) = (reg(&rt, b'a'), reg(&rt, b'b'), reg(&rt, b'c'));
    let zeros = octets(&rt, &[0; 17]);
    let rows = [
        (Call::Allocb(a, 0), Reply::Done),
        (Call::Block(a, 0), block(MsgType::MData, 0, 16, 1)),
        (Call::Allocb(b, 64), Reply::Done),
        (Call::Write(a, 0, zeros), refused(Refusal::NoRoom)),
        (
            Call::Write(a, 0, octets(&rt, b"0123456789abcdef")),
            Reply::Done,
        ),
        (Call::Block(a, 0), block(MsgType::MData, 16, 0, 1)),
        (Call::Write(b, 0, octets(&rt, b"xy")), Reply::Done),
        (Call::Settype(b, 0, MsgType::MPcproto), Reply::Done),
        (Call::Unlinkb(a, c), Reply::Nothing),
        (Call::Linkb(a, b), Reply::Done),
        (Call::Size(a), Reply::Size(18)),
        (Call::Msgdsize(a), Reply::Size(16)),
        (Call::Read(a, 14), Reply::Bytes(octets(&rt, b"efxy"))),
        (Call::Read(a, 18), Reply::Bytes(octets(&rt, b""))),
        (Call::Dupb(a, c), Reply::Done),
        (Call::Block(c, 0), block(MsgType::MData, 16, 0, 2)),
        (Call::Block(a, 1), block(MsgType::MPcproto, 2, 62, 1)),
        (Call::Block(a, 2), refused(Refusal::NoSuchBlock)),
        (
            Call::Settype(c, 0, MsgType::MData),
            refused(Refusal::Shared),
        ),
        (Call::Adjmsg(c, 17), refused(Refusal::Short)),
        (Call::Pullupmsg(c, -2), refused(Refusal::Short)),
    ];
    let bench = Bench::opened(&rt, rt.alloc(), (1, 8), &SIZES);
    bench.serve(&rt, &rows, &[Some(0), None, Some(2)]);
}

#[test]
fn size_classes_run_dry(rt: HostRuntime) {
    let (a, b, c) = (reg(&rt, b'a'), reg(&rt, b'b'), reg(&rt, b'c'));
    let (d, e) = (reg(&rt, b'd'), reg(&rt, b'e'));
    let rows = [
        (Call::Allocb(a, 16), Reply::Done),
        (Call::Testb(0), Reply::Yes),
        (Call::Allocb(b, 1), Reply::Done),
        (Call::Block(b, 0), block(MsgType::MData, 0, 64, 1)),
        (Call::Allocb(c, 17), Reply::Done),
        (Call::Allocb(d, 1), refused(Refusal::NoData)),
        (Call::Testb(0), Reply::No),
        (Call::Dupb(a, d), Reply::Done),
        (Call::Allocb(e, 1), refused(Refusal::NoMblk)),
        (Call::Freemsg(b), Reply::Done),
        (Call::Allocb(e, 17), Reply::Done),
        (Call::Census, census(0, 0, 4)),
    ];
    let bench = Bench::opened(&rt, rt.alloc(), (1, 4), &[(16, 1), (64, 2)]);
    bench.serve(&rt, &rows, &[Some(0), None, Some(2), Some(3), Some(1)]);
}

#[test]
fn takes_the_last_freed_first(rt: HostRuntime) {
    let mut bench = Bench::opened(&rt, rt.alloc(), (1, 8), &SIZES);
    let (a, b, c) = (reg(&rt, b'a'), reg(&rt, b'b'), reg(&rt, b'c'));
    let three = [Call::Allocb(a, 1), Call::Allocb(b, 1), Call::Allocb(c, 1)];
    bench.done(&rt, &three, &[Some(0), Some(1), Some(2)]);
    // The blocks of two messages, freed one after the other.
    let two = [
        Call::Freemsg(b),
        Call::Freemsg(c),
        Call::Allocb(b, 1),
        Call::Allocb(c, 1),
    ];
    bench.done(&rt, &two, &[Some(0), Some(2), Some(1)]);
    // The blocks of one message are freed first to last.
    let all = [Call::Linkb(a, b), Call::Linkb(a, c), Call::Freemsg(a)];
    bench.done(&rt, &all, &[None, None, None]);
    bench.done(&rt, &three, &[Some(1), Some(2), Some(0)]);
    // `rmvb` puts the removed block into the other register; the other blocks stay.
    let removed = [Call::Linkb(a, b), Call::Rmvb(a, 0, b)];
    bench.done(&rt, &removed, &[Some(2), Some(1), Some(0)]);
    // `freeb` frees the first block only.
    let first = [Call::Linkb(a, b), Call::Freeb(a), Call::Copyb(a, b)];
    bench.done(&rt, &first, &[Some(1), Some(2), Some(0)]);
    // `drain` frees the messages of registers a to z in this order.
    let mut bench = bench.drained();
    bench.done(&rt, &three, &[Some(0), Some(2), Some(1)]);
    bench.end();
}

// A call that gives a message this rank: high priority for 256, otherwise a band.
fn ranking(reg: Reg, rank: u16) -> Call {
    match u8::try_from(rank) {
        Ok(band) => Call::Setband(reg, band),
        Err(_) => Call::Settype(reg, 0, MsgType::MPcproto),
    }
}

#[test]
fn queues_in_priority_order(rt: HostRuntime) {
    let mut bench = Bench::opened(&rt, rt.alloc(), (1, 8), &SIZES);
    let (a, b, c) = (reg(&rt, b'a'), reg(&rt, b'b'), reg(&rt, b'c'));
    for rank in [0, 3, 1, 256, 3] {
        let calls = [Call::Allocb(a, 0), ranking(a, rank), Call::Putq(0, a)];
        bench.done(&rt, &calls, &[None]);
    }
    let rows = [
        (Call::Getq(0, a), Reply::Done),
        (Call::Getq(0, b), Reply::Done),
        (Call::Qsize(0), Reply::Size(3)),
        (Call::Putbq(0, b), Reply::Done),
        (Call::Insq(0, 1, a), refused(Refusal::BadOrder)),
        (Call::Insq(0, 5, a), refused(Refusal::NoSuchPlace)),
        (Call::Insq(0, 0, a), Reply::Done),
        (Call::Rmvq(0, 5, a), refused(Refusal::NoSuchPlace)),
        (Call::Rmvq(0, 3, a), Reply::Done),
        (Call::Rmvq(0, 2, b), Reply::Done),
        (Call::Getq(0, c), Reply::Done),
        (Call::Census, census(3, 2, 3)),
    ];
    bench.serve(&rt, &rows, &[Some(2), Some(4), Some(3)]);
}

#[test]
fn water_marks_of_a_band(rt: HostRuntime) {
    let a = reg(&rt, b'a');
    let rows = [
        (Call::Allocb(a, 10), Reply::Done),
        (Call::Write(a, 0, octets(&rt, &[0; 10])), Reply::Done),
        (Call::Putq(0, a), Reply::Done),
        (Call::Bcanput(0, 0), Reply::No),
        (Call::Strqset(0, 0, 20, 10), Reply::Done),
        (Call::Bcanput(0, 0), Reply::Yes),
        (Call::Strqset(0, 0, 5, 5), refused(Refusal::BadMarks)),
        (Call::Strqget(0, 0), Reply::Marks(20, 10)),
        (Call::Strqget(0, 3), Reply::Marks(10, 4)),
        (Call::Strqset(0, 0, 10, 9), Reply::Done),
        (Call::Bcanput(0, 0), Reply::No),
        (Call::Strqset(1, 0, 5, 5), refused(Refusal::NoSuchQueue)),
        (Call::Strqget(1, 0), refused(Refusal::NoSuchQueue)),
        (Call::Strqset(0, 255, u32::MAX, 0), Reply::Done),
        (Call::Strqget(0, 255), Reply::Marks(u32::MAX, 0)),
    ];
    let bench = Bench::opened(&rt, rt.alloc(), (1, 8), &SIZES);
    bench.serve(&rt, &rows, &[None]);
}

#[test]
fn a_queue_is_switched_off_served_and_flushed(rt: HostRuntime) {
    let (a, b) = (reg(&rt, b'a'), reg(&rt, b'b'));
    let rows = [
        (Call::Allocb(a, 3), Reply::Done),
        (Call::Write(a, 0, octets(&rt, b"abc")), Reply::Done),
        (Call::Copymsg(a, b), Reply::Done),
        (Call::Noenable(0), Reply::Done),
        (Call::Putq(0, a), Reply::Done),
        (Call::Service, Reply::Nothing),
        (Call::Enableok(0), Reply::Done),
        (Call::Qenable(0), Reply::Done),
        (Call::Service, Reply::Queue(0)),
        (Call::Flushband(0, 1, Flush::All), Reply::Done),
        (Call::Qsize(0), Reply::Size(1)),
        (Call::Flushq(0, Flush::Data), Reply::Done),
        (Call::Qsize(0), Reply::Size(0)),
        (Call::Read(b, 0), Reply::Bytes(octets(&rt, b"abc"))),
    ];
    let bench = Bench::opened(&rt, rt.alloc(), (1, 8), &SIZES);
    bench.serve(&rt, &rows, &[None, Some(1)]);
}

#[test]
fn the_last_id_is_given_once(rt: HostRuntime) {
    let rows = [
        (Call::Bufcall(65), refused(Refusal::TooLarge)),
        (Call::Bufcall(16), Reply::Id(u32::MAX)),
        (Call::Bufcall(65), refused(Refusal::TooLarge)),
        (Call::Bufcall(16), refused(Refusal::IdsSpent)),
        (Call::Unbufcall(1), refused(Refusal::NotPending)),
        (Call::Unbufcall(u32::MAX), Reply::Done),
        (Call::Unbufcall(u32::MAX), refused(Refusal::NotPending)),
        (Call::Bufcall(16), refused(Refusal::IdsSpent)),
        (Call::Ready, Reply::Nothing),
    ];
    let bench = Bench::wishing(&rt, rt.alloc(), (1, 8), &SIZES, (2, u32::MAX));
    bench.serve(&rt, &rows, &[]);
    let rows = [
        (Call::Bufcall(16), Reply::Id(u32::MAX)),
        (Call::Bufcall(65), refused(Refusal::TooLarge)),
        (Call::Bufcall(16), refused(Refusal::Full)),
    ];
    let bench = Bench::wishing(&rt, rt.alloc(), (1, 8), &SIZES, (1, u32::MAX));
    bench.serve(&rt, &rows, &[]);
}

#[test]
fn serves_the_first_wish_that_fits(rt: HostRuntime) {
    let (a, b) = (reg(&rt, b'a'), reg(&rt, b'b'));
    let rows = [
        (Call::Allocb(a, 64), Reply::Done),
        (Call::Bufcall(64), Reply::Id(1)),
        (Call::Bufcall(16), Reply::Id(2)),
        (Call::Bufcall(16), refused(Refusal::Full)),
        (Call::Ready, Reply::Ready(2, 16)),
        (Call::Ready, Reply::Nothing),
        (Call::Bufcall(0), Reply::Id(3)),
        (Call::Allocb(b, 16), Reply::Done),
        (Call::Ready, Reply::Nothing),
        (Call::Freemsg(a), Reply::Done),
        (Call::Ready, Reply::Ready(1, 64)),
        (Call::Ready, Reply::Ready(3, 0)),
        (Call::Ready, Reply::Nothing),
    ];
    let bench = Bench::opened(&rt, rt.alloc(), (1, 8), &[(16, 1), (64, 1)]);
    bench.serve(&rt, &rows, &[None, Some(1)]);
}
