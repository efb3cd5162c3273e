//! Each kind of call, served on one desk.
ghost use Rattle.strm_shared.specs.Starts.{IsNameOf};

use super::steps::{assert_census, serve_calls};
use super::traces::{assert_len, assert_replayed, kept};
use super::{drained, eight, end, only, push, reg};
use arrayvec::ArrayVec;
use std::process::Abort;
use std::sync::Wait;
use strm_pool::{BlockInfo, Call, Census, Flush, MsgType, Octets, Pool, Reply};
use strm_shared::{Brand, Desks, Name, Shared, Start, TraceEntries};

// The first two parts leave messages in registers a, c, d and e; the third leaves one on queue 1, and two in a and b. At the end
// no message is held or queued. A pool like this one gives the same replies to the 58 calls of the trace.
#[test]
fn each_kind_of_call(rt: HostRuntime) {
    let (pool, trace) = all_kinds(&rt, kept(&rt, rt.alloc(), 1, 100, 0));
    assert_census(&rt, &pool, (8, 0, 0));
    assert_len(&rt, &trace, 58);
    let pool = eight(&rt, rt.alloc(), 7);
    assert_replayed(&rt, rt.alloc(), pool, trace.items(), (8, 0, 0));
}

// Pool and trace after all parts.
fn all_kinds(rt: &(impl Wait + Abort), start: Start) -> (Pool, TraceEntries) {
    each_kind::<Brand, _>(rt, start)
}

fn each_kind<N: Name, R: Wait + Abort>(rt: &R, start: Start) -> (Pool, TraceEntries)
    requires { IsNameOf N.Name start }
{
    let (shared, desks) = start.open::<N>();
    let desks = serve_parts(rt, &shared, desks);
    drained(rt, end(rt, shared, desks), 1, 58)
}

// Serves the parts in order, on the only desk.
fn serve_parts<N: Name>(
    rt: &(impl Wait + Abort),
    shared: &Shared<N>,
    mut desks: Desks<N>,
) -> Desks<N> {
    let mut desk = only(rt, &mut desks);
    serve_calls(rt, shared, &mut desk, &making(rt));
    serve_calls(rt, shared, &mut desk, &altering(rt));
    serve_calls(rt, shared, &mut desk, &queueing(rt));
    serve_calls(rt, shared, &mut desk, &enabling(rt));
    serve_calls(rt, shared, &mut desk, &wishing());
    push(rt, &mut desks, desk);
    desks
}

// The bytes as a call carries them; at most 64.
fn octets(rt: &impl Abort, bytes: &[u8]) -> Octets {
    let mut list = ArrayVec::new();
    assert!(rt; list.try_extend_from_slice(bytes).is_ok());
    Octets::of(list)
}

// The reply to `block` for a block whose data has one reference.
const fn block(kind: MsgType, len: u32, band: u8, room: u32) -> Reply {
    Reply::Block(BlockInfo {
        kind,
        len,
        band,
        room,
        names: 1,
    })
}

// Makes, joins, parts and frees messages.
fn making(rt: &impl Abort) -> [(Call, Reply); 14] {
    let (a, b, c) = (reg(rt, b'a'), reg(rt, b'b'), reg(rt, b'c'));
    let (d, e, f) = (reg(rt, b'd'), reg(rt, b'e'), reg(rt, b'f'));
    let bytes = octets(rt, b"abc");
    [
        (Call::Testb(65), Reply::No),
        (Call::Allocb(a, 3), Reply::Done),
        (Call::Write(a, 0, bytes), Reply::Done),
        (Call::Dupb(a, b), Reply::Done),
        (Call::Freeb(b), Reply::Done),
        (Call::Dupmsg(a, c), Reply::Done),
        (Call::Copyb(a, d), Reply::Done),
        (Call::Linkb(a, d), Reply::Done),
        (Call::Copymsg(a, d), Reply::Done),
        (Call::Size(d), Reply::Size(6)),
        (Call::Unlinkb(d, e), Reply::Done),
        (Call::Rmvb(a, 0, f), Reply::Done),
        (Call::Freemsg(f), Reply::Done),
        (Call::Block(c, 0), block(MsgType::MData, 3, 0, 13)),
    ]
}

// Changes type, band and bytes of a message, while all data blocks of 16 bytes are taken.
fn altering(rt: &impl Abort) -> [(Call, Reply); 9] {
    let (a, c, d) = (reg(rt, b'a'), reg(rt, b'c'), reg(rt, b'd'));
    let (free, queued, held) = (4, 0, 4);
    let bytes = octets(rt, b"cabc");
    [
        (Call::Settype(c, 0, MsgType::MIocack), Reply::Done),
        (Call::Setband(d, 2), Reply::Done),
        (Call::Adjmsg(d, 1), Reply::Done),
        (Call::Linkb(d, a), Reply::Done),
        (Call::Pullupmsg(d, 4), Reply::Done),
        (Call::Block(d, 0), block(MsgType::MData, 4, 2, 60)),
        (Call::Msgdsize(d), Reply::Size(5)),
        (Call::Read(d, 1), Reply::Bytes(bytes)),
        (Call::Census, Reply::Census(Census { free, queued, held })),
    ]
}

// A high priority message goes before one of band 2, which fills the band, and that before one of band 0. When it is taken off,
// the queue behind is enabled.
fn queueing(rt: &impl Abort) -> [(Call, Reply); 13] {
    let (a, b, c) = (reg(rt, b'a'), reg(rt, b'b'), reg(rt, b'c'));
    let (d, e) = (reg(rt, b'd'), reg(rt, b'e'));
    [
        (Call::Putq(1, d), Reply::Done),
        (Call::Putq(1, c), Reply::Done),
        (Call::Insq(1, 2, e), Reply::Done),
        (Call::Qsize(1), Reply::Size(3)),
        (Call::Bcanput(1, 2), Reply::No),
        (Call::Strqset(1, 3, 9, 8), Reply::Done),
        (Call::Strqget(1, 3), Reply::Marks(9, 8)),
        (Call::Rmvq(1, 1, a), Reply::Done),
        (Call::Size(a), Reply::Size(5)),
        (Call::Service, Reply::Queue(1)),
        (Call::Service, Reply::Queue(0)),
        (Call::Getq(1, b), Reply::Done),
        (Call::Block(b, 0), block(MsgType::MIocack, 3, 0, 13)),
    ]
}

// `noenable` keeps a queue from being enabled, until `enableok`. Two flushes leave the high priority message.
fn enabling(rt: &impl Abort) -> [(Call, Reply); 17] {
    let (a, b) = (reg(rt, b'a'), reg(rt, b'b'));
    [
        (Call::Noenable(1), Reply::Done),
        (Call::Putq(1, a), Reply::Done),
        (Call::Service, Reply::Nothing),
        (Call::Enableok(1), Reply::Done),
        (Call::Rmvq(1, 0, a), Reply::Done),
        (Call::Putq(1, a), Reply::Done),
        (Call::Service, Reply::Queue(1)),
        (Call::Putbq(1, b), Reply::Done),
        (Call::Service, Reply::Queue(1)),
        (Call::Qenable(0), Reply::Done),
        (Call::Service, Reply::Queue(0)),
        (Call::Flushband(1, 2, Flush::All), Reply::Done),
        (Call::Qsize(1), Reply::Size(2)),
        (Call::Flushq(1, Flush::Data), Reply::Done),
        (Call::Getq(1, a), Reply::Done),
        (Call::Getq(1, b), Reply::Nothing),
        (Call::Freemsg(a), Reply::Done),
    ]
}

// Of two wishes, one is removed and the other is ready.
fn wishing() -> [(Call, Reply); 5] {
    [
        (Call::Bufcall(64), Reply::Id(1)),
        (Call::Bufcall(16), Reply::Id(2)),
        (Call::Unbufcall(1), Reply::Done),
        (Call::Ready, Reply::Ready(2, 16)),
        (Call::Ready, Reply::Nothing),
    ]
}
