//! Transfers of a message to another pool, worked out by hand.
use super::bench::Bench;
use super::in_place::InPlace::{Prepend, Reserve};
use super::{SIZES, octets, reg};
use std::process::Abort;
use strm_pool::{BlockPlace, Call, Flush, MsgType, Refusal, Reg, Rejected};

impl Bench {
    // Transfers the message of a register to another bench, into its register of that name. Returns why it was refused, if it
    // was; then the message stays.
    fn transfer(&mut self, rt: &impl Abort, other: &mut Bench, reg: Reg) -> Result<(), Refusal> {
        let token = self.taken(rt, reg);
        match self.moved(rt, other, token) {
            Ok(moved) => {
                other.hold(rt, reg, moved);
                Ok(())
            }
            Err(Rejected { why, token }) => {
                self.hold(rt, reg, token);
                Err(why)
            }
        }
    }
}

// Where a block has its bytes: in this data block, of 16 bytes.
const fn placed(data: u32, at: u32, len: u32) -> BlockPlace {
    BlockPlace {
        data,
        at,
        len,
        capacity: 16,
    }
}

// A message with a header taken off, an empty block, and a duplicate of its first block; register d has another duplicate.
fn with_edges(rt: &impl Abort, bench: &mut Bench) {
    let (a, b, c, d) = (reg(rt, b'a'), reg(rt, b'b'), reg(rt, b'c'), reg(rt, b'd'));
    bench.done(rt, &[Call::Allocb(a, 16)], &[Some(0)]);
    bench.change(rt, a, &[(Reserve(0, 6), Ok(0))]);
    let calls = [
        Call::Write(a, 0, octets(rt, b"abcde")),
        Call::Settype(a, 0, MsgType::MProto),
        Call::Setband(a, 3),
    ];
    bench.done(rt, &calls, &[Some(0)]);
    bench.change(rt, a, &[(Prepend(b"head"), Ok(0))]);
    let calls = [
        Call::Adjmsg(a, 4),
        Call::Dupb(a, b),
        Call::Dupb(a, d),
        Call::Allocb(c, 16),
        Call::Settype(c, 0, MsgType::MPcproto),
        Call::Setband(c, 9),
        Call::Linkb(a, c),
        Call::Linkb(a, b),
    ];
    bench.done(rt, &calls, &[Some(0), None, None, Some(2)]);
}

// Each block gets a data block of its own, with the same places, type, band and bytes. The data block that is shared stays
// for the duplicate.
#[test]
fn copies_each_block_as_it_is(rt: HostRuntime) {
    let (a, d) = (reg(&rt, b'a'), reg(&rt, b'd'));
    let mut here = Bench::opened(&rt, rt.alloc(), (1, 8), &SIZES);
    let mut there = Bench::opened(&rt, rt.alloc(), (2, 8), &SIZES);
    with_edges(&rt, &mut here);
    assert!(rt; here.transfer(&rt, &mut there, a) == Ok(()));
    let blocks: [(BlockPlace, &[u8]); 3] = [
        (placed(0, 6, 5), b"abcde"),
        (placed(1, 0, 0), b""),
        (placed(2, 6, 5), b"abcde"),
    ];
    there.assert_blocks(&rt, a, &blocks);
    there.assert_told(&rt, a, 0, (MsgType::MProto, 3));
    there.assert_told(&rt, a, 1, (MsgType::MPcproto, 9));
    there.assert_told(&rt, a, 2, (MsgType::MProto, 3));
    there.assert_census(&rt, 5, 3);
    here.assert_blocks(&rt, d, &[(placed(0, 6, 5), b"abcde")]);
    here.assert_census(&rt, 7, 1);
    here.assert_lent(&rt, 0, 1);
    here.end();
    there.end();
}

// The other pool has a full queue, and too few data blocks of 16 bytes. Nothing changes there until they are free.
#[test]
fn leaves_the_queues_of_both_pools(rt: HostRuntime) {
    let (a, b) = (reg(&rt, b'a'), reg(&rt, b'b'));
    let mut here = Bench::opened(&rt, rt.alloc(), (1, 8), &SIZES);
    let mut there = Bench::opened(&rt, rt.alloc(), (2, 8), &[(16, 3)]);
    with_edges(&rt, &mut here);
    let calls = [
        Call::Allocb(b, 16),
        Call::Write(b, 0, octets(&rt, b"0123456789")),
        Call::Putq(0, b),
    ];
    there.done(&rt, &calls, &[None, None]);
    assert!(rt; here.transfer(&rt, &mut there, a) == Err(Refusal::NoData));
    assert!(rt; there.pool().qsize(0) == Ok(1));
    here.assert_census(&rt, 4, 4);
    there.done(&rt, &[Call::Flushq(0, Flush::All)], &[None, None]);
    assert!(rt; here.transfer(&rt, &mut there, a) == Ok(()));
    assert!(rt; there.pool().qsize(0) == Ok(0));
    there.assert_census(&rt, 5, 3);
    here.end();
    there.end();
}
