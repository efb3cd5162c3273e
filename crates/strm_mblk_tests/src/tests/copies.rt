use super::bench::Bench;
use super::rows::Row::{
    Adjmsg, Allocb, Bytes, Census, Copyb, Copymsg, Dupb, Dupmsg, Free, FreeData, Freemsg, Infos,
    Linkb, OfBytes, References, Says, Setband, Settype, Stored, Told, Write,
};
use super::rows::{A, B, C, D, DONE, Row, serve};
use std::process::Abort;
use strm_data::{ClassSpec, MsgType, Refusal};
use strm_mblk::TokenValue;

impl Bench {
    // Copies a message, or returns the refusal.
    pub(super) fn copymsg(
        &mut self,
        rt: &impl Abort,
        message: TokenValue,
    ) -> Result<TokenValue, Refusal> {
        let token = self.purse.lent(rt, &self.blocks, message);
        let answer = self.blocks.copymsg(token);
        self.purse.keep_given(rt, answer)
    }

    // Copies a message's first block, or returns the refusal.
    pub(super) fn copyb(
        &mut self,
        rt: &impl Abort,
        message: TokenValue,
    ) -> Result<TokenValue, Refusal> {
        let token = self.purse.lent(rt, &self.blocks, message);
        let answer = self.blocks.copyb(token);
        self.purse.keep_given(rt, answer)
    }
}

// Three blocks of different types, bands and lengths, over data blocks of 16, 64 and 16 bytes.
const THREE_TYPES: &[super::Told] = &[
    (MsgType::MProto, 1, 1, 15, 1),
    (MsgType::MCtl, 2, 255, 62, 1),
    (MsgType::MData, 3, 3, 13, 1),
];

const COPIED: &[Row] = &[
    Allocb(16, Ok(A)),
    Settype(A, 0, MsgType::MProto, DONE),
    Write(A, 0, b"a", DONE),
    Setband(A, 1),
    Allocb(64, Ok(B)),
    Settype(B, 0, MsgType::MCtl, DONE),
    Write(B, 0, b"bc", DONE),
    Setband(B, 255),
    Linkb(A, B),
    Allocb(1, Ok(B)),
    Settype(B, 0, MsgType::MData, DONE),
    Write(B, 0, b"def", DONE),
    Setband(B, 3),
    Linkb(A, B),
    Copymsg(A, Ok(B)),
    Says(B, 7, 3, 3),
    Infos(B, THREE_TYPES),
    Infos(A, THREE_TYPES),
    FreeData(Some(0), Some(0)),
    Census(2, 0, 6),
    Write(A, 2, b"g", DONE),
    Bytes(A, 0, b"abcdefg"),
    Freemsg(A),
    Infos(B, THREE_TYPES),
    Bytes(B, 0, b"abcdef"),
    Freemsg(B),
    Census(8, 0, 0),
];

// A full block of 16 bytes in a data block of 64 bytes.
const IN_A_LARGER: Row = Told(B, 0, Ok((MsgType::MSig, 16, 9, 48, 1)));

const COPIED_INTO_A_LARGER: &[Row] = &[
    Allocb(16, Ok(A)),
    Settype(A, 0, MsgType::MSig, DONE),
    Write(A, 0, b"0123456789abcdef", DONE),
    Setband(A, 9),
    Copyb(A, Ok(B)),
    IN_A_LARGER,
    Bytes(B, 0, b"0123456789abcdef"),
    Copyb(A, Err(Refusal::NoData)),
    Freemsg(B),
    FreeData(Some(0), Some(1)),
    Copyb(A, Ok(B)),
    IN_A_LARGER,
    Bytes(B, 0, b"0123456789abcdef"),
    Copyb(A, Err(Refusal::NoData)),
    Freemsg(B),
    FreeData(Some(0), Some(1)),
    Freemsg(A),
];

// Two blocks of type M_DATA.
const TWO_BLOCKS: &[super::Told] = &[(MsgType::MData, 2, 0, 14, 1), (MsgType::MData, 1, 0, 15, 1)];

// If no data block is free for the second block, the first isn't copied either, and nothing changes: the free data
// block can still be taken for a copy of one block. A duplicate needs no data block.
const ALL_OR_NOTHING: &[Row] = &[
    OfBytes(1, b"ab", &[b"c"], A),
    Copymsg(A, Err(Refusal::NoData)),
    Census(2, 0, 2),
    Says(A, 1, 0, 2),
    Infos(A, TWO_BLOCKS),
    Bytes(A, 0, b"abc"),
    References(&[1, 1, 0]),
    Free(A, &[2, 3], &[2]),
    Copyb(A, Ok(B)),
    Says(B, 1, 2, 1),
    Told(B, 0, Ok((MsgType::MData, 2, 0, 14, 1))),
    Told(B, 1, Err(Refusal::NoSuchBlock)),
    Bytes(B, 0, b"ab"),
    Dupmsg(A, Err(Refusal::NoMblk)),
    Says(A, 1, 0, 2),
    Infos(A, TWO_BLOCKS),
    References(&[1, 1, 1]),
    Free(A, &[3], &[]),
    Copyb(A, Err(Refusal::NoData)),
    Dupb(A, Ok(C)),
    Copymsg(A, Err(Refusal::NoMblk)),
    Freemsg(A),
    Freemsg(B),
    Freemsg(C),
];

// Two blocks that share their data blocks with a duplicate, and a copy of them. The copy has its own data blocks: the
// first of the source's class, the second of a larger class, since none is free in the source's.
const DUPLICATED: &[super::Told] = &[
    (MsgType::MProto, 2, 7, 13, 2),
    (MsgType::MData, 4, 0, 12, 2),
];

const COPIED_BESIDE: &[super::Told] = &[
    (MsgType::MProto, 2, 7, 13, 1),
    (MsgType::MData, 4, 0, 60, 1),
];

// A copy and a duplicate have the places, bands, types and bytes of their source. The byte before the read place is not
// copied.
const COPIED_IN_PLACE: &[Row] = &[
    OfBytes(4, b"abc", &[b"defg"], A),
    Settype(A, 0, MsgType::MProto, DONE),
    Adjmsg(A, 1, DONE),
    Setband(A, 7),
    Allocb(1, Ok(B)),
    Copymsg(A, Ok(C)),
    Dupmsg(A, Ok(D)),
    Says(A, 1, 0, 2),
    Says(B, 1, 2, 1),
    Says(C, 1, 3, 2),
    Says(D, 1, 5, 2),
    Infos(A, DUPLICATED),
    Told(B, 0, Ok((MsgType::MData, 0, 0, 16, 1))),
    Infos(C, COPIED_BESIDE),
    Infos(D, DUPLICATED),
    Bytes(A, 0, b"bcdefg"),
    Bytes(C, 0, b"bcdefg"),
    Bytes(D, 0, b"bcdefg"),
    Census(1, 0, 7),
    References(&[2, 2, 1, 1, 1, 0]),
    Stored(0, b"abc\0\0\0\0\0\0\0\0\0\0\0\0\0"),
    Stored(3, b"\0bc\0\0\0\0\0\0\0\0\0\0\0\0\0"),
    Freemsg(C),
    References(&[2, 2, 1, 0, 0, 0]),
    Freemsg(A),
    Bytes(D, 0, b"bcdefg"),
    References(&[1, 1, 1, 0, 0, 0]),
    Freemsg(B),
    Freemsg(D),
];

const INTO_FREE_BLOCKS: &[Row] = &[
    OfBytes(1, b"ab", &[b"c"], A),
    Copymsg(A, Err(Refusal::NoMblk)),
    FreeData(Some(7), None),
    Copyb(A, Ok(B)),
    Copyb(A, Err(Refusal::NoMblk)),
    Freemsg(A),
    Freemsg(B),
    Census(3, 0, 0),
];

#[test]
fn copies_each_block(rt: HostRuntime) {
    serve(&rt, Bench::opened(&rt, rt.alloc(), 7), COPIED);
}

#[test]
fn copies_and_duplicates_places(rt: HostRuntime) {
    serve(&rt, Bench::opened(&rt, rt.alloc(), 1), COPIED_IN_PLACE);
}

#[test]
fn copies_into_a_larger_class(rt: HostRuntime) {
    let classes = [
        ClassSpec { size: 16, count: 1 },
        ClassSpec { size: 64, count: 1 },
    ];
    let bench = Bench::over(&rt, rt.alloc(), (1, 8), &classes, 0);
    serve(&rt, bench, COPIED_INTO_A_LARGER);
}

#[test]
fn copies_all_or_nothing(rt: HostRuntime) {
    let classes = [ClassSpec { size: 16, count: 3 }];
    let bench = Bench::over(&rt, rt.alloc(), (1, 4), &classes, 0);
    serve(&rt, bench, ALL_OR_NOTHING);
}

#[test]
fn copies_into_free_message_blocks(rt: HostRuntime) {
    let classes = [ClassSpec { size: 16, count: 9 }];
    let bench = Bench::over(&rt, rt.alloc(), (1, 3), &classes, 0);
    serve(&rt, bench, INTO_FREE_BLOCKS);
}
