use super::bench::Bench;
use super::in_place_rows::InPlace::{
    Advance, Edit, Fill, Lent, Overwrite, Placed, Prepend, Reserve, Shape, ShapeAll, Walk, Window,
};
use super::rows::Row::{Allocb, Bytes, Dupb, Freemsg, InPlace, OfBytes, Told, Write};
use super::rows::{A, B, DONE, Row, serve};
use strm_data::{MsgType, Refusal};

const NO_ROOM: Result<(), Refusal> = Err(Refusal::NoRoom);

const SHARED: Result<(), Refusal> = Err(Refusal::Shared);

const NO_SUCH_BLOCK: Result<(), Refusal> = Err(Refusal::NoSuchBlock);

// A message with four bytes of room before its data, into which headers are put.
const HEADROOM: &[Row] = &[
    Allocb(16, Ok(A)),
    InPlace(A, Reserve(0, 17, NO_ROOM)),
    InPlace(A, Reserve(1, 0, NO_SUCH_BLOCK)),
    InPlace(A, Reserve(0, 4, DONE)),
    Told(A, 0, Ok((MsgType::MData, 0, 0, 12, 1))),
    Write(A, 0, b"data", DONE),
    InPlace(A, Reserve(0, 0, NO_ROOM)),
    InPlace(A, Prepend(b"12345", NO_ROOM)),
    InPlace(A, Prepend(b"123", DONE)),
    InPlace(A, Placed(0, Ok((0, 1, 7, 16)))),
    InPlace(A, Prepend(b"0", DONE)),
    InPlace(A, Prepend(b"", DONE)),
    InPlace(A, Prepend(b"0", NO_ROOM)),
    Bytes(A, 0, b"0123data"),
    Freemsg(A),
];

// A block of 16 bytes is filled bit by bit. What was put after the write place stays there.
const FILLED: &[Row] = &[
    Allocb(16, Ok(A)),
    InPlace(A, Fill(1, b"", 0, Err(Refusal::NoSuchBlock))),
    InPlace(A, Fill(0, b"abc", 3, Ok(3))),
    InPlace(A, Fill(0, b"xyz", 0, Ok(0))),
    Bytes(A, 0, b"abc"),
    InPlace(A, Advance(0, 14, NO_ROOM)),
    InPlace(A, Advance(1, 0, NO_SUCH_BLOCK)),
    InPlace(A, Advance(0, 3, DONE)),
    Bytes(A, 0, b"abcxyz"),
    InPlace(A, Fill(0, b"!", 99, Ok(10))),
    InPlace(A, Lent(0, Ok(b"abcxyz!\0\0\0\0\0\0\0\0\0"))),
    InPlace(A, Fill(0, b"more", 4, Ok(0))),
    InPlace(A, Advance(0, 0, DONE)),
    InPlace(A, Advance(0, 1, NO_ROOM)),
    Freemsg(A),
];

// The first block of a message has a duplicate, so only the second can be changed.
const EDITED: &[Row] = &[
    OfBytes(16, b"head", &[b"tail"], A),
    InPlace(A, Edit(1, b"TA", DONE)),
    InPlace(A, Edit(0, b"HEAD", DONE)),
    InPlace(A, Edit(2, b"", NO_SUCH_BLOCK)),
    Dupb(A, Ok(B)),
    InPlace(A, Edit(0, b"h", SHARED)),
    InPlace(A, Fill(0, b"h", 1, Err(Refusal::Shared))),
    InPlace(A, Advance(0, 99, SHARED)),
    InPlace(A, Reserve(0, 0, SHARED)),
    InPlace(A, Prepend(b"more", SHARED)),
    InPlace(B, Edit(0, b"h", SHARED)),
    InPlace(A, Edit(1, b"t", DONE)),
    InPlace(A, Lent(0, Ok(b"HEAD"))),
    InPlace(A, Lent(1, Ok(b"tAil"))),
    InPlace(A, Lent(2, Err(Refusal::NoSuchBlock))),
    InPlace(A, Placed(1, Ok((1, 0, 4, 16)))),
    InPlace(A, Placed(2, Err(Refusal::NoSuchBlock))),
    InPlace(
        A,
        Walk(
            0,
            &[(MsgType::MData, 4, 0, 12, 2), (MsgType::MData, 4, 0, 12, 1)],
        ),
    ),
    InPlace(A, Walk(1, &[(MsgType::MData, 4, 0, 12, 1)])),
    InPlace(A, Walk(2, &[])),
    InPlace(A, Walk(u32::MAX, &[])),
    Bytes(A, 0, b"HEADtAil"),
    Freemsg(B),
    Freemsg(A),
];

// All bytes of a data block are written, and the places move within it, those of a duplicate too.
const SHAPED: &[Row] = &[
    Allocb(16, Ok(A)),
    InPlace(A, Window(1, b"", NO_SUCH_BLOCK)),
    InPlace(A, Window(0, b"0123456789abcdef", DONE)),
    InPlace(A, Placed(0, Ok((0, 0, 0, 16)))),
    InPlace(A, Shape(1, 0, 17, NO_SUCH_BLOCK)),
    InPlace(A, Shape(0, 0, 17, NO_ROOM)),
    InPlace(A, Shape(0, 17, 0, NO_ROOM)),
    InPlace(A, Shape(0, 1, u32::MAX, NO_ROOM)),
    InPlace(A, Shape(0, u32::MAX, 1, NO_ROOM)),
    InPlace(A, Shape(0, 16, 0, DONE)),
    InPlace(A, Shape(0, 0, 16, DONE)),
    Bytes(A, 0, b"0123456789abcdef"),
    InPlace(A, Shape(0, 4, 6, DONE)),
    InPlace(A, Window(0, b"HEAD", DONE)),
    InPlace(A, Placed(0, Ok((0, 4, 6, 16)))),
    Dupb(A, Ok(B)),
    InPlace(B, Shape(0, 0, 5, DONE)),
    InPlace(B, Shape(0, 16, 1, NO_ROOM)),
    InPlace(B, Window(0, b"h", SHARED)),
    InPlace(A, Window(0, b"h", SHARED)),
    Bytes(B, 0, b"HEAD4"),
    Bytes(A, 0, b"456789"),
    Freemsg(B),
    Freemsg(A),
];

// Both blocks get places, types and bands, or none does. The first one's data block has a duplicate.
const ALL_SHAPED: &[Row] = &[
    OfBytes(16, b"head", &[b"tail"], A),
    Dupb(A, Ok(B)),
    InPlace(A, ShapeAll(&[], DONE)),
    InPlace(
        A,
        ShapeAll(
            &[
                (0, 17, MsgType::MData, 0),
                (0, 0, MsgType::MData, 0),
                (0, 0, MsgType::MData, 0),
            ],
            NO_SUCH_BLOCK,
        ),
    ),
    InPlace(
        A,
        ShapeAll(
            &[(1, 2, MsgType::MData, 3), (0, 17, MsgType::MProto, 4)],
            NO_ROOM,
        ),
    ),
    InPlace(
        A,
        ShapeAll(
            &[(1, 2, MsgType::MProto, 3), (0, 17, MsgType::MData, 4)],
            SHARED,
        ),
    ),
    InPlace(A, ShapeAll(&[(1, 16, MsgType::MProto, 3)], NO_ROOM)),
    InPlace(A, ShapeAll(&[(u32::MAX, 1, MsgType::MData, 3)], NO_ROOM)),
    Told(A, 0, Ok((MsgType::MData, 4, 0, 12, 2))),
    Told(A, 1, Ok((MsgType::MData, 4, 0, 12, 1))),
    Bytes(A, 0, b"headtail"),
    InPlace(
        A,
        ShapeAll(
            &[(1, 2, MsgType::MData, 3), (2, 14, MsgType::MProto, 4)],
            DONE,
        ),
    ),
    Told(A, 0, Ok((MsgType::MData, 2, 3, 13, 2))),
    Told(A, 1, Ok((MsgType::MProto, 14, 4, 0, 1))),
    Told(B, 0, Ok((MsgType::MData, 4, 0, 12, 2))),
    Bytes(A, 0, b"eail\0\0\0\0\0\0\0\0\0\0\0\0"),
    InPlace(A, ShapeAll(&[(0, 4, MsgType::MData, 0)], DONE)),
    InPlace(A, Placed(0, Ok((0, 0, 4, 16)))),
    InPlace(A, Placed(1, Ok((1, 2, 14, 16)))),
    Freemsg(B),
    InPlace(A, ShapeAll(&[(0, 4, MsgType::MProto, 9)], DONE)),
    Told(A, 0, Ok((MsgType::MProto, 4, 9, 12, 1))),
    Freemsg(A),
];

// Bytes are written over those of both blocks at once.
const OVERWRITTEN: &[Row] = &[
    OfBytes(16, b"head", &[b"tail"], A),
    Dupb(A, Ok(B)),
    InPlace(A, Overwrite(0, b"h", SHARED)),
    InPlace(A, Overwrite(3, b"xy", SHARED)),
    InPlace(A, Overwrite(4, b"TAIL", DONE)),
    InPlace(A, Overwrite(5, b"over", Err(Refusal::Short))),
    InPlace(A, Overwrite(0, b"over both", Err(Refusal::Short))),
    InPlace(A, Overwrite(0, b"", DONE)),
    InPlace(A, Overwrite(8, b"", DONE)),
    InPlace(A, Overwrite(9, b"", Err(Refusal::Short))),
    Bytes(A, 0, b"headTAIL"),
    Freemsg(B),
    InPlace(A, Overwrite(2, b"-over", DONE)),
    Bytes(A, 0, b"he-overL"),
    Freemsg(A),
];

#[test]
fn leaves_room_for_headers(rt: HostRuntime) {
    serve(&rt, Bench::opened(&rt, rt.alloc(), 1), HEADROOM);
}

#[test]
fn fills_the_room(rt: HostRuntime) {
    serve(&rt, Bench::opened(&rt, rt.alloc(), 1), FILLED);
}

#[test]
fn edits_what_is_not_shared(rt: HostRuntime) {
    serve(&rt, Bench::opened(&rt, rt.alloc(), 1), EDITED);
}

#[test]
fn moves_places_in_a_window(rt: HostRuntime) {
    serve(&rt, Bench::opened(&rt, rt.alloc(), 1), SHAPED);
}

#[test]
fn shapes_all_blocks_or_none(rt: HostRuntime) {
    serve(&rt, Bench::opened(&rt, rt.alloc(), 1), ALL_SHAPED);
}

#[test]
fn overwrites_across_blocks(rt: HostRuntime) {
    serve(&rt, Bench::opened(&rt, rt.alloc(), 1), OVERWRITTEN);
}
