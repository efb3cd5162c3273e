use super::bench::Bench;
use super::rows::Row::{
    Allocb, Bytes, Census, Free, FreeData, Freemsg, References, Says, Setband, Settype, Told, Write,
};
use super::rows::{A, B, DONE, Row, serve};
use strm_data::{MsgType, Refusal};

// The largest class has 64 bytes, so 65 are too large. A new message has the room of its whole data block, even for
// size 0. 17 bytes do not fit into 16 bytes; 16 do, and so do no bytes after them. The last rows show which message
// blocks and data blocks two new messages take, and which are free then.
const FILLED_AT_ONCE: &[Row] = &[
    Allocb(0, Ok(A)),
    Told(A, 0, Ok((MsgType::MData, 0, 0, 16, 1))),
    Allocb(65, Err(Refusal::TooLarge)),
    Allocb(64, Ok(B)),
    Write(A, 0, &[9; 17], Err(Refusal::NoRoom)),
    Write(A, 0, &[9; 16], DONE),
    Write(A, 0, b"", DONE),
    Write(A, 1, b"", Err(Refusal::NoSuchBlock)),
    Told(A, 0, Ok((MsgType::MData, 16, 0, 0, 1))),
    Told(B, 0, Ok((MsgType::MData, 0, 0, 64, 1))),
    Bytes(A, 0, &[9; 16]),
    Census(6, 0, 2),
    Says(A, 1, 0, 1),
    Says(B, 1, 1, 1),
    References(&[1, 0, 0, 0, 1, 0]),
    Free(A, &[2, 3, 4, 5, 6, 7], &[1, 2, 3, 5]),
    FreeData(Some(3), Some(1)),
    Freemsg(A),
    References(&[0, 0, 0, 0, 1, 0]),
    Freemsg(B),
];

const FILLED_BIT_BY_BIT: &[Row] = &[
    Allocb(0, Ok(A)),
    Write(A, 1, b"", Err(Refusal::NoSuchBlock)),
    Write(A, u32::MAX, b"0", Err(Refusal::NoSuchBlock)),
    Write(A, 0, b"0123456789", DONE),
    Write(A, 0, b"abcdef0", Err(Refusal::NoRoom)),
    Write(A, 0, b"abcdef", DONE),
    Write(A, 0, b"", DONE),
    Write(A, 0, b"0", Err(Refusal::NoRoom)),
    Bytes(A, 0, b"0123456789abcdef"),
    Freemsg(A),
];

const ALTERED: &[Row] = &[
    Allocb(17, Ok(A)),
    Write(A, 0, b"abc", DONE),
    Settype(A, 0, MsgType::MProto, DONE),
    Settype(A, 1, MsgType::MCtl, Err(Refusal::NoSuchBlock)),
    Setband(A, 255),
    Told(A, 0, Ok((MsgType::MProto, 3, 255, 61, 1))),
    Told(A, 1, Err(Refusal::NoSuchBlock)),
    Freemsg(A),
];

#[test]
fn fills_a_block_at_once(rt: HostRuntime) {
    serve(&rt, Bench::opened(&rt, rt.alloc(), 1), FILLED_AT_ONCE);
}

#[test]
fn fills_a_block_bit_by_bit(rt: HostRuntime) {
    serve(&rt, Bench::opened(&rt, rt.alloc(), 7), FILLED_BIT_BY_BIT);
}

#[test]
fn tells_what_was_altered(rt: HostRuntime) {
    serve(&rt, Bench::opened(&rt, rt.alloc(), 7), ALTERED);
}
