//! Rounds of calls on bytes of a held message in place, and of older calls that do the same. Each round is in a function that is
//! not inlined, and each look writes its sum, so that the compiler cannot make the call once for all rounds.
use crate::held::Held;
use crate::messages::bytes_of;
use crate::row::Row;
use strm_pool::{BlockInfo, MsgType};

// What an array has for a block before `walk` writes there.
const NOTHING: BlockInfo = BlockInfo {
    kind: MsgType::MData,
    len: 0,
    band: 0,
    room: 0,
    names: 1,
};

#[inline(never)]
fn see_bytes(held: &Held, told: &mut u64) {
    if let Ok(bytes) = held.pool.bytes(&held.token, 0) {
        *told = told.wrapping_add(bytes.len() as u64);
    }
}

#[inline(never)]
fn see_place(held: &Held, told: &mut u64) {
    if let Ok(place) = held.pool.place(&held.token, 0) {
        *told = told.wrapping_add(u64::from(place.len));
    }
}

#[inline(never)]
fn see_blocks(held: &Held, into: &mut [BlockInfo], told: &mut u64) {
    *told = told.wrapping_add(held.pool.walk(&held.token, 0, into) as u64);
}

#[inline(never)]
fn see_each(held: &Held, told: &mut u64) {
    for place in 0..held.token.blocks() {
        if let Ok(block) = held.pool.block(&held.token, place) {
            *told = told.wrapping_add(u64::from(block.names));
        }
    }
}

/// Rounds of looks at a message: `bytes` or `place` of its first block, `walk`, or `block` of each block.
pub(crate) fn look_in_place(held: &Held, row: Row, times: u64) -> u64 {
    let mut told = 0u64;
    let mut infos = [NOTHING; 64];
    for _ in 0..times {
        match row {
            Row::Bytes => see_bytes(held, &mut told),
            Row::Place => see_place(held, &mut told),
            Row::Walk => see_blocks(held, &mut infos, &mut told),
            _ => see_each(held, &mut told),
        }
    }
    told
}

// Changes the first byte, if there is one.
fn flip(bytes: &mut [u8]) {
    if let Some(first) = bytes.first_mut() {
        *first ^= 1;
    }
}

// Writes bytes over the front of others, as far as both reach, and returns their number.
fn write_over(lent: &mut [u8], bytes: &[u8]) -> usize {
    let count = lent.len().min(bytes.len());
    lent[..count].copy_from_slice(&bytes[..count]);
    count
}

// `edit` of the first byte.
#[inline(never)]
fn edit(held: &mut Held) -> bool {
    held.pool.edit(&held.token, 0, flip).is_ok()
}

// `overwrite` from the first byte on.
#[inline(never)]
fn overwrite(held: &mut Held, bytes: &[u8]) -> bool {
    held.pool.overwrite(&held.token, 0, bytes).is_ok()
}

// `read` of all bytes.
#[inline(never)]
fn read(held: &mut Held, into: &mut [u8]) -> bool {
    held.pool.read(&held.token, 0, into) > 0
}

// Changes the first byte in a new message with the same bytes, and frees that.
#[inline(never)]
fn rebuild(held: &mut Held, size: u16, into: &mut [u8]) -> bool {
    let _ = held.pool.read(&held.token, 0, into);
    flip(into);
    let Ok(token) = held.pool.allocb(u32::from(size)) else {
        return false;
    };
    let written = held.pool.write(&token, 0, into);
    held.pool.freemsg(token);
    written.is_ok()
}

// `adjmsg` of all bytes at the end, `fill` with as many.
#[inline(never)]
fn fill(held: &mut Held, size: u16, bytes: &[u8]) -> bool {
    let _ = held
        .pool
        .adjmsg(&held.token, i32::from(size).wrapping_neg());
    held.pool
        .fill(&held.token, 0, |lent| write_over(lent, bytes))
        .is_ok()
}

// `adjmsg` of all bytes at the end, `advance` over as many.
#[inline(never)]
fn advance(held: &mut Held, size: u16) -> bool {
    let _ = held
        .pool
        .adjmsg(&held.token, i32::from(size).wrapping_neg());
    held.pool.advance(&held.token, 0, u32::from(size)).is_ok()
}

// `adjmsg` of all bytes at the front, `prepend` of as many.
#[inline(never)]
fn prepend(held: &mut Held, size: u16, bytes: &[u8]) -> bool {
    let _ = held.pool.adjmsg(&held.token, i32::from(size));
    held.pool.prepend(&held.token, bytes).is_ok()
}

// `reserve` in a block without bytes.
#[inline(never)]
fn reserve(held: &mut Held, size: u16) -> bool {
    held.pool.reserve(&held.token, 0, u32::from(size)).is_ok()
}

// Does a call this number of times, and returns how often it succeeded.
macro_rules! repeated {
    ($times:expr, $call:expr) => {{
        let mut told = 0u64;
        for _ in 0..$times {
            told = told.wrapping_add(u64::from($call));
        }
        told
    }};
}

/// Rounds on a message of one block with this number of bytes, or with none for `reserve`.
pub(crate) fn in_place(held: &mut Held, row: Row, size: u16, times: u64) -> u64 {
    let mut bytes = [0u8; 1_500];
    let bytes = &mut bytes[..bytes_of(size).len()];
    let _ = read(held, bytes);
    match row {
        Row::Edit => repeated!(times, edit(held)),
        Row::Overwrite => repeated!(times, overwrite(held, bytes)),
        Row::OverwriteByte => repeated!(times, overwrite(held, bytes_of(1))),
        Row::Rebuild => repeated!(times, rebuild(held, size, bytes)),
        Row::Fill => repeated!(times, fill(held, size, bytes)),
        Row::Advance => repeated!(times, advance(held, size)),
        Row::Prepend => repeated!(times, prepend(held, size, bytes)),
        Row::Reserve => repeated!(times, reserve(held, size)),
        _ => repeated!(times, read(held, bytes)),
    }
}
