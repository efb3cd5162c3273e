//! Rounds of calls on queues, whose messages are put there first.
ghost use Rattle.std.specs.Prelude.{IfSome, IsTrue};
ghost use Rattle.strm_mblk.specs.Arena.{has};

use crate::config::{CHAIN, NARROW};
use crate::messages::{BYTES, SIZE, one};
use strm_pool::{Flush, MsgType, Pool, Rejected, Token};

// The number of ranks that messages get: bands 0 to 15, and high priority.
const RANKS: u32 = 17;

// The number of messages on a queue with many; and the number of other messages during a flush, if there are enough blocks.
const MANY: u32 = 1_000;

const BESIDE: u32 = 3_900;

// The number of messages that one flush frees, or that are after the first one on a queue.
const HUNDRED: u32 = 100;

/// Puts a message on a queue by `putq`, and says whether it is there. A refused message is freed.
pub(crate) fn put(pool: &mut Pool, queue: u8, token: Token) -> bool
    requires { IsTrue (has pool.old.arena token) }
{
    match pool.putq(queue, token) {
        Ok(()) => true,
        Err(Rejected { why: _, token }) => {
            pool.freemsg(token);
            false
        }
    }
}

// Puts a message on a queue by `putbq`, and says whether it is there. A refused message is freed.
fn put_back(pool: &mut Pool, queue: u8, token: Token) -> bool
    requires { IsTrue (has pool.old.arena token) }
{
    match pool.putbq(queue, token) {
        Ok(()) => true,
        Err(Rejected { why: _, token }) => {
            pool.freemsg(token);
            false
        }
    }
}

// Puts a message first on a queue by `insq`, and says whether it is there. A refused message is freed.
fn put_first(pool: &mut Pool, queue: u8, token: Token) -> bool
    requires { IsTrue (has pool.old.arena token) }
{
    match pool.insq(queue, 0, token) {
        Ok(()) => true,
        Err(Rejected { why: _, token }) => {
            pool.freemsg(token);
            false
        }
    }
}

// Gives a message a rank: a band up to 15, or high priority.
fn set_rank(pool: &mut Pool, token: &Token, rank: u8)
    requires { IsTrue (has pool.old.arena token.now) }
    ensures { IsTrue (has pool.new.arena token.now) }
{
    if rank < 16 {
        pool.setband(token, rank);
    } else {
        let _ = pool.settype(token, 0, MsgType::MPcproto);
    }
}

// Makes a message of one block with 64 bytes and a rank, and puts it on a queue.
fn post(pool: &mut Pool, queue: u8, rank: u8) -> bool {
    let Ok(token) = pool.allocb(SIZE) else {
        return false;
    };
    let _ = pool.write(&token, 0, &BYTES);
    set_rank(pool, &token, rank);
    put(pool, queue, token)
}

// Puts this number of messages on queue 0, of all ranks in turn.
fn fill(pool: &mut Pool, count: u32) {
    for number in 0..count {
        let _ = post(pool, 0, (number % RANKS) as u8);
    }
}

// Puts this number of messages on queue 0, of bands 0 and 2 in turn.
fn fill_beside(pool: &mut Pool, count: u32) {
    for number in 0..count {
        let _ = post(pool, 0, (number % 2 * 2) as u8);
    }
}

/// Puts a message with this number of bytes first on queue 0, and a hundred of 64 bytes after it.
pub(crate) fn line_up(pool: &mut Pool, size: u16) {
    if let Some(token) = one(pool, size) {
        let _ = put(pool, 0, token);
    }
    for _ in 0..HUNDRED {
        let _ = post(pool, 0, 0);
    }
}

// Takes the first message of a queue.
fn taken(pool: &mut Pool, queue: u8) -> Option<Token>
    ensures { IfSome result (λ token. IsTrue (has pool.new.arena token)) }
{
    match pool.getq(queue) {
        Ok(given) => given,
        Err(_) => None,
    }
}

// `getq` and `putq` on a queue.
fn put_rounds(pool: &mut Pool, queue: u8, times: u64) -> u64 {
    let mut told = 0u64;
    for _ in 0..times {
        if let Some(token) = taken(pool, queue) {
            told = told.wrapping_add(u64::from(put(pool, queue, token)));
        }
    }
    told
}

// `getq` and `putbq` on queue 0.
fn put_back_rounds(pool: &mut Pool, times: u64) -> u64 {
    let mut told = 0u64;
    for _ in 0..times {
        if let Some(token) = taken(pool, 0) {
            told = told.wrapping_add(u64::from(put_back(pool, 0, token)));
        }
    }
    told
}

/// `allocb`, `write` of 64 bytes, `putq`, `getq`, `freemsg`, on an empty queue.
pub(crate) fn queued(pool: &mut Pool, times: u64) -> u64 {
    let mut told = 0u64;
    for _ in 0..times {
        let _ = post(pool, 0, 0);
        if let Some(token) = taken(pool, 0) {
            pool.freemsg(token);
            told = told.wrapping_add(1);
        }
    }
    told
}

/// `getq`, `putq` of the only message.
pub(crate) fn putq(pool: &mut Pool, times: u64) -> u64 {
    let _ = post(pool, 0, 0);
    put_rounds(pool, 0, times)
}

/// `getq`, `putq` with many messages of all ranks.
pub(crate) fn putq_ranked(pool: &mut Pool, blocks: u32, times: u64) -> u64 {
    fill(pool, MANY.min(blocks / 2));
    put_rounds(pool, 0, times)
}

/// `getq`, `putq` with ten messages in a band that is full and wanted, and stays so.
pub(crate) fn putq_full(pool: &mut Pool, times: u64) -> u64 {
    for _ in 0..10 {
        let _ = post(pool, NARROW, 0);
    }
    let _ = pool.bcanput(NARROW, 0);
    put_rounds(pool, NARROW, times)
}

/// `getq`, `putbq` of the only message.
pub(crate) fn putbq(pool: &mut Pool, times: u64) -> u64 {
    let _ = post(pool, 0, 0);
    put_back_rounds(pool, times)
}

/// `getq`, `putbq` with many messages of all ranks.
pub(crate) fn putbq_ranked(pool: &mut Pool, blocks: u32, times: u64) -> u64 {
    fill(pool, MANY.min(blocks / 2));
    put_back_rounds(pool, times)
}

/// `rmvq` at place 0, `putbq`.
pub(crate) fn rmvq(pool: &mut Pool, times: u64) -> u64 {
    let _ = post(pool, 0, 0);
    let mut told = 0u64;
    for _ in 0..times {
        if let Ok(token) = pool.rmvq(0, 0) {
            told = told.wrapping_add(u64::from(put_back(pool, 0, token)));
        }
    }
    told
}

/// `rmvq` at place 0, `insq` there.
pub(crate) fn insq(pool: &mut Pool, times: u64) -> u64 {
    let _ = post(pool, 0, 0);
    let mut told = 0u64;
    for _ in 0..times {
        if let Ok(token) = pool.rmvq(0, 0) {
            told = told.wrapping_add(u64::from(put_first(pool, 0, token)));
        }
    }
    told
}

// Flushes band 1. It is not inlined, so that its instructions can be counted.
#[inline(never)]
fn flush_hundred(pool: &mut Pool) -> bool {
    pool.flushband(0, 1, Flush::All).is_ok()
}

/// Puts a hundred messages of band 1 among others, and flushes them.
pub(crate) fn flushband(pool: &mut Pool, blocks: u32, times: u64) -> u64 {
    fill_beside(pool, BESIDE.min(blocks.saturating_sub(HUNDRED + 10)));
    let mut told = 0u64;
    for _ in 0..times {
        for _ in 0..HUNDRED {
            let _ = post(pool, 0, 1);
        }
        told = told.wrapping_add(u64::from(flush_hundred(pool)));
    }
    told
}

/// `bcanput` on the first of eight queues without service procedures.
pub(crate) fn bcanput(pool: &mut Pool, times: u64) -> u64 {
    let mut told = 0u64;
    for _ in 0..times {
        told = told.wrapping_add(u64::from(pool.bcanput(CHAIN, 0).unwrap_or(false)));
    }
    told
}

/// `strqset`.
pub(crate) fn strqset(pool: &mut Pool, times: u64) -> u64 {
    let mut told = 0u64;
    for _ in 0..times {
        told = told.wrapping_add(u64::from(pool.strqset(0, 3, 8, 4).is_ok()));
    }
    told
}

/// `qenable`, then `next_service`.
pub(crate) fn qenable(pool: &mut Pool, times: u64) -> u64 {
    let mut told = 0u64;
    for _ in 0..times {
        let _ = pool.qenable(0);
        told = told.wrapping_add(u64::from(pool.next_service().is_some()));
    }
    told
}

/// `bufcall`, then `take_ready`.
pub(crate) fn bufcall(pool: &mut Pool, times: u64) -> u64 {
    let mut told = 0u64;
    for _ in 0..times {
        let _ = pool.bufcall(SIZE);
        told = told.wrapping_add(u64::from(pool.take_ready().is_some()));
    }
    told
}
