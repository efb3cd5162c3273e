//! Rounds of calls that change nothing. Each call is in a function that is not inlined and writes its sum, so that the compiler
//! cannot make the call once for all rounds.
use crate::held::Held;
use crate::row::Row;
use strm_pool::Pool;

#[inline(never)]
fn see_has(held: &Held, told: &mut u64) {
    *told = told.wrapping_add(u64::from(held.pool.has(&held.token)));
}

#[inline(never)]
fn see_size(held: &Held, told: &mut u64) {
    *told = told.wrapping_add(u64::from(held.pool.size(&held.token)));
}

#[inline(never)]
fn see_bytes(held: &Held, told: &mut u64) {
    let mut bytes = [0u8; 64];
    *told = told.wrapping_add(held.pool.read(&held.token, 192, &mut bytes) as u64);
}

#[inline(never)]
fn see_block(held: &Held, told: &mut u64) {
    if let Ok(block) = held.pool.block(&held.token, 0) {
        *told = told.wrapping_add(u64::from(block.len));
    }
}

#[inline(never)]
fn see_census(pool: &Pool, told: &mut u64) {
    let census = pool.census();
    *told = told.wrapping_add(u64::from(census.free ^ census.queued ^ census.held));
}

#[inline(never)]
fn see_room(pool: &Pool, told: &mut u64) {
    *told = told.wrapping_add(u64::from(pool.testb(64)));
}

#[inline(never)]
fn see_queue(pool: &Pool, told: &mut u64) {
    *told = told.wrapping_add(u64::from(pool.qsize(0).unwrap_or(0)));
}

/// Rounds on a message that stays: `has`, `size` of its four blocks, `read` of the bytes of the last, or `block` of the first.
pub(crate) fn see_message(held: &Held, row: Row, times: u64) -> u64 {
    let mut told = 0u64;
    for _ in 0..times {
        match row {
            Row::Has => see_has(held, &mut told),
            Row::Size => see_size(held, &mut told),
            Row::Read => see_bytes(held, &mut told),
            _ => see_block(held, &mut told),
        }
    }
    told
}

/// Rounds on the pool: `census`, `testb` or `qsize`.
pub(crate) fn see_pool(pool: &Pool, row: Row, times: u64) -> u64 {
    let mut told = 0u64;
    for _ in 0..times {
        match row {
            Row::Census => see_census(pool, &mut told),
            Row::Testb => see_room(pool, &mut told),
            _ => see_queue(pool, &mut told),
        }
    }
    told
}
