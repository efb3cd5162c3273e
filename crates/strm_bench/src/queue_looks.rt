//! Rounds of looks at a queue and its messages. Each call is in a function that is not inlined and writes its sum, so that the
//! compiler cannot make the call once for all rounds.
use crate::row::Row;
use strm_pool::Pool;

#[inline(never)]
fn see_first(pool: &Pool, told: &mut u64) {
    if let Ok(Some(_)) = pool.first_queued(0) {
        *told = told.wrapping_add(1);
    }
}

#[inline(never)]
fn see_after(pool: &Pool, head: u32, told: &mut u64) {
    if let Ok(Some(_)) = pool.queued_after(head) {
        *told = told.wrapping_add(1);
    }
}

#[inline(never)]
fn see_at(pool: &Pool, place: u32, told: &mut u64) {
    if let Ok(info) = pool.queued_at(0, place) {
        *told = told.wrapping_add(u64::from(info.blocks));
    }
}

#[inline(never)]
fn see_bytes(pool: &Pool, into: &mut [u8], told: &mut u64) {
    if let Ok(count) = pool.read_queued(0, 0, 0, into) {
        *told = told.wrapping_add(count as u64);
    }
}

#[inline(never)]
fn see_spec(pool: &Pool, told: &mut u64) {
    if let Ok(spec) = pool.queue_spec(0) {
        *told = told.wrapping_add(u64::from(spec.service));
    }
}

/// Rounds of looks at queue 0: its first message, the one after that or at a place, the bytes of the first, or its spec.
pub(crate) fn see_queued(pool: &Pool, row: Row, size: u16, times: u64) -> u64 {
    let Ok(Some(head)) = pool.first_queued(0) else {
        return 0;
    };
    let mut told = 0u64;
    let mut into = [0u8; 1_500];
    for _ in 0..times {
        match row {
            Row::FirstQueued => see_first(pool, &mut told),
            Row::QueuedAfter => see_after(pool, head, &mut told),
            Row::QueuedAt => see_at(pool, u32::from(size), &mut told),
            Row::ReadQueued => see_bytes(pool, &mut into, &mut told),
            _ => see_spec(pool, &mut told),
        }
    }
    told
}
