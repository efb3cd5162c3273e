//! Rounds of calls on a pool, with tokens, and on queues.
use crate::config::{configured, opened};
use crate::held::Held;
use crate::in_place::{in_place, look_in_place};
use crate::looks::{see_message, see_pool};
use crate::messages::USUAL;
use crate::order::Order;
use crate::queue_looks::see_queued;
use crate::row::{Group, Row};
use crate::transfers::transfer;
use crate::{messages, queues};
use std::alloc::Global;
use strm_pool::Pool;

// Opens a pool, and drops it.
fn open_rounds(alloc: Global, blocks: u32, times: u64) -> u64 {
    let mut told = 0u64;
    for _ in 0..times {
        if let Ok(pool) = Pool::new(alloc, configured(blocks)) {
            told = told.wrapping_add(u64::from(pool.census().free));
        }
    }
    told
}

// Rounds on messages that the round makes.
fn message_rounds(pool: &mut Pool, row: Row, times: u64) -> u64 {
    match row {
        Row::Allocb => messages::allocb(pool, times),
        Row::Dupb => messages::dupb(pool, times),
        Row::Dupmsg => messages::dupmsg(pool, times),
        Row::Write => messages::write(pool, times),
        Row::Build => messages::build(pool, times),
        Row::Pullup => messages::pullup(pool, times),
        Row::Queued => queues::queued(pool, times),
        _ => 0,
    }
}

// Rounds on queues.
fn queue_rounds(pool: &mut Pool, row: Row, blocks: u32, times: u64) -> u64 {
    match row {
        Row::Putq => queues::putq(pool, times),
        Row::PutqRanked => queues::putq_ranked(pool, blocks, times),
        Row::PutqFull => queues::putq_full(pool, times),
        Row::Putbq => queues::putbq(pool, times),
        Row::PutbqRanked => queues::putbq_ranked(pool, blocks, times),
        Row::Rmvq => queues::rmvq(pool, times),
        Row::Insq => queues::insq(pool, times),
        Row::Flushband => queues::flushband(pool, blocks, times),
        Row::Bcanput => queues::bcanput(pool, times),
        Row::Strqset => queues::strqset(pool, times),
        Row::Qenable => queues::qenable(pool, times),
        Row::Bufcall => queues::bufcall(pool, times),
        _ => 0,
    }
}

// Rounds on a message that stays.
fn held_rounds(held: &mut Held, row: Row, times: u64) -> u64 {
    match row {
        Row::CopymsgFour => held.copymsg(times),
        Row::DupmsgFour => held.dupmsg(times),
        Row::Unlinkb => held.unlinkb(times),
        Row::Settype => held.settype(times),
        Row::Setband => held.setband(times),
        _ => see_message(held, row, times),
    }
}

// Makes the message before the rounds, and frees it afterwards.
fn on_message(pool: Pool, row: Row, times: u64) -> u64 {
    let Some(mut held) = Held::of(pool) else {
        return 0;
    };
    let told = held_rounds(&mut held, row, times);
    held.end();
    told
}

// The number of the message's blocks for a round in place, and of the bytes of each.
fn shape(row: Row, size: u16) -> (u16, u16) {
    match row {
        Row::Walk | Row::EachBlock => (size, USUAL),
        Row::Reserve => (1, 0),
        _ => (1, size),
    }
}

// Makes the message before the rounds in place, and frees it afterwards. This function and the next are not inlined: otherwise
// the compiler would inline less in the rounds of other rows.
#[inline(never)]
fn on_sized_message(pool: Pool, order: Order) -> u64 {
    let (blocks, size) = shape(order.row, order.size);
    let Some(mut held) = Held::sized(pool, blocks, size) else {
        return 0;
    };
    let told = match order.row {
        Row::Bytes | Row::Place | Row::Walk | Row::EachBlock => {
            look_in_place(&held, order.row, order.times)
        }
        _ => in_place(&mut held, order.row, order.size, order.times),
    };
    held.end();
    told
}

// Puts the messages on a queue before the rounds.
#[inline(never)]
fn on_queue(pool: Pool, order: Order) -> u64 {
    let mut pool = pool;
    queues::line_up(&mut pool, order.size);
    see_queued(&pool, order.row, order.size, order.times)
}

// Opens the other pool before the rounds.
#[inline(never)]
fn to_another(alloc: Global, pool: Pool, order: Order) -> u64 {
    let mut pool = pool;
    match opened(alloc, order.blocks) {
        Some(mut other) => transfer(&mut pool, &mut other, order.size, order.times),
        None => 0,
    }
}

/// Runs the rounds on a new pool, and returns their sum.
pub(crate) fn direct_rounds(alloc: Global, order: Order) -> u64 {
    if let Row::Open = order.row {
        return open_rounds(alloc, order.blocks, order.times);
    }
    let Some(mut pool) = opened(alloc, order.blocks) else {
        return 0;
    };
    match order.row.group() {
        Group::Messages => message_rounds(&mut pool, order.row, order.times),
        Group::Looks => see_pool(&pool, order.row, order.times),
        Group::Held => on_message(pool, order.row, order.times),
        Group::InPlace => on_sized_message(pool, order),
        Group::QueueLooks => on_queue(pool, order),
        Group::Pools => to_another(alloc, pool, order),
        Group::Queues => queue_rounds(&mut pool, order.row, order.blocks, order.times),
    }
}
