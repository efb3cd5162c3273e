//! Calls that look at queues and at the messages on them.
ghost use Rattle.std.specs.Prelude.{◌≡◌, ◌-◌, Ok, length, min};
ghost use Rattle.strm_mblk.specs.Block.{size_of};
ghost use Rattle.strm_mblk.specs.Given.{answer_map};
ghost use Rattle.strm_queue.specs.QueueLooks as looks;
ghost use Rattle.strm_pool.specs.PoolValue.{queued_blocks_of};
ghost use Rattle.strm_c.specs.Codes.{answer_of_refusable, any_or_nothing};
ghost use Rattle.strm_c.specs.Exports.{Asks, queued_bytes_read};
ghost use Rattle.strm_c.specs.InC.{capped_number, queued_in_c, spec_in_c};

use crate::answer::{coded_any_refusal, coded_refusal, put};
use crate::code::Code;
use crate::layout::{StrmQueueSpec, StrmQueued};
use crate::numbers::capped_number;
use crate::reader::StrmReader;

/// Stores what the message at a place of a queue is like in `queued`. As [`Pool::queued_at`] of strm_pool.
#[unsafe(no_mangle)]
pub extern "C" fn strm_c_queued_at(
    pool: &mut StrmReader,
    queue: u32,
    place: u32,
    queued: &mut StrmQueued,
) -> i32
    ensures answer { Asks (λ v. answer_of_refusable (λ q. Ok (queued_in_c q))
        (looks.queued_at (capped_number queue) place (queued_blocks_of v.pool)))
        pool.old.at.named pool.new.at.named result queued.old queued.new }
    ensures same { pool.new ≡ pool.old }
{
    let Some(view) = pool.view() else {
        return Code::NotOpen.number();
    };
    let answer = view.named().pool().queued_at(capped_number(queue), place);
    put(coded_refusal(answer).map(StrmQueued::of), queued)
}

/// Copies bytes of the message at a place of a queue into a buffer, and stores their number in `count`. As
/// [`Pool::read_queued`] of strm_pool.
#[unsafe(no_mangle)]
pub extern "C" fn strm_c_read_queued(
    pool: &mut StrmReader,
    queue: u32,
    place: u32,
    at: u32,
    into: &mut [u8],
    count: &mut usize,
) -> i32
    ensures count { Asks (λ v. answer_of_refusable Ok (answer_map (λ m. min (length into.old) (size_of m - at))
        (looks.queued_message (capped_number queue) place (queued_blocks_of v.pool))))
        pool.old.at.named pool.new.at.named result count.old count.new }
    ensures bytes { into.new ≡ queued_bytes_read pool.old.at.named (capped_number queue) place at into.old }
    ensures same { pool.new ≡ pool.old }
{
    let Some(view) = pool.view() else {
        return Code::NotOpen.number();
    };
    let answer = view
        .named()
        .pool()
        .read_queued(capped_number(queue), place, at, into);
    put(coded_refusal(answer), count)
}

/// Stores the number of the first block of the first message on a queue in `head`. As [`Pool::first_queued`] of strm_pool.
/// Returns `Nothing` if the queue is empty.
#[unsafe(no_mangle)]
pub extern "C" fn strm_c_first_queued(pool: &mut StrmReader, queue: u32, head: &mut u32) -> i32
    ensures answer { Asks (λ v. answer_of_refusable any_or_nothing
        (looks.first_queued (capped_number queue) (queued_blocks_of v.pool)))
        pool.old.at.named pool.new.at.named result head.old head.new }
    ensures same { pool.new ≡ pool.old }
{
    let Some(view) = pool.view() else {
        return Code::NotOpen.number();
    };
    let answer = view.named().pool().first_queued(capped_number(queue));
    put(coded_any_refusal(answer), head)
}

/// Stores the number of the first block of the last message on a queue in `head`. As [`Pool::last_queued`] of strm_pool.
/// Returns `Nothing` if the queue is empty.
#[unsafe(no_mangle)]
pub extern "C" fn strm_c_last_queued(pool: &mut StrmReader, queue: u32, head: &mut u32) -> i32
    ensures answer { Asks (λ v. answer_of_refusable any_or_nothing
        (looks.last_queued (capped_number queue) (queued_blocks_of v.pool)))
        pool.old.at.named pool.new.at.named result head.old head.new }
    ensures same { pool.new ≡ pool.old }
{
    let Some(view) = pool.view() else {
        return Code::NotOpen.number();
    };
    let pool = view.named().pool();
    let answer = pool.last_queued(capped_number(queue));
    put(coded_any_refusal(answer), head)
}

/// Stores the queue that has the message that begins with a block in `queue`. As [`Pool::queue_of`] of strm_pool.
#[unsafe(no_mangle)]
pub extern "C" fn strm_c_queue_of(pool: &mut StrmReader, head: u32, queue: &mut u32) -> i32
    ensures answer { Asks (λ v. answer_of_refusable Ok (looks.queue_of head (queued_blocks_of v.pool)))
        pool.old.at.named pool.new.at.named result queue.old queue.new }
    ensures same { pool.new ≡ pool.old }
{
    let Some(view) = pool.view() else {
        return Code::NotOpen.number();
    };
    let pool = view.named().pool();
    let answer = pool.queue_of(head).map(u32::from);
    put(coded_refusal(answer), queue)
}

/// Stores the number of the first block of the message after the one that begins with a block, on the same queue, in `after`.
/// As [`Pool::queued_after`] of strm_pool. Returns `Nothing` if there is none after it.
#[unsafe(no_mangle)]
pub extern "C" fn strm_c_queued_after(pool: &mut StrmReader, head: u32, after: &mut u32) -> i32
    ensures answer { Asks (λ v. answer_of_refusable any_or_nothing (looks.queued_after head (queued_blocks_of v.pool)))
        pool.old.at.named pool.new.at.named result after.old after.new }
    ensures same { pool.new ≡ pool.old }
{
    let Some(view) = pool.view() else {
        return Code::NotOpen.number();
    };
    let answer = view.named().pool().queued_after(head);
    put(coded_any_refusal(answer), after)
}

/// Stores the number of the first block of the message before the one that begins with a block, on the same queue, in
/// `before`. As [`Pool::queued_before`] of strm_pool. Returns `Nothing` if there is none before it.
#[unsafe(no_mangle)]
pub extern "C" fn strm_c_queued_before(pool: &mut StrmReader, head: u32, before: &mut u32) -> i32
    ensures answer { Asks (λ v. answer_of_refusable any_or_nothing (looks.queued_before head (queued_blocks_of v.pool)))
        pool.old.at.named pool.new.at.named result before.old before.new }
    ensures same { pool.new ≡ pool.old }
{
    let Some(view) = pool.view() else {
        return Code::NotOpen.number();
    };
    let pool = view.named().pool();
    let answer = pool.queued_before(head);
    put(coded_any_refusal(answer), before)
}

/// Stores the configuration of a queue in `spec`. As [`Pool::queue_spec`] of strm_pool.
#[unsafe(no_mangle)]
pub extern "C" fn strm_c_queue_spec(
    pool: &mut StrmReader,
    queue: u32,
    spec: &mut StrmQueueSpec,
) -> i32
    ensures answer { Asks (λ v. answer_of_refusable (λ s. Ok (spec_in_c s))
        (looks.queue_spec (capped_number queue) (queued_blocks_of v.pool)))
        pool.old.at.named pool.new.at.named result spec.old spec.new }
    ensures same { pool.new ≡ pool.old }
{
    let Some(view) = pool.view() else {
        return Code::NotOpen.number();
    };
    let answer = view.named().pool().queue_spec(capped_number(queue));
    put(coded_refusal(answer).map(StrmQueueSpec::of), spec)
}
