//! Calls that put messages on queues, take them off, count them and flush them.
ghost use Rattle.std.specs.Prelude.{◌≡◌, [], ◌∷◌, Ok};
ghost use Rattle.strm_mblk.specs.Given.{answer_of};
ghost use Rattle.strm_queue.specs.HeadCalls as by_head;
ghost use Rattle.strm_queue.specs.QueueCalls as queues;
ghost use Rattle.strm_pool.specs.PoolValue.{on_queues, queued_blocks_of};
ghost use Rattle.strm_named.specs.NamedCalls.{any_message, on_name, one_message, outcome_of, no_message};
ghost use Rattle.strm_c.specs.Codes.{any_or_nothing, answer_of_refusable};
ghost use Rattle.strm_c.specs.Exports.{Asks, CallsNamed, DoesOnPool, Ranged};
ghost use Rattle.strm_c.specs.InC.{band_of, flush_of, capped_number, head_before};

use crate::answer::{coded, coded_any, coded_refusal, number, put};
use crate::code::Code;
use crate::handle::StrmPool;
use crate::msg::StrmMsg;
use crate::numbers::{band_of, capped_number, flush_of, head_before};
use crate::reader::StrmReader;
use strm_named::Name;

/// Puts a message on a queue, after its equals. As [`NamedPool::putq`] of strm_named.
#[unsafe(no_mangle)]
pub extern "C" fn strm_c_putq(pool: &mut StrmPool, queue: u32, msg: Name) -> i32
    ensures { CallsNamed no_message Ok (λ v. on_name v msg
        (on_queues v.pool (queues.putq (capped_number queue) msg.head (queued_blocks_of v.pool)))) (msg.head ∷ [])
        pool.old.at.named pool.new.at.named result tt tt }
{
    let Some(named) = pool.named_mut() else {
        return Code::NotOpen.number();
    };
    let answer = named.putq(capped_number(queue), msg);
    number(coded(answer))
}

/// Puts a message on a queue, before its equals. As [`NamedPool::putbq`] of strm_named.
#[unsafe(no_mangle)]
pub extern "C" fn strm_c_putbq(pool: &mut StrmPool, queue: u32, msg: Name) -> i32
    ensures { CallsNamed no_message Ok (λ v. on_name v msg
        (on_queues v.pool (queues.putbq (capped_number queue) msg.head (queued_blocks_of v.pool)))) (msg.head ∷ [])
        pool.old.at.named pool.new.at.named result tt tt }
{
    let Some(named) = pool.named_mut() else {
        return Code::NotOpen.number();
    };
    let answer = named.putbq(capped_number(queue), msg);
    number(coded(answer))
}

/// Puts a message on a queue at a place. As [`NamedPool::insq`] of strm_named.
#[unsafe(no_mangle)]
pub extern "C" fn strm_c_insq(pool: &mut StrmPool, queue: u32, place: u32, msg: Name) -> i32
    ensures { CallsNamed no_message Ok (λ v. on_name v msg
        (on_queues v.pool (queues.insq (capped_number queue) place msg.head (queued_blocks_of v.pool)))) (msg.head ∷ [])
        pool.old.at.named pool.new.at.named result tt tt }
{
    let Some(named) = pool.named_mut() else {
        return Code::NotOpen.number();
    };
    let answer = named.insq(capped_number(queue), place, msg);
    number(coded(answer))
}

/// Puts a message on a queue before the one that begins with block `before`, or last. As [`NamedPool::insq_before`] of
/// strm_named.
#[unsafe(no_mangle)]
pub extern "C" fn strm_c_insq_at(pool: &mut StrmPool, queue: u32, before: u32, msg: Name) -> i32
    ensures { CallsNamed no_message Ok (λ v. on_name v msg (on_queues v.pool
        (by_head.insq_before (capped_number queue) (head_before before) msg.head (queued_blocks_of v.pool))))
        (msg.head ∷ []) pool.old.at.named pool.new.at.named result tt tt }
{
    let Some(named) = pool.named_mut() else {
        return Code::NotOpen.number();
    };
    let answer = named.insq_before(capped_number(queue), head_before(before), msg);
    number(coded(answer))
}

/// Takes the first message of a queue, and stores its name in `msg`. As [`NamedPool::getq`] of strm_named. Returns `Nothing` if
/// the queue is empty.
#[unsafe(no_mangle)]
pub extern "C" fn strm_c_getq(pool: &mut StrmPool, queue: u32, msg: &mut StrmMsg) -> i32
    ensures { CallsNamed any_message any_or_nothing
        (λ v. outcome_of (on_queues v.pool (queues.getq (capped_number queue) (queued_blocks_of v.pool)))) []
        pool.old.at.named pool.new.at.named result msg.old msg.new }
{
    let Some(named) = pool.named_mut() else {
        return Code::NotOpen.number();
    };
    let answer = named.getq(capped_number(queue));
    put(coded_any(answer).map(StrmMsg::of), msg)
}

/// Takes the message at a place of a queue, and stores its name in `msg`. As [`NamedPool::rmvq`] of strm_named.
#[unsafe(no_mangle)]
pub extern "C" fn strm_c_rmvq(pool: &mut StrmPool, queue: u32, place: u32, msg: &mut StrmMsg) -> i32
    ensures { CallsNamed one_message Ok (λ v. outcome_of
        (on_queues v.pool (queues.rmvq (capped_number queue) place (queued_blocks_of v.pool)))) []
        pool.old.at.named pool.new.at.named result msg.old msg.new }
{
    let Some(named) = pool.named_mut() else {
        return Code::NotOpen.number();
    };
    let answer = named.rmvq(capped_number(queue), place);
    put(coded(answer).map(StrmMsg::of), msg)
}

/// Takes the message that begins with block `head` off its queue, and stores its name in `msg`. As [`NamedPool::rmvq_head`] of
/// strm_named.
#[unsafe(no_mangle)]
pub extern "C" fn strm_c_rmvq_msg(pool: &mut StrmPool, head: u32, msg: &mut StrmMsg) -> i32
    ensures { CallsNamed one_message Ok
        (λ v. outcome_of (on_queues v.pool (by_head.rmvq_head head (queued_blocks_of v.pool)))) []
        pool.old.at.named pool.new.at.named result msg.old msg.new }
{
    let Some(named) = pool.named_mut() else {
        return Code::NotOpen.number();
    };
    let answer = named.rmvq_head(head);
    put(coded(answer).map(StrmMsg::of), msg)
}

/// Stores the number of messages on a queue in `msgs`. As [`Pool::qsize`] of strm_pool.
#[unsafe(no_mangle)]
pub extern "C" fn strm_c_qsize(pool: &mut StrmReader, queue: u32, msgs: &mut u32) -> i32
    ensures answer { Asks (λ v. answer_of_refusable Ok (answer_of
        (queues.qsize (capped_number queue) (queued_blocks_of v.pool))))
        pool.old.at.named pool.new.at.named result msgs.old msgs.new }
    ensures same { pool.new ≡ pool.old }
{
    let Some(view) = pool.view() else {
        return Code::NotOpen.number();
    };
    let answer = view.named().pool().qsize(capped_number(queue));
    put(coded_refusal(answer), msgs)
}

/// Frees messages of a queue. As [`NamedPool::flushq`] of strm_named. A number of no flush is a `BadArgument`.
#[unsafe(no_mangle)]
pub extern "C" fn strm_c_flushq(pool: &mut StrmPool, queue: u32, flush: u32) -> i32
    ensures { Ranged (flush_of flush) (λ f. DoesOnPool Ok
        (λ p. on_queues p (queues.flushq (capped_number queue) f (queued_blocks_of p))))
        pool.old.at.named pool.new.at.named result tt tt }
{
    let Some(named) = pool.named_mut() else {
        return Code::NotOpen.number();
    };
    let Some(flush) = flush_of(flush) else {
        return Code::BadArgument.number();
    };
    let answer = named.flushq(capped_number(queue), flush);
    number(coded_refusal(answer))
}

/// Frees messages of one band of a queue. As [`NamedPool::flushband`] of strm_named. A band above 255, or a number of no flush,
/// is a `BadArgument`.
#[unsafe(no_mangle)]
pub extern "C" fn strm_c_flushband(pool: &mut StrmPool, queue: u32, band: u32, flush: u32) -> i32
    ensures { Ranged (band_of band) (λ b. Ranged (flush_of flush)
        (λ f. DoesOnPool Ok (λ p. on_queues p (queues.flushband (capped_number queue) b f (queued_blocks_of p)))))
        pool.old.at.named pool.new.at.named result tt tt }
{
    let Some(named) = pool.named_mut() else {
        return Code::NotOpen.number();
    };
    let Some(band) = band_of(band) else {
        return Code::BadArgument.number();
    };
    let Some(flush) = flush_of(flush) else {
        return Code::BadArgument.number();
    };
    let answer = named.flushband(capped_number(queue), band, flush);
    number(coded_refusal(answer))
}
