//! Calls on flow control and on the run list.
ghost use Rattle.std.specs.Prelude.{◌≡◌, [], ◌∷◌, Ok};
ghost use Rattle.strm_mblk.specs.Given.{answer_of};
ghost use Rattle.strm_queue.specs.QueueCalls as queues;
ghost use Rattle.strm_pool.specs.PoolValue.{on_queues, queued_blocks_of, with_queued};
ghost use Rattle.strm_scheduler.specs.Laws.{hold};
ghost use Rattle.strm_named.specs.NamedCalls.{no_message, on_name};
ghost use Rattle.strm_c.specs.Codes.{any_or_nothing, answer_of_refusable};
ghost use Rattle.strm_c.specs.Exports.{Asks, CallsNamed, DoesOnPool, KeepsAwake, Ranged, ServesHeld, Takes};
ghost use Rattle.strm_c.specs.InC.{band_of, flag, marks_in_c, capped_number};

use crate::answer::{coded, coded_refusal, number, present, put};
use crate::code::Code;
use crate::handle::StrmPool;
use crate::layout::{StrmMarks, StrmService};
use crate::msg::StrmMsg;
use crate::numbers::{band_of, capped_number};
use crate::reader::StrmReader;
use strm_named::Name;

/// Stores 1 in `yes` if a band has room at the target of a queue, otherwise 0. As [`NamedPool::bcanput`] of strm_named. A band
/// above 255 is a `BadArgument`.
#[unsafe(no_mangle)]
pub extern "C" fn strm_c_bcanput(pool: &mut StrmPool, queue: u32, band: u32, yes: &mut u32) -> i32
    ensures { Ranged (band_of band) (λ b. DoesOnPool (λ y. Ok (flag y))
        (λ p. on_queues p (queues.bcanput (capped_number queue) b (queued_blocks_of p))))
        pool.old.at.named pool.new.at.named result yes.old yes.new }
{
    let Some(named) = pool.named_mut() else {
        return Code::NotOpen.number();
    };
    let Some(band) = band_of(band) else {
        return Code::BadArgument.number();
    };
    let answer = named.bcanput(capped_number(queue), band);
    put(coded_refusal(answer).map(u32::from), yes)
}

/// Sets both water marks of a band. As [`NamedPool::strqset`] of strm_named. A band above 255 is a `BadArgument`.
#[unsafe(no_mangle)]
pub extern "C" fn strm_c_strqset(
    pool: &mut StrmPool,
    queue: u32,
    band: u32,
    hiwat: u32,
    lowat: u32,
) -> i32
    ensures { Ranged (band_of band) (λ b. DoesOnPool Ok
        (λ p. on_queues p (queues.strqset (capped_number queue) b hiwat lowat (queued_blocks_of p))))
        pool.old.at.named pool.new.at.named result tt tt }
{
    let Some(named) = pool.named_mut() else {
        return Code::NotOpen.number();
    };
    let Some(band) = band_of(band) else {
        return Code::BadArgument.number();
    };
    let answer = named.strqset(capped_number(queue), band, hiwat, lowat);
    number(coded_refusal(answer))
}

/// Stores the water marks of a band in `marks`. As [`Pool::strqget`] of strm_pool. A band above 255 is a `BadArgument`.
#[unsafe(no_mangle)]
pub extern "C" fn strm_c_strqget(
    pool: &mut StrmReader,
    queue: u32,
    band: u32,
    marks: &mut StrmMarks,
) -> i32
    ensures answer { Ranged (band_of band) (λ b. Asks
        (λ v. answer_of_refusable (λ m. Ok (marks_in_c m))
        (answer_of (queues.strqget (capped_number queue) b (queued_blocks_of v.pool)))))
        pool.old.at.named pool.new.at.named result marks.old marks.new }
    ensures same { pool.new ≡ pool.old }
{
    let Some(view) = pool.view() else {
        return Code::NotOpen.number();
    };
    let Some(band) = band_of(band) else {
        return Code::BadArgument.number();
    };
    let answer = view.named().pool().strqget(capped_number(queue), band);
    put(coded_refusal(answer).map(StrmMarks::of), marks)
}

/// Puts a queue at the end of the run list, unless it is on the list or has no service procedure. As [`NamedPool::qenable`] of
/// strm_named.
#[unsafe(no_mangle)]
pub extern "C" fn strm_c_qenable(pool: &mut StrmPool, queue: u32) -> i32
    ensures { DoesOnPool Ok (λ p. on_queues p (queues.qenable (capped_number queue) (queued_blocks_of p)))
        pool.old.at.named pool.new.at.named result tt tt }
{
    let Some(named) = pool.named_mut() else {
        return Code::NotOpen.number();
    };
    let answer = named.qenable(capped_number(queue));
    number(coded_refusal(answer))
}

/// Switches enabling of a queue off. As [`NamedPool::noenable`] of strm_named.
#[unsafe(no_mangle)]
pub extern "C" fn strm_c_noenable(pool: &mut StrmPool, queue: u32) -> i32
    ensures { DoesOnPool Ok (λ p. on_queues p (queues.noenable (capped_number queue) (queued_blocks_of p)))
        pool.old.at.named pool.new.at.named result tt tt }
{
    let Some(named) = pool.named_mut() else {
        return Code::NotOpen.number();
    };
    let answer = named.noenable(capped_number(queue));
    number(coded_refusal(answer))
}

/// Switches enabling of a queue on again. As [`NamedPool::enableok`] of strm_named.
#[unsafe(no_mangle)]
pub extern "C" fn strm_c_enableok(pool: &mut StrmPool, queue: u32) -> i32
    ensures { DoesOnPool Ok (λ p. on_queues p (queues.enableok (capped_number queue) (queued_blocks_of p)))
        pool.old.at.named pool.new.at.named result tt tt }
{
    let Some(named) = pool.named_mut() else {
        return Code::NotOpen.number();
    };
    let answer = named.enableok(capped_number(queue));
    number(coded_refusal(answer))
}

/// Takes the first queue off the run list, and stores its number in `queue`. As [`NamedPool::next_service`] of strm_named.
/// Returns `Nothing` if the list is empty.
#[unsafe(no_mangle)]
pub extern "C" fn strm_c_next_service(pool: &mut StrmPool, queue: &mut u32) -> i32
    ensures { Takes any_or_nothing (λ p. (
      (queues.next_service (queued_blocks_of p)).0,
      with_queued p
          (queues.next_service (queued_blocks_of p)).1,
    ))
        pool.old.at.named pool.new.at.named result queue.old queue.new }
{
    let Some(named) = pool.named_mut() else {
        return Code::NotOpen.number();
    };
    let answer = named.next_service();
    put(present(answer).map(u32::from), queue)
}

/// Stores the number of the queue at a place of the run list in `queue`. As [`Pool::run_at`] of strm_pool. Returns
/// `Nothing` if the list is shorter.
#[unsafe(no_mangle)]
pub extern "C" fn strm_c_run_at(pool: &mut StrmReader, place: u32, queue: &mut u32) -> i32
    ensures answer { Asks (λ v. any_or_nothing (queues.run_at place (queued_blocks_of v.pool)))
        pool.old.at.named pool.new.at.named result queue.old queue.new }
    ensures same { pool.new ≡ pool.old }
{
    let Some(view) = pool.view() else {
        return Code::NotOpen.number();
    };
    let answer = view.named().pool().run_at(place);
    put(present(answer).map(u32::from), queue)
}

/// Serves queues, but for the last `held` ones of the run list, until one gives a message that may go on. Stores the service in
/// `service`, and the message's name in `msg`. As [`NamedPool::serve`] of strm_named. Returns `Nothing` if none gives one.
#[unsafe(no_mangle)]
pub extern "C" fn strm_c_serve(
    pool: &mut StrmPool,
    held: u32,
    service: &mut StrmService,
    msg: &mut StrmMsg,
) -> i32
    ensures { ServesHeld held pool.old.at.named pool.new.at.named result
        (service.old, msg.old) (service.new, msg.new) }
{
    let Some(named) = pool.named_mut() else {
        return Code::NotOpen.number();
    };
    match named.serve(held) {
        Some((given, name)) => {
            *service = StrmService::of(given);
            *msg = StrmMsg::of(name);
            0
        }
        None => Code::Nothing.number(),
    }
}

/// Puts a message back on a queue, and enables the queue. As [`NamedPool::hold`] of strm_named.
#[unsafe(no_mangle)]
pub extern "C" fn strm_c_hold(pool: &mut StrmPool, queue: u32, msg: Name) -> i32
    ensures awake { KeepsAwake pool.old.at.named pool.new.at.named }
    ensures does { CallsNamed no_message Ok (λ v. on_name v msg
        (on_queues v.pool (hold (capped_number queue) msg.head (queued_blocks_of v.pool)))) (msg.head ∷ [])
        pool.old.at.named pool.new.at.named result tt tt }
{
    let Some(named) = pool.named_mut() else {
        return Code::NotOpen.number();
    };
    let answer = named.hold(capped_number(queue), msg);
    number(coded(answer))
}
