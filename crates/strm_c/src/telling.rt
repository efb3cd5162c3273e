//! Calls that read counts and marks of a pool.
ghost use Rattle.std.specs.Prelude.{◌≡◌, Ok, option_map, slice_get};
ghost use Rattle.strm_data.specs.DataStore.{class_infos};
ghost use Rattle.strm_mblk.specs.Arena.{census_of};
ghost use Rattle.strm_mblk.specs.Given.{answer_of};
ghost use Rattle.strm_queue.specs.QueueCalls as queues;
ghost use Rattle.strm_pool.specs.PoolValue.{queued_blocks_of};
ghost use Rattle.strm_c.specs.Codes.{any_or_nothing, answer_of_refusable};
ghost use Rattle.strm_c.specs.Exports.{Asks, Ranged};
ghost use Rattle.strm_c.specs.InC.{band_in_c, band_of, capped_number, census_in_c, class_in_c, queue_in_c};

use crate::answer::{coded_refusal, present, put};
use crate::code::Code;
use crate::layout::{StrmBandInfo, StrmCensus, StrmClassInfo, StrmQueueInfo};
use crate::numbers::{band_of, capped_number};
use crate::reader::StrmReader;

/// Stores the numbers of free, queued and held message blocks in `census`. As [`Pool::census`] of strm_pool.
#[unsafe(no_mangle)]
pub extern "C" fn strm_c_census(pool: &mut StrmReader, census: &mut StrmCensus) -> i32
    ensures answer { Asks (λ v. Ok (census_in_c (census_of v.pool.arena)))
        pool.old.at.named pool.new.at.named result census.old census.new }
    ensures same { pool.new ≡ pool.old }
{
    let Some(view) = pool.view() else {
        return Code::NotOpen.number();
    };
    let answer = view.named().pool().census();
    put(Ok(StrmCensus::of(answer)), census)
}

/// Stores the counts of a size class in `info`. As [`Pool::class_info`] of strm_pool. Returns `Nothing` if there is no
/// such class.
#[unsafe(no_mangle)]
pub extern "C" fn strm_c_class_info(
    pool: &mut StrmReader,
    place: u32,
    info: &mut StrmClassInfo,
) -> i32
    ensures answer { Asks (λ v. any_or_nothing (option_map class_in_c
        (slice_get (class_infos v.pool.arena.store) (capped_number place))))
        pool.old.at.named pool.new.at.named result info.old info.new }
    ensures same { pool.new ≡ pool.old }
{
    let Some(view) = pool.view() else {
        return Code::NotOpen.number();
    };
    let answer = view.named().pool().class_info(capped_number(place));
    put(present(answer.map(StrmClassInfo::of)), info)
}

/// Stores the counts and marks of a queue in `info`. As [`Pool::queue_info`] of strm_pool.
#[unsafe(no_mangle)]
pub extern "C" fn strm_c_queue_info(
    pool: &mut StrmReader,
    queue: u32,
    info: &mut StrmQueueInfo,
) -> i32
    ensures answer { Asks (λ v. answer_of_refusable (λ i. Ok (queue_in_c i))
        (answer_of (queues.queue_info (capped_number queue) (queued_blocks_of v.pool))))
        pool.old.at.named pool.new.at.named result info.old info.new }
    ensures same { pool.new ≡ pool.old }
{
    let Some(view) = pool.view() else {
        return Code::NotOpen.number();
    };
    let answer = view.named().pool().queue_info(capped_number(queue));
    put(coded_refusal(answer).map(StrmQueueInfo::of), info)
}

/// Stores the bytes and marks of a band in `info`. As [`Pool::band_info`] of strm_pool. A band above 255 is a
/// `BadArgument`.
#[unsafe(no_mangle)]
pub extern "C" fn strm_c_band_info(
    pool: &mut StrmReader,
    queue: u32,
    band: u32,
    info: &mut StrmBandInfo,
) -> i32
    ensures answer { Ranged (band_of band) (λ b. Asks
        (λ v. answer_of_refusable (λ i. Ok (band_in_c i))
        (answer_of (queues.band_info (capped_number queue) b (queued_blocks_of v.pool)))))
        pool.old.at.named pool.new.at.named result info.old info.new }
    ensures same { pool.new ≡ pool.old }
{
    let Some(view) = pool.view() else {
        return Code::NotOpen.number();
    };
    let Some(band) = band_of(band) else {
        return Code::BadArgument.number();
    };
    let answer = view.named().pool().band_info(capped_number(queue), band);
    put(coded_refusal(answer).map(StrmBandInfo::of), info)
}
