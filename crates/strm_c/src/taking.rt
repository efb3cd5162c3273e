//! Calls that take what a flush would free off a queue, so that a program looks at it first.
ghost use Rattle.std.specs.Prelude.{◌≡◌, [], Ok, length};
ghost use Rattle.std.specs.Option.{option_zip};
ghost use Rattle.strm_named.specs.NamedCalls.{some_messages, take_flushed, take_flushed_band};
ghost use Rattle.strm_c.specs.Codes.{answer_of_result};
ghost use Rattle.strm_c.specs.Exports.{CallsNamed, Ranged, array_with_names};
ghost use Rattle.strm_c.specs.InC.{band_of, capped_number, flush_of};

use crate::answer::put;
use crate::code::Code;
use crate::handle::StrmPool;
use crate::numbers::{band_of, capped_number, flush_of};
use strm_named::{Fault, Name};

// An answer that counts messages, with a code for its fault.
fn counted(answer: Result<u32, Fault>) -> Result<usize, Code>
    ensures { result ≡ answer_of_result Ok answer }
{
    match answer {
        Ok(count) => Ok(count as usize),
        Err(fault) => Err(Code::of(fault)),
    }
}

/// Takes the messages that `strm_c_flushq` would free off a queue, as many as `msgs` has room for, and stores their names
/// there, and their number in `count`. As [`NamedPool::take_flushed`] of strm_named.
#[unsafe(no_mangle)]
pub extern "C" fn strm_c_takeq(
    pool: &mut StrmPool,
    queue: u32,
    flush: u32,
    msgs: &mut [Name],
    count: &mut usize,
) -> i32
    ensures count { Ranged (flush_of flush) (λ f. CallsNamed some_messages Ok
        (λ v. take_flushed (capped_number queue) f (length msgs.old) v) [])
        pool.old.at.named pool.new.at.named result count.old count.new }
    ensures names { msgs.new ≡ array_with_names some_messages (flush_of flush)
        (λ f. take_flushed (capped_number queue) f (length msgs.old)) pool.old.at.named pool.new.at.named msgs.old }
{
    let Some(named) = pool.named_mut() else {
        return Code::NotOpen.number();
    };
    let Some(flush) = flush_of(flush) else {
        return Code::BadArgument.number();
    };
    let answer = named.take_flushed(capped_number(queue), flush, msgs);
    put(counted(answer), count)
}

/// Takes the messages that `strm_c_flushband` would free off a queue, as `strm_c_takeq` does. As
/// [`NamedPool::take_flushed_band`] of strm_named.
#[unsafe(no_mangle)]
pub extern "C" fn strm_c_takeq_band(
    pool: &mut StrmPool,
    queue: u32,
    band: u32,
    flush: u32,
    msgs: &mut [Name],
    count: &mut usize,
) -> i32
    ensures count { Ranged (option_zip (band_of band) (flush_of flush)) (λ p. CallsNamed some_messages Ok
        (λ v. take_flushed_band (capped_number queue) p.0 p.1 (length msgs.old) v) [])
        pool.old.at.named pool.new.at.named result count.old count.new }
    ensures names { msgs.new ≡ array_with_names some_messages (option_zip (band_of band) (flush_of flush))
        (λ p. take_flushed_band (capped_number queue) p.0 p.1 (length msgs.old))
        pool.old.at.named pool.new.at.named msgs.old }
{
    let Some(named) = pool.named_mut() else {
        return Code::NotOpen.number();
    };
    let Some((band, flush)) = band_of(band).zip(flush_of(flush)) else {
        return Code::BadArgument.number();
    };
    let answer = named.take_flushed_band(capped_number(queue), band, flush, msgs);
    put(counted(answer), count)
}
