//! Calls on several messages at once: single calls, one after another, up to the first that does not return 0.
ghost use Rattle.std.specs.Prelude.{◌≡◌, Some, length, map, replicate};
ghost use Rattle.strm_c.specs.InC.{capped_number};
ghost use Rattle.strm_c.specs.Series as series;
ghost use Rattle.strm_c.specs.Series.{DoesEach, GivesEach, MakesEach, SpendsEach, array_after, array_with_stored, series_of, stopped};

use crate::answer::{coded, coded_any, put};
use crate::code::Code;
use crate::handle::StrmPool;
use crate::numbers::capped_number;
use strm_named::{Name, NamedPool};
use strm_pool::BurstPlace;

// What a series returns after this number of calls that returned 0, and one that returned a code.
fn stopped(done: usize, code: Code) -> Result<usize, Code>
    ensures { result ≡ stopped done code }
{
    if done == 0 { Err(code) } else { Ok(done) }
}

// Makes messages, and stores their names in an array. Returns their number, or why the first is not made. It chooses a class
// again only once the last one has run dry.
fn allocb_each(named: &mut NamedPool, size: u32, msgs: &mut [Name]) -> Result<usize, Code>
    ensures makes { MakesEach (replicate (length msgs.old) (series.allocb size)) named.old named.new result }
    ensures names { msgs.new ≡ array_with_stored
        (series_of (replicate (length msgs.old) (series.allocb size)) named.old) msgs.old }
    ensures valid { GivesEach (replicate (length msgs.old) (series.allocb size)) (Some named.old) (Some named.new) }
{
    let mut place = 0;
    while place < msgs.len() {
        let mut supply = match named.pool().supply(size) {
            Ok(found) => found,
            Err(why) => return stopped(place, Code::Refused(why)),
        };
        let end = place + (msgs.len() - place).min(supply.count as usize);
        for at in place..end {
            named.lawful();
            msgs[at] = named.allocb_from(size, supply);
            supply.count -= 1;
        }
        place = end;
    }
    Ok(msgs.len())
}

// Frees these messages. Returns their number, or why the first is not freed.
fn freemsg_each(named: &mut NamedPool, msgs: &[Name]) -> Result<usize, Code>
    ensures makes { MakesEach (map series.freemsg msgs.now) named.old named.new result }
    ensures spent { SpendsEach series.freemsg msgs.now (Some named.old) (Some named.new) }
{
    for place in 0..msgs.len() {
        match coded(named.freemsg(msgs[place])) {
            Ok(()) => (),
            Err(code) => return stopped(place, code),
        }
    }
    Ok(msgs.len())
}

// Puts these messages on a queue. Returns their number, or why the first is not put. Where one of a band follows another, it
// takes the place after it.
fn putq_each(named: &mut NamedPool, number: u32, msgs: &[Name]) -> Result<usize, Code>
    ensures makes { MakesEach (map (series.putq (capped_number number)) msgs.now) named.old named.new result }
    ensures spent { SpendsEach (series.putq (capped_number number)) msgs.now (Some named.old) (Some named.new) }
{
    let queue = capped_number(number);
    let mut burst = BurstPlace::new();
    for place in 0..msgs.len() {
        match coded(named.putq_in_burst(queue, &mut burst, msgs[place])) {
            Ok(()) => (),
            Err(code) => return stopped(place, code),
        }
    }
    Ok(msgs.len())
}

// Takes messages off a queue, and stores their names in an array. Returns their number, or why none is taken. After each message it takes
// those of the same rank together.
fn getq_each(named: &mut NamedPool, number: u32, msgs: &mut [Name]) -> Result<usize, Code>
    ensures makes { MakesEach (replicate (length msgs.old) (series.getq (capped_number number)))
        named.old named.new result }
    ensures names { msgs.new ≡ array_with_stored
        (series_of (replicate (length msgs.old) (series.getq (capped_number number))) named.old) msgs.old }
    ensures valid { GivesEach (replicate (length msgs.old) (series.getq (capped_number number)))
        (Some named.old) (Some named.new) }
{
    let queue = capped_number(number);
    let mut taken = 0;
    while taken < msgs.len() {
        named.lawful();
        match coded_any(named.getq(queue)) {
            Ok(msg) => msgs[taken] = msg,
            Err(code) => return stopped(taken, code),
        }
        taken = named.getq_run(queue, msgs, taken + 1);
    }
    Ok(msgs.len())
}

/// Makes messages for a size, stores their names in an array, and their number in `count`. Each as `strm_c_allocb`.
#[unsafe(no_mangle)]
pub extern "C" fn strm_c_allocb_n(
    pool: &mut StrmPool,
    size: u32,
    msgs: &mut [Name],
    count: &mut usize,
) -> i32
    ensures count { DoesEach (replicate (length msgs.old) (series.allocb size))
        pool.old.at.named pool.new.at.named result count.old count.new }
    ensures names { msgs.new ≡ array_after (replicate (length msgs.old) (series.allocb size))
        pool.old.at.named msgs.old }
    ensures valid { GivesEach (replicate (length msgs.old) (series.allocb size)) pool.old.at.named pool.new.at.named }
{
    let Some(named) = pool.named_mut() else {
        return Code::NotOpen.number();
    };
    let answer = allocb_each(named, size, msgs);
    put(answer, count)
}

/// Frees messages, and stores their number in `count`. Each as `strm_c_freemsg`.
#[unsafe(no_mangle)]
pub extern "C" fn strm_c_freemsg_n(pool: &mut StrmPool, msgs: &[Name], count: &mut usize) -> i32
    ensures count { DoesEach (map series.freemsg msgs.now)
        pool.old.at.named pool.new.at.named result count.old count.new }
    ensures spent { SpendsEach series.freemsg msgs.now pool.old.at.named pool.new.at.named }
{
    let Some(named) = pool.named_mut() else {
        return Code::NotOpen.number();
    };
    let answer = freemsg_each(named, msgs);
    put(answer, count)
}

/// Puts messages on a queue, and stores their number in `count`. Each as `strm_c_putq`.
#[unsafe(no_mangle)]
pub extern "C" fn strm_c_putq_n(
    pool: &mut StrmPool,
    queue: u32,
    msgs: &[Name],
    count: &mut usize,
) -> i32
    ensures count { DoesEach (map (series.putq (capped_number queue)) msgs.now)
        pool.old.at.named pool.new.at.named result count.old count.new }
    ensures spent { SpendsEach (series.putq (capped_number queue)) msgs.now pool.old.at.named pool.new.at.named }
{
    let Some(named) = pool.named_mut() else {
        return Code::NotOpen.number();
    };
    let answer = putq_each(named, queue, msgs);
    put(answer, count)
}

/// Takes messages off a queue, stores their names in an array, and their number in `count`. Each as `strm_c_getq`.
#[unsafe(no_mangle)]
pub extern "C" fn strm_c_getq_n(
    pool: &mut StrmPool,
    queue: u32,
    msgs: &mut [Name],
    count: &mut usize,
) -> i32
    ensures count { DoesEach (replicate (length msgs.old) (series.getq (capped_number queue)))
        pool.old.at.named pool.new.at.named result count.old count.new }
    ensures names { msgs.new ≡ array_after (replicate (length msgs.old) (series.getq (capped_number queue)))
        pool.old.at.named msgs.old }
    ensures valid { GivesEach (replicate (length msgs.old) (series.getq (capped_number queue)))
        pool.old.at.named pool.new.at.named }
{
    let Some(named) = pool.named_mut() else {
        return Code::NotOpen.number();
    };
    let answer = getq_each(named, queue, msgs);
    put(answer, count)
}
