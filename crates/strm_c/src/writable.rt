//! Calls that find where bytes of a message are, so that a program in C can write there. They change nothing themselves.
ghost use Rattle.std.specs.Prelude.{◌≡◌, IfOk, Ok, length};
ghost use Rattle.strm_mblk.specs.InPlace as in_place;
ghost use Rattle.strm_named.specs.NamedCalls.{asked};
ghost use Rattle.strm_c.specs.Codes.{answer_of_result, number_returned, value_written};
ghost use Rattle.strm_c.specs.Exports.{Asks};
ghost use Rattle.strm_c.specs.InPlace.{AsksAddress, Finds, IsAddress, number_lent};

use crate::address::mut_address_of;
use crate::code::Code;
use crate::handle::StrmPool;
use strm_named::{Fault, Name, NamedPool};

// Where lent bytes are, and their number.
fn place_of(bytes: &mut [u8]) -> (*mut u8, usize)
    ensures address { IsAddress result.0 }
    ensures length { result.1 ≡ length bytes.old }
    ensures same { bytes.new ≡ bytes.old }
{
    (mut_address_of(bytes), bytes.len())
}

// Where lent bytes end. They stay as they are.
fn end_of(bytes: &mut [u8]) -> *mut u8
    ensures address { IsAddress result }
    ensures same { bytes.new ≡ bytes.old }
{
    let count = bytes.len();
    mut_address_of(&mut bytes[count..])
}

// The number of bytes after the write place of a block that may be written.
fn count_of_room(named: &NamedPool, msg: Name, place: u32) -> usize
    ensures { IfOk (asked named.now msg (in_place.bytes_to_fill msg.head place named.now.pool.arena))
        (λ lent. result ≡ length lent) }
{
    match named.place(msg, place) {
        Ok(found) => {
            let after = found.capacity.saturating_sub(found.at);
            let room = after.saturating_sub(found.len);
            room as usize
        }
        Err(_) => 0,
    }
}

// Where the room after the write place of a block is: where its bytes end.
fn room(named: &mut NamedPool, msg: Name, place: u32) -> Result<(*mut u8, usize), Fault>
    ensures { Finds (asked named.old msg (in_place.bytes_to_fill msg.head place named.old.pool.arena))
        named.old named.new result }
{
    let count = count_of_room(named, msg, place);
    named.edit(msg, place, |lent| (end_of(lent), count))
}

// Where the bytes of a block are.
fn bytes(named: &mut NamedPool, msg: Name, place: u32) -> Result<(*mut u8, usize), Fault>
    ensures { Finds (asked named.old msg (in_place.bytes_to_edit msg.head place named.old.pool.arena))
        named.old named.new result }
{
    named.edit(msg, place, place_of)
}

// Where the bytes of a block's data block are.
fn window(named: &mut NamedPool, msg: Name, place: u32) -> Result<(*mut u8, usize), Fault>
    ensures { Finds (asked named.old msg (in_place.bytes_of_window msg.head place named.old.pool.arena))
        named.old named.new result }
{
    named.window(msg, place, place_of)
}

// Stores through pointers of C where bytes are, and their number, and returns 0; or returns the code and stores nothing.
fn put_place(found: Result<(*mut u8, usize), Fault>, at: &mut *mut u8, length: &mut usize) -> i32
    ensures number { result ≡ number_returned (answer_of_result (λ f. Ok f.1) found) }
    ensures length { length.new ≡ value_written length.old (answer_of_result (λ f. Ok f.1) found) }
    ensures at { at.new ≡ value_written at.old (answer_of_result (λ f. Ok f.0) found) }
{
    match found {
        Ok((address, count)) => {
            *at = address;
            *length = count;
            0
        }
        Err(fault) => Code::of(fault).number(),
    }
}

/// Stores the address of the room after a block's write place in `at`, and its number of bytes in `length`. As
/// [`NamedPool::fill`] of strm_named with a closure that takes no byte. strm.h says until when a program may write there.
#[unsafe(no_mangle)]
pub extern "C" fn strm_c_room(
    pool: &mut StrmPool,
    msg: Name,
    place: u32,
    at: &mut *mut u8,
    length: &mut usize,
) -> i32
    ensures length { Asks (λ v. number_lent (asked v msg (in_place.bytes_to_fill msg.head place v.pool.arena)))
        pool.old.at.named pool.new.at.named result length.old length.new }
    ensures at { AsksAddress (λ v. number_lent (asked v msg (in_place.bytes_to_fill msg.head place v.pool.arena)))
        pool.old.at.named at.old at.new }
{
    let Some(named) = pool.named_mut() else {
        return Code::NotOpen.number();
    };
    let found = room(named, msg, place);
    put_place(found, at, length)
}

/// Stores the address of a block's bytes in `at`, and their number in `length`, for a program that changes them there. As
/// [`NamedPool::edit`] of strm_named with a closure that changes nothing.
#[unsafe(no_mangle)]
pub extern "C" fn strm_c_edit(
    pool: &mut StrmPool,
    msg: Name,
    place: u32,
    at: &mut *mut u8,
    length: &mut usize,
) -> i32
    ensures length { Asks (λ v. number_lent (asked v msg (in_place.bytes_to_edit msg.head place v.pool.arena)))
        pool.old.at.named pool.new.at.named result length.old length.new }
    ensures at { AsksAddress (λ v. number_lent (asked v msg (in_place.bytes_to_edit msg.head place v.pool.arena)))
        pool.old.at.named at.old at.new }
{
    let Some(named) = pool.named_mut() else {
        return Code::NotOpen.number();
    };
    let found = bytes(named, msg, place);
    put_place(found, at, length)
}

/// Stores the address of the bytes of a block's data block in `base`, and their number in `capacity`. As [`NamedPool::window`]
/// of strm_named with a closure that changes nothing.
#[unsafe(no_mangle)]
pub extern "C" fn strm_c_window(
    pool: &mut StrmPool,
    msg: Name,
    place: u32,
    base: &mut *mut u8,
    capacity: &mut usize,
) -> i32
    ensures capacity { Asks (λ v. number_lent (asked v msg (in_place.bytes_of_window msg.head place v.pool.arena)))
        pool.old.at.named pool.new.at.named result capacity.old capacity.new }
    ensures base { AsksAddress (λ v. number_lent (asked v msg (in_place.bytes_of_window msg.head place v.pool.arena)))
        pool.old.at.named base.old base.new }
{
    let Some(named) = pool.named_mut() else {
        return Code::NotOpen.number();
    };
    let found = window(named, msg, place);
    put_place(found, base, capacity)
}
