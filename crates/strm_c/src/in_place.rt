//! Calls on bytes where they are, and on the places of a message's blocks.
ghost use Rattle.std.specs.Prelude.{◌≡◌, [], Ok, length, option_map};
ghost use Rattle.std.specs.List.{list_all};
ghost use Rattle.std.specs.Option.{option_map_or};
ghost use Rattle.strm_data.specs.DataStore.{class_region};
ghost use Rattle.strm_mblk.specs.InPlace as in_place;
ghost use Rattle.strm_queue.specs.QueueLooks as looks;
ghost use Rattle.strm_pool.specs.PoolValue.{on_arena, queued_blocks_of};
ghost use Rattle.strm_named.specs.NamedCalls.{asked, no_message, on_name};
ghost use Rattle.strm_c.specs.Codes.{answer_of_result, any_or_nothing};
ghost use Rattle.strm_c.specs.Exports.{Asks, CallsNamed, Ranged};
ghost use Rattle.strm_c.specs.InC.{capped_number, is_shape, place_in_c, shapes_of, stride_of};
ghost use Rattle.strm_c.specs.InPlace.{AsksAddress, number_lent, number_queued};

use crate::address::address_of;
use crate::answer::{coded, number, put};
use crate::code::Code;
use crate::handle::StrmPool;
use crate::layout::{StrmBlockPlace, StrmBlockShape};
use crate::numbers::capped_number;
use crate::reader::StrmReader;
use strm_named::Name;
use strm_pool::ClassInfo;

// The number of bytes of each data block of a class, if there is such a class.
fn stride_of(class: Option<ClassInfo>) -> usize
    ensures { result ≡ option_map_or (λ c. c.size) class 0 }
{
    match class {
        Some(info) => info.size as usize,
        None => 0,
    }
}

/// Stores the address of a block's bytes in `bytes`, and their number in `length`. As [`NamedPool::bytes`] of strm_named. The
/// bytes stay there until the next call that is no look (strm.h).
#[unsafe(no_mangle)]
pub extern "C" fn strm_c_bytes(
    pool: &mut StrmReader,
    msg: Name,
    place: u32,
    bytes: &mut *const u8,
    length: &mut usize,
) -> i32
    ensures length { Asks (λ v. number_lent (asked v msg (in_place.bytes msg.head place v.pool.arena)))
        pool.old.at.named pool.new.at.named result length.old length.new }
    ensures bytes { AsksAddress (λ v. number_lent (asked v msg (in_place.bytes msg.head place v.pool.arena)))
        pool.old.at.named bytes.old bytes.new }
    ensures same { pool.new ≡ pool.old }
{
    let Some(view) = pool.view() else {
        return Code::NotOpen.number();
    };
    match view.named().bytes(msg, place) {
        Ok(lent) => {
            *bytes = address_of(lent);
            *length = lent.len();
            0
        }
        Err(fault) => Code::of(fault).number(),
    }
}

/// Stores the address of the bytes of all data blocks of a size class in `base`, their number in `size`, and the number of
/// those of a data block in `stride`. As [`Blocks::region`] of strm_mblk. Returns `Nothing` if there is no such class.
#[unsafe(no_mangle)]
pub extern "C" fn strm_c_region(
    pool: &mut StrmReader,
    place: u32,
    base: &mut *const u8,
    size: &mut usize,
    stride: &mut usize,
) -> i32
    ensures size { Asks (λ v. any_or_nothing (option_map (λ bytes. length bytes)
        (class_region (capped_number place) v.pool.arena.store)))
        pool.old.at.named pool.new.at.named result size.old size.new }
    ensures stride { Asks (λ v. any_or_nothing (option_map (λ bytes. stride_of (capped_number place) v.pool.arena.store)
        (class_region (capped_number place) v.pool.arena.store)))
        pool.old.at.named pool.new.at.named result stride.old stride.new }
    ensures base { AsksAddress (λ v. any_or_nothing (class_region (capped_number place) v.pool.arena.store))
        pool.old.at.named base.old base.new }
    ensures same { pool.new ≡ pool.old }
{
    let Some(view) = pool.view() else {
        return Code::NotOpen.number();
    };
    let class = capped_number(place);
    let blocks = view.named().pool().blocks();
    let info = blocks.class_info(class);
    match blocks.region(class) {
        Some(bytes) => {
            *base = address_of(bytes);
            *size = bytes.len();
            *stride = stride_of(info);
            0
        }
        None => Code::Nothing.number(),
    }
}

/// Stores the address of the bytes of a block of a queued message in `bytes`, and their number in `length`. As
/// [`Pool::queued_bytes`] of strm_pool. The bytes stay there as those of `strm_c_bytes`.
#[unsafe(no_mangle)]
pub extern "C" fn strm_c_queued_bytes(
    pool: &mut StrmReader,
    head: u32,
    place: u32,
    bytes: &mut *const u8,
    length: &mut usize,
) -> i32
    ensures length { Asks (λ v. number_queued (looks.queued_bytes head place (queued_blocks_of v.pool)))
        pool.old.at.named pool.new.at.named result length.old length.new }
    ensures bytes { AsksAddress (λ v. number_queued (looks.queued_bytes head place (queued_blocks_of v.pool)))
        pool.old.at.named bytes.old bytes.new }
    ensures same { pool.new ≡ pool.old }
{
    let Some(view) = pool.view() else {
        return Code::NotOpen.number();
    };
    match view.named().pool().queued_bytes(head, place) {
        Ok(lent) => {
            *bytes = address_of(lent);
            *length = lent.len();
            0
        }
        Err(why) => Code::Refused(why).number(),
    }
}

/// Stores the data block of a block, and where its bytes are, in `found`. As [`NamedPool::place`] of strm_named.
#[unsafe(no_mangle)]
pub extern "C" fn strm_c_place(
    pool: &mut StrmReader,
    msg: Name,
    place: u32,
    found: &mut StrmBlockPlace,
) -> i32
    ensures answer { Asks (λ v. answer_of_result (λ p. Ok (place_in_c p))
        (asked v msg (in_place.place msg.head place v.pool.arena)))
        pool.old.at.named pool.new.at.named result found.old found.new }
    ensures same { pool.new ≡ pool.old }
{
    let Some(view) = pool.view() else {
        return Code::NotOpen.number();
    };
    let answer = view.named().place(msg, place);
    put(coded(answer).map(StrmBlockPlace::of), found)
}

/// Writes bytes over those of a message. As [`NamedPool::overwrite`] of strm_named.
#[unsafe(no_mangle)]
pub extern "C" fn strm_c_overwrite(pool: &mut StrmPool, msg: Name, at: u32, bytes: &[u8]) -> i32
    ensures { CallsNamed no_message Ok (λ v. on_name v msg
        (on_arena v.pool (in_place.overwrite msg.head at bytes.now v.pool.arena)))
        [] pool.old.at.named pool.new.at.named result tt tt }
{
    let Some(named) = pool.named_mut() else {
        return Code::NotOpen.number();
    };
    let answer = named.overwrite(msg, at, bytes);
    number(coded(answer))
}

/// Leaves room before the bytes to come of an empty block. As [`NamedPool::reserve`] of strm_named.
#[unsafe(no_mangle)]
pub extern "C" fn strm_c_reserve(pool: &mut StrmPool, msg: Name, place: u32, count: u32) -> i32
    ensures { CallsNamed no_message Ok (λ v. on_name v msg
        (on_arena v.pool (in_place.reserve msg.head place count v.pool.arena)))
        [] pool.old.at.named pool.new.at.named result tt tt }
{
    let Some(named) = pool.named_mut() else {
        return Code::NotOpen.number();
    };
    let answer = named.reserve(msg, place, count);
    number(coded(answer))
}

/// Gives a block the `length` bytes of its data block from byte `at` on. As [`NamedPool::shape`] of strm_named.
#[unsafe(no_mangle)]
pub extern "C" fn strm_c_shape(
    pool: &mut StrmPool,
    msg: Name,
    place: u32,
    at: u32,
    length: u32,
) -> i32
    ensures { CallsNamed no_message Ok (λ v. on_name v msg
        (on_arena v.pool (in_place.shape msg.head place at length v.pool.arena)))
        [] pool.old.at.named pool.new.at.named result tt tt }
{
    let Some(named) = pool.named_mut() else {
        return Code::NotOpen.number();
    };
    let answer = named.shape(msg, place, at, length);
    number(coded(answer))
}

// Whether all of these are shapes.
fn are_shapes(shapes: &[StrmBlockShape]) -> bool
    ensures { result ≡ list_all is_shape shapes.now }
{
    shapes.iter().all(|shape| shape.is_shape())
}

/// Gives the first blocks of a message these shapes. As [`NamedPool::shape_all`] of strm_named. A number of no type or band is
/// a `BadArgument`.
#[unsafe(no_mangle)]
pub extern "C" fn strm_c_shape_all(pool: &mut StrmPool, msg: Name, shapes: &[StrmBlockShape]) -> i32
    ensures { Ranged (shapes_of shapes.now) (λ xs. CallsNamed no_message Ok (λ v. on_name v msg
        (on_arena v.pool (in_place.shape_all msg.head xs v.pool.arena)))
        []) pool.old.at.named pool.new.at.named result tt tt }
{
    let Some(named) = pool.named_mut() else {
        return Code::NotOpen.number();
    };
    if !are_shapes(shapes) {
        return Code::BadArgument.number();
    }
    let answer = named.shape_all(msg, shapes);
    number(coded(answer))
}

/// Puts bytes before those of a message's first block. As [`NamedPool::prepend`] of strm_named.
#[unsafe(no_mangle)]
pub extern "C" fn strm_c_prepend(pool: &mut StrmPool, msg: Name, bytes: &[u8]) -> i32
    ensures { CallsNamed no_message Ok (λ v. on_name v msg
        (on_arena v.pool (in_place.prepend msg.head bytes.now v.pool.arena)))
        [] pool.old.at.named pool.new.at.named result tt tt }
{
    let Some(named) = pool.named_mut() else {
        return Code::NotOpen.number();
    };
    let answer = named.prepend(msg, bytes);
    number(coded(answer))
}

/// Moves the write place of a block over bytes that its data block has there. As [`NamedPool::advance`] of strm_named.
#[unsafe(no_mangle)]
pub extern "C" fn strm_c_advance(pool: &mut StrmPool, msg: Name, place: u32, count: u32) -> i32
    ensures { CallsNamed no_message Ok (λ v. on_name v msg
        (on_arena v.pool (in_place.advance msg.head place count v.pool.arena)))
        [] pool.old.at.named pool.new.at.named result tt tt }
{
    let Some(named) = pool.named_mut() else {
        return Code::NotOpen.number();
    };
    let answer = named.advance(msg, place, count);
    number(coded(answer))
}
