//! Calls on wishes for message blocks.
ghost use Rattle.std.specs.Prelude.{◌≡◌, Ok, option_map};
ghost use Rattle.strm_pool.specs.Wishes as wishes;
ghost use Rattle.strm_c.specs.Codes.{any_or_nothing};
ghost use Rattle.strm_c.specs.Exports.{Asks, DoesOnPool, Takes};
ghost use Rattle.strm_c.specs.InC.{wish_in_c};

use crate::answer::{coded_refusal, number, present, put};
use crate::code::Code;
use crate::handle::StrmPool;
use crate::layout::StrmWish;
use crate::reader::StrmReader;

/// Records a wish for a size, and stores its id in `id`. As [`NamedPool::bufcall`] of strm_named.
#[unsafe(no_mangle)]
pub extern "C" fn strm_c_bufcall(pool: &mut StrmPool, size: u32, id: &mut u32) -> i32
    ensures { DoesOnPool Ok (wishes.bufcall size) pool.old.at.named pool.new.at.named result id.old id.new }
{
    let Some(named) = pool.named_mut() else {
        return Code::NotOpen.number();
    };
    let answer = named.bufcall(size);
    put(coded_refusal(answer), id)
}

/// Removes the wish with an id. As [`NamedPool::unbufcall`] of strm_named.
#[unsafe(no_mangle)]
pub extern "C" fn strm_c_unbufcall(pool: &mut StrmPool, id: u32) -> i32
    ensures { DoesOnPool Ok (wishes.unbufcall id) pool.old.at.named pool.new.at.named result tt tt }
{
    let Some(named) = pool.named_mut() else {
        return Code::NotOpen.number();
    };
    let answer = named.unbufcall(id);
    number(coded_refusal(answer))
}

/// Removes the earliest wish that `allocb` could serve now, and stores it in `wish`. As [`NamedPool::take_ready`] of
/// strm_named. Returns `Nothing` if there is none.
#[unsafe(no_mangle)]
pub extern "C" fn strm_c_take_ready(pool: &mut StrmPool, wish: &mut StrmWish) -> i32
    ensures { Takes (λ w. any_or_nothing (option_map wish_in_c w)) wishes.take_ready
        pool.old.at.named pool.new.at.named result wish.old wish.new }
{
    let Some(named) = pool.named_mut() else {
        return Code::NotOpen.number();
    };
    let answer = named.take_ready();
    put(present(answer.map(StrmWish::of)), wish)
}

/// Stores the wish at a place in `wish`. As [`Pool::wish_at`] of strm_pool. Returns `Nothing` if there are fewer wishes.
#[unsafe(no_mangle)]
pub extern "C" fn strm_c_wish_at(pool: &mut StrmReader, place: u32, wish: &mut StrmWish) -> i32
    ensures answer { Asks (λ v. any_or_nothing (option_map wish_in_c (wishes.wish_at place v.pool)))
        pool.old.at.named pool.new.at.named result wish.old wish.new }
    ensures same { pool.new ≡ pool.old }
{
    let Some(view) = pool.view() else {
        return Code::NotOpen.number();
    };
    let answer = view.named().pool().wish_at(place);
    put(present(answer.map(StrmWish::of)), wish)
}
