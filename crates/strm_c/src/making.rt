//! Calls that make messages and store their names, and calls that free messages.
ghost use Rattle.std.specs.Prelude.{◌≡◌, [], ◌∷◌, Ok};
ghost use Rattle.strm_mblk.specs.BlockCalls as blocks;
ghost use Rattle.strm_mblk.specs.Freeing as freeing;
ghost use Rattle.strm_pool.specs.PoolValue.{on_arena, with_arena};
ghost use Rattle.strm_mblk.specs.Given.{given_nothing};
ghost use Rattle.strm_named.specs.NamedCalls.{any_message, on_name, one_message, outcome_of, no_message};
ghost use Rattle.strm_c.specs.Codes.{any_or_nothing};
ghost use Rattle.strm_c.specs.Exports.{Asks, CallsNamed};
ghost use Rattle.strm_c.specs.InC.{flag};

use crate::answer::{coded, coded_any, number, put};
use crate::code::Code;
use crate::handle::StrmPool;
use crate::msg::StrmMsg;
use crate::reader::StrmReader;
use strm_named::Name;

/// Makes a message for a size, and stores its name in `msg`. As [`NamedPool::allocb`] of strm_named.
#[unsafe(no_mangle)]
pub extern "C" fn strm_c_allocb(pool: &mut StrmPool, size: u32, msg: &mut StrmMsg) -> i32
    ensures { CallsNamed one_message Ok (λ v. outcome_of (on_arena v.pool (blocks.allocb size v.pool.arena))) []
        pool.old.at.named pool.new.at.named result msg.old msg.new }
{
    let Some(named) = pool.named_mut() else {
        return Code::NotOpen.number();
    };
    let answer = named.allocb(size);
    put(coded(answer).map(StrmMsg::of), msg)
}

/// Stores 1 in `yes` if `allocb` would succeed now, otherwise 0. As [`Pool::testb`] of strm_pool.
#[unsafe(no_mangle)]
pub extern "C" fn strm_c_testb(pool: &mut StrmReader, size: u32, yes: &mut u32) -> i32
    ensures answer { Asks (λ v. Ok (flag (blocks.testb size v.pool.arena)))
        pool.old.at.named pool.new.at.named result yes.old yes.new }
    ensures same { pool.new ≡ pool.old }
{
    let Some(view) = pool.view() else {
        return Code::NotOpen.number();
    };
    let answer = view.named().pool().testb(size);
    put(Ok(u32::from(answer)), yes)
}

/// Duplicates a message's first block, and stores the duplicate's name in `copy`. As [`NamedPool::dupb`] of strm_named.
#[unsafe(no_mangle)]
pub extern "C" fn strm_c_dupb(pool: &mut StrmPool, msg: Name, copy: &mut StrmMsg) -> i32
    ensures { CallsNamed one_message Ok (λ v. on_name v msg (on_arena v.pool (blocks.dupb msg.head v.pool.arena))) []
        pool.old.at.named pool.new.at.named result copy.old copy.new }
{
    let Some(named) = pool.named_mut() else {
        return Code::NotOpen.number();
    };
    let answer = named.dupb(msg);
    put(coded(answer).map(StrmMsg::of), copy)
}

/// Duplicates a message, and stores the duplicate's name in `copy`. As [`NamedPool::dupmsg`] of strm_named.
#[unsafe(no_mangle)]
pub extern "C" fn strm_c_dupmsg(pool: &mut StrmPool, msg: Name, copy: &mut StrmMsg) -> i32
    ensures { CallsNamed one_message Ok (λ v. on_name v msg (on_arena v.pool (blocks.dupmsg msg.head v.pool.arena))) []
        pool.old.at.named pool.new.at.named result copy.old copy.new }
{
    let Some(named) = pool.named_mut() else {
        return Code::NotOpen.number();
    };
    let answer = named.dupmsg(msg);
    put(coded(answer).map(StrmMsg::of), copy)
}

/// Copies a message's first block, and stores the copy's name in `copy`. As [`NamedPool::copyb`] of strm_named.
#[unsafe(no_mangle)]
pub extern "C" fn strm_c_copyb(pool: &mut StrmPool, msg: Name, copy: &mut StrmMsg) -> i32
    ensures { CallsNamed one_message Ok (λ v. on_name v msg (on_arena v.pool (blocks.copyb msg.head v.pool.arena))) []
        pool.old.at.named pool.new.at.named result copy.old copy.new }
{
    let Some(named) = pool.named_mut() else {
        return Code::NotOpen.number();
    };
    let answer = named.copyb(msg);
    put(coded(answer).map(StrmMsg::of_stored), copy)
}

/// Copies a message, and stores the copy's name in `copy`. As [`NamedPool::copymsg`] of strm_named.
#[unsafe(no_mangle)]
pub extern "C" fn strm_c_copymsg(pool: &mut StrmPool, msg: Name, copy: &mut StrmMsg) -> i32
    ensures { CallsNamed one_message Ok (λ v. on_name v msg (on_arena v.pool (blocks.copymsg msg.head v.pool.arena))) []
        pool.old.at.named pool.new.at.named result copy.old copy.new }
{
    let Some(named) = pool.named_mut() else {
        return Code::NotOpen.number();
    };
    let answer = named.copymsg(msg);
    put(coded(answer).map(StrmMsg::of_stored), copy)
}

/// Frees the first block of a message, and stores the name of the others in `rest`. As [`NamedPool::freeb`] of strm_named.
/// Returns `Nothing` if there are no others.
#[unsafe(no_mangle)]
pub extern "C" fn strm_c_freeb(pool: &mut StrmPool, msg: Name, rest: &mut StrmMsg) -> i32
    ensures { CallsNamed any_message any_or_nothing
        (λ v. on_name v msg (on_arena v.pool (Ok (blocks.freeb msg.head v.pool.arena))))
        (msg.head ∷ []) pool.old.at.named pool.new.at.named result rest.old rest.new }
{
    let Some(named) = pool.named_mut() else {
        return Code::NotOpen.number();
    };
    let answer = named.freeb(msg);
    put(coded_any(answer).map(StrmMsg::of), rest)
}

/// Frees a message. As [`NamedPool::freemsg`] of strm_named.
#[unsafe(no_mangle)]
pub extern "C" fn strm_c_freemsg(pool: &mut StrmPool, msg: Name) -> i32
    ensures { CallsNamed no_message Ok (λ v. on_name v msg
        (given_nothing (with_arena v.pool (freeing.freemsg msg.head v.pool.arena))))
        (msg.head ∷ []) pool.old.at.named pool.new.at.named result tt tt }
{
    let Some(named) = pool.named_mut() else {
        return Code::NotOpen.number();
    };
    let answer = named.freemsg(msg);
    number(coded(answer))
}
