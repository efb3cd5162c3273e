//! Calls that join messages, part them, trim them and pull them up.
ghost use Rattle.std.specs.Prelude.{[], ◌∷◌, Ok};
ghost use Rattle.strm_mblk.specs.BlockCalls as blocks;
ghost use Rattle.strm_mblk.specs.Trimming as trimming;
ghost use Rattle.strm_pool.specs.PoolValue.{on_arena, with_arena};
ghost use Rattle.strm_mblk.specs.Given.{given_nothing};
ghost use Rattle.strm_named.specs.NamedCalls.{any_message, on_name, on_names, no_message, two_messages};
ghost use Rattle.strm_c.specs.Codes.{any_or_nothing};
ghost use Rattle.strm_c.specs.Exports.{CallsNamed};
ghost use Rattle.strm_c.specs.InC.{both};

use crate::answer::{coded, coded_any, coded_both, number, put};
use crate::code::Code;
use crate::handle::StrmPool;
use crate::msg::StrmMsg;
use strm_named::Name;

/// Appends a message to another. As [`NamedPool::linkb`] of strm_named.
#[unsafe(no_mangle)]
pub extern "C" fn strm_c_linkb(pool: &mut StrmPool, msg: Name, tail: Name) -> i32
    ensures { CallsNamed no_message Ok (λ v. on_names v msg tail
        (given_nothing (with_arena v.pool (blocks.linkb msg.head tail.head v.pool.arena)))) (tail.head ∷ [])
        pool.old.at.named pool.new.at.named result tt tt }
{
    let Some(named) = pool.named_mut() else {
        return Code::NotOpen.number();
    };
    let answer = named.linkb(msg, tail);
    number(coded(answer))
}

/// Makes the blocks after the first a message, and stores its name in `rest`. As [`NamedPool::unlinkb`] of strm_named. Returns
/// `Nothing` if there are no such blocks.
#[unsafe(no_mangle)]
pub extern "C" fn strm_c_unlinkb(pool: &mut StrmPool, msg: Name, rest: &mut StrmMsg) -> i32
    ensures { CallsNamed any_message any_or_nothing
        (λ v. on_name v msg (on_arena v.pool (Ok (blocks.unlinkb msg.head v.pool.arena)))) []
        pool.old.at.named pool.new.at.named result rest.old rest.new }
{
    let Some(named) = pool.named_mut() else {
        return Code::NotOpen.number();
    };
    let answer = named.unlinkb(msg);
    put(coded_any(answer).map(StrmMsg::of), rest)
}

/// Makes a block a message. Stores its name in `block`, and that of the other blocks in `rest`, which is the name of no message
/// if there are none. As [`NamedPool::rmvb`] of strm_named.
#[unsafe(no_mangle)]
pub extern "C" fn strm_c_rmvb(
    pool: &mut StrmPool,
    msg: Name,
    place: u32,
    block: &mut StrmMsg,
    rest: &mut StrmMsg,
) -> i32
    ensures { CallsNamed two_messages both (λ v. on_name v msg
        (on_arena v.pool (blocks.rmvb msg.head place v.pool.arena)))
        (msg.head ∷ []) pool.old.at.named pool.new.at.named result (block.old, rest.old) (block.new, rest.new) }
{
    let Some(named) = pool.named_mut() else {
        return Code::NotOpen.number();
    };
    match coded_both(named.rmvb(msg, place)) {
        Ok((first, others)) => {
            *block = StrmMsg::of(first);
            *rest = StrmMsg::of(others);
            0
        }
        Err(code) => code.number(),
    }
}

/// Removes bytes at the head or the tail of a message. As [`NamedPool::adjmsg`] of strm_named.
#[unsafe(no_mangle)]
pub extern "C" fn strm_c_adjmsg(pool: &mut StrmPool, msg: Name, count: i32) -> i32
    ensures { CallsNamed no_message Ok (λ v. on_name v msg
        (on_arena v.pool (trimming.adjmsg msg.head count v.pool.arena))) []
        pool.old.at.named pool.new.at.named result tt tt }
{
    let Some(named) = pool.named_mut() else {
        return Code::NotOpen.number();
    };
    let answer = named.adjmsg(msg, count);
    number(coded(answer))
}

/// Brings bytes of a message into its first block. As [`NamedPool::pullupmsg`] of strm_named.
#[unsafe(no_mangle)]
pub extern "C" fn strm_c_pullupmsg(pool: &mut StrmPool, msg: Name, count: i32) -> i32
    ensures { CallsNamed no_message Ok (λ v. on_name v msg
        (on_arena v.pool (trimming.pullupmsg msg.head count v.pool.arena))) []
        pool.old.at.named pool.new.at.named result tt tt }
{
    let Some(named) = pool.named_mut() else {
        return Code::NotOpen.number();
    };
    let answer = named.pullupmsg(msg, count);
    number(coded(answer))
}
