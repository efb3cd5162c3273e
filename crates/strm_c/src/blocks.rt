//! Calls on the bytes and fields of a message's blocks.
ghost use Rattle.std.specs.Prelude.{◌≡◌, ◌-◌, [], Ok, length, min};
ghost use Rattle.strm_mblk.specs.Arena.{message_at};
ghost use Rattle.strm_mblk.specs.Block.{data_size_of, size_of};
ghost use Rattle.strm_mblk.specs.BlockCalls as blocks;
ghost use Rattle.strm_pool.specs.PoolValue.{on_arena, with_arena};
ghost use Rattle.strm_queue.specs.QueueLooks.{info_of_message};
ghost use Rattle.strm_mblk.specs.Given.{given_nothing};
ghost use Rattle.strm_mblk.specs.Looks as looks;
ghost use Rattle.strm_named.specs.NamedCalls.{answer_told, asked, if_valid, on_name, no_message};
ghost use Rattle.strm_named.specs.NamedValue.{is_valid, name_at};
ghost use Rattle.strm_c.specs.Codes.{answer_of_result, any_or_nothing};
ghost use Rattle.strm_c.specs.Exports.{Asks, CallsNamed, Ranged, bytes_read};
ghost use Rattle.strm_c.specs.InC.{band_of, block_in_c, flag, queued_in_c, type_of};

use crate::answer::{coded, number, present, put};
use crate::code::Code;
use crate::handle::StrmPool;
use crate::layout::{StrmBlockInfo, StrmQueued};
use crate::msg::StrmMsg;
use crate::numbers::{band_of, type_of};
use crate::reader::StrmReader;
use strm_named::Name;

/// Puts bytes at the write place of a block. As [`NamedPool::write`] of strm_named.
#[unsafe(no_mangle)]
pub extern "C" fn strm_c_write(pool: &mut StrmPool, msg: Name, place: u32, bytes: &[u8]) -> i32
    ensures { CallsNamed no_message Ok (λ v. on_name v msg
        (on_arena v.pool (blocks.write msg.head place bytes.now v.pool.arena)))
        [] pool.old.at.named pool.new.at.named result tt tt }
{
    let Some(named) = pool.named_mut() else {
        return Code::NotOpen.number();
    };
    let answer = named.write(msg, place, bytes);
    number(coded(answer))
}

/// Copies bytes of a message into a buffer, and stores their number in `count`. As [`NamedPool::read`] of strm_named.
#[unsafe(no_mangle)]
pub extern "C" fn strm_c_read(
    pool: &mut StrmReader,
    msg: Name,
    at: u32,
    into: &mut [u8],
    count: &mut usize,
) -> i32
    ensures count { Asks (λ v. answer_of_result Ok (if_valid v msg
        (min (length into.old) (size_of (message_at v.pool.arena msg.head) - at))))
        pool.old.at.named pool.new.at.named result count.old count.new }
    ensures bytes { into.new ≡ bytes_read pool.old.at.named msg at into.old }
    ensures same { pool.new ≡ pool.old }
{
    let Some(view) = pool.view() else {
        return Code::NotOpen.number();
    };
    let answer = view.named().read(msg, at, into);
    put(coded(answer), count)
}

/// Gives the data block of a block a type. As [`NamedPool::settype`] of strm_named. A number of no type is a `BadArgument`.
#[unsafe(no_mangle)]
pub extern "C" fn strm_c_settype(pool: &mut StrmPool, msg: Name, place: u32, kind: u32) -> i32
    ensures { Ranged (type_of kind) (λ t. CallsNamed no_message Ok
        (λ v. on_name v msg (on_arena v.pool (blocks.settype msg.head place t v.pool.arena))) [])
        pool.old.at.named pool.new.at.named result tt tt }
{
    let Some(named) = pool.named_mut() else {
        return Code::NotOpen.number();
    };
    let Some(kind) = type_of(kind) else {
        return Code::BadArgument.number();
    };
    let answer = named.settype(msg, place, kind);
    number(coded(answer))
}

/// Gives a message's first block a band. As [`NamedPool::setband`] of strm_named. A band above 255 is a `BadArgument`.
#[unsafe(no_mangle)]
pub extern "C" fn strm_c_setband(pool: &mut StrmPool, msg: Name, band: u32) -> i32
    ensures { Ranged (band_of band) (λ b. CallsNamed no_message Ok
        (λ v. on_name v msg (given_nothing (with_arena v.pool (blocks.setband msg.head b v.pool.arena)))) [])
        pool.old.at.named pool.new.at.named result tt tt }
{
    let Some(named) = pool.named_mut() else {
        return Code::NotOpen.number();
    };
    let Some(band) = band_of(band) else {
        return Code::BadArgument.number();
    };
    let answer = named.setband(msg, band);
    number(coded(answer))
}

/// Stores the number of a message's bytes in `bytes`. As [`NamedPool::size`] of strm_named.
#[unsafe(no_mangle)]
pub extern "C" fn strm_c_size(pool: &mut StrmReader, msg: Name, bytes: &mut u32) -> i32
    ensures answer { Asks (λ v. answer_of_result Ok (if_valid v msg (size_of (message_at v.pool.arena msg.head))))
        pool.old.at.named pool.new.at.named result bytes.old bytes.new }
    ensures same { pool.new ≡ pool.old }
{
    let Some(view) = pool.view() else {
        return Code::NotOpen.number();
    };
    let answer = view.named().size(msg);
    put(coded(answer), bytes)
}

/// Stores the number of a message's bytes in M_DATA blocks in `bytes`. As [`NamedPool::msgdsize`] of strm_named.
#[unsafe(no_mangle)]
pub extern "C" fn strm_c_msgdsize(pool: &mut StrmReader, msg: Name, bytes: &mut u32) -> i32
    ensures answer { Asks (λ v. answer_of_result Ok (if_valid v msg
        (data_size_of v.pool.arena.store (message_at v.pool.arena msg.head))))
        pool.old.at.named pool.new.at.named result bytes.old bytes.new }
    ensures same { pool.new ≡ pool.old }
{
    let Some(view) = pool.view() else {
        return Code::NotOpen.number();
    };
    let answer = view.named().msgdsize(msg);
    put(coded(answer), bytes)
}

/// Stores what a message is like in `info`. As [`NamedPool::message`] of strm_named.
#[unsafe(no_mangle)]
pub extern "C" fn strm_c_message(pool: &mut StrmReader, msg: Name, info: &mut StrmQueued) -> i32
    ensures answer { Asks (λ v. answer_of_result (λ q. Ok (queued_in_c q)) (asked v msg
        (info_of_message v.pool.arena.store (message_at v.pool.arena msg.head))))
        pool.old.at.named pool.new.at.named result info.old info.new }
    ensures same { pool.new ≡ pool.old }
{
    let Some(view) = pool.view() else {
        return Code::NotOpen.number();
    };
    let answer = view.named().message(msg);
    put(coded(answer).map(StrmQueued::of), info)
}

/// Stores what a block is like in `block`. As [`NamedPool::block`] of strm_named.
#[unsafe(no_mangle)]
pub extern "C" fn strm_c_block(
    pool: &mut StrmReader,
    msg: Name,
    place: u32,
    block: &mut StrmBlockInfo,
) -> i32
    ensures answer { Asks (λ v. answer_of_result (λ b. Ok (block_in_c b))
        (answer_told no_message v (on_name v msg (on_arena v.pool (blocks.block msg.head place v.pool.arena)))))
        pool.old.at.named pool.new.at.named result block.old block.new }
    ensures same { pool.new ≡ pool.old }
{
    let Some(view) = pool.view() else {
        return Code::NotOpen.number();
    };
    let answer = view.named().block(msg, place);
    put(coded(answer).map(StrmBlockInfo::of), block)
}

/// Stores the number of a block in `number`. As [`NamedPool::number`] of strm_named.
#[unsafe(no_mangle)]
pub extern "C" fn strm_c_block_number(
    pool: &mut StrmReader,
    msg: Name,
    place: u32,
    number: &mut u32,
) -> i32
    ensures answer { Asks (λ v. answer_of_result Ok (asked v msg (looks.number msg.head place v.pool.arena)))
        pool.old.at.named pool.new.at.named result number.old number.new }
    ensures same { pool.new ≡ pool.old }
{
    let Some(view) = pool.view() else {
        return Code::NotOpen.number();
    };
    let answer = view.named().number(msg, place);
    put(coded(answer), number)
}

/// Stores 1 in `yes` if a name is valid, otherwise 0. As [`NamedPool::has`] of strm_named.
#[unsafe(no_mangle)]
pub extern "C" fn strm_c_has(pool: &mut StrmReader, msg: Name, yes: &mut u32) -> i32
    ensures answer { Asks (λ v. Ok (flag (is_valid v msg))) pool.old.at.named pool.new.at.named result yes.old yes.new }
    ensures same { pool.new ≡ pool.old }
{
    let Some(view) = pool.view() else {
        return Code::NotOpen.number();
    };
    let answer = view.named().has(msg);
    put(Ok(u32::from(answer)), yes)
}

/// Stores the name of the message that is held at a head in `msg`. As [`NamedPool::name_at`] of strm_named. Returns `Nothing` if
/// no message is held there.
#[unsafe(no_mangle)]
pub extern "C" fn strm_c_name_at(pool: &mut StrmReader, head: u32, msg: &mut StrmMsg) -> i32
    ensures answer { Asks (λ v. any_or_nothing (name_at v head)) pool.old.at.named pool.new.at.named result
        msg.old msg.new }
    ensures same { pool.new ≡ pool.old }
{
    let Some(view) = pool.view() else {
        return Code::NotOpen.number();
    };
    let answer = view.named().name_at(head);
    put(present(answer).map(StrmMsg::of), msg)
}
