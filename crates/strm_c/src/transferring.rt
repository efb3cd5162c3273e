//! The call that makes a message anew in another pool.
ghost use Rattle.std.specs.Prelude.{◌≡◌, [], ◌∷◌, IfOk};
ghost use Rattle.strm_mblk.specs.BlockCalls as blocks;
ghost use Rattle.strm_mblk.specs.Freeing as freeing;
ghost use Rattle.strm_pool.specs.PoolValue.{on_arena, with_arena};
ghost use Rattle.strm_named.specs.NamedCalls.{Does, on_name, one_message};
ghost use Rattle.strm_named.specs.NamedValue.{Renames};
ghost use Rattle.strm_c.specs.Exports.{TransfersHeld, after_transfer};

use crate::answer::{coded, put};
use crate::code::Code;
use crate::handle::StrmPool;
use crate::msg::StrmMsg;
use strm_named::{Fault, Name, NamedPool};

// Makes a message anew in another pool, and frees it in its own. Returns the new message's name.
fn transferred(named: &mut NamedPool, other: &mut NamedPool, msg: Name) -> Result<Name, Fault>
    ensures here { named.new ≡ after_transfer named.old (on_name named.old msg
        (on_arena other.old.pool (blocks.transfer named.old.pool.arena msg.head other.old.pool.arena)))
        (with_arena named.old.pool (freeing.freemsg msg.head named.old.pool.arena)) }
    ensures names { IfOk (on_name named.old msg
        (on_arena other.old.pool (blocks.transfer named.old.pool.arena msg.head other.old.pool.arena)))
        (λ given. Renames (msg.head ∷ []) [] named.old named.new) }
    ensures there { Does one_message (on_name named.old msg
        (on_arena other.old.pool (blocks.transfer named.old.pool.arena msg.head other.old.pool.arena)))
        [] other.old other.new result }
{
    named.transfer(other, msg)
}

/// Makes a message anew in the pool of another handle, frees it here, and stores the new message's name in `moved`. As
/// [`NamedPool::transfer`] of strm_named. Returns `NotOpen` if either handle is not open.
#[unsafe(no_mangle)]
pub extern "C" fn strm_c_transfer(
    pool: &mut StrmPool,
    other: &mut StrmPool,
    msg: Name,
    moved: &mut StrmMsg,
) -> i32
    ensures { TransfersHeld msg
        (λ v w. on_name v msg (on_arena w.pool (blocks.transfer v.pool.arena msg.head w.pool.arena)))
        (λ v. with_arena v.pool (freeing.freemsg msg.head v.pool.arena))
        pool.old.at.named pool.new.at.named other.old.at.named other.new.at.named result moved.old moved.new }
{
    let Some(named) = pool.named_mut() else {
        return Code::NotOpen.number();
    };
    let Some(target) = other.named_mut() else {
        return Code::NotOpen.number();
    };
    let answer = transferred(named, target, msg);
    put(coded(answer).map(StrmMsg::of), moved)
}
