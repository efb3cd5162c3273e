//! Calls that say how few blocks were free, for a program that sizes its pools.
ghost use Rattle.std.specs.Prelude.{◌≡◌, Ok, slice_get};
ghost use Rattle.strm_mblk.specs.Arena.{with_least_reset};
ghost use Rattle.strm_mblk.specs.Given.{given_nothing};
ghost use Rattle.strm_pool.specs.PoolValue.{on_arena};
ghost use Rattle.strm_c.specs.Codes.{any_or_nothing};
ghost use Rattle.strm_c.specs.Exports.{Asks, DoesOnPool};
ghost use Rattle.strm_c.specs.InC.{capped_number};

use crate::answer::{number, present, put};
use crate::code::Code;
use crate::handle::StrmPool;
use crate::numbers::capped_number;
use crate::reader::StrmReader;

/// Stores the fewest message blocks that were free in `fewest`. As [`Blocks::least_free_blocks`] of strm_mblk.
#[unsafe(no_mangle)]
pub extern "C" fn strm_c_least_free_blocks(pool: &mut StrmReader, fewest: &mut u32) -> i32
    ensures answer { Asks (λ v. Ok v.pool.arena.least)
        pool.old.at.named pool.new.at.named result fewest.old fewest.new }
    ensures same { pool.new ≡ pool.old }
{
    let Some(view) = pool.view() else {
        return Code::NotOpen.number();
    };
    let answer = view.named().pool().blocks().least_free_blocks();
    put(Ok(answer), fewest)
}

/// Stores the fewest data blocks of a size class that were free in `fewest`. As [`Blocks::least_free`] of strm_mblk. Returns
/// `Nothing` if there is no such class.
#[unsafe(no_mangle)]
pub extern "C" fn strm_c_least_free(pool: &mut StrmReader, place: u32, fewest: &mut u32) -> i32
    ensures answer { Asks (λ v. any_or_nothing (slice_get v.pool.arena.store.least (capped_number place)))
        pool.old.at.named pool.new.at.named result fewest.old fewest.new }
    ensures same { pool.new ≡ pool.old }
{
    let Some(view) = pool.view() else {
        return Code::NotOpen.number();
    };
    let blocks = view.named().pool().blocks();
    let answer = blocks.least_free(capped_number(place));
    put(present(answer), fewest)
}

/// Makes the blocks that are free now the fewest that were free. As [`NamedPool::reset_least`] of strm_named.
#[unsafe(no_mangle)]
pub extern "C" fn strm_c_reset_least(pool: &mut StrmPool) -> i32
    ensures { DoesOnPool Ok (λ p. on_arena p (given_nothing (with_least_reset p.arena)))
        pool.old.at.named pool.new.at.named result tt tt }
{
    let Some(named) = pool.named_mut() else {
        return Code::NotOpen.number();
    };
    named.reset_least();
    number(Ok(()))
}
