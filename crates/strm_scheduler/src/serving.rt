//! Service procedures that forward messages, and the run list from which they are called.
ghost use Rattle.std.specs.Prelude.{◌≡◌, ◌<◌, ℕ, IsTrue, None, [], length, false};
ghost use Rattle.strm_pool.specs.PoolValue.{queued_blocks_of};
ghost use Rattle.strm_scheduler.specs.Laws.{AreKeptAwake};
ghost use Rattle.strm_scheduler.specs.Sides.{KeepsOrder, next_of};
ghost use Rattle.strm_scheduler.specs.Running.{IsServed, with_first_served};
ghost use Rattle.strm_scheduler.specs.Serving.{work};

use crate::service::forward;
use crate::starting::begin;
use strm_pool::Pool;

// Takes queues off the run list and serves them, until the list is empty.
pub(crate) fn serve_all(pool: &mut Pool)
    requires { AreKeptAwake pool.old }
    ensures awake { AreKeptAwake pool.new }
    ensures idle { pool.new.queues.run ≡ [] }
    ensures served { IsServed (queued_blocks_of pool.old) (queued_blocks_of pool.new) }
    ensures order { KeepsOrder pool.old pool.new }
    ensures specs { pool.new.queues.specs ≡ pool.old.queues.specs }
    ensures wishes { pool.new.wishes ≡ pool.old.wishes }
{
    while serve_first(pool) {}
}

// Takes the first queue off the run list, if any, and forwards its messages to its next queue. Says whether there was one.
fn serve_first(pool: &mut Pool) -> bool
    requires { AreKeptAwake pool.old }
    ensures awake { AreKeptAwake pool.new }
    ensures idle { result ≡ false → pool.new.queues.run ≡ [] }
    ensures served { with_first_served (queued_blocks_of pool.old) ≡ queued_blocks_of pool.new }
    ensures falls { IsTrue result → work (queued_blocks_of pool.new) < work (queued_blocks_of pool.old) }
    ensures order { KeepsOrder pool.old pool.new }
    ensures specs { pool.new.queues.specs ≡ pool.old.queues.specs }
    ensures wishes { pool.new.wishes ≡ pool.old.wishes }
{
    let Some((queue, next)) = begin(pool) else {
        return false;
    };
    let Ok(_) = forward(pool, queue, next) else {
        unreachable!()
    };
    pool.lawful();
    true
}
