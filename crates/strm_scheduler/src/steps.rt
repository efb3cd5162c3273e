//! What a module may do to queues while it treats a message: each call is a step, and keeps all queues awake.
ghost use Rattle.std.specs.Prelude.{◌≡◌, IsTrue};
ghost use Rattle.strm_mblk.specs.Arena.{has};
ghost use Rattle.strm_mblk.specs.Calls.{Puts};
ghost use Rattle.strm_pool.specs.PoolValue.{arena, has_queue, on_queues, queued_blocks_of};
ghost use Rattle.strm_scheduler.specs.Laws.{AreKeptAwake, hold};
ghost use Rattle.strm_scheduler.specs.Steps.{with_message_put, with_queue_enabled, with_queue_flushed};

use strm_pool::{Flush, Pool, Rejected, Token};

/// Puts a message on a queue: on the next one to pass it on (`putnext`), on one of the other side to reply (`qreply`).
pub fn send(pool: &mut Pool, to: u8, token: Token)
    requires has { IsTrue (has pool.old.arena token) }
    requires there { IsTrue (has_queue pool.old to) }
    ensures { pool.new ≡ with_message_put to token pool.old }
{
    match pool.putq(to, token) {
        Ok(()) => {}
        Err(_) => unreachable!(),
    }
}

/// Frees messages of a queue, all or those that carry data (`flushq`), and enables it: a queue that loses its first message
/// may have no other reason to wake.
pub fn flush(pool: &mut Pool, queue: u8, what: Flush)
    requires { IsTrue (has_queue pool.old queue) }
    ensures { pool.new ≡ with_queue_flushed queue what pool.old }
{
    match pool.flushq(queue, what) {
        Ok(()) => enable(pool, queue),
        Err(_) => unreachable!(),
    }
}

/// Puts a queue at the end of the run list, unless it is there, or has no service procedure (`qenable`).
pub fn enable(pool: &mut Pool, queue: u8)
    requires { IsTrue (has_queue pool.old queue) }
    ensures { pool.new ≡ with_queue_enabled queue pool.old }
{
    match pool.qenable(queue) {
        Ok(()) => {}
        Err(_) => unreachable!(),
    }
}

/// Puts a message back on a queue of any pool, before its equals, and enables the queue. Rejected as `NoSuchQueue`. As
/// [`Pool::putbq`] and [`Pool::qenable`].
pub fn hold(pool: &mut Pool, queue: u8, token: Token) -> Result<(), Rejected>
    requires { IsTrue (has pool.old.arena token) }
    ensures awake { AreKeptAwake pool.old → AreKeptAwake pool.new }
    ensures puts { Puts arena token (on_queues pool.old (hold queue token.head (queued_blocks_of pool.old)))
        pool.old pool.new result }
{
    pool.lawful();
    match pool.putbq(queue, token) {
        Ok(()) => {
            enable(pool, queue);
            Ok(())
        }
        Err(rejected) => Err(rejected),
    }
}
