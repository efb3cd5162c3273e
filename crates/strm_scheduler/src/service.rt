//! The service procedure, as one of a STREAMS module that changes nothing.
ghost use Rattle.std.specs.Prelude.{◌≡◌, ◌≢◌, IfErr, IfOk, IsTrue, ◌&&◌, false, true};
ghost use Rattle.strm_data.specs.declared.refusal.Refusal.TheVariants.{NoSuchQueue};
ghost use Rattle.strm_scheduler.specs.Forwarding.{Forwards, HandsOn, KeepsRest, all_forwarded, handed_on, has_leave, with_leave_asked, with_one_placed, with_put_either};
ghost use Rattle.strm_mblk.specs.Arena.{has, message_at};
ghost use Rattle.strm_pool.specs.PoolValue.{has_queue, queued_blocks_of};

use strm_pool::{Pool, Refusal, Token};

/// Forwards the messages of queue `from` to queue `to`, one after another, as the service procedure of a STREAMS module does.
/// Returns how many went. The two numbers must differ.
///
/// It stops when `from` is empty, or when the first message is not high priority and `bcanput` says that its band is full at
/// the target of `to`. That message is put back first on `from`. Its band is then wanted at that target: once it has drained
/// there, the target's waker is enabled. Refused as `NoSuchQueue` if one of the queues does not exist; then nothing changes.
pub fn forward(pool: &mut Pool, from: u8, to: u8) -> Result<u32, Refusal>
    requires apart { from ≢ to }
    ensures does { IfOk result (λ count. all_forwarded from to (queued_blocks_of pool.old)
        ≡ (count, queued_blocks_of pool.new)) }
    ensures forwards { IfOk result (λ count. Forwards from to count pool.old pool.new) }
    ensures found { IfOk result (λ count. (has_queue pool.old from && has_queue pool.old to) ≡ true) }
    ensures refused { IfErr result (λ why. (why ≡ NoSuchQueue)
        × ((has_queue pool.old from && has_queue pool.old to) ≡ false) × (pool.new ≡ pool.old)) }
{
    pool.lawful();
    let waiting = pool.qsize(from)?;
    pool.qsize(to)?;
    let mut count = 0;
    while hand_on(pool, from, to) {
        prove!(count < waiting);
        count += 1;
    }
    pool.lawful();
    Ok(count)
}

// Takes the first message of queue `from`, if any. Puts it on `to` if it may go there, otherwise back, and says whether it
// went.
fn hand_on(pool: &mut Pool, from: u8, to: u8) -> bool
    requires apart { from ≢ to }
    requires behind { IsTrue (has_queue pool.old from) }
    requires ahead { IsTrue (has_queue pool.old to) }
    ensures does { handed_on from to (queued_blocks_of pool.old) ≡ (result, queued_blocks_of pool.new) }
    ensures moves { HandsOn from to pool.old result pool.new }
{
    pool.lawful();
    match pool.getq(from) {
        Ok(Some(token)) => place(pool, from, to, token),
        Ok(None) => false,
        Err(_) => unreachable!(),
    }
}

// Puts a message on queue `to` if it may go there, otherwise back on `from`, and says whether it went.
fn place(pool: &mut Pool, from: u8, to: u8, token: Token) -> bool
    requires has { IsTrue (has pool.old.arena token) }
    requires behind { IsTrue (has_queue pool.old from) }
    requires ahead { IsTrue (has_queue pool.old to) }
    ensures leave { result ≡ has_leave to pool.old.queues pool.old.arena (message_at pool.old.arena token.head) }
    ensures messages { pool.new.arena ≡ with_put_either from to token.head result pool.old.arena }
    ensures state { pool.new.queues ≡ (with_one_placed from to (message_at pool.old.arena token.head) result
        (queued_blocks_of pool.old)).queues }
    ensures rest { KeepsRest pool.old pool.new }
{
    let goes = may_go(pool, to, &token);
    let put = if goes {
        pool.putq(to, token)
    } else {
        pool.putbq(from, token)
    };
    match put {
        Ok(()) => goes,
        Err(_) => unreachable!(),
    }
}

/// Says whether a message may be put on a queue now: if it is high priority, or if its band has room at the target. If the band
/// has no room, it gets its wanted mark.
pub fn may_go(pool: &mut Pool, to: u8, token: &Token) -> bool
    requires has { IsTrue (has pool.old.arena token.now) }
    requires ahead { IsTrue (has_queue pool.old to) }
    ensures answer { result ≡ has_leave to pool.old.queues pool.old.arena (message_at pool.old.arena token.now.head) }
    ensures arena { pool.new.arena ≡ pool.old.arena }
    ensures state { pool.new.queues ≡ (with_leave_asked to (message_at pool.old.arena token.now.head) result
        (queued_blocks_of pool.old)).queues }
    ensures rest { KeepsRest pool.old pool.new }
{
    pool.lawful();
    let Ok(first) = pool.block(token, 0) else {
        unreachable!()
    };
    if first.kind.is_high_priority() {
        return true;
    }
    let Ok(room) = pool.bcanput(to, first.band) else {
        unreachable!()
    };
    room
}
