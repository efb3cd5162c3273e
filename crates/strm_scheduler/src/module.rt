//! What a service procedure does with messages, and one that changes nothing.
ghost use Rattle.std.specs.Prelude.{◌≡◌, ◌≢◌, ℕ, IsTrue, List, [], ◌∷◌, false};
ghost use Rattle.strm_mblk.specs.Arena.{has};
ghost use Rattle.strm_mblk.specs.declared.token.TokenValue.{TokenValue};
ghost use Rattle.strm_pool.specs.PoolValue.{PoolValue, has_queue};
ghost use Rattle.strm_queue.specs.declared.queued_info.QueuedInfo.{QueuedInfo};
ghost use Rattle.strm_scheduler.specs.Modules.{IsReady};
ghost use Rattle.strm_scheduler.specs.Steps.{AreSteps, Put, Step};
ghost use Rattle.strm_scheduler.specs.declared.need.Need.{Need as NeedValue};

use crate::need::Need;
use crate::steps::send;
use strm_pool::{Pool, QueuedInfo, Token};

/// A STREAMS module: its service procedure treats each message on its way to the next queue. It gets only messages that may go there:
/// those of high priority, and those whose band has room.
///
/// A module may look whether a band of another queue is full (`Pool::band_info`), but cannot make it wanted, so no call wakes it once
/// there is room. [`send`](crate::send) asks for no room, and puts a message on a queue even if its band is full there. Such messages
/// are replies, those for another queue than the next one, second messages, those of high priority, those whose band or type the module
/// changed, and those that it made or kept.
pub trait Module {
    // What `need` can return: the module, the pool, the queue, its first message, and what is returned.
    ghost needs: { Self → PoolValue → ℕ → QueuedInfo → NeedValue → Type 0 };

    // What `treat` can do: the module and the pool before, the queue, its next queue, the token, the steps, and the module and the
    // pool afterwards.
    ghost treats: { Self → PoolValue → ℕ → ℕ → TokenValue → List Step → Self → PoolValue → Type 0 };

    /// Says what must be free before the module treats this message, the first one of a queue, or that the module wants it
    /// later. Until then, the message stays on its queue.
    ///
    /// If the pool has too few blocks for it even with all of them free, the run ends at the queue's turn, and reports the queue. If it
    /// has enough, the message waits until as many are free, even if only the message itself has them: then it waits for ever.
    fn need(&self, pool: &Pool, queue: u8, first: &QueuedInfo) -> Need
        ensures { needs self.now pool.now queue first.now result };

    /// Treats a message that has left a queue and may go on to the next one. What `need` asked for is free.
    ///
    /// It may change held messages and wishes. Of queues, it may only [`send`](crate::send) messages to other ones, none, one or
    /// several, [`flush`](crate::flush) and [`enable`](crate::enable), in any order: these are its steps.
    fn treat(&mut self, pool: &mut Pool, queue: u8, next: u8, token: Token)
        requires has { IsTrue (has pool.old.arena token) }
        requires met { IsReady needs self.old queue next token pool.old }
        requires ahead { IsTrue (has_queue pool.old next) }
        requires apart { queue ≢ next }
        ensures { (steps : List Step) × treats self.old pool.old queue next token steps self.new pool.new
            × AreSteps queue steps pool.old pool.new };
}

/// A module that passes each message on as it is.
#[derive(Clone, Copy, Debug)]
pub struct Passing;

impl Module for Passing {
    ghost needs = { λ m v q i r. r ≡ record { sizes = []; mblks = 0; later = false } };

    ghost treats = { λ m v q n t steps k w. (steps ≡ Put n t ∷ []) × (k ≡ m) };

    fn need(&self, _pool: &Pool, _queue: u8, _first: &QueuedInfo) -> Need {
        Need::none()
    }

    fn treat(&mut self, pool: &mut Pool, _queue: u8, next: u8, token: Token) {
        send(pool, next, token);
    }
}
