//! Calls on queues. Those that put a message spend its name; those that take one return a new name.
ghost use Rattle.std.specs.Prelude.{◌≡◌, ◌+◌, ◌-◌, ◌^◌, ◌<◌, ◌≤◌, Ok, [], ◌∷◌, length};
ghost use Rattle.strm_named.specs.NamedCalls.{Does, LeavesNames, ServesNamed, TakesEachNamed, any_message, names_of, no_message, on_name, one_message, outcome_of, some_messages, take_flushed, take_flushed_band, with_names};
ghost use Rattle.strm_pool.specs.PoolValue.{on_queues, queued_blocks_of};
ghost use Rattle.strm_queue.specs.HeadCalls as by_head;
ghost use Rattle.strm_queue.specs.QueueCalls as queues;
ghost use Rattle.strm_queue.specs.Taking.{IsRunOver};
ghost use Rattle.strm_queue.specs.QueueCalls.{IsBurstPlace};
ghost use Rattle.strm_scheduler.specs.Laws.{AreKeptAwake, hold};

use super::NamedPool;
use crate::fault::{Fault, answered, spent};
use crate::name::Name;
use crate::naming::Naming;
use crate::stamps::{answer, answer_any, give};
use strm_pool::{BurstPlace, Flush, Refusal};
use strm_scheduler::{Service, hold, serve};

// The most messages that a call takes.
const MOST_TAKEN: usize = u32::MAX as usize;

impl NamedPool {
    /// Puts a message on a queue, after the last message whose rank is at least its own, and spends its name. Refused as
    /// `Invalid`, then `NoSuchQueue`. As [`Queues::putq`] of strm_queue.
    #[inline(always)]
    pub fn putq(&mut self, queue: u8, name: Name) -> Result<(), Fault>
        ensures { Does no_message (on_name self.old name (on_queues self.old.pool
            (queues.putq queue name.head (queued_blocks_of self.old.pool)))) (name.head ∷ []) self.old self.new result }
    {
        if !self.has(name) {
            return Err(Fault::Invalid);
        }
        let token = self.token(name);
        let put = self.pool.putq(queue, token);
        spent(put)
    }

    /// Puts the next message of a burst on a queue as `putq` does, by the place of the last one, and spends its name. Refused as
    /// `Invalid`, then `NoSuchQueue`. As [`Queues::putq_in_burst`] of strm_queue.
    #[inline(always)]
    pub fn putq_in_burst(
        &mut self,
        queue: u8,
        place: &mut BurstPlace,
        name: Name,
    ) -> Result<(), Fault>
        requires place { IsBurstPlace place.old queue (queued_blocks_of self.old.pool) }
        ensures does { Does no_message (on_name self.old name (on_queues self.old.pool
            (queues.putq queue name.head (queued_blocks_of self.old.pool)))) (name.head ∷ []) self.old self.new result }
        ensures place { IsBurstPlace place.new queue (queued_blocks_of self.new.pool) }
    {
        if !self.has(name) {
            return Err(Fault::Invalid);
        }
        let token = self.token(name);
        let put = self.pool.putq_in_burst(queue, place, token);
        spent(put)
    }

    /// Puts a message on a queue, before the first message whose rank is at most its own, and spends its name. Refused as
    /// `Invalid`, then `NoSuchQueue`. As [`Queues::putbq`] of strm_queue.
    pub fn putbq(&mut self, queue: u8, name: Name) -> Result<(), Fault>
        ensures { Does no_message (on_name self.old name (on_queues self.old.pool
            (queues.putbq queue name.head (queued_blocks_of self.old.pool)))) (name.head ∷ [])
            self.old self.new result }
    {
        if !self.has(name) {
            return Err(Fault::Invalid);
        }
        let token = self.token(name);
        let put = self.pool.putbq(queue, token);
        spent(put)
    }

    /// Puts a message on a queue at `place`, counted from 0, and spends its name. Refused as `Invalid`, `NoSuchQueue`,
    /// `NoSuchPlace`, then `BadOrder`. As [`Queues::insq`] of strm_queue.
    pub fn insq(&mut self, queue: u8, place: u32, name: Name) -> Result<(), Fault>
        ensures { Does no_message (on_name self.old name (on_queues self.old.pool
            (queues.insq queue place name.head (queued_blocks_of self.old.pool)))) (name.head ∷ [])
            self.old self.new result }
    {
        if !self.has(name) {
            return Err(Fault::Invalid);
        }
        let token = self.token(name);
        let put = self.pool.insq(queue, place, token);
        spent(put)
    }

    /// Puts a message on a queue before the queued one with this head, or last if none is given, and spends its name. Refused
    /// as `Invalid`, `NoSuchQueue`, `NoSuchPlace`, then `BadOrder`. As [`Queues::insq_before`] of strm_queue.
    pub fn insq_before(&mut self, queue: u8, before: Option<u32>, name: Name) -> Result<(), Fault>
        ensures { Does no_message (on_name self.old name (on_queues self.old.pool
            (by_head.insq_before queue before name.head (queued_blocks_of self.old.pool)))) (name.head ∷ [])
            self.old self.new result }
    {
        if !self.has(name) {
            return Err(Fault::Invalid);
        }
        let token = self.token(name);
        let put = self.pool.insq_before(queue, before, token);
        spent(put)
    }

    /// Removes the first message of a queue, if any, and returns its new name. Refused as `NoSuchQueue`. As [`Queues::getq`] of
    /// strm_queue.
    #[inline(always)]
    pub fn getq(&mut self, queue: u8) -> Result<Option<Name>, Fault>
        ensures { Does any_message (outcome_of (on_queues self.old.pool
            (queues.getq queue (queued_blocks_of self.old.pool))))
            [] self.old self.new result }
    {
        let given = self.pool.getq(queue);
        answer_any(&mut self.stamps, given)
    }

    /// Removes the first messages of a queue, each as [`NamedPool::getq`] does, at most as many as `into` has room for from place
    /// `from` on, and 2^32 - 1. Stores their names there, and returns the place after the last one. It may stop before the last
    /// message of a rank, and where the want-to-read mark is set or a band is wanted; call `getq` before it. As
    /// [`Queues::getq_run`] of strm_queue.
    #[inline(always)]
    pub fn getq_run(&mut self, queue: u8, into: &mut [Name], from: usize) -> usize
        requires { from ≤ length into.old }
        ensures takes { TakesEachNamed
            (λ v. outcome_of (on_queues v.pool (queues.getq queue (queued_blocks_of v.pool)))) from
            self.old self.new into.old into.new result }
        ensures over { result < length into.old → result < from + (2 ^ 32 - 1)
            → IsRunOver queue (queued_blocks_of self.new.pool) }
    {
        let most = (into.len() - from).min(MOST_TAKEN) as u32;
        let mut naming = Naming {
            stamps: &mut self.stamps,
            names: into,
            count: from,
        };
        let taken = self.pool.getq_run(queue, most, &mut naming);
        from + taken as usize
    }

    /// Removes the message at `place` of a queue, counted from 0, and returns its new name. Refused as `NoSuchQueue`, then
    /// `NoSuchPlace`. As [`Queues::rmvq`] of strm_queue.
    pub fn rmvq(&mut self, queue: u8, place: u32) -> Result<Name, Fault>
        ensures { Does one_message (outcome_of (on_queues self.old.pool
            (queues.rmvq queue place (queued_blocks_of self.old.pool)))) [] self.old self.new result }
    {
        let given = self.pool.rmvq(queue, place);
        answer(&mut self.stamps, given)
    }

    /// Removes the queued message with this head from its queue, and returns its new name. Refused as `NoSuchPlace`. As
    /// [`Queues::rmvq_head`] of strm_queue.
    pub fn rmvq_head(&mut self, head: u32) -> Result<Name, Fault>
        ensures { Does one_message (outcome_of (on_queues self.old.pool
            (by_head.rmvq_head head (queued_blocks_of self.old.pool)))) [] self.old self.new result }
    {
        let given = self.pool.rmvq_head(head);
        answer(&mut self.stamps, given)
    }

    /// Removes messages from a queue, front to back: those that [`NamedPool::flushq`] would free, as many as `into` has room
    /// for. Stores their names in `into`, from its beginning on, and returns their number. Refused as `NoSuchQueue`. As
    /// [`Queues::take_flushed`] of strm_queue.
    pub fn take_flushed(&mut self, queue: u8, flush: Flush, into: &mut [Name]) -> Result<u32, Fault>
        ensures does { Does some_messages (take_flushed queue flush (length into.old) self.old) []
            self.old self.new result }
        ensures names { into.new ≡ with_names (names_of some_messages self.new
            (take_flushed queue flush (length into.old) self.old)) into.old }
    {
        let most = into.len().min(MOST_TAKEN) as u32;
        let mut naming = Naming {
            stamps: &mut self.stamps,
            names: into,
            count: 0,
        };
        let taken = self.pool.take_flushed(queue, flush, most, &mut naming);
        answered(taken)
    }

    /// Removes messages of one band from a queue, front to back: those that [`NamedPool::flushband`] would free, as many as
    /// `into` has room for. Stores their names in `into`, from its beginning on, and returns their number. Refused as
    /// `NoSuchQueue`. As [`Queues::take_flushed_band`] of strm_queue.
    pub fn take_flushed_band(
        &mut self,
        queue: u8,
        band: u8,
        flush: Flush,
        into: &mut [Name],
    ) -> Result<u32, Fault>
        ensures does { Does some_messages (take_flushed_band queue band flush (length into.old) self.old) []
            self.old self.new result }
        ensures names { into.new ≡ with_names (names_of some_messages self.new
            (take_flushed_band queue band flush (length into.old) self.old)) into.old }
    {
        let most = into.len().min(MOST_TAKEN) as u32;
        let mut naming = Naming {
            stamps: &mut self.stamps,
            names: into,
            count: 0,
        };
        let taken = self
            .pool
            .take_flushed_band(queue, band, flush, most, &mut naming);
        answered(taken)
    }

    /// Serves queues, but for the last `held` ones of the run list, until one gives a message that may go on to its next
    /// queue. Returns the service and the message's new name; the queue is enabled again. If the queues form sides, and each
    /// one with a next queue was awake, so it is afterwards. As [`serve`] of strm_scheduler.
    pub fn serve(&mut self, held: u32) -> Option<(Service, Name)>
        ensures { ServesNamed held self.old self.new result }
    {
        match serve(&mut self.pool, held) {
            Some((service, token)) => Some((service, give(&mut self.stamps, token))),
            None => None,
        }
    }

    /// Puts a message back on a queue, as [`NamedPool::putbq`] does, and enables the queue. If the queues form sides, and each
    /// one with a next queue was awake, so it is afterwards. Refused as `Invalid`, then `NoSuchQueue`. As [`hold`] of
    /// strm_scheduler.
    pub fn hold(&mut self, queue: u8, name: Name) -> Result<(), Fault>
        ensures awake { AreKeptAwake self.old.pool → AreKeptAwake self.new.pool }
        ensures does { Does no_message (on_name self.old name (on_queues self.old.pool
            (hold queue name.head (queued_blocks_of self.old.pool)))) (name.head ∷ []) self.old self.new result }
    {
        if !self.has(name) {
            return Err(Fault::Invalid);
        }
        let token = self.token(name);
        let held = hold(&mut self.pool, queue, token);
        spent(held)
    }
}

// Calls that leave held messages, and so names: each is that of `Pool`. The lemma proves them, except flushes, whose definitions
// are long.
#[tactic(auto, using(crate::proofs::Shaped::leaves_names))]
impl NamedPool {
    /// Frees messages of a queue: all, or only those that carry data. Refused as `NoSuchQueue`. As [`Queues::flushq`] of
    /// strm_queue.
    pub fn flushq(&mut self, queue: u8, flush: Flush) -> Result<(), Refusal>
        ensures { LeavesNames (on_queues self.old.pool (queues.flushq queue flush (queued_blocks_of self.old.pool)))
            self.old self.new result }
    {
        self.pool.flushq(queue, flush)
    }

    /// Frees messages of one band of a queue: all, or only those that carry data. Refused as `NoSuchQueue`. As
    /// [`Queues::flushband`] of strm_queue.
    pub fn flushband(&mut self, queue: u8, band: u8, flush: Flush) -> Result<(), Refusal>
        ensures { LeavesNames (on_queues self.old.pool
            (queues.flushband queue band flush (queued_blocks_of self.old.pool)))
            self.old self.new result }
    {
        self.pool.flushband(queue, band, flush)
    }

    /// Says whether a band has room at the target of a queue; if not, the band is wanted there. Refused as `NoSuchQueue`. As
    /// [`Queues::bcanput`] of strm_queue.
    pub fn bcanput(&mut self, queue: u8, band: u8) -> Result<bool, Refusal>
        ensures { LeavesNames (on_queues self.old.pool (queues.bcanput queue band (queued_blocks_of self.old.pool)))
            self.old self.new result }
    {
        self.pool.bcanput(queue, band)
    }

    /// Sets both water marks of one band of a queue, in bytes. Refused as `NoSuchQueue`, then `BadMarks`. As
    /// [`Queues::strqset`] of strm_queue.
    pub fn strqset(&mut self, queue: u8, band: u8, hiwat: u32, lowat: u32) -> Result<(), Refusal>
        ensures { LeavesNames (on_queues self.old.pool
            (queues.strqset queue band hiwat lowat (queued_blocks_of self.old.pool)))
            self.old self.new result }
    {
        self.pool.strqset(queue, band, hiwat, lowat)
    }

    /// Puts a queue at the end of the run list, unless it is on the list or has no service procedure. Refused as `NoSuchQueue`.
    /// As [`Queues::qenable`] of strm_queue.
    pub fn qenable(&mut self, queue: u8) -> Result<(), Refusal>
        ensures { LeavesNames (on_queues self.old.pool (queues.qenable queue (queued_blocks_of self.old.pool)))
            self.old self.new result }
    {
        self.pool.qenable(queue)
    }

    /// Switches enabling of a queue off. Refused as `NoSuchQueue`. As [`Queues::noenable`] of strm_queue.
    pub fn noenable(&mut self, queue: u8) -> Result<(), Refusal>
        ensures { LeavesNames (on_queues self.old.pool (queues.noenable queue (queued_blocks_of self.old.pool)))
            self.old self.new result }
    {
        self.pool.noenable(queue)
    }

    /// Switches enabling of a queue on again. Refused as `NoSuchQueue`. As [`Queues::enableok`] of strm_queue.
    pub fn enableok(&mut self, queue: u8) -> Result<(), Refusal>
        ensures { LeavesNames (on_queues self.old.pool (queues.enableok queue (queued_blocks_of self.old.pool)))
            self.old self.new result }
    {
        self.pool.enableok(queue)
    }

    /// Takes the first queue, if any, off the run list, and returns its number. As [`Queues::next_service`] of strm_queue.
    pub fn next_service(&mut self) -> Option<u8>
        ensures { LeavesNames (on_queues self.old.pool (Ok (queues.next_service (queued_blocks_of self.old.pool))))
            self.old self.new (Ok result) }
    {
        self.pool.next_service()
    }
}
