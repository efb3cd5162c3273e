//! The run list: which queue a call enables, and when.
ghost use Rattle.std.specs.Prelude.{◌≡◌, ◌<◌, drop, length};
ghost use Rattle.std.specs.Option.{ForSome};
ghost use Rattle.strm_links.specs.Rows as rows;
ghost use Rattle.strm_queue.specs.Flow as flow;
ghost use Rattle.strm_queue.specs.Flow.{with_enabled, enabled_where, flags_at};

use super::Queues;
use crate::limits::HIGH_RANK;

impl Queues {
    // The first queue with a service procedure from this one on, or else the last one. Takes a step for each queue passed.
    #[tactic(auto, using(crate::proofs::Flow::target_next))]
    pub(super) fn target(&self, queue: u8) -> u8
        requires { queue < length self.now.state.specs }
        ensures value { result ≡ flow.target self.now.state.specs queue }
        ensures there { result < length self.now.state.specs }
    {
        let mut at = queue;
        for _queue in 0..self.queues.len() {
            let spec = self.spec(at);
            if spec.service {
                return at;
            }
            let Some(next) = spec.next else {
                return at;
            };
            at = next;
        }
        at
    }

    // The queue whose next is this one, if any. Takes a step for each queue of lower number.
    #[tactic(auto, using(crate::proofs::Flow::behind_found, crate::proofs::Flow::behind_none, crate::proofs::Flow::names_is))]
    fn behind(&self, queue: u8) -> Option<u8>
        requires { queue < length self.now.state.specs }
        ensures value { result ≡ flow.behind self.now.state.specs queue }
        ensures there { ForSome result (λ other. other < length self.now.state.specs) }
    {
        self.made_lawful();
        for other in 0..queue {
            if self.spec(other).next == Some(queue) {
                return Some(other);
            }
        }
        None
    }

    // The nearest queue behind with a service procedure, if any. At most 15 queues are behind; finding each takes a step
    // for each lower number, at most 120 steps in all.
    pub(super) fn waker(&self, queue: u8) -> Option<u8>
        requires { queue < length self.now.state.specs }
        ensures value { result ≡ flow.waker self.now.state.specs queue }
        ensures there { ForSome result (λ other. other < length self.now.state.specs) }
    {
        let mut at = queue;
        for _queue in 0..self.queues.len() {
            at = self.behind(at)?;
            if self.spec(at).service {
                return Some(at);
            }
        }
        None
    }

    // Whether a queue is on the run list.
    pub(super) fn is_enabled(&self, queue: u8) -> bool
        requires { queue < length self.now.state.specs }
        ensures { result ≡ rows.has queue self.now.state.run }
    {
        self.run.list_of(u32::from(queue)).is_some()
    }

    // Puts a queue at the end of the run list, unless it is on the list or has no service procedure. Takes constant time.
    pub(super) fn enable(&mut self, queue: u8)
        requires { queue < length self.old.state.specs }
        ensures { self.new ≡ record self.old { state = with_enabled queue self.old.state } }
    {
        if self.spec(queue).service && !self.is_enabled(queue) {
            self.run.push_back(0, u32::from(queue));
        }
    }

    // Enables the queue if `so` is true; otherwise nothing changes.
    pub(super) fn enable_where(&mut self, so: bool, queue: u8)
        requires { queue < length self.old.state.specs }
        ensures { self.new ≡ record self.old { state = enabled_where so queue self.old.state } }
    {
        if so {
            self.enable(queue);
        }
    }

    // Whether `putq` of a message of this rank enables the queue.
    pub(super) fn enables_put(&self, queue: u8, rank: u16) -> bool
        requires { queue < length self.now.state.specs }
        ensures { result ≡ flow.enables_put (flags_at self.now.state queue) rank }
    {
        (rank > 0 || self.is_read(queue)) && (rank == HIGH_RANK || !self.is_off(queue))
    }

    // Whether `putbq` of a message of this rank enables the queue.
    pub(super) fn enables_put_back(&self, queue: u8, rank: u16) -> bool
        requires { queue < length self.now.state.specs }
        ensures { result ≡ flow.enables_put_back (flags_at self.now.state queue) rank }
    {
        rank == HIGH_RANK || !self.is_off(queue) && self.is_read(queue)
    }

    // Whether `insq` of a message enables the queue.
    pub(super) fn enables_inserted(&self, queue: u8) -> bool
        requires { queue < length self.now.state.specs }
        ensures { result ≡ flow.enables_inserted (flags_at self.now.state queue) }
    {
        !self.is_off(queue) && self.is_read(queue)
    }

    // Takes the first queue off the run list, if any.
    #[tactic(auto, using(crate::proofs::Laid::lawful_left, crate::proofs::Laid::run_left))]
    pub(super) fn take_first(&mut self) -> Option<u8>
        ensures value { result ≡ rows.first self.old.state.run }
        ensures state { self.new ≡ record self.old {
          state = record self.old.state {
            run = drop 1
                self.old.state.run;
          };
        } }
    {
        self.run.parts_nodes();
        let node = self.run.front(0)?;
        self.run.remove(node);
        Some(node as u8)
    }
}
