//! The flags of a queue: want to read, no enabling, and the wanted bands.
ghost use Rattle.std.specs.Prelude.{◌≡◌, ◌<◌, ℕ, false, length};
ghost use Rattle.strm_mblk.specs.Calls.{LeavesBlocks};
ghost use Rattle.strm_queue.specs.Flow.{flags_at, has_band, lowat_of, some_relieved, still_wanted, with_flags, with_noenable, with_read, with_wanted};
ghost use Rattle.strm_mblk.specs.Arena.{Arena};
ghost use Rattle.strm_queue.specs.QueueCalls.{switch_enabling};
ghost use Rattle.strm_queue.specs.Tallies.{count_of};
ghost use Rattle.strm_queue.specs.QueuedBlocks.{Agrees, tally_at, queued_blocks, arena};

use super::{Queue, Queues};
use strm_data::Refusal;

impl Queues {
    // Whether the want-to-read mark is set.
    pub(super) fn is_read(&self, queue: u8) -> bool
        requires { queue < length self.now.state.specs }
        ensures { result ≡ (flags_at self.now.state queue).read }
    {
        self.queues[usize::from(queue)].read
    }

    // Whether enabling is switched off.
    pub(super) fn is_off(&self, queue: u8) -> bool
        requires { queue < length self.now.state.specs }
        ensures { result ≡ (flags_at self.now.state queue).noenable }
    {
        self.queues[usize::from(queue)].noenable
    }

    // Whether the wanted mark of a band is set.
    pub(super) fn is_wanted(&self, queue: u8, band: u8) -> bool
        requires { queue < length self.now.state.specs }
        ensures { result ≡ has_band (flags_at self.now.state queue).wanted band }
    {
        self.queues[usize::from(queue)].wanted.has(band)
    }

    // Whether the wanted mark of any band is set.
    pub(super) fn is_any_wanted(&self, queue: u8) -> bool
        requires { queue < length self.now.state.specs }
        ensures none { result ≡ false → (band : ℕ) → has_band (flags_at self.now.state queue).wanted band ≡ false }
        ensures some { ((band : ℕ) → has_band (flags_at self.now.state queue).wanted band ≡ false) → result ≡ false }
    {
        self.queues[usize::from(queue)].wanted.any()
    }

    // Sets or clears the want-to-read mark.
    pub(super) fn set_read(&mut self, queue: u8, read: bool)
        requires { queue < length self.old.state.specs }
        ensures { self.new ≡ record self.old { state = with_read queue read self.old.state } }
    {
        self.queues[usize::from(queue)].read = read;
    }

    // Switches enabling off or on.
    pub(super) fn set_off(&mut self, queue: u8, off: bool)
        requires { queue < length self.old.state.specs }
        ensures { self.new ≡ record self.old { state = with_noenable queue off self.old.state } }
    {
        self.queues[usize::from(queue)].noenable = off;
    }

    // Switches enabling off or on. Refused as `NoSuchQueue`.
    #[tactic(auto, using(strm_mblk::proofs::arena::Calls::leaves_blocks))]
    pub(super) fn switch(&mut self, queue: u8, off: bool) -> Result<(), Refusal>
        ensures does { (a : Arena) → LeavesBlocks arena (switch_enabling queue off (queued_blocks self.old a))
            (queued_blocks self.old a)
            (queued_blocks self.new a) result }
        ensures agrees { (a : Arena) → Agrees self.old a → Agrees self.new a }
    {
        if !self.has_queue(queue) {
            return Err(Refusal::NoSuchQueue);
        }
        self.set_off(queue, off);
        Ok(())
    }

    // Sets the wanted mark of a band.
    pub(super) fn set_wanted(&mut self, queue: u8, band: u8)
        requires { queue < length self.old.state.specs }
        ensures { self.new ≡ record self.old { state = with_wanted queue band self.old.state } }
    {
        self.queues[usize::from(queue)].wanted.insert(band);
    }

    // Clears the wanted mark of each band that has drained: it has at most as many bytes as its low water mark. Says whether
    // there was any.
    #[inline(always)]
    pub(super) fn relieve(&mut self, queue: u8) -> bool
        requires { queue < length self.old.state.specs }
        ensures flags { let flags = flags_at self.old.state queue in
            self.new ≡ record self.old {
              state = with_flags queue
                  (record flags {
                    wanted = still_wanted flags.wanted (count_of (tally_at self.old queue))
                        (lowat_of self.old.state queue);
                  }) self.old.state;
            } }
        ensures some { result ≡ some_relieved (flags_at self.old.state queue).wanted
            (count_of (tally_at self.old queue)) (lowat_of self.old.state queue) }
    {
        let Queue {
            tally,
            marks,
            wanted,
            ..
        } = &mut self.queues[usize::from(queue)];
        wanted.relieve(tally.counts(), marks.each())
    }
}
