//! Queues by number: what is stored of each, and the laws that the calls on them keep.
ghost use Rattle.std.specs.Prelude.{◌≡◌, ◌+◌, ◌<◌, ◌≤◌, ◌^◌, ℕ, IfOk, IsTrue, None, Some, false, is_some, length, nat_lt, reverse, sum_by, true};
ghost use Rattle.std.specs.List.{All};
ghost use Rattle.strm_links.specs.Rows as rows;
ghost use Rattle.strm_mblk.specs.Arena.{shelf_at};
ghost use Rattle.strm_mblk.specs.Shelves.{heads_at};
ghost use Rattle.strm_queue.specs.Flow.{AreMarksApart, band_count, band_of_rank, bytes_on, every_band, flags_at, hiwat_of, marks_at, marks_of, spec_at};
ghost use Rattle.strm_queue.specs.Limits.{bands, most_queues, ranks};
ghost use Rattle.strm_queue.specs.QueueSpecs.{are_lawful};
ghost use Rattle.strm_queue.specs.QueuedBlocks.{Agrees, AreCountsTrue, AreMarksLawful, AreFullMarksTrue, opening_value, tally_at, with_front_left, with_tally};
ghost use Rattle.strm_queue.specs.QueuesLayout.{new_queue};
ghost use Rattle.strm_queue.specs.Rank.{is_ordered, rank_of};
ghost use Rattle.strm_queue.specs.Tallies.{IsFollowing, IsMarkTrue, IsNumbered, IsUseTrue, count_of, end_after_joining, first_in, last_in, one_less, one_more, with_full_mark, AreAmong};

mod asking;
mod counts;
mod enabling;
mod flags;
mod flushing;
mod getting;
mod looking;
mod marking;
mod places;
mod putting;
mod settling;
mod shelving;
mod taking;

use crate::band_set::Wanted;
use crate::mark_table::MarkTable;
use crate::marks::Marks;
use crate::queue_spec::QueueSpec;
use crate::tally::{Leaving, Placed, Tally, band_of};
pub use putting::BurstPlace;
use std::alloc::{AllocError, Global};
use std::marker::Model;
use strm_links::Links;
use strm_mblk::Blocks;

/// Up to 16 queues of messages, numbered from 0, over a `Blocks`, whose shelf q has the messages of queue q.
///
/// High priority messages come first, then those of greater bands. Among equal messages, `putq` puts a message last,
/// `putbq` first, and `insq` at a place that the caller chooses. A queue also has flags:
///
/// * want to read: at first, and once `getq` finds the queue empty, until `getq` returns a message.
/// * no enabling: `noenable` switched enabling off.
/// * wanted, for each band: `bcanput` found the band full, and it has not drained to its low water mark since.
///
/// Each band has two water marks: at first those of its queue's spec, then those of the last `strqset`. A queue that is
/// enabled is on the run list until `next_service` takes it off.
///
/// Calls that touch messages also take the `Blocks`, and require that the two agree (`Agrees`). That means: there is a
/// shelf for each queue, in priority order; what is stored of it is true; wanted bands have more bytes than their low
/// water mark. New `Queues` agree with new `Blocks` of as many shelves. All calls here keep this, and so does every
/// call of `Blocks` except `shelve` and `unshelve`.
///
/// Only `new` allocates. The source is the UNIX System V Release 4 Programmer's Guide: STREAMS.
#[derive(Debug, Drop)]
pub struct Queues {
    queues: Vec<Queue>,
    // List 0 has the queues that wait to be served; queue q is node q.
    run: Links,
}

#[derive(Debug, Drop)]
struct Queue {
    spec: QueueSpec,
    // What is stored of the queue's messages.
    tally: Tally,
    // The water marks of the queue's bands.
    marks: MarkTable,
    // The flags: want to read, no enabling, and the wanted bands.
    read: bool,
    noenable: bool,
    wanted: Wanted,
}

impl Model for Queues {
    ghost use Rattle.strm_queue.specs.QueuedBlocks.{QueuesValue};

    ghost Value = { QueuesValue };

    ghost use Rattle.strm_queue.specs.QueuesLayout.{IsSound, value_of};

    ghost view = { value_of };

    ghost invariant = { IsSound };
}

impl Queue {
    // A queue without messages.
    fn new(spec: QueueSpec) -> Queue
        ensures { result ≡ new_queue spec }
    {
        Queue {
            spec,
            tally: Tally::new(),
            marks: MarkTable::new(Marks {
                hiwat: spec.hiwat,
                lowat: spec.lowat,
            }),
            read: true,
            noenable: false,
            wanted: Wanted::new(),
        }
    }
}

impl Queues {
    /// Makes empty queues from 1 to 16 specs. Each low water mark must be below the high one. A next queue must exist, have
    /// a greater number than its own queue, and be named once. If memory is refused, this returns `AllocError` and keeps
    /// none.
    pub fn new(alloc: Global, specs: &[QueueSpec]) -> Result<Queues, AllocError>
        requires { IsTrue (are_lawful specs.now) }
        ensures { IfOk result (λ v. v ≡ opening_value specs.now) }
    {
        let count = specs.len() as u32;
        let mut queues = Vec::with_capacity(alloc, specs.len())?;
        for spec in specs {
            queues.push(Queue::new(*spec))?;
        }
        let run = Links::new(alloc, count, 1)?;
        Ok(Queues { queues, run })
    }

    /// Says whether there is a queue of this number.
    pub fn has_queue(&self, queue: u8) -> bool
        ensures { result ≡ nat_lt queue (length self.now.state.specs) }
    {
        usize::from(queue) < self.queues.len()
    }

    // What is stored of the messages on a queue.
    fn tally(&self, queue: u8) -> &Tally
        requires { queue < length self.now.state.specs }
        ensures { result.now ≡ tally_at self.now queue }
    {
        &self.queues[usize::from(queue)].tally
    }

    // Notes that a message has joined a queue; `follows` says that it is known to follow the last one of its rank.
    #[inline(always)]
    fn join(&mut self, queue: u8, placed: Placed, follows: bool)
        requires queue { queue < length self.old.state.specs }
        requires rank { placed.rank < ranks }
        requires numbered { IsNumbered placed }
        requires len { (tally_at self.old queue).len + 1 < 2 ^ 32 }
        requires bytes { (tally_at self.old queue).bytes + placed.size < 2 ^ 32 }
        requires count { count_of (tally_at self.old queue) (band_of_rank placed.rank) + placed.size < 2 ^ 32 }
        requires marked { let band = band_of_rank placed.rank in
            IsMarkTrue (hiwat_of self.old.state queue band) band (tally_at self.old queue) }
        requires last { placed.behind ≡ None
            → end_after_joining (last_in (tally_at self.old queue) placed.rank) placed.ahead placed.head
            ≡ Some placed.head }
        requires follows { IsTrue follows → IsFollowing placed (tally_at self.old queue) }
        ensures { self.new ≡ with_tally queue (one_more (hiwat_of self.old.state queue (band_of_rank placed.rank))
            placed (tally_at self.old queue)) self.old }
    {
        let hiwat = self.hiwat(queue, band_of(placed.rank));
        self.queues[usize::from(queue)]
            .tally
            .join(hiwat, placed, follows);
    }

    // Notes that a message has left a queue.
    #[inline(always)]
    fn leave(&mut self, queue: u8, placed: Placed)
        requires queue { queue < length self.old.state.specs }
        requires rank { placed.rank < ranks }
        requires numbered { IsNumbered placed }
        requires len { 1 ≤ (tally_at self.old queue).len }
        requires bytes { placed.size ≤ (tally_at self.old queue).bytes }
        requires count { placed.size ≤ count_of (tally_at self.old queue) (band_of_rank placed.rank) }
        requires marked { let band = band_of_rank placed.rank in
            IsMarkTrue (hiwat_of self.old.state queue band) band (tally_at self.old queue) }
        requires first { placed.ahead ≡ None
            → first_in (tally_at self.old queue) placed.rank ≡ Some placed.head }
        requires more { rows.is_some_of placed.head (last_in (tally_at self.old queue) placed.rank) ≡ false
            → is_some placed.behind ≡ true }
        requires used { IsUseTrue placed.rank (tally_at self.old queue) }
        ensures { self.new ≡ with_tally queue (one_less (hiwat_of self.old.state queue (band_of_rank placed.rank))
            placed (tally_at self.old queue)) self.old }
    {
        let hiwat = self.hiwat(queue, band_of(placed.rank));
        self.queues[usize::from(queue)].tally.leave(hiwat, placed);
    }

    // Notes that the first messages of a rank have left a queue, but not all.
    #[inline(always)]
    fn leave_front(&mut self, queue: u8, leaving: Leaving)
        requires queue { queue < length self.old.state.specs }
        requires among { AreAmong leaving (tally_at self.old queue) }
        requires marked { let band = band_of_rank leaving.rank in
            IsMarkTrue (hiwat_of self.old.state queue band) band (tally_at self.old queue) }
        requires some { is_some (first_in (tally_at self.old queue) leaving.rank) ≡ true }
        ensures { self.new ≡ with_front_left queue leaving self.old }
    {
        let hiwat = self.hiwat(queue, band_of(leaving.rank));
        self.queues[usize::from(queue)]
            .tally
            .leave_front(hiwat, leaving);
    }

    // Stores anew whether a band of a queue is full.
    fn recount(&mut self, queue: u8, band: u8)
        requires { queue < length self.old.state.specs }
        ensures { self.new ≡ with_tally queue (with_full_mark (hiwat_of self.old.state queue band)
            band (tally_at self.old queue)) self.old }
    {
        let hiwat = self.hiwat(queue, band);
        self.queues[usize::from(queue)].tally.recount(hiwat, band);
    }

    // The spec that a queue was made with.
    fn spec(&self, queue: u8) -> QueueSpec
        requires { queue < length self.now.state.specs }
        ensures { result ≡ spec_at self.now.state.specs queue }
    {
        self.queues[usize::from(queue)].spec
    }

    // The water marks of a band of a queue.
    fn marks(&self, queue: u8, band: u8) -> Marks
        requires { queue < length self.now.state.specs }
        ensures { result ≡ marks_at self.now.state queue band }
    {
        self.queues[usize::from(queue)].marks.at(band)
    }

    // The high water mark of a band of a queue.
    fn hiwat(&self, queue: u8, band: u8) -> u32
        requires { queue < length self.now.state.specs }
        ensures { result ≡ hiwat_of self.now.state queue band }
    {
        self.marks(queue, band).hiwat
    }

    // Law: the specs are lawful, and each low water mark is below its high one. Does nothing.
    fn made_lawful(&self)
        ensures specs { IsTrue (are_lawful self.now.state.specs) }
        ensures apart { AreMarksApart self.now.state }
    {
        let _ = &self.queues;
    }

    /// Law: queues that agree with message blocks are in priority order, and what is stored of them is true. Does nothing.
    #[tactic(auto, using(crate::proofs::Laid::run_short))]
    pub fn lawful(&self, blocks: &Blocks)
        requires { Agrees self.now blocks.now }
        // The specs are lawful. There are at most `MOST_QUEUES` queues. Each has flags, with a wanted mark for each band, and
        // water marks for each band. The run list is no longer than the number of queues.
        ensures specs { IsTrue (are_lawful self.now.state.specs) }
        ensures few { length self.now.state.specs ≤ most_queues }
        ensures flagged { length self.now.state.flags ≡ length self.now.state.specs }
        ensures marked { length self.now.state.marks ≡ length self.now.state.specs }
        ensures banded { (queue : ℕ) → queue < length self.now.state.specs
            → (length (flags_at self.now.state queue).wanted ≡ bands)
            × (length (marks_of self.now.state queue) ≡ bands) }
        ensures short { length self.now.state.run ≤ length self.now.state.specs }
        // Each queue is in priority order. Following `after` from the first head on its shelf gives the heads of its
        // messages, and following `before` from the last one gives them in reverse.
        ensures ordered { (queue : ℕ) → IsTrue (is_ordered (rank_of blocks.now.store) (shelf_at blocks.now queue)) }
        ensures forward { (queue : ℕ) → let heads = heads_at blocks.now queue in
            rows.Reads (λ head. rows.after head heads) (rows.first heads) heads }
        ensures backward { (queue : ℕ) → let heads = heads_at blocks.now queue in
            rows.Reads (λ head. rows.before head heads) (rows.last heads) (reverse heads) }
        // The stored counts are true: each band has as many bytes as its messages. So are the full marks: a band is full if
        // that is at least its high water mark.
        ensures counts { (queue : ℕ) → queue < length self.now.state.specs → AreCountsTrue self.now blocks.now queue }
        ensures full { (queue : ℕ) → queue < length self.now.state.specs → AreFullMarksTrue self.now blocks.now queue }
        // The low water mark of each band is below its high one, and a wanted band has more bytes than its low water mark.
        ensures apart { AreMarksApart self.now.state }
        ensures marks { (queue : ℕ) → AreMarksLawful self.now.state blocks.now queue }
        // The bytes of a queue's bands add up to those of its messages.
        ensures whole { (queue : ℕ) → sum_by (λ band. band_count blocks.now.store band (shelf_at blocks.now queue))
            every_band ≡ bytes_on (shelf_at blocks.now queue) }
        // No queue is on the run list twice, and each queue on it has a service procedure.
        ensures once { rows.IsApart self.now.state.run }
        ensures served { All (λ queue. IsTrue (spec_at self.now.state.specs queue).service) self.now.state.run }
    {
        blocks.reads_alike();
        self.run.parts_nodes();
    }
}
