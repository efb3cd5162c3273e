//! Writers that wait for room on the queue on which they put messages.
ghost use Rattle.std.specs.Prelude.{◌≡◌, ◌<◌, None, Ok, [], IfOk, IfSome, false};
ghost use Rattle.strm_mblk.specs.Calls.{LeavesBlocks};
ghost use Rattle.strm_pool.specs.PoolValue.{arena, on_queues, queued_blocks_of};
ghost use Rattle.strm_queue.specs.Flow as flow;
ghost use Rattle.strm_queue.specs.QueueCalls as queues;
ghost use Rattle.strm_scheduler.specs.Writers as writers;
ghost use Rattle.strm_scheduler.specs.WritersLayout as layout;
ghost use Rattle.strm_scheduler.specs.Writers.{AreOnce, AreWithin, AreWritersWaiting, IsRefused, StayWaiting, let_go, with_answer, with_asked, without_given};

use std::alloc::{AllocError, Global};
use std::marker::Model;
use strm_links::Links;
use strm_pool::{BANDS, MOST_QUEUES, Pool, Refusal};

// A node for each writer.
const NODES: u32 = (MOST_QUEUES * BANDS) as u32;

/// Writers that were refused room, first refused first. A writer is a queue on which messages are put, mostly the first one of a side,
/// and their band. So a queue can have a writer for each band.
///
/// A writer asks about its queue and band before it puts a message ([`bcanput`](Writers::bcanput)). If there is no room, it waits until
/// [`next`](Writers::next) gives it, and then asks again. It may ask before. If it is refused again, it keeps its place. If there is
/// room, it no longer waits.
///
/// Call `next` until it returns none, after all calls that take messages off queues or set water marks.
///
/// STREAMS wakes a writer by the service procedure of a queue that stays empty, and whose next queue is the one on which the
/// writer puts. A side may begin with such a queue: the call that clears the wanted mark also enables it. So a caller that takes
/// queues off the run list itself ([`Pool::next_service`]) needs to call `next` only when that queue is the one. `Sides` does not
/// report that it served an empty queue, so its user calls `next` after each call that serves or takes.
#[derive(Debug, Drop)]
pub struct Writers {
    // One list, of the writers that wait.
    links: Links,
}

impl Model for Writers {
    ghost use Rattle.std.specs.Prelude.{List};
    ghost use Rattle.strm_scheduler.specs.Writers.{Writer};
    ghost use Rattle.strm_scheduler.specs.WritersLayout.{HasPlaces, writers_in};

    ghost Value = { List Writer };

    ghost view = { λ w. writers_in w.links };

    ghost invariant = { λ w. HasPlaces w.links };
}

impl Writers {
    /// No writer waits. Fails if it runs out of memory. No other call allocates. Takes 12 bytes and a step for each band of 16 queues:
    /// a pool has no more.
    pub fn new(alloc: Global) -> Result<Writers, AllocError>
        ensures { IfOk result (λ writers. writers ≡ []) }
    {
        Ok(Writers {
            links: Links::new(alloc, NODES, 1)?,
        })
    }

    /// Says whether a band has room at the target of a queue. If not, the band is wanted there, and the writer of this queue and band
    /// waits. Otherwise it does not wait. Refused as `NoSuchQueue`. As [`Pool::bcanput`], and [`record`](Writers::record) of its answer.
    pub fn bcanput(&mut self, pool: &mut Pool, queue: u8, band: u8) -> Result<bool, Refusal>
        ensures asks { LeavesBlocks arena (on_queues pool.old (queues.bcanput queue band (queued_blocks_of pool.old)))
            pool.old pool.new result }
        ensures recorded { self.new ≡ with_asked queue band result self.old }
        ensures stay { StayWaiting (let_go queue band result) self.old self.new }
        ensures refused { result ≡ Ok false → IsRefused queue band self.new (queued_blocks_of pool.new) }
    {
        pool.lawful();
        let room = pool.bcanput(queue, band)?;
        self.record(queue, band, room);
        pool.lawful();
        Ok(room)
    }

    /// Records what a call has answered to a writer that asked: for [`Sides`](crate::Sides), whose `bcanput` asks. A writer that is
    /// refused comes last, unless it waits already: then it keeps its place. One for which there is room no longer waits. No other
    /// writer changes. Does nothing if no pool has such a queue. Takes constant time.
    pub fn record(&mut self, queue: u8, band: u8, room: bool)
        ensures recorded { self.new ≡ with_answer queue band room self.old }
        ensures stay { StayWaiting (let_go queue band (Ok room)) self.old self.new }
    {
        self.links.parts_nodes();
        if usize::from(queue) >= MOST_QUEUES {
            return;
        }
        let node = u32::from(queue) * BANDS as u32 + u32::from(band);
        match self.links.list_of(node) {
            Some(_) => {
                if room {
                    self.links.remove(node);
                }
            }
            None => {
                if !room {
                    self.links.push_back(0, node);
                }
            }
        }
    }

    /// Returns the first refused writer, as queue and band, of those whose band is no longer wanted at the target of their queue. It no
    /// longer waits; all others do. A wanted mark is cleared exactly when the band has drained to its low water mark.
    ///
    /// If there is none, each writer that waits does so for a band that is wanted, and has more bytes than its low water mark. So
    /// no wake-up of a writer is lost. Takes a step for each writer up to the one that is returned, and for each queue on the way to
    /// their targets.
    pub fn next(&mut self, pool: &Pool) -> Option<(u8, u8)>
        ensures first { result ≡ writers.first_ready pool.now.queues self.old }
        ensures given { self.new ≡ without_given result self.old }
        ensures stay { StayWaiting result self.old self.new }
        ensures waits { result ≡ None → AreWritersWaiting self.new (queued_blocks_of pool.now) }
    {
        pool.lawful();
        let (queue, band) = self.first_ready(pool)?;
        self.record(queue, band, true);
        Some((queue, band))
    }

    /// Law: no writer waits twice. Each has a queue that a pool can have. Does nothing.
    pub fn lawful(&self)
        ensures once { AreOnce self.now }
        ensures within { AreWithin self.now }
    {
        self.links.parts_nodes();
    }

    // The first writer whose band is no longer wanted, if any.
    fn first_ready(&self, pool: &Pool) -> Option<(u8, u8)>
        ensures { result ≡ writers.first_ready pool.now.queues self.now }
    {
        self.links.reads_alike();
        let mut at = self.links.front(0);
        for _writer in 0..self.links.len(0) {
            let node = at?;
            let (queue, band) = writer_of(node);
            if !is_wanted(pool, queue, band) {
                return Some((queue, band));
            }
            at = self.links.next(node);
        }
        None
    }
}

// The queue and the band of the writer that has this node.
fn writer_of(node: u32) -> (u8, u8)
    requires { node < 4096 }
    ensures { result ≡ layout.writer_of node }
{
    let bands = BANDS as u32;
    ((node / bands) as u8, (node % bands) as u8)
}

// Whether a writer's band is wanted at the target of its queue.
fn is_wanted(pool: &Pool, queue: u8, band: u8) -> bool
    ensures { result ≡ writers.is_wanted pool.now.queues (queue, band) }
{
    pool.lawful();
    match pool.band_info(target(pool, queue), band) {
        Ok(info) => info.wanted,
        Err(_) => false,
    }
}

// The queue that `bcanput` asks about this one.
fn target(pool: &Pool, queue: u8) -> u8
    ensures { result ≡ flow.target pool.now.queues.specs queue }
{
    pool.lawful();
    let Ok(spec) = pool.queue_spec(queue) else {
        return queue;
    };
    if spec.service {
        return queue;
    }
    match spec.next {
        Some(next) => target(pool, next),
        None => queue,
    }
}
