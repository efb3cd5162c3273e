//! Three modules of STREAMS for the scheduler: one puts a header with a sequence number ahead of data, one acknowledges requests, and
//! one flushes. In a stream, the write side has the first queues, and the read side the others, in the other direction: a module that
//! has queue `q` has also queue `last - q`.
ghost use Rattle.std.specs.Prelude.{◌≡◌, IsTrue, [], length, max, min, slice_index_or, false};
ghost use Rattle.strm_data.specs.MsgType.{same_kind};
ghost use Rattle.strm_header.specs.Modules.{Acknowledges, IsLinkedBehind, Numbers, first_byte, flags_of_flush, flush_steps, flushed_if, is_message_of, is_request, need_of_header, other_of};
ghost use Rattle.strm_mblk.specs.Arena.{has};
ghost use Rattle.strm_mblk.specs.BlockCalls.{testb};
ghost use Rattle.strm_mblk.specs.InPlace as in_place;
ghost use Rattle.strm_scheduler.specs.Laws.{KeepsQueued};

use strm_pool::{Flush, MsgType, Pool, QueuedInfo, Token};
use strm_scheduler::{Module, Need, flush, send};

/// A module that puts a header of two bytes with a sequence number, high byte first, ahead of each message of type `MData`, and
/// passes on all others. It uses the room in the first block if there is enough, and no other block uses its data; otherwise a new
/// block.
#[derive(Clone, Copy, Debug)]
pub struct Numbering {
    /// The number of the next header. 0 follows the last one.
    pub number: u16,
}

/// A module that acknowledges each message of type `MIoctl`: makes it an `MIocack`, and puts it on the queue of its other
/// side. If another block uses its data, or there is no other queue `last - q`, it passes the message on as it is. It passes
/// on all others.
#[derive(Clone, Copy, Debug)]
pub struct Acknowledging {
    /// The last queue of the stream.
    pub last: u8,
}

/// A module that flushes its read queue, its write queue or both if an `MFlush` says so by bits 0 and 1 of its first block's
/// first byte, and passes it on, as all others.
#[derive(Clone, Copy, Debug)]
pub struct Flushing {
    /// The last queue of the stream.
    pub last: u8,
}

// The queue of the other side of the same module (`OTHERQ`), in a stream with this last queue.
const fn other_of(last: u8, queue: u8) -> u8
    ensures { result ≡ other_of last queue }
{
    last.saturating_sub(queue)
}

// Whether two types are the same.
#[tactic(auto, unfolding(strm_data::specs::MsgType::same_kind))]
fn is_kind(kind: MsgType, other: MsgType) -> bool
    ensures { result ≡ same_kind kind other }
{
    kind == other
}

// Whether a message is of this type.
fn is_message_of(kind: MsgType, pool: &Pool, token: &Token) -> bool
    requires { IsTrue (has pool.now.arena token.now) }
    ensures { result ≡ is_message_of kind token.now pool.now.arena }
{
    match pool.block(token, 0) {
        Ok(first) => is_kind(first.kind, kind),
        Err(_) => false,
    }
}

// Puts a header ahead of a message, in a new block of the same band.
fn link_header(pool: &mut Pool, header: &[u8], token: Token) -> Token
    requires has { IsTrue (has pool.old.arena token) }
    requires two { length header.now ≡ 2 }
    requires free { IsTrue (testb 2 pool.old.arena) }
    ensures linked { IsLinkedBehind header.now token result pool.old pool.new }
    ensures has { IsTrue (has pool.new.arena result) }
    ensures keeps { KeepsQueued pool.old pool.new }
{
    pool.lawful();
    let Ok(front) = pool.block(&token, 0) else {
        unreachable!()
    };
    let Ok(mut first) = pool.allocb(2) else {
        unreachable!()
    };
    let Ok(()) = pool.write(&first, 0, header) else {
        unreachable!()
    };
    pool.setband(&first, front.band);
    pool.linkb(&mut first, token);
    first
}

// Whether a message that has left queue `queue` is a request that another queue `to` can get.
fn is_request(pool: &Pool, to: u8, queue: u8, token: &Token) -> bool
    requires { IsTrue (has pool.now.arena token.now) }
    ensures { result ≡ is_request to queue token.now pool.now }
{
    is_message_of(MsgType::MIoctl, pool, token) && to != queue && pool.has_queue(to)
}

// The first of these bytes, or 0.
fn first_of(bytes: &[u8]) -> u8
    ensures { result ≡ slice_index_or bytes.now 0 0 }
{
    match bytes {
        [first, ..] => *first,
        [] => 0,
    }
}

// The first byte of a message's first block, or 0.
fn first_byte(pool: &Pool, token: &Token) -> u8
    requires { IsTrue (has pool.now.arena token.now) }
    ensures { result ≡ first_byte (in_place.bytes token.now.head 0 pool.now.arena) }
{
    match pool.bytes(token, 0) {
        Ok(bytes) => first_of(bytes),
        Err(_) => 0,
    }
}

// What a message says is to be flushed, by bits. Only an `MFlush` says so.
fn flags_of_flush(pool: &Pool, token: &Token) -> u8
    requires { IsTrue (has pool.now.arena token.now) }
    ensures { result ≡ flags_of_flush token.now pool.now.arena }
{
    if is_message_of(MsgType::MFlush, pool, token) {
        first_byte(pool, token)
    } else {
        0
    }
}

// Flushes a queue, if there is one and it is to be flushed.
fn flush_if(so: bool, pool: &mut Pool, queue: u8)
    ensures { pool.new ≡ flushed_if so queue pool.old }
{
    if so && pool.has_queue(queue) {
        flush(pool, queue, Flush::All);
    }
}

impl Module for Numbering {
    ghost needs = { λ m v q i r. r ≡ need_of_header i.kind };

    ghost treats = { λ m v q n t steps k w. Numbers m.number n t steps v k.number w };

    fn need(&self, _pool: &Pool, _queue: u8, first: &QueuedInfo) -> Need {
        if is_kind(first.kind, MsgType::MData) {
            Need::block(2)
        } else {
            Need::none()
        }
    }

    fn treat(&mut self, pool: &mut Pool, _queue: u8, next: u8, token: Token) {
        if !is_message_of(MsgType::MData, pool, &token) {
            send(pool, next, token);
            return;
        }
        let header = [(self.number / 256) as u8, (self.number % 256) as u8];
        self.number = self.number.wrapping_add(1);
        match pool.prepend(&token, &header) {
            Ok(()) => send(pool, next, token),
            Err(_) => {
                let token = link_header(pool, &header, token);
                send(pool, next, token);
            }
        }
    }
}

impl Module for Acknowledging {
    ghost needs = { λ m v q i r. r ≡ record { sizes = []; mblks = 0; later = false } };

    ghost treats = { λ m v q n t steps k w. (k ≡ m) × Acknowledges (other_of m.last q) q n t steps v w };

    fn need(&self, _pool: &Pool, _queue: u8, _first: &QueuedInfo) -> Need {
        Need::none()
    }

    fn treat(&mut self, pool: &mut Pool, queue: u8, next: u8, token: Token) {
        let other = other_of(self.last, queue);
        if !is_request(pool, other, queue, &token) {
            send(pool, next, token);
            return;
        }
        match pool.settype(&token, 0, MsgType::MIocack) {
            Ok(()) => send(pool, other, token),
            Err(_) => send(pool, next, token),
        }
    }
}

impl Module for Flushing {
    ghost needs = { λ m v q i r. r ≡ record { sizes = []; mblks = 0; later = false } };

    ghost treats = { λ m v q n t steps k w. (k ≡ m) × (steps ≡ flush_steps (flags_of_flush t v.arena)
        (max q (other_of m.last q)) (min q (other_of m.last q)) n t v) };

    fn need(&self, _pool: &Pool, _queue: u8, _first: &QueuedInfo) -> Need {
        Need::none()
    }

    fn treat(&mut self, pool: &mut Pool, queue: u8, next: u8, token: Token) {
        let flags = flags_of_flush(pool, &token);
        let other = other_of(self.last, queue);
        flush_if(flags % 2 == 1, pool, queue.max(other));
        flush_if(flags / 2 % 2 == 1, pool, queue.min(other));
        send(pool, next, token);
    }
}
