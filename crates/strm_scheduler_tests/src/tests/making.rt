//! Makes messages and puts them on queues, takes messages off the last queue of a side, and compares sides with plain lists: each queue
//! with its messages and marks, and the run list.
ghost use Rattle.std.specs.Prelude.{IfOk, IsTrue};
ghost use Rattle.strm_mblk.specs.Arena.{has};
ghost use Rattle.strm_scheduler.specs.Laws.{KeepsQueued};

use super::MOST;
use super::plain::{FRONT, HIGH_RANK, Plain, Queue, Standing, band_of, front_of, rank_of};
use std::alloc::Global;
use std::process::Abort;
use strm_pool::{BandInfo, MsgType, Pool, QueueInfo, QueuedInfo, Refusal, Rejected, Token};
use strm_scheduler::Sides;

// Each byte of a new message.
pub(super) const BYTE: u8 = 7;

// As many of these bytes as a message may have.
pub(super) fn most_bytes(rt: &impl Abort, alloc: Global) -> Vec<u8> {
    let mut bytes = Vec::new(alloc);
    for _byte in 0..MOST {
        assert!(rt; bytes.push(BYTE).is_ok());
    }
    bytes
}

// A message to be made: its type, its band, and the room before its bytes.
#[derive(Clone, Copy)]
pub(super) struct Draft {
    pub(super) kind: MsgType,
    pub(super) band: u8,
    pub(super) room: u32,
}

// A message of a rank, with no room before its bytes.
fn draft_of(rank: u16) -> Draft {
    let (kind, band) = match u8::try_from(rank) {
        Ok(band) => (MsgType::MData, band),
        Err(_) => (MsgType::MPcproto, 0),
    };
    Draft {
        kind,
        band,
        room: 0,
    }
}

// Makes a held message of these bytes, with room before them.
fn filled(pool: &mut Pool, room: u32, bytes: &[u8]) -> Result<Token, Refusal>
    ensures keeps { KeepsQueued pool.old pool.new }
    ensures had { IfOk result (λ token. IsTrue (has pool.new.arena token)) }
{
    let size = u32::try_from(bytes.len()).unwrap_or(u32::MAX);
    let token = pool.allocb(size.saturating_add(room))?;
    let filled = match pool.reserve(&token, 0, room) {
        Ok(()) => pool.write(&token, 0, bytes),
        Err(why) => Err(why),
    };
    match filled {
        Ok(()) => Ok(token),
        Err(why) => {
            pool.freemsg(token);
            Err(why)
        }
    }
}

// Gives a held message of one block a type.
fn typed(pool: &mut Pool, token: Token, kind: MsgType) -> Result<Token, Refusal>
    requires { IsTrue (has pool.old.arena token) }
    ensures keeps { KeepsQueued pool.old pool.new }
    ensures had { IfOk result (λ typed. IsTrue (has pool.new.arena typed)) }
{
    match pool.settype(&token, 0, kind) {
        Ok(()) => Ok(token),
        Err(why) => {
            pool.freemsg(token);
            Err(why)
        }
    }
}

// Gives a held message a band.
fn banded(pool: &mut Pool, token: Token, band: u8) -> Token
    requires { IsTrue (has pool.old.arena token) }
    ensures keeps { KeepsQueued pool.old pool.new }
    ensures had { IsTrue (has pool.new.arena result) }
{
    pool.setband(&token, band);
    token
}

// Makes a held message of these bytes, as a draft says.
fn drafted(pool: &mut Pool, bytes: &[u8], draft: Draft) -> Result<Token, Refusal>
    ensures keeps { KeepsQueued pool.old pool.new }
    ensures had { IfOk result (λ token. IsTrue (has pool.new.arena token)) }
{
    let token = filled(pool, draft.room, bytes)?;
    let token = typed(pool, token, draft.kind)?;
    Ok(banded(pool, token, draft.band))
}

// Makes a held message of a rank with these bytes, if a block is free.
pub(super) fn made(sides: &mut Sides, rank: u16, bytes: &[u8]) -> Result<Token, Refusal>
    ensures { IfOk result (λ token. IsTrue (has sides.new.pool.arena token)) }
{
    made_as(sides, draft_of(rank), bytes)
}

// Makes a held message of these bytes, as a draft says, if a block is free.
fn made_as(sides: &mut Sides, draft: Draft, bytes: &[u8]) -> Result<Token, Refusal>
    ensures { IfOk result (λ token. IsTrue (has sides.new.pool.arena token)) }
{
    sides.change(
        |pool: &mut Pool| -> Result<Token, Refusal>
            ensures keeps { KeepsQueued pool.old pool.new }
            ensures had { IfOk result (λ token. IsTrue (has pool.new.arena token)) }
        { drafted(pool, bytes, draft) },
    )
}

// Makes a message of a rank with these bytes, if a block is free, and puts it on a queue. Returns what it then is, or why there
// is none.
pub(super) fn put(
    sides: &mut Sides,
    queue: u8,
    rank: u16,
    bytes: &[u8],
) -> Result<Standing, Refusal> {
    put_as(sides, queue, draft_of(rank), bytes)
}

// The same for a message as a draft says.
pub(super) fn put_as(
    sides: &mut Sides,
    queue: u8,
    draft: Draft,
    bytes: &[u8],
) -> Result<Standing, Refusal> {
    let token = made_as(sides, draft, bytes)?;
    let head = token.head();
    match sides.put(queue, token) {
        Ok(()) => Ok(Standing {
            head: Some(head),
            kind: draft.kind,
            rank: rank_of(draft.kind, draft.band),
            size: u32::try_from(bytes.len()).unwrap_or(u32::MAX),
            front: front_of(bytes),
            blocks: 1,
            room: draft.room,
        }),
        Err(Rejected { why, token }) => {
            sides.freemsg(token);
            Err(why)
        }
    }
}

// A message that was taken: the number of its first block, and its number of bytes.
#[derive(Clone, Copy)]
pub(super) struct Found {
    head: u32,
    size: usize,
}

// Takes the first message off the last queue of a side, if any, reads its bytes, and frees it.
pub(super) fn taken(
    sides: &mut Sides,
    queue: u8,
    into: &mut [u8],
) -> Result<Option<Found>, Refusal> {
    let Some(token) = sides.take(queue)? else {
        return Ok(None);
    };
    let head = token.head();
    let size = sides.pool().read(&token, 0, into);
    sides.freemsg(token);
    Ok(Some(Found { head, size }))
}

impl Found {
    // It is this message, and these are its bytes.
    pub(super) fn assert_is(&self, rt: &impl Abort, bytes: &[u8], wanted: &Standing) {
        assert_eq!(rt; self.head, wanted.head.unwrap_or(self.head));
        assert_eq!(rt; self.size, wanted.size as usize);
        let bytes = bytes.get(..self.size).expect(rt, "few bytes");
        assert_eq!(rt; front_of(bytes), wanted.front);
        assert!(rt; bytes.iter().skip(FRONT).all(|byte| *byte == BYTE));
    }
}

// The sides have the message of this token.
pub(super) fn assert_had(rt: &impl Abort, sides: &Sides, token: &Token)
    ensures { IsTrue (has sides.now.pool.arena token.now) }
{
    assert!(rt; sides.pool().has(token));
}

// A message was put on a queue.
pub(super) fn assert_put(rt: &impl Abort, sides: &mut Sides, put: Result<(), Rejected>) {
    if let Err(Rejected { why, token }) = put {
        sides.freemsg(token);
        panic!(rt; "{why:?}");
    }
}

// Whether a rank is that of high priority.
pub(super) const fn is_high(rank: u16) -> bool {
    rank == HIGH_RANK
}

// The message at a place of a queue is this one.
fn assert_message(rt: &impl Abort, pool: &Pool, queue: u8, place: u32, wanted: &Standing) {
    let found = pool.queued_at(queue, place).expect(rt, "a message");
    let info = QueuedInfo {
        head: wanted.head.unwrap_or(found.head),
        kind: wanted.kind,
        band: band_of(wanted.rank),
        size: wanted.size,
        blocks: wanted.blocks,
    };
    assert_eq!(rt; found, info);
    let mut front = [0; FRONT];
    let read = pool
        .read_queued(queue, place, 0, &mut front)
        .expect(rt, "a message");
    assert_eq!(rt; read, FRONT.min(wanted.size as usize));
    assert_eq!(rt; front, wanted.front);
}

// Each band of a queue, up to the last one that is named, has the bytes and marks of the plain one.
fn assert_bands(rt: &impl Abort, pool: &Pool, number: u8, queue: &Queue, last: u8) {
    let counts = queue.counts();
    for band in 0..=last {
        let wanted = queue.band(band);
        let bytes = counts[usize::from(band)];
        let info = BandInfo {
            bytes,
            full: bytes >= wanted.hiwat,
            wanted: wanted.wanted,
        };
        assert_eq!(rt; pool.band_info(number, band), Ok(info));
    }
}

// A queue has the messages and marks of the plain one.
fn assert_queue(rt: &impl Abort, pool: &Pool, number: u8, queue: &Queue, enabled: bool) {
    let info = QueueInfo {
        msgs: u32::try_from(queue.messages().len()).expect(rt, "few messages"),
        bytes: queue.bytes(),
        read: queue.read(),
        noenable: false,
        enabled,
    };
    assert_eq!(rt; pool.queue_info(number), Ok(info));
    for (place, message) in (0..u32::MAX).zip(queue.messages()) {
        assert_message(rt, pool, number, place, message);
    }
}

// The run list has these queues, and no others.
fn assert_run(rt: &impl Abort, pool: &Pool, run: &[u8]) {
    for place in 0..=16u8 {
        assert_eq!(rt;
            pool.run_at(u32::from(place)),
            run.get(usize::from(place)).copied()
        );
    }
}

// Sides are as in the plain lists; of the bands, those up to the last one that is named are compared.
pub(super) fn assert_same(rt: &impl Abort, sides: &Sides, plain: &Plain, last: u8) {
    let pool = sides.pool();
    for (number, queue) in (0..u8::MAX).zip(plain.queues()) {
        let enabled = plain.enabled().contains(&number);
        assert_queue(rt, pool, number, queue, enabled);
        assert_bands(rt, pool, number, queue, last);
        assert_eq!(rt; sides.is_short(number), plain.is_short(number));
    }
    assert_run(rt, pool, plain.enabled());
}
