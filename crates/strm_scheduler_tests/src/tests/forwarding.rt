ghost use Rattle.std.specs.Prelude.{IsTrue};
ghost use Rattle.strm_mblk.specs.Arena.{has};

use super::configured;
use arrayvec::ArrayVec;
use std::alloc::Global;
use std::process::Abort;
use strm_pool::{
    ClassSpec, ClassSpecs, Config, MsgType, NewFault, Pool, QueueSpec, QueueSpecs, Refusal,
    Rejected, Token,
};
use strm_scheduler::{Writers, forward};

// Opens a pool with two queues; queue 1 is next of queue 0.
fn opened(alloc: Global) -> Result<Pool, NewFault> {
    let mut classes = ArrayVec::new();
    classes.push(ClassSpec { size: 64, count: 8 });
    let mut queues = ArrayVec::new();
    queues.push(queue(100, 50, Some(1)));
    queues.push(queue(10, 4, None));
    let config = Config {
        id: 1,
        mblks: 8,
        classes: ClassSpecs::of(classes),
        queues: QueueSpecs::of(queues),
        bufcalls: 0,
        first_id: 1,
    };
    Pool::new(alloc, config)
}

// The spec of a queue with these water marks and a service procedure.
const fn queue(hiwat: u32, lowat: u32, next: Option<u8>) -> QueueSpec {
    QueueSpec {
        hiwat,
        lowat,
        service: true,
        next,
    }
}

// Gives a message its bytes and its type.
fn fill(pool: &mut Pool, token: &Token, kind: MsgType, bytes: &[u8]) -> Result<(), Refusal>
    requires { IsTrue (has pool.old.arena token.now) }
    ensures { IsTrue (has pool.new.arena token.now) }
{
    pool.write(token, 0, bytes)?;
    pool.settype(token, 0, kind)
}

// Puts a message of these bytes on a queue. If that is refused, the message is freed.
fn post(pool: &mut Pool, queue: u8, kind: MsgType, bytes: &[u8]) -> Result<(), Refusal> {
    let token = pool.allocb(16)?;
    if let Err(why) = fill(pool, &token, kind, bytes) {
        pool.freemsg(token);
        return Err(why);
    }
    match pool.putq(queue, token) {
        Ok(()) => Ok(()),
        Err(Rejected { why, token }) => {
            pool.freemsg(token);
            Err(why)
        }
    }
}

// Takes the first message off a queue, frees it, and returns its first byte.
fn taken(rt: &impl Abort, pool: &mut Pool, queue: u8) -> u8 {
    let Ok(Some(token)) = pool.getq(queue) else {
        panic!(rt; "no message")
    };
    let mut bytes = [0];
    pool.read(&token, 0, &mut bytes);
    pool.freemsg(token);
    bytes[0]
}

// A call, and what it has to return.
#[derive(Clone, Copy)]
enum Row {
    // Puts a message of this type and these bytes on queue 0.
    Put(MsgType, [u8; 4]),
    // `forward` from one queue to another returns this.
    Forward(u8, u8, Result<u32, Refusal>),
    // `next_service` takes this queue, or none.
    Next(Option<u8>),
    // The first message of queue 1 is taken off; its first byte is this.
    Take(u8),
}

// A message of this type and these bytes can be put on queue 0.
fn assert_posted(rt: &impl Abort, pool: &mut Pool, kind: MsgType, bytes: &[u8; 4]) {
    assert!(rt; post(pool, 0, kind, bytes) == Ok(()));
}

// `forward` from one queue to another returns this.
fn assert_forwarded(
    rt: &impl Abort,
    pool: &mut Pool,
    from: u8,
    to: u8,
    wanted: Result<u32, Refusal>,
) {
    assert!(rt; from != to);
    assert!(rt; forward(pool, from, to) == wanted);
}

// The call of a row returns what it has to.
fn assert_row(rt: &impl Abort, pool: &mut Pool, row: &Row) {
    match row {
        Row::Put(kind, bytes) => assert_posted(rt, pool, *kind, bytes),
        Row::Forward(from, to, wanted) => assert_forwarded(rt, pool, *from, *to, *wanted),
        Row::Next(wanted) => assert!(rt; pool.next_service() == *wanted),
        Row::Take(wanted) => assert!(rt; taken(rt, pool, 1) == *wanted),
    }
}

// The census is this: free, queued and held message blocks.
fn assert_census(rt: &impl Abort, pool: &Pool, wanted: (u32, u32, u32)) {
    let census = pool.census();
    assert!(rt; (census.free, census.queued, census.held) == wanted);
}

// The calls of these rows return what they have to. Then the census is this.
fn assert_each(rt: &impl Abort, pool: &mut Pool, rows: &[Row], census: (u32, u32, u32)) {
    for row in rows {
        assert_row(rt, pool, row);
    }
    assert_census(rt, pool, census);
}

// The same on a new pool.
fn assert_rows(rt: &impl Abort, alloc: Global, rows: &[Row], census: (u32, u32, u32)) {
    let mut pool = opened(alloc).expect(rt, "a pool");
    assert_each(rt, &mut pool, rows, census);
}

// Three of four messages go; then queue 1 has 12 bytes, above its high water mark of 10. A high priority message goes before
// the fourth all the same. Once queue 1 has at most 4 bytes, queue 0 is enabled again, and the fourth goes too.
#[test]
fn forwards_while_there_is_room(rt: HostRuntime) {
    let rows = [
        Row::Put(MsgType::MData, *b"1..."),
        Row::Put(MsgType::MData, *b"2..."),
        Row::Put(MsgType::MData, *b"3..."),
        Row::Put(MsgType::MData, *b"4..."),
        Row::Forward(0, 1, Ok(3)),
        Row::Put(MsgType::MPcproto, *b"0..."),
        Row::Forward(0, 1, Ok(1)),
        Row::Next(Some(0)),
        Row::Next(Some(1)),
        Row::Next(None),
        Row::Take(b'0'),
        Row::Next(None),
        Row::Take(b'1'),
        Row::Next(None),
        Row::Take(b'2'),
        Row::Next(Some(0)),
        Row::Forward(0, 1, Ok(1)),
    ];
    assert_rows(&rt, rt.alloc(), &rows, (6, 2, 0));
}

#[test]
fn asks_for_both_queues(rt: HostRuntime) {
    let rows = [
        Row::Put(MsgType::MData, *b"1..."),
        Row::Forward(2, 1, Err(Refusal::NoSuchQueue)),
        Row::Forward(0, 2, Err(Refusal::NoSuchQueue)),
    ];
    assert_rows(&rt, rt.alloc(), &rows, (7, 1, 0));
}

// A call of writers and their pool, and what it returns.
#[derive(Clone, Copy)]
enum Asked {
    // Puts a message of this band and this number of bytes on queue 2.
    Put(u8, usize),
    // Takes the first message off queue 2.
    Take,
    // Gives a band of queue 2 this high and this low water mark.
    Marks(u8, u32, u32),
    // The writer of a queue asks about a band.
    Ask(u8, u8, Result<bool, Refusal>),
    // `next` gives this writer, or none.
    Next(Option<(u8, u8)>),
}

// A message of this band and this number of bytes can be put on queue 2.
fn assert_band_put(rt: &impl Abort, pool: &mut Pool, band: u8, size: usize) {
    let token = pool.allocb(16).expect(rt, "a block");
    assert!(rt; pool.has(&token));
    assert!(rt; pool.write(&token, 0, &[0; 16][..size]).is_ok());
    pool.setband(&token, band);
    if let Err(Rejected { why, token }) = pool.putq(2, token) {
        pool.freemsg(token);
        panic!(rt; "{why:?}");
    }
}

// The call of a row returns what it has to.
fn assert_asked(rt: &impl Abort, pool: &mut Pool, writers: &mut Writers, row: &Asked) {
    match row {
        Asked::Put(band, size) => assert_band_put(rt, pool, *band, *size),
        Asked::Take => {
            taken(rt, pool, 2);
        }
        Asked::Marks(band, hiwat, lowat) => {
            assert!(rt; pool.strqset(2, *band, *hiwat, *lowat).is_ok());
        }
        Asked::Ask(queue, band, wanted) => {
            assert!(rt; writers.bcanput(pool, *queue, *band) == *wanted);
        }
        Asked::Next(wanted) => assert!(rt; writers.next(pool) == *wanted),
    }
}

// Four queues. Queue 2 has a service procedure, and 8 bytes fill a band there; its low water mark is 2. Queues 0 and 1 have none, so
// their target is queue 2.
fn passed(rt: &impl Abort, alloc: Global) -> Pool {
    let passes = |next| QueueSpec {
        service: false,
        ..queue(1, 0, Some(next))
    };
    let specs = [
        passes(1),
        passes(2),
        queue(8, 2, Some(3)),
        queue(1, 0, None),
    ];
    let config = configured(rt, 1, ClassSpec { size: 64, count: 8 }, &specs);
    Pool::new(alloc, config).expect(rt, "a pool")
}

// The calls of these rows return what they have to. Then no writer is ready, also none of a queue that no pool has.
fn assert_all_asked(rt: &impl Abort, alloc: Global, rows: &[Asked]) {
    let mut pool = passed(rt, alloc);
    let mut writers = Writers::new(alloc).expect(rt, "writers");
    for row in rows {
        assert_asked(rt, &mut pool, &mut writers, row);
    }
    writers.record(255, 0, false);
    assert!(rt; writers.next(&pool).is_none());
}

// A writer is given once its band has drained to its low water mark, and not before, nor twice. It no longer waits once it was
// answered that there is room.
#[test]
fn writers_wait_for_room(rt: HostRuntime) {
    let rows = [
        Asked::Ask(0, 0, Ok(true)),
        Asked::Put(0, 8),
        Asked::Next(None),
        Asked::Ask(0, 0, Ok(false)),
        Asked::Put(1, 8),
        Asked::Ask(2, 1, Ok(false)),
        Asked::Next(None),
        Asked::Take,
        Asked::Next(Some((2, 1))),
        Asked::Next(None),
        Asked::Take,
        Asked::Next(Some((0, 0))),
        Asked::Next(None),
        // One byte is left above the low water mark, and then none.
        Asked::Put(0, 5),
        Asked::Put(0, 3),
        Asked::Ask(1, 0, Ok(false)),
        Asked::Take,
        Asked::Next(None),
        Asked::Take,
        Asked::Next(Some((1, 0))),
        // There is room, although the band is still wanted.
        Asked::Put(0, 5),
        Asked::Put(0, 3),
        Asked::Ask(1, 0, Ok(false)),
        Asked::Take,
        Asked::Ask(1, 0, Ok(true)),
        Asked::Take,
        Asked::Next(None),
        // Other water marks, and queues that do not exist.
        Asked::Put(0, 8),
        Asked::Ask(0, 0, Ok(false)),
        Asked::Marks(0, 20, 8),
        Asked::Ask(4, 0, Err(Refusal::NoSuchQueue)),
        Asked::Ask(255, 0, Err(Refusal::NoSuchQueue)),
        Asked::Next(Some((0, 0))),
        Asked::Next(None),
        Asked::Take,
    ];
    assert_all_asked(&rt, rt.alloc(), &rows);
}

// A queue has a writer for each band. One that was refused is given once its band has drained, whatever the queue is answered about
// other bands.
#[test]
fn writers_wait_for_each_band(rt: HostRuntime) {
    let rows = [
        Asked::Put(0, 8),
        Asked::Put(1, 8),
        Asked::Ask(0, 1, Ok(false)),
        Asked::Ask(0, 0, Ok(false)),
        Asked::Ask(0, 2, Ok(true)),
        Asked::Next(None),
        Asked::Take,
        Asked::Next(Some((0, 1))),
        Asked::Next(None),
        Asked::Take,
        Asked::Next(Some((0, 0))),
        Asked::Next(None),
        // Room in band 0 leaves the writer of band 1 waiting.
        Asked::Put(1, 8),
        Asked::Ask(0, 1, Ok(false)),
        Asked::Ask(0, 0, Ok(true)),
        Asked::Next(None),
        Asked::Take,
        Asked::Next(Some((0, 1))),
    ];
    assert_all_asked(&rt, rt.alloc(), &rows);
}

// Of writers that are ready, the first refused is given, whatever its queue. One that is refused again keeps its place, and comes last
// if it was given before. So a writer of queue 0 that fills the band again and again does not starve the others.
#[test]
fn writers_are_given_in_turn(rt: HostRuntime) {
    let rows = [
        Asked::Put(0, 8),
        Asked::Ask(2, 0, Ok(false)),
        Asked::Ask(1, 0, Ok(false)),
        Asked::Ask(0, 0, Ok(false)),
        Asked::Ask(2, 0, Ok(false)),
        Asked::Take,
        Asked::Next(Some((2, 0))),
        Asked::Put(0, 8),
        Asked::Ask(2, 0, Ok(false)),
        Asked::Take,
        Asked::Next(Some((1, 0))),
        Asked::Put(0, 8),
        Asked::Ask(1, 0, Ok(false)),
        Asked::Take,
        Asked::Next(Some((0, 0))),
        Asked::Put(0, 8),
        Asked::Ask(0, 0, Ok(false)),
        Asked::Take,
        Asked::Next(Some((2, 0))),
        Asked::Next(Some((1, 0))),
        Asked::Next(Some((0, 0))),
        // Writers behind one that still waits are given.
        Asked::Put(0, 8),
        Asked::Put(1, 8),
        Asked::Ask(0, 0, Ok(false)),
        Asked::Ask(2, 1, Ok(false)),
        Asked::Ask(1, 1, Ok(false)),
        Asked::Take,
        Asked::Next(Some((2, 1))),
        Asked::Next(Some((1, 1))),
        Asked::Next(None),
        Asked::Take,
        Asked::Next(Some((0, 0))),
    ];
    assert_all_asked(&rt, rt.alloc(), &rows);
}
