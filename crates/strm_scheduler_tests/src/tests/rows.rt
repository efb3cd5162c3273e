//! Worked rows: which messages go on, which calls are refused, and what calls do that spend a token.
use super::making::{BYTE, assert_had, assert_put as assert_put_on, made, put, taken};
use super::modules::Way;
use super::plain::HIGH_RANK;
use super::{CLASS, MESSAGES, configured, opened, queue};
use arrayvec::ArrayVec;
use std::alloc::Global;
use std::process::Abort;
use strm_pool::{
    ClassSpec, ClassSpecs, Config, NewFault, Pool, QueueSpec, Refusal, Rejected, Token, Which,
};
use strm_scheduler::{Ended, Sides, SidesFault, Writers};

// Three queues in a side. Each band of the last two is full at one byte, and wakes the queue behind at none.
fn narrow() -> [QueueSpec; 3] {
    [
        queue(100, 50, Some(1)),
        queue(1, 0, Some(2)),
        queue(1, 0, None),
    ]
}

// A call on a side of three queues, and what it has to return.
#[derive(Clone, Copy)]
enum Row {
    // A message of this rank and this one byte is put on queue 0.
    Put(u16, u8),
    // A message of this rank and two bytes is put on queue 0.
    PutTwo(u16),
    // Messages of one byte are put on this queue, until one block is free.
    Fill(u8),
    // Queues are served in this way. Then none is enabled, and this one waits for a block, or none does.
    Run(Way, Option<u8>),
    // This queue is enabled, and none waits for a block.
    Woken(u8),
    // Queues are served by a module that needs more than there is for the first message of this queue.
    RunGreedy(u8),
    // While this number of queues are held back, this queue gives a message, which is passed on or put back. Then this number are.
    Pass(u32, u8, u32),
    Hold(u32, u8, u32),
    // While this number of queues are held back, no other queue gives a message.
    Rest(u32),
    // The queues have these numbers of messages.
    Sizes([u32; 3]),
    // The last queue gives the message with this byte.
    Take(u8),
    // Band 0 of the last queue gets this high and this low water mark.
    Marks(u32, u32),
}

// A message of a rank and these bytes can be put on queue 0.
fn assert_put(rt: &impl Abort, sides: &mut Sides, rank: u16, bytes: &[u8]) {
    assert!(rt; put(sides, 0, rank, bytes).is_ok());
}

// A message of this byte, and one of two bytes.
fn assert_put_one(rt: &impl Abort, sides: &mut Sides, rank: u16, byte: u8) {
    assert_put(rt, sides, rank, &[byte]);
}

fn assert_put_two(rt: &impl Abort, sides: &mut Sides, rank: u16) {
    assert_put(rt, sides, rank, &[BYTE, BYTE]);
}

// Puts messages of one byte on a queue, until one block is free.
fn fill(rt: &impl Abort, sides: &mut Sides, queue: u8) {
    for _message in 1..MESSAGES {
        assert!(rt; put(sides, queue, 0, &[BYTE]).is_ok());
    }
}

// The first queue on the run list is this one, and this one waits for a block.
fn assert_waits(rt: &impl Abort, sides: &Sides, first: Option<u8>, short: Option<u8>) {
    assert!(rt; sides.pool().run_at(0) == first);
    for queue in 0..4 {
        assert_eq!(rt; sides.is_short(queue), short == Some(queue));
    }
}

// Serves queues in this way. Then none is enabled, and this one waits for a block, or none does.
fn assert_run(rt: &impl Abort, sides: &mut Sides, way: Way, short: Option<u8>) {
    assert_eq!(rt; way.run(sides), Ended::Idle);
    assert_waits(rt, sides, None, short);
}

// Serves queues by a module that needs more than there is for the first message of this queue, the only one that is left.
fn assert_greedy(rt: &impl Abort, sides: &mut Sides, queue: u8) {
    assert_eq!(rt; Way::Greed.run(sides), Ended::NeverMet(queue));
    assert_eq!(rt; sides.pool().run_at(0), Some(queue));
}

// While this number of queues are held back, this queue gives a message, and then this number are.
fn served(rt: &impl Abort, sides: &mut Sides, held: u32, queue: u8, left: u32) -> Token {
    let Some((service, token)) = sides.serve(held) else {
        panic!(rt; "no queue gives a message")
    };
    assert_eq!(rt;
        (service.queue, service.next, service.held),
        (queue, queue.wrapping_add(1), left)
    );
    assert_had(rt, sides, &token);
    token
}

// The message that this queue gives is passed on.
fn assert_passed(rt: &impl Abort, sides: &mut Sides, held: u32, queue: u8, left: u32) {
    let token = served(rt, sides, held, queue, left);
    let put = sides.put(queue.wrapping_add(1), token);
    assert_put_on(rt, sides, put);
}

// The message that this queue gives is put back.
fn assert_held(rt: &impl Abort, sides: &mut Sides, held: u32, queue: u8, left: u32) {
    let token = served(rt, sides, held, queue, left);
    let put = sides.hold(queue, token);
    assert_put_on(rt, sides, put);
}

// No queue gives a message but those that are held back.
fn assert_rest(rt: &impl Abort, sides: &mut Sides, held: u32) {
    if let Some((_service, token)) = sides.serve(held) {
        sides.freemsg(token);
        panic!(rt; "a queue gives a message");
    }
}

// The queues have these numbers of messages.
fn assert_sizes(rt: &impl Abort, sides: &Sides, sizes: &[u32; 3]) {
    for (number, size) in (0..3).zip(sizes.iter()) {
        assert_eq!(rt; sides.pool().qsize(number), Ok(*size));
    }
}

// The last queue gives the message with this byte.
fn assert_taken(rt: &impl Abort, sides: &mut Sides, byte: u8) {
    let mut bytes = [0];
    let message = taken(sides, 2, &mut bytes).expect(rt, "a last queue");
    assert!(rt; message.is_some() && bytes == [byte]);
}

// The call of a row returns what it has to.
fn assert_row(rt: &impl Abort, sides: &mut Sides, row: &Row) {
    match row {
        Row::Put(rank, byte) => assert_put_one(rt, sides, *rank, *byte),
        Row::PutTwo(rank) => assert_put_two(rt, sides, *rank),
        Row::Fill(queue) => fill(rt, sides, *queue),
        Row::Run(way, short) => assert_run(rt, sides, *way, *short),
        Row::Woken(queue) => assert_waits(rt, sides, Some(*queue), None),
        Row::RunGreedy(queue) => assert_greedy(rt, sides, *queue),
        Row::Pass(held, queue, left) => assert_passed(rt, sides, *held, *queue, *left),
        Row::Hold(held, queue, left) => assert_held(rt, sides, *held, *queue, *left),
        Row::Rest(held) => assert_rest(rt, sides, *held),
        Row::Sizes(sizes) => assert_sizes(rt, sides, sizes),
        Row::Take(byte) => assert_taken(rt, sides, *byte),
        Row::Marks(hiwat, lowat) => { assert!(rt; sides.strqset(2, 0, *hiwat, *lowat) == Ok(())) }
    }
}

// The calls of the rows return what they have to. Then this many messages are on queues, and none is held.
fn assert_each(rt: &impl Abort, sides: &mut Sides, rows: &[Row], queued: u32) {
    for row in rows {
        assert_row(rt, sides, row);
    }
    let census = sides.pool().census();
    assert!(rt; (census.queued, census.held) == (queued, 0));
}

// The same on new sides of these queues.
fn assert_rows(rt: &impl Abort, alloc: Global, specs: &[QueueSpec; 3], rows: &[Row], queued: u32) {
    let mut sides = opened(rt, alloc, specs).expect(rt, "sides");
    assert_each(rt, &mut sides, rows, queued);
}

// One message stays on each queue that is full; each one that is taken lets one message move up.
#[test]
fn a_side_moves_up(rt: HostRuntime) {
    let rows = [
        Row::Put(0, b'a'),
        Row::Put(0, b'b'),
        Row::Put(0, b'c'),
        Row::Sizes([3, 0, 0]),
        Row::Run(Way::Forward, None),
        Row::Sizes([1, 1, 1]),
        Row::Take(b'a'),
        Row::Run(Way::Pass, None),
        Row::Sizes([0, 1, 1]),
        Row::Take(b'b'),
        Row::Run(Way::Forward, None),
        Row::Take(b'c'),
        Row::Run(Way::Pass, None),
    ];
    assert_rows(&rt, rt.alloc(), &narrow(), &rows, 0);
}

// A message of a greater band, and one of high priority, pass messages that wait.
#[test]
fn greater_ranks_pass(rt: HostRuntime) {
    let rows = [
        Row::Put(0, b'a'),
        Row::Run(Way::Forward, None),
        Row::Put(0, b'b'),
        Row::Run(Way::Forward, None),
        Row::Put(0, b'c'),
        Row::Run(Way::Forward, None),
        Row::Sizes([1, 1, 1]),
        Row::Put(5, b'd'),
        Row::Put(HIGH_RANK, b'e'),
        Row::Run(Way::Forward, None),
        Row::Sizes([1, 1, 3]),
        Row::Take(b'e'),
        Row::Take(b'd'),
    ];
    assert_rows(&rt, rt.alloc(), &narrow(), &rows, 3);
}

// New water marks wake the queue behind.
#[test]
fn new_marks_wake(rt: HostRuntime) {
    let rows = [
        Row::Put(0, b'a'),
        Row::Put(0, b'b'),
        Row::Put(0, b'c'),
        Row::Run(Way::Forward, None),
        Row::Sizes([1, 1, 1]),
        Row::Marks(8, 4),
        Row::Run(Way::Forward, None),
        Row::Sizes([0, 0, 3]),
    ];
    assert_rows(&rt, rt.alloc(), &narrow(), &rows, 3);
}

// A module that drops messages leaves room for the others, and frees their blocks.
#[test]
fn a_module_drops(rt: HostRuntime) {
    let rows = [
        Row::Put(0, b'a'),
        Row::Put(0, b'b'),
        Row::Put(0, b'c'),
        Row::Run(Way::Drop, None),
        Row::Sizes([0, 1, 1]),
    ];
    assert_rows(&rt, rt.alloc(), &narrow(), &rows, 2);
}

// Queues with room for all messages.
fn wide() -> [QueueSpec; 3] {
    [
        queue(1_000, 500, Some(1)),
        queue(1_000, 500, Some(2)),
        queue(1_000, 500, None),
    ]
}

// A message for which the module needs a block waits on its queue until one is free. Then its queue is enabled.
#[test]
fn a_module_holds_back(rt: HostRuntime) {
    let rows = [
        Row::Fill(2),
        Row::PutTwo(HIGH_RANK),
        Row::Run(Way::Borrow, Some(0)),
        Row::Sizes([1, 0, MESSAGES.wrapping_sub(1)]),
        Row::Run(Way::Borrow, Some(0)),
        Row::Sizes([1, 0, MESSAGES.wrapping_sub(1)]),
        Row::Take(BYTE),
        Row::Woken(0),
        Row::Run(Way::Borrow, None),
        Row::Sizes([0, 0, MESSAGES.wrapping_sub(1)]),
    ];
    assert_rows(&rt, rt.alloc(), &wide(), &rows, MESSAGES.wrapping_sub(1));
}

// Frees a message, which wakes this queue; another one waits still, or none.
fn assert_wakes(rt: &impl Abort, sides: &mut Sides, token: Token, woken: u8, short: Option<u8>) {
    sides.freemsg(token);
    assert_waits(rt, sides, Some(woken), short);
}

// Two queues wait for blocks of other sizes. A block wakes only the queue whose message it fits.
#[test]
fn a_block_wakes_whom_it_fits(rt: HostRuntime) {
    let specs = [
        queue(1_000, 500, Some(2)),
        queue(1_000, 500, Some(3)),
        queue(1_000, 500, None),
        queue(1_000, 500, None),
    ];
    let mut classes = ArrayVec::new();
    classes.push(ClassSpec { size: 2, count: 2 });
    classes.push(ClassSpec { size: 8, count: 2 });
    let config = Config {
        mblks: 4,
        classes: ClassSpecs::of(classes),
        ..configured(&rt, 1, CLASS, &specs)
    };
    let mut sides = Sides::new(rt.alloc(), config).expect(&rt, "sides");
    assert!(rt; put(&mut sides, 0, 0, &[BYTE; 2]).is_ok());
    assert!(rt; put(&mut sides, 1, 0, &[BYTE; 8]).is_ok());
    let few = held(&rt, &mut sides, &[BYTE; 2]);
    let many = held(&rt, &mut sides, &[BYTE; 8]);
    assert_eq!(rt; Way::Borrow.run(&mut sides), Ended::Idle);
    assert!(rt; sides.is_short(0) && sides.is_short(1));
    assert_wakes(&rt, &mut sides, few, 0, Some(1));
    assert_run(&rt, &mut sides, Way::Borrow, Some(1));
    assert_wakes(&rt, &mut sides, many, 1, None);
    assert_run(&rt, &mut sides, Way::Borrow, None);
}

// A block that becomes free during a run serves a message that was held back before.
#[test]
fn a_block_is_freed_meanwhile(rt: HostRuntime) {
    let rows = [
        Row::PutTwo(0),
        Row::Fill(1),
        Row::Run(Way::Borrow, None),
        Row::Sizes([0, 0, 1]),
    ];
    assert_rows(&rt, rt.alloc(), &wide(), &rows, 1);
}

// A module may put several messages on the next queue for one; they stay in order.
#[test]
fn a_module_puts_headers(rt: HostRuntime) {
    let rows = [
        Row::Put(0, b'a'),
        Row::Run(Way::Head, None),
        Row::Sizes([0, 0, 4]),
        Row::Take(0),
        Row::Take(0),
        Row::Take(0),
        Row::Take(b'a'),
    ];
    assert_rows(&rt, rt.alloc(), &wide(), &rows, 0);
}

// A need that is never met is reported at once, and again by each run. Another way serves the queue.
#[test]
fn a_need_is_never_met(rt: HostRuntime) {
    let rows = [
        Row::PutTwo(0),
        Row::RunGreedy(0),
        Row::RunGreedy(0),
        Row::Sizes([1, 0, 0]),
        Row::Run(Way::Borrow, None),
        Row::Sizes([0, 0, 1]),
    ];
    assert_rows(&rt, rt.alloc(), &wide(), &rows, 1);
}

// A pool of one block, and a message that waits for a block which only the message itself has. Each run ends, nothing is held, and
// no last queue has a message: the message waits for ever.
#[test]
fn a_need_waits_for_its_own_block(rt: HostRuntime) {
    let class = ClassSpec { count: 1, ..CLASS };
    let config = configured(&rt, 1, class, &wide());
    let mut sides = Sides::new(rt.alloc(), config).expect(&rt, "sides");
    assert_put(&rt, &mut sides, 0, &[BYTE; 2]);
    for _run in 0..3 {
        assert_eq!(rt; Way::Borrow.run(&mut sides), Ended::Idle);
        assert!(&rt; sides.is_short(0) && sides.pool().run_at(0).is_none());
        assert_sizes(&rt, &sides, &[1, 0, 0]);
        let census = sides.pool().census();
        assert_eq!(rt; (census.free, census.queued, census.held), (0, 1, 0));
    }
}

// A message that is taken off a full queue, and put back, wakes the queue behind. That finds no room, and the other one stays held
// back.
#[test]
fn a_held_back_queue_wakes_another(rt: HostRuntime) {
    let rows = [
        Row::Put(0, b'a'),
        Row::Pass(0, 0, 0),
        Row::Put(0, b'b'),
        Row::Hold(0, 1, 0),
        Row::Woken(0),
        Row::Rest(1),
        Row::Sizes([1, 1, 0]),
        Row::Run(Way::Forward, None),
        Row::Sizes([0, 1, 1]),
    ];
    assert_rows(&rt, rt.alloc(), &narrow(), &rows, 2);
}

// A caller puts messages back in turn, until all queues that are left are held back. They stay so if another queue rests, as queue
// 1 once it is empty.
#[test]
fn a_caller_holds_back(rt: HostRuntime) {
    let rows = [
        Row::Put(0, b'a'),
        Row::Pass(0, 0, 0),
        Row::Put(0, b'b'),
        Row::Hold(0, 0, 0),
        Row::Pass(1, 1, 1),
        Row::Hold(0, 0, 0),
        Row::Rest(1),
        Row::Sizes([1, 0, 1]),
        Row::Run(Way::Forward, None),
        Row::Sizes([0, 0, 2]),
    ];
    assert_rows(&rt, rt.alloc(), &wide(), &rows, 2);
}

// No message can be taken off this queue.
fn assert_kept(rt: &impl Abort, sides: &mut Sides, queue: u8) {
    assert!(rt; matches!(taken(sides, queue, &mut []), Err(Refusal::NoSuchQueue)));
}

// No message can be put back on this queue.
fn assert_not_held(rt: &impl Abort, sides: &mut Sides, queue: u8) {
    let Ok(token) = made(sides, 0, &[BYTE]) else {
        panic!(rt; "no block is free")
    };
    match sides.hold(queue, token) {
        Ok(()) => panic!(rt; "queue {queue} exists"),
        Err(Rejected { why, token }) => {
            sides.freemsg(token);
            assert_eq!(rt; why, Refusal::NoSuchQueue);
        }
    }
}

// Of three queues there is no queue 3.
fn assert_no_queue(rt: &impl Abort, sides: &mut Sides) {
    assert!(rt; matches!(put(sides, 3, 0, &[BYTE]), Err(Refusal::NoSuchQueue)));
    assert!(rt; sides.bcanput(3, 0) == Err(Refusal::NoSuchQueue));
    assert_not_held(rt, sides, 3);
    assert!(rt; sides.strqset(3, 0, 2, 1) == Err(Refusal::NoSuchQueue));
}

// A message is put on any queue, and taken off the last one alone.
fn assert_refused(rt: &impl Abort, sides: &mut Sides) {
    assert!(rt; put(sides, 1, 0, &[BYTE]).is_ok());
    for queue in [0, 1, 3] {
        assert_kept(rt, sides, queue);
    }
    assert_no_queue(rt, sides);
    assert_sizes(rt, sides, &[0, 1, 0]);
}

// The writer of queue 1 puts a and b there, and must wait with the next message. Queue 0 stays empty. Once the user has taken a,
// queue 1 gives b: then queue 1 has drained, queue 0 is enabled, and the writer is given.
#[test]
fn a_writer_waits(rt: HostRuntime) {
    let mut sides = opened(&rt, rt.alloc(), &narrow()).expect(&rt, "sides");
    let mut writers = Writers::new(rt.alloc()).expect(&rt, "writers");
    for byte in *b"ab" {
        assert_eq!(rt; sides.bcanput(1, 0), Ok(true));
        assert!(rt; put(&mut sides, 1, 0, &[byte]).is_ok());
        sides.run();
    }
    assert_eq!(rt; sides.bcanput(1, 0), Ok(false));
    writers.record(1, 0, false);
    assert_eq!(rt; writers.next(sides.pool()), None);
    assert_taken(&rt, &mut sides, b'a');
    assert_eq!(rt; sides.pool().run_at(0), Some(1));
    assert_eq!(rt; writers.next(sides.pool()), None);
    assert_passed(&rt, &mut sides, 0, 1, 0);
    assert_eq!(rt; sides.pool().run_at(0), Some(0));
    assert_eq!(rt; writers.next(sides.pool()), Some((1, 0)));
    assert_eq!(rt; writers.next(sides.pool()), None);
    assert_eq!(rt; sides.bcanput(1, 0), Ok(true));
    assert_taken(&rt, &mut sides, b'b');
}

#[test]
fn refuses_other_queues(rt: HostRuntime) {
    let mut sides = opened(&rt, rt.alloc(), &narrow()).expect(&rt, "sides");
    assert_refused(&rt, &mut sides);
}

// Queues of these specs are no sides, for this reason.
fn assert_fault(rt: &impl Abort, alloc: Global, specs: [QueueSpec; 3], wanted: SidesFault) {
    assert_eq!(rt; opened(rt, alloc, &specs).err(), Some(wanted));
}

// A fault of the sides comes before one of the pool, and the first queue with a fault is reported.
#[test]
fn reports_the_first_fault(rt: HostRuntime) {
    let last = queue(1, 0, None);
    let no_next = QueueSpec {
        service: true,
        ..last
    };
    let no_service = QueueSpec {
        next: Some(9),
        ..last
    };
    assert_fault(
        &rt,
        rt.alloc(),
        [last, no_next, no_service],
        SidesFault::NoNext(1),
    );
    assert_fault(
        &rt,
        rt.alloc(),
        [last, no_service, no_next],
        SidesFault::NoService(1),
    );
    let no_such = queue(1, 0, Some(9));
    let why = NewFault::BadConfig(Which::Next);
    assert_fault(
        &rt,
        rt.alloc(),
        [no_such, last, last],
        SidesFault::NotMade(why),
    );
}

// A side of two queues.
fn short() -> [QueueSpec; 2] {
    [queue(8, 4, Some(1)), queue(8, 4, None)]
}

// Makes a message of these bytes.
fn held(rt: &impl Abort, sides: &mut Sides, bytes: &[u8]) -> Token {
    match made(sides, 0, bytes) {
        Ok(token) => token,
        Err(why) => panic!(rt; "{why:?}"),
    }
}

// Appends the blocks of message `tail` to the other one.
fn link(rt: &impl Abort, sides: &mut Sides, token: &mut Token, tail: Token) {
    assert!(rt; sides.pool().has(token) && sides.pool().has(&tail));
    sides.linkb(token, tail);
}

// A held message has this number of bytes.
fn assert_size(rt: &impl Abort, pool: &Pool, token: &Token, size: u32) {
    assert!(rt; pool.has(token));
    assert!(rt; pool.size(token) == size);
}

// Makes a message of two blocks, with two bytes and three.
fn joined(rt: &impl Abort, sides: &mut Sides) -> Token {
    let mut first = held(rt, sides, b"ab");
    let second = held(rt, sides, b"cde");
    link(rt, sides, &mut first, second);
    assert_size(rt, sides.pool(), &first, 5);
    first
}

// Frees the first block of a held message, and returns the others.
fn freed_first(rt: &impl Abort, sides: &mut Sides, token: Token) -> Option<Token> {
    assert!(rt; sides.pool().has(&token));
    sides.freeb(token)
}

// Takes block 1 out of a held message, and returns it and the others.
fn parted(rt: &impl Abort, sides: &mut Sides, token: Token) -> (Token, Option<Token>) {
    assert!(rt; sides.pool().has(&token));
    match sides.rmvb(token, 1) {
        Ok(parts) => parts,
        Err(Rejected { why, token }) => {
            sides.freemsg(token);
            panic!(rt; "{why:?}")
        }
    }
}

// Moves a held message to another pool.
fn moved_there(rt: &impl Abort, sides: &mut Sides, other: &mut Pool, token: Token) -> Token {
    assert!(rt; sides.pool().has(&token));
    match sides.transfer(other, token) {
        Ok(token) => token,
        Err(Rejected { why, token }) => {
            sides.freemsg(token);
            panic!(rt; "{why:?}")
        }
    }
}

// Moves a held message of another pool to the sides.
fn moved_here(rt: &impl Abort, sides: &mut Sides, other: &mut Pool, token: Token) -> Token {
    assert!(rt; other.has(&token));
    match sides.receive(other, token) {
        Ok(token) => token,
        Err(Rejected { why, token }) => {
            other.freemsg(token);
            panic!(rt; "{why:?}")
        }
    }
}

// Frees a message, if there is one, and says whether there was.
fn freed(sides: &mut Sides, token: Option<Token>) -> bool {
    match token {
        Some(token) => {
            sides.freemsg(token);
            true
        }
        None => false,
    }
}

// All message blocks are free.
fn assert_free(rt: &impl Abort, pool: &Pool) {
    let census = pool.census();
    assert!(rt; (census.free, census.queued, census.held) == (MESSAGES, 0, 0));
}

// Frees the first block of a message of two, and then the other.
fn assert_freed(rt: &impl Abort, sides: &mut Sides) {
    let token = joined(rt, sides);
    let rest = freed_first(rt, sides, token);
    assert!(rt; freed(sides, rest));
    assert_free(rt, sides.pool());
}

// Takes the second block out of a message of two, and frees both.
fn assert_parted(rt: &impl Abort, sides: &mut Sides) {
    let token = joined(rt, sides);
    let (block, rest) = parted(rt, sides, token);
    assert_size(rt, sides.pool(), &block, 3);
    sides.freemsg(block);
    assert!(rt; freed(sides, rest));
    assert_free(rt, sides.pool());
}

// A message goes to another pool, and comes back.
fn assert_moved(rt: &impl Abort, sides: &mut Sides, other: &mut Pool) {
    let token = joined(rt, sides);
    let there = moved_there(rt, sides, other, token);
    assert_free(rt, sides.pool());
    assert_size(rt, other, &there, 5);
    let here = moved_here(rt, sides, other, there);
    assert_free(rt, other);
    assert_size(rt, sides.pool(), &here, 5);
    sides.freemsg(here);
    assert_free(rt, sides.pool());
}

// Makes sides of two queues.
fn new_sides(rt: &impl Abort, alloc: Global) -> Sides {
    opened(rt, alloc, &short()).expect(rt, "sides")
}

// Makes another pool.
fn new_pool(rt: &impl Abort, alloc: Global) -> Pool {
    Pool::new(alloc, configured(rt, 2, CLASS, &short())).expect(rt, "a pool")
}

#[test]
fn frees_the_first_block(rt: HostRuntime) {
    let mut sides = new_sides(&rt, rt.alloc());
    assert_freed(&rt, &mut sides);
}

#[test]
fn takes_a_block_out(rt: HostRuntime) {
    let mut sides = new_sides(&rt, rt.alloc());
    assert_parted(&rt, &mut sides);
}

#[test]
fn moves_between_pools(rt: HostRuntime) {
    let mut sides = new_sides(&rt, rt.alloc());
    let mut other = new_pool(&rt, rt.alloc());
    assert_moved(&rt, &mut sides, &mut other);
}
