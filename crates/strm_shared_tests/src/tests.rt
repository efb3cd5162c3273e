ghost use Rattle.std.specs.Prelude.{◌≡◌, ◌∷◌};
ghost use Rattle.strm_pool.specs.Registers.{CarryId};
ghost use Rattle.strm_shared.specs.Starts.{IsNameOf};

mod batches;
mod calls;
mod crews;
mod gates;
mod steps;
mod traces;
mod workers;

use arrayvec::ArrayVec;
use std::alloc::Global;
use std::process::Abort;
use std::sync::Wait;
use steps::{
    Step, assert_census, assert_ended, assert_seen, assert_served, assert_told, serve_calls,
    take_steps, untraced,
};
use strm_mblk::MOST_MESSAGE_BLOCKS;
use strm_pool::{
    Call, ClassSpec, ClassSpecs, Config, Flush, NewFault, Pool, QueueSpec, QueueSpecs, Refusal,
    Reg, Regs, Reply,
};
use strm_shared::{
    Brand, Desk, Desks, Gathered, MOST_STAMP, MOST_TRACE, MOST_WORKERS, Name, Setup, Shared,
    SpentDesks, Start, Trace, TraceEntries,
};

// The spec of a queue with these water marks and a service procedure.
const fn queue(hiwat: u32, lowat: u32, next: Option<u8>) -> QueueSpec {
    QueueSpec {
        hiwat,
        lowat,
        service: true,
        next,
    }
}

// Opens a pool with this number of message blocks, data blocks of these sizes, and two queues; the second is next of the first.
fn opened(rt: &impl Abort, alloc: Global, id: u32, mblks: u32, sizes: &[(u32, u32)]) -> Pool {
    let mut classes = ArrayVec::new();
    for (size, count) in sizes {
        let class = ClassSpec {
            size: *size,
            count: *count,
        };
        assert!(rt; classes.try_push(class).is_ok());
    }
    let mut queues = ArrayVec::new();
    queues.push(queue(10, 4, Some(1)));
    queues.push(queue(5, 4, None));
    let config = Config {
        id,
        mblks,
        classes: ClassSpecs::of(classes),
        queues: QueueSpecs::of(queues),
        bufcalls: 2,
        first_id: 1,
    };
    Pool::new(alloc, config).expect(rt, "a pool")
}

// Opens a pool of eight message blocks, with four data blocks of 16 bytes and two of 64.
fn eight(rt: &impl Abort, alloc: Global, id: u32) -> Pool {
    opened(rt, alloc, id, 8, &[(16, 4), (64, 2)])
}

// A setup with this number of desks, this trace and this first stamp.
const fn setup(desks: u8, trace: Trace, first_stamp: u64) -> Setup {
    Setup {
        desks,
        trace,
        first_stamp,
    }
}

// Starts sharing a pool, of which no message is held, or returns the fault and the pool.
fn started(
    rt: &impl Abort,
    alloc: Global,
    pool: Pool,
    setup: Setup,
) -> Result<Start, (NewFault, Pool)> {
    assert!(rt; pool.census().held == 0);
    Start::new(alloc, pool, setup)
}

// Starts sharing a pool, which must succeed.
fn start_of(rt: &impl Abort, alloc: Global, pool: Pool, setup: Setup) -> Start {
    match started(rt, alloc, pool, setup) {
        Ok(start) => start,
        Err(_) => panic!(rt; "not started"),
    }
}

// Starts sharing a pool of eight message blocks, without a trace.
fn start(rt: &impl Abort, alloc: Global, id: u32, desks: u8, first_stamp: u64) -> Start {
    let setup = setup(desks, Trace::Off, first_stamp);
    start_of(rt, alloc, eight(rt, alloc, id), setup)
}

// Starts sharing such a pool by two desks, six stamps before the last. It has a wish, and a message of three bytes on queue 0;
// the run list has queue 1, then queue 0.
fn loaded(rt: &impl Abort, alloc: Global) -> Start {
    let mut pool = eight(rt, alloc, 7);
    assert!(rt; pool.bufcall(16).is_ok() && pool.qenable(1).is_ok());
    let Ok(token) = pool.allocb(3) else {
        panic!(rt; "no message")
    };
    assert!(rt; pool.write(&token, 0, b"abc").is_ok());
    match pool.putq(0, token) {
        Ok(()) => {}
        Err(rejected) => {
            rejected.token.forget();
            panic!(rt; "not put")
        }
    }
    start_of(rt, alloc, pool, setup(2, Trace::Off, MOST_STAMP - 5))
}

// The register named by a letter.
fn reg(rt: &impl Abort, letter: u8) -> Reg {
    match Reg::new(letter.saturating_sub(b'a')) {
        Some(reg) => reg,
        None => panic!(rt; "no such register"),
    }
}

// Takes the last desk.
fn take_last<N: Name>(rt: &impl Abort, desks: &mut Desks<N>) -> Desk<N> {
    assert!(rt; desks.len() > 0);
    desks.take_last()
}

// Takes the last desk, which must have this number.
fn last<N: Name>(rt: &impl Abort, desks: &mut Desks<N>, number: u8) -> Desk<N> {
    let desk = take_last(rt, desks);
    assert!(rt; desk.number() == number);
    desk
}

// Takes the only desk.
fn only<N: Name>(rt: &impl Abort, desks: &mut Desks<N>) -> Desk<N> {
    assert!(rt; desks.len() == 1);
    last(rt, desks, 0)
}

// Adds a desk at the end.
fn push<N: Name>(rt: &impl Abort, desks: &mut Desks<N>, desk: Desk<N>) {
    assert!(rt; desks.len() < MOST_WORKERS);
    desks.push(desk);
}

// Spends a desk and returns its registers, whose tokens have the pool's id by the law of a desk.
fn regs_of<N: Name>(desk: Desk<N>) -> Regs
    ensures { CarryId N.opened.arena.id result }
{
    desk.lawful();
    desk.into_regs()
}

// What `gather` returns.
type Gathering<N> = Result<Gathered<N>, (Refusal, Shared<N>, Desks<N>)>;

// What was gathered; no desk may be missing.
fn gathered<N: Name>(rt: &impl Abort, gathering: Gathering<N>) -> Gathered<N> {
    match gathering {
        Ok(gathered) => gathered,
        Err((_, _, desks)) => {
            desks.forget();
            panic!(rt; "a desk is missing")
        }
    }
}

// Ends the sharing of a pool; no desk may be missing.
fn end<N: Name>(rt: &impl Abort, shared: Shared<N>, desks: Desks<N>) -> Gathered<N> {
    gathered(rt, shared.gather(desks))
}

// Pool and trace after this number of desks came back, in order, each having seen this stamp; frees what the desks hold.
fn drained<N: Name>(
    rt: &impl Abort,
    gathered: Gathered<N>,
    count: usize,
    stamp: u64,
) -> (Pool, TraceEntries) {
    let Gathered {
        mut pool,
        trace,
        mut desks,
    } = gathered;
    assert!(rt; desks.len() == count);
    for place in 0..count {
        let number = count - 1 - place;
        let desk = last(rt, &mut desks, number as u8);
        assert_seen(rt, &desk, stamp);
        pool.drain(regs_of(desk));
    }
    desks.forget();
    (pool, trace)
}

// The same pool, without a trace.
fn emptied<N: Name>(rt: &impl Abort, gathered: Gathered<N>, count: usize, stamp: u64) -> Pool {
    let (pool, trace) = drained(rt, gathered, count, stamp);
    assert!(rt; trace.items().is_empty());
    pool
}

// A message goes from one desk to the other over the queue, into each desk's own registers.
#[test]
fn two_desks_by_turns(rt: HostRuntime) {
    let (a, b) = (reg(&rt, b'a'), reg(&rt, b'b'));
    let rows = [
        (0, Step::Serve(Call::Allocb(a, 1), Reply::Done)),
        (1, Step::Serve(Call::Msgdsize(a), Reply::Empty)),
        (1, Step::Serve(Call::Allocb(a, 1), Reply::Done)),
        (0, Step::Serve(Call::Putq(0, a), Reply::Done)),
        (1, Step::Serve(Call::Getq(0, a), Reply::Taken)),
        (1, Step::Serve(Call::Getq(0, b), Reply::Done)),
        (0, Step::Serve(Call::Freemsg(a), Reply::Empty)),
        (1, Step::Serve(Call::Linkb(a, b), Reply::Done)),
    ];
    assert_ended(&rt, start(&rt, rt.alloc(), 7, 2, 0), &rows, 2, 8, (8, 0, 0));
}

// A desk sees by a look what the other was served, and not before. A desk that was served has seen it at once.
#[test]
fn two_desks_one_word(rt: HostRuntime) {
    let a = reg(&rt, b'a');
    let rows = [
        (0, Step::Look(0, (8, 0, 0))),
        (1, Step::Look(0, (8, 0, 0))),
        (0, Step::Serve(Call::Allocb(a, 1), Reply::Done)),
        (0, Step::Serve(Call::Putq(0, a), Reply::Done)),
        (0, Step::Stand(2, 2)),
        (1, Step::Stand(0, 0)),
        (0, Step::Look(2, (7, 1, 0))),
        (1, Step::Look(2, (7, 1, 0))),
        (1, Step::Serve(Call::Allocb(a, 1), Reply::Done)),
        (0, Step::Stand(2, 2)),
        (1, Step::Stand(3, 1)),
        (1, Step::Look(3, (6, 1, 1))),
    ];
    assert_ended(&rt, start(&rt, rt.alloc(), 7, 2, 0), &rows, 2, 3, (7, 1, 0));
}

// The word counts each message block of the largest pool.
#[test]
fn the_largest_pool(rt: HostRuntime) {
    let call = Call::Allocb(reg(&rt, b'a'), 1);
    let rows = [
        (0, Step::Look(0, (16_383, 0, 0))),
        (0, Step::Serve(call, Reply::Done)),
        (0, Step::Look(1, (16_382, 0, 1))),
    ];
    let pool = opened(&rt, rt.alloc(), 7, MOST_MESSAGE_BLOCKS, &[(16, 1)]);
    let start = start_of(&rt, rt.alloc(), pool, setup(1, Trace::Off, 0));
    assert_ended(&rt, start, &rows, 1, 1, (16_383, 0, 0));
}

// Loses a start.
fn lose(_start: Start) {}

// The pool came back as it was, and is lost.
fn assert_unchanged(rt: &impl Abort, pool: Pool) {
    assert_census(rt, &pool, (8, 0, 0));
}

// The fault of this setup, if any; the pool comes back unchanged then.
fn fault_of(rt: &impl Abort, alloc: Global, setup: Setup) -> Option<NewFault> {
    match started(rt, alloc, eight(rt, alloc, 7), setup) {
        Ok(start) => {
            lose(start);
            None
        }
        Err((fault, pool)) => {
            assert_unchanged(rt, pool);
            Some(fault)
        }
    }
}

#[test]
fn setups_out_of_bounds(rt: HostRuntime) {
    assert!(rt; MOST_STAMP == 68_719_476_735 && MOST_TRACE == 1_048_576);
    let rows = [
        (0, Trace::Off, 0, true),
        (1, Trace::Off, 0, false),
        (16, Trace::Off, MOST_STAMP, false),
        (17, Trace::Off, 0, true),
        (255, Trace::Off, MOST_STAMP, true),
        (1, Trace::Off, MOST_STAMP + 1, true),
        (1, Trace::Off, 1_099_511_627_774, true),
        (1, Trace::Keep(0), 0, true),
        (1, Trace::Keep(1), 0, false),
        (16, Trace::Keep(MOST_TRACE), MOST_STAMP, false),
        (1, Trace::Keep(MOST_TRACE + 1), 0, true),
        (1, Trace::Keep(u32::MAX), 0, true),
    ];
    for (desks, trace, first_stamp, bad) in rows {
        let fault = fault_of(&rt, rt.alloc(), setup(desks, trace, first_stamp));
        assert!(rt; fault == bad.then_some(NewFault::BadShared));
    }
}

// Calls up to the last stamp are served and change the pool. At the last stamp calls are refused, and the desk sees that stamp.
#[test]
fn the_last_stamps(rt: HostRuntime) {
    let a = reg(&rt, b'a');
    let rows = [
        (0, Step::Serve(Call::Bufcall(16), Reply::Id(1))),
        (0, Step::Stand(MOST_STAMP - 10, 1)),
        (0, Step::Serve(Call::Ready, Reply::Ready(1, 16))),
        (0, Step::Serve(Call::Allocb(a, 1), Reply::Done)),
        (0, Step::Serve(Call::Msgdsize(a), Reply::Size(0))),
        (0, Step::Serve(Call::Noenable(0), Reply::Done)),
        (0, Step::Serve(Call::Putq(0, a), Reply::Done)),
        (0, Step::Serve(Call::Service, Reply::Nothing)),
        (0, Step::Serve(Call::Qenable(0), Reply::Done)),
        (0, Step::Serve(Call::Service, Reply::Queue(0))),
        (0, Step::Serve(Call::Flushq(0, Flush::All), Reply::Done)),
        (0, Step::Serve(Call::Qsize(0), Reply::Size(0))),
        (0, Step::Stand(MOST_STAMP, 11)),
        (1, Step::Stand(MOST_STAMP - 11, 0)),
        (0, Step::Refuse(Call::Freemsg(a), Refusal::Worn)),
        (0, Step::Refuse(Call::Freemsg(a), Refusal::Worn)),
        (1, Step::Refuse(Call::Census, Refusal::Worn)),
        (0, Step::Stand(MOST_STAMP, 11)),
        (1, Step::Stand(MOST_STAMP, 0)),
        (1, Step::Look(MOST_STAMP, (8, 0, 0))),
    ];
    let start = start(&rt, rt.alloc(), 7, 2, MOST_STAMP - 11);
    assert_ended(&rt, start, &rows, 2, MOST_STAMP, (8, 0, 0));
}

// Loses what was gathered.
fn forget<N: Name>(gathered: Gathered<N>) {
    let Gathered {
        pool: _,
        trace: _,
        desks,
    } = gathered;
    desks.forget();
}

// `gather` with these desks is refused, and returns this number of desks.
fn ungathered<N: Name>(
    rt: &impl Abort,
    shared: Shared<N>,
    desks: Desks<N>,
    count: usize,
) -> (Shared<N>, Desks<N>) {
    match shared.gather(desks) {
        Ok(gathered) => {
            forget(gathered);
            panic!(rt; "gathered")
        }
        Err((why, shared, desks)) => {
            assert!(rt; why == Refusal::DeskMissing && desks.len() == count);
            (shared, desks)
        }
    }
}

#[test]
fn a_desk_is_missing(rt: HostRuntime) {
    let a = reg(&rt, b'a');
    let early = [(1, Step::Serve(Call::Testb(16), Reply::Yes))];
    let late = [
        (0, Step::Stand(MOST_STAMP - 5, 0)),
        (0, Step::Serve(Call::Qsize(0), Reply::Size(1))),
        (0, Step::Serve(Call::Getq(0, a), Reply::Done)),
        (0, Step::Serve(Call::Msgdsize(a), Reply::Size(3))),
        (0, Step::Serve(Call::Putbq(0, a), Reply::Done)),
        (0, Step::Refuse(Call::Getq(0, a), Refusal::Worn)),
        (1, Step::Stand(MOST_STAMP - 4, 1)),
    ];
    let pool = without_one(&rt, loaded(&rt, rt.alloc()), &early, &late);
    assert_census(&rt, &pool, (7, 1, 0));
    assert_put_back(&rt, &pool);
}

// Queue 0 has three bytes, and is enabled.
fn assert_put_back(rt: &impl Abort, pool: &Pool) {
    match pool.queue_info(0) {
        Ok(queue) => assert!(rt; queue.bytes == 3 && queue.enabled && !queue.noenable),
        Err(_) => panic!(rt; "no such queue"),
    }
}

// The pool after these steps, of which the late ones are taken when the desk that was missing is back.
fn without_one(
    rt: &(impl Wait + Abort),
    start: Start,
    early: &[(u8, Step)],
    late: &[(u8, Step)],
) -> Pool {
    missing::<Brand, _>(rt, start, early, late)
}

// Desk 1 is missing after the first steps. Each `gather` returns the other desks unchanged, and the pool stays shared.
fn missing<N: Name, R: Wait + Abort>(
    rt: &R,
    start: Start,
    early: &[(u8, Step)],
    late: &[(u8, Step)],
) -> Pool
    requires { IsNameOf N.Name start }
{
    let (shared, mut desks) = start.open::<N>();
    take_steps(rt, &shared, &mut desks, early);
    let one = last(rt, &mut desks, 1);
    let (shared, desks) = ungathered(rt, shared, desks, 1);
    let (shared, mut desks) = ungathered(rt, shared, desks, 1);
    push(rt, &mut desks, one);
    take_steps(rt, &shared, &mut desks, late);
    emptied(rt, end(rt, shared, desks), 2, MOST_STAMP)
}

#[test]
fn a_spent_desk(rt: HostRuntime) {
    let a = reg(&rt, b'a');
    let steps = [
        (0, Step::Serve(Call::Allocb(a, 1), Reply::Done)),
        (0, Step::Serve(Call::Freemsg(a), Reply::Done)),
        (0, Step::Stand(2, 2)),
    ];
    let other = eight(&rt, rt.alloc(), 8);
    after_one_is_spent(&rt, start(&rt, rt.alloc(), 7, 2, 0), other, &steps);
}

// Takes these steps after desk 1 is spent.
fn after_one_is_spent(rt: &(impl Wait + Abort), start: Start, other: Pool, steps: &[(u8, Step)]) {
    spent::<Brand, _>(rt, start, other, steps);
}

// Spends desk 1, whose empty registers another pool drains.
fn spend<N: Name>(rt: &impl Abort, desks: &mut Desks<N>, other: Pool) {
    let mut other = other;
    other.drain(last(rt, desks, 1).into_regs());
}

// After desk 1 is spent, the pool can never be gathered, but desk 0 is still served.
fn spent<N: Name, R: Wait + Abort>(rt: &R, start: Start, other: Pool, steps: &[(u8, Step)])
    requires { IsNameOf N.Name start }
{
    let (shared, mut desks) = start.open::<N>();
    spend(rt, &mut desks, other);
    let (shared, mut desks) = ungathered(rt, shared, desks, 1);
    take_steps(rt, &shared, &mut desks, steps);
    desks.forget();
}

#[test]
fn desks_are_spent(rt: HostRuntime) {
    let a = reg(&rt, b'a');
    let steps = [
        (0, Step::Serve(Call::Allocb(a, 1), Reply::Done)),
        (1, Step::Serve(Call::Allocb(a, 1), Reply::Done)),
    ];
    let (pool, spent) = after_all_are_spent(&rt, start(&rt, rt.alloc(), 7, 2, 0), &steps);
    assert!(rt; spent.len() == 2);
    assert_census(&rt, &pool, (8, 0, 0));
}

// Pool and spent desks after these steps at two desks.
fn after_all_are_spent(
    rt: &(impl Wait + Abort),
    start: Start,
    steps: &[(u8, Step)],
) -> (Pool, SpentDesks) {
    all_spent::<Brand, _>(rt, start, steps)
}

// Spends a desk at the front of these.
fn spend_next<N: Name>(rt: &impl Abort, spent: &mut SpentDesks, desk: Desk<N>) -> Regs
    ensures { spent.new ≡ desk.served ∷ spent.old }
{
    assert!(rt; spent.len() < MOST_WORKERS);
    spent.spend(desk)
}

// After these steps both desks come back and are spent, and the pool drains their registers.
fn all_spent<N: Name, R: Wait + Abort>(
    rt: &R,
    start: Start,
    steps: &[(u8, Step)],
) -> (Pool, SpentDesks)
    requires { IsNameOf N.Name start }
{
    let (shared, mut desks) = start.open::<N>();
    take_steps(rt, &shared, &mut desks, steps);
    let Gathered {
        mut pool,
        trace: _,
        mut desks,
    } = end(rt, shared, desks);
    let mut spent = SpentDesks::new();
    for number in [1, 0] {
        let desk = last(rt, &mut desks, number);
        pool.drain(spend_next(rt, &mut spent, desk));
    }
    desks.forget();
    (pool, spent)
}

#[test]
fn what_waits_comes_back(rt: HostRuntime) {
    let pool = untraced(&rt, loaded(&rt, rt.alloc()), &[], 2, MOST_STAMP - 5);
    assert_waits(&rt, &pool);
    assert_census(&rt, &pool, (7, 1, 0));
}

// The wish and the run list are those that the pool was shared with.
fn assert_waits(rt: &impl Abort, pool: &Pool) {
    assert!(rt; has_wish(pool, 0, Some((1, 16))) && has_wish(pool, 1, None));
    assert!(rt; is_run(pool, 0, Some(1)) && is_run(pool, 1, Some(0)));
}

// Whether this is the wish at a place.
fn has_wish(pool: &Pool, place: u32, wish: Option<(u32, u32)>) -> bool {
    pool.wish_at(place) == wish
}

// Whether this is the queue at a place of the run list.
fn is_run(pool: &Pool, place: u32, queue: Option<u8>) -> bool {
    pool.run_at(place) == queue
}

#[test]
fn two_shared_pools(rt: HostRuntime) {
    let one = start(&rt, rt.alloc(), 1, 1, 0);
    let other = start(&rt, rt.alloc(), 2, 1, 5);
    side_by_side::<Brand, Brand, _>(&rt, one, other);
}

// Calls at one shared pool leave the other unchanged. With `desks` instead of `others`, or `desk` instead of `other`, the calls
// at `second` do not compile (tests/strangers).
fn side_by_side<N: Name, M: Name, R: Wait + Abort>(rt: &R, one: Start, other: Start)
    requires one { IsNameOf N.Name one }
    requires other { IsNameOf M.Name other }
{
    let (first, mut desks) = one.open::<N>();
    let (second, mut others) = other.open::<M>();
    let mut desk = only(rt, &mut desks);
    let mut other = only(rt, &mut others);
    serve_both(rt, &first, &mut desk, &second, &mut other);
    push(rt, &mut desks, desk);
    push(rt, &mut others, other);
    let pool = emptied(rt, gathered(rt, second.gather(others)), 1, 6);
    assert_census(rt, &pool, (8, 0, 0));
    let pool = emptied(rt, end(rt, first, desks), 1, 2);
    assert_census(rt, &pool, (7, 1, 0));
}

// Makes calls at the first pool, and one at the second between them.
fn serve_both<N: Name, M: Name>(
    rt: &(impl Wait + Abort),
    first: &Shared<N>,
    desk: &mut Desk<N>,
    second: &Shared<M>,
    other: &mut Desk<M>,
) {
    let a = reg(rt, b'a');
    serve_calls(rt, first, desk, &[(Call::Allocb(a, 1), Reply::Done)]);
    let served = second.serve(rt, other, 1, &Call::Freemsg(a));
    assert_served(rt, served, &Reply::Empty);
    serve_calls(rt, first, desk, &[(Call::Putq(0, a), Reply::Done)]);
    assert_told(rt, first.census_now(desk), 2, (7, 1, 0));
    assert_seen(rt, desk, 2);
    let told = second.census_now(other);
    assert_told(rt, told, 6, (8, 0, 0));
}
