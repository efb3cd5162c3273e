//! Lines that are served while the lock is taken once: on one desk, and on sixteen threads at once.
ghost use Rattle.strm_shared.specs.Starts.{IsNameOf};

use super::crews::Assembly;
use super::steps::{assert_calls, assert_census};
use super::traces::{assert_len, assert_replayed, expect_entries, kept};
use super::workers::{assert_count, lines};
use super::{drained, end, only, opened, push, reg, setup, start_of, take_last};
use std::alloc::Global;
use std::process::Abort;
use std::sync::Wait;
use std::thread;
use std::thread::Threads;
use strm_pool::{Call, Census, Pool, Refusal, Reg, Reply};
use strm_shared::{
    Brand, Desk, Desks, Entry, Gate, Gathered, Line, MOST_BATCH, MOST_STAMP, MOST_WORKERS, Name,
    Shared, Start, Trace, TraceEntries,
};

// How `serve_all` ended.
type Answer = Result<(), (Refusal, usize)>;

// What lines left: how the call ended, the replies, and the trace.
#[derive(Drop)]
struct Left {
    answer: Answer,
    replies: Vec<Reply>,
    trace: TraceEntries,
}

// This number of replies `Nothing`, which lines of these tests do not have.
fn blank(rt: &impl Abort, alloc: Global, count: usize) -> Vec<Reply> {
    let mut replies = Vec::new(alloc);
    for _ in 0..count {
        replies.push(Reply::Nothing).expect(rt, "memory");
    }
    replies
}

// Has lines served at once. There must be as many replies.
fn serve_all<N: Name>(
    rt: &(impl Wait + Abort),
    shared: &Shared<N>,
    desk: &mut Desk<N>,
    lines: &[Line],
    replies: &mut [Reply],
) -> Answer {
    assert!(rt; lines.len() == replies.len());
    shared.serve_all(rt, desk, lines, replies)
}

// Has lines served at once on the only desk.
fn serve_only<N: Name>(
    rt: &(impl Wait + Abort),
    shared: &Shared<N>,
    mut desks: Desks<N>,
    lines: &[Line],
    replies: &mut [Reply],
) -> (Desks<N>, Answer) {
    let mut desk = only(rt, &mut desks);
    let answer = serve_all(rt, shared, &mut desk, lines, replies);
    push(rt, &mut desks, desk);
    (desks, answer)
}

// What these lines leave on the only desk, which then has seen this stamp. All message blocks are free again.
fn alone(
    rt: &(impl Wait + Abort),
    alloc: Global,
    start: Start,
    lines: &[Line],
    stamp: u64,
) -> Left {
    run_alone::<Brand, _>(rt, alloc, start, lines, stamp)
}

fn run_alone<N: Name, R: Wait + Abort>(
    rt: &R,
    alloc: Global,
    start: Start,
    lines: &[Line],
    stamp: u64,
) -> Left
    requires { IsNameOf N.Name start }
{
    let (shared, desks) = start.open::<N>();
    let mut replies = blank(rt, alloc, lines.len());
    let (desks, answer) = serve_only(rt, &shared, desks, lines, replies.as_mut_slice());
    let (pool, trace) = drained(rt, end(rt, shared, desks), 1, stamp);
    assert_census(rt, &pool, (8, 0, 0));
    Left {
        answer,
        replies,
        trace,
    }
}

// The first lines were served, this number of them: their replies are `Done`, as in their entries, and the others are as before.
fn assert_first(rt: &impl Abort, left: &Left, lines: &[Line], count: usize) {
    assert_len(rt, &left.trace, count);
    assert!(rt; left.replies.len() == lines.len());
    assert_entries(rt, left.trace.items(), lines);
    assert_replies(rt, left.replies.as_slice(), count);
}

// The entries are those of the first lines.
fn assert_entries(rt: &impl Abort, entries: &[Entry], lines: &[Line]) {
    for (entry, line) in entries.iter().zip(lines) {
        assert!(rt; entry.line == line.number && entry.reply == Reply::Done);
    }
}

// The first replies are `Done`, this number of them, and the others are as before.
fn assert_replies(rt: &impl Abort, replies: &[Reply], count: usize) {
    for (place, reply) in replies.iter().enumerate() {
        let wanted = if place < count {
            Reply::Done
        } else {
            Reply::Nothing
        };
        assert!(rt; *reply == wanted);
    }
}

// No line, one, some, as many as a batch has, one more, and several batches: all are served.
#[test]
fn batches_of_each_length(rt: HostRuntime) {
    for rounds in [0, 1, 16, 128, 129, 300] {
        let list = lines(rt.alloc(), reg(&rt, b'a'), rounds).expect(&rt, "memory");
        let count = list.items().len();
        let start = kept(&rt, rt.alloc(), 1, 1000, 0);
        let left = alone(&rt, rt.alloc(), start, list.items(), count as u64);
        assert!(rt; left.answer.is_ok());
        assert_first(&rt, &left, list.items(), count);
    }
}

// Only the first lines are served, this number of them, up to this stamp. The next line is refused for this reason.
fn assert_refused(
    rt: &(impl Wait + Abort),
    alloc: Global,
    start: Start,
    lines: &[Line],
    count: usize,
    stamp: u64,
    why: Refusal,
) {
    let left = alone(rt, alloc, start, lines, stamp);
    assert!(rt; left.answer == Err((why, count)));
    assert_first(rt, &left, lines, count);
}

// Of these lines this number is served: then the trace is full, or the last stamp comes.
fn assert_stops(rt: &(impl Wait + Abort), alloc: Global, lines: &[Line], count: u32) {
    let stamp = u64::from(count);
    let full = kept(rt, alloc, 1, count, 0);
    assert_refused(
        rt,
        alloc,
        full,
        lines,
        count as usize,
        stamp,
        Refusal::TraceFull,
    );
    let worn = kept(rt, alloc, 1, 600, MOST_STAMP.saturating_sub(stamp));
    assert_refused(
        rt,
        alloc,
        worn,
        lines,
        count as usize,
        MOST_STAMP,
        Refusal::Worn,
    );
}

// Lines are refused in the first batch, between two batches, and in the second.
#[test]
fn a_batch_that_is_refused(rt: HostRuntime) {
    let list = lines(rt.alloc(), reg(&rt, b'a'), 300).expect(&rt, "memory");
    for count in [2, 256, 300] {
        assert_stops(&rt, rt.alloc(), list.items(), count);
    }
}

// Lines whose calls the pool refuses are served as all others are, and have their entries.
#[test]
fn a_batch_with_refused_calls(rt: HostRuntime) {
    let a = reg(&rt, b'a');
    let list = [
        Line {
            number: 1,
            call: Call::Putq(9, a),
        },
        Line {
            number: 2,
            call: Call::Putq(0, a),
        },
        Line {
            number: 3,
            call: Call::Allocb(a, 16),
        },
        Line {
            number: 4,
            call: Call::Allocb(a, 16),
        },
        Line {
            number: 5,
            call: Call::Census,
        },
    ];
    let start = kept(&rt, rt.alloc(), 1, 5, 0);
    let left = alone(&rt, rt.alloc(), start, &list, 5);
    let (free, queued, held) = (7, 0, 1);
    let replies = [
        Reply::Refused(Refusal::NoSuchQueue),
        Reply::Empty,
        Reply::Done,
        Reply::Taken,
        Reply::Census(Census { free, queued, held }),
    ];
    assert!(rt; left.answer.is_ok() && left.replies.as_slice() == replies.as_slice());
    let wanted = [
        "Entry { desk: 0, line: 1, call: Putq(9, Reg { place: 0 }), reply: Refused(NoSuchQueue) }",
        "Entry { desk: 0, line: 2, call: Putq(0, Reg { place: 0 }), reply: Empty }",
        "Entry { desk: 0, line: 3, call: Allocb(Reg { place: 0 }, 16), reply: Done }",
        "Entry { desk: 0, line: 4, call: Allocb(Reg { place: 0 }, 16), reply: Taken }",
        "Entry { desk: 0, line: 5, call: Census, reply: Census(Census { free: 7, queued: 0, held: 1 }) }",
    ];
    expect_entries(&rt, &left.trace, &wanted);
}

// ---- sixteen threads

// The number of lines of each thread: two whole batches, and a part of one.
const LINES: u32 = 600;

// A thread's desk, the replies to its lines, and how it ended. Unlike the desk, it may be dropped, as elements of a `Vec` must.
struct Place<N: Name> {
    desk: Desk<N>,
    replies: Vec<Reply>,
    answer: Answer,
}

impl<N: Name> Drop for Place<N> {
    fn drop(self) {
        let Place {
            desk,
            replies: _,
            answer: _,
        } = self;
        desk.into_regs().forget();
    }
}

impl<N: Name> Place<N> {
    // The desk, without the rest.
    fn into_desk(self) -> (Desk<N>, Vec<Reply>, Answer) {
        let Place {
            desk,
            replies,
            answer,
        } = self;
        (desk, replies, answer)
    }

    // Has the lines served, once all threads have come.
    fn work(
        &mut self,
        rt: &(impl Wait + Abort),
        shared: &Shared<N>,
        gate: &Assembly,
        lines: &[Line],
    ) {
        gate.before(self.desk.number(), 0);
        self.answer = serve_all(
            rt,
            shared,
            &mut self.desk,
            lines,
            self.replies.as_mut_slice(),
        );
    }
}

// Opens a pool of 64 message blocks and data blocks.
fn sixty_four(rt: &impl Abort, alloc: Global) -> Pool {
    opened(rt, alloc, 1, 64, &[(16, 64)])
}

// The call of a line. Messages go over one queue, so that a thread gets those of others too.
fn call_of(a: Reg, b: Reg, number: u32) -> Call {
    match number % 5 {
        0 => Call::Allocb(a, 16),
        1 => Call::Putq(0, a),
        2 => Call::Getq(0, b),
        3 => Call::Qsize(0),
        _ => Call::Freemsg(b),
    }
}

// The lines of each thread, numbered from 0.
fn mixed(rt: &impl Abort, alloc: Global) -> Vec<Line> {
    let (a, b) = (reg(rt, b'a'), reg(rt, b'b'));
    let mut list = Vec::new(alloc);
    for number in 0..LINES {
        let call = call_of(a, b, number);
        list.push(Line { number, call }).expect(rt, "memory");
    }
    list
}

// A place for each desk, with room for the replies to this number of lines.
fn places<N: Name>(
    rt: &impl Abort,
    alloc: Global,
    mut desks: Desks<N>,
    count: usize,
) -> Vec<Place<N>> {
    let mut list = Vec::new(alloc);
    for _ in 0..MOST_WORKERS {
        let place = Place {
            desk: take_last(rt, &mut desks),
            replies: blank(rt, alloc, count),
            answer: Ok(()),
        };
        list.push(place).expect(rt, "memory");
    }
    desks.forget();
    list
}

// Whether the entries of this desk are those of all lines, in order, with these replies.
fn has_all(entries: &[Entry], desk: u8, replies: &[Reply]) -> bool {
    let mut next = 0;
    for entry in entries {
        if entry.desk == desk {
            let Some(reply) = replies.get(next) else {
                return false;
            };
            if entry.line as usize != next || entry.reply != *reply {
                return false;
            }
            next += 1;
        }
    }
    next == replies.len()
}

// The entries of a batch are next to each other: nobody came in between.
fn assert_together(rt: &impl Abort, entries: &[Entry]) {
    let mut before: Option<(u8, u32)> = None;
    for entry in entries {
        if entry.line as usize % MOST_BATCH != 0 {
            assert!(rt; before == Some((entry.desk, entry.line.wrapping_sub(1))));
        }
        before = Some((entry.desk, entry.line));
    }
}

// Each of sixteen threads has its lines served at the same time, on its desk. Each gets a reply to each line. One thread that
// makes the calls of the trace gets the same replies.
#[test]
fn sixteen_threads_in_batches(rt: HostRuntime) {
    let pool = sixty_four(&rt, rt.alloc());
    let most = LINES.saturating_mul(MOST_WORKERS as u32);
    let setup = setup(MOST_WORKERS as u8, Trace::Keep(most), 0);
    let start = start_of(&rt, rt.alloc(), pool, setup);
    together::<Brand, _>(&rt, rt.alloc(), start);
}

fn together<N: Name + Send + Sync, R: Threads + Wait + Abort + Sync>(
    rt: &R,
    alloc: Global,
    start: Start,
)
    requires { IsNameOf N.Name start }
{
    let (shared, desks) = start.open::<N>();
    let lines = mixed(rt, alloc);
    let mut places = places(rt, alloc, desks, lines.len());
    let gate = Assembly::new(MOST_WORKERS as u32);
    let items = lines.as_slice();
    thread::for_each_mut(
        rt,
        places.as_mut_slice(),
        MOST_WORKERS,
        &|_, place| {
            place.work(rt, &shared, &gate, items);
        },
    );
    assert_count(rt, &gate.came, MOST_WORKERS as u32);
    assert_count(rt, &gate.missed, 0);
    assert_gathered(rt, alloc, shared, places);
}

// The desks of these places, and the replies to each, with its number.
fn taken_back<N: Name>(
    rt: &impl Abort,
    alloc: Global,
    mut places: Vec<Place<N>>,
) -> (Desks<N>, Vec<(u8, Vec<Reply>)>) {
    let mut desks = Desks::new();
    let mut all = Vec::new(alloc);
    for _ in 0..MOST_WORKERS {
        let Some(place) = places.pop() else {
            panic!(rt; "a place is missing")
        };
        let (desk, replies, answer) = place.into_desk();
        assert!(rt; answer.is_ok());
        assert_calls(rt, &desk, u64::from(LINES));
        all.push((desk.number(), replies)).expect(rt, "memory");
        push(rt, &mut desks, desk);
    }
    (desks, all)
}

// The desks of these places come back; their replies are those of the trace.
fn assert_gathered<N: Name>(
    rt: &impl Abort,
    alloc: Global,
    shared: Shared<N>,
    places: Vec<Place<N>>,
) {
    let (desks, all) = taken_back(rt, alloc, places);
    let Gathered { pool, trace, desks } = end(rt, shared, desks);
    desks.forget();
    assert_trace(rt, trace.items(), all.as_slice());
    assert_repeated(rt, alloc, trace.items(), pool.census());
}

// The replies to each desk are those of these entries, and batches are whole.
fn assert_trace(rt: &impl Abort, entries: &[Entry], all: &[(u8, Vec<Reply>)]) {
    for (desk, replies) in all {
        assert!(rt; has_all(entries, *desk, replies.as_slice()));
    }
    assert_together(rt, entries);
}

// One thread that makes the calls of these entries gets the same replies, and leaves these numbers of message blocks.
fn assert_repeated(rt: &impl Abort, alloc: Global, entries: &[Entry], census: Census) {
    let Census { free, queued, held } = census;
    let pool = sixty_four(rt, alloc);
    assert_replayed(rt, alloc, pool, entries, (free, queued, held));
}
