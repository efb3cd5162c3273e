//! Makes each call of the libraries that allocates, `run`, and `serve_all`, which must not allocate. Makes a call again if memory
//! or a thread is refused.
//! tests/faults_calls refuses each growth and each thread in turn; without refusals these tests pass too.
ghost use Rattle.std.specs.Prelude.{◌≡◌};
ghost use Rattle.strm_mblk.specs.Arena.{census_of};
ghost use Rattle.strm_shared.specs.Starts.{IsNameOf};

use std::alloc::{AllocError, Global};
use std::process::Abort;
use std::sync::Wait;
use std::thread::Threads;
use strm_data::Data;
use strm_links::{Chained, Links, Stacks};
use strm_named::NamedPool;
use strm_pool::{Blocks, ClassSpec, Config, NewFault, Pool, QueueSpec, Queues, Reply};
use strm_run::{Mode, RunFault, Watched, run};
use strm_scheduler::{Sides, SidesFault, Writers};
use strm_script::{ParseFault, Script, parse, reply_text, report_text};
use strm_shared::{
    BareOutcome, Brand, Desks, End, Ends, Entry, Gathered, Line, Name, OpenGate, Outcome, Parts,
    Setup, Shared, Start, Trace, run_workers, run_workers_without_replies,
};

// Two sections, of which the second has no lines: so the text is the same in every order. The text grows within the reply to
// the first line.
const SCRIPT: &[u8] =
    b"pool 1 8\nclass 16 4\nqueue 10 4 s -\nbufcalls 2 1\nworker\ncensus\nallocb a 3\nfreemsg a\nworker\n";

// The script of a pool whose queue has no service procedure.
const SIDE: &[u8] = b"pool 1 8\nclass 16 4\nqueue 10 4 n -\nbufcalls 2 1\nworker\n";

const TEXT: &[u8] =
    b"0:6 census 8 0 0\n0:7 ok\n0:8 ok\nblocks free=8 queued=0 held=0 total=8\ndata size=16 free=4 total=4\n\
      queue 0 msgs=0 bytes=0 read=1 noenable=0 enabled=0\nrun -\nwishes -\n";

// The place of the report in the text.
const REPORT: usize = 31;

// Reports what was refused, on a line that tests/faults_calls reads.
fn tell(rt: &impl Print, what: &str) {
    let _ = println!(rt; "refused {what}");
}

// The result of a call, which is made again if memory is refused. It must fail with no other fault.
macro_rules! made {
    ($rt:expr, $memory:expr, $call:path, $($argument:expr),*) => {
        match $call($($argument),*) {
            Ok(made) => made,
            Err(fault) => {
                assert!($rt; fault == $memory);
                tell($rt, stringify!($call));
                $call($($argument),*).expect($rt, "memory")
            }
        }
    };
}

// A node goes into one of two lists.
fn links(rt: &(impl Abort + Print), alloc: Global) {
    let mut links = made!(rt, AllocError, Links::new, alloc, 4, 2);
    links.push_back(1, 3);
    assert!(rt; links.front(0).is_none() && links.front(1) == Some(3));
}

// A node goes onto one of two stacks.
fn stacks(rt: &(impl Abort + Print), alloc: Global) {
    let mut stacks = made!(rt, AllocError, Stacks::new, alloc, 4, 2, 7);
    stacks.push_front(1, 3);
    assert!(rt; stacks.front(0).is_none() && stacks.front(1) == Some(3));
}

// The one node becomes a chain, and then no node is free.
fn chained(rt: &(impl Abort + Print), alloc: Global) {
    let mut chained = made!(rt, AllocError, Chained::new, alloc, 1, 1, 7);
    assert!(rt; chained.free_len() == 1);
    assert!(rt; chained.begin_all(1) == 0 && chained.free_len() == 0);
}

#[test]
fn lists(rt: HostRuntime) {
    links(&rt, rt.alloc());
    stacks(&rt, rt.alloc());
    chained(&rt, rt.alloc());
}

// Four small data blocks, and two large ones.
const CLASSES: [ClassSpec; 2] = [
    ClassSpec { size: 16, count: 4 },
    ClassSpec { size: 64, count: 2 },
];

// One queue.
const QUEUES: [QueueSpec; 1] = [QueueSpec {
    hiwat: 10,
    lowat: 4,
    service: true,
    next: None,
}];

// The first large data block is taken.
fn data(rt: &(impl Abort + Print), alloc: Global) {
    let mut data = made!(rt, AllocError, Data::new, alloc, &CLASSES);
    assert!(rt; data.take(17) == Ok(4));
}

// All message blocks are free.
fn blocks(rt: &(impl Abort + Print), alloc: Global) {
    let blocks = made!(rt, AllocError, Blocks::new, alloc, 7, 8, &CLASSES, 1);
    assert!(rt; blocks.testb(64) && blocks.census().free == 8);
}

// There is one queue.
fn queues(rt: &(impl Abort + Print), alloc: Global) {
    let queues = made!(rt, AllocError, Queues::new, alloc, &QUEUES);
    assert!(rt; queues.has_queue(0) && !queues.has_queue(1));
}

#[test]
fn parts_of_a_pool(rt: HostRuntime) {
    data(&rt, rt.alloc());
    blocks(&rt, rt.alloc());
    queues(&rt, rt.alloc());
}

// The script as it is read.
fn script(rt: &(impl Abort + Print), alloc: Global) -> Script {
    made!(rt, ParseFault::Memory, parse, alloc, SCRIPT)
}

// The configuration of the script.
fn config(rt: &(impl Abort + Print), alloc: Global) -> Config {
    let Script { config, parts: _ } = script(rt, alloc);
    config
}

// A configuration of one queue, at which a side ends.
fn side(rt: &(impl Abort + Print), alloc: Global) -> Config {
    let Script { config, parts: _ } = made!(rt, ParseFault::Memory, parse, alloc, SIDE);
    config
}

// A writer that waits for a band which is not wanted may ask again.
fn writers(rt: &(impl Abort + Print), alloc: Global) {
    let mut writers = made!(rt, AllocError, Writers::new, alloc);
    writers.record(0, 3, false);
    let memory = SidesFault::NotMade(NewFault::Memory);
    let sides = made!(rt, memory, Sides::new, alloc, side(rt, alloc));
    assert!(rt; writers.next(sides.pool()) == Some((0, 3)));
    assert!(rt; writers.next(sides.pool()).is_none());
}

// All message blocks are free.
fn named(rt: &(impl Abort + Print), alloc: Global) {
    let named = made!(rt, NewFault::Memory, NamedPool::new, alloc, side(rt, alloc));
    assert!(rt; named.pool().census().free == 8);
}

#[test]
fn pools_of_other_types(rt: HostRuntime) {
    writers(&rt, rt.alloc());
    named(&rt, rt.alloc());
}

// How the script's pool is shared.
const SETUP: Setup = Setup {
    desks: 2,
    trace: Trace::Keep(3),
    first_stamp: 0,
};

// The script's pool, in which no message is held.
fn pool(rt: &(impl Abort + Print), alloc: Global) -> Pool
    ensures { (census_of result.arena).held ≡ 0 }
{
    made!(rt, NewFault::Memory, Pool::new, alloc, config(rt, alloc))
}

// Starts sharing the script's pool. If memory is refused, the pool comes back.
fn start(rt: &(impl Abort + Print), alloc: Global) -> Start {
    match Start::new(alloc, pool(rt, alloc), SETUP) {
        Ok(start) => start,
        Err((fault, pool)) => {
            assert!(rt; fault == NewFault::Memory);
            tell(rt, "Start::new");
            match Start::new(alloc, pool, SETUP) {
                Ok(start) => start,
                Err(_) => panic!(rt; "refused again"),
            }
        }
    }
}

// The desks of workers, and how each ended, with replies kept. If memory is refused, the desks come back, and the call is made
// again.
fn worked<N: Name + Send + Sync, R: Abort + Print + Threads + Wait + Sync>(
    rt: &R,
    alloc: Global,
    shared: &Shared<N>,
    desks: Desks<N>,
    parts: &Parts,
) -> (Desks<N>, Ends) {
    let mut desks = desks;
    for _ in 0..2 {
        assert!(rt; parts.items().len() == desks.len());
        match run_workers(rt, alloc, shared, desks, parts, &OpenGate) {
            Ok(
                Outcome {
                    desks,
                    replies: _,
                    ends,
                },
            ) => return (desks, ends),
            Err((_, back)) => {
                tell(rt, "run_workers");
                desks = back;
            }
        }
    }
    desks.forget();
    panic!(rt; "refused again")
}

// The same without replies.
fn worked_without_replies<N: Name + Send + Sync, R: Abort + Print + Threads + Wait + Sync>(
    rt: &R,
    alloc: Global,
    shared: &Shared<N>,
    desks: Desks<N>,
    parts: &Parts,
) -> (Desks<N>, Ends) {
    let mut desks = desks;
    for _ in 0..2 {
        assert!(rt; parts.items().len() == desks.len());
        match run_workers_without_replies(rt, alloc, shared, desks, parts, &OpenGate) {
            Ok(BareOutcome { desks, ends }) => return (desks, ends),
            Err((_, back)) => {
                tell(rt, "run_workers_without_replies");
                desks = back;
            }
        }
    }
    desks.forget();
    panic!(rt; "refused again")
}

// The text after two workers ended so. If one had no thread, the other ran on.
fn text_behind(rt: &(impl Abort + Print), ends: &[End]) -> &'static [u8] {
    match ends {
        [End::Done, End::Done] => TEXT,
        [End::Done, End::NotStarted] => {
            tell(rt, "thread");
            TEXT
        }
        [End::NotStarted, End::Done] => {
            tell(rt, "thread");
            &TEXT[REPORT..]
        }
        _ => panic!(rt; "{ends:?}"),
    }
}

// Appends to a text by a call, which is made again if memory is refused; then the text must be unchanged.
macro_rules! append {
    ($rt:expr, $text:ident, $call:path, $($argument:expr),*) => {
        let before = $text.len();
        if $call($text, $($argument),*).is_err() {
            tell($rt, stringify!($call));
            assert!($rt; $text.len() == before);
            $call($text, $($argument),*).expect($rt, "memory");
        }
    };
}

// Appends the line of an entry.
fn append_reply(rt: &(impl Abort + Print), text: &mut Vec<u8>, entry: &Entry) {
    append!(rt, text, reply_text, entry.desk, entry.line, &entry.reply);
}

// Appends the report.
fn append_report(rt: &(impl Abort + Print), text: &mut Vec<u8>, pool: &Pool) {
    append!(rt, text, report_text, pool);
}

// A line for each entry, and then the report.
fn text_of(rt: &(impl Abort + Print), alloc: Global, pool: &Pool, entries: &[Entry]) -> Vec<u8> {
    let mut text = Vec::new(alloc);
    for entry in entries {
        append_reply(rt, &mut text, entry);
    }
    append_report(rt, &mut text, pool);
    text
}

// Ends the sharing, and compares the text of the trace.
fn assert_text<N: Name>(
    rt: &(impl Abort + Print + Wait),
    alloc: Global,
    shared: Shared<N>,
    desks: Desks<N>,
    wanted: &[u8],
) {
    match shared.gather(desks) {
        Ok(Gathered { pool, trace, desks }) => {
            desks.forget();
            assert!(rt; text_of(rt, alloc, &pool, trace.items()).as_slice() == wanted);
        }
        Err((_, _, desks)) => {
            desks.forget();
            panic!(rt; "a desk is missing")
        }
    }
}

// Runs workers on the sections, with or without replies, and compares the text of their trace.
fn serve<N: Name + Send + Sync, R: Abort + Print + Threads + Wait + Sync>(
    rt: &R,
    alloc: Global,
    start: Start,
    parts: &Parts,
    keeps: bool,
)
    requires { IsNameOf N.Name start }
{
    let (shared, desks) = start.open::<N>();
    let (desks, ends) = if keeps {
        worked(rt, alloc, &shared, desks, parts)
    } else {
        worked_without_replies(rt, alloc, &shared, desks, parts)
    };
    assert_text(rt, alloc, shared, desks, text_behind(rt, ends.items()));
}

#[test]
fn a_script_that_workers_serve(rt: HostRuntime) {
    let start = start(&rt, rt.alloc());
    let Script { config: _, parts } = script(&rt, rt.alloc());
    serve::<Brand, _>(&rt, rt.alloc(), start, &parts, true);
}

#[test]
fn a_script_whose_replies_nobody_gets(rt: HostRuntime) {
    let start = start(&rt, rt.alloc());
    let Script { config: _, parts } = script(&rt, rt.alloc());
    serve::<Brand, _>(&rt, rt.alloc(), start, &parts, false);
}

// Serves lines at once on the first desk. This takes no memory, so it reports no refusal.
fn serve_at_once<N: Name>(
    rt: &(impl Abort + Wait),
    shared: &Shared<N>,
    desks: &mut Desks<N>,
    lines: &[Line],
    replies: &mut [Reply],
) {
    assert!(rt; !desks.is_empty() && lines.len() == replies.len());
    let served = shared.serve_all(rt, desks.desk_mut(0), lines, replies);
    assert!(rt; served == Ok(()));
}

// Serves the first section at once, and compares the text of its trace.
fn serve_first<N: Name>(
    rt: &(impl Abort + Print + Wait),
    alloc: Global,
    start: Start,
    parts: &Parts,
)
    requires { IsNameOf N.Name start }
{
    let (shared, mut desks) = start.open::<N>();
    let mut replies = [Reply::Nothing, Reply::Nothing, Reply::Nothing];
    match parts.items() {
        [lines, ..] => serve_at_once(
            rt,
            &shared,
            &mut desks,
            lines.items(),
            replies.as_mut_slice(),
        ),
        [] => panic!(rt; "no section"),
    }
    assert_text(rt, alloc, shared, desks, TEXT);
}

#[test]
fn a_section_that_is_served_at_once(rt: HostRuntime) {
    let start = start(&rt, rt.alloc());
    let Script { config: _, parts } = script(&rt, rt.alloc());
    serve_first::<Brand>(&rt, rt.alloc(), start, &parts);
}

// Runs the script once.
fn run_once<R: AllocGlobal + Threads + Wait + Sync>(
    rt: &R,
    mode: Mode,
    writer: &mut Watched<&mut [u8]>,
) -> Result<(), RunFault> {
    run(rt, mode, 1000, &OpenGate, &mut Watched::new(SCRIPT), writer)
}

// Runs the script, and again if memory is refused: then nothing was written, so that the next run writes the whole text.
fn run_whole<R: Abort + AllocGlobal + Print + Threads + Wait + Sync>(
    rt: &R,
    mode: Mode,
    writer: &mut Watched<&mut [u8]>,
) {
    let mut ran = run_once(rt, mode, writer);
    if ran == Err(RunFault::Memory) {
        tell(rt, "run");
        ran = run_once(rt, mode, writer);
    }
    assert!(rt; ran == Ok(()));
}

#[test]
fn whole_runs(rt: HostRuntime) {
    for mode in [Mode::Serial, Mode::Workers] {
        let mut room = [0; TEXT.len()];
        run_whole(&rt, mode, &mut Watched::new(room.as_mut_slice()));
        assert!(rt; room.as_slice() == TEXT);
    }
}
