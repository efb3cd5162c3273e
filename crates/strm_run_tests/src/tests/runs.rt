ghost use Rattle.std.specs.Prelude.{◌≤◌, length};
ghost use Rattle.strm_script.specs.Limits.{most_script_bytes};

use super::faulty::{Choppy, Slow, choppy_writer, slow_reader};
use std::process::Abort;
use std::sync::Wait;
use std::sync::atomic::{AtomicU32, Ordering};
use std::thread::Threads;
use strm_pool::Which;
use strm_run::{Mode, RunFault, ServedText, Watched, run, workers_text};
use strm_script::{Fault, Kind, parse};
use strm_shared::{Gate, OpenGate};

// The first run: seven lines of commands.
const SCRIPT: &[u8] =
    b"pool 1 8\nclass 16 4\nclass 64 2\nqueue 10 4 s -\nbufcalls 2 1\nworker\nallocb a 3\nwrite a 0 616263\n\
      putq 0 a\ngetq 0 b\ncensus\nfreemsg b\ncensus\n";

const TEXT: &[u8] =
    b"0:7 ok\n0:8 ok\n0:9 ok\n0:10 ok\n0:11 census 7 0 1\n0:12 ok\n0:13 census 8 0 0\n\
      blocks free=8 queued=0 held=0 total=8\ndata size=16 free=4 total=4\ndata size=64 free=2 total=2\n\
      queue 0 msgs=0 bytes=0 read=0 noenable=0 enabled=1\nrun 0\nwishes -\n";

const MAX: u32 = 1_048_576;

// Two sections; the second takes from the queue what the first put there.
const SECTIONS: &[u8] =
    b"pool 1 8\nclass 16 4\nqueue 10 4 s -\nbufcalls 2 1\nworker\nallocb a 3\nputq 0 a\nallocb a 1\n\
      worker\nfreemsg a\ngetq 0 a\ncensus\n";

// Each section has its own register a, and messages in registers at the end count as held.
const SECTIONS_TEXT: &[u8] =
    b"0:6 ok\n0:7 ok\n0:8 ok\n1:10 empty\n1:11 ok\n1:12 census 6 0 2\nblocks free=6 queued=0 held=2 total=8\n\
      data size=16 free=2 total=4\nqueue 0 msgs=0 bytes=0 read=0 noenable=0 enabled=1\nrun 0\nwishes -\n";

// The fault, if any, of a run from this reader to this writer.
fn fault_of(
    rt: &(impl AllocGlobal + Threads + Wait + Sync),
    mode: Mode,
    max: u32,
    gate: &impl Gate,
    reader: Slow<'_>,
    writer: &mut Choppy,
) -> Option<RunFault>
    requires least { 1 ≤ max }
    requires most { max ≤ most_script_bytes }
{
    run(
        rt,
        mode,
        max,
        gate,
        &mut Watched::new(reader),
        &mut Watched::new(writer),
    )
    .err()
}

// The text that a run writes to a writer that takes one byte at a time.
pub fn written(
    rt: &(impl Abort + AllocGlobal + Threads + Wait + Sync),
    mode: Mode,
    gate: &impl Gate,
    script: &[u8],
) -> Vec<u8> {
    let mut writer = choppy_writer(rt.alloc(), 1, None);
    let fault = fault_of(rt, mode, MAX, gate, slow_reader(script, None), &mut writer);
    assert!(rt; fault.is_none());
    writer.got
}

// Both texts are equal.
pub fn expect_text(rt: &impl Abort, text: &[u8], wanted: &[u8]) {
    assert_eq!(rt; text, wanted);
}

#[test]
fn goes_byte_by_byte(rt: HostRuntime) {
    for mode in [Mode::Serial, Mode::Workers] {
        expect_text(&rt, &written(&rt, mode, &OpenGate, SCRIPT), TEXT);
    }
}

#[test]
fn serves_one_section_after_the_other(rt: HostRuntime) {
    let text = written(&rt, Mode::Serial, &OpenGate, SECTIONS);
    expect_text(&rt, &text, SECTIONS_TEXT);
}

// The text of a script by workers, with their desks.
fn served(rt: &(impl Abort + AllocGlobal + Threads + Wait + Sync), script: &[u8]) -> ServedText
    requires { length script.now ≤ most_script_bytes }
{
    let Ok(script) = parse(rt.alloc(), script) else {
        panic!(rt; "a fault")
    };
    match workers_text(rt, rt.alloc(), &OpenGate, script) {
        Ok(served) => served,
        Err(_) => panic!(rt; "no text"),
    }
}

#[test]
fn a_text_comes_with_the_desks(rt: HostRuntime) {
    let one = served(&rt, SCRIPT);
    expect_text(&rt, &one.text, TEXT);
    assert_eq!(rt; one.desks.len(), 1);
    assert_eq!(rt; served(&rt, SECTIONS).desks.len(), 2);
}

// Two sections of two lines each: lines 6 and 7, and lines 9 and 10.
const MEETING: &[u8] =
    b"pool 1 8\nclass 16 4\nqueue 10 4 s -\nbufcalls 2 1\nworker\nallocb a 3\nfreemsg a\nworker\nallocb a 3\nfreemsg a\n";

const MEETING_TEXT: &[u8] =
    b"0:6 ok\n0:7 ok\n1:9 ok\n1:10 ok\nblocks free=8 queued=0 held=0 total=8\n\
      data size=16 free=4 total=4\nqueue 0 msgs=0 bytes=0 read=1 noenable=0 enabled=0\nrun -\nwishes -\n";

// The greatest number of times that a worker looks for the other.
pub const LOOKS: u32 = 100_000_000;

// The four lines, each once, as the gate counts them: a digit of four bits for each, and a fifth for any other line.
const EACH_LINE: u32 = 0x1111;

// The digit of a worker's line.
fn digit(worker: u8, line: u32) -> u32 {
    match (worker, line) {
        (0, 6) => 0x0001,
        (0, 7) => 0x0010,
        (1, 9) => 0x0100,
        (1, 10) => 0x1000,
        _ => 0x1_0000,
    }
}

// A gate at which two workers wait for each other, before each line. It notes which lines came and were executed, and how many
// waited in vain.
#[derive(Drop)]
struct Meeting {
    came: AtomicU32,
    answered: AtomicU32,
    missed: AtomicU32,
}

impl Meeting {
    fn new() -> Meeting {
        Meeting {
            came: AtomicU32::new(0),
            answered: AtomicU32::new(0),
            missed: AtomicU32::new(0),
        }
    }

    // Waits for the other worker, which has other digits, and says whether it came in time.
    fn meets(&self, worker: u8) -> bool {
        let others = if worker == 0 { 0xFF00 } else { 0x00FF };
        for _ in 0..LOOKS {
            if self.came.load(Ordering::SeqCst) & others != 0 {
                return true;
            }
        }
        false
    }
}

impl Gate for Meeting {
    fn before(&self, worker: u8, line: u32) {
        self.came.fetch_add(digit(worker, line), Ordering::SeqCst);
        if !self.meets(worker) {
            self.missed.fetch_add(1, Ordering::SeqCst);
        }
    }

    fn after(&self, worker: u8, line: u32) {
        self.answered
            .fetch_add(digit(worker, line), Ordering::SeqCst);
    }
}

// A count of a gate is this one.
pub fn expect_count(rt: &impl Abort, count: &AtomicU32, wanted: u32) {
    assert_eq!(rt; count.load(Ordering::SeqCst), wanted);
}

// The text for the script of the meeting, at whose gate these lines came and were executed, and no worker waited in vain.
fn written_at_a_meeting(
    rt: &(impl Abort + AllocGlobal + Threads + Wait + Sync),
    mode: Mode,
    told: u32,
) -> Vec<u8> {
    let gate = Meeting::new();
    let text = written(rt, mode, &gate, MEETING);
    expect_count(rt, &gate.came, told);
    expect_count(rt, &gate.answered, told);
    expect_count(rt, &gate.missed, 0);
    text
}

// The bytes of a text, sorted.
fn sorted(rt: &(impl Abort + AllocGlobal), text: &[u8]) -> Vec<u8> {
    let mut bytes = Vec::from_slice(rt.alloc(), text).expect(rt, "memory");
    bytes.sort_unstable();
    bytes
}

// The order of the lines is open.
#[test]
fn workers_run_at_once(rt: HostRuntime) {
    let text = written_at_a_meeting(&rt, Mode::Workers, EACH_LINE);
    expect_text(&rt, &sorted(&rt, &text), &sorted(&rt, MEETING_TEXT));
}

#[test]
fn a_line_that_no_worker_serves_passes_no_gate(rt: HostRuntime) {
    let text = written_at_a_meeting(&rt, Mode::Serial, 0);
    expect_text(&rt, &text, MEETING_TEXT);
}

// A gate that counts the lines of worker 0 that came, those that were executed, and those of any other worker.
#[derive(Drop)]
struct Count {
    came: AtomicU32,
    answered: AtomicU32,
    strange: AtomicU32,
}

impl Count {
    fn new() -> Count {
        Count {
            came: AtomicU32::new(0),
            answered: AtomicU32::new(0),
            strange: AtomicU32::new(0),
        }
    }

    fn count(&self, worker: u8, own: &AtomicU32) {
        let count = if worker == 0 { own } else { &self.strange };
        count.fetch_add(1, Ordering::SeqCst);
    }
}

impl Gate for Count {
    fn before(&self, worker: u8, _line: u32) {
        self.count(worker, &self.came);
    }

    fn after(&self, worker: u8, _line: u32) {
        self.count(worker, &self.answered);
    }
}

#[test]
fn a_worker_serves_one_section(rt: HostRuntime) {
    let gate = Count::new();
    expect_text(&rt, &written(&rt, Mode::Workers, &gate, SCRIPT), TEXT);
    expect_count(&rt, &gate.came, 7);
    expect_count(&rt, &gate.answered, 7);
    expect_count(&rt, &gate.strange, 0);
}

// Two sections at one queue, each with its own register a.
const TURNS: &[u8] =
    b"pool 1 8\nclass 16 4\nqueue 10 4 s -\nbufcalls 2 1\nworker\ncensus\nallocb a 3\nputq 0 a\n\
      worker\ncensus\ngetq 0 a\nqsize 0\ngetq 0 a\n";

// Both workers look at the pool first. Worker 1 looks for the message twice before it is put, and once after.
const TURNS_TEXT: &[u8] =
    b"1:10 census 8 0 0\n0:6 census 8 0 0\n1:11 none\n0:7 ok\n1:12 size 0\n0:8 ok\n1:13 ok\n\
      blocks free=7 queued=0 held=1 total=8\ndata size=16 free=3 total=4\n\
      queue 0 msgs=0 bytes=0 read=0 noenable=0 enabled=1\nrun 0\nwishes -\n";

// The order of the lines: the worker and the number of each.
const TURNS_ORDER: &[(u8, u32)] = &[(1, 10), (0, 6), (1, 11), (0, 7), (1, 12), (0, 8), (1, 13)];

// Three sections at one queue, each with its own registers.
const THREE: &[u8] =
    b"pool 1 8\nclass 16 4\nqueue 10 4 s -\nbufcalls 2 1\nworker\ncensus\nallocb a 3\nputq 0 a\n\
      worker\ncensus\ngetq 0 a\nfreemsg a\nworker\ncensus\nqsize 0\ngetq 0 b\n";

// All workers look at the pool first, worker 2 before the others. It looks at the queue before the message is put, and takes
// the message afterwards, so that worker 1 finds nothing.
const THREE_ORDER: &[(u8, u32)] = &[
    (2, 14),
    (0, 6),
    (1, 10),
    (0, 7),
    (2, 15),
    (0, 8),
    (2, 16),
    (1, 11),
    (1, 12),
];

const THREE_TEXT: &[u8] =
    b"2:14 census 8 0 0\n0:6 census 8 0 0\n1:10 census 8 0 0\n0:7 ok\n2:15 size 0\n0:8 ok\n2:16 ok\n1:11 none\n1:12 empty\n\
      blocks free=7 queued=0 held=1 total=8\ndata size=16 free=3 total=4\n\
      queue 0 msgs=0 bytes=0 read=1 noenable=0 enabled=1\nrun 0\nwishes -\n";

// The turn of a worker's line in an order, or the order's length if the line is not in it.
fn turn_of(order: &[(u8, u32)], worker: u8, line: u32) -> u32 {
    let mut turn = 0u32;
    for place in order {
        if *place == (worker, line) {
            return turn;
        }
        turn = turn.saturating_add(1);
    }
    turn
}

// A gate that lets lines pass in an order. It notes whose turn it is, and how many waited in vain.
#[derive(Drop)]
struct Turns {
    order: &'static [(u8, u32)],
    turn: AtomicU32,
    missed: AtomicU32,
}

impl Turns {
    fn new(order: &'static [(u8, u32)]) -> Turns {
        Turns {
            order,
            turn: AtomicU32::new(0),
            missed: AtomicU32::new(0),
        }
    }

    // Waits for a turn, and says whether it came in time.
    fn comes(&self, turn: u32) -> bool {
        for _ in 0..LOOKS {
            if self.turn.load(Ordering::SeqCst) == turn {
                return true;
            }
        }
        false
    }
}

impl Gate for Turns {
    fn before(&self, worker: u8, line: u32) {
        if !self.comes(turn_of(self.order, worker, line)) {
            self.missed.fetch_add(1, Ordering::SeqCst);
        }
    }

    fn after(&self, _worker: u8, _line: u32) {
        self.turn.fetch_add(1, Ordering::SeqCst);
    }
}

// The text of a script whose lines are executed in this order is the expected one, and the gate was called for each line.
fn expect_order(
    rt: &(impl Abort + AllocGlobal + Threads + Wait + Sync),
    script: &[u8],
    order: &'static [(u8, u32)],
    wanted: &[u8],
) {
    let gate = Turns::new(order);
    expect_text(rt, &written(rt, Mode::Workers, &gate, script), wanted);
    assert!(rt; gate.turn.load(Ordering::SeqCst) as usize == order.len());
    expect_count(rt, &gate.missed, 0);
}

#[test]
fn writes_the_order_in_which_workers_were_served(rt: HostRuntime) {
    expect_order(&rt, TURNS, TURNS_ORDER, TURNS_TEXT);
}

#[test]
fn writes_the_order_in_which_three_workers_were_served(rt: HostRuntime) {
    expect_order(&rt, THREE, THREE_ORDER, THREE_TEXT);
}

// A run from this reader has this fault, and writes nothing.
fn expect_fault(
    rt: &(impl Abort + AllocGlobal + Threads + Wait + Sync),
    mode: Mode,
    max: u32,
    reader: Slow<'_>,
    wanted: RunFault,
)
    requires least { 1 ≤ max }
    requires most { max ≤ most_script_bytes }
{
    let mut writer = choppy_writer(rt.alloc(), 100, None);
    let fault = fault_of(rt, mode, max, &OpenGate, reader, &mut writer);
    assert!(rt; fault == Some(wanted), "{fault:?}");
    assert!(rt; writer.got.is_empty());
}

// Each read, of one byte, fails in turn.
#[test]
fn a_failing_reader_leaves_nothing_written(rt: HostRuntime) {
    for mode in [Mode::Serial, Mode::Workers] {
        for cut in 0..=SCRIPT.len() {
            let reader = slow_reader(SCRIPT, Some(cut));
            expect_fault(&rt, mode, MAX, reader, RunFault::Read);
        }
    }
}

// A run to a writer that takes this number of bytes at a time, and fails after this beginning of the text, has a write fault.
// No other call follows.
fn expect_beginning(
    rt: &(impl Abort + AllocGlobal + Threads + Wait + Sync),
    mode: Mode,
    gate: &impl Gate,
    script: &[u8],
    most: usize,
    beginning: &[u8],
) {
    let mut writer = choppy_writer(rt.alloc(), most, Some(beginning.len()));
    let fault = fault_of(rt, mode, MAX, gate, slow_reader(script, None), &mut writer);
    assert!(rt; fault == Some(RunFault::Write), "at {}", beginning.len());
    expect_text(rt, &writer.got, beginning);
    assert!(rt; writer.faults == 1);
}

// Each write, of one byte, fails in turn, and then the flush.
#[test]
fn a_failing_writer_has_the_beginning(rt: HostRuntime) {
    for mode in [Mode::Serial, Mode::Workers] {
        for cut in 0..=TEXT.len() {
            expect_beginning(&rt, mode, &OpenGate, SCRIPT, 1, &TEXT[..cut]);
        }
    }
}

#[test]
fn a_failing_writer_has_the_beginning_of_what_two_workers_were_served(rt: HostRuntime) {
    for cut in [0, 7, 21] {
        let gate = Turns::new(TURNS_ORDER);
        expect_beginning(&rt, Mode::Workers, &gate, TURNS, 7, &TURNS_TEXT[..cut]);
        expect_count(&rt, &gate.missed, 0);
    }
}

#[test]
fn tells_the_first_fault(rt: HostRuntime) {
    let reader = slow_reader(SCRIPT, None);
    expect_fault(&rt, Mode::Serial, 40, reader, RunFault::TooLong);
    let unknown = Fault {
        line: 2,
        kind: Kind::Unknown,
    };
    let reader = slow_reader(b"pool 1 0\nalloc a 3\n", None);
    expect_fault(&rt, Mode::Serial, MAX, reader, RunFault::Script(unknown));
    let unlawful = b"pool 1 0\nclass 16 4\nqueue 10 4 s -\nbufcalls 2 0\nworker\n";
    let reader = slow_reader(unlawful, None);
    expect_fault(
        &rt,
        Mode::Serial,
        MAX,
        reader,
        RunFault::Config(Which::Mblks),
    );
}
