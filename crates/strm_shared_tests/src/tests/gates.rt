//! The gate is called before and after each line.
use super::crews::{Left, assert_done, crew};
use super::workers::{assert_all_done, assert_count, comes, line, small};
use super::{reg, start};
use std::alloc::{AllocError, Global};
use std::process::Abort;
use std::sync::Wait;
use std::sync::atomic::{AtomicU32, Ordering};
use std::thread::Threads;
use strm_pool::{Call, Refusal, Reg};
use strm_shared::{End, Gate, Line, Lines, MOST_STAMP, Parts, Start, Trace};

// A gate that notes which lines came, and which were served or refused, one digit of four bits for each. It counts lines of
// another worker's number.
#[derive(Drop)]
struct Roll {
    came: AtomicU32,
    answered: AtomicU32,
    strange: AtomicU32,
}

impl Roll {
    fn new() -> Roll {
        Roll {
            came: AtomicU32::new(0),
            answered: AtomicU32::new(0),
            strange: AtomicU32::new(0),
        }
    }

    // Counts a worker's line.
    fn count(&self, lines: &AtomicU32, worker: u8, line: u32) {
        if u32::from(worker) != line / 2 {
            self.strange.fetch_add(1, Ordering::SeqCst);
        }
        let digit = 1_u32.wrapping_shl(line.wrapping_mul(4));
        lines.fetch_add(digit, Ordering::SeqCst);
    }
}

impl Gate for Roll {
    fn before(&self, worker: u8, line: u32) {
        self.count(&self.came, worker, line);
    }

    fn after(&self, worker: u8, line: u32) {
        self.count(&self.answered, worker, line);
    }
}

// Two lines for each worker: lines 0 and 1 for worker 0, lines 2 and 3 for worker 1, and so on.
fn numbered(alloc: Global, reg: Reg, workers: u32) -> Result<Parts, AllocError> {
    let mut list = Vec::new(alloc);
    for worker in 0..workers {
        let first = worker.wrapping_mul(2);
        let mut lines = Vec::new(alloc);
        lines.push(line(reg, first))?;
        lines.push(line(reg, first.wrapping_add(1)))?;
        list.push(Lines::of(lines))?;
    }
    Ok(Parts::of(list))
}

// What these workers leave, up to this stamp. The gate was called once before and once after each of these lines, with the
// right worker's number.
fn rolled<R: Threads + Wait + Abort + Sync>(
    rt: &R,
    alloc: Global,
    start: Start,
    workers: u32,
    stamp: u64,
    lines: u32,
) -> Left {
    let gate = Roll::new();
    let parts = numbered(alloc, reg(rt, b'a'), workers).expect(rt, "memory");
    let left = crew(rt, alloc, start, &parts, &gate, true, stamp);
    assert_count(rt, &gate.came, lines);
    assert_count(rt, &gate.answered, lines);
    assert_count(rt, &gate.strange, 0);
    left
}

// The number of a worker is the place of its lines, whatever desk it has: here worker 0 has desk 2, and worker 2 desk 0.
#[test]
fn each_line_by_its_worker(rt: HostRuntime) {
    let three = small(&rt, rt.alloc(), 3, Trace::Off);
    let left = rolled(&rt, rt.alloc(), three, 3, 6, 0x11_1111);
    assert_done(&rt, &left, 3, 4);
}

// The second line is refused at the last stamp, and the gate is called after it too. The worker then holds a message.
#[test]
fn a_refused_line(rt: HostRuntime) {
    let one = start(&rt, rt.alloc(), 7, 1, MOST_STAMP - 1);
    let left = rolled(&rt, rt.alloc(), one, 1, MOST_STAMP, 0x11);
    assert!(rt; left.ends.items() == [End::Refused(Refusal::Worn)].as_slice());
    assert!(rt; left.held == 1);
}

// A gate by which worker 0 puts a message on a queue, and worker 1 then takes it. Worker 1 comes to its first line. Then worker 0
// passes both its lines, and worker 1 passes its first and comes to its second. The gate notes what came so far, and how many
// waited in vain.
#[derive(Drop)]
struct Handover {
    shown: AtomicU32,
    missed: AtomicU32,
}

// Worker 1 has come to its first line, or to its second.
const COME: u32 = 1;

const TAKEN: u32 = 4;

// Worker 0 has its second line behind it.
const PUT: u32 = 2;

impl Handover {
    fn new() -> Handover {
        Handover {
            shown: AtomicU32::new(0),
            missed: AtomicU32::new(0),
        }
    }

    // Notes what came.
    fn show(&self, what: u32) {
        self.shown.fetch_or(what, Ordering::SeqCst);
    }

    // Waits for what is to come.
    fn wait(&self, what: u32) {
        if !comes(&self.shown, what) {
            self.missed.fetch_add(1, Ordering::SeqCst);
        }
    }
}

impl Gate for Handover {
    fn before(&self, worker: u8, line: u32) {
        match (worker, line) {
            (0, 0) => self.wait(COME),
            (1, 2) => {
                self.show(COME);
                self.wait(PUT);
            }
            (1, 3) => self.show(TAKEN),
            _ => {}
        }
    }

    fn after(&self, worker: u8, line: u32) {
        if (worker, line) == (0, 1) {
            self.show(PUT);
            self.wait(TAKEN);
        }
    }
}

// Two lines of a worker, from this number on.
fn two_lines(alloc: Global, first: u32, calls: [Call; 2]) -> Result<Lines, AllocError> {
    let mut number = first;
    let mut lines = Vec::new(alloc);
    for call in calls {
        lines.push(Line { number, call })?;
        number = number.wrapping_add(1);
    }
    Ok(Lines::of(lines))
}

// The lines of the handover: worker 0 makes a message and puts it on queue 0; worker 1 takes it from there and frees it.
fn giving_and_taking(alloc: Global, reg: Reg) -> Result<Parts, AllocError> {
    let mut list = Vec::new(alloc);
    list.push(two_lines(alloc, 0, [Call::Allocb(reg, 16), Call::Putq(0, reg)])?)?;
    list.push(two_lines(alloc, 2, [Call::Getq(0, reg), Call::Freemsg(reg)])?)?;
    Ok(Parts::of(list))
}

// The gate is called before a line is served, and after it was. The `getq` that waits for the call after the `putq` finds the
// message. Worker 0 begins only after the call before that `getq`. Each of the four lines has the reply `Done`.
#[test]
fn before_and_after_a_line_is_served(rt: HostRuntime) {
    let gate = Handover::new();
    let two = small(&rt, rt.alloc(), 2, Trace::Off);
    let parts = giving_and_taking(rt.alloc(), reg(&rt, b'a')).expect(&rt, "memory");
    let left = crew(&rt, rt.alloc(), two, &parts, &gate, true, 4);
    assert_done(&rt, &left, 2, 4);
    assert_all_done(&rt, left.replies.items(), 2);
    assert_count(&rt, &gate.missed, 0);
}
