//! An example: two workers at a shared pool, and a monitor that looks at the census without the lock, on up to three threads.
#![tactic(auto)]

mod crew;
mod monitor;

use arrayvec::ArrayVec;
use crew::{Run, serve_watched};
use std::alloc::Global;
use std::io;
use std::sync::Wait;
use std::thread::Threads;
use strm_pool::{ClassSpec, ClassSpecs, Config, Pool, QueueSpec, QueueSpecs};
use strm_shared::{Brand, Setup, Start, Trace};

// A configuration of four message blocks and one queue.
fn config() -> Config {
    let mut classes = ArrayVec::new();
    classes.push(ClassSpec { size: 16, count: 4 });
    let mut queues = ArrayVec::new();
    queues.push(QueueSpec {
        hiwat: 10,
        lowat: 4,
        service: false,
        next: None,
    });
    Config {
        id: 1,
        mblks: 4,
        classes: ClassSpecs::of(classes),
        queues: QueueSpecs::of(queues),
        bufcalls: 0,
        first_id: 1,
    }
}

// Opens a pool, and runs two workers and a monitor at it.
fn shared_out<R: Threads + Wait + Sync>(rt: &R, alloc: Global) -> Option<Run> {
    let Ok(pool) = Pool::new(alloc, config()) else {
        return None;
    };
    let setup = Setup {
        desks: 3,
        trace: Trace::Off,
        first_stamp: 0,
    };
    match Start::new(alloc, pool, setup) {
        Ok(start) => Some(serve_watched::<Brand, R>(rt, start)),
        Err(_) => None,
    }
}

// Prints what a run gave.
fn tell(rt: &impl Print, run: Run) -> io::Result<()> {
    let Run { seen, done, census } = run;
    println!(rt;
        "done {done}, two free at each look {}, free {} queued {} held {}",
        seen.fewest >= 2,
        census.free,
        census.queued,
        census.held
    )
}

fn main(rt: HostRuntime) -> io::Result<()> {
    match shared_out(&rt, rt.alloc()) {
        Some(run) => tell(&rt, run),
        None => println!(rt; "memory"),
    }
}
