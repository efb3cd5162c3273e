//! Rounds of calls of the libraries, to count what each costs. Each line of standard input has a form, a row, a number of
//! message blocks and a number of rounds, such as `direct allocb 4095 1000`; README.md lists forms and rows. The program runs
//! the rounds on a new pool with this number of blocks, and writes a line with the sum of the results. Any other line ends the
//! program.
#![tactic(auto)]

mod applied;
mod batches;
mod calls;
mod config;
mod direct;
mod held;
mod in_place;
mod looks;
mod messages;
mod order;
mod queue_looks;
mod queues;
mod row;
mod served;
mod transfers;

use applied::applied_rounds;
use batches::{THREADS, rounds_of_threads};
use config::{opened, start};
use direct::direct_rounds;
use order::Order;
use row::Form;
use served::served_rounds;
use std::io;
use std::sync::Wait;
use std::thread::Threads;
use strm_shared::{Brand, Trace};

// What the next line of standard input asks for, if anything.
fn next_order(rt: &(impl AllocGlobal + Input)) -> io::Result<Option<Order>> {
    let mut line = String::new(rt.alloc());
    rt.read_line(&mut line)?;
    Ok(Order::of(line.as_str()))
}

// Shares a pool with one desk, and runs the rounds on it.
fn share(rt: &(impl AllocGlobal + Wait), order: Order, trace: Trace) -> u64 {
    match start(rt.alloc(), order.blocks, 1, trace) {
        Some(start) => served_rounds::<Brand>(rt, start, order.row, order.times),
        None => 0,
    }
}

// Shares a pool with this number of desks, and runs the rounds on each desk, on a thread of its own.
fn spread<R: AllocGlobal + Threads + Wait + Sync>(
    rt: &R,
    order: Order,
    desks: u8,
    in_batches: bool,
) -> u64 {
    let alloc = rt.alloc();
    match start(alloc, order.blocks, desks, Trace::Off) {
        Some(start) => {
            rounds_of_threads::<Brand, R>(rt, alloc, start, order.row, order.times, in_batches)
        }
        None => 0,
    }
}

// Runs the rounds, and returns their sum.
fn done<R: AllocGlobal + Threads + Wait + Sync>(rt: &R, order: Order) -> u64 {
    match order.form {
        Form::Direct => direct_rounds(rt.alloc(), order),
        Form::Apply => match opened(rt.alloc(), order.blocks) {
            Some(pool) => applied_rounds(pool, order.row, order.times),
            None => 0,
        },
        Form::Serve => share(rt, order, Trace::Off),
        Form::Trace => share(rt, order, order.trace()),
        Form::Batch => spread(rt, order, 1, true),
        Form::Four => spread(rt, order, THREADS, false),
        Form::FourBatches => spread(rt, order, THREADS, true),
    }
}

fn main(rt: HostRuntime) -> io::Result<()> {
    for _ in 0..u64::MAX {
        let Some(order) = next_order(&rt)? else {
            return Ok(());
        };
        let told = done(&rt, order);
        println!(rt; "{told}")?;
    }
    Ok(())
}
