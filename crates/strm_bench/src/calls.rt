//! The calls of each row's round, as data.
ghost use Rattle.std.specs.Prelude.{◌≤◌};

use crate::config::CHAIN;
use crate::messages::SIZE;
use crate::row::Row;
use arrayvec::ArrayVec;
use strm_pool::{Call, MOST_OCTETS, MsgType, Octets, Reg};

// The greatest number of calls in a round.
const MOST: usize = 4;

/// The calls of a round: the first `count` of an array.
#[derive(Drop)]
pub(crate) struct Calls {
    list: [Call; MOST],
    count: usize,
    ghost few: { count ≤ 4 },
}

/// The number of calls before the rounds.
pub(crate) const OPENING: usize = 14;

// The bytes of a block.
fn bytes() -> Octets {
    Octets::of(ArrayVec::from([90; MOST_OCTETS]))
}

impl Calls {
    /// Returns the calls, in order.
    pub(crate) fn items(&self) -> &[Call] {
        &self.list[..self.count]
    }
}

fn one(call: Call) -> Calls {
    Calls {
        list: [call, Call::Census, Call::Census, Call::Census],
        count: 1,
    }
}

fn two(first: Call, second: Call) -> Calls {
    Calls {
        list: [first, second, Call::Census, Call::Census],
        count: 2,
    }
}

fn three(first: Call, second: Call, third: Call) -> Calls {
    Calls {
        list: [first, second, third, Call::Census],
        count: 3,
    }
}

fn four(first: Call, second: Call, third: Call, fourth: Call) -> Calls {
    Calls {
        list: [first, second, third, fourth],
        count: 4,
    }
}

/// Returns the calls before the rounds, which put a message of four blocks into register a, and one on queue 0.
pub(crate) fn opening_calls() -> Option<[Call; OPENING]> {
    let a = Reg::new(0)?;
    let b = Reg::new(1)?;
    Some([
        Call::Allocb(a, SIZE),
        Call::Write(a, 0, bytes()),
        Call::Allocb(b, SIZE),
        Call::Write(b, 0, bytes()),
        Call::Linkb(a, b),
        Call::Allocb(b, SIZE),
        Call::Write(b, 0, bytes()),
        Call::Linkb(a, b),
        Call::Allocb(b, SIZE),
        Call::Write(b, 0, bytes()),
        Call::Linkb(a, b),
        Call::Allocb(b, SIZE),
        Call::Write(b, 0, bytes()),
        Call::Putq(0, b),
    ])
}

// The calls of a round on messages: the one in register a, and others in registers b and c.
fn on_messages(row: Row, a: Reg, b: Reg, c: Reg) -> Option<Calls> {
    match row {
        Row::Allocb => Some(two(Call::Allocb(b, SIZE), Call::Freemsg(b))),
        Row::Dupb => Some(four(
            Call::Allocb(b, SIZE),
            Call::Dupb(b, c),
            Call::Freemsg(b),
            Call::Freemsg(c),
        )),
        Row::Dupmsg => Some(four(
            Call::Allocb(b, SIZE),
            Call::Dupmsg(b, c),
            Call::Freemsg(b),
            Call::Freemsg(c),
        )),
        Row::Write => Some(three(
            Call::Allocb(b, SIZE),
            Call::Write(b, 0, bytes()),
            Call::Freemsg(b),
        )),
        Row::CopymsgFour => Some(two(Call::Copymsg(a, b), Call::Freemsg(b))),
        Row::DupmsgFour => Some(two(Call::Dupmsg(a, b), Call::Freemsg(b))),
        Row::Unlinkb => Some(two(Call::Unlinkb(a, b), Call::Linkb(a, b))),
        Row::Settype => Some(one(Call::Settype(a, 0, MsgType::MData))),
        Row::Setband => Some(one(Call::Setband(a, 1))),
        Row::Size => Some(one(Call::Size(a))),
        Row::Read => Some(one(Call::Read(a, 192))),
        Row::Block => Some(one(Call::Block(a, 0))),
        _ => None,
    }
}

// The calls of a round on queues, or on neither queues nor messages; register b has a message.
fn on_queues(row: Row, b: Reg) -> Option<Calls> {
    match row {
        Row::Putq => Some(two(Call::Getq(0, b), Call::Putq(0, b))),
        Row::Putbq => Some(two(Call::Getq(0, b), Call::Putbq(0, b))),
        Row::Rmvq => Some(two(Call::Rmvq(0, 0, b), Call::Putbq(0, b))),
        Row::Insq => Some(two(Call::Rmvq(0, 0, b), Call::Insq(0, 0, b))),
        Row::Bcanput => Some(one(Call::Bcanput(CHAIN, 0))),
        Row::Strqset => Some(one(Call::Strqset(0, 3, 8, 4))),
        Row::Qsize => Some(one(Call::Qsize(0))),
        Row::Qenable => Some(two(Call::Qenable(0), Call::Service)),
        Row::Bufcall => Some(two(Call::Bufcall(SIZE), Call::Ready)),
        Row::Testb => Some(one(Call::Testb(SIZE))),
        Row::Census => Some(one(Call::Census)),
        _ => None,
    }
}

/// Returns the calls of a round, if the row has a form with registers.
pub(crate) fn calls_of(row: Row) -> Option<Calls> {
    let a = Reg::new(0)?;
    let b = Reg::new(1)?;
    let c = Reg::new(2)?;
    match on_messages(row, a, b, c) {
        Some(calls) => Some(calls),
        None => on_queues(row, b),
    }
}
