//! Drawn calls on sides and on plain lists, which are compared after each call.
ghost use Rattle.std.specs.Prelude.{◌<◌};

use super::making::{
    BYTE, Draft, assert_had, assert_put, assert_same, most_bytes, put, put_as, taken,
};
use super::modules::{Line, Way};
use super::plain::{HIGH_RANK, Plain, Standing};
use super::{MESSAGES, QUEUES, opened, queue};
use std::alloc::Global;
use std::process::Abort;
use strm_pool::{MsgType, QueueSpec, Refusal, Token};
use strm_scheduler::{Ended, Service, Sides, Writers};

// The ways in which queues are served, and those that are mixed with a line of modules.
const WAYS: [Way; 5] = [Way::Forward, Way::Pass, Way::Mark, Way::Drop, Way::Borrow];

const WAYS_IN_LINE: [Way; 3] = [Way::Forward, Way::Pass, Way::Mark];

// How queues form sides.
#[derive(Clone, Copy)]
enum Shape {
    // This number of sides take turns in the numbers.
    Turns(u8),
    // A write side, and then a read side of as many queues or one less, with a line of modules. Two queues are a write side.
    Line,
}

// Sides of streams of this shape, with this number of queues, and plain lists that get the same calls.
#[derive(Drop)]
struct Drawn {
    sides: Sides,
    plain: Plain,
    // The writers that wait, and the queue and band of each, first refused first.
    writers: Writers,
    waits: Vec<(u8, u8)>,
    // As many bytes as a message may have: to write, and to read into.
    bytes: Vec<u8>,
    room: Vec<u8>,
    count: u8,
    shape: Shape,
    draw: u32,
    // The greatest number of queues that gave messages which were all put back.
    turned: u32,
    // How often after a run a message waited, and how often one was held back. How often a message that was taken woke a queue that
    // waited for a block. How often a message was given, was taken, and a writer was given.
    waited: u32,
    held: u32,
    woken: u32,
    given: u32,
    taken: u32,
    written: u32,
}

// The next number below `limit` of a fixed sequence.
fn below(draw: &mut u32, limit: u32) -> u32
    requires { 0 < limit }
    ensures { result < limit }
{
    *draw = draw.wrapping_mul(1_664_525).wrapping_add(1_013_904_223);
    (*draw >> 8) % limit
}

// One of `count` numbers from 0 on.
fn any_of(draw: &mut u32, count: u8) -> u8 {
    if count == 0 {
        0
    } else {
        below(draw, u32::from(count)) as u8
    }
}

// A number of bytes: up to 4,096, mostly few.
fn size(draw: &mut u32) -> u32 {
    if below(draw, 4) == 0 {
        below(draw, 4_097)
    } else {
        below(draw, 5)
    }
}

// A band, mostly one of the first three.
fn band(draw: &mut u32) -> u8 {
    if below(draw, 8) == 0 {
        below(draw, 256) as u8
    } else {
        below(draw, 3) as u8
    }
}

// A rank: that of high priority, or a band.
fn rank(draw: &mut u32) -> u16 {
    if below(draw, 8) == 0 {
        HIGH_RANK
    } else {
        u16::from(band(draw))
    }
}

// A high water mark, and a low one below it.
fn marks(draw: &mut u32) -> (u32, u32) {
    let (one, other) = if below(draw, 3) == 0 {
        (below(draw, 8_192), below(draw, 8_192))
    } else {
        (below(draw, 8), below(draw, 8))
    };
    if one < other {
        (other, one)
    } else {
        (one.wrapping_add(1), other)
    }
}

impl Shape {
    // The number of sides.
    const fn sides(self) -> u8 {
        match self {
            Shape::Turns(sides) => sides,
            Shape::Line => 2,
        }
    }

    // The last queue of a side, if there are this number of queues.
    fn end(self, count: u8, side: u8) -> u8 {
        match self {
            Shape::Line if side == 1 => (count.wrapping_sub(1) / 2).max(1),
            _ => count.wrapping_sub(1).wrapping_sub(side),
        }
    }

    // The next queue, if there are this number of queues.
    fn next(self, count: u8, queue: u8) -> Option<u8> {
        let step = match self {
            Shape::Turns(sides) => sides,
            Shape::Line if queue == self.end(count, 1) => return None,
            Shape::Line => 1,
        };
        let next = queue.wrapping_add(step);
        (next < count).then_some(next)
    }

    // A number for this shape.
    const fn number(self) -> u32 {
        match self {
            Shape::Turns(sides) => sides as u32,
            Shape::Line => 0,
        }
    }
}

// The specs of queues with drawn water marks.
fn specs(draw: &mut u32, count: u8, shape: Shape) -> [QueueSpec; QUEUES] {
    let mut specs = [queue(1, 0, None); QUEUES];
    for (number, spec) in specs.iter_mut().enumerate() {
        let (hiwat, lowat) = marks(draw);
        *spec = queue(hiwat, lowat, shape.next(count, number as u8));
    }
    specs
}

// A type that the modules of a line know, or another one.
fn kind(draw: &mut u32) -> MsgType {
    match below(draw, 8) {
        0 => MsgType::MIoctl,
        1 => MsgType::MFlush,
        2 => MsgType::MProto,
        3 => MsgType::MPcproto,
        _ => MsgType::MData,
    }
}

impl Drawn {
    fn opened(rt: &impl Abort, alloc: Global, count: u8, shape: Shape) -> Drawn {
        let mut draw = u32::from(count).wrapping_add(shape.number() << 8);
        let specs = specs(&mut draw, count, shape);
        let specs = specs.get(..usize::from(count)).expect(rt, "few queues");
        Drawn {
            sides: opened(rt, alloc, specs).expect(rt, "sides"),
            plain: Plain::new(rt, alloc, specs),
            writers: Writers::new(alloc).expect(rt, "writers"),
            waits: Vec::new(alloc),
            bytes: most_bytes(rt, alloc),
            room: most_bytes(rt, alloc),
            count,
            shape,
            draw,
            turned: 0,
            waited: 0,
            held: 0,
            woken: 0,
            given: 0,
            taken: 0,
            written: 0,
        }
    }

    // One of the queues.
    fn any_queue(&mut self) -> u8 {
        any_of(&mut self.draw, self.count)
    }

    // Puts a message on a queue, if a block is free.
    fn put(&mut self, rt: &impl Abort) {
        let queue = self.any_queue();
        let rank = rank(&mut self.draw);
        let size = size(&mut self.draw);
        let census = self.sides.pool().census();
        let bytes = self.bytes.get(..size as usize).expect(rt, "few bytes");
        match put(&mut self.sides, queue, rank, bytes) {
            Ok(message) => self.plain.putq(rt, queue, message),
            Err(why) => assert_eq!(rt; (census.free, why), (0, Refusal::NoMblk)),
        }
    }

    // Puts a message of a drawn type on a queue, if a block is free.
    fn put_typed(&mut self, rt: &impl Abort) {
        let queue = self.any_queue();
        let draft = Draft {
            kind: kind(&mut self.draw),
            band: band(&mut self.draw),
            room: below(&mut self.draw, 4),
        };
        let mut bytes = [BYTE; 5];
        bytes[0] = below(&mut self.draw, 4) as u8;
        let size = below(&mut self.draw, 6);
        let free = self.sides.pool().census().free;
        let bytes = bytes.get(..size as usize).expect(rt, "few bytes");
        match put_as(&mut self.sides, queue, draft, bytes) {
            Ok(message) => self.plain.putq(rt, queue, message),
            Err(why) => assert_eq!(rt; (free, why), (0, Refusal::NoMblk)),
        }
    }

    // Takes a message off the last queue of a side. Says whether there was one.
    fn take(&mut self, rt: &impl Abort, queue: u8) -> bool {
        let taken = taken(&mut self.sides, queue, &mut self.room).expect(rt, "a last queue");
        match (taken, self.plain.getq(rt, queue)) {
            (Some(taken), Some(wanted)) => {
                taken.assert_is(rt, &self.room, &wanted);
                let woken = self.plain.wake_ready(rt);
                self.woken = self.woken.wrapping_add(u32::from(woken));
                self.taken = self.taken.wrapping_add(1);
                true
            }
            (None, None) => false,
            _ => panic!(rt; "a message is lost"),
        }
    }

    // Takes a message off the last queue of one of the sides.
    fn take_any(&mut self, rt: &impl Abort) {
        let side = any_of(&mut self.draw, self.shape.sides());
        self.take(rt, self.shape.end(self.count, side));
    }

    // A writer asks whether a band of a queue has room, and waits if it has none. If it waits already, it keeps its place.
    fn ask(&mut self, rt: &impl Abort) {
        let queue = self.any_queue();
        let band = band(&mut self.draw);
        let room = self.plain.bcanput(rt, queue, band);
        assert_eq!(rt; self.sides.bcanput(queue, band), Ok(room));
        self.writers.record(queue, band, room);
        if room {
            self.waits.retain(|writer| *writer != (queue, band));
        } else if !self.waits.contains(&(queue, band)) {
            self.waits.push((queue, band)).expect(rt, "memory");
        }
    }

    // The place of the first writer whose band is no longer wanted.
    fn ready(&self) -> Option<usize> {
        let queues = self.plain.queues();
        self.waits.iter().position(|(queue, band)| {
            queues
                .get(usize::from(*queue))
                .is_some_and(|queue| !queue.band(*band).wanted)
        })
    }

    // Each writer whose band has drained is given, once, first refused first, and no other one.
    fn wake(&mut self, rt: &impl Abort) {
        while let Some(place) = self.ready() {
            let writer = self.waits.remove(place);
            assert_eq!(rt; self.writers.next(self.sides.pool()), Some(writer));
            self.written = self.written.wrapping_add(1);
        }
        assert_eq!(rt; self.writers.next(self.sides.pool()), None);
    }

    // Sets the water marks of a band.
    fn mark(&mut self, rt: &impl Abort) {
        let queue = self.any_queue();
        let band = band(&mut self.draw);
        let (hiwat, lowat) = marks(&mut self.draw);
        assert_eq!(rt;
            self.sides.strqset(queue, band, lowat, hiwat),
            Err(Refusal::BadMarks)
        );
        assert_eq!(rt; self.sides.strqset(queue, band, hiwat, lowat), Ok(()));
        self.plain.strqset(rt, queue, band, (hiwat, lowat));
    }

    // Serves queues until none is enabled, or each one that is enabled is held back.
    fn run(&mut self, rt: &impl Abort, way: Way) {
        let ended = way.run(&mut self.sides);
        assert_eq!(rt; ended, self.plain.run(rt, way));
        if ended == Ended::HeldBack || self.plain.is_any_short() {
            self.held = self.held.wrapping_add(1);
        }
        if self.plain.waits() {
            self.waited = self.waited.wrapping_add(1);
        }
    }

    // Ends a service: the message is passed on, put on any queue, put back, or freed.
    fn end_service(&mut self, rt: &impl Abort, service: Service, token: Token, message: Standing) {
        assert_had(rt, &self.sides, &token);
        match below(&mut self.draw, 4) {
            0 => {
                self.plain.hold(rt, service.queue, message);
                let put = self.sides.hold(service.queue, token);
                assert_put(rt, &mut self.sides, put);
            }
            1 => self.sides.freemsg(token),
            way => {
                let to = if way == 2 {
                    service.next
                } else {
                    self.any_queue()
                };
                self.plain.putq(rt, to, message);
                let put = self.sides.put(to, token);
                assert_put(rt, &mut self.sides, put);
            }
        }
    }

    // Lets a queue give a message, if one has a message that may go on.
    fn serve(&mut self, rt: &impl Abort) {
        let held = below(&mut self.draw, 3);
        let wanted = self.plain.give(rt, held);
        match self.sides.serve(held) {
            Some((service, token)) => {
                let wanted = wanted.expect(rt, "no message may go on");
                assert_eq!(rt;
                    (service.queue, service.next, service.held),
                    (wanted.queue, wanted.next, wanted.held)
                );
                assert_eq!(rt; token.head(), wanted.message.head.unwrap_or(token.head()));
                self.end_service(rt, service, token, wanted.message);
                self.given = self.given.wrapping_add(1);
            }
            None => {
                assert!(rt; wanted.is_none());
            }
        }
    }

    // Lets queues give messages, and puts each one back. This ends, and each queue gives its message once: those are the queues that are
    // enabled then.
    fn hold_each(&mut self, rt: &impl Abort) {
        let mut gave = [false; QUEUES];
        let mut held = 0;
        while let Some((service, token)) = self.sides.serve(held) {
            let wanted = self.plain.give(rt, held).expect(rt, "no message may go on");
            assert_eq!(rt; service.queue, wanted.queue);
            assert!(rt; !gave[usize::from(service.queue)]);
            gave[usize::from(service.queue)] = true;
            self.plain.hold(rt, service.queue, wanted.message);
            assert_had(rt, &self.sides, &token);
            let put = self.sides.hold(service.queue, token);
            assert_put(rt, &mut self.sides, put);
            held = service.held.wrapping_add(1);
        }
        assert!(rt; self.plain.give(rt, held).is_none());
        let count = gave.iter().filter(|gave| **gave).count();
        assert_eq!(rt; (held as usize, self.plain.enabled().len()), (count, count));
        self.turned = self.turned.max(held);
    }

    // A way in which queues are served.
    fn way(&mut self) -> Way {
        match (self.shape, below(&mut self.draw, 8)) {
            (Shape::Turns(_), way @ 0..5) => WAYS[way as usize],
            (Shape::Turns(_), _) => Way::Answer(below(&mut self.draw, 8)),
            (Shape::Line, way @ 0..3) => WAYS_IN_LINE[way as usize],
            (Shape::Line, _) => Way::Line(Line {
                last: self.count.wrapping_sub(1),
                first: below(&mut self.draw, 3) as u8,
                number: self.plain.number(),
                budget: below(&mut self.draw, 64),
            }),
        }
    }

    // Makes a drawn call.
    fn call(&mut self, rt: &impl Abort) {
        match below(&mut self.draw, 16) {
            0..6 if matches!(self.shape, Shape::Line) => self.put_typed(rt),
            0..6 => self.put(rt),
            6..9 => self.take_any(rt),
            9 => self.ask(rt),
            10 => self.mark(rt),
            11..13 => self.serve(rt),
            13 => self.hold_each(rt),
            _ => {
                let way = self.way();
                self.run(rt, way);
            }
        }
    }

    // Makes `steps` drawn calls. After each one all is compared, but of most bands only after each 16th call.
    fn walk(&mut self, rt: &impl Abort, steps: u32) {
        for step in 0..steps {
            self.call(rt);
            let last = if step % 16 == 0 { u8::MAX } else { 2 };
            assert_same(rt, &self.sides, &self.plain, last);
            if step % 4 == 0 {
                self.wake(rt);
            }
        }
        assert!(rt;
            self.turned > 0
                && self.waited > 0
                && self.given > 0
                && self.taken > 0
                && self.written > 0
        );
    }

    // Takes the first message of each side.
    fn take_each(&mut self, rt: &impl Abort) {
        for side in 0..self.shape.sides() {
            self.take(rt, self.shape.end(self.count, side));
        }
    }

    // Takes all messages off the last queues, and serves queues meanwhile: then no queue has a message.
    fn end(&mut self, rt: &impl Abort) {
        for _message in 0..=MESSAGES {
            self.run(rt, Way::Forward);
            self.take_each(rt);
        }
        assert_same(rt, &self.sides, &self.plain, u8::MAX);
        self.wake(rt);
        assert!(rt; self.waits.is_empty());
        let census = self.sides.pool().census();
        assert_eq!(rt; (census.free, census.queued, census.held), (MESSAGES, 0, 0));
    }
}

// Draws calls on sides of this number of queues, and of more. Messages are held back. Returns how often a queue that waited for a
// block was woken.
fn draw_on(rt: &impl Abort, alloc: Global, least: u8, shape: Shape) -> u32 {
    let mut held = 0u32;
    let mut woken = 0u32;
    for count in least..=8 {
        let mut drawn = Drawn::opened(rt, alloc, count, shape);
        drawn.walk(rt, 1_000);
        drawn.end(rt);
        held = held.wrapping_add(drawn.held);
        woken = woken.wrapping_add(drawn.woken);
    }
    assert!(rt; held > 0);
    woken
}

#[test]
fn one_side(rt: HostRuntime) {
    draw_on(&rt, rt.alloc(), 2, Shape::Turns(1));
}

#[test]
fn two_sides(rt: HostRuntime) {
    draw_on(&rt, rt.alloc(), 4, Shape::Turns(2));
}

#[test]
fn lines_of_modules(rt: HostRuntime) {
    assert!(rt; draw_on(&rt, rt.alloc(), 2, Shape::Line) > 0);
}
