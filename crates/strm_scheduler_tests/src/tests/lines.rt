//! Drawn lines of queues with the three modules of strm_header, message by message. tests/wakeups takes the same steps on the plain
//! model, and tests/c/lines.c over the library for C.
use super::modules::{Line, Modules, Place};
use super::{configured, queue};
use std::alloc::Global;
use std::process::Abort;
use strm_pool::{ClassSpec, MsgType, Pool, QueueSpec, QueuedInfo, Rejected, Token};
use strm_scheduler::{Module, Service, hold, serve};

// The number of steps on each line that the plain model takes too, and the numbers to which lines of 2 to 8 queues come.
const STEPS: u32 = 10_000;

const DIGESTS: [u32; 7] = [
    2_730_105_551,
    3_834_346_948,
    3_263_159_276,
    2_148_489_416,
    1_538_403_356,
    2_462_116_541,
    3_812_469_207,
];

// The number of all steps on each line, a million on all lines, and the numbers to which lines come then.
const ALL_STEPS: u32 = 143_000;

const LAST_DIGESTS: [u32; 7] = [
    3_489_173_436,
    3_543_179_977,
    4_115_629_048,
    1_113_271_452,
    885_879_057,
    672_972_549,
    3_644_130_976,
];

const BLOCKS: u32 = 16;

const BANDS: u8 = 3;

const LOWAT: u32 = 4;

// The types that are drawn; all further ones are data.
const KINDS: [MsgType; 5] = [
    MsgType::MIoctl,
    MsgType::MFlush,
    MsgType::MProto,
    MsgType::MPcproto,
    MsgType::MData,
];

const DATA: u8 = 4;

// The bytes of a message behind its first ones: how many of these there are, its way, and a number of its own in four bytes.
const TAIL: usize = 6;

// More bytes than most messages have.
const ROOM: usize = 64;

// All that messages can have in common that keep their order: the queue that they were put on, type and band.
const WAYS: usize = 8 * 5 * 3;

// What arrived last of the messages of a way: their own number, and that of their header.
#[derive(Clone, Copy)]
struct Latest {
    own: u32,
    header: u16,
}

// A message that a queue gave, until it is put back there.
struct Kept {
    token: Option<Token>,
    of: u8,
}

impl Drop for Kept {
    fn drop(self) {
        let Kept { token, of: _of } = self;
        if let Some(token) = token {
            token.forget();
        }
    }
}

#[derive(Drop)]
struct Walk {
    pool: Pool,
    line: Line,
    modules: Modules,
    // The number of queues, and the last one of the write side.
    queues: u8,
    middle: u8,
    // The drawn numbers, and what happened.
    draw: u32,
    digest: u32,
    // How many queues are held back.
    held: u32,
    made: u32,
    gone: u32,
    arrived: u32,
    waited: u32,
    kept: Kept,
    latest: [[Latest; WAYS]; 2],
}

// The number of the last queue of the write side.
fn middle_of(last: u8) -> u8 {
    (last / 2).max(1)
}

// The next queue, if any.
fn next_of(last: u8, queue: u8) -> Option<u8> {
    (queue != middle_of(last) && queue != last).then_some(queue.wrapping_add(1))
}

// The four bytes of a number.
fn number_in(bytes: &[u8]) -> u32 {
    let mut number = 0u32;
    for byte in bytes {
        number = number.wrapping_mul(256).wrapping_add(u32::from(*byte));
    }
    number
}

impl Walk {
    fn opened(rt: &impl Abort, alloc: Global, queues: u8) -> Walk {
        let last = queues.wrapping_sub(1);
        let mut specs = [queue(1, 0, None); 8];
        for (number, spec) in specs.iter_mut().enumerate() {
            *spec = queue(16, LOWAT, next_of(last, number as u8));
        }
        let specs: &[QueueSpec] = specs.get(..usize::from(queues)).expect(rt, "few queues");
        let class = ClassSpec {
            size: 16,
            count: BLOCKS,
        };
        let config = configured(rt, u32::from(queues), class, specs);
        let line = Line {
            last,
            first: queues,
            number: 1,
            budget: 0,
        };
        Walk {
            pool: Pool::new(alloc, config).expect(rt, "a pool"),
            line,
            modules: line.modules(),
            queues,
            middle: middle_of(last),
            draw: u32::from(queues),
            digest: 0,
            held: 0,
            made: 0,
            gone: 0,
            arrived: 0,
            waited: 0,
            kept: Kept { token: None, of: 0 },
            latest: [[Latest { own: 0, header: 0 }; WAYS]; 2],
        }
    }

    // The next drawn number, below `most`.
    fn drawn(&mut self, most: u32) -> u32 {
        self.draw = self
            .draw
            .wrapping_mul(1_664_525)
            .wrapping_add(1_013_904_223);
        (self.draw >> 8) % most
    }

    fn happened(&mut self, what: u32) {
        self.digest = self.digest.wrapping_mul(31).wrapping_add(what);
    }

    fn any_queue(&mut self) -> u8 {
        let queues = u32::from(self.queues);
        self.drawn(queues) as u8
    }

    // What a held message is like.
    fn first_of(&self, rt: &impl Abort, token: &Token) -> QueuedInfo {
        assert!(rt; self.pool.has(token));
        let block = self.pool.block(token, 0).expect(rt, "a block");
        QueuedInfo {
            head: token.head(),
            kind: block.kind,
            band: block.band,
            size: self.pool.size(token),
            blocks: token.blocks(),
        }
    }

    fn is_end(&self, queue: u8) -> bool {
        next_of(self.line.last, queue).is_none()
    }

    fn pass_to(&mut self, rt: &impl Abort, queue: u8, token: Token) {
        if let Err(Rejected { why, token }) = self.pool.putq(queue, token) {
            self.pool.freemsg(token);
            panic!(rt; "{why:?}");
        }
    }

    fn put_back(&mut self, rt: &impl Abort, queue: u8, token: Token) {
        if let Err(Rejected { why, token }) = hold(&mut self.pool, queue, token) {
            self.pool.freemsg(token);
            panic!(rt; "{why:?}");
        }
    }

    // Makes a message of a drawn type and band, with room before its bytes, and puts it on a drawn queue. The first byte says what it
    // flushes.
    fn put(&mut self, rt: &impl Abort) {
        let queue = self.any_queue();
        let kind = (self.drawn(8) as u8).min(DATA);
        let band = self.drawn(u32::from(BANDS)) as u8;
        let room = self.drawn(4);
        let flags = self.drawn(4) as u8;
        let length = 1 + self.drawn(4) as usize;
        let made = self.pool.allocb(16);
        self.happened(u32::from(made.is_ok()));
        let Ok(token) = made else {
            return;
        };
        self.made += 1;
        let mut bytes = [0; 4 + TAIL];
        bytes[0] = flags;
        bytes[length] = length as u8;
        bytes[length + 1] = (queue * 5 + kind) * BANDS + band;
        bytes[length + 2..length + TAIL].copy_from_slice(&self.made.to_be_bytes());
        assert!(rt; self.pool.reserve(&token, 0, room).is_ok());
        assert!(rt; self.pool.write(&token, 0, &bytes[..length + TAIL]).is_ok());
        self.pool.setband(&token, band);
        assert!(rt;
            self.pool
                .settype(&token, 0, KINDS[usize::from(kind)])
                .is_ok()
        );
        self.pass_to(rt, queue, token);
    }

    // Takes the own number of a message, which may then arrive out of order.
    fn exempt(&mut self, rt: &impl Abort, first: &QueuedInfo, token: &Token) {
        assert!(rt; self.pool.overwrite(token, first.size - 4, &[0; 4]).is_ok());
    }

    fn put_kept_back(&mut self, rt: &impl Abort) {
        let of = self.kept.of;
        if let Some(token) = self.kept.token.take() {
            self.put_back(rt, of, token);
        }
    }

    fn keep(&mut self, rt: &impl Abort, queue: u8, token: Token) {
        self.kept.of = queue;
        if let Some(other) = self.kept.token.replace(token) {
            self.pool.freemsg(other);
            panic!(rt; "two messages are kept");
        }
    }

    // How many messages the module of a queue flushes for this one.
    fn flushed_by(&self, rt: &impl Abort, queue: u8, first: &QueuedInfo, token: &Token) -> u32 {
        if !matches!(self.line.place_of(queue), Place::Flushes) || first.kind != MsgType::MFlush {
            return 0;
        }
        let other = self.line.last - queue;
        let mut flags = [0];
        let count = self.pool.read(token, 0, &mut flags);
        assert_eq!(rt; count, 1);
        let read = self.pool.qsize(queue.max(other)).expect(rt, "a queue");
        let write = self.pool.qsize(queue.min(other)).expect(rt, "a queue");
        match flags[0] & 3 {
            0 => 0,
            1 => read,
            2 => write,
            _ if queue == other => read,
            _ => read + write,
        }
    }

    // Has the module of the queue treat a message, or puts it back if no block is free for its header.
    fn treat(&mut self, rt: &impl Abort, service: Service, first: &QueuedInfo, token: Token) {
        let queue = service.queue;
        if !self
            .modules
            .need(&self.pool, queue, first)
            .is_free(&self.pool)
        {
            self.held = service.held + 1;
            self.waited += 1;
            self.put_back(rt, queue, token);
            return;
        }
        self.gone += self.flushed_by(rt, queue, first, &token);
        self.modules
            .treat(&mut self.pool, queue, service.next, token);
    }

    // Serves, and ends the service in one of five ways.
    fn serve(&mut self, rt: &impl Abort) {
        let held = self.held;
        self.held = 0;
        let Some((service, token)) = serve(&mut self.pool, held) else {
            self.happened(255);
            return;
        };
        let first = self.first_of(rt, &token);
        self.happened(u32::from(service.queue) * 64 + u32::from(service.next) * 8 + service.held);
        self.happened(first.size * 8 + first.blocks);
        let room = self.pool.bcanput(service.next, first.band);
        assert!(rt; service.next == service.queue + 1);
        assert!(rt; room == Ok(true) || first.kind.is_high_priority());
        match self.drawn(32) {
            0 => {
                self.held = service.held + 1;
                self.put_back(rt, service.queue, token);
            }
            1 => {
                self.put_kept_back(rt);
                self.exempt(rt, &first, &token);
                self.keep(rt, service.queue, token);
            }
            2 => {
                self.pool.freemsg(token);
                self.gone += 1;
            }
            3 => {
                self.exempt(rt, &first, &token);
                let to = self.any_queue();
                self.pass_to(rt, to, token);
            }
            _ => self.treat(rt, service, &first, token),
        }
    }

    // How many headers a message of data gets from a queue to the end of its side.
    fn headers_due(&self, queue: u8) -> usize {
        let mut headers = 0;
        let mut queue = queue;
        while !self.is_end(queue) {
            headers += usize::from(matches!(self.line.place_of(queue), Place::Numbers));
            queue += 1;
        }
        headers
    }

    // A message arrived with these bytes: it came in order, is as it was put, and has each header that it must have.
    fn assert_arrived(&mut self, rt: &impl Abort, end: u8, first: &QueuedInfo, bytes: &[u8]) {
        let tail = &bytes[bytes.len() - TAIL..];
        let way = tail[1];
        let kind = way / BANDS % 5;
        let own = number_in(&tail[2..]);
        let headers = (bytes.len() - TAIL - usize::from(tail[0])) / 2;
        assert_eq!(rt; bytes.len(), 2 * headers + usize::from(tail[0]) + TAIL);
        assert!(rt; bytes[2 * headers] < 4);
        assert!(rt;
            first.band
                == if first.kind.is_high_priority() {
                    0
                } else {
                    way % BANDS
                }
        );
        assert!(rt;
            first.kind == KINDS[usize::from(kind)] || kind == 0 && first.kind == MsgType::MIocack
        );
        assert!(rt; kind == DATA || headers == 0);
        self.arrived += 1;
        if own == 0 {
            return;
        }
        let due = self.headers_due(way / BANDS / 5);
        let latest = &mut self.latest[usize::from(end == self.line.last)][usize::from(way)];
        assert!(rt; latest.own < own);
        latest.own = own;
        if kind < DATA {
            return;
        }
        assert_eq!(rt; headers, due);
        if headers > 0 {
            let header = number_in(&bytes[..2]) as u16;
            assert!(rt; (1..0x8000).contains(&header.wrapping_sub(latest.header)));
            latest.header = header;
        }
    }

    // Takes a message off the last queue of a side. Says whether there was one.
    fn take(&mut self, rt: &impl Abort, end: u8) -> bool {
        let Ok(Some(token)) = self.pool.getq(end) else {
            self.happened(254);
            return false;
        };
        let first = self.first_of(rt, &token);
        let mut bytes = [0; ROOM];
        let count = self.pool.read(&token, 0, &mut bytes);
        self.pool.freemsg(token);
        self.gone += 1;
        self.happened(first.size * 8 + first.blocks);
        if first.size as usize <= ROOM {
            self.assert_arrived(rt, end, &first, &bytes[..count]);
        }
        true
    }

    fn ask(&mut self, rt: &impl Abort) {
        let queue = self.any_queue();
        let band = self.drawn(u32::from(BANDS)) as u8;
        let room = self.pool.bcanput(queue, band).expect(rt, "a queue");
        self.happened(u32::from(room));
    }

    // Whether a queue that has a next one is on the run list or rests rightly: its first message waits for a band that has not drained.
    fn is_awake(&self, rt: &impl Abort, queue: u8) -> bool {
        let info = self.pool.queue_info(queue).expect(rt, "a queue");
        if info.enabled {
            return true;
        }
        let Ok(first) = self.pool.queued_at(queue, 0) else {
            return info.read;
        };
        let band = self
            .pool
            .band_info(queue + 1, first.band)
            .expect(rt, "a queue");
        !first.kind.is_high_priority() && band.wanted && band.bytes > LOWAT
    }

    // No queue is asleep, and no message is lost.
    fn look(&mut self, rt: &impl Abort) {
        let mut count = 0;
        let mut held = 0;
        if let Some(kept) = &self.kept.token {
            count = 1;
            held = kept.blocks();
        }
        for queue in 0..self.queues {
            assert!(rt; self.is_end(queue) || self.is_awake(rt, queue));
            count += self.pool.qsize(queue).expect(rt, "a queue");
        }
        assert_eq!(rt; count, self.made - self.gone);
        let census = self.pool.census();
        assert_eq!(rt;
            (census.held, census.free + census.queued + census.held),
            (held, BLOCKS)
        );
    }

    fn step(&mut self, rt: &impl Abort) {
        let way = self.drawn(16);
        if way < 8 {
            self.held = 0;
        }
        match way {
            0..4 => self.put(rt),
            4..6 => {
                let end = if self.drawn(2) == 0 {
                    self.middle
                } else {
                    self.line.last
                };
                self.take(rt, end);
            }
            6 => self.ask(rt),
            7 => self.put_kept_back(rt),
            _ => self.serve(rt),
        }
        self.happened(self.pool.census().free);
    }

    // Takes this number of steps, and looks after each one whose number is a multiple of `every`.
    fn steps(&mut self, rt: &impl Abort, count: u32, every: u32) {
        for step in 0..count {
            self.step(rt);
            if step % every == 0 {
                self.look(rt);
            }
        }
    }

    // Serves until nothing is left to do but for the user.
    fn run(&mut self, rt: &impl Abort) {
        self.held = 0;
        while let Some((service, token)) = serve(&mut self.pool, self.held) {
            self.held = 0;
            let first = self.first_of(rt, &token);
            self.treat(rt, service, &first, token);
        }
    }

    // Serves and takes until there is nothing to do. Then all messages have arrived, or no block is free for a header.
    fn finish(&mut self, rt: &impl Abort) {
        self.put_kept_back(rt);
        let (middle, last) = (self.middle, self.line.last);
        let mut busy = true;
        while busy {
            self.run(rt);
            busy = self.take(rt, middle) | self.take(rt, last);
        }
        assert!(rt; self.made == self.gone || !self.pool.testb(2));
    }
}

// On lines of 2 to 8 queues no message waits that could go on, and none is lost. Those put on one queue with one type and band arrive in
// order, unless the walk kept them or sent them elsewhere.
#[test]
fn message_by_message(rt: HostRuntime) {
    let mut waited = 0;
    for (queues, (digest, last_digest)) in (2..=8).zip(DIGESTS.iter().zip(LAST_DIGESTS.iter())) {
        let mut walk = Walk::opened(&rt, rt.alloc(), queues);
        walk.steps(&rt, STEPS, 1);
        assert_eq!(rt; walk.digest, *digest);
        walk.steps(&rt, ALL_STEPS - STEPS, 16);
        assert_eq!(rt; walk.digest, *last_digest);
        walk.finish(&rt);
        assert!(rt; walk.arrived > ALL_STEPS / 50);
        waited += walk.waited;
    }
    assert!(rt; waited > ALL_STEPS / 50);
}
