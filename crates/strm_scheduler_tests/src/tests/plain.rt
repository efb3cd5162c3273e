//! Sides of streams as plain lists, with service procedures that keep the rules of docs/MODEL.md.
use super::making::is_high;
use super::modules::{Line, Place, Way, other_of};
use super::{MESSAGES, QUEUES};
use std::alloc::Global;
use std::process::Abort;
use strm_pool::{BANDS, MsgType, QueueSpec};
use strm_scheduler::Ended;

// The rank of messages of high priority.
pub(super) const HIGH_RANK: u16 = BANDS as u16;

// More services than a run needs.
const SERVICES: u32 = 100_000;

// How many of a message's first bytes are compared.
pub(super) const FRONT: usize = 16;

// A message: the number of its first block, unless a module put that ahead; its type, rank and number of bytes. Behind its first
// bytes are zeros. Then come its number of blocks, and the room before its bytes.
#[derive(Clone, Copy)]
pub(super) struct Standing {
    pub(super) head: Option<u32>,
    pub(super) kind: MsgType,
    pub(super) rank: u16,
    pub(super) size: u32,
    pub(super) front: [u8; FRONT],
    pub(super) blocks: u32,
    pub(super) room: u32,
}

// A message that a queue gave, the queue and its next one, and how many queues are held back.
#[derive(Clone, Copy)]
pub(super) struct Given {
    pub(super) queue: u8,
    pub(super) next: u8,
    pub(super) message: Standing,
    pub(super) held: u32,
}

// The water marks and the wanted mark of a band.
#[derive(Clone, Copy)]
pub(super) struct Band {
    pub(super) hiwat: u32,
    pub(super) lowat: u32,
    pub(super) wanted: bool,
}

// A queue: its messages front to back, its bands, its next queue, and its want-to-read mark.
#[derive(Drop)]
pub(super) struct Queue {
    messages: Vec<Standing>,
    bands: [Band; BANDS],
    next: Option<u8>,
    read: bool,
}

// The queues, the run list, which queues wait for a block, and the number of the next header.
#[derive(Drop)]
pub(super) struct Plain {
    queues: Vec<Queue>,
    run: Vec<u8>,
    short: [bool; QUEUES],
    number: u16,
}

// The band of a rank: 0 for high priority.
pub(super) fn band_of(rank: u16) -> u8 {
    u8::try_from(rank).unwrap_or(0)
}

// The rank of a message of a type and a band.
pub(super) fn rank_of(kind: MsgType, band: u8) -> u16 {
    if kind.is_high_priority() {
        HIGH_RANK
    } else {
        u16::from(band)
    }
}

// The first of these bytes, then zeros.
pub(super) fn front_of(bytes: &[u8]) -> [u8; FRONT] {
    let mut front = [0; FRONT];
    for (into, byte) in front.iter_mut().zip(bytes) {
        *into = *byte;
    }
    front
}

impl Standing {
    // The message with a header of this number, in the room before its bytes or in a new block.
    fn numbered(self, number: u16) -> Standing {
        let is_new = self.room < 2;
        let mut front = [0; FRONT];
        let bytes = number.to_be_bytes();
        for (into, byte) in front.iter_mut().zip(bytes.iter().chain(self.front.iter())) {
            *into = *byte;
        }
        Standing {
            head: if is_new { None } else { self.head },
            size: self.size.wrapping_add(2),
            front,
            blocks: self.blocks.wrapping_add(u32::from(is_new)),
            room: if is_new { 0 } else { self.room.wrapping_sub(2) },
            ..self
        }
    }

    // The message with this first byte.
    pub(super) fn marked(self, mark: u8) -> Standing {
        let mut front = self.front;
        front[0] = mark;
        Standing { front, ..self }
    }

    // The message with this type.
    fn of_kind(self, kind: MsgType) -> Standing {
        Standing {
            kind,
            rank: rank_of(kind, band_of(self.rank)),
            ..self
        }
    }
}

impl Queue {
    fn new(alloc: Global, spec: &QueueSpec) -> Queue {
        let band = Band {
            hiwat: spec.hiwat,
            lowat: spec.lowat,
            wanted: false,
        };
        Queue {
            messages: Vec::new(alloc),
            bands: [band; BANDS],
            next: spec.next,
            read: true,
        }
    }

    // The messages, front to back.
    pub(super) fn messages(&self) -> &[Standing] {
        &self.messages
    }

    // The want-to-read mark.
    pub(super) fn read(&self) -> bool {
        self.read
    }

    // Whether there is a next queue.
    pub(super) fn goes_on(&self) -> bool {
        self.next.is_some()
    }

    // The water marks and the wanted mark of a band.
    pub(super) fn band(&self, band: u8) -> Band {
        self.bands[usize::from(band)]
    }

    // The number of bytes of each band's messages.
    pub(super) fn counts(&self) -> [u32; BANDS] {
        let mut counts = [0u32; BANDS];
        for message in &self.messages {
            let count = &mut counts[usize::from(band_of(message.rank))];
            *count = count.wrapping_add(message.size);
        }
        counts
    }

    // The number of bytes of all messages.
    pub(super) fn bytes(&self) -> u32 {
        let mut bytes = 0u32;
        for message in &self.messages {
            bytes = bytes.wrapping_add(message.size);
        }
        bytes
    }

    // The number of messages of at least this rank.
    fn as_high(&self, rank: u16) -> usize {
        self.messages
            .iter()
            .filter(|other| other.rank >= rank)
            .count()
    }

    // The number of messages of a greater rank.
    fn higher(&self, rank: u16) -> usize {
        self.messages
            .iter()
            .filter(|other| other.rank > rank)
            .count()
    }

    // Puts a message after the last one of at least its rank.
    fn put_behind(&mut self, rt: &impl Abort, message: Standing) {
        let place = self.as_high(message.rank);
        self.insert(rt, place, message);
    }

    // Puts a message before the first one of at most its rank.
    fn put_ahead(&mut self, rt: &impl Abort, message: Standing) {
        let place = self.higher(message.rank);
        self.insert(rt, place, message);
    }

    fn insert(&mut self, rt: &impl Abort, place: usize, message: Standing) {
        assert!(rt; place <= self.messages.len());
        assert!(rt; self.messages.insert(place, message).is_ok());
    }

    // Takes the first message, if any, which clears the want-to-read mark. If there is none, sets the mark.
    fn take_first(&mut self) -> Option<Standing> {
        self.read = self.messages.is_empty();
        if self.messages.is_empty() {
            None
        } else {
            Some(self.messages.remove(0))
        }
    }

    // Whether a band has room; if not, sets its wanted mark.
    fn has_room(&mut self, band: u8) -> bool {
        let count = self.counts()[usize::from(band)];
        let band = &mut self.bands[usize::from(band)];
        let room = count < band.hiwat;
        band.wanted = band.wanted || !room;
        room
    }

    // Clears the wanted mark of each band that has drained. Says whether one was cleared.
    fn settle(&mut self) -> bool {
        let counts = self.counts();
        let mut cleared = false;
        for (band, count) in self.bands.iter_mut().zip(counts.iter()) {
            if band.wanted && *count <= band.lowat {
                band.wanted = false;
                cleared = true;
            }
        }
        cleared
    }

    fn set_marks(&mut self, band: u8, hiwat: u32, lowat: u32) {
        let band = &mut self.bands[usize::from(band)];
        band.hiwat = hiwat;
        band.lowat = lowat;
    }
}

impl Plain {
    // Empty queues of these specs.
    pub(super) fn new(rt: &impl Abort, alloc: Global, specs: &[QueueSpec]) -> Plain {
        let mut queues = Vec::new(alloc);
        for spec in specs {
            assert!(rt; queues.push(Queue::new(alloc, spec)).is_ok());
        }
        Plain {
            queues,
            run: Vec::new(alloc),
            short: [false; QUEUES],
            number: 1_000,
        }
    }

    pub(super) fn queues(&self) -> &[Queue] {
        &self.queues
    }

    // The number of the next header.
    pub(super) fn number(&self) -> u16 {
        self.number
    }

    // The run list, first queue first.
    pub(super) fn enabled(&self) -> &[u8] {
        &self.run
    }

    // Whether a queue waits for a block.
    pub(super) fn is_short(&self, queue: u8) -> bool {
        self.short[usize::from(queue)]
    }

    pub(super) fn is_any_short(&self) -> bool {
        self.short.contains(&true)
    }

    // Enables the queues that wait for a block.
    fn wake(&mut self, rt: &impl Abort) {
        for queue in 0..QUEUES as u8 {
            if self.short[usize::from(queue)] {
                self.short[usize::from(queue)] = false;
                self.enable(rt, queue);
            }
        }
    }

    // Does so if a block is free. Says whether one waited.
    pub(super) fn wake_ready(&mut self, rt: &impl Abort) -> bool {
        let waited = self.is_any_short();
        if self.count() < MESSAGES {
            self.wake(rt);
        }
        waited
    }

    fn queue(&mut self, rt: &impl Abort, queue: u8) -> &mut Queue {
        self.queues
            .get_mut(usize::from(queue))
            .expect(rt, "a queue")
    }

    // The queue whose next queue is this one, if any.
    fn behind(&self, queue: u8) -> Option<u8> {
        for (number, other) in (0..u8::MAX).zip(self.queues.iter()) {
            if other.next == Some(queue) {
                return Some(number);
            }
        }
        None
    }

    // Puts a queue at the end of the run list, unless it is there or has no next queue.
    fn enable(&mut self, rt: &impl Abort, queue: u8) {
        if self.queue(rt, queue).goes_on() && !self.run.contains(&queue) {
            assert!(rt; self.run.push(queue).is_ok());
        }
    }

    // Settles a queue: if a wanted mark is cleared, the queue behind is enabled.
    fn settle(&mut self, rt: &impl Abort, queue: u8) {
        if self.queue(rt, queue).settle()
            && let Some(behind) = self.behind(queue)
        {
            self.enable(rt, behind);
        }
    }

    pub(super) fn putq(&mut self, rt: &impl Abort, queue: u8, message: Standing) {
        let own = self.queue(rt, queue);
        own.put_behind(rt, message);
        if own.read || message.rank > 0 {
            self.enable(rt, queue);
        }
    }

    fn putbq(&mut self, rt: &impl Abort, queue: u8, message: Standing) {
        let own = self.queue(rt, queue);
        own.put_ahead(rt, message);
        if own.read || is_high(message.rank) {
            self.enable(rt, queue);
        }
    }

    pub(super) fn getq(&mut self, rt: &impl Abort, queue: u8) -> Option<Standing> {
        let first = self.queue(rt, queue).take_first()?;
        self.settle(rt, queue);
        Some(first)
    }

    // Whether a band of a queue has room; if not, the band is wanted. Each queue is its own target.
    pub(super) fn bcanput(&mut self, rt: &impl Abort, queue: u8, band: u8) -> bool {
        self.queue(rt, queue).has_room(band)
    }

    pub(super) fn strqset(&mut self, rt: &impl Abort, queue: u8, band: u8, marks: (u32, u32)) {
        self.queue(rt, queue).set_marks(band, marks.0, marks.1);
        self.settle(rt, queue);
    }

    // Takes all messages off a queue, and enables it.
    fn flush(&mut self, rt: &impl Abort, queue: u8) {
        self.queue(rt, queue).messages.clear();
        self.settle(rt, queue);
        self.enable(rt, queue);
    }

    // Does what the answering module does with a message.
    fn answer(&mut self, rt: &impl Abort, queue: u8, next: u8, message: Standing) {
        let other = other_of(queue);
        let there = usize::from(other) < self.queues.len();
        match message.size {
            1 if there => self.enable(rt, other),
            2 if there => self.flush(rt, other),
            3 if there => return self.putq(rt, other, message),
            3 => return,
            _ => {}
        }
        self.putq(rt, next, message);
    }

    // Flushes a queue, if there is one and a bit says so.
    fn flush_if(&mut self, rt: &impl Abort, flags: u8, bit: u8, queue: u8) {
        if flags & bit != 0 && usize::from(queue) < self.queues.len() {
            self.flush(rt, queue);
        }
    }

    // Does what a line of modules does with a message.
    fn pass_line(&mut self, rt: &impl Abort, line: Line, queue: u8, next: u8, message: Standing) {
        let other = line.last.wrapping_sub(queue);
        match (line.place_of(queue), message.kind) {
            (Place::Numbers, MsgType::MData) => {
                let number = self.number;
                self.number = number.wrapping_add(1);
                self.putq(rt, next, message.numbered(number));
            }
            (Place::Acknowledges, MsgType::MIoctl) if other != queue => {
                self.putq(rt, other, message.of_kind(MsgType::MIocack));
            }
            (Place::Flushes, MsgType::MFlush) => {
                let flags = message.front[0];
                self.flush_if(rt, flags, 1, queue.max(other));
                self.flush_if(rt, flags, 2, queue.min(other));
                self.putq(rt, next, message);
            }
            _ => self.putq(rt, next, message),
        }
    }

    // Takes the first message off a queue, if it may go on. Any other is put back.
    fn take_allowed(&mut self, rt: &impl Abort, queue: u8, next: u8) -> Option<Standing> {
        let message = self.getq(rt, queue)?;
        if !is_high(message.rank) && !self.bcanput(rt, next, band_of(message.rank)) {
            self.putbq(rt, queue, message);
            return None;
        }
        Some(message)
    }

    // Hands the first message of a queue on, if there is one and it may go. Says whether it went.
    fn hand_on(&mut self, rt: &impl Abort, queue: u8, next: u8, way: Way) -> bool {
        let Some(message) = self.take_allowed(rt, queue, next) else {
            return false;
        };
        match way {
            Way::Line(line) => self.pass_line(rt, line, queue, next, message),
            Way::Answer(_) => self.answer(rt, queue, next, message),
            _ => {
                if let Some(treated) = way.treated(message) {
                    self.putq(rt, next, treated);
                }
            }
        }
        true
    }

    // The number of blocks of the messages on all queues.
    fn count(&self) -> u32 {
        let mut count = 0u32;
        for queue in &self.queues {
            for message in &queue.messages {
                count = count.wrapping_add(message.blocks);
            }
        }
        count
    }

    // Whether the first message of a queue needs a block, and none is free.
    fn holds_back(&self, queue: u8, way: Way) -> bool {
        let Some(own) = self.queues.get(usize::from(queue)) else {
            return false;
        };
        let Some(first) = own.messages.first() else {
            return false;
        };
        way.is_later(first) || way.needs(queue, first) && self.count() == MESSAGES
    }

    // The next queue of one that is enabled.
    fn next_of(&mut self, rt: &impl Abort, queue: u8) -> u8 {
        self.queue(rt, queue)
            .next
            .expect(rt, "no last queue is enabled")
    }

    // Serves queues, but for the last ones of the run list, until one gives a message that may go on, and is enabled again. A queue
    // that woke meanwhile comes first.
    pub(super) fn give(&mut self, rt: &impl Abort, held: u32) -> Option<Given> {
        self.wake(rt);
        for _turn in 0..SERVICES {
            if self.run.len() <= held as usize {
                return None;
            }
            let enabled = self.run.len();
            let queue = self.run.remove(0);
            let next = self.next_of(rt, queue);
            let taken = self.take_allowed(rt, queue, next);
            if self.run.len() == enabled {
                self.run.rotate_right(1);
            }
            if let Some(message) = taken {
                self.enable(rt, queue);
                return Some(Given {
                    queue,
                    next,
                    message,
                    held,
                });
            }
        }
        panic!(rt; "a queue neither gives a message nor rests");
    }

    // Puts a message back on a queue, and enables the queue.
    pub(super) fn hold(&mut self, rt: &impl Abort, queue: u8, message: Standing) {
        self.putbq(rt, queue, message);
        self.enable(rt, queue);
    }

    // Serves a queue: its messages are handed on, until none is left, one may not go, or one is held back. Then the queue is
    // enabled again.
    fn serve(&mut self, rt: &impl Abort, queue: u8, way: Way) {
        let next = self.next_of(rt, queue);
        let waiting = self.queue(rt, queue).messages.len();
        for _message in 0..=waiting {
            if self.holds_back(queue, way) {
                self.enable(rt, queue);
                return;
            }
            if !self.hand_on(rt, queue, next, way) {
                return;
            }
        }
    }

    // Whether each queue on the run list is held back.
    fn is_at_rest(&self, way: Way) -> bool {
        for queue in &self.run {
            if !self.holds_back(*queue, way) {
                return false;
            }
        }
        true
    }

    // Whether the first message of a queue is wanted later.
    fn is_later(&self, queue: u8, way: Way) -> bool {
        match self.queues.get(usize::from(queue)) {
            Some(own) => own
                .messages
                .first()
                .is_some_and(|first| way.is_later(first)),
            None => false,
        }
    }

    // Of the queues on the run list, which are all held back, those rest that wait for a block.
    fn rest(&mut self, rt: &impl Abort, way: Way) -> Ended {
        for _queue in 0..self.run.len() {
            let queue = self.run.remove(0);
            if self.is_later(queue, way) {
                self.enable(rt, queue);
            } else {
                self.short[usize::from(queue)] = true;
            }
        }
        if self.run.is_empty() {
            Ended::Idle
        } else {
            Ended::HeldBack
        }
    }

    // Serves the queues on the run list until each one is held back, or the budget is spent.
    pub(super) fn run(&mut self, rt: &impl Abort, way: Way) -> Ended {
        self.wake(rt);
        let mut left = way.budget();
        for _turn in 0..SERVICES {
            if self.run.is_empty() {
                return Ended::Idle;
            }
            if left == Some(0) {
                return Ended::Spent;
            }
            if self.is_at_rest(way) {
                return self.rest(rt, way);
            }
            let queue = self.run.remove(0);
            if !self.holds_back(queue, way) {
                left = left.map(|services| services.wrapping_sub(1));
            }
            self.serve(rt, queue, way);
        }
        panic!(rt; "a run does not end");
    }

    // Whether a message waits on a queue that has a next one.
    pub(super) fn waits(&self) -> bool {
        self.queues
            .iter()
            .any(|queue| queue.goes_on() && !queue.messages.is_empty())
    }
}
