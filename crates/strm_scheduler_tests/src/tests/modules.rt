//! Modules that pass messages on, change their bytes, drop some, need blocks, and need more than there are. Another one makes
//! all steps that a module can make.
ghost use Rattle.std.specs.Prelude.{◌≡◌, ◌≢◌, ◌<◌, IsTrue, List, [], ◌∷◌, false};
ghost use Rattle.strm_mblk.specs.Arena.{has};
ghost use Rattle.strm_mblk.specs.BlockCalls.{testb};
ghost use Rattle.strm_scheduler.specs.Laws.{KeepsQueued};
ghost use Rattle.strm_scheduler.specs.Steps.{AreSteps, PassOne, Step};

use super::MOST;
use super::plain::Standing;
use strm_header::{Acknowledging, Flushing, Numbering};
use strm_pool::{Flush, MsgType, Pool, QueuedInfo, Token};
use strm_scheduler::{Ended, Module, Need, Passing, Sides, enable, flush, send};

// The byte that a module writes over the first one of a message.
const MARK: u8 = 255;

// What service procedures do with messages.
#[derive(Clone, Copy)]
pub(super) enum Way {
    // `run`
    Forward,
    // `run_with` and `Passing`
    Pass,
    // `run_with` and `Marking`
    Mark,
    // `run_with` and `Dropping`
    Drop,
    // `run_with` and `Borrowing`
    Borrow,
    // `run_with` and `Greedy`
    Greed,
    // `run_with` and `Heading`
    Head,
    // `run_with` and `Answering`, with this budget
    Answer(u32),
    // `run_with` and a line of modules
    Line(Line),
}

// What a module of a line does.
#[derive(Clone, Copy)]
pub(super) enum Place {
    Numbers,
    Acknowledges,
    Flushes,
}

// A line of modules in a stream with this last queue, which take turns from the one of this number on. The next header has this
// number. There are at most as many services as the budget.
#[derive(Clone, Copy)]
pub(super) struct Line {
    pub(super) last: u8,
    pub(super) first: u8,
    pub(super) number: u16,
    pub(super) budget: u32,
}

// The modules of a line: each has a queue of the write side, and one of the read side.
#[derive(Clone, Copy)]
pub(super) struct Modules {
    line: Line,
    numbering: Numbering,
    acknowledging: Acknowledging,
    flushing: Flushing,
}

// Writes over the first byte of a message, if it has one.
#[derive(Clone, Copy)]
struct Marking;

// Frees each message whose first block has a number that three divides.
#[derive(Clone, Copy)]
struct Dropping;

// Frees each message of one byte. Needs a block for each longer one, as large as it, allocates it and frees it again.
#[derive(Clone, Copy)]
struct Borrowing;

// Enables the queue of the other side for a message of one byte, flushes it for one of two, puts one of three there, and wants
// one of four later.
#[derive(Clone, Copy)]
struct Answering;

// Needs a larger block than there is for each message of two bytes.
#[derive(Clone, Copy)]
struct Greedy;

// Puts an empty message on the next queue, ahead of each message.
#[derive(Clone, Copy)]
struct Heading;

// Passes a message on, if the pool still has it and the queue; otherwise frees it.
fn passed(pool: &mut Pool, queue: u8, next: u8, token: Token)
    requires { queue ≢ next }
    ensures { (steps : List Step) × PassOne next steps × AreSteps queue steps pool.old pool.new }
{
    if pool.has(&token) && pool.has_queue(next) {
        send(pool, next, token);
    } else {
        pool.freemsg(token);
    }
}

// Writes over the first byte of a message.
fn marked(pool: &mut Pool, token: &Token)
    requires { IsTrue (has pool.old.arena token.now) }
    ensures { KeepsQueued pool.old pool.new }
{
    let _ = pool.overwrite(token, 0, &[MARK]);
}

// Allocates a block, which is free, and frees it again.
fn lend(pool: &mut Pool, size: u32)
    requires { IsTrue (testb size pool.old.arena) }
    ensures { KeepsQueued pool.old pool.new }
{
    match pool.allocb(size) {
        Ok(block) => pool.freemsg(block),
        Err(_) => unreachable!(),
    }
}

// Puts a message on another queue than its own, if there is one; otherwise frees it.
fn replied(pool: &mut Pool, queue: u8, other: u8, token: Token)
    requires { IsTrue (has pool.old.arena token) }
    ensures { (steps : List Step) × AreSteps queue steps pool.old pool.new }
{
    if other != queue && pool.has_queue(other) {
        send(pool, other, token);
    } else {
        pool.freemsg(token);
    }
}

// Flushes a queue, if there is one.
fn flushed(pool: &mut Pool, queue: u8, other: u8)
    ensures { (steps : List Step) × AreSteps queue steps pool.old pool.new }
{
    if pool.has_queue(other) {
        flush(pool, other, Flush::All);
    }
}

// Enables a queue, if there is one.
fn enabled(pool: &mut Pool, queue: u8, other: u8)
    ensures { (steps : List Step) × AreSteps queue steps pool.old pool.new }
{
    if pool.has_queue(other) {
        enable(pool, other);
    }
}

const fn is_dropped(head: u32) -> bool {
    head % 3 == 0
}

// The queue of the other side of the same module, where sides take turns in the numbers.
pub(super) const fn other_of(queue: u8) -> u8 {
    queue ^ 1
}

impl Module for Marking {
    ghost needs = { λ m v q i r. r ≡ record { sizes = []; mblks = 0; later = false } };

    ghost treats = { λ m v q n t steps k w. PassOne n steps };

    fn need(&self, _pool: &Pool, _queue: u8, _first: &QueuedInfo) -> Need {
        Need::none()
    }

    fn treat(&mut self, pool: &mut Pool, queue: u8, next: u8, token: Token) {
        marked(pool, &token);
        passed(pool, queue, next, token);
    }
}

impl Module for Dropping {
    ghost needs = { λ m v q i r. r ≡ record { sizes = []; mblks = 0; later = false } };

    ghost treats = { λ m v q n t steps k w. PassOne n steps };

    fn need(&self, _pool: &Pool, _queue: u8, _first: &QueuedInfo) -> Need {
        Need::none()
    }

    fn treat(&mut self, pool: &mut Pool, queue: u8, next: u8, token: Token) {
        if is_dropped(token.head()) {
            pool.freemsg(token);
        } else {
            passed(pool, queue, next, token);
        }
    }
}

impl Module for Borrowing {
    ghost needs = { λ m v q i r. 1 < i.size → (r ≡ record { sizes = i.size ∷ []; mblks = 0; later = false }) };

    ghost treats = { λ m v q n t steps k w. PassOne n steps };

    fn need(&self, _pool: &Pool, _queue: u8, first: &QueuedInfo) -> Need {
        if first.size > 1 {
            Need::block(first.size)
        } else {
            Need::none()
        }
    }

    fn treat(&mut self, pool: &mut Pool, queue: u8, next: u8, token: Token) {
        let size = pool.size(&token);
        if size == 1 {
            pool.freemsg(token);
            return;
        }
        if size > 1 {
            lend(pool, size);
        }
        passed(pool, queue, next, token);
    }
}

impl Module for Greedy {
    ghost needs = { λ m v q i r. r ≡ r };

    ghost treats = { λ m v q n t steps k w. PassOne n steps };

    fn need(&self, _pool: &Pool, _queue: u8, first: &QueuedInfo) -> Need {
        if first.size == 2 {
            Need::block(MOST as u32 + 1)
        } else {
            Need::none()
        }
    }

    fn treat(&mut self, pool: &mut Pool, queue: u8, next: u8, token: Token) {
        passed(pool, queue, next, token);
    }
}

impl Module for Heading {
    ghost needs = { λ m v q i r. r ≡ record { sizes = 1 ∷ []; mblks = 0; later = false } };

    ghost treats = { λ m v q n t steps k w. w ≡ w };

    fn need(&self, _pool: &Pool, _queue: u8, _first: &QueuedInfo) -> Need {
        Need::block(1)
    }

    fn treat(&mut self, pool: &mut Pool, queue: u8, next: u8, token: Token) {
        Need::block(1).granted(pool);
        match pool.allocb(1) {
            Ok(header) => {
                passed(pool, queue, next, header);
                passed(pool, queue, next, token);
            }
            Err(_) => unreachable!(),
        }
    }
}

impl Module for Answering {
    ghost needs = { λ m v q i r. r ≡ r };

    ghost treats = { λ m v q n t steps k w. w ≡ w };

    fn need(&self, _pool: &Pool, _queue: u8, first: &QueuedInfo) -> Need {
        Need {
            later: first.size == 4,
            ..Need::none()
        }
    }

    fn treat(&mut self, pool: &mut Pool, queue: u8, next: u8, token: Token) {
        match pool.size(&token) {
            1 => {
                enabled(pool, queue, other_of(queue));
                passed(pool, queue, next, token);
            }
            2 => {
                flushed(pool, queue, other_of(queue));
                passed(pool, queue, next, token);
            }
            3 => replied(pool, queue, other_of(queue), token),
            _ => passed(pool, queue, next, token),
        }
    }
}

impl Line {
    // What the module of a queue does.
    pub(super) fn place_of(self, queue: u8) -> Place {
        let pair = queue.min(self.last.wrapping_sub(queue));
        match self.first.wrapping_add(pair) % 3 {
            0 => Place::Numbers,
            1 => Place::Acknowledges,
            _ => Place::Flushes,
        }
    }

    pub(super) fn modules(self) -> Modules {
        let last = self.last;
        Modules {
            line: self,
            numbering: Numbering {
                number: self.number,
            },
            acknowledging: Acknowledging { last },
            flushing: Flushing { last },
        }
    }
}

impl Module for Modules {
    ghost needs = { λ m v q i r. r ≡ r };

    ghost treats = { λ m v q n t steps k w. w ≡ w };

    fn need(&self, pool: &Pool, queue: u8, first: &QueuedInfo) -> Need {
        match self.line.place_of(queue) {
            Place::Numbers => self.numbering.need(pool, queue, first),
            Place::Acknowledges => self.acknowledging.need(pool, queue, first),
            Place::Flushes => self.flushing.need(pool, queue, first),
        }
    }

    fn treat(&mut self, pool: &mut Pool, queue: u8, next: u8, token: Token) {
        match self.line.place_of(queue) {
            Place::Numbers => self.numbering.treat(pool, queue, next, token),
            Place::Acknowledges => self.acknowledging.treat(pool, queue, next, token),
            Place::Flushes => self.flushing.treat(pool, queue, next, token),
        }
    }
}

impl Way {
    // Runs service procedures on sides. Says how that ended.
    pub(super) fn run(self, sides: &mut Sides) -> Ended {
        match self {
            Way::Forward => {
                sides.run();
                Ended::Idle
            }
            Way::Pass => sides.run_with(&mut Passing, None),
            Way::Mark => sides.run_with(&mut Marking, None),
            Way::Drop => sides.run_with(&mut Dropping, None),
            Way::Borrow => sides.run_with(&mut Borrowing, None),
            Way::Greed => sides.run_with(&mut Greedy, None),
            Way::Head => sides.run_with(&mut Heading, Some(u32::MAX)),
            Way::Answer(services) => sides.run_with(&mut Answering, Some(services)),
            Way::Line(line) => sides.run_with(&mut line.modules(), Some(line.budget)),
        }
    }

    // Whether the first message of a queue needs a block, in the plain lists.
    pub(super) fn needs(self, queue: u8, message: &Standing) -> bool {
        match self {
            Way::Borrow => message.size > 1,
            Way::Line(line) => {
                matches!(line.place_of(queue), Place::Numbers) && message.kind == MsgType::MData
            }
            _ => false,
        }
    }

    // Whether a message is wanted later, in the plain lists.
    pub(super) fn is_later(self, message: &Standing) -> bool {
        matches!(self, Way::Answer(_)) && message.size == 4
    }

    // The number of services that there may be.
    pub(super) fn budget(self) -> Option<u32> {
        match self {
            Way::Answer(services) => Some(services),
            Way::Line(line) => Some(line.budget),
            _ => None,
        }
    }

    // What goes on of a message, in the plain lists.
    pub(super) fn treated(self, message: Standing) -> Option<Standing> {
        match (self, message.head) {
            (Way::Mark, _) if message.size > 0 => Some(message.marked(MARK)),
            (Way::Borrow, _) if message.size == 1 => None,
            (Way::Drop, Some(head)) if is_dropped(head) => None,
            _ => Some(message),
        }
    }
}
