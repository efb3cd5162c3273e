ghost use Rattle.std.specs.Prelude.{◌≡◌, IsTrue};
ghost use Rattle.strm_data.specs.Classes.{are_lawful};
ghost use Rattle.strm_mblk.specs.Arena.{has};
ghost use Rattle.strm_queue.specs.QueueSpecs as queue_specs;
ghost use Rattle.strm_queue.specs.QueuedBlocks.{Agrees};

use std::alloc::Global;
use std::process::Abort;
use strm_data::{ClassSpec, MsgType};
use strm_mblk::{Blocks, MOST_MESSAGE_BLOCKS, Rejected, Token};
use strm_queue::{BANDS, QueueSpec, Queues};

mod bench;
mod noted;
mod reading;
mod rows;

// The rank of high priority messages, above all bands, which are ranks too.
const HIGH_RANK: u16 = BANDS as u16;

// The spec of a queue with a service procedure and without a next one.
const QUEUE: QueueSpec = QueueSpec {
    hiwat: 10,
    lowat: 4,
    service: true,
    next: None,
};

// One queue with a service procedure.
const ALONE: [QueueSpec; 1] = [QUEUE];

// The type, band and number of bytes of a message of one block.
#[derive(Clone, Copy)]
struct Draft {
    kind: MsgType,
    band: u8,
    size: u32,
}

// The bytes to write: as many as a message may get.
const BYTES: [u8; 8] = [7; 8];

// The number of message blocks.
const MESSAGES: u32 = MOST_MESSAGE_BLOCKS;

// Makes queues, and message blocks with a shelf for each queue.
fn opened(
    rt: &impl Abort,
    alloc: Global,
    classes: &[ClassSpec],
    queues: &[QueueSpec],
) -> (Queues, Blocks)
    requires classes { IsTrue (are_lawful classes.now) }
    requires queues { IsTrue (queue_specs.are_lawful queues.now) }
    ensures { Agrees result.0 result.1 }
{
    let shelves = queues.len() as u8;
    let blocks = Blocks::new(alloc, 7, MESSAGES, classes, shelves).expect(rt, "memory");
    (Queues::new(alloc, queues).expect(rt, "memory"), blocks)
}

// Makes a message of one block.
fn allocated(rt: &impl Abort, queues: &Queues, blocks: &mut Blocks) -> Token
    requires { Agrees queues.now blocks.old }
    ensures agrees { Agrees queues.now blocks.new }
    ensures had { IsTrue (has blocks.new result) }
{
    match blocks.allocb(0) {
        Ok(token) => token,
        Err(why) => panic!(rt; "{why:?}"),
    }
}

// Gives a message of one block another type.
fn set_kind(rt: &impl Abort, queues: &Queues, blocks: &mut Blocks, token: &Token, kind: MsgType)
    requires agrees { Agrees queues.now blocks.old }
    requires had { IsTrue (has blocks.old token.now) }
    ensures agrees { Agrees queues.now blocks.new }
    ensures had { IsTrue (has blocks.new token.now) }
{
    assert_eq!(rt; blocks.settype(token, 0, kind), Ok(()));
}

// Gives a message a band.
fn set_band(queues: &Queues, blocks: &mut Blocks, token: &Token, band: u8)
    requires agrees { Agrees queues.now blocks.old }
    requires had { IsTrue (has blocks.old token.now) }
    ensures agrees { Agrees queues.now blocks.new }
    ensures had { IsTrue (has blocks.new token.now) }
{
    blocks.setband(token, band);
}

// Writes `size` bytes to a message of one block.
fn write(rt: &impl Abort, queues: &Queues, blocks: &mut Blocks, token: &Token, size: u32)
    requires agrees { Agrees queues.now blocks.old }
    requires had { IsTrue (has blocks.old token.now) }
    ensures agrees { Agrees queues.now blocks.new }
    ensures had { IsTrue (has blocks.new token.now) }
{
    assert!(rt; size <= 8);
    assert_eq!(rt; blocks.write(token, 0, &BYTES[..size as usize]), Ok(()));
}

// Makes a message of one block as the draft says.
fn drafted(rt: &impl Abort, queues: &Queues, blocks: &mut Blocks, how: Draft) -> Token
    requires { Agrees queues.now blocks.old }
    ensures agrees { Agrees queues.now blocks.new }
    ensures had { IsTrue (has blocks.new result) }
{
    let token = allocated(rt, queues, blocks);
    set_kind(rt, queues, blocks, &token, how.kind);
    set_band(queues, blocks, &token, how.band);
    write(rt, queues, blocks, &token, how.size);
    token
}

// A draft of a message of no bytes with this rank: high priority, with band 9, or else of this band.
fn ranked(rank: u16) -> Draft {
    match u8::try_from(rank) {
        Ok(band) => Draft {
            kind: MsgType::MData,
            band,
            size: 0,
        },
        Err(_) => Draft {
            kind: MsgType::MPcproto,
            band: 9,
            size: 0,
        },
    }
}

// Makes a message that references the data of another.
fn duplicated(rt: &impl Abort, queues: &Queues, blocks: &mut Blocks, token: &Token) -> Token
    requires agrees { Agrees queues.now blocks.old }
    requires had { IsTrue (has blocks.old token.now) }
    ensures { Agrees queues.now blocks.new }
{
    match blocks.dupmsg(token) {
        Ok(copy) => copy,
        Err(why) => panic!(rt; "{why:?}"),
    }
}

// Appends a message to another.
fn linked(queues: &Queues, blocks: &mut Blocks, message: &mut Token, tail: Token)
    requires agrees { Agrees queues.now blocks.old }
    requires head { IsTrue (has blocks.old message.old) }
    requires tail { IsTrue (has blocks.old tail) }
    ensures { Agrees queues.now blocks.new }
{
    blocks.linkb(message, tail);
}

// Frees a message.
fn free(queues: &Queues, blocks: &mut Blocks, token: Token)
    requires { Agrees queues.now blocks.old }
    ensures { Agrees queues.now blocks.new }
{
    blocks.freemsg(token);
}

// The rank of a message.
fn rank_of(rt: &impl Abort, blocks: &Blocks, token: &Token) -> u16 {
    assert!(rt; blocks.has(token));
    match blocks.block(token, 0) {
        Ok(first) if first.kind.is_high_priority() => {
            assert_eq!(rt; first.band, 0);
            HIGH_RANK
        }
        Ok(first) => u16::from(first.band),
        Err(why) => panic!(rt; "{why:?}"),
    }
}

// The message was put on the queue.
fn assert_put(rt: &impl Abort, blocks: &mut Blocks, answer: Result<(), Rejected>)
    ensures { blocks.new ≡ blocks.old }
{
    if let Err(Rejected { why, token }) = answer {
        blocks.freemsg(token);
        panic!(rt; "{why:?}");
    }
}
