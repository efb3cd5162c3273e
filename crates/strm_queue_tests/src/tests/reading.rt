//! Reads the messages of a queue, from either end.
ghost use Rattle.std.specs.Prelude.{◌<◌, IsTrue, length};
ghost use Rattle.std.specs.Option.{ForSome};
ghost use Rattle.strm_mblk.specs.Shelves.{is_on};
ghost use Rattle.strm_queue.specs.QueuedBlocks.{Agrees};

use std::process::Abort;
use strm_mblk::{BlockNo, Blocks};
use strm_queue::Queues;

// The head of the first message.
fn first(blocks: &Blocks, queue: u8) -> Option<BlockNo>
    requires { queue < length blocks.now.shelves }
    ensures { ForSome result (λ head. IsTrue (is_on blocks.now queue head)) }
{
    blocks.first(queue)
}

// The head of the last message.
fn last(blocks: &Blocks, queue: u8) -> Option<BlockNo>
    requires { queue < length blocks.now.shelves }
    ensures { ForSome result (λ head. IsTrue (is_on blocks.now queue head)) }
{
    blocks.last(queue)
}

// The head of the message after this one.
fn behind(blocks: &Blocks, queue: u8, head: BlockNo) -> Option<BlockNo>
    requires { IsTrue (is_on blocks.now queue head) }
    ensures { ForSome result (λ next. IsTrue (is_on blocks.now queue next)) }
{
    blocks.lawful();
    blocks.after(head)
}

// The head of the message before this one.
fn ahead(blocks: &Blocks, queue: u8, head: BlockNo) -> Option<BlockNo>
    requires { IsTrue (is_on blocks.now queue head) }
    ensures { ForSome result (λ next. IsTrue (is_on blocks.now queue next)) }
{
    blocks.lawful();
    let next = blocks.before(head);
    next
}

// Read from the front, the queue has these heads.
fn assert_forward(rt: &impl Abort, blocks: &Blocks, queue: u8, heads: &[u32])
    requires { queue < length blocks.now.shelves }
{
    let mut at = first(blocks, queue);
    for wanted in heads {
        let Some(head) = at else {
            panic!(rt; "too few messages");
        };
        assert!(rt; head == *wanted);
        at = behind(blocks, queue, head);
    }
    assert!(rt; at.is_none());
}

// Read from the back, the queue has these heads, last to first.
fn assert_backward(rt: &impl Abort, blocks: &Blocks, queue: u8, heads: &[u32])
    requires { queue < length blocks.now.shelves }
{
    let mut at = last(blocks, queue);
    for wanted in heads.iter().rev() {
        let Some(head) = at else {
            panic!(rt; "too few messages");
        };
        assert!(rt; head == *wanted);
        at = ahead(blocks, queue, head);
    }
    assert!(rt; at.is_none());
}

// A queue has these heads, by its last one, and by the one before each; and each has this queue.
fn assert_before(rt: &impl Abort, queues: &Queues, blocks: &Blocks, queue: u8, heads: &[u32])
    requires { Agrees queues.now blocks.now }
{
    let mut ahead = None;
    for head in heads {
        assert!(rt; queues.queue_of(blocks, *head) == Ok(queue));
        assert!(rt; queues.queued_before(blocks, *head) == Ok(ahead));
        ahead = Some(*head);
    }
    assert!(rt; queues.last_queued(blocks, queue) == Ok(ahead));
}

// Read either way, a queue has these heads, and their number is the stored one.
pub(super) fn assert_on(rt: &impl Abort, queues: &Queues, blocks: &Blocks, queue: u8, heads: &[u32])
    requires { Agrees queues.now blocks.now }
{
    match queues.qsize(blocks, queue) {
        Ok(len) => {
            assert!(rt; len as usize == heads.len());
            assert_forward(rt, blocks, queue, heads);
            assert_backward(rt, blocks, queue, heads);
            assert_before(rt, queues, blocks, queue, heads);
        }
        Err(why) => panic!(rt; "{why:?}"),
    }
}
