ghost use Rattle.std.specs.Prelude.{◌<◌, IsSome, IsTrue, length};
ghost use Rattle.std.specs.Option.{ForSome};
ghost use Rattle.strm_mblk.specs.Shelves.{is_on, shelf_of};

use super::assert_is;
use super::bench::Bench;
use super::rows::Row::{
    Allocb, Census, Freemsg, Head, Heads, OfBytes, Says, Setband, Settype, Shelve, Sizes, Unshelve,
};
use super::rows::{A, B, DONE, Row, serve};
use std::process::Abort;
use strm_data::{ClassSpec, MsgType};
use strm_mblk::{BlockNo, Blocks, MOST_MESSAGE_BLOCKS, TokenValue};

// The head of the first message.
fn first(blocks: &Blocks, shelf: u8) -> Option<BlockNo>
    requires { shelf < length blocks.now.shelves }
    ensures { ForSome result (λ head. IsTrue (is_on blocks.now shelf head)) }
{
    blocks.first(shelf)
}

// The head of the message after this one.
fn behind(blocks: &Blocks, shelf: u8, head: BlockNo) -> Option<BlockNo>
    requires { IsTrue (is_on blocks.now shelf head) }
    ensures { ForSome result (λ next. IsTrue (is_on blocks.now shelf next)) }
{
    blocks.after(head)
}

// Whether a message with this head is on the shelf.
fn is_on(blocks: &Blocks, shelf: u8, head: BlockNo) -> bool
    requires { shelf < length blocks.now.shelves }
    ensures there { IsTrue result → IsTrue (is_on blocks.now shelf head) }
    ensures some { IsTrue result → IsSome (shelf_of blocks.now head) }
{
    let mut at = first(blocks, shelf);
    for _message in 0..=MOST_MESSAGE_BLOCKS {
        let Some(found) = at else {
            return false;
        };
        if found == head {
            return blocks.is_shelved(head);
        }
        at = behind(blocks, shelf, found);
    }
    false
}

// Asserts that `at` is this head on the shelf, after the head `ahead`. Returns the head of the next message.
fn next_head(
    rt: &impl Abort,
    blocks: &Blocks,
    shelf: u8,
    at: Option<u32>,
    ahead: Option<u32>,
    head: u32,
) -> Option<u32>
    requires { shelf < length blocks.now.shelves }
{
    assert!(rt; at == Some(head) && is_on(blocks, shelf, head));
    assert!(rt; blocks.before(head) == ahead);
    blocks.after(head)
}

// Asserts the heads of the messages on a shelf, front to back.
fn assert_heads(rt: &impl Abort, blocks: &Blocks, shelf: u8, heads: &[u32])
    requires { shelf < length blocks.now.shelves }
{
    let mut ahead = None;
    let mut at = blocks.first(shelf);
    for head in heads {
        at = next_head(rt, blocks, shelf, at, ahead, *head);
        ahead = Some(*head);
    }
    assert_is(rt, &(at, blocks.last(shelf)), &(None, ahead));
}

impl Bench {
    // Puts a message on a shelf, before the one with head `before`, which is there, or last.
    pub(super) fn shelve(
        &mut self,
        rt: &impl Abort,
        shelf: u8,
        before: Option<u32>,
        message: TokenValue,
    ) {
        assert!(rt; shelf < self.shelves);
        let token = self.purse.taken(rt, &self.blocks, message);
        match before {
            Some(at) => {
                assert!(rt; is_on(&self.blocks, shelf, at));
                self.blocks.shelve(shelf, Some(at), token);
            }
            None => self.blocks.shelve(shelf, None, token),
        }
    }

    // Takes the message with this head off a shelf.
    pub(super) fn unshelve(&mut self, rt: &impl Abort, shelf: u8, head: u32) -> TokenValue {
        assert!(rt; shelf < self.shelves && is_on(&self.blocks, shelf, head));
        let token = self.blocks.unshelve(shelf, head);
        self.purse.keep(rt, token)
    }

    // Asserts the heads of the messages on a shelf, front to back.
    pub(super) fn assert_heads(&self, rt: &impl Abort, shelf: u8, heads: &[u32]) {
        assert!(rt; shelf < self.shelves);
        assert_heads(rt, &self.blocks, shelf, heads);
    }

    // The heads of the first and the last message on a shelf, if any.
    pub(super) fn ends(&self, rt: &impl Abort, shelf: u8) -> (Option<u32>, Option<u32>) {
        assert!(rt; shelf < self.shelves);
        (self.blocks.first(shelf), self.blocks.last(shelf))
    }

    // The heads of the messages after the one with this head and before it.
    pub(super) fn neighbours(
        &self,
        rt: &impl Abort,
        shelf: u8,
        head: u32,
    ) -> (Option<u32>, Option<u32>) {
        assert!(rt; shelf < self.shelves && is_on(&self.blocks, shelf, head));
        (self.blocks.after(head), self.blocks.before(head))
    }

    // Type, band and size of the message with this head, which is on the shelf.
    pub(super) fn head_told(&self, rt: &impl Abort, shelf: u8, head: u32) -> (MsgType, u8, u32) {
        assert!(rt; shelf < self.shelves && is_on(&self.blocks, shelf, head));
        (
            self.blocks.head_kind(head),
            self.blocks.head_band(head),
            self.blocks.head_size(head),
        )
    }

    // Asserts type, band and size of a message on the first shelf.
    pub(super) fn assert_head(&self, rt: &impl Abort, head: u32, told: (MsgType, u8, u32)) {
        self.assert_is(rt, &self.head_told(rt, 0, head), &told);
    }
}

const SHELVED: &[Row] = &[
    Allocb(1, Ok(A)),
    Shelve(0, None, A),
    Allocb(1, Ok(A)),
    Shelve(0, None, A),
    Allocb(1, Ok(A)),
    Shelve(0, Some(1), A),
    Allocb(1, Ok(A)),
    Shelve(1, None, A),
    Allocb(1, Ok(A)),
    Shelve(0, Some(0), A),
    Heads(0, &[4, 0, 2, 1]),
    Heads(1, &[3]),
    Census(3, 5, 0),
    // From the middle of one shelf to the front of the other.
    Unshelve(0, 2, A),
    Says(A, 7, 2, 1),
    Heads(0, &[4, 0, 1]),
    Census(3, 4, 1),
    Shelve(1, Some(3), A),
    Heads(1, &[2, 3]),
    Unshelve(0, 4, A),
    Freemsg(A),
    Unshelve(1, 3, A),
    Freemsg(A),
    Unshelve(0, 1, A),
    Freemsg(A),
    Unshelve(0, 0, A),
    Freemsg(A),
    Unshelve(1, 2, A),
    Freemsg(A),
    Heads(0, &[]),
    Heads(1, &[]),
    Census(8, 0, 0),
];

const TOLD: &[Row] = &[
    Allocb(0, Ok(A)),
    Shelve(0, None, A),
    OfBytes(3, b"a", &[b"bc", b"def"], B),
    Settype(B, 0, MsgType::MPcproto, DONE),
    Setband(B, 9),
    Shelve(0, Some(0), B),
    Head(1, (MsgType::MPcproto, 9, 6)),
    Head(0, (MsgType::MData, 0, 0)),
    Census(4, 4, 0),
    Unshelve(0, 1, B),
    Says(B, 7, 1, 3),
    Sizes(B, 6, 5),
    Freemsg(B),
    Unshelve(0, 0, A),
    Freemsg(A),
    Census(8, 0, 0),
];

// Messages on the first, the middle and the last of 255 shelves.
const ON_255: &[Row] = &[
    Allocb(1, Ok(A)),
    Shelve(0, None, A),
    Allocb(1, Ok(A)),
    Shelve(127, None, A),
    Allocb(1, Ok(A)),
    Shelve(254, None, A),
    Allocb(1, Ok(A)),
    Shelve(254, Some(2), A),
    Heads(0, &[0]),
    Heads(1, &[]),
    Heads(126, &[]),
    Heads(127, &[1]),
    Heads(128, &[]),
    Heads(253, &[]),
    Heads(254, &[3, 2]),
    Census(4, 4, 0),
    Unshelve(254, 2, A),
    Says(A, 7, 2, 1),
    Freemsg(A),
    Unshelve(254, 3, A),
    Freemsg(A),
    Unshelve(127, 1, A),
    Freemsg(A),
    Unshelve(0, 0, A),
    Freemsg(A),
    Heads(254, &[]),
    Census(8, 0, 0),
];

#[test]
fn opens_255_shelves(rt: HostRuntime) {
    let classes = [ClassSpec { size: 16, count: 8 }];
    let bench = Bench::over(&rt, rt.alloc(), (7, 8), &classes, 255);
    serve(&rt, bench, ON_255);
}

#[test]
fn shelves_in_order(rt: HostRuntime) {
    let classes = [ClassSpec { size: 16, count: 8 }];
    let bench = Bench::over(&rt, rt.alloc(), (7, 8), &classes, 2);
    serve(&rt, bench, SHELVED);
}

#[test]
fn tells_of_a_shelved_message(rt: HostRuntime) {
    serve(&rt, Bench::opened(&rt, rt.alloc(), 7), TOLD);
}
