use super::CLASSES;
use super::bench::Bench;
use super::forged::forged;
use super::purse::assert_token;
use super::rows::Row::{
    Allocb, Census, Class, Dupb, Fits, FreeData, Freemsg, Has, Heads, References, Says, Supply,
    Told,
};
use super::rows::{A, B, C, D, Row, serve};
use std::alloc::Global;
use std::process::Abort;
use strm_data::{ClassInfo, ClassSpec, MsgType, Refusal};
use strm_mblk::TokenValue;

impl Bench {
    // Makes four message blocks over a small data block and two large ones.
    fn over_three(rt: &impl Abort, alloc: Global) -> Bench {
        let classes = [
            ClassSpec { size: 16, count: 1 },
            ClassSpec { size: 64, count: 2 },
        ];
        Bench::over(rt, alloc, (1, 4), &classes, 0)
    }

    // Whether the blocks have a token of this value.
    pub(super) fn has(&self, rt: &impl Abort, value: TokenValue) -> bool {
        let token = forged(rt, self.alloc, value);
        let has = self.blocks.has(&token);
        token.forget();
        has
    }

    // Asserts that the blocks have a message's token, and that other blocks do not.
    fn assert_alone(&self, rt: &impl Abort, other: &Bench, message: TokenValue) {
        assert!(rt; self.has(rt, message) && !other.has(rt, message));
    }

    // Asserts whether the blocks have this id, and a held message with this head.
    fn assert_held(&self, rt: &impl Abort, pool: u32, head: u32, held: bool) {
        assert!(rt; self.blocks.id() == 7);
        self.assert_is(rt, &self.blocks.is_held(pool, head), &held);
    }

    // Spends a token of this value that these blocks do not have.
    pub(super) fn spend_forged(&mut self, rt: &impl Abort, value: TokenValue) {
        let token = forged(rt, self.alloc, value);
        assert!(rt; !self.blocks.has(&token));
        self.blocks.freemsg(token);
    }

    // Asserts whether a message can be made for a size.
    pub(super) fn assert_fits(&self, rt: &impl Abort, size: u32, fits: bool) {
        self.assert_is(rt, &self.blocks.testb(size), &fits);
    }

    // Asserts the class of a supply for a size, and for how many messages it is.
    pub(super) fn assert_supply(
        &self,
        rt: &impl Abort,
        size: u32,
        answer: Result<(u32, u32), Refusal>,
    ) {
        let given = self.blocks.supply(size).map(|it| (it.class, it.count));
        self.assert_is(rt, &given, &answer);
    }

    // Asserts what `class_info` returns of a class.
    pub(super) fn assert_class(&self, rt: &impl Abort, class: u8, info: Option<ClassInfo>) {
        self.assert_is(rt, &self.blocks.class_info(class), &info);
    }

    // Spends a token that these blocks do not have, and asserts that nothing else changes: they hold one message of one
    // block.
    fn spend_strange(&mut self, rt: &impl Abort, message: TokenValue) {
        self.spend_forged(rt, message);
        self.assert_census(rt, 7, 0, 1);
    }

    // Frees the only message.
    fn free_last(&mut self, rt: &impl Abort, message: TokenValue) {
        self.freemsg(rt, message);
        self.assert_census(rt, 8, 0, 0);
    }
}

// A small message takes a large data block if no small one is free; a duplicate takes none. `allocb` reports `TooLarge`
// before `NoMblk`, and `NoMblk` before `NoData`. `testb` says whether `allocb` would succeed, and `supply` how often from one class.
const SMALLEST_TAKEN: &[Row] = &[
    Supply(16, Ok((0, 1))),
    Supply(17, Ok((1, 2))),
    Allocb(16, Ok(A)),
    Supply(16, Ok((1, 2))),
    Allocb(1, Ok(B)),
    Supply(1, Ok((1, 1))),
    Told(B, 0, Ok((MsgType::MData, 0, 0, 64, 1))),
    Fits(0, true),
    Fits(64, true),
    Fits(65, false),
    Allocb(17, Ok(C)),
    Allocb(1, Err(Refusal::NoData)),
    Supply(1, Err(Refusal::NoData)),
    Fits(0, false),
    Fits(64, false),
    Dupb(A, Ok(D)),
    Allocb(1, Err(Refusal::NoMblk)),
    Allocb(65, Err(Refusal::TooLarge)),
    Supply(1, Err(Refusal::NoMblk)),
    Supply(65, Err(Refusal::TooLarge)),
    Says(A, 1, 0, 1),
    Says(B, 1, 1, 1),
    Says(C, 1, 2, 1),
    Says(D, 1, 3, 1),
    Told(A, 0, Ok((MsgType::MData, 0, 0, 16, 2))),
    Told(C, 0, Ok((MsgType::MData, 0, 0, 64, 1))),
    Told(D, 0, Ok((MsgType::MData, 0, 0, 16, 2))),
    References(&[2, 1, 1]),
    FreeData(Some(0), Some(0)),
    Census(0, 0, 4),
    Freemsg(B),
    References(&[2, 0, 1]),
    Freemsg(A),
    Freemsg(C),
    Freemsg(D),
];

// If no message block is free, no size can be allocated, though data blocks are free.
const NO_MESSAGE_BLOCK: &[Row] = &[
    Allocb(0, Ok(A)),
    Dupb(A, Ok(B)),
    Dupb(A, Ok(C)),
    Dupb(A, Ok(D)),
    FreeData(Some(0), Some(2)),
    Fits(0, false),
    Freemsg(A),
    Supply(0, Ok((1, 1))),
    Freemsg(B),
    Freemsg(C),
    Freemsg(D),
];

// A size class of 64 bytes, of whose two data blocks one is left.
const ONE_LEFT: ClassInfo = ClassInfo {
    size: 64,
    free: 1,
    total: 2,
};

const ALLOCATED: &[Row] = &[
    Allocb(0, Ok(A)),
    Allocb(64, Ok(B)),
    Says(A, 7, 0, 1),
    Says(B, 7, 1, 1),
    Fits(64, true),
    Fits(65, false),
    Class(1, Some(ONE_LEFT)),
    Class(2, None),
    Freemsg(A),
    Freemsg(B),
    Allocb(0, Ok(C)),
    Says(C, 7, 1, 1),
    Freemsg(C),
    Census(8, 0, 0),
];

// Without message blocks no message can be made, and no token is valid. All data blocks stay free.
const WITHOUT_MESSAGE_BLOCKS: &[Row] = &[
    Census(0, 0, 0),
    FreeData(Some(4), Some(2)),
    Heads(0, &[]),
    Fits(0, false),
    Fits(64, false),
    Allocb(0, Err(Refusal::NoMblk)),
    Allocb(64, Err(Refusal::NoMblk)),
    Allocb(65, Err(Refusal::TooLarge)),
    Has(7, 0, 1, false),
    Has(7, 0, 2, false),
    References(&[0, 0, 0, 0, 0, 0]),
    Class(2, None),
    FreeData(Some(4), Some(2)),
    Census(0, 0, 0),
];

#[test]
fn opens_without_message_blocks(rt: HostRuntime) {
    serve(
        &rt,
        Bench::over(&rt, rt.alloc(), (7, 0), &CLASSES, 1),
        WITHOUT_MESSAGE_BLOCKS,
    );
}

#[test]
fn takes_the_smallest_class_that_has_a_free_block(rt: HostRuntime) {
    serve(&rt, Bench::over_three(&rt, rt.alloc()), SMALLEST_TAKEN);
}

#[test]
fn fits_no_size_without_a_message_block(rt: HostRuntime) {
    serve(&rt, Bench::over_three(&rt, rt.alloc()), NO_MESSAGE_BLOCK);
}

#[test]
fn allocates_and_frees(rt: HostRuntime) {
    serve(&rt, Bench::opened(&rt, rt.alloc(), 7), ALLOCATED);
}

#[test]
fn spends_a_strange_token(rt: HostRuntime) {
    let mut one = Bench::opened(&rt, rt.alloc(), 1);
    let mut two = Bench::opened(&rt, rt.alloc(), 2);
    let a = one.allocated(&rt, 1);
    let b = two.allocated(&rt, 1);
    one.assert_alone(&rt, &two, a);
    two.assert_alone(&rt, &one, b);
    two.spend_strange(&rt, a);
    one.assert_census(&rt, 7, 0, 1);
    one.free_last(&rt, a);
    two.free_last(&rt, b);
    one.end(&rt);
    two.end(&rt);
}

// A message whose token was lost gets one anew, by its head. Of two tokens of a message, the second is had no more once the first has
// freed the message.
#[test]
fn makes_a_token_anew(rt: HostRuntime) {
    let mut bench = Bench::opened(&rt, rt.alloc(), 7);
    let message = bench.allocated(&rt, 1);
    bench.purse.taken(&rt, &bench.blocks, message).forget();
    let first = bench.blocks.token(message.head);
    let second = bench.blocks.token(message.head);
    assert_token(&rt, &bench.blocks, &first, message);
    assert_token(&rt, &bench.blocks, &second, message);
    bench.blocks.freemsg(first);
    assert!(rt; !bench.blocks.has(&second));
    second.forget();
    bench.assert_census(&rt, 8, 0, 0);
    bench.end(&rt);
}

// A message is held from the call that gives it until it is freed or on a shelf. Any two numbers may be asked for.
#[test]
fn knows_a_held_message_by_its_head(rt: HostRuntime) {
    let mut bench = Bench::opened(&rt, rt.alloc(), 7);
    let message = bench.allocated(&rt, 1);
    let head = message.head;
    bench.assert_held(&rt, 7, head, true);
    bench.assert_held(&rt, 8, head, false);
    bench.assert_held(&rt, 7, 1, false);
    bench.assert_held(&rt, 7, 8, false);
    bench.assert_held(&rt, 7, u32::MAX, false);
    bench.shelve(&rt, 0, None, message);
    bench.assert_held(&rt, 7, head, false);
    let taken = bench.unshelve(&rt, 0, head);
    bench.assert_held(&rt, 7, head, true);
    bench.free_last(&rt, taken);
    bench.assert_held(&rt, 7, head, false);
    bench.end(&rt);
}
