//! Tokens that no call on the tested blocks gave: other blocks with the same id give them.
use super::purse::value_of;
use std::alloc::Global;
use std::process::Abort;
use strm_data::ClassSpec;
use strm_mblk::{Blocks, Token, TokenValue};

// The number of message blocks, and a data block for each.
const MANY: u32 = 600;

const CLASSES: [ClassSpec; 1] = [ClassSpec {
    size: 1,
    count: MANY,
}];

// Makes a message of one block.
fn one(rt: &impl Abort, blocks: &mut Blocks) -> Token {
    match blocks.allocb(0) {
        Ok(token) => token,
        Err(why) => panic!(rt; "{why:?}"),
    }
}

// Appends a message to another.
fn join(rt: &impl Abort, blocks: &mut Blocks, token: &mut Token, tail: Token) {
    assert!(rt; blocks.has(token) && blocks.has(&tail));
    blocks.linkb(token, tail);
}

// Makes a token of this value, which must have one block at least.
pub(super) fn forged(rt: &impl Abort, alloc: Global, value: TokenValue) -> Token {
    let mut blocks = Blocks::new(alloc, value.pool, MANY, &CLASSES, 0).expect(rt, "memory");
    for _number in 0..value.head {
        one(rt, &mut blocks).forget();
    }
    let mut token = one(rt, &mut blocks);
    for _block in 1..value.blocks {
        let tail = one(rt, &mut blocks);
        join(rt, &mut blocks, &mut token, tail);
    }
    let made = value_of(&token);
    assert!(rt; (made.pool, made.head, made.blocks) == (value.pool, value.head, value.blocks));
    token
}
