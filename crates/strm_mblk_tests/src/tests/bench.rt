//! A `Blocks` to test: each call gets the token of its message, and its result is compared.
ghost use Rattle.std.specs.Prelude.{◌≡◌, ◌≤◌, IsTrue, length};
ghost use Rattle.strm_data.specs.Classes.{are_lawful};
ghost use Rattle.strm_mblk.specs.Limits.{most_message_blocks};

use super::purse::Purse;
use super::{CLASSES, Told, assert_is, info};
use std::alloc::Global;
use std::fmt::Debug;
use std::process::Abort;
use strm_data::{ClassInfo, ClassSpec, MsgType, Refusal};
use strm_mblk::{BlockInfo, Blocks, Census, TokenValue};

// Message blocks, the tokens of their messages, and the number of the call on them, which a failed assertion shows. Tests
// use a token's value instead of the token.
#[derive(Drop)]
pub(super) struct Bench {
    pub(super) blocks: Blocks,
    pub(super) purse: Purse,
    pub(super) alloc: Global,
    // The number of shelves.
    pub(super) shelves: u8,
    call: u32,
    ghost shelved: { length blocks.shelves ≡ shelves },
}

// The message that a call made; asserts that it made one.
pub(super) fn made(rt: &impl Abort, answer: Result<TokenValue, Refusal>) -> TokenValue {
    match answer {
        Ok(message) => message,
        Err(why) => panic!(rt; "{why:?}"),
    }
}

// Asserts that a call made no message, for this reason.
pub(super) fn refused(rt: &impl Abort, answer: Result<TokenValue, Refusal>, reason: Refusal) {
    match answer {
        Ok(_) => panic!(rt; "a message was made"),
        Err(why) => assert_is(rt, &why, &reason),
    }
}

impl Bench {
    // Makes message blocks, with the id and the number in `named`, over the data blocks of these classes, with shelves.
    pub(super) fn over(
        rt: &impl Abort,
        alloc: Global,
        named: (u32, u32),
        classes: &[ClassSpec],
        shelves: u8,
    ) -> Bench
        requires few_blocks { named.1 ≤ most_message_blocks }
        requires classes { IsTrue (are_lawful classes.now) }
    {
        Bench {
            blocks: Blocks::new(alloc, named.0, named.1, classes, shelves).expect(rt, "memory"),
            purse: Purse::new(rt, alloc, named.1),
            alloc,
            shelves,
            call: 0,
        }
    }

    // Makes eight message blocks over six data blocks.
    pub(super) fn opened(rt: &impl Abort, alloc: Global, id: u32) -> Bench {
        Bench::over(rt, alloc, (id, 8), &CLASSES, 1)
    }

    // Asserts that no message is held or on a shelf, and drops the blocks.
    pub(super) fn end(self, rt: &impl Abort) {
        let census = self.blocks.census();
        assert!(rt; (census.queued, census.held) == (0, 0));
    }

    // Counts another call.
    pub(super) fn count(&mut self) {
        self.call = self.call.saturating_add(1);
    }

    // Asserts that `given` is as wanted.
    pub(super) fn assert_is<T: PartialEq + Debug>(&self, rt: &impl Abort, given: &T, wanted: &T) {
        assert!(rt;
            given == wanted,
            "call {}: {given:?}, not {wanted:?}",
            self.call
        );
    }

    // Makes a message for a size, or returns the refusal.
    pub(super) fn allocb(&mut self, rt: &impl Abort, size: u32) -> Result<TokenValue, Refusal> {
        let given = self.blocks.allocb(size);
        self.purse.keep_given(rt, given)
    }

    // Makes a message for a size.
    pub(super) fn allocated(&mut self, rt: &impl Abort, size: u32) -> TokenValue {
        made(rt, self.allocb(rt, size))
    }

    pub(super) fn freemsg(&mut self, rt: &impl Abort, message: TokenValue) {
        let token = self.purse.taken(rt, &self.blocks, message);
        self.blocks.freemsg(token);
    }

    // Writes bytes into a block of a message, and asserts the result.
    pub(super) fn write(
        &mut self,
        rt: &impl Abort,
        message: TokenValue,
        place: u32,
        bytes: &[u8],
        answer: Result<(), Refusal>,
    ) {
        let token = self.purse.lent(rt, &self.blocks, message);
        let given = self.blocks.write(token, place, bytes);
        self.assert_is(rt, &given, &answer);
    }

    // Gives a block of a message a type, and asserts the result.
    pub(super) fn settype(
        &mut self,
        rt: &impl Abort,
        message: TokenValue,
        place: u32,
        kind: MsgType,
        answer: Result<(), Refusal>,
    ) {
        let token = self.purse.lent(rt, &self.blocks, message);
        let given = self.blocks.settype(token, place, kind);
        self.assert_is(rt, &given, &answer);
    }

    // Gives a message a band.
    pub(super) fn setband(&mut self, rt: &impl Abort, message: TokenValue, band: u8) {
        let token = self.purse.lent(rt, &self.blocks, message);
        self.blocks.setband(token, band);
    }

    // What `block` returns of a block of a message.
    pub(super) fn told(
        &self,
        rt: &impl Abort,
        message: TokenValue,
        place: u32,
    ) -> Result<BlockInfo, Refusal> {
        let token = self.purse.lent(rt, &self.blocks, message);
        let told = self.blocks.block(token, place);
        told
    }

    // Asserts what `block` returns of a block of a message.
    pub(super) fn assert_told(
        &self,
        rt: &impl Abort,
        message: TokenValue,
        place: u32,
        answer: Result<BlockInfo, Refusal>,
    ) {
        self.assert_is(rt, &self.told(rt, message, place), &answer);
    }

    // What `block` returns of the first three blocks of a message.
    pub(super) fn infos(&self, rt: &impl Abort, message: TokenValue) -> [Option<BlockInfo>; 3] {
        [0, 1, 2].map(|place| self.told(rt, message, place).ok())
    }

    // Asserts what `block` returns of each block of a message, three at most.
    pub(super) fn assert_infos(&self, rt: &impl Abort, message: TokenValue, told: &[Told]) {
        let wanted = [0, 1, 2].map(|place| told.get(place).map(|told| info(*told)));
        self.assert_is(rt, &self.infos(rt, message), &wanted);
    }

    // Reads the bytes of a message from a place on, as far as there is room, and returns their number.
    pub(super) fn read(
        &self,
        rt: &impl Abort,
        message: TokenValue,
        at: u32,
        into: &mut [u8],
    ) -> usize {
        let token = self.purse.lent(rt, &self.blocks, message);
        let count = self.blocks.read(token, at, into);
        count
    }

    // Asserts the bytes of a message from a place on, 16 at most.
    pub(super) fn assert_bytes(&self, rt: &impl Abort, message: TokenValue, at: u32, bytes: &[u8]) {
        let mut room = [0; 17];
        let count = self.read(rt, message, at, &mut room);
        self.assert_is(rt, &room.get(..count), &Some(bytes));
    }

    // Asserts the numbers of message blocks that are free, on shelves and held.
    pub(super) fn assert_census(&self, rt: &impl Abort, free: u32, queued: u32, held: u32) {
        let census = Census { free, queued, held };
        self.assert_is(rt, &self.blocks.census(), &census);
    }

    // Asserts the fewest message blocks that were free, and data blocks of each of two classes.
    pub(super) fn assert_least(&self, rt: &impl Abort, blocks: u32, data: [u32; 2]) {
        let given = [0, 1].map(|class| self.blocks.least_free(class));
        self.assert_is(rt, &self.blocks.least_free_blocks(), &blocks);
        self.assert_is(rt, &given, &data.map(Some));
    }

    // Makes those that are free now the fewest.
    pub(super) fn reset_least(&mut self) {
        self.blocks.reset_least();
    }

    // Asserts the number of free data blocks of each of two classes.
    pub(super) fn assert_free_data(&self, rt: &impl Abort, free: [Option<u32>; 2]) {
        let given = [0, 1].map(|class| self
            .blocks
            .class_info(class)
            .map(|info: ClassInfo| info.free));
        self.assert_is(rt, &given, &free);
    }

    // Asserts a message's id, head and number of blocks.
    pub(super) fn assert_says(
        &self,
        rt: &impl Abort,
        message: TokenValue,
        pool: u32,
        head: u32,
        blocks: u32,
    ) {
        let said = (message.pool, message.head, message.blocks);
        self.assert_is(rt, &said, &(pool, head, blocks));
    }
}
