//! Worked rows: calls, each with the result that it should return, and looks at the blocks. Rows give messages names.
use super::bench::{Bench, made, refused};
use super::in_place_rows::InPlace;
use super::{Told, info};
use std::process::Abort;
use strm_data::{ClassInfo, MsgType, Refusal};
use strm_mblk::TokenValue;

// The name of a message: its place among the messages that rows name.
pub(super) type Name = usize;

pub(super) const A: Name = 0;

pub(super) const B: Name = 1;

pub(super) const C: Name = 2;

pub(super) const D: Name = 3;

// The number of names.
const NAMES: usize = 4;

// The result of a call that returns nothing.
pub(super) const DONE: Result<(), Refusal> = Ok(());

// The result of a call that finds too few bytes.
pub(super) const SHORT: Result<(), Refusal> = Err(Refusal::Short);

// The result of a call that makes a message: the message's name, or a refusal.
pub(super) type Made = Result<Name, Refusal>;

// A call, or a look at the blocks, and its result.
#[derive(Clone, Copy)]
pub(super) enum Row {
    // Makes a message for a size.
    Allocb(u32, Made),
    // Makes a message of blocks for a size, the first with these bytes, and one more for each of the others.
    OfBytes(u32, &'static [u8], &'static [&'static [u8]], Name),
    // Makes a message of one block, and appends a number of duplicates of it.
    Repeated(u32, Name),
    // Appends duplicates of a message's first block. Their heads are the numbers from one to another, rising or falling.
    RepeatUp(Name, u32, u32),
    RepeatDown(Name, u32, u32),
    Dupb(Name, Made),
    Dupmsg(Name, Made),
    Copyb(Name, Made),
    Copymsg(Name, Made),
    // Writes bytes into the block at a place.
    Write(Name, u32, &'static [u8], Result<(), Refusal>),
    // Gives the block at a place a type.
    Settype(Name, u32, MsgType, Result<(), Refusal>),
    Setband(Name, u8),
    Adjmsg(Name, i32, Result<(), Refusal>),
    Pullupmsg(Name, i32, Result<(), Refusal>),
    // A call on the bytes of a message in place.
    InPlace(Name, InPlace),
    // Appends the second message to the first.
    Linkb(Name, Name),
    // Divides a message after its first block; the rest, if any, gets a name.
    Unlinkb(Name, Option<Name>),
    // Takes the block at a place out of a message; the rest, if any, gets a name.
    Rmvb(Name, u32, Result<(Name, Option<Name>), Refusal>),
    // Frees the first block of a message; the rest, if any, gets a name.
    Freeb(Name, Option<Name>),
    Freemsg(Name),
    // Puts a message on a shelf, before the one with a head, or last.
    Shelve(u8, Option<u32>, Name),
    // Takes the message with a head off a shelf.
    Unshelve(u8, u32, Name),
    // A token's id, head and number of blocks.
    Says(Name, u32, u32, u32),
    // Whether a token with this id, head and number of blocks is of a held message.
    Has(u32, u32, u32, bool),
    // What `block` returns of the block at a place.
    Told(Name, u32, Result<Told, Refusal>),
    // What `block` returns of each block, three at most.
    Infos(Name, &'static [Told]),
    // The length of each block, three at most.
    Lengths(Name, &'static [u32]),
    // The length and room of each block, four at most.
    Rooms(Name, &'static [(u32, u32)]),
    // All bytes of a message from a place on.
    Bytes(Name, u32, &'static [u8]),
    // The number of a message's bytes, and of those in blocks of type M_DATA.
    Sizes(Name, u32, u32),
    // Whether a message can be made for a size.
    Fits(u32, bool),
    // The class of a supply for a size, and for how many messages it is.
    Supply(u32, Result<(u32, u32), Refusal>),
    // What `class_info` returns of a size class.
    Class(u8, Option<ClassInfo>),
    // The number of free data blocks of each of the first two classes.
    FreeData(Option<u32>, Option<u32>),
    // The number of references to each data block.
    References(&'static [u8]),
    // All bytes of a data block, also those that no message has.
    Stored(u32, &'static [u8]),
    // The free message blocks, in the order in which duplicates of a message's first block take them, and the free data
    // blocks, in the order in which new messages take them. There are fewer data blocks.
    Free(Name, &'static [u32], &'static [u32]),
    // The numbers of message blocks that are free, on shelves and held.
    Census(u32, u32, u32),
    // The fewest message blocks that were free, and data blocks of each of the first two classes.
    Least(u32, u32, u32),
    // Makes those that are free now the fewest.
    ResetLeast,
    // The heads on a shelf, front to back.
    Heads(u8, &'static [u32]),
    // Type, band and size of the message with a head on the first shelf.
    Head(u32, (MsgType, u8, u32)),
}

// The blocks that rows are served on, and the messages that rows name.
#[derive(Drop)]
struct Served {
    bench: Bench,
    named: [TokenValue; NAMES],
}

impl Served {
    // The message with a name.
    fn at(&self, rt: &impl Abort, name: Name) -> TokenValue {
        assert!(rt; name < NAMES);
        self.named[name]
    }

    // Gives a message a name.
    fn name(&mut self, rt: &impl Abort, name: Name, message: TokenValue) {
        assert!(rt; name < NAMES);
        self.named[name] = message;
    }

    // Gives the message that a call made a name, or asserts its refusal.
    fn keep(&mut self, rt: &impl Abort, given: Result<TokenValue, Refusal>, answer: Made) {
        match answer {
            Ok(name) => self.name(rt, name, made(rt, given)),
            Err(reason) => refused(rt, given, reason),
        }
    }

    // Gives the rest of a message a name, or asserts that there is none.
    fn keep_rest(&mut self, rt: &impl Abort, rest: Option<TokenValue>, answer: Option<Name>) {
        match answer {
            Some(name) => self.name(rt, name, rest.expect(rt, "a block more")),
            None => assert!(rt; rest.is_none(), "a block more"),
        }
    }

    fn unlinkb(&mut self, rt: &impl Abort, name: Name, answer: Option<Name>) {
        let mut message = self.at(rt, name);
        let rest = self.bench.unlinkb(rt, &mut message);
        self.name(rt, name, message);
        self.keep_rest(rt, rest, answer);
    }

    fn rmvb(
        &mut self,
        rt: &impl Abort,
        name: Name,
        place: u32,
        answer: Result<(Name, Option<Name>), Refusal>,
    ) {
        let message = self.at(rt, name);
        match answer {
            Ok((block, others)) => {
                let (alone, rest) = self.bench.parted(rt, message, place);
                self.name(rt, block, alone);
                self.keep_rest(rt, rest, others);
            }
            Err(reason) => {
                let message = self.bench.rejected(rt, message, place, reason);
                self.name(rt, name, message);
            }
        }
    }

    // Serves a call that makes a message.
    fn make(&mut self, rt: &impl Abort, row: &Row) {
        match *row {
            Row::Allocb(size, answer) => {
                let given = self.bench.allocb(rt, size);
                self.keep(rt, given, answer);
            }
            Row::OfBytes(size, first, others, name) => {
                let message = self.bench.of_bytes(rt, size, first, others);
                self.name(rt, name, message);
            }
            Row::Repeated(copies, name) => {
                let message = self.bench.repeated(rt, copies);
                self.name(rt, name, message);
            }
            Row::RepeatUp(name, first, last) => {
                let mut message = self.at(rt, name);
                self.bench.repeat_up(rt, &mut message, first, last);
                self.name(rt, name, message);
            }
            Row::RepeatDown(name, first, last) => {
                let mut message = self.at(rt, name);
                self.bench.repeat_down(rt, &mut message, first, last);
                self.name(rt, name, message);
            }
            _ => self.copy(rt, row),
        }
    }

    // Serves a call that makes a message from another.
    fn copy(&mut self, rt: &impl Abort, row: &Row) {
        match *row {
            Row::Dupb(name, answer) => {
                let message = self.at(rt, name);
                let given = self.bench.dupb(rt, message);
                self.keep(rt, given, answer);
            }
            Row::Dupmsg(name, answer) => {
                let message = self.at(rt, name);
                let given = self.bench.dupmsg(rt, message);
                self.keep(rt, given, answer);
            }
            Row::Copyb(name, answer) => {
                let message = self.at(rt, name);
                let given = self.bench.copyb(rt, message);
                self.keep(rt, given, answer);
            }
            Row::Copymsg(name, answer) => {
                let message = self.at(rt, name);
                let given = self.bench.copymsg(rt, message);
                self.keep(rt, given, answer);
            }
            _ => self.alter(rt, row),
        }
    }

    // Serves a call that alters a message.
    fn alter(&mut self, rt: &impl Abort, row: &Row) {
        match *row {
            Row::Write(name, place, bytes, answer) => {
                let message = self.at(rt, name);
                self.bench.write(rt, message, place, bytes, answer);
            }
            Row::Settype(name, place, kind, answer) => {
                let message = self.at(rt, name);
                self.bench.settype(rt, message, place, kind, answer);
            }
            Row::Setband(name, band) => {
                let message = self.at(rt, name);
                self.bench.setband(rt, message, band);
            }
            Row::Adjmsg(name, count, answer) => {
                let message = self.at(rt, name);
                self.bench.adjmsg(rt, message, count, answer);
            }
            Row::Pullupmsg(name, count, answer) => {
                let mut message = self.at(rt, name);
                self.bench.pullupmsg(rt, &mut message, count, answer);
                self.name(rt, name, message);
            }
            Row::InPlace(name, call) => {
                let message = self.at(rt, name);
                self.bench.in_place(rt, message, call);
            }
            _ => self.move_on(rt, row),
        }
    }

    // Serves a call that joins, divides, frees or shelves messages, or a look at what is free.
    fn move_on(&mut self, rt: &impl Abort, row: &Row) {
        match *row {
            Row::Linkb(name, tail) => {
                let mut message = self.at(rt, name);
                let tail = self.at(rt, tail);
                self.bench.linkb(rt, &mut message, tail);
                self.name(rt, name, message);
            }
            Row::Unlinkb(name, answer) => self.unlinkb(rt, name, answer),
            Row::Rmvb(name, place, answer) => self.rmvb(rt, name, place, answer),
            Row::Freeb(name, answer) => {
                let message = self.at(rt, name);
                let rest = self.bench.freeb(rt, message);
                self.keep_rest(rt, rest, answer);
            }
            Row::Freemsg(name) => {
                let message = self.at(rt, name);
                self.bench.freemsg(rt, message);
            }
            Row::Shelve(shelf, before, name) => {
                let message = self.at(rt, name);
                self.bench.shelve(rt, shelf, before, message);
            }
            Row::Unshelve(shelf, head, name) => {
                let message = self.bench.unshelve(rt, shelf, head);
                self.name(rt, name, message);
            }
            Row::Free(name, heads, numbers) => {
                let message = self.at(rt, name);
                self.bench.assert_free(rt, message, heads, numbers);
            }
            Row::ResetLeast => self.bench.reset_least(),
            _ => self.look_at(rt, row),
        }
    }

    // Serves a look at a message.
    fn look_at(&self, rt: &impl Abort, row: &Row) {
        match *row {
            Row::Says(name, pool, head, blocks) => {
                self.bench
                    .assert_says(rt, self.at(rt, name), pool, head, blocks)
            }
            Row::Told(name, place, answer) => {
                self.bench
                    .assert_told(rt, self.at(rt, name), place, answer.map(info))
            }
            Row::Infos(name, told) => self.bench.assert_infos(rt, self.at(rt, name), told),
            Row::Lengths(name, lengths) => {
                self.bench.assert_lengths(rt, self.at(rt, name), lengths)
            }
            Row::Rooms(name, rooms) => self.bench.assert_rooms(rt, self.at(rt, name), rooms),
            Row::Bytes(name, at, bytes) => {
                self.bench.assert_bytes(rt, self.at(rt, name), at, bytes)
            }
            Row::Sizes(name, size, in_data) => {
                self.bench
                    .assert_sizes(rt, self.at(rt, name), size, in_data)
            }
            _ => self.look_around(rt, row),
        }
    }

    // Serves a look at anything else.
    fn look_around(&self, rt: &impl Abort, row: &Row) {
        match *row {
            Row::Has(pool, head, blocks, has) => {
                let value = TokenValue { pool, head, blocks };
                self.bench.assert_has(rt, value, has);
            }
            Row::References(references) => self.bench.assert_references(rt, references),
            Row::Stored(number, bytes) => self.bench.assert_stored(rt, number, bytes),
            Row::Fits(size, fits) => self.bench.assert_fits(rt, size, fits),
            Row::Supply(size, answer) => self.bench.assert_supply(rt, size, answer),
            Row::Class(class, info) => self.bench.assert_class(rt, class, info),
            Row::FreeData(first, second) => self.bench.assert_free_data(rt, [first, second]),
            Row::Census(free, queued, held) => self.bench.assert_census(rt, free, queued, held),
            Row::Least(blocks, first, second) => {
                self.bench.assert_least(rt, blocks, [first, second])
            }
            Row::Heads(shelf, heads) => self.bench.assert_heads(rt, shelf, heads),
            Row::Head(head, told) => self.bench.assert_head(rt, head, told),
            _ => panic!(rt; "no such row"),
        }
    }

    // Serves each row in turn.
    fn serve(&mut self, rt: &impl Abort, rows: &[Row]) {
        for row in rows {
            self.bench.count();
            self.make(rt, row);
        }
    }
}

// Serves the rows, and asserts that no message is left.
pub(super) fn serve(rt: &impl Abort, bench: Bench, rows: &[Row]) {
    let nothing = TokenValue {
        pool: 0,
        head: 0,
        blocks: 0,
    };
    let mut served = Served {
        bench,
        named: [nothing; NAMES],
    };
    served.serve(rt, rows);
    served.bench.end(&rt);
}
