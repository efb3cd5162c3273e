//! Rows of calls on the bytes of a message in place, each with the result that it should return.
use super::bench::Bench;
use super::{Told, info};
use std::process::Abort;
use strm_data::{MsgType, Refusal};
use strm_mblk::{BlockInfo, BlockPlace, Shape, TokenValue};

// A call on a message, and its result. Places are those of blocks.
#[derive(Clone, Copy)]
pub(super) enum InPlace {
    // What `bytes` lends.
    Lent(u32, Result<&'static [u8], Refusal>),
    // Data block, read place, length and capacity.
    Placed(u32, Result<(u32, u32, u32, u32), Refusal>),
    // What `walk` writes for the blocks from a place on, four at most.
    Walk(u32, &'static [Told]),
    // Writes these bytes over the front of those that `edit` lends.
    Edit(u32, &'static [u8], Result<(), Refusal>),
    // Writes these bytes over the front of those that `fill` lends, and says that they are a number of bytes.
    Fill(u32, &'static [u8], usize, Result<u32, Refusal>),
    // Writes these bytes over the front of those that `window` lends.
    Window(u32, &'static [u8], Result<(), Refusal>),
    Advance(u32, u32, Result<(), Refusal>),
    Shape(u32, u32, u32, Result<(), Refusal>),
    // Read place, length, type and band of each block, four at most.
    ShapeAll(&'static [(u32, u32, MsgType, u8)], Result<(), Refusal>),
    Reserve(u32, u32, Result<(), Refusal>),
    Prepend(&'static [u8], Result<(), Refusal>),
    Overwrite(u32, &'static [u8], Result<(), Refusal>),
}

// Read place, length, type and band as a shape.
fn shape(given: (u32, u32, MsgType, u8)) -> Shape {
    let (at, len, kind, band) = given;
    Shape {
        at,
        len,
        kind,
        band,
    }
}

// Writes bytes over the front of others, as far as both reach.
fn write_over(lent: &mut [u8], bytes: &[u8]) {
    let count = lent.len().min(bytes.len());
    lent[..count].copy_from_slice(&bytes[..count]);
}

impl Bench {
    // Asserts what `place` returns.
    fn assert_placed(
        &self,
        rt: &impl Abort,
        message: TokenValue,
        place: u32,
        answer: Result<(u32, u32, u32, u32), Refusal>,
    ) {
        let token = self.purse.lent(rt, &self.blocks, message);
        let given = self.blocks.place(token, place);
        let wanted = match answer {
            Ok((data, at, len, capacity)) => Ok(BlockPlace {
                data,
                at,
                len,
                capacity,
            }),
            Err(why) => Err(why),
        };
        self.assert_is(rt, &given, &wanted);
    }

    // Asserts what `bytes` lends.
    fn assert_lent(
        &self,
        rt: &impl Abort,
        message: TokenValue,
        place: u32,
        answer: Result<&[u8], Refusal>,
    ) {
        let token = self.purse.lent(rt, &self.blocks, message);
        self.assert_is(rt, &self.blocks.bytes(token, place), &answer);
    }

    // Asserts what `walk` tells, and that it leaves what is behind.
    fn assert_walk(&self, rt: &impl Abort, message: TokenValue, from: u32, told: &[Told]) {
        let nothing = info((MsgType::MData, 9, 9, 9, 9));
        let mut infos: [BlockInfo; 4] = [nothing; 4];
        let token = self.purse.lent(rt, &self.blocks, message);
        let count = self.blocks.walk(token, from, &mut infos);
        self.assert_is(rt, &count, &told.len());
        for place in 0..infos.len() {
            let wanted = match told.get(place) {
                Some(told) => info(*told),
                None => nothing,
            };
            self.assert_is(rt, &infos[place], &wanted);
        }
    }

    // Serves a call that looks at bytes or changes them.
    pub(super) fn in_place(&mut self, rt: &impl Abort, message: TokenValue, call: InPlace) {
        match call {
            InPlace::Lent(place, answer) => self.assert_lent(rt, message, place, answer),
            InPlace::Placed(place, answer) => self.assert_placed(rt, message, place, answer),
            InPlace::Walk(from, told) => self.assert_walk(rt, message, from, told),
            InPlace::Edit(place, bytes, answer) => {
                let token = self.purse.lent(rt, &self.blocks, message);
                let given = self
                    .blocks
                    .edit(token, place, |lent| write_over(lent, bytes));
                self.assert_is(rt, &given, &answer);
            }
            InPlace::Fill(place, bytes, said, answer) => {
                let token = self.purse.lent(rt, &self.blocks, message);
                let given = self.blocks.fill(token, place, |lent| {
                    write_over(lent, bytes);
                    said
                });
                self.assert_is(rt, &given, &answer);
            }
            InPlace::Window(place, bytes, answer) => {
                let token = self.purse.lent(rt, &self.blocks, message);
                let given = self
                    .blocks
                    .window(token, place, |lent| write_over(lent, bytes));
                self.assert_is(rt, &given, &answer);
            }
            _ => self.move_places(rt, message, call),
        }
    }

    // Serves a call that moves places, or one across blocks.
    fn move_places(&mut self, rt: &impl Abort, message: TokenValue, call: InPlace) {
        let token = self.purse.lent(rt, &self.blocks, message);
        let (given, answer) = match call {
            InPlace::Advance(place, count, answer) => {
                (self.blocks.advance(token, place, count), answer)
            }
            InPlace::Shape(place, at, len, answer) => {
                (self.blocks.shape(token, place, at, len), answer)
            }
            InPlace::ShapeAll(shapes, answer) => {
                let mut array = [shape((0, 0, MsgType::MData, 0)); 4];
                for place in 0..shapes.len() {
                    array[place] = shape(shapes[place]);
                }
                let given = self.blocks.shape_all(token, &array[..shapes.len()]);
                (given, answer)
            }
            InPlace::Reserve(place, count, answer) => {
                (self.blocks.reserve(token, place, count), answer)
            }
            InPlace::Prepend(bytes, answer) => (self.blocks.prepend(token, bytes), answer),
            InPlace::Overwrite(at, bytes, answer) => {
                (self.blocks.overwrite(token, at, bytes), answer)
            }
            _ => panic!(rt; "no such row"),
        };
        self.assert_is(rt, &given, &answer);
    }
}
