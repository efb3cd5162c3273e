use super::bench::{Bench, made};
use super::rows::Row::{
    Allocb, Bytes, Census, Dupb, Dupmsg, Freeb, Freemsg, Infos, Linkb, References, RepeatDown,
    RepeatUp, Repeated, Rmvb, Says, Settype, Told, Unlinkb, Write,
};
use super::rows::{A, B, C, DONE, Row, serve};
use std::alloc::Global;
use std::process::Abort;
use strm_data::{ClassSpec, MsgType, Refusal};
use strm_mblk::TokenValue;

impl Bench {
    // Makes many message blocks over one data block.
    fn over_one(rt: &impl Abort, alloc: Global) -> Bench {
        Bench::over(rt, alloc, (1, 300), &[ClassSpec { size: 16, count: 1 }], 0)
    }

    // Appends a duplicate of a message's first block.
    fn repeat(&mut self, rt: &impl Abort, message: &mut TokenValue) {
        let copy = made(rt, self.dupb(rt, *message));
        self.linkb(rt, message, copy);
    }

    // Makes a message of one block, and appends `copies` duplicates of it.
    pub(super) fn repeated(&mut self, rt: &impl Abort, copies: u32) -> TokenValue {
        let mut message = self.allocated(rt, 1);
        for _copy in 0..copies {
            self.repeat(rt, &mut message);
        }
        message
    }

    // Appends a duplicate of a message's first block, and asserts that its head is this number.
    fn repeat_at(&mut self, rt: &impl Abort, message: &mut TokenValue, head: u32) {
        let copy = made(rt, self.dupb(rt, *message));
        self.assert_says(rt, copy, message.pool, head, 1);
        self.linkb(rt, message, copy);
    }

    // Does this for each head from the first to the last, rising.
    pub(super) fn repeat_up(
        &mut self,
        rt: &impl Abort,
        message: &mut TokenValue,
        first: u32,
        last: u32,
    ) {
        for head in first..=last {
            self.repeat_at(rt, message, head);
        }
    }

    // Does this for each head from the first to the last, falling.
    pub(super) fn repeat_down(
        &mut self,
        rt: &impl Abort,
        message: &mut TokenValue,
        first: u32,
        last: u32,
    ) {
        for head in (last..=first).rev() {
            self.repeat_at(rt, message, head);
        }
    }
}

// A data block with several references takes neither bytes, not even zero of them, nor a type. A new arena's message
// blocks are taken in rising order.
const NAMED_FOUR_TIMES: &[Row] = &[
    Allocb(1, Ok(A)),
    RepeatUp(A, 1, 3),
    Says(A, 1, 0, 4),
    Write(A, 0, b"\0", Err(Refusal::Shared)),
    Write(A, 3, b"", Err(Refusal::Shared)),
    Settype(A, 0, MsgType::MData, Err(Refusal::Shared)),
    Write(A, 4, b"", Err(Refusal::NoSuchBlock)),
    Told(A, 0, Ok((MsgType::MData, 0, 0, 16, 4))),
    Told(A, 3, Ok((MsgType::MData, 0, 0, 16, 4))),
    Told(A, 4, Err(Refusal::NoSuchBlock)),
    References(&[4]),
    Census(296, 0, 4),
    RepeatUp(A, 4, 254),
    Rmvb(A, 3, Ok((B, Some(A)))),
    Says(B, 1, 3, 1),
    Freemsg(A),
    Freemsg(B),
];

// A data block has at most 255 references: then no duplicate is made. A duplicate of the whole message also lacks
// message blocks, which is reported first. Once the other references are gone, the data block takes bytes and one more
// reference.
const NAMED_255_TIMES: &[Row] = &[
    Repeated(254, A),
    Told(A, 0, Ok((MsgType::MData, 0, 0, 16, 255))),
    Dupb(A, Err(Refusal::RefMax)),
    Write(A, 0, b"\0", Err(Refusal::Shared)),
    Dupmsg(A, Err(Refusal::NoMblk)),
    Unlinkb(A, Some(B)),
    Says(B, 1, 1, 254),
    Freemsg(B),
    Write(A, 0, b"\x07", DONE),
    Dupb(A, Ok(B)),
    Says(A, 1, 0, 1),
    Says(B, 1, 254, 1),
    Told(A, 0, Ok((MsgType::MData, 1, 0, 15, 2))),
    Told(B, 0, Ok((MsgType::MData, 1, 0, 15, 2))),
    Bytes(A, 0, b"\x07"),
    Bytes(B, 0, b"\x07"),
    Census(298, 0, 2),
    Freemsg(A),
    Freemsg(B),
];

// The blocks of a message are freed first to last, so the last one freed is the next to be taken. The data block that
// they shared with another message stays in use.
const FREED_AND_TAKEN: &[Row] = &[
    Repeated(254, A),
    Unlinkb(A, Some(B)),
    Freemsg(B),
    Census(299, 0, 1),
    References(&[1]),
    Allocb(1, Err(Refusal::NoData)),
    RepeatDown(A, 254, 1),
    References(&[255]),
    Freemsg(A),
    References(&[0]),
];

// A data block with 254 references gets one more, but not two.
const NAMED_254_TIMES: &[Row] = &[
    Repeated(253, A),
    Dupb(A, Ok(B)),
    Dupb(A, Err(Refusal::RefMax)),
    Freemsg(A),
    Freemsg(B),
];

// The blocks of a message that is freed are free again last to first, so the last of 128 is the next head.
const NAMED_AGAIN: &[Row] = &[
    Repeated(127, A),
    Dupmsg(A, Err(Refusal::RefMax)),
    Freemsg(A),
    Repeated(126, A),
    Dupmsg(A, Ok(B)),
    Says(A, 1, 127, 127),
    Says(B, 1, 0, 127),
    References(&[254]),
    Freemsg(A),
    Freemsg(B),
];

// Three blocks. The first and the last share a data block with other messages. It has 254 references at first. Later
// one is removed and the three blocks get duplicates; then it has 255.
const FIRST_AND_LAST: &[super::Told] = &[
    (MsgType::MData, 0, 0, 16, 254),
    (MsgType::MData, 0, 0, 16, 1),
    (MsgType::MData, 0, 0, 16, 254),
];

const FIRST_AND_LAST_AGAIN: &[super::Told] = &[
    (MsgType::MData, 0, 0, 16, 255),
    (MsgType::MData, 0, 0, 16, 2),
    (MsgType::MData, 0, 0, 16, 255),
];

// Two blocks of a message share a data block, with another block between them. A duplicate of the message adds two
// references to it: from 254 they would be 256, which is refused; from 253 they are 255.
const COUNTED_TOGETHER: &[Row] = &[
    Repeated(251, B),
    Dupb(B, Ok(A)),
    Allocb(1, Ok(C)),
    Linkb(A, C),
    Dupb(B, Ok(C)),
    Linkb(A, C),
    Infos(A, FIRST_AND_LAST),
    Dupmsg(A, Err(Refusal::RefMax)),
    Freeb(B, Some(B)),
    References(&[253, 1]),
    Dupmsg(A, Ok(C)),
    Infos(A, FIRST_AND_LAST_AGAIN),
    Infos(C, FIRST_AND_LAST_AGAIN),
    Freemsg(A),
    Freemsg(B),
    Freemsg(C),
];

#[test]
fn shares_a_data_block_four_times(rt: HostRuntime) {
    serve(&rt, Bench::over_one(&rt, rt.alloc()), NAMED_FOUR_TIMES);
}

#[test]
fn names_a_data_block_255_times(rt: HostRuntime) {
    serve(&rt, Bench::over_one(&rt, rt.alloc()), NAMED_255_TIMES);
    serve(&rt, Bench::over_one(&rt, rt.alloc()), NAMED_254_TIMES);
}

#[test]
fn takes_the_last_freed_block_first(rt: HostRuntime) {
    serve(&rt, Bench::over_one(&rt, rt.alloc()), FREED_AND_TAKEN);
}

#[test]
fn names_it_again_for_each_block_of_a_message(rt: HostRuntime) {
    serve(&rt, Bench::over_one(&rt, rt.alloc()), NAMED_AGAIN);
}

#[test]
fn counts_the_names_of_a_message_together(rt: HostRuntime) {
    let classes = [ClassSpec { size: 16, count: 2 }];
    let bench = Bench::over(&rt, rt.alloc(), (1, 300), &classes, 0);
    serve(&rt, bench, COUNTED_TOGETHER);
}
