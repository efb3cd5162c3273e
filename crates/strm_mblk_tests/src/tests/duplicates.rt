use super::bench::Bench;
use super::rows::Row::{
    Allocb, Bytes, Census, Dupmsg, Freemsg, Infos, Linkb, OfBytes, Repeated, Says, Setband, Unlinkb,
};
use super::rows::{A, B, C, Row, serve};
use std::process::Abort;
use strm_data::{ClassSpec, MsgType, Refusal};
use strm_mblk::TokenValue;

impl Bench {
    // Duplicates a message, or returns the refusal.
    pub(super) fn dupmsg(
        &mut self,
        rt: &impl Abort,
        message: TokenValue,
    ) -> Result<TokenValue, Refusal> {
        let token = self.purse.lent(rt, &self.blocks, message);
        let answer = self.blocks.dupmsg(token);
        self.purse.keep_given(rt, answer)
    }

    // Duplicates a message's first block, or returns the refusal.
    pub(super) fn dupb(
        &mut self,
        rt: &impl Abort,
        message: TokenValue,
    ) -> Result<TokenValue, Refusal> {
        let token = self.purse.lent(rt, &self.blocks, message);
        let answer = self.blocks.dupb(token);
        self.purse.keep_given(rt, answer)
    }
}

// Three blocks whose data blocks have two references each, and later one for the last two.
const TWICE: &[super::Told] = &[
    (MsgType::MData, 1, 9, 15, 2),
    (MsgType::MData, 2, 0, 14, 2),
    (MsgType::MData, 3, 0, 13, 2),
];

const FIRST_TWICE: &[super::Told] = &[
    (MsgType::MData, 1, 9, 15, 2),
    (MsgType::MData, 2, 0, 14, 1),
    (MsgType::MData, 3, 0, 13, 1),
];

const DUPLICATED: &[Row] = &[
    OfBytes(3, b"a", &[b"bc", b"def"], A),
    Setband(A, 9),
    Dupmsg(A, Ok(B)),
    Says(B, 7, 3, 3),
    Infos(B, TWICE),
    Bytes(B, 0, b"abcdef"),
    Dupmsg(A, Err(Refusal::NoMblk)),
    Infos(A, TWICE),
    Census(2, 0, 6),
    Unlinkb(B, Some(C)),
    Freemsg(C),
    Infos(A, FIRST_TWICE),
    Bytes(A, 0, b"abcdef"),
    Freemsg(A),
    Bytes(B, 0, b"a"),
    Freemsg(B),
    Census(8, 0, 0),
];

// Three blocks without bytes: the second's data block has 255 references, or each has two.
const SECOND_OFTEN: &[super::Told] = &[
    (MsgType::MData, 0, 0, 16, 1),
    (MsgType::MData, 0, 0, 16, 255),
    (MsgType::MData, 0, 0, 16, 1),
];

const EMPTY_TWICE: &[super::Told] = &[
    (MsgType::MData, 0, 0, 16, 2),
    (MsgType::MData, 0, 0, 16, 2),
    (MsgType::MData, 0, 0, 16, 2),
];

// The data block of a message's middle block has 255 references; the other 254 are those of another message's blocks.
const NAMES_TAKEN_BACK: &[Row] = &[
    Allocb(1, Ok(A)),
    Repeated(254, B),
    Unlinkb(B, Some(C)),
    Linkb(A, B),
    Allocb(1, Ok(B)),
    Linkb(A, B),
    Infos(A, SECOND_OFTEN),
    Dupmsg(A, Err(Refusal::RefMax)),
    Infos(A, SECOND_OFTEN),
    Census(43, 0, 257),
    Freemsg(C),
    Dupmsg(A, Ok(B)),
    Infos(A, EMPTY_TWICE),
    Freemsg(A),
    Freemsg(B),
    Census(300, 0, 0),
];

#[test]
fn duplicates_each_block(rt: HostRuntime) {
    serve(&rt, Bench::opened(&rt, rt.alloc(), 7), DUPLICATED);
}

#[test]
fn takes_names_back(rt: HostRuntime) {
    let classes = [ClassSpec { size: 16, count: 3 }];
    let bench = Bench::over(&rt, rt.alloc(), (1, 300), &classes, 0);
    serve(&rt, bench, NAMES_TAKEN_BACK);
}
