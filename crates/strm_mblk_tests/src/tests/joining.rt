use super::bench::Bench;
use super::forged::forged;
use super::rows::Row::{
    Bytes, Census, Freemsg, Infos, Lengths, OfBytes, References, Says, Unlinkb,
};
use super::rows::{A, B, Row, serve};
use std::process::Abort;
use strm_data::MsgType;
use strm_mblk::{Token, TokenValue};

impl Bench {
    // Takes the token of a message that is appended to another. If it is the same message, its token is forged.
    fn tail(&mut self, rt: &impl Abort, message: TokenValue, tail: TokenValue) -> Token {
        if tail.head == message.head {
            forged(rt, self.alloc, tail)
        } else {
            self.purse.taken(rt, &self.blocks, tail)
        }
    }

    // Appends a message to another, or to itself.
    pub(super) fn linkb(&mut self, rt: &impl Abort, message: &mut TokenValue, tail: TokenValue) {
        let tail = self.tail(rt, *message, tail);
        let mut token = self.purse.taken(rt, &self.blocks, *message);
        assert!(rt; self.blocks.has(&tail));
        self.blocks.linkb(&mut token, tail);
        *message = self.purse.keep(rt, token);
    }

    // Appends a new message of one block for a size, with these bytes.
    fn lengthen(&mut self, rt: &impl Abort, message: &mut TokenValue, size: u32, bytes: &[u8]) {
        let tail = self.allocated(rt, size);
        self.write(rt, tail, 0, bytes, Ok(()));
        self.linkb(rt, message, tail);
    }

    // Makes a message of a block with the bytes `first`, and a block for each of `others`. Each block is for the same
    // size.
    pub(super) fn of_bytes(
        &mut self,
        rt: &impl Abort,
        size: u32,
        first: &[u8],
        others: &[&[u8]],
    ) -> TokenValue {
        let mut message = self.allocated(rt, size);
        self.write(rt, message, 0, first, Ok(()));
        for bytes in others {
            self.lengthen(rt, &mut message, size, *bytes);
        }
        message
    }

    // Makes a message of three blocks, of 1, 2 and 3 bytes.
    pub(super) fn of_three(&mut self, rt: &impl Abort) -> TokenValue {
        self.of_bytes(rt, 3, b"a", &[b"bc", b"def"])
    }

    // Asserts the lengths of the blocks of a message, three at most.
    pub(super) fn assert_lengths(&self, rt: &impl Abort, message: TokenValue, lengths: &[u32]) {
        let given = self
            .infos(rt, message)
            .map(|told| told.map(|info| info.len));
        let wanted = [0, 1, 2].map(|place| lengths.get(place).copied());
        self.assert_is(rt, &given, &wanted);
    }

    // Divides a message after its first block, and returns the rest, if any.
    pub(super) fn unlinkb(
        &mut self,
        rt: &impl Abort,
        message: &mut TokenValue,
    ) -> Option<TokenValue> {
        let mut token = self.purse.taken(rt, &self.blocks, *message);
        let rest = self.blocks.unlinkb(&mut token);
        *message = self.purse.keep(rt, token);
        self.purse.keep_rest(rt, rest)
    }
}

const JOINED_AND_PARTED: &[Row] = &[
    OfBytes(3, b"a", &[b"bc", b"def"], A),
    Says(A, 7, 0, 3),
    Lengths(A, &[1, 2, 3]),
    Unlinkb(A, Some(B)),
    Lengths(A, &[1]),
    Says(B, 7, 1, 2),
    Lengths(B, &[2, 3]),
    Freemsg(A),
    Freemsg(B),
    Census(8, 0, 0),
];

// Messages of one byte, and of two.
const ONE_BYTE: &[super::Told] = &[(MsgType::MData, 1, 0, 15, 1)];

const TWO_BYTES: &[super::Told] = &[(MsgType::MData, 1, 0, 15, 1), (MsgType::MData, 1, 0, 15, 1)];

// The first block stays, and the others are a message, whose head is the first of them.
const UNLINKED: &[Row] = &[
    OfBytes(1, b"\x01", &[b"\x02", b"\x03"], A),
    Unlinkb(A, Some(B)),
    Says(A, 7, 0, 1),
    Says(B, 7, 1, 2),
    Infos(A, ONE_BYTE),
    Infos(B, TWO_BYTES),
    Bytes(A, 0, b"\x01"),
    Bytes(B, 0, b"\x02\x03"),
    References(&[1, 1, 1, 0, 0, 0]),
    Census(5, 0, 3),
    Freemsg(A),
    Freemsg(B),
];

#[test]
fn joins_and_parts(rt: HostRuntime) {
    serve(&rt, Bench::opened(&rt, rt.alloc(), 7), JOINED_AND_PARTED);
    serve(&rt, Bench::opened(&rt, rt.alloc(), 7), UNLINKED);
}
