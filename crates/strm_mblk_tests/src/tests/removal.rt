use super::bench::Bench;
use super::rows::Row::{
    Bytes, Census, Free, FreeData, Freeb, Freemsg, Has, Lengths, Linkb, OfBytes, References, Rmvb,
    Says, Told, Unlinkb,
};
use super::rows::{A, B, Row, serve};
use std::process::Abort;
use strm_data::{MsgType, Refusal};
use strm_mblk::{Rejected, TokenValue};

impl Bench {
    // Takes a block out of a message and returns it with the rest, if any, or the refusal with the message.
    pub(super) fn rmvb(
        &mut self,
        rt: &impl Abort,
        message: TokenValue,
        place: u32,
    ) -> Result<(TokenValue, Option<TokenValue>), (Refusal, TokenValue)> {
        let token = self.purse.taken(rt, &self.blocks, message);
        match self.blocks.rmvb(token, place) {
            Ok((block, rest)) => {
                let block = self.purse.keep(rt, block);
                Ok((block, self.purse.keep_rest(rt, rest)))
            }
            Err(Rejected { why, token }) => Err((why, self.purse.keep(rt, token))),
        }
    }

    // Takes a block out of a message, which has it, and returns it with the rest, if any.
    pub(super) fn parted(
        &mut self,
        rt: &impl Abort,
        message: TokenValue,
        place: u32,
    ) -> (TokenValue, Option<TokenValue>) {
        match self.rmvb(rt, message, place) {
            Ok(parts) => parts,
            Err((why, _)) => panic!(rt; "{why:?}"),
        }
    }

    // Asserts that no block is taken out of the message, for this reason, and returns the message.
    pub(super) fn rejected(
        &mut self,
        rt: &impl Abort,
        message: TokenValue,
        place: u32,
        reason: Refusal,
    ) -> TokenValue {
        match self.rmvb(rt, message, place) {
            Ok(_) => panic!(rt; "there is such a block"),
            Err((why, message)) => {
                self.assert_is(rt, &why, &reason);
                message
            }
        }
    }

    // Frees the first block of a message, and returns the rest, if any.
    pub(super) fn freeb(&mut self, rt: &impl Abort, message: TokenValue) -> Option<TokenValue> {
        let token = self.purse.taken(rt, &self.blocks, message);
        let rest = self.blocks.freeb(token);
        self.purse.keep_rest(rt, rest)
    }
}

const REMOVED_AND_FREED: &[Row] = &[
    OfBytes(1, b"\x01", &[b"\x02", b"\x03"], A),
    // Once block 1 is taken out there is no third block. The only block of a message can be taken out too, and nothing
    // is left.
    Rmvb(A, 1, Ok((B, Some(A)))),
    Bytes(A, 0, b"\x01\x03"),
    Rmvb(A, 2, Err(Refusal::NoSuchBlock)),
    Rmvb(B, 0, Ok((B, None))),
    Says(B, 7, 1, 1),
    // A message of one block has no rest to unlink. Linked to itself, a message stays as it is.
    Unlinkb(B, None),
    Linkb(B, B),
    Says(A, 7, 0, 2),
    Says(B, 7, 1, 1),
    Lengths(A, &[1, 1]),
    Lengths(B, &[1]),
    Bytes(A, 0, b"\x01\x03"),
    Bytes(B, 0, b"\x02"),
    References(&[1, 1, 1, 0, 0, 0]),
    Has(7, 2, 1, false),
    // The first block is freed, and the head of the rest is its own first block, until no block is left.
    Freeb(A, Some(A)),
    Says(A, 7, 2, 1),
    Has(7, 0, 1, false),
    Has(7, 0, 2, false),
    Bytes(A, 0, b"\x03"),
    Bytes(A, 1, b""),
    Freeb(A, None),
    Has(7, 2, 1, false),
    Says(B, 7, 1, 1),
    Told(B, 0, Ok((MsgType::MData, 1, 0, 15, 1))),
    Bytes(B, 0, b"\x02"),
    Census(7, 0, 1),
    References(&[0, 1, 0, 0, 0, 0]),
    Free(B, &[2, 0, 3, 4, 5, 6, 7], &[2, 0, 3, 4, 5]),
    FreeData(Some(3), Some(2)),
    Freemsg(B),
    Census(8, 0, 0),
];

// Each of three blocks is taken out. The rest keeps the message's head, unless the first block was taken out: then the
// next block is the head. No message is held at the number that is neither head.
const FIRST_OUT: &[Row] = &[
    OfBytes(1, b"\x01", &[b"\x02", b"\x03"], A),
    Rmvb(A, 3, Err(Refusal::NoSuchBlock)),
    Rmvb(A, 0, Ok((B, Some(A)))),
    Says(B, 7, 0, 1),
    Says(A, 7, 1, 2),
    Has(7, 2, 1, false),
    Bytes(B, 0, b"\x01"),
    Bytes(A, 0, b"\x02\x03"),
    Freemsg(A),
    Freemsg(B),
];

const SECOND_OUT: &[Row] = &[
    OfBytes(1, b"\x01", &[b"\x02", b"\x03"], A),
    Rmvb(A, 1, Ok((B, Some(A)))),
    Says(B, 7, 1, 1),
    Says(A, 7, 0, 2),
    Has(7, 2, 1, false),
    Bytes(B, 0, b"\x02"),
    Bytes(A, 0, b"\x01\x03"),
    Freemsg(A),
    Freemsg(B),
];

const THIRD_OUT: &[Row] = &[
    OfBytes(1, b"\x01", &[b"\x02", b"\x03"], A),
    Rmvb(A, 2, Ok((B, Some(A)))),
    Says(B, 7, 2, 1),
    Says(A, 7, 0, 2),
    Has(7, 1, 1, false),
    Bytes(B, 0, b"\x03"),
    Bytes(A, 0, b"\x01\x02"),
    Freemsg(A),
    Freemsg(B),
];

const FIRST_REMOVED: &[Row] = &[
    OfBytes(3, b"a", &[b"bc", b"def"], A),
    Rmvb(A, 0, Ok((B, Some(A)))),
    Says(B, 7, 0, 1),
    Says(A, 7, 1, 2),
    Lengths(B, &[1]),
    Lengths(A, &[2, 3]),
    Freemsg(A),
    Freemsg(B),
    Census(8, 0, 0),
];

#[test]
fn removes_and_frees_block_by_block(rt: HostRuntime) {
    serve(&rt, Bench::opened(&rt, rt.alloc(), 7), REMOVED_AND_FREED);
}

#[test]
fn removes_each_of_three_blocks(rt: HostRuntime) {
    serve(&rt, Bench::opened(&rt, rt.alloc(), 7), FIRST_OUT);
    serve(&rt, Bench::opened(&rt, rt.alloc(), 7), SECOND_OUT);
    serve(&rt, Bench::opened(&rt, rt.alloc(), 7), THIRD_OUT);
}

#[test]
fn removes_the_first_block(rt: HostRuntime) {
    serve(&rt, Bench::opened(&rt, rt.alloc(), 7), FIRST_REMOVED);
}
