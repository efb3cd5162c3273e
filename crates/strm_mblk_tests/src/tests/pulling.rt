use super::bench::Bench;
use super::rows::Row::{
    Allocb, Bytes, Census, Dupb, Free, FreeData, Freemsg, Infos, Lengths, Linkb, OfBytes,
    Pullupmsg, References, Says, Setband, Settype, Stored, Told,
};
use super::rows::{A, B, C, DONE, Row, SHORT, serve};
use std::alloc::Global;
use std::process::Abort;
use strm_data::{ClassSpec, MsgType, Refusal};
use strm_mblk::TokenValue;

// 40 bytes.
const LONG: &[u8] = b"abcdefghijklmnopqrstuvwxyz0123456789....";

impl Bench {
    // Makes eight message blocks over four small data blocks.
    fn over_four(rt: &impl Abort, alloc: Global) -> Bench {
        Bench::over(rt, alloc, (1, 8), &[ClassSpec { size: 16, count: 4 }], 0)
    }

    // Pulls up `count` bytes of a message, and asserts the result.
    pub(super) fn pullupmsg(
        &mut self,
        rt: &impl Abort,
        message: &mut TokenValue,
        count: i32,
        answer: Result<(), Refusal>,
    ) {
        let mut token = self.purse.taken(rt, &self.blocks, *message);
        let given = self.blocks.pullupmsg(&mut token, count);
        *message = self.purse.keep(rt, token);
        self.assert_is(rt, &given, &answer);
    }

    // Asserts that there are no messages, and that all data blocks are free.
    fn assert_all_free(&self, rt: &impl Abort) {
        self.assert_census(rt, 8, 0, 0);
        self.assert_free_data(rt, [Some(4), Some(2)]);
    }

    // Pulls up `count` bytes of a message of three blocks of 1, 2 and 3 bytes, and asserts the lengths of the blocks that
    // are left.
    fn pull_up_of_three(
        &mut self,
        rt: &impl Abort,
        count: i32,
        answer: Result<(), Refusal>,
        left: &[u32],
    ) {
        let mut a = self.of_three(rt);
        self.pullupmsg(rt, &mut a, count, answer);
        self.assert_lengths(rt, a, left);
        assert!(rt; a.blocks as usize == left.len());
        self.assert_bytes(rt, a, 0, b"abcdef");
        self.freemsg(rt, a);
        self.assert_all_free(rt);
    }

    // Does this for each row, with a new message.
    fn pull_up_each(&mut self, rt: &impl Abort, rows: &[(i32, Result<(), Refusal>, &[u32])]) {
        for (count, answer, left) in rows {
            self.count();
            self.pull_up_of_three(rt, *count, *answer, left);
        }
    }

    // Pulls up `count` bytes of a message of blocks with these bytes, and asserts the lengths of the blocks that are
    // left.
    fn pull_up_empty(
        &mut self,
        rt: &impl Abort,
        first: &[u8],
        others: &[&[u8]],
        count: i32,
        left: &[u32],
    ) {
        let mut a = self.of_bytes(rt, 0, first, others);
        self.pullupmsg(rt, &mut a, count, DONE);
        self.assert_lengths(rt, a, left);
        self.freemsg(rt, a);
        self.assert_census(rt, 8, 0, 0);
    }

    // Does this for each row.
    fn pull_up_each_empty(&mut self, rt: &impl Abort, rows: &[(&[u8], &[&[u8]], i32, &[u32])]) {
        for (first, others, count, left) in rows {
            self.count();
            self.pull_up_empty(rt, first, others, *count, left);
        }
    }

    // Pulls up `count` bytes of a message of two blocks of 40 bytes, and asserts that the blocks keep them.
    fn pull_up_long(
        &mut self,
        rt: &impl Abort,
        message: &mut TokenValue,
        count: i32,
        answer: Result<(), Refusal>,
    ) {
        self.pullupmsg(rt, message, count, answer);
        self.assert_lengths(rt, *message, &[40, 40]);
        self.assert_free_data(rt, [Some(4), Some(0)]);
    }

    // Does this for each row, with one message.
    fn pull_up_each_long(&mut self, rt: &impl Abort, rows: &[(i32, Result<(), Refusal>)]) {
        let mut a = self.of_bytes(rt, 40, LONG, &[LONG]);
        for (count, answer) in rows {
            self.count();
            self.pull_up_long(rt, &mut a, *count, *answer);
        }
        self.freemsg(rt, a);
    }
}

// The results for bytes that no class, or no free data block, has room for.
const TOO_LARGE: Result<(), Refusal> = Err(Refusal::TooLarge);

const NO_DATA: Result<(), Refusal> = Err(Refusal::NoData);

// Three blocks, the second of which is empty, and the two that are left once ten bytes are in the first.
const THREE_BLOCKS: &[super::Told] = &[
    (MsgType::MData, 4, 0, 12, 1),
    (MsgType::MData, 0, 0, 16, 1),
    (MsgType::MData, 8, 0, 8, 1),
];

const TEN_PULLED: &[super::Told] = &[(MsgType::MData, 10, 0, 6, 1), (MsgType::MData, 2, 0, 8, 1)];

const PULLED_IN_PART: &[Row] = &[
    OfBytes(1, b"0123", &[b"", b"456789ab"], A),
    Allocb(1, Ok(B)),
    // Bytes that the first block already has need no data block. More bytes need one, even though the first block's own
    // would be free afterwards.
    Pullupmsg(A, 0, DONE),
    Pullupmsg(A, 4, DONE),
    Pullupmsg(A, 10, NO_DATA),
    Pullupmsg(A, -1, NO_DATA),
    Pullupmsg(A, 13, SHORT),
    Pullupmsg(A, -2, SHORT),
    Pullupmsg(A, i32::MIN, SHORT),
    // None of these calls has changed anything.
    Says(A, 1, 0, 3),
    Says(B, 1, 3, 1),
    Infos(A, THREE_BLOCKS),
    Bytes(A, 0, b"0123456789ab"),
    References(&[1, 1, 1, 1]),
    Free(A, &[4, 5, 6, 7], &[]),
    // Once a data block is free, ten bytes are pulled up into it. The first block's former data block is freed, and
    // then the empty block with its data block. The last block has lost six bytes at its front.
    Freemsg(B),
    Pullupmsg(A, 13, SHORT),
    Pullupmsg(A, 10, DONE),
    Says(A, 1, 0, 2),
    Infos(A, TEN_PULLED),
    Told(A, 2, Err(Refusal::NoSuchBlock)),
    Bytes(A, 0, b"0123456789ab"),
    Stored(3, b"0123456789\0\0\0\0\0\0"),
    References(&[0, 0, 1, 1]),
    Free(A, &[1, 3, 4, 5, 6, 7], &[1, 0]),
    // Then all bytes are pulled up. A second call has nothing to do.
    Pullupmsg(A, -1, DONE),
    Says(A, 1, 0, 1),
    Told(A, 0, Ok((MsgType::MData, 12, 0, 4, 1))),
    Lengths(A, &[12]),
    Bytes(A, 0, b"0123456789ab"),
    References(&[0, 1, 0, 0]),
    Free(A, &[2, 1, 3, 4, 5, 6, 7], &[2, 3, 0]),
    Pullupmsg(A, -1, DONE),
    Says(A, 1, 0, 1),
    Told(A, 0, Ok((MsgType::MData, 12, 0, 4, 1))),
    Lengths(A, &[12]),
    Bytes(A, 0, b"0123456789ab"),
    References(&[0, 1, 0, 0]),
    Free(A, &[2, 1, 3, 4, 5, 6, 7], &[2, 3, 0]),
    OfBytes(1, b"012345678", &[b"012345678"], B),
    Pullupmsg(B, -1, TOO_LARGE),
    Freemsg(A),
    Freemsg(B),
];

// Two blocks of nine bytes have more than the largest class, whether or not a data block is free. 16 bytes of them
// would fit, but no data block is free.
const MORE_THAN_A_CLASS: &[Row] = &[
    OfBytes(9, b"aaaaaaaaa", &[b"bbbbbbbbb"], A),
    Pullupmsg(A, -1, TOO_LARGE),
    Allocb(1, Ok(B)),
    Allocb(1, Ok(C)),
    Pullupmsg(A, -1, TOO_LARGE),
    Pullupmsg(A, 16, NO_DATA),
    Freemsg(A),
    Freemsg(B),
    Freemsg(C),
];

// Bytes are pulled up even if a duplicate shares the first block's data block: the duplicate keeps the data block and
// its bytes.
const PULLED_BY_ONE: &[Row] = &[
    OfBytes(1, b"0123", &[b"", b"456789ab"], A),
    Allocb(1, Ok(B)),
    Freemsg(B),
    Dupb(A, Ok(B)),
    Says(B, 1, 3, 1),
    Pullupmsg(A, 4, DONE),
    Told(A, 0, Ok((MsgType::MData, 4, 0, 12, 2))),
    Pullupmsg(A, 5, DONE),
    Told(A, 0, Ok((MsgType::MData, 5, 0, 11, 1))),
    Told(B, 0, Ok((MsgType::MData, 4, 0, 12, 1))),
    Free(A, &[1, 4, 5, 6, 7], &[1]),
    Freemsg(A),
    Freemsg(B),
];

// The first block shares its data block with the block that is used up: the data block is freed once, after both
// references are gone.
const PULLED_FROM_ITSELF: &[Row] = &[
    OfBytes(4, b"0123", &[], A),
    Dupb(A, Ok(B)),
    Linkb(A, B),
    Pullupmsg(A, 8, DONE),
    Bytes(A, 0, b"01230123"),
    Says(A, 1, 0, 1),
    References(&[0, 1, 0, 0]),
    Free(A, &[1, 2, 3, 4, 5, 6, 7], &[0, 2, 3]),
    Freemsg(A),
];

// Two blocks of M_PROTO, of which the first has band 7, have become one, before a block of M_DATA.
const RUN_PULLED: &[super::Told] = &[
    (MsgType::MProto, 5, 7, 11, 1),
    (MsgType::MData, 1, 0, 15, 1),
];

// -1 asks for all bytes of the leading blocks of one type. The first block keeps its type and its band, and the last
// block stays.
const PULLED_RUN: &[Row] = &[
    OfBytes(3, b"012", &[b"34", b"5"], A),
    Settype(A, 0, MsgType::MProto, DONE),
    Settype(A, 1, MsgType::MProto, DONE),
    Setband(A, 7),
    Pullupmsg(A, 6, SHORT),
    Pullupmsg(A, -1, DONE),
    Infos(A, RUN_PULLED),
    Told(A, 2, Err(Refusal::NoSuchBlock)),
    Freemsg(A),
];

const AS_WAS: &[u32] = &[1, 2, 3];

const PULLED: &[(i32, Result<(), Refusal>, &[u32])] = &[
    (0, DONE, AS_WAS),
    (1, DONE, AS_WAS),
    (2, DONE, &[2, 1, 3]),
    (3, DONE, &[3, 3]),
    (4, DONE, &[4, 2]),
    (6, DONE, &[6]),
    (-1, DONE, &[6]),
    (7, SHORT, AS_WAS),
    (i32::MAX, SHORT, AS_WAS),
    (-2, SHORT, AS_WAS),
    (i32::MIN, SHORT, AS_WAS),
];

// An empty block after the bytes that are pulled up stays, and one before them is freed.
const PULLED_EMPTY: &[(&[u8], &[&[u8]], i32, &[u32])] = &[
    (b"a", &[b"", b"bcd", b""], 4, &[4, 0]),
    (b"a", &[b"bc", b""], 3, &[3, 0]),
    (b"a", &[b"bc", b""], -1, &[3, 0]),
    (b"a", &[b"", b"bc"], 1, &[1, 0, 2]),
    (b"a", &[b"", b"bc"], 2, &[2, 1]),
    (b"", &[b"a", b"bc"], 1, &[1, 2]),
    (b"", &[b"", b""], -1, &[0, 0, 0]),
];

const PULLED_OF_ONE_TYPE: &[Row] = &[
    OfBytes(3, b"a", &[b"bc", b"def"], A),
    Settype(A, 2, MsgType::MProto, DONE),
    Pullupmsg(A, 4, SHORT),
    Pullupmsg(A, -1, DONE),
    Lengths(A, &[3, 3]),
    Freemsg(A),
];

const PULLED_LONG: &[(i32, Result<(), Refusal>)] = &[
    (81, SHORT),
    (80, TOO_LARGE),
    (-1, TOO_LARGE),
    (65, TOO_LARGE),
    (64, NO_DATA),
    (41, NO_DATA),
    (40, DONE),
];

const PULLED_FROM_SHARED: &[Row] = &[
    OfBytes(3, b"a", &[b"bc", b"def"], A),
    Settype(A, 0, MsgType::MProto, DONE),
    Settype(A, 1, MsgType::MProto, DONE),
    Settype(A, 2, MsgType::MProto, DONE),
    Setband(A, 9),
    Dupb(A, Ok(B)),
    FreeData(Some(1), Some(2)),
    Pullupmsg(A, 3, DONE),
    Told(A, 0, Ok((MsgType::MProto, 3, 9, 13, 1))),
    Told(B, 0, Ok((MsgType::MProto, 1, 9, 15, 1))),
    Bytes(B, 0, b"a"),
    FreeData(Some(1), Some(2)),
    Freemsg(A),
    Freemsg(B),
    Census(8, 0, 0),
    FreeData(Some(4), Some(2)),
];

#[test]
fn pulls_up_a_part_and_then_all(rt: HostRuntime) {
    serve(&rt, Bench::over_four(&rt, rt.alloc()), PULLED_IN_PART);
}

#[test]
fn pulls_up_no_more_than_a_class(rt: HostRuntime) {
    serve(&rt, Bench::over_four(&rt, rt.alloc()), MORE_THAN_A_CLASS);
}

#[test]
fn pulls_up_what_is_there(rt: HostRuntime) {
    let mut bench = Bench::opened(&rt, rt.alloc(), 7);
    bench.pull_up_each(&rt, PULLED);
    bench.end(&rt);
}

#[test]
fn leaves_an_empty_block_behind(rt: HostRuntime) {
    let mut bench = Bench::opened(&rt, rt.alloc(), 7);
    bench.pull_up_each_empty(&rt, PULLED_EMPTY);
    bench.end(&rt);
}

#[test]
fn pulls_up_one_type(rt: HostRuntime) {
    serve(&rt, Bench::opened(&rt, rt.alloc(), 7), PULLED_OF_ONE_TYPE);
    serve(&rt, Bench::over_four(&rt, rt.alloc()), PULLED_RUN);
}

#[test]
fn refuses_in_this_order(rt: HostRuntime) {
    let mut bench = Bench::opened(&rt, rt.alloc(), 7);
    bench.pull_up_each_long(&rt, PULLED_LONG);
    bench.end(&rt);
}

#[test]
fn leaves_a_shared_data_block(rt: HostRuntime) {
    serve(&rt, Bench::opened(&rt, rt.alloc(), 7), PULLED_FROM_SHARED);
    serve(&rt, Bench::over_four(&rt, rt.alloc()), PULLED_BY_ONE);
}

#[test]
fn frees_a_data_block_that_it_shares_with_itself_once(rt: HostRuntime) {
    serve(&rt, Bench::over_four(&rt, rt.alloc()), PULLED_FROM_ITSELF);
}
