use super::bench::Bench;
use super::rows::Row::{
    Adjmsg, Bytes, Free, Freemsg, Infos, OfBytes, References, Rooms, Says, Settype, Sizes, Told,
};
use super::rows::{A, DONE, Row, SHORT, serve};
use std::process::Abort;
use strm_data::{MsgType, Refusal};
use strm_mblk::TokenValue;

impl Bench {
    // Asserts the number of a message's bytes, and of those in blocks of type M_DATA.
    pub(super) fn assert_sizes(
        &self,
        rt: &impl Abort,
        message: TokenValue,
        size: u32,
        in_data: u32,
    ) {
        let token = self.purse.lent(rt, &self.blocks, message);
        let sizes = (self.blocks.size(token), self.blocks.msgdsize(token));
        self.assert_is(rt, &sizes, &(size, in_data));
    }

    // Trims a message by `count` bytes, and asserts the result.
    pub(super) fn adjmsg(
        &mut self,
        rt: &impl Abort,
        message: TokenValue,
        count: i32,
        answer: Result<(), Refusal>,
    ) {
        let token = self.purse.lent(rt, &self.blocks, message);
        let given = self.blocks.adjmsg(token, count);
        self.assert_is(rt, &given, &answer);
    }

    // Asserts the lengths and rooms of the blocks of a message, four at most.
    pub(super) fn assert_rooms(&self, rt: &impl Abort, message: TokenValue, rooms: &[(u32, u32)]) {
        let given = [0, 1, 2, 3].map(|place| {
            self.told(rt, message, place)
                .ok()
                .map(|info| (info.len, info.room))
        });
        let wanted = [0, 1, 2, 3].map(|place| rooms.get(place).copied());
        self.assert_is(rt, &given, &wanted);
    }

    // Trims a message by `count` bytes, and asserts the lengths and rooms of its blocks, four at most.
    fn cut(
        &mut self,
        rt: &impl Abort,
        message: TokenValue,
        count: i32,
        answer: Result<(), Refusal>,
        rooms: &[(u32, u32)],
    ) {
        self.adjmsg(rt, message, count, answer);
        self.assert_rooms(rt, message, rooms);
    }

    // Makes a message of two blocks of type M_DATA, with 10 and 4 bytes, and two of type M_PROTO, with 3 and 5.
    fn of_two_types(&mut self, rt: &impl Abort) -> TokenValue {
        let others = [&b"abcd"[..], b"ghi", b"jklmn"];
        let message = self.of_bytes(rt, 0, b"0123456789", &others);
        self.settype(rt, message, 2, MsgType::MProto, Ok(()));
        self.settype(rt, message, 3, MsgType::MProto, Ok(()));
        message
    }

    // Does this for each row, with one message.
    fn cut_each(
        &mut self,
        rt: &impl Abort,
        message: TokenValue,
        rows: &[(i32, Result<(), Refusal>, &[(u32, u32)])],
    ) {
        for (count, answer, rooms) in rows {
            self.count();
            self.cut(rt, message, *count, *answer, rooms);
        }
    }
}

// Two blocks of two types, before all bytes are cut and after. A cut at the head raises the read place, so the room
// stays; a cut at the tail lowers the write place.
const TWO_TYPES: &[super::Told] = &[
    (MsgType::MProto, 3, 0, 13, 1),
    (MsgType::MData, 4, 0, 12, 1),
];

const TWO_TYPES_CUT: &[super::Told] = &[
    (MsgType::MProto, 0, 0, 13, 1),
    (MsgType::MData, 0, 0, 16, 1),
];

// At the head only leading blocks of the first block's type are cut, at the tail only trailing blocks of the last
// block's type. To cut no bytes is never refused, and like a refused cut it changes nothing. Emptied blocks stay.
const CUT_FROM_EACH_END: &[Row] = &[
    OfBytes(0, b"abc", &[b"defg"], A),
    Settype(A, 0, MsgType::MProto, DONE),
    Adjmsg(A, 4, SHORT),
    Adjmsg(A, 0, DONE),
    Adjmsg(A, -5, SHORT),
    Infos(A, TWO_TYPES),
    Bytes(A, 0, b"abcdefg"),
    Says(A, 1, 0, 2),
    References(&[1, 1, 0, 0, 0, 0]),
    Free(A, &[2, 3, 4, 5, 6, 7], &[2, 3, 4, 5]),
    Sizes(A, 7, 4),
    Adjmsg(A, 3, DONE),
    Told(A, 0, Ok((MsgType::MProto, 0, 0, 13, 1))),
    Adjmsg(A, -5, SHORT),
    Adjmsg(A, i32::MIN, SHORT),
    Adjmsg(A, -4, DONE),
    Adjmsg(A, 0, DONE),
    Adjmsg(A, 1, SHORT),
    Adjmsg(A, -1, SHORT),
    Sizes(A, 0, 0),
    Infos(A, TWO_TYPES_CUT),
    Told(A, 2, Err(Refusal::NoSuchBlock)),
    Says(A, 1, 0, 2),
    References(&[1, 1, 0, 0, 0, 0]),
    Free(A, &[2, 3, 4, 5, 6, 7], &[2, 3, 4, 5]),
    Freemsg(A),
];

// A block that is cut in part keeps its other bytes.
const CUT_IN_PART: &[Row] = &[
    OfBytes(0, b"abc", &[b"defg"], A),
    Settype(A, 0, MsgType::MProto, DONE),
    Adjmsg(A, 1, DONE),
    Bytes(A, 0, b"bcdefg"),
    Freemsg(A),
    OfBytes(0, b"abc", &[b"defg"], A),
    Settype(A, 0, MsgType::MProto, DONE),
    Adjmsg(A, -1, DONE),
    Bytes(A, 0, b"abcdef"),
    Freemsg(A),
];

// A cut goes on over several blocks of one type, an empty one among them, and takes from each what it has.
const CUT_OVER_EMPTY: &[Row] = &[
    OfBytes(0, b"abcd", &[b"", b"efghijkl"], A),
    Adjmsg(A, 6, DONE),
    Rooms(A, &[(0, 12), (0, 16), (6, 8)]),
    Bytes(A, 0, b"ghijkl"),
    Freemsg(A),
    OfBytes(0, b"abcd", &[b"", b"efghijkl"], A),
    Adjmsg(A, -10, DONE),
    Rooms(A, &[(2, 14), (0, 16), (0, 16)]),
    Bytes(A, 0, b"ab"),
    Freemsg(A),
];

const CUT: &[(i32, Result<(), Refusal>, &[(u32, u32)])] = &[
    (15, SHORT, &[(10, 6), (4, 12), (3, 13), (5, 11)]),
    (-9, SHORT, &[(10, 6), (4, 12), (3, 13), (5, 11)]),
    (i32::MAX, SHORT, &[(10, 6), (4, 12), (3, 13), (5, 11)]),
    (i32::MIN, SHORT, &[(10, 6), (4, 12), (3, 13), (5, 11)]),
    (0, DONE, &[(10, 6), (4, 12), (3, 13), (5, 11)]),
    (9, DONE, &[(1, 6), (4, 12), (3, 13), (5, 11)]),
    (6, SHORT, &[(1, 6), (4, 12), (3, 13), (5, 11)]),
    (3, DONE, &[(0, 6), (2, 12), (3, 13), (5, 11)]),
    (-6, DONE, &[(0, 6), (2, 12), (2, 14), (0, 16)]),
    (3, SHORT, &[(0, 6), (2, 12), (2, 14), (0, 16)]),
    (-3, SHORT, &[(0, 6), (2, 12), (2, 14), (0, 16)]),
    (2, DONE, &[(0, 6), (0, 12), (2, 14), (0, 16)]),
    (1, SHORT, &[(0, 6), (0, 12), (2, 14), (0, 16)]),
    (-2, DONE, &[(0, 6), (0, 12), (0, 16), (0, 16)]),
    (-1, SHORT, &[(0, 6), (0, 12), (0, 16), (0, 16)]),
];

const CUT_ALL_AT_HEAD: &[Row] = &[
    OfBytes(3, b"a", &[b"bc", b"def"], A),
    Adjmsg(A, 7, SHORT),
    Adjmsg(A, 6, DONE),
    Rooms(A, &[(0, 15), (0, 14), (0, 13)]),
    Sizes(A, 0, 0),
    Freemsg(A),
];

const CUT_ALL_AT_TAIL: &[Row] = &[
    OfBytes(3, b"a", &[b"bc", b"def"], A),
    Adjmsg(A, -7, SHORT),
    Adjmsg(A, -6, DONE),
    Rooms(A, &[(0, 16), (0, 16), (0, 16)]),
    Sizes(A, 0, 0),
    Freemsg(A),
];

#[test]
fn cuts_one_type_from_each_end(rt: HostRuntime) {
    serve(&rt, Bench::opened(&rt, rt.alloc(), 1), CUT_FROM_EACH_END);
}

#[test]
fn cuts_a_part_of_a_block(rt: HostRuntime) {
    serve(&rt, Bench::opened(&rt, rt.alloc(), 1), CUT_IN_PART);
}

#[test]
fn cuts_over_an_empty_block(rt: HostRuntime) {
    serve(&rt, Bench::opened(&rt, rt.alloc(), 1), CUT_OVER_EMPTY);
}

#[test]
fn cuts_several_blocks_of_one_type(rt: HostRuntime) {
    let mut bench = Bench::opened(&rt, rt.alloc(), 7);
    let a = bench.of_two_types(&rt);
    bench.cut_each(&rt, a, CUT);
    bench.write(&rt, a, 0, b"0123456", Err(Refusal::NoRoom));
    bench.freemsg(&rt, a);
    bench.end(&rt);
}

#[test]
fn cuts_all_bytes(rt: HostRuntime) {
    serve(&rt, Bench::opened(&rt, rt.alloc(), 7), CUT_ALL_AT_HEAD);
    serve(&rt, Bench::opened(&rt, rt.alloc(), 7), CUT_ALL_AT_TAIL);
}
