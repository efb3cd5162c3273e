//! Flushing step by step: which messages `flushq` and `flushband` free, and in which order.
use super::{CLASSES, chained, of_band};
use crate::tests::bench::Bench;
use crate::tests::{Draft, HIGH_RANK, QUEUE};
use std::process::Abort;
use strm_data::{ClassSpec, MsgType, Refusal};
use strm_queue::{Flush, QueueSpec};

const ONE_BLOCK: [ClassSpec; 1] = [ClassSpec { size: 8, count: 1 }];

const QUEUES: [QueueSpec; 2] = [QUEUE, QUEUE];

// A message of two bytes.
fn message(kind: MsgType, band: u8) -> Draft {
    Draft {
        kind,
        band,
        size: 2,
    }
}

// A flush takes the messages of a queue or of one band: all, or those that carry data. High priority ones belong to band 0.
#[test]
fn data_or_all_of_a_queue_or_a_band(rt: HostRuntime) {
    let mut bench = Bench::opened(&rt, rt.alloc(), &CLASSES, &QUEUES);
    bench.put_new(&rt, 0, message(MsgType::MCtl, 0));
    bench.put_new(&rt, 0, message(MsgType::MDelay, 0));
    bench.put_new(&rt, 0, message(MsgType::MPcproto, 0));
    bench.put_new(&rt, 0, message(MsgType::MData, 0));
    bench.assert_heads(&rt, 0, &[2, 0, 1, 3]);
    bench.flushq(&rt, 0, Flush::Data, Ok(()));
    bench.assert_heads(&rt, 0, &[0]);
    // The block that was freed last is taken first.
    bench.put_new(&rt, 0, message(MsgType::MPcproto, 0));
    bench.put_new(&rt, 0, message(MsgType::MData, 0));
    bench.put_new(&rt, 0, message(MsgType::MData, 5));
    bench.assert_heads(&rt, 0, &[3, 2, 0, 1]);
    bench.flushband(&rt, (0, 0), Flush::Data, Ok(()));
    bench.assert_heads(&rt, 0, &[2, 0]);
    bench.flushband(&rt, (0, 0), Flush::All, Ok(()));
    bench.assert_heads(&rt, 0, &[2]);
    bench.flushband(&rt, (0, 0), Flush::All, Ok(()));
    bench.assert_heads(&rt, 0, &[2]);
    bench.flushq(&rt, 0, Flush::All, Ok(()));
    bench.assert_heads(&rt, 0, &[]);
}

// `take_flushed` takes messages that a flush frees, in order and at most the given number.
#[test]
fn takes_what_a_flush_frees(rt: HostRuntime) {
    let mut bench = Bench::opened(&rt, rt.alloc(), &CLASSES, &QUEUES);
    bench.put_new(&rt, 0, message(MsgType::MCtl, 0));
    bench.put_new(&rt, 0, message(MsgType::MDelay, 0));
    bench.put_new(&rt, 0, message(MsgType::MPcproto, 0));
    bench.put_new(&rt, 0, message(MsgType::MData, 5));
    bench.put_new(&rt, 0, message(MsgType::MData, 0));
    bench.assert_heads(&rt, 0, &[2, 3, 0, 1, 4]);
    bench.take_flushed(&rt, (0, None), (Flush::Data, 2), Ok(&[2, 3]));
    bench.take_flushed(&rt, (0, None), (Flush::Data, 0), Ok(&[]));
    bench.assert_heads(&rt, 0, &[0, 1, 4]);
    bench.put_new(&rt, 0, message(MsgType::MData, 5));
    bench.take_flushed(&rt, (0, Some(0)), (Flush::Data, 9), Ok(&[1, 4]));
    bench.assert_heads(&rt, 0, &[5, 0]);
    bench.take_flushed(&rt, (0, Some(5)), (Flush::All, 1), Ok(&[5]));
    bench.take_flushed(&rt, (0, None), (Flush::All, 9), Ok(&[0]));
    bench.assert_heads(&rt, 0, &[]);
    let missing = Err(Refusal::NoSuchQueue);
    bench.take_flushed(&rt, (2, None), (Flush::All, 9), missing);
    bench.take_flushed(&rt, (2, Some(0)), (Flush::All, 9), missing);
}

// Enough data blocks for all messages of a drawn run.
const MANY: [ClassSpec; 1] = [ClassSpec {
    size: 8,
    count: 4096,
}];

// Types of messages, the first four of which carry data.
const KINDS: [MsgType; 6] = [
    MsgType::MData,
    MsgType::MProto,
    MsgType::MPcproto,
    MsgType::MDelay,
    MsgType::MCtl,
    MsgType::MIocack,
];

const DRAWN_BANDS: [u8; 4] = [0, 0, 1, 255];

// A message of a plain list.
#[derive(Clone, Copy)]
struct Listed {
    head: u32,
    rank: u16,
    has_data: bool,
}

impl Listed {
    // Whether a flush of a queue, or of one band, takes it.
    fn is_taken(self, flush: Flush, band: Option<u8>) -> bool {
        let own = if self.rank == HIGH_RANK { 0 } else { self.rank };
        (flush == Flush::All || self.has_data) && band.is_none_or(|band| u16::from(band) == own)
    }
}

// The next number below `limit` of a fixed sequence.
fn below(draw: &mut u32, limit: usize) -> usize {
    *draw = draw.wrapping_mul(1_664_525).wrapping_add(1_013_904_223);
    (*draw >> 8) as usize % limit
}

// Puts a drawn message on queue 0 and into the list, after its equals.
fn put_drawn(rt: &impl Abort, bench: &mut Bench, list: &mut Vec<Listed>, draw: &mut u32) {
    let kind = below(draw, KINDS.len());
    let how = message(KINDS[kind], DRAWN_BANDS[below(draw, DRAWN_BANDS.len())]);
    let rank = match how.kind.is_high_priority() {
        true => HIGH_RANK,
        false => u16::from(how.band),
    };
    let head = bench.put_new(rt, 0, how);
    let listed = Listed {
        head,
        rank,
        has_data: kind < 4,
    };
    let place = list
        .iter()
        .position(|other| other.rank < rank)
        .unwrap_or(list.len());
    list.insert(place, listed).expect(rt, "memory");
}

// Takes what a drawn flush would free off queue 0 and out of the list.
fn take_drawn(rt: &impl Abort, bench: &mut Bench, list: &mut Vec<Listed>, draw: &mut u32) {
    let band = match below(draw, 2) {
        0 => None,
        _ => Some(DRAWN_BANDS[below(draw, DRAWN_BANDS.len())]),
    };
    let flush = match below(draw, 2) {
        0 => Flush::All,
        _ => Flush::Data,
    };
    let most = below(draw, 5);
    let (mut heads, mut count, mut place) = ([0; 8], 0, 0);
    while place < list.len() {
        let listed = list[place];
        if count < most && listed.is_taken(flush, band) {
            heads[count] = listed.head;
            count += 1;
            list.remove(place);
        } else {
            place += 1;
        }
    }
    bench.take_flushed(rt, (0, band), (flush, most as u32), Ok(&heads[..count]));
}

// Drawn calls of `take_flushed`, beside a plain list. At most eight messages are on the queue.
#[test]
fn takes_as_a_plain_list_does(rt: HostRuntime) {
    let mut bench = Bench::opened(&rt, rt.alloc(), &MANY, &QUEUES);
    let mut list = Vec::new(rt.alloc());
    let mut draw = 1;
    for _step in 0..4000 {
        if list.len() < 8 && below(&mut draw, 4) > 0 {
            put_drawn(&rt, &mut bench, &mut list, &mut draw);
        } else {
            take_drawn(&rt, &mut bench, &mut list, &mut draw);
        }
        let mut heads = [0; 8];
        for (place, listed) in list.iter().enumerate() {
            heads[place] = listed.head;
        }
        bench.assert_heads(&rt, 0, &heads[..list.len()]);
    }
}

// Data that two messages reference is free once both are flushed.
#[test]
fn data_that_two_messages_name(rt: HostRuntime) {
    let mut bench = Bench::opened(&rt, rt.alloc(), &ONE_BLOCK, &QUEUES);
    // The two are on one queue.
    bench.put_twice(&rt, (0, 0), message(MsgType::MData, 1));
    bench.testb(&rt, false);
    bench.assert_band(&rt, (0, 1), 4, (false, false));
    bench.flushq(&rt, 0, Flush::Data, Ok(()));
    bench.assert_all_free(&rt);
    // The two are on two queues: the data stays in use while only one of them is flushed.
    bench.put_twice(&rt, (0, 1), message(MsgType::MData, 1));
    bench.flushband(&rt, (0, 1), Flush::All, Ok(()));
    bench.testb(&rt, false);
    bench.assert_band(&rt, (1, 1), 2, (false, false));
    bench.flushq(&rt, 1, Flush::All, Ok(()));
    bench.assert_all_free(&rt);
    bench.put_new(&rt, 0, message(MsgType::MData, 0));
    bench.testb(&rt, false);
}

// A flush frees messages front to back, and the blocks of a message from the first on. The block that was freed last is taken
// first.
#[test]
fn frees_front_to_back(rt: HostRuntime) {
    let mut bench = chained(&rt, rt.alloc());
    let held = bench.drafted(&rt, of_band(3, 1));
    // This frees blocks 1 and 2, which are one message, and block 3. Block 4 is held; those from 5 on were free before.
    bench.flushband(&rt, (3, 3), Flush::All, Ok(()));
    bench.assert_heads(&rt, 3, &[0]);
    bench.put_new(&rt, 4, of_band(0, 0));
    bench.put_new(&rt, 4, of_band(0, 0));
    bench.put_new(&rt, 4, of_band(0, 0));
    bench.put_new(&rt, 4, of_band(0, 0));
    bench.put_new(&rt, 4, of_band(0, 0));
    bench.put_new(&rt, 4, of_band(0, 0));
    bench.assert_heads(&rt, 4, &[3, 2, 1, 5, 6, 7]);
    bench.free(held);
}

// The bytes of a high priority message count for band 0. A flush of band 0 takes that message, but no message of another band
// that has a later block of band 0.
#[test]
fn high_priority_is_of_band_0(rt: HostRuntime) {
    let mut bench = chained(&rt, rt.alloc());
    let urgent = Draft {
        kind: MsgType::MPcproto,
        ..of_band(3, 1)
    };
    bench.put_new(&rt, 3, urgent);
    bench.assert_heads(&rt, 3, &[4, 0, 1, 3]);
    bench.assert_band(&rt, (3, 0), 1, (false, false));
    bench.assert_band(&rt, (3, 3), 15, (true, false));
    // The second block of message 1 is of band 0.
    bench.flushband(&rt, (3, 0), Flush::All, Ok(()));
    bench.assert_heads(&rt, 3, &[0, 1, 3]);
}
