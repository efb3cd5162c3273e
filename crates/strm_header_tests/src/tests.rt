use arrayvec::ArrayVec;
use std::alloc::Global;
use std::process::Abort;
use strm_header::{HeaderFault, Outcome, age_header, hop};
use strm_pool::{ClassSpec, ClassSpecs, Config, NewFault, Pool, QueueSpec, QueueSpecs, Token};

// Opens a pool with one queue.
fn opened(alloc: Global) -> Result<Pool, NewFault> {
    let mut classes = ArrayVec::new();
    classes.push(ClassSpec { size: 64, count: 8 });
    let mut queues = ArrayVec::new();
    queues.push(QueueSpec {
        hiwat: 100,
        lowat: 50,
        service: false,
        next: None,
    });
    let config = Config {
        id: 1,
        mblks: 8,
        classes: ClassSpecs::of(classes),
        queues: QueueSpecs::of(queues),
        bufcalls: 0,
        first_id: 1,
    };
    Pool::new(alloc, config)
}

// The census is this: free, queued and held message blocks.
fn assert_census(rt: &impl Abort, pool: &Pool, wanted: (u32, u32, u32)) {
    let census = pool.census();
    assert!(rt; (census.free, census.queued, census.held) == wanted);
}

// A header of a packet with 115 bytes, and with time to live 64. Its checksum is B861.
const HEADER: [u8; 20] = [
    0x45, 0x00, 0x00, 0x73, 0x00, 0x00, 0x40, 0x00, 0x40, 0x11, 0xB8, 0x61, 0xC0, 0xA8, 0x00, 0x01,
    0xC0, 0xA8, 0x00, 0xC7,
];

// The same one hop later.
const LATER: [u8; 20] = [
    0x45, 0x00, 0x00, 0x73, 0x00, 0x00, 0x40, 0x00, 0x3F, 0x11, 0xB9, 0x61, 0xC0, 0xA8, 0x00, 0x01,
    0xC0, 0xA8, 0x00, 0xC7,
];

// The same with time to live 1, and with 0.
const LAST: [u8; 20] = [
    0x45, 0x00, 0x00, 0x73, 0x00, 0x00, 0x40, 0x00, 0x01, 0x11, 0xF7, 0x61, 0xC0, 0xA8, 0x00, 0x01,
    0xC0, 0xA8, 0x00, 0xC7,
];

const PAST: [u8; 20] = [
    0x45, 0x00, 0x00, 0x73, 0x00, 0x00, 0x40, 0x00, 0x00, 0x11, 0xF8, 0x61, 0xC0, 0xA8, 0x00, 0x01,
    0xC0, 0xA8, 0x00, 0xC7,
];

// A sum in one's complement: the carry is added at the low end.
fn plus(sum: u16, word: u16) -> u16 {
    let (sum, carries) = sum.overflowing_add(word);
    sum.wrapping_add(u16::from(carries))
}

// The checksum of a header, computed from its other words.
fn checksum_anew(header: &[u8; 20]) -> u16 {
    let mut sum = 0;
    for word in 0..10 {
        if word != 5 {
            sum = plus(
                sum,
                u16::from_be_bytes([header[2 * word], header[2 * word + 1]]),
            );
        }
    }
    !sum
}

// The header with another identification and time to live, and the checksum for them.
fn header(identification: u8, time: u8) -> [u8; 20] {
    let mut header = HEADER;
    header[5] = identification;
    header[8] = time;
    let [high, low] = checksum_anew(&header).to_be_bytes();
    header[10] = high;
    header[11] = low;
    header
}

// What came of a hop.
#[derive(Clone, Copy, PartialEq, Eq)]
enum End {
    GoesOn,
    Dropped(HeaderFault),
    Refused,
}

// A message of one block with these bytes.
fn message(rt: &impl Abort, pool: &mut Pool, bytes: &[u8]) -> Token {
    let Ok(token) = pool.allocb(64) else {
        panic!(rt; "no message")
    };
    if let Err(_) = pool.write(&token, 0, bytes) {
        pool.freemsg(token);
        panic!(rt; "no room")
    }
    token
}

// The bytes at the front of these are no right header, for this reason, and stay.
fn assert_wrong(rt: &impl Abort, bytes: &[u8; 20], count: usize, wanted: HeaderFault) {
    let mut own = *bytes;
    let count = count.min(20);
    assert!(rt; age_header(&mut own[..count]) == Err(wanted));
    assert!(rt; own == *bytes);
}

// Has a message make a hop. Says what came of it, and returns the message unless it was dropped.
fn hopped(rt: &impl Abort, pool: &mut Pool, token: Token) -> (End, Option<Token>) {
    assert!(rt; pool.has(&token));
    match hop(pool, token) {
        Outcome::GoesOn(token) => (End::GoesOn, Some(token)),
        Outcome::Dropped(why) => (End::Dropped(why), None),
        Outcome::Refused(token) => (End::Refused, Some(token)),
    }
}

// The message has these bytes. It is freed.
fn assert_bytes(rt: &impl Abort, pool: &mut Pool, token: Token, wanted: &[u8]) {
    assert!(rt; pool.has(&token));
    let mut bytes = [0; 64];
    let count = pool.read(&token, 0, &mut bytes);
    assert!(rt; &bytes[..count.min(64)] == wanted);
    pool.freemsg(token);
}

// This comes of a message's hop. Unless it is dropped, the message has these bytes then, and is freed.
fn assert_hop(rt: &impl Abort, pool: &mut Pool, token: Token, end: End, wanted: &[u8]) {
    let (found, left) = hopped(rt, pool, token);
    assert!(rt; found == end);
    if let Some(token) = left {
        assert_bytes(rt, pool, token, wanted);
    }
}

// A message with the same data block, and one with a copy of it.
fn twins(rt: &impl Abort, pool: &mut Pool, token: &Token) -> (Token, Token) {
    assert!(rt; pool.has(token));
    let Ok(duplicate) = pool.dupmsg(token) else {
        panic!(rt; "no duplicate")
    };
    let Ok(copy) = pool.copymsg(token) else {
        panic!(rt; "no copy")
    };
    (duplicate, copy)
}

#[test]
fn corrects_each_checksum(rt: HostRuntime) {
    for identification in 0..=255 {
        for time in 2..=255 {
            let mut bytes = header(identification, time);
            assert!(rt; age_header(&mut bytes) == Ok(()));
            assert!(rt; bytes == header(identification, time - 1));
        }
    }
}

#[test]
fn tells_what_is_wrong(rt: HostRuntime) {
    assert_wrong(&rt, &HEADER, 0, HeaderFault::TooShort);
    assert_wrong(&rt, &HEADER, 19, HeaderFault::TooShort);
    for form in [0x00, 0x44, 0x46, 0x55, 0x65] {
        let mut bytes = HEADER;
        bytes[0] = form;
        assert_wrong(&rt, &bytes, 20, HeaderFault::WrongForm);
    }
    for at in 1..20 {
        let mut bytes = HEADER;
        bytes[at] ^= 1;
        assert_wrong(&rt, &bytes, 20, HeaderFault::WrongChecksum);
    }
    assert_wrong(&rt, &LAST, 20, HeaderFault::Expired);
    assert_wrong(&rt, &PAST, 20, HeaderFault::Expired);
}

// A message with bytes after its header makes a hop.
fn assert_hops(rt: &impl Abort, pool: &mut Pool) {
    let mut bytes = [0; 24];
    bytes[..20].copy_from_slice(&HEADER);
    bytes[20..].copy_from_slice(b"data");
    let token = message(rt, pool, &bytes);
    bytes[..20].copy_from_slice(&LATER);
    assert_hop(rt, pool, token, End::GoesOn, &bytes);
    assert_census(rt, pool, (8, 0, 0));
}

// A message of these bytes is dropped, for this reason.
fn assert_dropped(rt: &impl Abort, pool: &mut Pool, bytes: &[u8], why: HeaderFault) {
    let token = message(rt, pool, bytes);
    assert_hop(rt, pool, token, End::Dropped(why), &[]);
    assert_census(rt, pool, (8, 0, 0));
}

// While two messages share the bytes, neither makes the hop. A copy does, and so does the last message that has them.
fn assert_shared(rt: &impl Abort, pool: &mut Pool) {
    let token = message(rt, pool, &HEADER);
    let (duplicate, copy) = twins(rt, pool, &token);
    assert_hop(rt, pool, copy, End::GoesOn, &LATER);
    assert_hop(rt, pool, token, End::Refused, &HEADER);
    assert_hop(rt, pool, duplicate, End::GoesOn, &LATER);
    assert_census(rt, pool, (8, 0, 0));
}

#[test]
fn makes_a_hop(rt: HostRuntime) {
    let mut pool = opened(rt.alloc()).expect(&rt, "a pool");
    assert_hops(&rt, &mut pool);
}

#[test]
fn drops_wrong_messages(rt: HostRuntime) {
    let mut pool = opened(rt.alloc()).expect(&rt, "a pool");
    assert_dropped(&rt, &mut pool, b"short", HeaderFault::TooShort);
    assert_dropped(&rt, &mut pool, &LAST, HeaderFault::Expired);
}

#[test]
fn refuses_shared_bytes(rt: HostRuntime) {
    let mut pool = opened(rt.alloc()).expect(&rt, "a pool");
    assert_shared(&rt, &mut pool);
}
