//! The line of each kind of reply, and reports of pools.
use arrayvec::ArrayVec;
use std::process::Abort;
use strm_pool::{BlockInfo, Census, MsgType, Octets, Pool, Refusal, Regs, Reply};
use strm_script::{MOST_SCRIPT_BYTES, Script, parse, reply_text, report_text};

const CENSUS: Census = Census {
    free: 5000,
    queued: 0,
    held: 12,
};

// After a line is appended for each of these, the text is this one.
fn expect(rt: &impl Abort, mut text: Vec<u8>, rows: &[(u8, u32, Reply)], wanted: &[u8]) {
    for (worker, line, reply) in rows {
        reply_text(&mut text, *worker, *line, reply).expect(rt, "memory");
    }
    assert_eq!(rt; text.as_slice(), wanted);
}

#[test]
fn writes_a_line_for_each_reply(rt: HostRuntime) {
    let rows = [
        (0, 7, Reply::Done),
        (0, 8, Reply::Nothing),
        (15, 1_048_599, Reply::Empty),
        (255, u32::MAX, Reply::Taken),
        (1, 10, Reply::Census(CENSUS)),
        (0, 11, Reply::Refused(Refusal::BadShared)),
        (0, 12, Reply::Refused(Refusal::NoMblk)),
    ];
    let wanted =
        b"0:7 ok\n0:8 none\n15:1048599 empty\n255:4294967295 taken\n1:10 census 5000 0 12\n0:11 refused 21 BadShared\n0:12 refused 2 NoMblk\n";
    expect(&rt, Vec::new(rt.alloc()), &rows, wanted);
}

#[test]
fn writes_what_a_call_answers(rt: HostRuntime) {
    let mut bytes = ArrayVec::new();
    assert!(rt;
        bytes
            .try_extend_from_slice(&[0, 9, 10, 15, 16, 159, 160, 255])
            .is_ok()
    );
    let info = BlockInfo {
        kind: MsgType::MPcproto,
        len: 5000,
        band: 255,
        room: 0,
        names: 12,
    };
    let rows = [
        (0, 7, Reply::Yes),
        (0, 8, Reply::No),
        (0, 9, Reply::Size(u32::MAX)),
        (0, 10, Reply::Size(0)),
        (0, 11, Reply::Bytes(Octets::of(bytes))),
        (0, 12, Reply::Bytes(Octets::of(ArrayVec::new()))),
        (0, 13, Reply::Block(info)),
        (0, 14, Reply::Queue(0)),
        (0, 15, Reply::Queue(255)),
        (0, 16, Reply::Id(u32::MAX)),
        (0, 17, Reply::Ready(1, 0)),
        (0, 18, Reply::Marks(u32::MAX, 0)),
        (0, 19, Reply::Refused(Refusal::BadMarks)),
    ];
    let wanted =
        b"0:7 yes\n0:8 no\n0:9 size 4294967295\n0:10 size 0\n0:11 bytes 00090a0f109fa0ff\n0:12 bytes -\n0:13 block M_PCPROTO len=5000 band=255 room=0 names=12\n0:14 queue 0\n0:15 queue 255\n0:16 id 4294967295\n0:17 ready 1 0\n0:18 marks 4294967295 0\n0:19 refused 20 BadMarks\n";
    expect(&rt, Vec::new(rt.alloc()), &rows, wanted);
}

#[test]
fn leaves_what_stood_there_in_front(rt: HostRuntime) {
    let text = Vec::from_slice(rt.alloc(), b"before\n").expect(&rt, "memory");
    expect(&rt, text, &[(3, 9, Reply::Done)], b"before\n3:9 ok\n");
}

// Queue 0 has five messages: of bands 255, 1, 7 and 0, of which the one of band 7 is empty, and a high priority one. A message
// was put on the last queue and taken off.
const QUEUED: &str =
    "pool 1 16\nclass 16 8\nclass 64 4\nqueue 10 4 s 1\nqueue 20 5 n -\nqueue 8 2 s -\nbufcalls 2 1\n\
    worker\nallocb a 10\nwrite a 0 00010203040506070809\nputq 0 a\nallocb a 3\nwrite a 0 616263\nsettype a 0 M_PCPROTO\n\
    setband a 9\nputq 0 a\nallocb a 4\nwrite a 0 00010203\nsetband a 1\nputq 0 a\nallocb a 12\n\
    write a 0 000102030405060708090a0b\nsetband a 255\nputq 0 a\nallocb a 1\nsetband a 7\nputq 0 a\n\
    allocb a 2\nputq 2 a\ngetq 2 a\n";

// Opens the pool of a script, and makes the script's calls; returns the pool and its registers.
fn served(rt: &(impl Abort + AllocGlobal), script: &str) -> (Pool, Regs) {
    assert!(rt; script.len() <= MOST_SCRIPT_BYTES as usize);
    let Script { config, parts } = parse(rt.alloc(), script.as_bytes()).expect(rt, "a script");
    let lines = parts.items().first().expect(rt, "a section");
    let mut pool = Pool::new(rt.alloc(), config).expect(rt, "a pool");
    let mut regs = Regs::new();
    for line in lines.items() {
        assert!(rt; pool.owns(&regs));
        let reply = pool.apply(&mut regs, &line.call);
        assert!(rt; reply == Reply::Done, "{reply:?}");
    }
    (pool, regs)
}

// A line of a transcript, followed by the report of a pool, whose registers are then drained.
fn report_of(rt: &(impl Abort + AllocGlobal), mut pool: Pool, regs: Regs) -> Vec<u8> {
    let mut text = Vec::new(rt.alloc());
    reply_text(&mut text, 0, 7, &Reply::Done).expect(rt, "memory");
    report_text(&mut text, &pool).expect(rt, "memory");
    pool.drain(regs);
    text
}

#[test]
fn reports_queues_bands_with_bytes_and_wishes(rt: HostRuntime) {
    let (mut pool, regs) = served(&rt, QUEUED);
    assert!(rt; pool.bcanput(0, 255) == Ok(false));
    assert!(rt; pool.noenable(2) == Ok(()));
    assert!(rt; pool.bufcall(64) == Ok(1) && pool.bufcall(0) == Ok(2));
    let text = report_of(&rt, pool, regs);
    assert_eq!(rt;
        text.as_slice(),
        b"0:7 ok\nblocks free=10 queued=5 held=1 total=16\ndata size=16 free=2 total=8\ndata size=64 free=4 total=4\n\
        queue 0 msgs=5 bytes=29 read=1 noenable=0 enabled=1\nband 255 bytes=12 full=1 wanted=1\n\
        band 1 bytes=4 full=0 wanted=0\nband 0 bytes=13 full=1 wanted=0\n\
        queue 1 msgs=0 bytes=0 read=1 noenable=0 enabled=0\nqueue 2 msgs=0 bytes=0 read=0 noenable=1 enabled=1\nrun 0 2\nwishes 1:64 2:0\n"
            .as_slice()
    );
}

#[test]
fn reports_an_empty_run_list_and_no_wishes(rt: HostRuntime) {
    let (pool, regs) = served(
        &rt,
        "pool 1 2\nclass 4 1\nqueue 1 0 s -\nbufcalls 0 1\nworker\n",
    );
    let text = report_of(&rt, pool, regs);
    assert_eq!(rt;
        text.as_slice(),
        b"0:7 ok\nblocks free=2 queued=0 held=0 total=2\ndata size=4 free=1 total=1\n\
        queue 0 msgs=0 bytes=0 read=1 noenable=0 enabled=0\nrun -\nwishes -\n"
            .as_slice()
    );
}

#[test]
fn reports_wide_numbers(rt: HostRuntime) {
    let (pool, regs) = served(
        &rt,
        "pool 1 16383\nclass 16 9000\nclass 64 7383\nqueue 4294967295 0 n -\nbufcalls 0 1\nworker\n\
        allocb a 1\nallocb b 64\n",
    );
    let text = report_of(&rt, pool, regs);
    assert_eq!(rt;
        text.as_slice(),
        b"0:7 ok\nblocks free=16381 queued=0 held=2 total=16383\ndata size=16 free=8999 total=9000\n\
        data size=64 free=7382 total=7383\nqueue 0 msgs=0 bytes=0 read=1 noenable=0 enabled=0\nrun -\nwishes -\n"
            .as_slice()
    );
}
