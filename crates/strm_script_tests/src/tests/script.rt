//! Scripts that are read, and the first faults of scripts that are not, worked out by hand.
use std::process::Abort;
use strm_pool::{ClassSpec, QueueSpec};
use strm_script::{Fault, Kind, MOST_SCRIPT_BYTES, ParseFault, parse};

// Five lines, after which command lines are allowed.
const OPEN: &str = "pool 1 4\nclass 8 2\nqueue 2 1 s -\nbufcalls 1 1\nworker\n";

// Two lines, after which a queue line is allowed.
const CLASSES: &str = "pool 1 4\nclass 8 2\n";

// Three lines, after which the bufcalls line is allowed.
const QUEUES: &str = "pool 1 4\nclass 8 2\nqueue 2 1 s -\n";

fn class(size: u32, count: u32) -> ClassSpec {
    ClassSpec { size, count }
}

fn queue(hiwat: u32, lowat: u32, service: bool, next: Option<u8>) -> QueueSpec {
    QueueSpec {
        hiwat,
        lowat,
        service,
        next,
    }
}

// The first fault of the text `start` and `end` is this one.
fn expect(rt: &(impl Abort + AllocGlobal), start: &str, end: &str, line: u32, kind: Kind) {
    let text = format!(in rt.alloc(); "{start}{end}").expect(rt, "memory");
    assert!(rt; text.len() <= MOST_SCRIPT_BYTES as usize);
    let found = parse(rt.alloc(), text.as_bytes()).err();
    assert_eq!(rt;
        found,
        Some(ParseFault::Script(Fault { line, kind })),
        "of {text:?}"
    );
}

#[test]
fn reads_a_configuration(rt: HostRuntime) {
    let text = b"# a pool\npool 7 20\nclass 64 4\nclass 4096 2\n\nqueue 100 50 s 1\nqueue 9 0 n -\n\
        bufcalls 3 4294967295\nworker\n";
    let script = parse(rt.alloc(), text).expect(&rt, "a script");
    let config = &script.config;
    assert_eq!(rt;
        (config.id, config.mblks, config.bufcalls, config.first_id),
        (7, 20, 3, u32::MAX)
    );
    assert_eq!(rt;
        config.classes.items(),
        [class(64, 4), class(4096, 2)].as_slice()
    );
    assert_eq!(rt;
        config.queues.items(),
        [queue(100, 50, true, Some(1)), queue(9, 0, false, None)].as_slice()
    );
    let [lines] = script.parts.items() else {
        panic!(rt; "not one section")
    };
    assert!(rt; lines.items().is_empty());
}

// The calls of these command lines, each written on its own line.
fn expect_calls(rt: &(impl Abort + AllocGlobal), commands: &str, calls: &[(u32, &str)]) {
    let text = format!(in rt.alloc(); "{OPEN}{commands}").expect(rt, "memory");
    assert!(rt; text.len() <= MOST_SCRIPT_BYTES as usize);
    let script = parse(rt.alloc(), text.as_bytes()).expect(rt, "a script");
    let [lines] = script.parts.items() else {
        panic!(rt; "not one section")
    };
    assert_eq!(rt; lines.items().len(), calls.len());
    for (line, (number, call)) in lines.items().iter().zip(calls) {
        assert_eq!(rt; line.number, *number);
        let found = format!(in rt.alloc(); "{:?}", line.call).expect(rt, "memory");
        assert_eq!(rt; found.as_str(), *call);
    }
}

#[test]
fn reads_commands(rt: HostRuntime) {
    let commands =
        "allocb a 10\nwrite b 0 68656aff\n# more\n\nputq 0 a\ngetq 255 z\nfreemsg c\ncensus\n\
        write d 4294967295 -\n";
    let write = "Write(Reg { place: 1 }, 0, ShortList { array: [104, 101, 106, 255] })";
    let write_nothing = "Write(Reg { place: 3 }, 4294967295, ShortList { array: [] })";
    let calls = [
        (6, "Allocb(Reg { place: 0 }, 10)"),
        (7, write),
        (10, "Putq(0, Reg { place: 0 })"),
        (11, "Getq(255, Reg { place: 25 })"),
        (12, "Freemsg(Reg { place: 2 })"),
        (13, "Census"),
        (14, write_nothing),
    ];
    expect_calls(&rt, commands, &calls);
}

#[test]
fn reads_calls_on_blocks(rt: HostRuntime) {
    let commands =
        "testb 0\ndupb a b\ndupmsg b c\ncopyb c d\ncopymsg d e\nsettype f 1 M_DATA\nsettype g 2 M_IOCDATA\n\
        setband h 255\nlinkb i j\nunlinkb j k\nrmvb k 3 l\nadjmsg l -2147483648\nadjmsg m 2147483647\n\
        pullupmsg n -1\npullupmsg o 0\nmsgdsize p\nsize q\nread r 4\nblock s 5\nfreeb t\n";
    let calls = [
        (6, "Testb(0)"),
        (7, "Dupb(Reg { place: 0 }, Reg { place: 1 })"),
        (8, "Dupmsg(Reg { place: 1 }, Reg { place: 2 })"),
        (9, "Copyb(Reg { place: 2 }, Reg { place: 3 })"),
        (10, "Copymsg(Reg { place: 3 }, Reg { place: 4 })"),
        (11, "Settype(Reg { place: 5 }, 1, MData)"),
        (12, "Settype(Reg { place: 6 }, 2, MIocdata)"),
        (13, "Setband(Reg { place: 7 }, 255)"),
        (14, "Linkb(Reg { place: 8 }, Reg { place: 9 })"),
        (15, "Unlinkb(Reg { place: 9 }, Reg { place: 10 })"),
        (16, "Rmvb(Reg { place: 10 }, 3, Reg { place: 11 })"),
        (17, "Adjmsg(Reg { place: 11 }, -2147483648)"),
        (18, "Adjmsg(Reg { place: 12 }, 2147483647)"),
        (19, "Pullupmsg(Reg { place: 13 }, -1)"),
        (20, "Pullupmsg(Reg { place: 14 }, 0)"),
        (21, "Msgdsize(Reg { place: 15 })"),
        (22, "Size(Reg { place: 16 })"),
        (23, "Read(Reg { place: 17 }, 4)"),
        (24, "Block(Reg { place: 18 }, 5)"),
        (25, "Freeb(Reg { place: 19 })"),
    ];
    expect_calls(&rt, commands, &calls);
}

#[test]
fn reads_calls_on_queues(rt: HostRuntime) {
    let calls = [
        (6, "Putbq(1, Reg { place: 0 })"),
        (7, "Insq(2, 4294967295, Reg { place: 1 })"),
        (8, "Rmvq(3, 7, Reg { place: 2 })"),
        (9, "Qsize(4)"),
        (10, "Flushq(5, All)"),
        (11, "Flushband(6, 255, Data)"),
        (12, "Bcanput(7, 8)"),
        (13, "Qenable(9)"),
        (14, "Noenable(10)"),
        (15, "Enableok(255)"),
        (16, "Service"),
        (17, "Bufcall(0)"),
        (18, "Unbufcall(4294967295)"),
        (19, "Ready"),
        (20, "Strqset(8, 255, 4294967295, 0)"),
        (21, "Strqget(9, 7)"),
    ];
    let commands =
        "putbq 1 a\ninsq 2 4294967295 b\nrmvq 3 7 c\nqsize 4\nflushq 5 all\nflushband 6 255 data\n\
        bcanput 7 8\nqenable 9\nnoenable 10\nenableok 255\nservice\n\
        bufcall 0\nunbufcall 4294967295\nready\n\
        strqset 8 255 4294967295 0\nstrqget 9 7\n";
    expect_calls(&rt, commands, &calls);
}

#[test]
fn tells_why_a_script_was_not_read(rt: HostRuntime) {
    let found = Fault {
        line: 7,
        kind: Kind::Toomany,
    };
    let text = format!(in rt.alloc(); "{}", ParseFault::Script(found)).expect(&rt, "memory");
    assert_eq!(rt; text.as_str(), "line 7: toomany");
    let text = format!(in rt.alloc(); "{}", ParseFault::Memory).expect(&rt, "memory");
    assert_eq!(rt; text.as_str(), "memory");
}

#[test]
fn reads_sections(rt: HostRuntime) {
    let text = format!(in rt.alloc();
        "{OPEN}allocb a 1\nworker\n# x\nworker\n\ncensus\nfreemsg a\n"
    ).expect(&rt, "memory");
    assert!(rt; text.len() <= MOST_SCRIPT_BYTES as usize);
    let wanted = [[6].as_slice(), &[], &[11, 12]];
    let script = parse(rt.alloc(), text.as_bytes()).expect(&rt, "a script");
    let parts = script.parts.into_vec();
    assert_eq!(rt; parts.len(), wanted.len());
    for (lines, numbers) in parts.into_iter().zip(wanted) {
        let mut found = Vec::new(rt.alloc());
        for line in lines.into_vec() {
            found.push(line.number).expect(&rt, "memory");
        }
        assert_eq!(rt; found.as_slice(), numbers);
    }
}

#[test]
fn finds_the_first_fault(rt: HostRuntime) {
    let faults = [
        ("", "pool 1 4", 1, Kind::Cut),
        ("", "# x", 1, Kind::Cut),
        (OPEN, "census", 6, Kind::Cut),
        (OPEN, "\n#\nx y", 8, Kind::Cut),
        (OPEN, "x\ncensus", 6, Kind::Unknown),
        ("", "Pool 1 4\n", 1, Kind::Unknown),
        ("", "pools 1 4\n", 1, Kind::Unknown),
        (OPEN, "dup a b\n", 6, Kind::Unknown),
        (OPEN, "dupmsgs a b\n", 6, Kind::Unknown),
        ("", " pool 1 4\n", 1, Kind::Unknown),
        ("", "pool\t1 4\n", 1, Kind::Unknown),
        ("", " \n", 1, Kind::Unknown),
        ("", " # x\n", 1, Kind::Unknown),
        (OPEN, "census\r\n", 6, Kind::Unknown),
        ("", "class\n", 1, Kind::Order),
        ("", "worker\n", 1, Kind::Order),
        ("", "census\n", 1, Kind::Order),
        ("", "rmvq x\n", 1, Kind::Order),
        ("", "pool 1 4\npool 1 4\n", 2, Kind::Order),
        ("", "pool 1 4\nqueue 2 1 s -\n", 2, Kind::Order),
        (CLASSES, "bufcalls 1 1\n", 3, Kind::Order),
        (QUEUES, "class 9 1\n", 4, Kind::Order),
        (QUEUES, "worker\n", 4, Kind::Order),
        (QUEUES, "bufcalls 1 1\nbufcalls 1 1\n", 5, Kind::Order),
        (QUEUES, "bufcalls 1 1\nqueue 2 1 s -\n", 5, Kind::Order),
        (QUEUES, "bufcalls 1 1\ncensus\n", 5, Kind::Order),
        (OPEN, "bufcalls 1 1\n", 6, Kind::Order),
        (OPEN, "pool\n", 6, Kind::Order),
        (OPEN, "class 16 4\n", 6, Kind::Order),
        (OPEN, "worker\npool 1 4\n", 7, Kind::Order),
        (OPEN, "census\nworker\n\n# x\ncensuses\n", 10, Kind::Unknown),
        ("", "", 1, Kind::Missing),
        ("", "\n# x\n", 3, Kind::Missing),
        (CLASSES, "\n\n# x\n", 6, Kind::Missing),
    ];
    for (start, end, line, kind) in faults {
        expect(&rt, start, end, line, kind);
    }
}

#[test]
fn finds_the_first_fault_of_a_form(rt: HostRuntime) {
    let faults = [
        ("", "pool 1\n", 1, Kind::Shape),
        ("", "pool x y z\n", 1, Kind::Shape),
        (OPEN, "census \n", 6, Kind::Shape),
        (OPEN, "allocb  a 4\n", 6, Kind::Shape),
        (OPEN, "write a 0 00 1 2 3 4 5\n", 6, Kind::Shape),
        (OPEN, "testb\n", 6, Kind::Shape),
        (OPEN, "worker x\n", 6, Kind::Shape),
        (OPEN, "qsize 0 0\n", 6, Kind::Shape),
        (OPEN, "rmvb a 0\n", 6, Kind::Shape),
        (OPEN, "settype A x\n", 6, Kind::Shape),
        ("", "pool  4\n", 1, Kind::Number),
        ("", "pool 01 4\n", 1, Kind::Number),
        ("", "pool 00 4\n", 1, Kind::Number),
        ("", "pool - 4\n", 1, Kind::Number),
        ("", "pool 4294967296 4\n", 1, Kind::Number),
        ("", "pool 1 99999999999999999999999999\n", 1, Kind::Number),
        (CLASSES, "queue 2 1 s 256\n", 3, Kind::Number),
        (CLASSES, "queue 2 x x x\n", 3, Kind::Number),
        (OPEN, "allocb a \n", 6, Kind::Number),
        (OPEN, "allocb a 01\n", 6, Kind::Number),
        (OPEN, "putq 256 A\n", 6, Kind::Number),
        (OPEN, "write a x 0\n", 6, Kind::Number),
        (OPEN, "adjmsg a -\n", 6, Kind::Number),
        (OPEN, "adjmsg a -0\n", 6, Kind::Number),
        (OPEN, "adjmsg a -01\n", 6, Kind::Number),
        (OPEN, "adjmsg a --1\n", 6, Kind::Number),
        (OPEN, "adjmsg a +1\n", 6, Kind::Number),
        (OPEN, "adjmsg a 2147483648\n", 6, Kind::Number),
        (OPEN, "pullupmsg a -2147483649\n", 6, Kind::Number),
        (OPEN, "allocb a -1\n", 6, Kind::Number),
        (OPEN, "setband a 256\n", 6, Kind::Number),
        (OPEN, "insq 0 x A\n", 6, Kind::Number),
        (OPEN, "settype a x M_NONE\n", 6, Kind::Number),
        (OPEN, "allocb A 4\n", 6, Kind::Register),
        (OPEN, "adjmsg A -\n", 6, Kind::Register),
        (OPEN, "dupb a A\n", 6, Kind::Register),
        (OPEN, "rmvb a 0 1\n", 6, Kind::Register),
        (OPEN, "freemsg ab\n", 6, Kind::Register),
        (OPEN, "freemsg \n", 6, Kind::Register),
        (OPEN, "getq 0 {\n", 6, Kind::Register),
        (OPEN, "write 1 x 0\n", 6, Kind::Register),
        (CLASSES, "queue 2 1 S x\n", 3, Kind::Word),
        (CLASSES, "queue 2 1  -\n", 3, Kind::Word),
        (OPEN, "settype a 0 M_NONE\n", 6, Kind::Word),
        (OPEN, "settype a 0 m_data\n", 6, Kind::Word),
        (OPEN, "settype a 0 M_DATA2\n", 6, Kind::Word),
        (OPEN, "settype a 0 M_\n", 6, Kind::Word),
        (OPEN, "settype a 0 \n", 6, Kind::Word),
        (OPEN, "write a 0 0\n", 6, Kind::Hex),
        (OPEN, "write a 0 0A\n", 6, Kind::Hex),
        (OPEN, "write a 0 --\n", 6, Kind::Hex),
        (OPEN, "write a 0 \n", 6, Kind::Hex),
    ];
    for (start, end, line, kind) in faults {
        expect(&rt, start, end, line, kind);
    }
}

#[test]
fn finds_the_first_fault_of_a_queue_or_a_wish(rt: HostRuntime) {
    let faults = [
        (OPEN, "flushq all\n", 6, Kind::Shape),
        (OPEN, "service 0\n", 6, Kind::Shape),
        (OPEN, "bufcall\n", 6, Kind::Shape),
        (OPEN, "ready \n", 6, Kind::Shape),
        (OPEN, "strqset 0 0 20\n", 6, Kind::Shape),
        (OPEN, "strqset 0 0 20 10 s\n", 6, Kind::Shape),
        (OPEN, "strqget 0\n", 6, Kind::Shape),
        (OPEN, "flushband 0 256 none\n", 6, Kind::Number),
        (OPEN, "bcanput 0 -1\n", 6, Kind::Number),
        (OPEN, "strqset 256 0 20 10\n", 6, Kind::Number),
        (OPEN, "strqset 0 256 20 10\n", 6, Kind::Number),
        (OPEN, "strqset 0 0 4294967296 10\n", 6, Kind::Number),
        (OPEN, "strqset 0 0 20 -1\n", 6, Kind::Number),
        (OPEN, "strqget 0 256\n", 6, Kind::Number),
        (OPEN, "unbufcall 4294967296\n", 6, Kind::Number),
        (OPEN, "flushq 0 All\n", 6, Kind::Word),
        (OPEN, "flushq 0 \n", 6, Kind::Word),
        (OPEN, "flushband 0 0 datas\n", 6, Kind::Word),
    ];
    for (start, end, line, kind) in faults {
        expect(&rt, start, end, line, kind);
    }
}

// A text after another, this number of times.
fn repeated(rt: &(impl Abort + AllocGlobal), start: &str, text: &str, times: u32) -> String {
    let mut all = String::from_str(rt.alloc(), start).expect(rt, "memory");
    for _ in 0..times {
        all.push_str(text).expect(rt, "memory");
    }
    all
}

#[test]
fn reads_as_many_as_there_may_be(rt: HostRuntime) {
    let classes = repeated(&rt, "pool 0 4294967295\n", "class 1 1\n", 8);
    expect(&rt, &classes, "class 1 1\n", 10, Kind::Toomany);
    let queues = repeated(&rt, &classes, "queue 2 1 n 255\n", 16);
    expect(&rt, &queues, "queue 2 1 n 255\n", 26, Kind::Toomany);
    let workers = repeated(&rt, OPEN, "worker\n", 15);
    expect(&rt, &workers, "worker x\n", 21, Kind::Toomany);
    let start = repeated(&rt, OPEN, "write a 0 ", 1);
    let write = repeated(&rt, &start, "0f", 64);
    expect(&rt, &write, "\n0", 7, Kind::Cut);
    expect(&rt, &write, "0\n", 6, Kind::Hex);
    expect(&rt, &write, "0f\n", 6, Kind::Hex);
}
