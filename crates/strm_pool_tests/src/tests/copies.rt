//! Copies of calls and replies outlive their originals. Random calls are copied in beside.rt.
use super::{octets, reg};
use std::process::Abort;
use strm_pool::{Call, MOST_OCTETS, Reply};

// The bytes 1, 2 and so on, the most that a call carries.
fn counted() -> [u8; MOST_OCTETS] {
    let mut bytes = [0; MOST_OCTETS];
    let mut count = 0u8;
    for byte in bytes.iter_mut() {
        count = count.wrapping_add(1);
        *byte = count;
    }
    bytes
}

// A copy of a call with these bytes; the original is dropped.
fn copied_call(rt: &impl Abort, bytes: &[u8]) -> Call {
    let call = Call::Write(reg(rt, b'z'), 4094, octets(rt, bytes));
    call.copy()
}

// A copy of a reply with these bytes; the original is dropped.
fn copied_reply(rt: &impl Abort, bytes: &[u8]) -> Reply {
    let reply = Reply::Bytes(octets(rt, bytes));
    reply.copy()
}

#[test]
fn copies_have_bytes_of_their_own(rt: HostRuntime) {
    let all = counted();
    for count in [0, 1, MOST_OCTETS] {
        let bytes = &all[..count];
        match copied_call(&rt, bytes) {
            Call::Write(reg, place, kept) => {
                assert!(rt; (reg.index(), place) == (25, 4094));
                assert!(rt; kept.items() == bytes);
            }
            _ => panic!(rt; "another call"),
        }
        assert!(rt; copied_reply(&rt, bytes) == Reply::Bytes(octets(&rt, bytes)));
    }
}
