use std::process::Abort;
use strm_data::{
    MOST_CLASSES, MOST_DATA_BLOCK_BYTES, MOST_DATA_BLOCKS, MOST_REFERENCES, MsgType, Refusal,
};

// Asserts a refusal's number and name.
fn assert_refusal(rt: &impl Abort, refusal: Refusal, number: u8, name: &str) {
    assert!(rt; refusal.number() == number);
    assert!(rt; refusal.name() == name);
}

// Asserts a type's name, and whether it has high priority.
fn assert_type(rt: &impl Abort, kind: MsgType, name: &str, high: bool) {
    assert!(rt; kind.name() == name);
    assert!(rt; kind.is_high_priority() == high);
}

#[test]
fn limits_have_their_numbers(rt: HostRuntime) {
    assert!(rt; MOST_CLASSES == 8 && MOST_DATA_BLOCK_BYTES == 4096);
    assert!(rt; MOST_DATA_BLOCKS == 16_383 && MOST_REFERENCES == 255);
}

#[test]
fn refusals_have_their_numbers(rt: HostRuntime) {
    for (refusal, number, name) in [
        (Refusal::TooLarge, 1, "TooLarge"),
        (Refusal::NoMblk, 2, "NoMblk"),
        (Refusal::NoData, 3, "NoData"),
        (Refusal::RefMax, 4, "RefMax"),
        (Refusal::NoSuchBlock, 5, "NoSuchBlock"),
        (Refusal::Shared, 6, "Shared"),
        (Refusal::NoRoom, 7, "NoRoom"),
        (Refusal::Short, 8, "Short"),
        (Refusal::NoSuchPlace, 9, "NoSuchPlace"),
        (Refusal::BadOrder, 10, "BadOrder"),
        (Refusal::NoSuchQueue, 11, "NoSuchQueue"),
        (Refusal::Full, 12, "Full"),
        (Refusal::IdsSpent, 13, "IdsSpent"),
        (Refusal::NotPending, 14, "NotPending"),
        (Refusal::Stranger, 16, "Stranger"),
        (Refusal::TraceFull, 17, "TraceFull"),
        (Refusal::Worn, 18, "Worn"),
        (Refusal::DeskMissing, 19, "DeskMissing"),
        (Refusal::BadMarks, 20, "BadMarks"),
        (Refusal::BadShared, 21, "BadShared"),
    ] {
        assert_refusal(&rt, refusal, number, name);
    }
}

#[test]
fn types_have_their_names(rt: HostRuntime) {
    let mut place = 0usize;
    for (kind, name, high) in [
        (MsgType::MData, "M_DATA", false),
        (MsgType::MProto, "M_PROTO", false),
        (MsgType::MBreak, "M_BREAK", false),
        (MsgType::MPassfp, "M_PASSFP", false),
        (MsgType::MSig, "M_SIG", false),
        (MsgType::MDelay, "M_DELAY", false),
        (MsgType::MCtl, "M_CTL", false),
        (MsgType::MIoctl, "M_IOCTL", false),
        (MsgType::MSetopts, "M_SETOPTS", false),
        (MsgType::MIocack, "M_IOCACK", true),
        (MsgType::MIocnak, "M_IOCNAK", true),
        (MsgType::MPcproto, "M_PCPROTO", true),
        (MsgType::MPcsig, "M_PCSIG", true),
        (MsgType::MRead, "M_READ", true),
        (MsgType::MFlush, "M_FLUSH", true),
        (MsgType::MStop, "M_STOP", true),
        (MsgType::MStart, "M_START", true),
        (MsgType::MHangup, "M_HANGUP", true),
        (MsgType::MError, "M_ERROR", true),
        (MsgType::MCopyin, "M_COPYIN", true),
        (MsgType::MCopyout, "M_COPYOUT", true),
        (MsgType::MIocdata, "M_IOCDATA", true),
    ] {
        assert_type(&rt, kind, name, high);
        assert!(rt; MsgType::all().get(place).copied() == Some(kind));
        place = place.wrapping_add(1);
    }
    assert!(rt; MsgType::all().len() == place);
}
