//! The names and the texts of codes, and the version.
ghost use Rattle.std.specs.Prelude.{◌≡◌, length};
ghost use Rattle.strm_c.specs.Texts.{code_at, buffer_with_text, first_at, name_at, name_of, text_at, text_of, version};

use crate::code::Code;
use strm_pool::{Refusal, Which};

// All codes of strm.h but 0.
const CODES: [Code; 30] = [
    Code::Refused(Refusal::TooLarge),
    Code::Refused(Refusal::NoMblk),
    Code::Refused(Refusal::NoData),
    Code::Refused(Refusal::RefMax),
    Code::Refused(Refusal::NoSuchBlock),
    Code::Refused(Refusal::Shared),
    Code::Refused(Refusal::NoRoom),
    Code::Refused(Refusal::Short),
    Code::Refused(Refusal::NoSuchPlace),
    Code::Refused(Refusal::BadOrder),
    Code::Refused(Refusal::NoSuchQueue),
    Code::Refused(Refusal::Full),
    Code::Refused(Refusal::IdsSpent),
    Code::Refused(Refusal::NotPending),
    Code::Refused(Refusal::BadMarks),
    Code::Nothing,
    Code::Invalid,
    Code::NotOpen,
    Code::BadArgument,
    Code::IsOpen,
    Code::NoMemory,
    Code::BadConfig(Which::Mblks),
    Code::BadConfig(Which::Classes),
    Code::BadConfig(Which::ClassSize),
    Code::BadConfig(Which::ClassTotal),
    Code::BadConfig(Which::Queues),
    Code::BadConfig(Which::Marks),
    Code::BadConfig(Which::Next),
    Code::BadConfig(Which::Bufcalls),
    Code::BadConfig(Which::FirstId),
];

// The name of a code.
fn name_of(code: Code) -> &'static str
    ensures { result.now ≡ name_of code }
{
    match code {
        Code::Refused(Refusal::TooLarge) => "STRM_TOO_LARGE",
        Code::Refused(Refusal::NoMblk) => "STRM_NO_MBLK",
        Code::Refused(Refusal::NoData) => "STRM_NO_DATA",
        Code::Refused(Refusal::RefMax) => "STRM_REF_MAX",
        Code::Refused(Refusal::NoSuchBlock) => "STRM_NO_SUCH_BLOCK",
        Code::Refused(Refusal::Shared) => "STRM_SHARED",
        Code::Refused(Refusal::NoRoom) => "STRM_NO_ROOM",
        Code::Refused(Refusal::Short) => "STRM_SHORT",
        Code::Refused(Refusal::NoSuchPlace) => "STRM_NO_SUCH_PLACE",
        Code::Refused(Refusal::BadOrder) => "STRM_BAD_ORDER",
        Code::Refused(Refusal::NoSuchQueue) => "STRM_NO_SUCH_QUEUE",
        Code::Refused(Refusal::Full) => "STRM_FULL",
        Code::Refused(Refusal::IdsSpent) => "STRM_IDS_SPENT",
        Code::Refused(Refusal::NotPending) => "STRM_NOT_PENDING",
        Code::Refused(Refusal::BadMarks) => "STRM_BAD_MARKS",
        Code::Nothing => "STRM_NONE",
        Code::Invalid => "STRM_INVALID",
        Code::NotOpen => "STRM_NOT_OPEN",
        Code::BadArgument => "STRM_BAD_ARGUMENT",
        Code::IsOpen => "STRM_IS_OPEN",
        Code::NoMemory => "STRM_NO_MEMORY",
        Code::BadConfig(Which::Mblks) => "STRM_BAD_MBLKS",
        Code::BadConfig(Which::Classes) => "STRM_BAD_CLASSES",
        Code::BadConfig(Which::ClassSize) => "STRM_BAD_CLASS_SIZE",
        Code::BadConfig(Which::ClassTotal) => "STRM_BAD_CLASS_TOTAL",
        Code::BadConfig(Which::Queues) => "STRM_BAD_QUEUES",
        Code::BadConfig(Which::Marks) => "STRM_BAD_QUEUE_MARKS",
        Code::BadConfig(Which::Next) => "STRM_BAD_NEXT",
        Code::BadConfig(Which::Bufcalls) => "STRM_BAD_BUFCALLS",
        Code::BadConfig(Which::FirstId) => "STRM_BAD_FIRST_ID",
        Code::Refused(
            Refusal::Stranger
            | Refusal::TraceFull
            | Refusal::Worn
            | Refusal::DeskMissing
            | Refusal::BadShared,
        ) => "",
    }
}

// The text of a code.
fn text_of(code: Code) -> &'static str
    ensures { result.now ≡ text_of code }
{
    match code {
        Code::Refused(Refusal::TooLarge) => "the size is above the largest class",
        Code::Refused(Refusal::NoMblk) => "fewer message blocks are free than the call needs",
        Code::Refused(Refusal::NoData) => "no data block is free of a class that fits",
        Code::Refused(Refusal::RefMax) =>
            "more than 255 message blocks would refer to a data block",
        Code::Refused(Refusal::NoSuchBlock) => "the message has no such block",
        Code::Refused(Refusal::Shared) => "more than one message block refers to the data block",
        Code::Refused(Refusal::NoRoom) => "the bytes do not fit in the data block",
        Code::Refused(Refusal::Short) => "the message has too few bytes, or too few of one type",
        Code::Refused(Refusal::NoSuchPlace) => "the queue has no such place",
        Code::Refused(Refusal::BadOrder) => "the ranks would rise from front to back",
        Code::Refused(Refusal::NoSuchQueue) => "there is no such queue",
        Code::Refused(Refusal::Full) => "no more wishes can be recorded",
        Code::Refused(Refusal::IdsSpent) => "the last id was given",
        Code::Refused(Refusal::NotPending) => "no wish has this id",
        Code::Refused(Refusal::BadMarks) => "the low water mark is not below the high one",
        Code::Nothing => "done, and there is nothing to give",
        Code::Invalid => "a name is not valid",
        Code::NotOpen => "the handle is not open",
        Code::BadArgument => "a pointer is null, or a number is out of range",
        Code::IsOpen => "the handle is open already",
        Code::NoMemory => "there is not enough memory",
        Code::BadConfig(Which::Mblks) => "message blocks are not 1 to 16383",
        Code::BadConfig(Which::Classes) => "there is no size class",
        Code::BadConfig(Which::ClassSize) => "sizes do not rise, or are not 1 to 4096",
        Code::BadConfig(Which::ClassTotal) =>
            "a class has no data block, or all have more than 16383",
        Code::BadConfig(Which::Queues) => "there is no queue",
        Code::BadConfig(Which::Marks) => "a queue's low water mark is not below the high one",
        Code::BadConfig(Which::Next) =>
            "a next queue is not there, has no greater number, or is named twice",
        Code::BadConfig(Which::Bufcalls) => "there are more than 64 wishes",
        Code::BadConfig(Which::FirstId) => "the first id is 0",
        Code::Refused(
            Refusal::Stranger
            | Refusal::TraceFull
            | Refusal::Worn
            | Refusal::DeskMissing
            | Refusal::BadShared,
        ) => "no such code",
    }
}

// The first of these codes that has this number, if any.
fn first_at(codes: &[Code], number: i32) -> Option<Code>
    ensures { result ≡ first_at codes.now number }
{
    for code in codes {
        if code.number() == number {
            return Some(*code);
        }
    }
    None
}

// The code with this number, if any.
#[tactic(auto, unfolding(crate::specs::Texts::code_at))]
fn code_at(number: i32) -> Option<Code>
    ensures { result ≡ code_at number }
{
    first_at(&CODES, number)
}

// The name of the code with this number, or an empty text if there is none.
fn name_at(number: i32) -> &'static str
    ensures { result.now ≡ name_at number }
{
    if number == 0 {
        return "STRM_OK";
    }
    match code_at(number) {
        Some(code) => name_of(code),
        None => "",
    }
}

// The text of the code with this number.
fn text_at(number: i32) -> &'static str
    ensures { result.now ≡ text_at number }
{
    if number == 0 {
        return "done";
    }
    match code_at(number) {
        Some(code) => text_of(code),
        None => "no such code",
    }
}

// Copies as much of a text as fits, and returns the length of the whole text in bytes.
fn copy(text: &str, into: &mut [u8]) -> usize
    ensures length { result ≡ length text.now }
    ensures into { into.new ≡ buffer_with_text text.now into.old }
{
    let bytes = text.as_bytes();
    let count = bytes.len().min(into.len());
    into[..count].copy_from_slice(&bytes[..count]);
    bytes.len()
}

/// Copies as much of a code's text as fits, without a 0 at the end, and returns the length of the whole text in bytes.
#[unsafe(no_mangle)]
pub extern "C" fn strm_c_text(code: i32, text: &mut [u8]) -> usize
    ensures length { result ≡ length (text_at code) }
    ensures text { text.new ≡ buffer_with_text (text_at code) text.old }
{
    copy(text_at(code), text)
}

/// Copies a code's name as `strm_c_text` copies its text. The name is empty if no code has this number.
#[unsafe(no_mangle)]
pub extern "C" fn strm_c_name(code: i32, text: &mut [u8]) -> usize
    ensures length { result ≡ length (name_at code) }
    ensures text { text.new ≡ buffer_with_text (name_at code) text.old }
{
    copy(name_at(code), text)
}

/// Copies the library's version as `strm_c_text` copies a text.
#[unsafe(no_mangle)]
pub extern "C" fn strm_c_version(text: &mut [u8]) -> usize
    ensures length { result ≡ length version }
    ensures text { text.new ≡ buffer_with_text version text.old }
{
    copy("0.12.0", text)
}
