use std::fmt::Debug;
use std::process::Abort;
use strm_data::{ClassSpec, MsgType};
use strm_mblk::BlockInfo;

mod alterations;
mod bench;
mod by_number;
mod copies;
mod duplicates;
mod forged;
mod in_place;
mod in_place_rows;
mod joining;
mod least;
mod names;
mod pulling;
mod purse;
mod reading;
mod removal;
mod rows;
mod shelves;
mod tokens;
mod transfers;
mod trimming;

// Four data blocks of 16 bytes, and two of 64 bytes.
const CLASSES: [ClassSpec; 2] = [
    ClassSpec { size: 16, count: 4 },
    ClassSpec { size: 64, count: 2 },
];

// Asserts that what was given is as wanted.
pub(crate) fn assert_is<T: PartialEq + Debug>(rt: &impl Abort, given: &T, wanted: &T) {
    assert_eq!(rt; given, wanted);
}

// What `block` returns of a block: type, length, band, room, and references to its data block.
type Told = (MsgType, u32, u8, u32, u8);

// The same as a `BlockInfo`.
fn info(told: Told) -> BlockInfo {
    let (kind, len, band, room, names) = told;
    BlockInfo {
        kind,
        len,
        band,
        room,
        names,
    }
}
