//! The fewest free blocks: which calls lower these numbers, and the bytes of a class.
use super::bench::Bench;
use super::rows::Row::{
    Allocb, Copymsg, Dupmsg, Freemsg, Least, Linkb, Pullupmsg, ResetLeast, Write,
};
use super::rows::{A, B, C, D, DONE, Row, serve};
use strm_data::Refusal;

const LEAST: &[Row] = &[
    Least(8, 4, 2),
    Allocb(1, Ok(A)),
    Write(A, 0, b"abc", DONE),
    Allocb(1, Ok(B)),
    Write(B, 0, b"de", DONE),
    Least(6, 2, 2),
    Linkb(A, B),
    Dupmsg(A, Ok(B)),
    Least(4, 2, 2),
    Copymsg(A, Ok(C)),
    Least(2, 0, 2),
    // A refused call takes none, and freeing raises none.
    Copymsg(A, Ok(D)),
    Least(0, 0, 0),
    Allocb(1, Err(Refusal::NoMblk)),
    Allocb(65, Err(Refusal::TooLarge)),
    Freemsg(D),
    Freemsg(C),
    Freemsg(B),
    Least(0, 0, 0),
    ResetLeast,
    Least(6, 2, 2),
    // The bytes are gathered in a data block that is taken before two others are freed.
    Pullupmsg(A, -1, DONE),
    Least(6, 1, 2),
    ResetLeast,
    Least(7, 3, 2),
    Allocb(17, Ok(B)),
    Freemsg(B),
    Least(6, 3, 1),
    Freemsg(A),
    ResetLeast,
    Least(8, 4, 2),
];

#[test]
fn taking_alone_lowers_the_fewest(rt: HostRuntime) {
    serve(&rt, Bench::opened(&rt, rt.alloc(), 7), LEAST);
}
