//! Transfers of a message to another pool.
ghost use Rattle.std.specs.Prelude.{◌≤◌};
ghost use Rattle.strm_mblk.specs.Limits.{most_message_blocks};

use super::bench::{Bench, made, refused};
use super::{CLASSES, Told};
use std::alloc::Global;
use std::process::Abort;
use strm_data::{ClassSpec, MsgType, Refusal};
use strm_mblk::{Rejected, TokenValue};

// Three data blocks of 20 bytes, and one of 100 bytes.
const OTHER_CLASSES: [ClassSpec; 2] = [
    ClassSpec { size: 20, count: 3 },
    ClassSpec {
        size: 100,
        count: 1,
    },
];

// Two blocks of different types and bands, over data blocks of 16 and 64 bytes.
const HERE: &[Told] = &[
    (MsgType::MProto, 3, 2, 13, 1),
    (MsgType::MData, 1, 0, 63, 1),
];

// The same two blocks, over data blocks of 20 and 100 bytes.
const THERE: &[Told] = &[
    (MsgType::MProto, 3, 2, 17, 1),
    (MsgType::MData, 1, 0, 99, 1),
];

impl Bench {
    // Makes message blocks with id 2 over other data blocks.
    fn other(rt: &impl Abort, alloc: Global, mblks: u32) -> Bench
        requires { mblks ≤ most_message_blocks }
    {
        Bench::over(rt, alloc, (2, mblks), &OTHER_CLASSES, 1)
    }

    // Makes a message of the two blocks of `HERE`, with the bytes `abcd`.
    fn message(&mut self, rt: &impl Abort) -> TokenValue {
        let mut message = self.allocated(rt, 16);
        self.settype(rt, message, 0, MsgType::MProto, Ok(()));
        self.write(rt, message, 0, b"abc", Ok(()));
        self.setband(rt, message, 2);
        let tail = self.allocated(rt, 64);
        self.write(rt, tail, 0, b"d", Ok(()));
        self.linkb(rt, &mut message, tail);
        message
    }

    // Transfers a message to another pool. Asserts that a refusal returns its token.
    pub(super) fn transfer(
        &mut self,
        rt: &impl Abort,
        other: &mut Bench,
        message: TokenValue,
    ) -> Result<TokenValue, Refusal> {
        let token = self.purse.taken(rt, &self.blocks, message);
        match self.blocks.transfer(&mut other.blocks, token) {
            Ok(made) => Ok(other.purse.keep(rt, made)),
            Err(Rejected { why, token }) => {
                let token = self.purse.keep(rt, token);
                self.assert_says(rt, token, message.pool, message.head, message.blocks);
                Err(why)
            }
        }
    }
}

#[test]
fn moves_a_message_to_another_pool(rt: HostRuntime) {
    let mut here = Bench::opened(&rt, rt.alloc(), 1);
    let mut there = Bench::other(&rt, rt.alloc(), 3);
    let message = here.message(&rt);
    here.assert_infos(&rt, message, HERE);
    let moved = made(&rt, here.transfer(&rt, &mut there, message));
    there.assert_says(&rt, moved, 2, 0, 2);
    there.assert_infos(&rt, moved, THERE);
    there.assert_bytes(&rt, moved, 0, b"abcd");
    there.assert_census(&rt, 1, 0, 2);
    there.assert_free_data(&rt, [Some(2), Some(0)]);
    here.assert_census(&rt, 8, 0, 0);
    here.assert_free_data(&rt, [Some(4), Some(2)]);
    there.freemsg(&rt, moved);
    here.end(&rt);
    there.end(&rt);
}

// Asserts that a transfer is refused, and changes nothing in either pool.
fn assert_stays(rt: &impl Abort, here: &mut Bench, there: &mut Bench, why: Refusal) {
    let message = here.message(rt);
    let census = there.blocks.census();
    let answer = here.transfer(rt, there, message);
    refused(rt, answer, why);
    here.assert_infos(rt, message, HERE);
    here.assert_bytes(rt, message, 0, b"abcd");
    here.assert_census(rt, 6, 0, 2);
    there.assert_is(rt, &there.blocks.census(), &census);
    here.freemsg(rt, message);
}

// The second block needs 64 bytes: that the other pool has no class for it is said first, then that it has too few
// message blocks.
#[test]
fn refuses_what_the_other_pool_cannot_hold(rt: HostRuntime) {
    let mut here = Bench::opened(&rt, rt.alloc(), 1);
    let mut small = Bench::over(
        &rt,
        rt.alloc(),
        (2, 1),
        &[ClassSpec { size: 63, count: 1 }],
        1,
    );
    assert_stays(&rt, &mut here, &mut small, Refusal::TooLarge);
    let mut few = Bench::other(&rt, rt.alloc(), 1);
    assert_stays(&rt, &mut here, &mut few, Refusal::NoMblk);
    let mut there = Bench::other(&rt, rt.alloc(), 3);
    let large = there.allocated(&rt, 100);
    assert_stays(&rt, &mut here, &mut there, Refusal::NoData);
    there.freemsg(&rt, large);
    here.end(&rt);
    small.end(&rt);
    few.end(&rt);
    there.end(&rt);
}

// A shared data block stays for the other message that uses it.
#[test]
fn leaves_shared_data(rt: HostRuntime) {
    let mut here = Bench::opened(&rt, rt.alloc(), 1);
    let mut there = Bench::opened(&rt, rt.alloc(), 2);
    let message = here.message(&rt);
    let copy = made(&rt, here.dupmsg(&rt, message));
    let moved = made(&rt, here.transfer(&rt, &mut there, message));
    here.assert_infos(&rt, copy, HERE);
    here.assert_bytes(&rt, copy, 0, b"abcd");
    there.assert_infos(&rt, moved, HERE);
    there.assert_bytes(&rt, moved, 0, b"abcd");
    here.freemsg(&rt, copy);
    there.freemsg(&rt, moved);
    here.end(&rt);
    there.end(&rt);
}
