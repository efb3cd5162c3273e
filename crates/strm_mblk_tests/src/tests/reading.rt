use super::bench::Bench;
use std::process::Abort;
use strm_mblk::TokenValue;

impl Bench {
    // Asserts what `read` returns for a place and a room, and the bytes that it reads; hyphens follow them.
    fn assert_read(
        &self,
        rt: &impl Abort,
        message: TokenValue,
        at: u32,
        room: usize,
        count: usize,
        bytes: &[u8; 8],
    ) {
        let mut read = [b'-'; 8];
        assert!(rt; room <= 8);
        let given = self.read(rt, message, at, &mut read[..room]);
        self.assert_is(rt, &(given, &read), &(count, bytes));
    }

    // Asserts this for each row.
    fn assert_each_read(
        &mut self,
        rt: &impl Abort,
        message: TokenValue,
        rows: &[(u32, usize, usize, &[u8; 8])],
    ) {
        for (at, room, count, bytes) in rows {
            self.count();
            self.assert_read(rt, message, *at, *room, *count, bytes);
        }
    }
}

const READ: &[(u32, usize, usize, &[u8; 8])] = &[
    (0, 8, 6, b"abcdef--"),
    (1, 8, 5, b"bcdef---"),
    (2, 8, 4, b"cdef----"),
    (5, 8, 1, b"f-------"),
    (6, 8, 0, b"--------"),
    (u32::MAX, 8, 0, b"--------"),
    (0, 2, 2, b"ab------"),
    (2, 3, 3, b"cde-----"),
    (1, 2, 2, b"bc------"),
    (0, 0, 0, b"--------"),
];

#[test]
fn reads_across_blocks(rt: HostRuntime) {
    let mut bench = Bench::opened(&rt, rt.alloc(), 7);
    let message = bench.of_three(&rt);
    bench.assert_each_read(&rt, message, READ);
    bench.freemsg(&rt, message);
    bench.assert_census(&rt, 8, 0, 0);
    bench.end(&rt);
}

#[test]
fn reads_no_bytes(rt: HostRuntime) {
    let mut bench = Bench::opened(&rt, rt.alloc(), 7);
    let message = bench.allocated(&rt, 16);
    bench.assert_read(&rt, message, 0, 2, 0, b"--------");
    bench.freemsg(&rt, message);
    bench.end(&rt);
}
