//! Message blocks and data blocks by number: what is in them, and in which order calls take the free ones.
use super::bench::{Bench, made, refused};
use std::process::Abort;
use strm_data::{MOST_DATA_BLOCKS, Refusal};
use strm_mblk::TokenValue;

// The most bytes of a data block that is compared.
const MOST: usize = 64;

// The token of a message of one block.
pub(super) fn of_one(pool: u32, head: u32) -> TokenValue {
    TokenValue {
        pool,
        head,
        blocks: 1,
    }
}

impl Bench {
    // Asserts whether a token of this value is of a held message.
    pub(super) fn assert_has(&self, rt: &impl Abort, value: TokenValue, has: bool) {
        self.assert_is(rt, &self.has(rt, value), &has);
    }

    // Asserts the number of references to a data block.
    fn assert_references_to(&self, rt: &impl Abort, number: u32, references: u8) {
        let data = self.blocks.data();
        assert!(rt; (number as usize) < data.len());
        self.assert_is(rt, &data.count(number), &references);
    }

    // Asserts the number of references to each data block, and that there are no more data blocks.
    pub(super) fn assert_references(&self, rt: &impl Abort, references: &[u8]) {
        self.assert_is(rt, &self.blocks.data().len(), &references.len());
        for (number, count) in (0..=MOST_DATA_BLOCKS).zip(references) {
            self.assert_references_to(rt, number, *count);
        }
    }

    // Asserts all bytes of a data block, also those that no message has.
    pub(super) fn assert_stored(&self, rt: &impl Abort, number: u32, bytes: &[u8]) {
        let data = self.blocks.data();
        assert!(rt; (number as usize) < data.len());
        let capacity = data.cap(number) as usize;
        assert!(rt; capacity <= MOST);
        let mut room = [0; MOST];
        let own = &mut room[..capacity];
        data.read(number, 0, own);
        assert!(rt; *own == *bytes, "data block {number}");
    }

    // Frees the messages of one block with these heads, last to first, so that they are free in this order again.
    pub(super) fn free_each(&mut self, rt: &impl Abort, pool: u32, heads: &[u32]) {
        for head in heads.iter().rev() {
            self.freemsg(rt, of_one(pool, *head));
        }
    }

    // Asserts that duplicates of a message's first block take the free message blocks in this order. They are freed
    // again.
    fn assert_free_blocks(&mut self, rt: &impl Abort, message: TokenValue, heads: &[u32]) {
        for head in heads {
            let copy = made(rt, self.dupb(rt, message));
            self.assert_says(rt, copy, message.pool, *head, 1);
        }
        refused(rt, self.dupb(rt, message), Refusal::NoMblk);
        self.free_each(rt, message.pool, heads);
    }

    // Asserts that a new message takes this message block and this data block, to which there was no reference.
    fn assert_takes(&mut self, rt: &impl Abort, pool: u32, head: u32, number: u32) {
        self.assert_references_to(rt, number, 0);
        let message = self.allocated(rt, 0);
        self.assert_says(rt, message, pool, head, 1);
        self.assert_references_to(rt, number, 1);
    }

    // Asserts that new messages take the free message blocks and data blocks in these orders, until no data block is
    // free. More message blocks are free than data blocks. The messages are freed again.
    fn assert_free_numbers(&mut self, rt: &impl Abort, pool: u32, heads: &[u32], numbers: &[u32]) {
        for (head, number) in heads.iter().zip(numbers) {
            self.assert_takes(rt, pool, *head, *number);
        }
        refused(rt, self.allocb(rt, 0), Refusal::NoData);
        let taken = heads.get(..numbers.len()).expect(rt, "a head for each");
        self.free_each(rt, pool, taken);
    }

    // Asserts the free message blocks, and the free data blocks, which are fewer, in the orders in which calls take them.
    pub(super) fn assert_free(
        &mut self,
        rt: &impl Abort,
        message: TokenValue,
        heads: &[u32],
        numbers: &[u32],
    ) {
        self.assert_free_blocks(rt, message, heads);
        self.assert_free_numbers(rt, message.pool, heads, numbers);
    }
}
