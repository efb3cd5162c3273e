//! A `Data` to test, whose methods assert what each call requires.
ghost use Rattle.std.specs.Prelude.{◌+◌, ◌<◌, ◌≤◌, IsTrue, length};
ghost use Rattle.strm_data.specs.Classes.{are_lawful};
ghost use Rattle.strm_data.specs.CountedStore.{IsInUse};
ghost use Rattle.strm_data.specs.DataStore.{capacity_of};

use std::alloc::Global;
use std::process::Abort;
use strm_data::{ClassInfo, ClassSpec, Data, MOST_REFERENCES, MsgType, Refusal};

#[derive(Drop)]
pub(super) struct Bench {
    blocks: Data,
}

impl Bench {
    pub(super) fn opened(rt: &impl Abort, alloc: Global, classes: &[ClassSpec]) -> Bench
        requires { IsTrue (are_lawful classes.now) }
    {
        Bench {
            blocks: Data::new(alloc, classes).expect(rt, "memory"),
        }
    }

    // Asserts that there is such a data block.
    fn assert_there(&self, rt: &impl Abort, number: u32)
        ensures { number < length self.now.blocks.store.blocks }
    {
        assert!(rt; (number as usize) < self.blocks.len());
    }

    // Asserts that the data block is in use.
    fn assert_used(&self, rt: &impl Abort, number: u32)
        ensures there { number < length self.now.blocks.store.blocks }
        ensures used { IsInUse self.now.blocks number }
    {
        self.assert_there(rt, number);
        assert!(rt; self.blocks.count(number) > 0);
    }

    // Asserts that the data block has `len` bytes from place `at` on.
    fn assert_room(&self, rt: &impl Abort, number: u32, at: u32, len: usize)
        ensures there { number < length self.now.blocks.store.blocks }
        ensures room { at + len ≤ capacity_of self.now.blocks.store number }
    {
        self.assert_there(rt, number);
        let cap = self.blocks.cap(number);
        assert!(rt; at <= cap);
        assert!(rt; len <= (cap - at) as usize);
    }

    // Takes a data block, and asserts this answer.
    pub(super) fn take(&mut self, rt: &impl Abort, size: u32, answer: Result<u32, Refusal>) {
        assert!(rt; self.blocks.take(size) == answer);
    }

    // Adds a reference to a data block.
    pub(super) fn name(&mut self, rt: &impl Abort, number: u32) {
        self.assert_used(rt, number);
        assert!(rt; self.blocks.count(number) < MOST_REFERENCES);
        self.blocks.name(number);
    }

    // Removes a reference from a data block.
    pub(super) fn drop_name(&mut self, rt: &impl Abort, number: u32) {
        self.assert_used(rt, number);
        self.blocks.drop_name(number);
    }

    pub(super) fn set_kind(&mut self, rt: &impl Abort, number: u32, kind: MsgType) {
        self.assert_there(rt, number);
        self.blocks.set_kind(number, kind);
    }

    pub(super) fn write(&mut self, rt: &impl Abort, number: u32, at: u32, bytes: &[u8]) {
        self.assert_room(rt, number, at, bytes.len());
        self.blocks.write(number, at, bytes);
    }

    // Copies `len` bytes from a place of a data block to a place of another or of the same.
    pub(super) fn copy(&mut self, rt: &impl Abort, from: (u32, u32), into: (u32, u32), len: u32) {
        self.assert_room(rt, from.0, from.1, len as usize);
        self.assert_room(rt, into.0, into.1, len as usize);
        self.blocks.copy(from.0, from.1, into.0, into.1, len);
    }

    pub(super) fn read(&self, rt: &impl Abort, number: u32, at: u32, into: &mut [u8]) {
        self.assert_room(rt, number, at, into.len());
        self.blocks.read(number, at, into);
    }

    // The references, the type and the capacity of a data block.
    fn block(&self, rt: &impl Abort, number: u32) -> (u8, MsgType, usize) {
        self.assert_there(rt, number);
        let (count, kind) = (self.blocks.count(number), self.blocks.kind(number));
        (count, kind, self.blocks.cap(number) as usize)
    }

    // Asserts a data block's references, type and capacity.
    pub(super) fn assert_block(&self, rt: &impl Abort, number: u32, block: (u8, MsgType, usize)) {
        assert!(rt; self.block(rt, number) == block);
    }

    // Asserts the first four bytes of a data block.
    pub(super) fn assert_holds(&self, rt: &impl Abort, number: u32, bytes: [u8; 4]) {
        let mut read = [9; 4];
        self.read(rt, number, 0, &mut read);
        assert!(rt; read == bytes);
    }

    // Asserts whether a class has blocks of `size` bytes or more, and whether one of them is free.
    pub(super) fn assert_fits(&self, rt: &impl Abort, size: u32, has: bool, fits: bool) {
        let told = (self.blocks.has_class_for(size), self.blocks.fits(size));
        assert!(rt; told == (has, fits));
    }

    // Asserts the number of free data blocks of the largest class.
    pub(super) fn assert_free_in_largest(&self, rt: &impl Abort, free: u32) {
        assert!(rt; self.blocks.free_in_largest() == free);
    }

    // Asserts what `class_info` returns for a class.
    pub(super) fn assert_class(&self, rt: &impl Abort, class: u8, info: Option<ClassInfo>) {
        assert!(rt; self.blocks.class_info(class) == info);
    }

    // Asserts the fewest data blocks of a class that were free.
    pub(super) fn assert_least(&self, rt: &impl Abort, class: u8, least: Option<u32>) {
        assert!(rt; self.blocks.least_free(class) == least);
    }

    pub(super) fn reset_least(&mut self) {
        self.blocks.reset_least();
    }

    // The bytes of all data blocks of a class.
    pub(super) fn region(&self, class: u8) -> Option<&[u8]> {
        self.blocks.region(class)
    }
}
