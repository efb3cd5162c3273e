//! Bytes of data blocks in place, to look at or to change, and copied in and out.
ghost use Rattle.std.specs.Prelude.{◌≡◌, ◌+◌, ◌<◌, ◌≤◌, drop, length, option_copied, take};
ghost use Rattle.std.specs.Fn.{FnOnceReturnsAtMut, FnOnceTakesAtMut};
ghost use Rattle.strm_data.specs.CountedStore.{IsKept};
ghost use Rattle.strm_data.specs.DataStore.{bytes_at, bytes_overwritten, capacity_of, class_region, with_bytes_written};
ghost use Rattle.strm_data.specs.Lending.{Edits};

use super::{Data, DataNo};

// Lends `len` of these bytes, from place `at` on.
fn part_of(all: &[u8], at: usize, len: usize) -> &[u8]
    requires { at + len ≤ length all.now }
    ensures { result.now ≡ take len (drop at all.now) }
{
    &all[at..at + len]
}

// Lends `len` of these bytes, from place `at` on, to `change`.
fn edit_part<R, F: FnOnce(&mut [u8]) -> R>(all: &mut [u8], at: usize, len: usize, change: F) -> R
    requires there { at + len ≤ length all.old }
    requires callable { FnOnceTakesAtMut F.FnOnce change (take len (drop at all.old)) }
    ensures { Edits (FnOnceReturnsAtMut F.FnOnce change) (take len (drop at all.old)) result
        (λ bytes. all.new ≡ bytes_overwritten at bytes all.old) }
{
    change(&mut all[at..at + len])
}

impl Data {
    /// Lends `len` bytes of a data block, from place `at` on. They must be within the block's capacity. Changes nothing.
    /// Takes constant time.
    pub fn bytes(&self, number: DataNo, at: u32, len: usize) -> &[u8]
        requires there { number < length self.now.store.blocks }
        requires room { at + len ≤ capacity_of self.now.store number }
        ensures { result.now ≡ bytes_at number at len self.now.store }
    {
        let place = self.blocks.load(number).place_of(at);
        part_of(&self.bytes, place, len)
    }

    /// Lends the bytes of all data blocks of a class, in use or free, one block after the other, or none if there is no such
    /// class. Each block has as many as the class's size. Changes nothing. Takes constant time.
    pub fn region(&self, class: u8) -> Option<&[u8]>
        ensures { option_copied result ≡ class_region class self.now.store }
    {
        let class = self.classes.get(usize::from(class))?;
        let len = class.spec.size as usize * class.spec.count as usize;
        Some(part_of(&self.bytes, class.start as usize, len))
    }

    /// Lends `len` bytes of a data block, from place `at` on, to `change`, which may change them. They must be within the
    /// block's capacity. Calls `change` once, and returns what that returns. All other bytes, references and types
    /// stay unchanged.
    pub fn edit<R, F: FnOnce(&mut [u8]) -> R>(
        &mut self,
        number: DataNo,
        at: u32,
        len: usize,
        change: F,
    ) -> R
        requires there { number < length self.old.store.blocks }
        requires room { at + len ≤ capacity_of self.old.store number }
        requires callable { FnOnceTakesAtMut F.FnOnce change (bytes_at number at len self.old.store) }
        ensures after { Edits (FnOnceReturnsAtMut F.FnOnce change) (bytes_at number at len self.old.store) result
            (λ bytes. self.new ≡ record self.old { store = with_bytes_written number at bytes self.old.store }) }
        ensures kept { IsKept self.new }
    {
        let place = self.blocks.load(number).place_of(at);
        edit_part(&mut self.bytes, place, len, change)
    }

    /// Overwrites bytes of a data block, from place `at` on, with `bytes`. They must fit into its capacity. All other
    /// bytes, references and types stay unchanged.
    pub fn write(&mut self, number: DataNo, at: u32, bytes: &[u8])
        requires there { number < length self.old.store.blocks }
        requires room { at + length bytes.now ≤ capacity_of self.old.store number }
        ensures after { self.new ≡ record self.old { store = with_bytes_written number at bytes.now self.old.store } }
        ensures kept { IsKept self.new }
    {
        self.edit(number, at, bytes.len(), |part| {
            part.copy_from_slice(bytes);
        });
    }

    /// Copies bytes of a data block, from place `at` on, into `into`, which they fill. They must be within the block's
    /// capacity. Changes nothing else.
    pub fn read(&self, number: DataNo, at: u32, into: &mut [u8])
        requires there { number < length self.now.store.blocks }
        requires room { at + length into.old ≤ capacity_of self.now.store number }
        ensures { into.new ≡ bytes_at number at (length into.old) self.now.store }
    {
        into.copy_from_slice(self.bytes(number, at, into.len()));
    }
}
