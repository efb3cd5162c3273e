//! Data blocks by number, and the free data blocks of each size class.
ghost use Rattle.std.specs.Prelude.{◌≡◌, ℕ, ◌+◌, ◌-◌, ◌^◌, ◌<◌, ◌≤◌, ◌++◌, IfOk, IfErr, IfSome, IsTrue, Ok, OnOk, Err, None, [], length, map, min, nat_le, take, drop, replicate, slice_get, slice_set};
ghost use Rattle.std.specs.List.{list_any, range_with_len};
ghost use Rattle.strm_links.specs.Rows.{holder, list_at};
ghost use Rattle.strm_data.specs.Limits.{most_classes, most_data_block_bytes, most_data_blocks, most_references};
ghost use Rattle.strm_data.specs.declared.msg_type.MsgType.TheVariants.{MData};
ghost use Rattle.strm_data.specs.Classes.{are_lawful, fits_a_class, total_of};
ghost use Rattle.strm_data.specs.CountedStore.{count_of, IsInUse, IsKept, IsUnused, opening_counted, after_take, with_reference, without_reference};
ghost use Rattle.strm_data.specs.DataLayout.{extents_in, no_block, room_of, unused_at};
ghost use Rattle.strm_data.specs.DataStore.{capacity_of, data_block_at, class_infos, fits, take_data, with_data_reset, with_kind, with_bytes_copied, with_bytes_written, free_of, numbers_from, bytes_overwritten, IsClassFor, IsLeast, IsTakenFrom};

mod lending;

use crate::class_info::ClassInfo;
use crate::class_spec::ClassSpec;
use crate::msg_type::MsgType;
use crate::refusal::Refusal;
use std::alloc::{AllocError, Global};
use std::marker::Model;
use std::mem::size_of;
use strm_links::Stacks;

/// The number of a data block. Data blocks are numbered from 0 on, class by class.
pub type DataNo = u32;

/// Data blocks in 1 to `MOST_CLASSES` size classes, and for each class a list of its free data blocks.
///
/// A data block has a capacity, a type, its bytes, and a count of references: the message blocks that use it. It is free
/// if that count is 0, and in use otherwise. `take` takes it from the front of its class's list, and its last `drop_name`
/// returns it there. Only `new` takes memory.
///
/// These are the data blocks of UNIX System V Release 4 STREAMS (`datab`), which have a type and a count of references.
/// The limit on references is from STREAMS too, where `db_ref` is a byte. The classes and the order of the free lists
/// are this project's own choice.
#[derive(Debug, Drop)]
pub struct Data {
    classes: Vec<Class>,
    // The bytes of all data blocks, class by class.
    bytes: Vec<u8>,
    // The data blocks, and for each class a stack of its free ones.
    blocks: Stacks<DataBlock>,
}

// A size class. Its data blocks have the bytes from place `start` on, one block after the other.
#[derive(Clone, Copy, Debug)]
struct Class {
    spec: ClassSpec,
    start: u32,
    // The fewest that were free.
    least: u32,
}

// A data block. It has `size` bytes, from place `start` on.
#[derive(Clone, Copy, Debug)]
struct DataBlock {
    start: u32,
    size: u32,
    class: u8,
    kind: MsgType,
    // The number of references.
    references: u16,
}

const _: () = prove!(size_of::<Class>() == 16 && size_of::<DataBlock>() == 12);

const _: () = prove!(size_of::<Data>() == 96);

// A class begins at a multiple of this: a cache line.
const LINE: u32 = 64;

impl DataBlock {
    // The place of its byte `at`.
    fn place_of(self, at: u32) -> usize
        ensures place { result ≡ self.start + at }
        ensures low { result < 2 ^ 33 }
    {
        self.start as usize + at as usize
    }
}

impl Class {
    // Notes that this many of its data blocks are free.
    fn note(&mut self, free: u32)
        ensures { self.new ≡ record self.old { least = min self.old.least free } }
    {
        if free < self.least {
            self.least = free;
        }
    }
}

impl Model for Data {
    ghost use Rattle.strm_data.specs.CountedStore.{CountedStore};

    ghost Value = { CountedStore };

    ghost use Rattle.strm_data.specs.DataLayout.{store_of, IsSound};

    ghost view = { store_of };

    ghost invariant = { IsSound };
}

// The number of data blocks of all classes together.
fn total_of(specs: &[ClassSpec]) -> u32
    requires { total_of specs.now ≤ most_data_blocks }
    ensures { result ≡ total_of specs.now }
{
    specs.iter().map(|spec| spec.count).sum()
}

// Whether some class has blocks of `size` bytes or more.
fn fits_a_class(size: u32, classes: &[Class]) -> bool
    ensures { result ≡ list_any (λ class. nat_le size class.spec.size) classes.now }
{
    classes.iter().any(|class| class.spec.size >= size)
}

// Overwrites bytes with others, from place `at` on.
fn overwrite(old: &mut [u8], at: usize, new: &[u8])
    requires { at + length new.now ≤ length old.old }
    ensures { old.new ≡ bytes_overwritten at new.now old.old }
{
    old[at..at + new.len()].copy_from_slice(new);
}

// Copies `len` bytes from one place to another. If the places do not overlap, this is one slice copy. `copy_within` allows overlap,
// and goes byte by byte.
#[inline(always)]
fn copy_inside(bytes: &mut [u8], from: usize, into: usize, len: usize)
    requires there { from + len ≤ length bytes.old }
    requires room { into + len ≤ length bytes.old }
    ensures { bytes.new ≡ bytes_overwritten into (take len (drop from bytes.old)) bytes.old }
{
    if from + len <= into {
        let (low, high) = bytes.split_at_mut(into);
        overwrite(high, 0, &low[from..from + len]);
    } else if into + len <= from {
        let (low, high) = bytes.split_at_mut(from);
        overwrite(low, into, &high[..len]);
    } else {
        bytes.copy_within(from..from + len, into);
    }
}

// The first multiple of `LINE` that is not below `end`.
fn line_after(end: u32) -> u32
    requires { end < 2 ^ 31 }
    ensures after { end ≤ result }
    ensures near { result ≤ end + 63 }
{
    (end + (LINE - 1)) / LINE * LINE
}

// Lays out the data blocks of a class, from `first` on, and puts them into its empty list. The last joins first, so `first` ends up at
// the front.
fn fill(blocks: &mut Stacks<DataBlock>, number: u8, class: Class, first: u32)
    requires list { number < length blocks.old.rows.lists }
    requires empty { list_at number blocks.old.rows ≡ [] }
    requires nodes { first + class.spec.count ≤ blocks.old.rows.nodes }
    requires most { blocks.old.rows.nodes ≤ most_data_blocks }
    requires loads { length blocks.old.loads ≡ blocks.old.rows.nodes }
    requires size { class.spec.size ≤ most_data_block_bytes }
    requires low { class.start < 2 ^ 31 }
    requires unlinked { (k : ℕ) → first ≤ k → holder k blocks.old.rows ≡ None }
    ensures lists { blocks.new.rows ≡ record blocks.old.rows {
      lists = slice_set blocks.old.rows.lists number (range_with_len first class.spec.count);
    } }
    ensures loads { blocks.new.loads ≡ take first blocks.old.loads
        ++ (map unused_at (extents_in number (room_of class)) ++ drop (first + class.spec.count) blocks.old.loads) }
    ensures unlinked { (k : ℕ) → first + class.spec.count ≤ k → holder k blocks.new.rows ≡ None }
{
    let mut at = first + class.spec.count;
    while at > first {
        at -= 1;
        let block = DataBlock {
            start: class.start + (at - first) * class.spec.size,
            size: class.spec.size,
            class: number,
            kind: MsgType::MData,
            references: 0,
        };
        blocks.set_load(at, block);
        blocks.push_front(u32::from(number), at);
    }
}

// A data block before it is laid out.
fn no_block() -> DataBlock
    ensures { result ≡ no_block }
{
    DataBlock {
        start: 0,
        size: 0,
        class: 0,
        kind: MsgType::MData,
        references: 0,
    }
}

// Makes for each class the fewest that were free those that are free now.
fn reset(classes: &mut [Class], blocks: &Stacks<DataBlock>)
    requires few { length classes.old ≤ most_classes }
    requires lists { length blocks.now.rows.lists ≡ length classes.old }
    ensures rooms { map room_of classes.new ≡ map room_of classes.old }
    ensures least { map (λ k. k.least) classes.new ≡ map length blocks.now.rows.lists }
{
    for number in 0..classes.len() {
        classes[number].least = blocks.len(number as u32);
    }
}

impl Data {
    /// Makes the data blocks of these classes. All are free, in rising order, and of type M_DATA, and their bytes are 0.
    ///
    /// The classes must be lawful. There are 1 to `MOST_CLASSES`, each of a greater size than the one before. A size is 1
    /// to `MOST_DATA_BLOCK_BYTES` bytes. Each class has one block at least, and all have at most `MOST_DATA_BLOCKS`
    /// together.
    ///
    /// Fails if it runs out of memory, and then keeps none. Takes a step for each data block and each byte.
    pub fn new(alloc: Global, specs: &[ClassSpec]) -> Result<Data, AllocError>
        requires { IsTrue (are_lawful specs.now) }
        ensures opened { IfOk result (λ s. s ≡ opening_counted specs.now) }
        ensures kept { IfOk result IsKept }
    {
        let mut blocks = Stacks::new(alloc, total_of(specs), specs.len() as u32, no_block())?;
        let mut classes = Vec::with_capacity(alloc, specs.len())?;
        let mut first = 0;
        let mut start = 0;
        for (number, spec) in specs.iter().enumerate() {
            let class = Class {
                spec: *spec,
                start,
                least: spec.count,
            };
            fill(&mut blocks, number as u8, class, first);
            classes.push(class)?;
            first += spec.count;
            start = line_after(start + spec.size * spec.count);
        }
        Ok(Data {
            classes,
            bytes: vec![in alloc; 0; start as usize]?,
            blocks,
        })
    }

    /// Returns the class from which `take` takes for this size: the smallest that fits the size and has a free data block.
    /// `take_from` takes from it, as long as it has free ones, and no smaller class that fits has got one. Changes nothing.
    ///
    /// Refused as `TooLarge` if the size is above the largest class, then as `NoData` if no data block that fits is free.
    /// Takes at most two steps for each class.
    pub fn class_for(&self, size: u32) -> Result<u32, Refusal>
        ensures found { IfOk result (IsTakenFrom size self.now.store) }
        ensures class { IfOk result (IsClassFor size self.now.store) }
        ensures none { IfErr result (λ why. take_data size self.now.store ≡ Err why) }
    {
        for number in 0..self.classes.len() as u32 {
            let class = &self.classes[number as usize];
            if class.spec.size >= size && self.blocks.len(number) > 0 {
                return Ok(number);
            }
        }
        Err(if self.has_class_for(size) {
            Refusal::NoData
        } else {
            Refusal::TooLarge
        })
    }

    /// Returns the number of free data blocks of a class. Changes nothing.
    pub fn free_in(&self, class: u32) -> u32
        requires { class < length self.now.store.classes }
        ensures { result ≡ length (free_of self.now.store class) }
    {
        self.blocks.len(class)
    }

    /// Takes a data block for `size` bytes and returns its number: the first free one of the smallest class that fits the
    /// size and has a free one. The data block gets type M_DATA and one reference, and keeps its bytes.
    ///
    /// Refused as `TooLarge` if the size is above the largest class, then as `NoData` if no data block that fits is free.
    /// On an error nothing changes. Takes at most two steps for each class.
    pub fn take(&mut self, size: u32) -> Result<DataNo, Refusal>
        ensures answer { result ≡ take_data size self.old.store }
        ensures after { self.new ≡ after_take self.old (take_data size self.old.store) }
        ensures unused { IfOk result (IsUnused self.old) }
        ensures room { IfOk result (λ d. size ≤ capacity_of self.old.store d) }
        ensures kept { IsKept self.new }
    {
        self.accounts_for_blocks();
        let class = self.class_for(size)?;
        Ok(self.take_from(class, size))
    }

    /// Takes a data block as [`Data::take`] does for this size, from the class that [`Data::class_for`] returned for it. The
    /// class must have a free data block, and no smaller one that fits may have got one since. The size is an argument for the
    /// contract only. Takes constant time.
    #[inline(always)]
    pub fn take_from(&mut self, class: u32, size: u32) -> DataNo
        requires class { IsClassFor size self.old.store class }
        requires some { 0 < length (free_of self.old.store class) }
        ensures answer { take_data size self.old.store ≡ Ok result }
        ensures after { self.new ≡ after_take self.old (take_data size self.old.store) }
        ensures unused { IsUnused self.old result }
        ensures room { size ≤ capacity_of self.old.store result }
        ensures kept { IsKept self.new }
        ensures class { IsClassFor size self.new.store class }
        ensures left { length (free_of self.new.store class) ≡ length (free_of self.old.store class) - 1 }
    {
        let _ = size;
        let left = self.blocks.len(class) - 1;
        self.classes[class as usize].note(left);
        let number = self.blocks.take_front(class);
        let mut block = *self.blocks.load(number);
        block.kind = MsgType::MData;
        block.references = 1;
        self.blocks.set_load(number, block);
        number
    }

    /// Says whether `take` would succeed for this size now. Changes nothing. Takes at most two steps for each class.
    pub fn fits(&self, size: u32) -> bool
        ensures { result ≡ fits size self.now.store }
    {
        self.class_for(size).is_ok()
    }

    /// Says whether some class has blocks of `size` bytes or more, free or not. If none has, `take` refuses the size as
    /// `TooLarge`. Changes nothing. Takes at most a step for each class.
    pub fn has_class_for(&self, size: u32) -> bool
        ensures { result ≡ fits_a_class size self.now.store.classes }
    {
        fits_a_class(size, &self.classes)
    }

    /// Adds a reference to a data block that is in use and has fewer than `MOST_REFERENCES`. All else stays unchanged.
    pub fn name(&mut self, number: DataNo)
        requires there { number < length self.old.store.blocks }
        requires used { IsInUse self.old number }
        requires few { count_of self.old number < most_references }
        ensures after { self.new ≡ with_reference number self.old }
        ensures kept { IsKept self.new }
    {
        let mut block = *self.blocks.load(number);
        block.references += 1;
        self.blocks.set_load(number, block);
    }

    /// Removes a reference from a data block that is in use. If that was the last one, the data block becomes free, at
    /// the front of its class's list. All else stays unchanged, its type and bytes too.
    pub fn drop_name(&mut self, number: DataNo)
        requires there { number < length self.old.store.blocks }
        requires used { IsInUse self.old number }
        ensures after { self.new ≡ without_reference number self.old }
        ensures kept { IsKept self.new }
    {
        let mut block = *self.blocks.load(number);
        block.references -= 1;
        self.blocks.set_load(number, block);
        if block.references == 0 {
            self.blocks.push_front(u32::from(block.class), number);
        }
    }

    /// Returns the number of data blocks. All data blocks have numbers below it. Changes nothing.
    pub fn len(&self) -> usize
        ensures { result ≡ length self.now.store.blocks }
    {
        self.blocks.node_count()
    }

    /// Returns the number of references to a data block, 0 to `MOST_REFERENCES`. Changes nothing.
    pub fn count(&self, number: DataNo) -> u8
        requires { number < length self.now.store.blocks }
        ensures { result ≡ count_of self.now number }
    {
        self.blocks.load(number).references as u8
    }

    /// Returns the capacity of a data block in bytes, 1 to `MOST_DATA_BLOCK_BYTES`. Changes nothing.
    pub fn cap(&self, number: DataNo) -> u32
        requires { number < length self.now.store.blocks }
        ensures answer { result ≡ capacity_of self.now.store number }
        ensures range { (1 ≤ result) × (result ≤ most_data_block_bytes) }
    {
        self.blocks.load(number).size
    }

    /// Returns the type of a data block. Changes nothing.
    pub fn kind(&self, number: DataNo) -> MsgType
        requires { number < length self.now.store.blocks }
        ensures { result ≡ (data_block_at self.now.store number).kind }
    {
        self.blocks.load(number).kind
    }

    /// Gives a data block a type. All else stays unchanged, its references and bytes too.
    pub fn set_kind(&mut self, number: DataNo, kind: MsgType)
        requires { number < length self.old.store.blocks }
        ensures after { self.new ≡ record self.old { store = with_kind number kind self.old.store } }
        ensures kept { IsKept self.new }
    {
        let mut block = *self.blocks.load(number);
        block.kind = kind;
        self.blocks.set_load(number, block);
    }

    /// Copies `len` bytes of data block `from`, from place `at` on, over those of data block `into`, from place `to` on.
    /// Both may be the same block. The bytes must be within each block's capacity. All other bytes, references and types
    /// stay unchanged. Takes one slice copy, or a step for each byte if the places overlap.
    #[inline(always)]
    pub fn copy(&mut self, from: DataNo, at: u32, into: DataNo, to: u32, len: u32)
        requires from { from < length self.old.store.blocks }
        requires into { into < length self.old.store.blocks }
        requires there { at + len ≤ capacity_of self.old.store from }
        requires room { to + len ≤ capacity_of self.old.store into }
        ensures after { self.new ≡ record self.old { store = with_bytes_copied from at into to len self.old.store } }
        ensures kept { IsKept self.new }
    {
        let source = self.blocks.load(from).place_of(at);
        let target = self.blocks.load(into).place_of(to);
        copy_inside(&mut self.bytes, source, target, len as usize);
    }

    /// Returns the size of a class, the number of its free data blocks and that of all of them, or none if there is no
    /// such class. Classes count from 0, the smallest first. Changes nothing.
    pub fn class_info(&self, class: u8) -> Option<ClassInfo>
        ensures answer { result ≡ slice_get (class_infos self.now.store) class }
        ensures within { IfSome result (λ info. info.free ≤ info.total) }
    {
        let spec = self.classes.get(usize::from(class))?.spec;
        Some(ClassInfo {
            size: spec.size,
            free: self.blocks.len(u32::from(class)),
            total: spec.count,
        })
    }

    /// Returns the fewest data blocks of a class that were free at a time since `new`, or since the last `reset_least`, or
    /// none if there is no such class. Only `take` and `take_from` lower this number. Changes nothing.
    pub fn least_free(&self, class: u8) -> Option<u32>
        ensures { result ≡ slice_get self.now.store.least class }
    {
        Some(self.classes.get(usize::from(class))?.least)
    }

    /// Makes the data blocks that are free now the fewest that were free, for each class. All else stays unchanged. Takes a
    /// step for each class.
    pub fn reset_least(&mut self)
        ensures after { self.new ≡ record self.old { store = with_data_reset self.old.store } }
        ensures kept { IsKept self.new }
    {
        reset(&mut self.classes, &self.blocks);
    }

    /// Returns the number of free data blocks of the largest class. This many can be taken in turn, whatever their sizes,
    /// if no size is too large. Changes nothing.
    pub fn free_in_largest(&self) -> u32
        ensures { result ≡ length (free_of self.now.store (length self.now.store.classes - 1)) }
    {
        self.blocks.len(self.classes.len() as u32 - 1)
    }

    /// Law: every data block is accounted for. There are 1 to `MOST_CLASSES` size classes, and each has its number of data blocks.
    /// Each data block is in one class, and has that class's size. It has at most `MOST_REFERENCES` references. It is in its
    /// class's free list, once, if it has none, and otherwise in no free list. Does nothing.
    pub fn accounts_for_blocks(&self)
        ensures kept { IsKept self.now }
    {
        let _ = &self.blocks;
    }

    /// Law: each class has a number that `least_free` returns, and no fewer of its data blocks are free. Does nothing.
    pub fn least_is_least(&self)
        ensures { IsLeast self.now.store }
    {
        let _ = &self.blocks;
    }
}
