//! The structs of strm.h, field by field, and how values of the pool are stored in them.
ghost use Rattle.std.specs.Prelude.{◌≡◌, ◌&&◌};
ghost use Rattle.strm_c.specs.InC.{band_in_c, block_in_c, census_in_c, class_in_c, marks_in_c, is_shape, place_in_c, queue_in_c, queued_in_c, service_in_c, shape_of, spec_in_c, wish_in_c};

use crate::numbers::{band_of, number_of_next, type_of};
use strm_mblk::Shaped;
use strm_pool::{
    BandInfo, BlockInfo, BlockPlace, Census, ClassInfo, Marks, MsgType, QueueInfo, QueueSpec,
    QueuedInfo, Shape,
};
use strm_scheduler::Service;

/// A size class of a configuration.
#[repr(C)]
#[derive(Clone, Copy, Debug)]
pub struct StrmClassSpec {
    /// The capacity of each data block, in bytes.
    pub size: u32,
    /// The number of data blocks.
    pub count: u32,
}

/// A queue of a configuration.
#[repr(C)]
#[derive(Clone, Copy, Debug)]
pub struct StrmQueueSpec {
    /// The high water mark that each band has at first, in bytes.
    pub hiwat: u32,
    /// The low water mark that each band has at first, in bytes.
    pub lowat: u32,
    /// Whether the queue has a service procedure: 0 means no.
    pub service: u32,
    /// The number of the next queue, or 2^32 - 1 for none.
    pub next: u32,
}

/// What a block of a message is like.
#[repr(C)]
#[derive(Clone, Copy, Debug)]
pub struct StrmBlockInfo {
    /// The type of its data block, as its number in strm.h.
    pub kind: u32,
    /// The number of bytes between its read place and its write place.
    pub length: u32,
    /// The block's band, 0 to 255.
    pub band: u32,
    /// The number of bytes for which its data block has room after the write place.
    pub room: u32,
    /// The number of references to its data block.
    pub names: u32,
}

/// What a block of a message is to be like.
#[repr(C)]
#[derive(Clone, Copy, Debug)]
pub struct StrmBlockShape {
    /// The read place in its data block, in bytes.
    pub at: u32,
    /// The number of bytes between its read place and its write place.
    pub length: u32,
    /// The type of its data block, as its number in strm.h.
    pub kind: u32,
    /// The block's band, 0 to 255.
    pub band: u32,
}

/// Where the bytes of a block are.
#[repr(C)]
#[derive(Clone, Copy, Debug)]
pub struct StrmBlockPlace {
    /// The number of its data block. Data blocks are numbered from 0 on, class by class.
    pub data: u32,
    /// The read place in the data block, in bytes.
    pub at: u32,
    /// The number of bytes between its read place and its write place.
    pub length: u32,
    /// The number of bytes of the data block.
    pub capacity: u32,
}

/// Bytes of a block, where they are. Its layout is that of POSIX's `struct iovec`.
#[repr(C)]
#[derive(Clone, Copy)]
pub struct StrmIov {
    /// Where the bytes are.
    pub base: *const u8,
    /// The number of bytes.
    pub length: usize,
}

/// A message on a queue.
#[repr(C)]
#[derive(Clone, Copy, Debug)]
pub struct StrmQueued {
    /// The number of its first block.
    pub head: u32,
    /// The type of its first block, as its number in strm.h.
    pub kind: u32,
    /// The band of its first block, 0 to 255.
    pub band: u32,
    /// The number of bytes of all its blocks.
    pub bytes: u32,
    /// The number of its blocks, 1 or more.
    pub blocks: u32,
}

/// The service of a queue that gave a message.
#[repr(C)]
#[derive(Clone, Copy, Debug)]
pub struct StrmService {
    /// The queue.
    pub queue: u32,
    /// Its next queue, to which the message may go on.
    pub next: u32,
    /// How many queues, those just before this one at the end of the run list, are held back.
    pub held: u32,
}

/// The number of messages and bytes on a queue, and its marks.
#[repr(C)]
#[derive(Clone, Copy, Debug)]
pub struct StrmQueueInfo {
    /// The number of messages on the queue.
    pub msgs: u32,
    /// The number of their bytes.
    pub bytes: u32,
    /// 1 if the want-to-read mark is set.
    pub read: u32,
    /// 1 if enabling is switched off.
    pub noenable: u32,
    /// 1 if the queue is on the run list.
    pub enabled: u32,
}

/// The bytes and the marks of a band of a queue.
#[repr(C)]
#[derive(Clone, Copy, Debug)]
pub struct StrmBandInfo {
    /// The number of bytes of its messages. High priority messages count with band 0.
    pub bytes: u32,
    /// 1 if the band has at least as many bytes as its high water mark.
    pub full: u32,
    /// 1 if `bcanput` found the band full, and it has had more bytes than its low water mark since.
    pub wanted: u32,
}

/// The water marks of a band, in bytes.
#[repr(C)]
#[derive(Clone, Copy, Debug)]
pub struct StrmMarks {
    /// The high water mark.
    pub hiwat: u32,
    /// The low water mark.
    pub lowat: u32,
}

/// A wish for a message block.
#[repr(C)]
#[derive(Clone, Copy, Debug)]
pub struct StrmWish {
    /// The wish's id.
    pub id: u32,
    /// The number of bytes that its data block must have.
    pub size: u32,
}

/// The numbers of free, queued and held message blocks.
#[repr(C)]
#[derive(Clone, Copy, Debug)]
pub struct StrmCensus {
    /// The number of free blocks.
    pub free: u32,
    /// The number of blocks in messages on queues.
    pub queued: u32,
    /// The number of blocks in held messages.
    pub held: u32,
}

/// The size of a class, and its free and total data blocks.
#[repr(C)]
#[derive(Clone, Copy, Debug)]
pub struct StrmClassInfo {
    /// The capacity of each data block, in bytes.
    pub size: u32,
    /// The number of free data blocks.
    pub free: u32,
    /// The number of data blocks.
    pub total: u32,
}

impl StrmBlockInfo {
    // A block's fields as the struct of C.
    pub(crate) fn of(block: BlockInfo) -> StrmBlockInfo
        ensures { result ≡ block_in_c block }
    {
        StrmBlockInfo {
            kind: block.kind as u32,
            length: block.len,
            band: u32::from(block.band),
            room: block.room,
            names: u32::from(block.names),
        }
    }
}

impl StrmBlockShape {
    // Whether its type and its band are such.
    pub(crate) fn is_shape(&self) -> bool
        ensures { result ≡ is_shape self.now }
    {
        type_of(self.kind).is_some() && band_of(self.band).is_some()
    }
}

impl Shaped for StrmBlockShape {
    ghost shape = { shape_of };

    // A number of no type is taken for M_DATA, and one of no band for band 0.
    fn shape(self) -> Shape {
        Shape {
            at: self.at,
            len: self.length,
            kind: type_of(self.kind).unwrap_or(MsgType::MData),
            band: band_of(self.band).unwrap_or(0),
        }
    }
}

impl StrmBlockPlace {
    // A block's place as the struct of C.
    pub(crate) fn of(place: BlockPlace) -> StrmBlockPlace
        ensures { result ≡ place_in_c place }
    {
        StrmBlockPlace {
            data: place.data,
            at: place.at,
            length: place.len,
            capacity: place.capacity,
        }
    }
}

impl StrmQueued {
    // What a queued message is like as the struct of C.
    pub(crate) fn of(queued: QueuedInfo) -> StrmQueued
        ensures { result ≡ queued_in_c queued }
    {
        StrmQueued {
            head: queued.head,
            kind: queued.kind as u32,
            band: u32::from(queued.band),
            bytes: queued.size,
            blocks: queued.blocks,
        }
    }
}

impl StrmService {
    // A service as the struct of C.
    pub(crate) fn of(service: Service) -> StrmService
        ensures { result ≡ service_in_c service }
    {
        StrmService {
            queue: u32::from(service.queue),
            next: u32::from(service.next),
            held: service.held,
        }
    }
}

impl StrmQueueSpec {
    // A queue's configuration as the struct of C.
    pub(crate) fn of(spec: QueueSpec) -> StrmQueueSpec
        ensures { result ≡ spec_in_c spec }
    {
        StrmQueueSpec {
            hiwat: spec.hiwat,
            lowat: spec.lowat,
            service: u32::from(spec.service),
            next: number_of_next(spec.next),
        }
    }
}

impl StrmQueueInfo {
    // A queue's counts and marks as the struct of C.
    pub(crate) fn of(queue: QueueInfo) -> StrmQueueInfo
        ensures { result ≡ queue_in_c queue }
    {
        StrmQueueInfo {
            msgs: queue.msgs,
            bytes: queue.bytes,
            read: u32::from(queue.read),
            noenable: u32::from(queue.noenable),
            enabled: u32::from(queue.enabled),
        }
    }
}

impl StrmBandInfo {
    // A band's bytes and marks as the struct of C.
    pub(crate) fn of(band: BandInfo) -> StrmBandInfo
        ensures { result ≡ band_in_c band }
    {
        StrmBandInfo {
            bytes: band.bytes,
            full: u32::from(band.full),
            wanted: u32::from(band.wanted),
        }
    }
}

impl StrmMarks {
    // Water marks as the struct of C.
    pub(crate) fn of(marks: Marks) -> StrmMarks
        ensures { result ≡ marks_in_c marks }
    {
        StrmMarks {
            hiwat: marks.hiwat,
            lowat: marks.lowat,
        }
    }
}

impl StrmWish {
    // A wish's id and size as the struct of C.
    pub(crate) fn of(wish: (u32, u32)) -> StrmWish
        ensures { result ≡ wish_in_c wish }
    {
        let (id, size) = wish;
        StrmWish { id, size }
    }
}

impl StrmCensus {
    // A census as the struct of C.
    pub(crate) fn of(census: Census) -> StrmCensus
        ensures { result ≡ census_in_c census }
    {
        StrmCensus {
            free: census.free,
            queued: census.queued,
            held: census.held,
        }
    }
}

impl StrmClassInfo {
    // A class's counts as the struct of C.
    pub(crate) fn of(class: ClassInfo) -> StrmClassInfo
        ensures { result ≡ class_in_c class }
    {
        StrmClassInfo {
            size: class.size,
            free: class.free,
            total: class.total,
        }
    }
}
