//! The configuration of a pool, and what can be wrong with it.
ghost use Rattle.std.specs.Prelude.{◌≡◌, ◌≤◌, length};
ghost use Rattle.strm_data.specs.Classes.{sizes_rise, each_has_blocks, total_of};
ghost use Rattle.strm_data.specs.Limits.{most_classes};
ghost use Rattle.strm_queue.specs.QueueSpecs.{marks_meet, times_next, nexts_fit};

use crate::limits::MOST_WISHES;
use crate::short_list::{ClassSpecs, QueueSpecs};
use strm_data::{ClassSpec, MOST_DATA_BLOCK_BYTES, MOST_DATA_BLOCKS};
use strm_mblk::MOST_MESSAGE_BLOCKS;
use strm_queue::QueueSpec;
use thiserror::Error;

/// What [`Pool::new`](crate::Pool::new) makes a pool from. The limits are this project's own choice.
#[derive(Debug, Drop)]
pub struct Config {
    /// The pool's id, which its tokens carry. Give different ids to pools whose tokens can meet.
    pub id: u32,
    /// The number of message blocks, 1 to `MOST_MESSAGE_BLOCKS`.
    pub mblks: u32,
    /// The size classes: sizes rise, from 1 to `MOST_DATA_BLOCK_BYTES`; counts are above 0, and at most `MOST_DATA_BLOCKS`
    /// in all.
    pub classes: ClassSpecs,
    /// The queues: a low water mark is below the high one; a next queue exists, has a greater number than its own queue,
    /// and is named once.
    pub queues: QueueSpecs,
    /// How many `bufcall` wishes there may be at one time, at most `MOST_WISHES`.
    pub bufcalls: u32,
    /// The id of the first wish, from 1 on.
    pub first_id: u32,
}

/// What is wrong with a configuration, in the order of the checks.
#[derive(Clone, Copy, Debug, PartialEq, Eq)]
pub enum Which {
    /// There are no message blocks, or more than `MOST_MESSAGE_BLOCKS`.
    Mblks,
    /// There are no size classes.
    Classes,
    /// A size is not above the one before it, or is 0 or above `MOST_DATA_BLOCK_BYTES`.
    ClassSize,
    /// A class has no data blocks, or all classes together have more than `MOST_DATA_BLOCKS`.
    ClassTotal,
    /// There are no queues.
    Queues,
    /// The low water mark of a queue is not below its high one.
    Marks,
    /// A next queue does not exist, is named twice, or does not have a greater number than its own queue.
    Next,
    /// `bufcalls` is above `MOST_WISHES`.
    Bufcalls,
    /// The id of the first wish is 0.
    FirstId,
}

/// Why a pool was not made, or not shared.
#[derive(Clone, Copy, Debug, PartialEq, Eq, Error)]
pub enum NewFault {
    /// The configuration is not lawful; this is the first fault in the order of [`Which`].
    #[error("bad config: {which}", which = .0.name())]
    BadConfig(Which),
    /// The number of desks, the number of trace entries, or the first stamp is out of range. Only strm_shared returns this.
    #[error("bad shared")]
    BadShared,
    /// Memory was refused; what was taken before is freed.
    #[error("out of memory")]
    Memory,
}

impl Which {
    ghost use Rattle.strm_pool.specs.Config.{name_of};

    /// Returns the fault's name, as `strm` prints it.
    pub fn name(self) -> &'static str
        ensures { result.now ≡ name_of self }
    {
        match self {
            Which::Mblks => "Mblks",
            Which::Classes => "Classes",
            Which::ClassSize => "ClassSize",
            Which::ClassTotal => "ClassTotal",
            Which::Queues => "Queues",
            Which::Marks => "Marks",
            Which::Next => "Next",
            Which::Bufcalls => "Bufcalls",
            Which::FirstId => "FirstId",
        }
    }
}

// Whether each size is above the one before it, and in range.
fn sizes_rise(classes: &[ClassSpec]) -> bool
    ensures { result ≡ sizes_rise 0 classes.now }
{
    let mut below = 0;
    for class in classes {
        if class.size <= below || class.size > MOST_DATA_BLOCK_BYTES {
            return false;
        }
        below = class.size;
    }
    true
}

// Whether each class has data blocks.
fn each_has_blocks(classes: &[ClassSpec]) -> bool
    ensures { result ≡ each_has_blocks classes.now }
{
    classes.iter().all(|class| class.count > 0)
}

// The number of all data blocks.
fn total_of(classes: &[ClassSpec]) -> u64
    requires { length classes.now ≤ most_classes }
    ensures { result ≡ total_of classes.now }
{
    classes.iter().map(|class| u64::from(class.count)).sum()
}

// Whether some queue's low water mark is not below the high one.
fn marks_meet(queues: &[QueueSpec]) -> bool
    ensures { result ≡ marks_meet queues.now }
{
    queues.iter().any(|spec| spec.lowat >= spec.hiwat)
}

// The number of queues whose next is this one.
fn times_next(queues: &[QueueSpec], queue: u8) -> usize
    ensures { result ≡ times_next queues.now queue }
{
    queues
        .iter()
        .filter(|spec| spec.next == Some(queue))
        .count()
}

// Whether each next queue exists, has a greater number than its own queue, and is named once.
#[inline(always)]
fn nexts_fit(queues: &[QueueSpec]) -> bool
    ensures { result ≡ nexts_fit queues.now }
{
    for (number, spec) in queues.iter().enumerate() {
        if let Some(next) = spec.next {
            let ahead = usize::from(next);
            if ahead <= number || ahead >= queues.len() || times_next(queues, next) > 1 {
                return false;
            }
        }
    }
    true
}

impl Config {
    ghost use Rattle.strm_pool.specs.Config.{fault_of};

    /// Returns the first fault, in the order of [`Which`], or none if the configuration is lawful.
    #[inline(always)]
    pub fn fault(&self) -> Option<Which>
        ensures { result ≡ fault_of self.now }
    {
        let classes = self.classes.items();
        let queues = self.queues.items();
        if !(1..=MOST_MESSAGE_BLOCKS).contains(&self.mblks) {
            Some(Which::Mblks)
        } else if classes.is_empty() {
            Some(Which::Classes)
        } else if !sizes_rise(classes) {
            Some(Which::ClassSize)
        } else if !each_has_blocks(classes) || total_of(classes) > u64::from(MOST_DATA_BLOCKS) {
            Some(Which::ClassTotal)
        } else if queues.is_empty() {
            Some(Which::Queues)
        } else if marks_meet(queues) {
            Some(Which::Marks)
        } else if !nexts_fit(queues) {
            Some(Which::Next)
        } else if self.bufcalls as usize > MOST_WISHES {
            Some(Which::Bufcalls)
        } else if self.first_id == 0 {
            Some(Which::FirstId)
        } else {
            None
        }
    }
}
