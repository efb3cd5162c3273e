//! Replies as data, and how each is made from a call's result.
ghost use Rattle.std.specs.Prelude.{◌≡◌};
ghost use Rattle.strm_pool.specs.declared.reply.Reply.TheVariants as replies;
ghost use Rattle.strm_pool.specs.Shapes.{reply_done, reply_made};
ghost use Rattle.strm_pool.specs.Step.{marks_reply, queue_or_nothing, ready_or_nothing, yes_or_no};

use crate::short_list::Octets;
use strm_data::Refusal;
use strm_mblk::{BlockInfo, Census};
use strm_queue::Marks;

/// The reply to a call that is given as data.
#[derive(Debug, PartialEq, Eq, Drop)]
pub enum Reply {
    /// The call was done.
    Done,
    /// To `testb`: `allocb` for this size would succeed. To `bcanput`: the band has room.
    Yes,
    /// To `testb`: `allocb` for this size would be refused. To `bcanput`: the band is full, and is wanted from now on.
    No,
    /// The call was done, and there was nothing to return.
    Nothing,
    /// A source of the call has no token, or both sources are one register. Nothing changed.
    Empty,
    /// The destination of the call has a token, and nothing changed.
    Taken,
    /// The number of bytes of a message, or of messages on a queue.
    Size(u32),
    /// Bytes of a message.
    Bytes(Octets),
    /// What a block is like.
    Block(BlockInfo),
    /// The id of a wish.
    Id(u32),
    /// The id and the size of a wish.
    Ready(u32, u32),
    /// The number of a queue.
    Queue(u8),
    /// The high and the low water mark of a band.
    Marks(u32, u32),
    /// The numbers of free, queued and held message blocks.
    Census(Census),
    /// The call was refused, and nothing changed.
    Refused(Refusal),
}

impl Reply {
    /// Returns an equal reply, with its own bytes if it carries any. This allocates nothing, so it cannot fail as `clone`
    /// can.
    pub fn copy(&self) -> Reply
        ensures { result ≡ self.now }
    {
        match *self {
            Reply::Done => Reply::Done,
            Reply::Yes => Reply::Yes,
            Reply::No => Reply::No,
            Reply::Nothing => Reply::Nothing,
            Reply::Empty => Reply::Empty,
            Reply::Taken => Reply::Taken,
            Reply::Size(size) => Reply::Size(size),
            Reply::Bytes(ref bytes) => Reply::Bytes(bytes.copy()),
            Reply::Block(info) => Reply::Block(info),
            Reply::Id(id) => Reply::Id(id),
            Reply::Ready(id, size) => Reply::Ready(id, size),
            Reply::Queue(queue) => Reply::Queue(queue),
            Reply::Marks(hiwat, lowat) => Reply::Marks(hiwat, lowat),
            Reply::Census(census) => Reply::Census(census),
            Reply::Refused(why) => Reply::Refused(why),
        }
    }

    // Sets `Yes` if the answer is true, else `No`.
    pub(crate) fn set_yes_or_no(&mut self, answer: bool)
        ensures { self.new ≡ yes_or_no answer }
    {
        if answer {
            *self = Reply::Yes;
        } else {
            *self = Reply::No;
        }
    }

    // Sets `Yes`, `No`, or the refusal.
    pub(crate) fn set_truth(&mut self, answer: Result<bool, Refusal>)
        ensures { self.new ≡ reply_made yes_or_no answer }
    {
        match answer {
            Ok(answer) => self.set_yes_or_no(answer),
            Err(why) => *self = Reply::Refused(why),
        }
    }

    // Sets the number of a queue, or `Nothing`.
    pub(crate) fn set_queue(&mut self, answer: Option<u8>)
        ensures { self.new ≡ queue_or_nothing answer }
    {
        match answer {
            Some(queue) => *self = Reply::Queue(queue),
            None => *self = Reply::Nothing,
        }
    }

    // Sets the water marks of a band, or the refusal.
    pub(crate) fn set_marks(&mut self, answer: Result<Marks, Refusal>)
        ensures { self.new ≡ reply_made marks_reply answer }
    {
        match answer {
            Ok(marks) => *self = Reply::Marks(marks.hiwat, marks.lowat),
            Err(why) => *self = Reply::Refused(why),
        }
    }

    // Sets the id of a wish, or the refusal.
    pub(crate) fn set_id(&mut self, answer: Result<u32, Refusal>)
        ensures { self.new ≡ reply_made (λ id. replies.Id id) answer }
    {
        match answer {
            Ok(id) => *self = Reply::Id(id),
            Err(why) => *self = Reply::Refused(why),
        }
    }

    // Sets the id and size of a wish, or `Nothing`.
    pub(crate) fn set_ready(&mut self, answer: Option<(u32, u32)>)
        ensures { self.new ≡ ready_or_nothing answer }
    {
        match answer {
            Some((id, size)) => *self = Reply::Ready(id, size),
            None => *self = Reply::Nothing,
        }
    }

    // Sets `Done`, or the refusal.
    pub(crate) fn set_done(&mut self, answer: Result<(), Refusal>)
        ensures { self.new ≡ reply_done answer }
    {
        match answer {
            Ok(()) => *self = Reply::Done,
            Err(why) => *self = Reply::Refused(why),
        }
    }

    // Sets what a block is like, or the refusal.
    pub(crate) fn set_block(&mut self, answer: Result<BlockInfo, Refusal>)
        ensures { self.new ≡ reply_made (λ info. replies.Block info) answer }
    {
        match answer {
            Ok(info) => *self = Reply::Block(info),
            Err(why) => *self = Reply::Refused(why),
        }
    }

    // Sets a size, or the refusal.
    pub(crate) fn set_size(&mut self, answer: Result<u32, Refusal>)
        ensures { self.new ≡ reply_made (λ size. replies.Size size) answer }
    {
        match answer {
            Ok(size) => *self = Reply::Size(size),
            Err(why) => *self = Reply::Refused(why),
        }
    }
}
