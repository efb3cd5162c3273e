//! Refusals: one type for all layers, with a number and a name for each.
ghost use Rattle.std.specs.Prelude.{◌≡◌};
ghost use Rattle.strm_data.specs.Refusal.{number_of, name_of};

use thiserror::Error;

/// Why a call is refused. A refused call changes nothing and returns its tokens. One exception: when a shared pool
/// refuses a call as `Worn` or `TraceFull`, the desk sees the stamp that shows why.
///
/// A refusal's number is its discriminant; transcripts show it beside the name. No refusal has number 15. The numbers are
/// this project's own choice.
#[derive(Clone, Copy, Debug, PartialEq, Eq, Error)]
pub enum Refusal {
    /// A call asks for more bytes than a data block of the largest class has. Or `transfer` would copy a data block that is
    /// larger than the other pool's largest class.
    #[error("the size is above the largest class")]
    TooLarge = 1,
    /// A call needs more message blocks than are free.
    #[error("fewer message blocks are free than the call needs")]
    NoMblk = 2,
    /// A call needs a data block, and no free one is large enough.
    #[error("no data block is free of a class that fits")]
    NoData = 3,
    /// A data block would get more than `MOST_REFERENCES` references.
    #[error("too many message blocks would refer to one data block")]
    RefMax = 4,
    /// A call names a block that the message does not have. Blocks count from 0.
    #[error("the message has no such block")]
    NoSuchBlock = 5,
    /// A call would change a data block that another message block refers to.
    #[error("more than one message block refers to the data block")]
    Shared = 6,
    /// `write` or `advance` has more bytes than fit after the write place, `prepend` more than fit before the read place.
    /// Or `reserve` asks for more bytes than the data block has, or for a block that has bytes already.
    #[error("the bytes do not fit in the data block")]
    NoRoom = 7,
    /// `adjmsg` would remove more bytes than the blocks at that end have: at the head the leading blocks of the first
    /// block's type, at the tail the trailing blocks of the last block's type. Or `pullupmsg` asks for more bytes than
    /// the leading blocks have, or its count is below -1. Or `overwrite` would go past the message's last byte.
    #[error("the message has too few bytes, or too few of one type")]
    Short = 8,
    /// A call names a place at which the queue has no message, `insq` one after the queue's end. Places count from 0.
    #[error("the queue has no such place")]
    NoSuchPlace = 9,
    /// A message would be put before one of a greater rank, or after one of a lesser rank.
    #[error("the ranks would rise from front to back")]
    BadOrder = 10,
    /// A call names a queue that the pool does not have. Queues count from 0.
    #[error("there is no such queue")]
    NoSuchQueue = 11,
    /// `bufcall` is called while the greatest number of wishes is recorded.
    #[error("no more wishes can be recorded")]
    Full = 12,
    /// `bufcall` has no id left: it gave the last one.
    #[error("the last id was given")]
    IdsSpent = 13,
    /// `unbufcall` names a wish that is not recorded.
    #[error("no wish has this id")]
    NotPending = 14,
    /// Reserved and never returned. A token belongs to the pool that gave it, and is spent once.
    #[error("reserved: no call returns this refusal")]
    Stranger = 16,
    /// A shared pool has no room in its trace for another call.
    #[error("the trace is full")]
    TraceFull = 17,
    /// A shared pool has no stamp left: it gave the last one.
    #[error("the last stamp was given")]
    Worn = 18,
    /// A shared pool is to be taken apart, but a desk that it handed out is missing.
    #[error("a desk that was handed out is not among those gathered")]
    DeskMissing = 19,
    /// A band would get a low water mark that is not below the high one.
    #[error("the low water mark is not below the high one")]
    BadMarks = 20,
    /// A pool is to be shared with no desk or too many, with a trace of no entries or too many, or from a first stamp
    /// that is too great.
    #[error("the number of desks, the length of the trace or the first stamp is out of range")]
    BadShared = 21,
}

impl Refusal {
    /// Returns the refusal's number.
    pub fn number(self) -> u8
        ensures { result ≡ number_of self }
    {
        self as u8
    }

    /// Returns the refusal's name, as transcripts show it.
    pub fn name(self) -> &'static str
        ensures { result.now ≡ name_of self }
    {
        match self {
            Refusal::TooLarge => "TooLarge",
            Refusal::NoMblk => "NoMblk",
            Refusal::NoData => "NoData",
            Refusal::RefMax => "RefMax",
            Refusal::NoSuchBlock => "NoSuchBlock",
            Refusal::Shared => "Shared",
            Refusal::NoRoom => "NoRoom",
            Refusal::Short => "Short",
            Refusal::NoSuchPlace => "NoSuchPlace",
            Refusal::BadOrder => "BadOrder",
            Refusal::NoSuchQueue => "NoSuchQueue",
            Refusal::Full => "Full",
            Refusal::IdsSpent => "IdsSpent",
            Refusal::NotPending => "NotPending",
            Refusal::Stranger => "Stranger",
            Refusal::TraceFull => "TraceFull",
            Refusal::Worn => "Worn",
            Refusal::DeskMissing => "DeskMissing",
            Refusal::BadMarks => "BadMarks",
            Refusal::BadShared => "BadShared",
        }
    }
}
