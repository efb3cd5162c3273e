//! The forms and the rows, by their names.

/// How a row's calls are made.
#[derive(Clone, Copy)]
pub(crate) enum Form {
    /// On the pool, with tokens.
    Direct,
    /// By `apply_into`, with registers.
    Apply,
    /// By `serve_into`, on one desk.
    Serve,
    /// By `serve_into`, on one desk, with a trace.
    Trace,
    /// By `serve_all`, on one desk.
    Batch,
    /// By `serve_into`, on four desks, each with a thread of its own.
    Four,
    /// By `serve_all`, on four desks, each with a thread of its own.
    FourBatches,
}

/// What a round does; README.md describes each.
#[derive(Clone, Copy)]
pub(crate) enum Row {
    Open,
    Allocb,
    Dupb,
    Dupmsg,
    Write,
    Queued,
    Build,
    Pullup,
    CopymsgFour,
    DupmsgFour,
    Unlinkb,
    Settype,
    Setband,
    Has,
    Size,
    Read,
    Block,
    Census,
    Testb,
    Putq,
    PutqRanked,
    PutqFull,
    Putbq,
    PutbqRanked,
    Rmvq,
    Insq,
    Flushband,
    Bcanput,
    Strqset,
    Qsize,
    Qenable,
    Bufcall,
    Look,
    Bytes,
    ReadAll,
    Edit,
    OverwriteByte,
    Rebuild,
    Overwrite,
    Fill,
    Advance,
    Prepend,
    Reserve,
    Place,
    Walk,
    EachBlock,
    FirstQueued,
    QueuedAfter,
    QueuedAt,
    ReadQueued,
    QueueSpec,
    Transfer,
}

/// What the calls of a row are made on, in the form `Direct`.
#[derive(Clone, Copy)]
pub(crate) enum Group {
    /// Messages that the round makes.
    Messages,
    /// The pool, which does not change.
    Looks,
    /// A message that stays held.
    Held,
    /// The bytes of a message, in place.
    InPlace,
    /// Queues.
    Queues,
    /// A queue that has messages, which does not change.
    QueueLooks,
    /// A message that goes to another pool.
    Pools,
}

// Each row, with its name.
const ROWS: [(&str, Row); 52] = [
    ("open", Row::Open),
    ("allocb", Row::Allocb),
    ("dupb", Row::Dupb),
    ("dupmsg", Row::Dupmsg),
    ("write", Row::Write),
    ("queued", Row::Queued),
    ("build", Row::Build),
    ("pullup", Row::Pullup),
    ("copymsg_four", Row::CopymsgFour),
    ("dupmsg_four", Row::DupmsgFour),
    ("unlinkb", Row::Unlinkb),
    ("settype", Row::Settype),
    ("setband", Row::Setband),
    ("has", Row::Has),
    ("size", Row::Size),
    ("read", Row::Read),
    ("block", Row::Block),
    ("census", Row::Census),
    ("testb", Row::Testb),
    ("putq", Row::Putq),
    ("putq_ranked", Row::PutqRanked),
    ("putq_full", Row::PutqFull),
    ("putbq", Row::Putbq),
    ("putbq_ranked", Row::PutbqRanked),
    ("rmvq", Row::Rmvq),
    ("insq", Row::Insq),
    ("flushband", Row::Flushband),
    ("bcanput", Row::Bcanput),
    ("strqset", Row::Strqset),
    ("qsize", Row::Qsize),
    ("qenable", Row::Qenable),
    ("bufcall", Row::Bufcall),
    ("look", Row::Look),
    ("bytes", Row::Bytes),
    ("read_all", Row::ReadAll),
    ("edit", Row::Edit),
    ("overwrite_byte", Row::OverwriteByte),
    ("rebuild", Row::Rebuild),
    ("overwrite", Row::Overwrite),
    ("fill", Row::Fill),
    ("advance", Row::Advance),
    ("prepend", Row::Prepend),
    ("reserve", Row::Reserve),
    ("place", Row::Place),
    ("walk", Row::Walk),
    ("each_block", Row::EachBlock),
    ("first_queued", Row::FirstQueued),
    ("queued_after", Row::QueuedAfter),
    ("queued_at", Row::QueuedAt),
    ("read_queued", Row::ReadQueued),
    ("queue_spec", Row::QueueSpec),
    ("transfer", Row::Transfer),
];

impl Form {
    /// Returns the form with this name, if any.
    pub(crate) fn named(name: &str) -> Option<Form> {
        match name {
            "direct" => Some(Form::Direct),
            "apply" => Some(Form::Apply),
            "serve" => Some(Form::Serve),
            "trace" => Some(Form::Trace),
            "batch" => Some(Form::Batch),
            "four" => Some(Form::Four),
            "four_batches" => Some(Form::FourBatches),
            _ => None,
        }
    }
}

impl Row {
    /// Returns the row with this name, if any.
    pub(crate) fn named(name: &str) -> Option<Row> {
        for (known, row) in &ROWS {
            if *known == name {
                return Some(*row);
            }
        }
        None
    }

    /// Returns what the row's calls are made on.
    pub(crate) fn group(self) -> Group {
        match self {
            Row::Allocb
            | Row::Dupb
            | Row::Dupmsg
            | Row::Write
            | Row::Queued
            | Row::Build
            | Row::Pullup => Group::Messages,
            Row::Census | Row::Testb | Row::Qsize => Group::Looks,
            Row::CopymsgFour
            | Row::DupmsgFour
            | Row::Unlinkb
            | Row::Settype
            | Row::Setband
            | Row::Has
            | Row::Size
            | Row::Read
            | Row::Block => Group::Held,
            Row::Bytes
            | Row::Place
            | Row::Walk
            | Row::EachBlock
            | Row::ReadAll
            | Row::Edit
            | Row::OverwriteByte
            | Row::Rebuild
            | Row::Overwrite
            | Row::Fill
            | Row::Advance
            | Row::Prepend
            | Row::Reserve => Group::InPlace,
            Row::FirstQueued
            | Row::QueuedAfter
            | Row::QueuedAt
            | Row::ReadQueued
            | Row::QueueSpec => Group::QueueLooks,
            Row::Transfer => Group::Pools,
            _ => Group::Queues,
        }
    }
}
