//! Which messages `flushq` and `flushband` free (STREAMS' FLUSHALL and FLUSHDATA).

/// Which messages of a queue, or of one of its bands, a flush frees.
#[derive(Clone, Copy, Debug, PartialEq, Eq)]
pub enum Flush {
    /// All messages.
    All,
    /// Messages whose first block is of type `MData`, `MProto`, `MPcproto` or `MDelay`.
    Data,
}
