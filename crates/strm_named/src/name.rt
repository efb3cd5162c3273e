//! Names: what callers hold instead of tokens.

/// The name of a held message: a plain value, which can be copied, kept, compared, and made up.
///
/// A name is valid from the call that returned it until its message is handed over: by `freemsg`, `freeb`, `rmvb`, `putq`,
/// `putq_in_burst`, `putbq`, `hold`, `insq`, `insq_before`, `transfer`, or as the second message of `linkb`. Each call that
/// gives a message returns a new name. So a name that was handed over stays invalid, until 2^64 messages were given that begin
/// with the same block. Names of two pools differ if the pools have different ids. In memory a name is a struct of C. This is
/// this project's own; STREAMS passes pointers.
#[repr(C)]
#[derive(Clone, Copy, Debug, PartialEq, Eq)]
pub struct Name {
    /// The id of the pool that returned the name.
    pub pool: u32,
    /// The number of the message's first block.
    pub head: u32,
    /// The number of messages that were given so far and begin with this block, this one included.
    pub stamp: u64,
}
