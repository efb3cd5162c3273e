//! The two water marks of a band, which flow control compares with its bytes.

/// The water marks of one band of a queue, in bytes.
#[derive(Clone, Copy, Debug, PartialEq, Eq)]
pub struct Marks {
    /// The high water mark: a band with at least as many bytes is full.
    pub hiwat: u32,
    /// The low water mark: a wanted band has drained once it has at most as many bytes.
    pub lowat: u32,
}
