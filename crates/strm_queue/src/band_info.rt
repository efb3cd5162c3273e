//! What [`Queues::band_info`](crate::Queues::band_info) returns of one band of a queue.

/// The bytes and the marks of one band of a queue.
#[derive(Clone, Copy, Debug, PartialEq, Eq)]
pub struct BandInfo {
    /// The number of bytes of its messages. High priority messages count with band 0.
    pub bytes: u32,
    /// The full mark: the band has at least as many bytes as its high water mark.
    pub full: bool,
    /// The wanted mark: `bcanput` found the band full, and it has had more bytes than its low water mark since.
    pub wanted: bool,
}
