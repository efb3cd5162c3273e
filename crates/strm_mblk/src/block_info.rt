//! What `block` returns of one message block.

use strm_data::MsgType;

/// One block of a message: its type, length, band and room, and the references to its data block.
#[derive(Clone, Copy, Debug, PartialEq, Eq)]
pub struct BlockInfo {
    /// The type of its data block.
    pub kind: MsgType,
    /// The number of bytes between its read place and its write place.
    pub len: u32,
    /// Its band, 0 to 255.
    pub band: u8,
    /// The number of bytes that fit into its data block after the write place.
    pub room: u32,
    /// The number of references to its data block, 1 to [`MOST_REFERENCES`](strm_data::MOST_REFERENCES).
    pub names: u8,
}
