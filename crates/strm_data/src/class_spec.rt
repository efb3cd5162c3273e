//! The size classes of data blocks, as a caller asks for them.

/// One size class: `count` data blocks of `size` bytes each.
///
/// The caller chooses the classes. They are this project's own, instead of the sizes to which `allocb` of STREAMS
/// rounds a request up.
#[derive(Clone, Copy, Debug, Default, PartialEq, Eq)]
pub struct ClassSpec {
    /// The capacity of each data block, in bytes.
    pub size: u32,
    /// The number of data blocks.
    pub count: u32,
}
