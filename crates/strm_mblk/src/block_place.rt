//! What `place` returns of one message block, and what `shape_all` gives one.
ghost use Rattle.std.specs.Prelude.{◌≡◌};

use strm_data::MsgType;

/// Where a block of a message has its bytes: in its data block, `len` bytes from place `at` on.
///
/// The number of a data block is below the number of data blocks of all classes together, and never changes. Of a message's
/// blocks, `pullupmsg` may give the first another data block. So a caller can keep memory of its own for each data block,
/// such as a buffer that a device uses.
#[derive(Clone, Copy, Debug, PartialEq, Eq)]
pub struct BlockPlace {
    /// The number of the data block. Data blocks are numbered from 0 on, class by class.
    pub data: u32,
    /// The read place in the data block, in bytes from 0 on (`b_rptr` in STREAMS).
    pub at: u32,
    /// The number of bytes between the read place and the write place.
    pub len: u32,
    /// The number of bytes of the data block.
    pub capacity: u32,
}

/// What [`Blocks::shape_all`](crate::Blocks::shape_all) gives a block of a message: its places, its type and its band.
#[derive(Clone, Copy, Debug, PartialEq, Eq)]
pub struct Shape {
    /// The read place in its data block, in bytes from 0 on.
    pub at: u32,
    /// The number of bytes between the read place and the write place.
    pub len: u32,
    /// The type of its data block.
    pub kind: MsgType,
    /// The block's band, 0 to 255.
    pub band: u8,
}

/// What a list of shapes can be made of: [`Shape`], or a type of the caller's that says the same, such as a struct of C. So
/// an array of such needs no memory to become one of `Shape`.
pub trait Shaped: Copy {
    ghost use Rattle.strm_mblk.specs.declared.block_place.Shape.{Shape};

    ghost shape: { Self → Shape };

    /// Returns the shape.
    fn shape(self) -> Shape
        ensures { result ≡ shape self };
}

impl Shaped for Shape {
    ghost shape = { λ s. s };

    fn shape(self) -> Shape {
        self
    }
}
