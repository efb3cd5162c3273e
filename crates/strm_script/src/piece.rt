//! Pieces: values that are appended to a text.
ghost use Rattle.std.specs.Prelude.{◌≡◌, ◌++◌, ℕ, List, OnOk, OnErr, decimal};
ghost use Rattle.strm_script.specs.Piece.{Begins};

use itoa::Buffer;
use std::alloc::AllocError;

/// Makes one piece from several, in order.
macro_rules! pieces {
    ($last:expr) => { $last };
    ($first:expr, $($rest:expr),+) => { ($first, pieces!($($rest),+)) };
}

pub(crate) use pieces;

/// A value that can be appended to a text.
pub trait Piece: Copy {
    ghost bytes: { Self → List ℕ };

    /// Appends the piece. If memory is refused, the text may end with a part of it.
    fn append(self, text: &mut Vec<u8>) -> Result<(), AllocError>
        ensures ok { OnOk result (text.new.items ≡ text.old.items ++ bytes self) }
        ensures refused { OnErr result (Begins text.old.items text.new.items) };
}

impl Piece for &str {
    ghost bytes = { λ word. word.now };

    #[inline(always)]
    fn append(self, text: &mut Vec<u8>) -> Result<(), AllocError> {
        text.extend_from_slice(self.as_bytes())
    }
}

impl Piece for u8 {
    ghost bytes = { decimal };

    // Fast path: most numbers have one digit.
    fn append(self, text: &mut Vec<u8>) -> Result<(), AllocError> {
        if self < 10 {
            text.extend_from_slice(&[b'0' + self])
        } else {
            u32::from(self).append(text)
        }
    }
}

impl Piece for u32 {
    ghost bytes = { decimal };

    fn append(self, text: &mut Vec<u8>) -> Result<(), AllocError> {
        text.extend_from_slice(Buffer::new().format(self).as_bytes())
    }
}

impl Piece for u64 {
    ghost bytes = { decimal };

    fn append(self, text: &mut Vec<u8>) -> Result<(), AllocError> {
        text.extend_from_slice(Buffer::new().format(self).as_bytes())
    }
}

/// `1` if it is true, else `0`.
impl Piece for bool {
    ghost use Rattle.strm_script.specs.Text.{flag_text};

    ghost bytes = { flag_text };

    fn append(self, text: &mut Vec<u8>) -> Result<(), AllocError> {
        u8::from(self).append(text)
    }
}

/// The first piece, then the second.
impl<A: Piece, B: Piece> Piece for (A, B) {
    ghost bytes = { λ pieces. A.bytes pieces.0 ++ B.bytes pieces.1 };

    #[inline(always)]
    fn append(self, text: &mut Vec<u8>) -> Result<(), AllocError> {
        self.0.append(text)?;
        self.1.append(text)
    }
}

/// Appends a piece. If memory is refused, the text is unchanged.
pub fn append_whole<P: Piece>(text: &mut Vec<u8>, piece: P) -> Result<(), AllocError>
    ensures ok { OnOk result (text.new.items ≡ text.old.items ++ P.bytes piece) }
    ensures refused { OnErr result (text.new.items ≡ text.old.items) }
{
    let length = text.len();
    let appended = piece.append(text);
    if appended.is_err() {
        text.truncate(length);
    }
    appended
}
