//! Room for the text of a run, and writing the text.
ghost use Rattle.std.specs.Prelude.{◌≡◌, ◌≤◌, ◌||◌, ℕ, take, OnOk, OnErr, is_err, length, sum_by};
ghost use Rattle.std.specs.Io.KnownBytes.{Appends};
ghost use Rattle.strm_script.specs.Limits.{most_command_lines};
ghost use Rattle.strm_run.specs.Watched.{Stops};

use crate::watched::Watched;
use std::io::Write;
use strm_shared::Lines;
use thiserror::Error;

// The number of bytes that the text of most command lines needs at most.
const BYTES_OF_LINE: usize = 16;

/// Returns the number of command lines in these sections.
pub fn lines_in(parts: &[Lines]) -> u32
    requires { sum_by length parts.now ≤ most_command_lines }
    ensures { result ≡ sum_by length parts.now }
{
    let mut lines: u32 = 0;
    for i in 0..parts.len() {
        lines += parts[i].items().len() as u32;
    }
    lines
}

/// Returns the number of bytes for which there is room at first, for this number of command lines.
pub fn room_for(lines: usize) -> usize {
    lines.saturating_mul(BYTES_OF_LINE)
}

/// The writer failed, or took no bytes.
#[derive(Clone, Copy, Debug, PartialEq, Eq, Error)]
#[error("write fault")]
pub struct WriteFault;

/// Writes a text and flushes the writer. After a fault, a prefix of the text was written, and no other call is made.
pub fn write_text<W: Write>(writer: &mut Watched<W>, text: &[u8]) -> Result<(), WriteFault>
    ensures ok { OnOk result (Appends (W.contents writer.old.inner) (W.contents writer.new.inner) text.now) }
    ensures cut { OnErr result ((n : ℕ) × Appends (W.contents writer.old.inner) (W.contents writer.new.inner)
        (take n text.now)) }
    ensures writer { writer.new.failed ≡ (writer.old.failed || is_err result) }
    ensures stops { Stops writer.old writer.new }
    ensures desks { writer.new.desks ≡ writer.old.desks }
{
    let mut written = 0;
    while written < text.len() {
        match writer.write(&text[written..]) {
            Ok(0) | Err(_) => return Err(WriteFault),
            Ok(count) => written += count,
        }
    }
    match writer.flush() {
        Ok(()) => Ok(()),
        Err(_) => Err(WriteFault),
    }
}
