//! Reading the whole input of a run, up to a limit.
ghost use Rattle.std.specs.Prelude.{◌≡◌, ◌||◌, ◌≤◌, ◌<◌, ◌+◌, ℕ, List, length, IfOk, IfSome, Err};
ghost use Rattle.std.specs.Io.KnownBytes.{Consumes};
ghost use Rattle.strm_script.specs.Limits.{most_script_bytes};
ghost use Rattle.strm_run.specs.Told.{errs, is_read, run_fault_of_read};
ghost use Rattle.strm_run.specs.Watched.{Stops};

use crate::watched::Watched;
use std::alloc::{AllocError, Global};
use std::io::Read;
use thiserror::Error;

// The greatest number of bytes that one read asks for.
const CHUNK: usize = 4096;

/// Why an input was not read.
#[derive(Clone, Copy, Debug, PartialEq, Eq, Error)]
pub enum ReadFault {
    /// The reader failed.
    #[error("read fault")]
    Read,
    /// The input is longer than it may be.
    #[error("input too long")]
    TooLong,
    /// Memory was refused.
    #[error("memory")]
    Memory,
}

impl From<AllocError> for ReadFault {
    ghost use Rattle.strm_run.specs.declared.input.ReadFault.TheVariants.{Memory};

    ghost from_gives = { λ _ e. e ≡ Memory };

    fn from(_error: AllocError) -> ReadFault {
        ReadFault::Memory
    }
}

/// Reads the whole input, of at most `max` bytes. Fails as `Read` if the reader fails, `TooLong` if there are more bytes, and
/// `Memory` if memory is refused. It takes at most `max` + 1 bytes from the reader, and at most `max` before a read that fails.
/// After a read that fails or finds the end, it makes no other.
pub fn read_input<R: Read>(
    alloc: Global,
    max: u32,
    reader: &mut Watched<R>,
) -> Result<Vec<u8>, ReadFault>
    requires least { 1 ≤ max }
    requires most { max ≤ most_script_bytes }
    ensures ok { IfOk result (λ v. (length v.items ≤ max)
        × IfSome (R.remaining reader.old.inner) (λ input. v.items ≡ input)) }
    ensures too_long { result ≡ Err ReadFault.TooLong
        → IfSome (R.remaining reader.old.inner) (λ input. max < length input) }
    ensures reader { reader.new.failed ≡ (reader.old.failed || errs (λ fault. is_read (run_fault_of_read fault))
        result) }
    ensures stops { Stops reader.old reader.new }
    ensures taken { (bytes : List ℕ) × Consumes (R.remaining reader.old.inner) (R.remaining reader.new.inner) bytes
        × (length bytes ≤ max + 1) × (result ≡ Err ReadFault.Read → length bytes ≤ max) }
{
    let most = max as usize;
    let mut chunk = [0; CHUNK];
    let mut input = Vec::new(alloc);
    while input.len() <= most {
        let room = CHUNK.min(most + 1 - input.len());
        match reader.read(&mut chunk[..room]) {
            Ok(0) => return Ok(input),
            Ok(count) => input.extend_from_slice(&chunk[..count])?,
            Err(_) => return Err(ReadFault::Read),
        }
    }
    Err(ReadFault::TooLong)
}
