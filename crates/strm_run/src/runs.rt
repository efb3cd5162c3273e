//! A run: from the bytes of a script to the bytes of its text.
ghost use Rattle.std.specs.Prelude.{◌≡◌, ◌≢◌, ◌≤◌, ◌+◌, ◌||◌, ℕ, List, length, take, OnOk, IfOk, IfErr, IfSome, IsOkAnd, None, Err};
ghost use Rattle.std.specs.Io.KnownBytes.{Appends, Consumes, Keeps};
ghost use Rattle.strm_script.specs.Limits.{most_script_bytes};
ghost use Rattle.strm_script.specs.Script.{script_of};
ghost use Rattle.strm_run.specs.Outcome.{fault_of_script, fault_of_input, IsTextBy, IsTextOf, IsTextOfInput};
ghost use Rattle.strm_run.specs.Told.{IsRunFault, TellsFault, run_fault_of_text, errs, is_read, is_write};
ghost use Rattle.strm_run.specs.Watched.{Stops};

use crate::by_workers::{ServedText, workers_text};
use crate::fault::{RunFault, TextFault};
use crate::input::read_input;
use crate::output::write_text;
use crate::serial::serial_text;
use crate::watched::Watched;
use std::alloc::Global;
use std::io::{Read, Write};
use std::sync::Wait;
use std::thread::Threads;
use strm_script::parse;
use strm_shared::{Gate, SpentDesks};

/// How the lines of a script are executed.
#[derive(Clone, Copy, Debug, PartialEq, Eq)]
pub enum Mode {
    /// On one thread, worker 0's lines first, then worker 1's, and so on.
    Serial,
    /// By workers, each on its own thread.
    Workers,
}

// The text of the script that these bytes are, with the desks of its workers; or the first fault of the script or its
// configuration. The bytes are freed after they are read.
fn text_of_script<E: Threads + Wait + Sync, G: Gate>(
    rt: &E,
    alloc: Global,
    mode: Mode,
    gate: &G,
    bytes: Vec<u8>,
) -> Result<ServedText, TextFault>
    requires { length bytes.items ≤ most_script_bytes }
    ensures text { IfOk result (λ served. IsOkAnd (script_of bytes.items) (λ script.
        IsTextOf mode script served.text.items)) }
    ensures ordered { IfOk result (λ served. IsOkAnd (script_of bytes.items) (λ script.
        IsTextBy mode script served.desks served.text.items)) }
    ensures lawful { OnOk result (fault_of_script (script_of bytes.items) ≡ None) }
    ensures refused { IfErr result (λ fault. TellsFault (run_fault_of_text fault)
        (fault_of_script (script_of bytes.items))) }
    ensures met { IfErr result (λ fault. IsRunFault (run_fault_of_text fault)) }
{
    let script = parse(alloc, &bytes)?;
    drop(bytes);
    let served = match mode {
        Mode::Serial => ServedText {
            text: serial_text(alloc, script)?,
            desks: SpentDesks::new(),
        },
        Mode::Workers => workers_text(rt, alloc, gate, script)?,
    };
    Ok(served)
}

/// Reads a script of at most `max` bytes, executes its lines, and writes the transcript and the report. Workers call the gate
/// around each line that they execute. The writer then keeps their desks, which are spent; in serial mode there are none.
pub fn run<E: AllocGlobal + Threads + Wait + Sync, G: Gate, R: Read, W: Write>(
    rt: &E,
    mode: Mode,
    max: u32,
    gate: &G,
    reader: &mut Watched<R>,
    writer: &mut Watched<W>,
) -> Result<(), RunFault>
    requires least { 1 ≤ max }
    requires most { max ≤ most_script_bytes }
    // If the run succeeds, the bytes that were read have no fault, and exactly the text of their script was written.
    ensures text { OnOk result (IfSome (R.remaining reader.old.inner) (λ input.
        (text : List ℕ) × IsTextOfInput mode max input text
        × Appends (W.contents writer.old.inner) (W.contents writer.new.inner) text)) }
    // The lines of that text are in the order in which the writer's desks were served.
    ensures ordered { OnOk result (IfSome (R.remaining reader.old.inner) (λ input.
        (text : List ℕ) × IsOkAnd (script_of input) (λ script. IsTextBy mode script writer.new.desks text)
        × Appends (W.contents writer.old.inner) (W.contents writer.new.inner) text)) }
    // If it fails as `TooLong`, `Script` or `Config`, that is the first fault of the input.
    ensures refused { IfErr result (λ fault. IfSome (R.remaining reader.old.inner) (λ input.
        TellsFault fault (fault_of_input max input))) }
    // No run fails as `Refused`.
    ensures met { IfErr result IsRunFault }
    // After a write fault a prefix of the text was written.
    ensures cut { result ≡ Err RunFault.Write → IfSome (R.remaining reader.old.inner) (λ input.
        (text : List ℕ) × IsTextOfInput mode max input text
        × ((n : ℕ) × Appends (W.contents writer.old.inner) (W.contents writer.new.inner) (take n text))) }
    // Its lines are in the same order.
    ensures cut_ordered { result ≡ Err RunFault.Write → IfSome (R.remaining reader.old.inner) (λ input.
        (text : List ℕ) × IsOkAnd (script_of input) (λ script. IsTextBy mode script writer.new.desks text)
        × ((n : ℕ) × Appends (W.contents writer.old.inner) (W.contents writer.new.inner) (take n text))) }
    // After any other fault, nothing was written.
    ensures unwritten { IfErr result (λ fault. fault ≢ RunFault.Write
        → Keeps (W.contents writer.old.inner) (W.contents writer.new.inner)) }
    // A run fails as `Read` exactly if the reader failed, and as `Write` exactly if the writer did.
    ensures reader { reader.new.failed ≡ (reader.old.failed || errs is_read result) }
    ensures writer { writer.new.failed ≡ (writer.old.failed || errs is_write result) }
    // After a read that fails or finds the end, no read follows. After a write or flush that fails, neither follows.
    ensures stops { Stops reader.old reader.new × Stops writer.old writer.new }
    // At most `max` + 1 bytes are taken from the reader; if more than `max` were, the run does not fail as `Read`.
    ensures taken { (bytes : List ℕ) × Consumes (R.remaining reader.old.inner) (R.remaining reader.new.inner) bytes
        × (length bytes ≤ max + 1) × (result ≡ Err RunFault.Read → length bytes ≤ max) }
{
    let input = read_input(rt.alloc(), max, reader)?;
    let ServedText { text, desks } = text_of_script(rt, rt.alloc(), mode, gate, input)?;
    writer.keep_desks(desks);
    write_text(writer, &text)?;
    Ok(())
}
