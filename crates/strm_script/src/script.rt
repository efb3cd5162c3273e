//! A script as data: the configuration of a pool, and the command lines of its workers.
ghost use Rattle.std.specs.Prelude.{◌≤◌, IfOk, length, sum_by};
ghost use Rattle.strm_pool.specs.Limits.{most_workers};
ghost use Rattle.strm_script.specs.Limits.{most_command_lines, most_script_bytes};
ghost use Rattle.strm_script.specs.Parsed.{Parses};
ghost use Rattle.strm_script.specs.Script.{script_of};

use crate::cut::cut_line;
use crate::draft::Draft;
use crate::fault::{Fault, Kind, ParseFault};
use std::alloc::Global;
use strm_pool::{Config, Parts};

/// A script that was read without a fault.
#[derive(Debug, Drop)]
pub struct Script {
    /// The configuration of the pool.
    pub config: Config,
    /// The command lines of each of its 1 to `MOST_WORKERS` sections.
    pub parts: Parts,
}

/// Reads a script of at most `MOST_SCRIPT_BYTES` bytes, line by line. Returns the first fault, or out of memory, whichever
/// comes first.
pub fn parse(alloc: Global, bytes: &[u8]) -> Result<Script, ParseFault>
    requires { length bytes.now ≤ most_script_bytes }
    ensures parses { Parses result (script_of bytes.now) }
    ensures some { IfOk result (λ script. 1 ≤ length script.parts) }
    ensures few { IfOk result (λ script. length script.parts ≤ most_workers) }
    ensures within { IfOk result (λ script. sum_by length script.parts ≤ most_command_lines) }
{
    let mut draft = Draft::new(alloc);
    let mut text = bytes;
    let mut number: u32 = 1;
    loop {
        let (line, rest) = cut_line(text);
        match rest {
            Some(rest) => {
                if let Err(fault) = draft.read(number, line) {
                    return Err(fault.on_line(number));
                }
                text = rest;
                number += 1;
            }
            None if line.is_empty() => return draft.finish(number),
            None => {
                let kind = Kind::Cut;
                return Err(ParseFault::Script(Fault { line: number, kind }));
            }
        }
    }
}
