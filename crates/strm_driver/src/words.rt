//! The words of the command line, as options.
ghost use Rattle.std.specs.Prelude.{◌≤◌, IfOk};
ghost use Rattle.strm_script.specs.Limits.{most_script_bytes};

use clap::{Arg, ArgAction, Command, Error, value_parser};
use std::alloc::Global;
use strm_run::Mode;
use strm_script::MOST_SCRIPT_BYTES;

// The greatest number of bytes of the input, if no word says otherwise.
const DEFAULT_MAX: u32 = 1_048_576;

// The usage, also after a refused word: no word names the script.
const USAGE_TEXT: &str = "\
strm [OPTIONS] <SCRIPT

The script comes from standard input: strm <mine.strm";

// The version, as the file VERSION has it.
const VERSION: &str = "0.12.0";

// What the help says after the options.
const AFTER_OPTIONS: &str = "\
SCRIPT has these lines, in this order:
  pool ID MBLKS                   once: any id, the number of message blocks
  class SIZE COUNT                1 to 8 times: COUNT data blocks of SIZE bytes
  queue HIWAT LOWAT SERVICE NEXT  1 to 16 times: water marks, s or n, next or -
  bufcalls WISHES ID              once: wishes that may wait, and the first id
  worker                          1 to 16 times: a thread; its commands follow

Example:
  $ printf '%s\\n' 'pool 1 8' 'class 16 4' 'queue 10 4 s -' 'bufcalls 0 1' \\
      worker 'allocb a 3' 'write a 0 616263' 'putq 0 a' | strm
  0:6 ok
  0:7 ok
  0:8 ok
  blocks free=7 queued=1 held=0 total=8
  data size=16 free=3 total=4
  queue 0 msgs=1 bytes=3 read=1 noenable=0 enabled=1
  band 0 bytes=3 full=0 wanted=0
  run 0
  wishes -

Exit status:
  0   done, or help or the version was asked for
  1   reading or writing failed, or SCRIPT has more than N bytes
  2   SCRIPT has a fault; strm-check SCRIPT says where, and why
  3   out of memory, or of threads for workers
  4   the shared pool refused a command; this never happens
  64  the options are wrong

The manual strm(1) explains commands, replies, the report and all faults.";

/// What the command line asks for.
#[derive(Clone, Copy, Debug, PartialEq, Eq)]
pub struct Options {
    /// How the lines of a script are executed.
    pub mode: Mode,
    /// The greatest number of bytes of the input.
    pub max: u32,
}

/// Returns the options of a command line, whose first word is the program's name. The error is a mistake in the words, a
/// request for help or the version, or out of memory.
pub fn options_of(alloc: Global, words: &[String]) -> Result<Options, Error>
    ensures { IfOk result (λ options. (1 ≤ options.max) × (options.max ≤ most_script_bytes)) }
{
    let serial = Arg::new(alloc, "serial")
        .long("serial")
        .help("Execute the sections one after another, on one thread")
        .action(ArgAction::SetTrue);
    let max = Arg::new(alloc, "max")
        .long("max")
        .value_name("N")
        .help("Read at most N bytes, 1 to 16777216 [default: 1048576]")
        .value_parser(value_parser!(u32).range(1..=i64::from(MOST_SCRIPT_BYTES)));
    let command = Command::new(alloc, "strm")
        .bin_name("strm")?
        .version(VERSION)
        .about("Executes a script of STREAMS calls from standard input, and prints each reply")
        .override_usage(USAGE_TEXT)
        .after_help(AFTER_OPTIONS)
        .arg(serial)?
        .arg(max)?;
    let matches = command.try_get_matches_from(words)?;
    let mode = if matches.get_flag("serial") {
        Mode::Serial
    } else {
        Mode::Workers
    };
    let max = matches.get_one("max").unwrap_or(DEFAULT_MAX);
    Ok(Options {
        mode,
        // This changes nothing: the parser of `--max` has refused every other number.
        max: max.clamp(1, MOST_SCRIPT_BYTES),
    })
}
