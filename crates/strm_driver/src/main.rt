//! The program `strm`: reads a script from standard input, and writes its transcript and report to standard output.
#![tactic(auto)]

ghost use Rattle.std.specs.Prelude.{◌≡◌, ◌≤◌};
ghost use Rattle.std.specs.Process.{exit_status};
ghost use Rattle.strm_script.specs.Limits.{most_script_bytes};
ghost use Rattle.strm_run.specs.Told.{status_of};

mod words;

use clap::error::ErrorKind;
use std::process::ExitCode;
use std::rt::Env;
use std::sync::Wait;
use std::thread::Threads;
use std::{env, io};
use strm_run::{RunFault, Watched, run};
use strm_shared::OpenGate;
use words::{Options, options_of};

// The exit status after a bad command line.
const USAGE: u8 = 64;

// Writes the fault to standard error. If that fails, nothing more can be reported.
fn failed(rt: &impl Eprint, fault: RunFault) -> ExitCode
    ensures { exit_status result ≡ status_of fault }
{
    let _ = eprintln!(rt; "strm: {fault}");
    ExitCode::from(fault.status())
}

// Shows the help, the version, or what is wrong with the command line.
fn answered(rt: &(impl Print + Eprint), error: &clap::Error) -> ExitCode {
    if error.kind() == ErrorKind::OutOfMemory {
        return failed(rt, RunFault::Memory);
    }
    let shown = error.print(rt);
    if error.use_stderr() {
        return ExitCode::from(USAGE);
    }
    match shown {
        Ok(()) => ExitCode::SUCCESS,
        Err(_) => failed(rt, RunFault::Write),
    }
}

// Runs the script on standard input. The status is 0 to 3: no run ends as `Refused`.
fn served(
    rt: &(impl AllocGlobal + Input + Print + Eprint + Threads + Wait + Sync),
    options: Options,
) -> ExitCode
    requires least { 1 ≤ options.max }
    requires most { options.max ≤ most_script_bytes }
    ensures { exit_status result ≤ 3 }
{
    let mut reader = Watched::new(rt.reader());
    let mut writer = Watched::new(io::writer(rt));
    match run(
        rt,
        options.mode,
        options.max,
        &OpenGate,
        &mut reader,
        &mut writer,
    ) {
        Ok(()) => ExitCode::SUCCESS,
        Err(fault) => failed(rt, fault),
    }
}

// The words of the command line.
fn arguments(rt: &(impl AllocGlobal + Env)) -> io::Result<Vec<String>> {
    Ok(env::args(rt)?.collect(rt.alloc())?)
}

// Reports why the words could not be read: out of memory, or a word is not UTF-8.
fn unread(rt: &impl Eprint, error: &io::Error) -> ExitCode {
    if error.kind() == io::ErrorKind::OutOfMemory {
        return failed(rt, RunFault::Memory);
    }
    let _ = eprintln!(rt; "error: invalid UTF-8 was detected in one or more arguments");
    ExitCode::from(USAGE)
}

fn main(rt: HostRuntime) -> ExitCode {
    match arguments(&rt) {
        Ok(words) => match options_of(rt.alloc(), &words) {
            Ok(options) => served(&rt, options),
            Err(error) => answered(&rt, &error),
        },
        Err(error) => unread(&rt, &error),
    }
}
