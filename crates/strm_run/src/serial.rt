//! The text of a script whose sections are executed one after another on one thread.
ghost use Rattle.std.specs.Prelude.{◌≡◌, ◌≤◌, ◌+◌, ◌++◌, ◌∷◌, [], List, length, sum_by, OnOk, IfOk, IfErr, IsTrue, None};
ghost use Rattle.strm_pool.specs.Config.{fault_of};
ghost use Rattle.strm_pool.specs.PoolValue.{owns};
ghost use Rattle.strm_pool.specs.Registers.{RegisterTable, table_of, entries_of, AreDistinct};
ghost use Rattle.strm_pool.specs.Step.{empty_tables};
ghost use Rattle.strm_pool.specs.Limits.{most_workers};
ghost use Rattle.strm_script.specs.Limits.{most_command_lines};
ghost use Rattle.strm_script.specs.Merge.{Served, by_worker, serial_from};
ghost use Rattle.strm_script.specs.Text.{text_from};
ghost use Rattle.strm_run.specs.Holding.{AreHeldAlike};
ghost use Rattle.strm_run.specs.Outcome.{IsSerialText};
ghost use Rattle.strm_run.specs.Told.{TellsNewFault};

use crate::output::{lines_in, room_for};
use std::alloc::{AllocError, Global};
use strm_pool::{NewFault, Pool, Regs, Reply};
use strm_script::{Script, reply_text, report_text};
use strm_shared::{Line, Lines};

// Executes a worker's lines on its own registers, and appends the transcript.
fn serve(
    pool: &mut Pool,
    regs: &mut Regs,
    worker: u8,
    lines: &[Line],
    text: &mut Vec<u8>,
) -> Result<(), AllocError>
    requires owned { IsTrue (owns pool.old regs.old) }
    requires distinct { AreDistinct (table_of regs.old) }
    ensures text { OnOk result ((before behind : List RegisterTable) (later : List Served) → length before ≡ worker
        → text.new.items ++ text_from pool.new (before ++ table_of regs.new ∷ behind) later
        ≡ text.old.items ++ text_from pool.old (before ++ table_of regs.old ∷ behind)
        (by_worker worker lines.now ++ later)) }
    ensures owned { IsTrue (owns pool.new regs.new) }
    ensures held { AreHeldAlike pool.old (entries_of regs.old ∷ []) pool.new (entries_of regs.new ∷ []) }
{
    for line in lines {
        let mut reply = Reply::Done;
        pool.apply_into(regs, &line.call, &mut reply);
        reply_text(text, worker, line.number, &reply)?;
    }
    Ok(())
}

// Executes the sections of a worker and of all later ones, in order, and appends the transcript and the report. Then the
// registers' messages are freed.
fn serve_parts(
    pool: &mut Pool,
    worker: u8,
    parts: &[Lines],
    text: &mut Vec<u8>,
) -> Result<(), AllocError>
    requires { worker + length parts.now ≤ most_workers }
    ensures text { OnOk result ((before : List RegisterTable) → length before ≡ worker
        → text.new.items ≡ text.old.items
        ++ text_from pool.old (before ++ empty_tables (length parts.now)) (serial_from worker parts.now)) }
    ensures freed { AreHeldAlike pool.old [] pool.new [] }
{
    let [lines, others @ ..] = parts else {
        return report_text(text, pool);
    };
    let mut regs = Regs::new();
    let served = match serve(pool, &mut regs, worker, lines.items(), text) {
        Ok(()) => serve_parts(pool, worker + 1, others, text),
        Err(refused) => Err(refused),
    };
    pool.drain(regs);
    served
}

/// Returns the text of a script, all of whose lines are executed on one thread, worker 0's first. Fails with the first fault of
/// the configuration, or as `Memory`.
pub fn serial_text(alloc: Global, script: Script) -> Result<Vec<u8>, NewFault>
    requires few { length script.parts ≤ most_workers }
    requires within { sum_by length script.parts ≤ most_command_lines }
    ensures text { IfOk result (λ text. IsSerialText script text.items) }
    ensures lawful { OnOk result (fault_of script.config ≡ None) }
    ensures refused { IfErr result (λ fault. TellsNewFault fault (fault_of script.config)) }
{
    let Script { config, parts } = script;
    let sections = parts.items();
    let mut pool = Pool::new(alloc, config)?;
    let Ok(mut text) = Vec::with_capacity(alloc, room_for(lines_in(sections) as usize)) else {
        return Err(NewFault::Memory);
    };
    match serve_parts(&mut pool, 0, sections, &mut text) {
        Ok(()) => Ok(text),
        Err(_) => Err(NewFault::Memory),
    }
}
