//! The text of a script whose sections are executed by workers, each on its own thread.
ghost use Rattle.std.specs.Prelude.{◌≡◌, ◌≤◌, ◌++◌, ◌∷◌, [], false, IfErr, IfOk, List, None, OnOk, length, map, sum_by};
ghost use Rattle.std.specs.List.{flat_map, list_any};
ghost use Rattle.strm_pool.specs.Config.{fault_of};
ghost use Rattle.strm_pool.specs.PoolValue.{opening_pool};
ghost use Rattle.strm_pool.specs.Registers.{entries_of};
ghost use Rattle.strm_pool.specs.declared.reply.Reply.{Reply};
ghost use Rattle.strm_shared.specs.Desks.{DeskValue, fresh_desks};
ghost use Rattle.strm_pool.specs.Limits.{most_workers};
ghost use Rattle.strm_shared.specs.Pairs.{pair_at};
ghost use Rattle.strm_shared.specs.Runs.{AllWorked};
ghost use Rattle.strm_shared.specs.Starts.{IsNameOf};
ghost use Rattle.strm_script.specs.declared.script.Script.{Script as ScriptValue};
ghost use Rattle.strm_script.specs.Limits.{most_command_lines};
ghost use Rattle.strm_script.specs.Text.{entry_text, report_text};
ghost use Rattle.strm_run.specs.Holding.{AreHeldAlike, IsIdle};
ghost use Rattle.strm_run.specs.Outcome.{IsTextAsServed, IsTextOf};
ghost use Rattle.strm_run.specs.Told.{TellsNewFault, is_not_started};
ghost use Rattle.strm_run.specs.Working.{IsServedUnder};
ghost use Rattle.strm_run.specs.declared.runs.Mode.TheVariants.{Workers};

use crate::output::{lines_in, room_for};
use std::alloc::{AllocError, Global};
use std::sync::Wait;
use std::thread::Threads;
use strm_pool::{NewFault, Pool};
use strm_script::{Script, reply_text, report_text};
use strm_shared::{
    BareOutcome, Brand, Desks, End, Entry, Gate, Gathered, Name, Parts, Setup, Shared, SpentDesks,
    Start, Trace, run_workers_without_replies,
};

/// The text of a script, and the desks of the workers that executed it, in order; in serial mode there are none. The desks are
/// spent, and contracts see what they were served.
#[derive(Drop)]
pub struct ServedText {
    pub text: Vec<u8>,
    pub desks: SpentDesks,
}

// Whether there was no thread for one of the workers.
fn lacks_thread(ends: &[End]) -> bool
    ensures { result ≡ list_any is_not_started ends.now }
{
    ends.iter().any(|end| matches!(end, End::NotStarted))
}

// Appends a line for each entry of a trace, in its order.
fn trace_text(text: &mut Vec<u8>, trace: &[Entry]) -> Result<(), AllocError>
    ensures { OnOk result (text.new.items ≡ text.old.items ++ flat_map entry_text trace.now) }
{
    for entry in trace {
        reply_text(text, entry.desk, entry.line, &entry.reply)?;
    }
    Ok(())
}

// A line for each entry of a trace, and then the report of the pool.
fn whole_text(alloc: Global, pool: &Pool, trace: &[Entry]) -> Result<Vec<u8>, AllocError>
    ensures { IfOk result (λ text. text.items ≡ flat_map entry_text trace.now ++ report_text pool.now) }
{
    let mut text = Vec::with_capacity(alloc, room_for(trace.len()))?;
    trace_text(&mut text, trace)?;
    report_text(&mut text, pool)?;
    Ok(text)
}

// Such a text, if each worker had a thread; otherwise the fault is out of memory.
fn text_of_trace(
    alloc: Global,
    ends: &[End],
    pool: &Pool,
    trace: &[Entry],
) -> Result<Vec<u8>, AllocError>
    ensures { IfOk result (λ text. (list_any is_not_started ends.now ≡ false)
        × (text.items ≡ flat_map entry_text trace.now ++ report_text pool.now)) }
{
    if lacks_thread(ends) {
        return Err(AllocError);
    }
    whole_text(alloc, pool, trace)
}

// Frees the messages of the desks' registers, and spends the desks.
fn drain<N: Name>(pool: &mut Pool, desks: Desks<N>) -> SpentDesks
    requires { pool.old.arena.id ≡ N.opened.arena.id }
    ensures alike { AreHeldAlike pool.old (map (λ (d : DeskValue). entries_of d.regs) desks) pool.new [] }
    ensures spent { result ≡ map (λ (d : DeskValue). d.served) desks }
{
    let mut desks = desks;
    let mut spent = SpentDesks::new();
    for _ in 0..desks.len() {
        let desk = desks.take_last();
        desk.lawful();
        pool.drain(spent.spend(desk));
    }
    desks.end();
    spent
}

// The text of a script whose sections these workers had served, in the order in which the lines were served; their desks, which
// are spent; and the pool, in which no message is held then.
fn text_of_outcome<N: Name>(
    alloc: Global,
    shared: Shared<N>,
    parts: &Parts,
    outcome: BareOutcome<N>,
) -> (Result<Vec<u8>, AllocError>, SpentDesks, Pool)
    requires under { IsServedUnder N.Name parts.now }
    requires worked { (all : List (List Reply)) × AllWorked N.Name parts.now
        (fresh_desks N.desks (pair_at N.first N.opened ∷ [])) outcome.ends all outcome.desks }
    ensures text { IfOk result.0 (λ text. (script : ScriptValue) → script.parts ≡ parts.now
        → N.opened ≡ opening_pool script.config → IsTextOf Workers script text.items) }
    ensures ordered { IfOk result.0 (λ text. (script : ScriptValue) → script.parts ≡ parts.now
        → N.opened ≡ opening_pool script.config → IsTextAsServed script N.first result.1 text.items) }
    ensures spent { result.1 ≡ map (λ (d : DeskValue). d.served) outcome.desks }
    ensures freed { IsIdle result.2 }
{
    let _ = parts;
    let BareOutcome { desks, ends } = outcome;
    match shared.gather(desks) {
        Ok(
            Gathered {
                mut pool,
                trace,
                desks,
            },
        ) => {
            let text = text_of_trace(alloc, ends.items(), &pool, trace.items());
            let desks = drain(&mut pool, desks);
            (text, desks, pool)
        }
        Err(_) => unreachable!(),
    }
}

// Shares the pool under this name, runs the workers on these sections, and returns the text and the desks.
fn shared_text<N: Name + Send + Sync, R: Threads + Wait + Sync, G: Gate>(
    rt: &R,
    alloc: Global,
    gate: &G,
    start: Start,
    parts: &Parts,
) -> Result<ServedText, AllocError>
    requires name { IsNameOf N.Name start }
    requires under { IsServedUnder N.Name parts.now }
    ensures text { IfOk result (λ served. (script : ScriptValue) → script.parts ≡ parts.now
        → N.opened ≡ opening_pool script.config → IsTextOf Workers script served.text.items) }
    ensures ordered { IfOk result (λ served. (script : ScriptValue) → script.parts ≡ parts.now
        → N.opened ≡ opening_pool script.config → IsTextAsServed script N.first served.desks served.text.items) }
{
    let (shared, desks) = start.open::<N>();
    match run_workers_without_replies(rt, alloc, &shared, desks, parts, gate) {
        Ok(outcome) => {
            let (text, desks, _) = text_of_outcome(alloc, shared, parts, outcome);
            Ok(ServedText { text: text?, desks })
        }
        Err((error, desks)) => {
            desks.forget();
            Err(error)
        }
    }
}

/// Returns the text of a script, each of whose sections is executed by a worker on its own thread, and the workers' desks. The
/// lines of the text are in the order in which the desks were served. Fails with the first fault of the configuration, or as
/// `Memory`, also if a worker has no thread.
pub fn workers_text<R: Threads + Wait + Sync, G: Gate>(
    rt: &R,
    alloc: Global,
    gate: &G,
    script: Script,
) -> Result<ServedText, NewFault>
    requires some { 1 ≤ length script.parts }
    requires few { length script.parts ≤ most_workers }
    requires within { sum_by length script.parts ≤ most_command_lines }
    ensures text { IfOk result (λ served. IsTextOf Workers script served.text.items) }
    ensures ordered { IfOk result (λ served. IsTextAsServed script 0 served.desks served.text.items) }
    ensures lawful { OnOk result (fault_of script.config ≡ None) }
    ensures refused { IfErr result (λ fault. TellsNewFault fault (fault_of script.config)) }
{
    let Script { config, parts } = script;
    let pool = Pool::new(alloc, config)?;
    let setup = Setup {
        desks: parts.items().len() as u8,
        trace: Trace::Keep(lines_in(parts.items()).max(1)),
        first_stamp: 0,
    };
    match Start::new(alloc, pool, setup) {
        Ok(start) => match shared_text::<Brand, R, G>(rt, alloc, gate, start, &parts) {
            Ok(served) => Ok(served),
            Err(_) => Err(NewFault::Memory),
        },
        Err((fault, _)) => Err(fault),
    }
}
