ghost use Rattle.std.specs.Prelude.{◌≡◌, map, string_bytes};
ghost use Rattle.zl_cli.specs.Report.{IsReport, check_call, run_call};
ghost use Rattle.zl_cli.specs.Steps.{TellsOrRunsOut, TellsStop, TellsRun};
ghost use Rattle.zl_cli.specs.Texts.{refusal_line as line_of_refusal};

use crate::command::{Command, command_of};
use crate::load::{Stop, load_checked, load_horizon, load_program};
use crate::status::Status;
use crate::tell::tell;
use crate::texts::{
    NO_MEMORY_LINE, OK_LINE, READ_FAULT_LINE, SCRIPT_LINE, USAGE_LINE, refusal_line,
};
use std::alloc::Global;
use zl_driver::{End, RunAnswer, run_thin};
use zl_outside::{Shelf, Sink};
use zl_value::{Frac, Pos, Rule, Thin};

/// Writes the refusal of a file.
fn refuse<K: Sink>(alloc: Global, rule: Rule, at: Pos, sink: &mut K) -> Status
    ensures { TellsOrRunsOut (K.stands_for sink.old) (K.stands_for sink.new) (K.faults sink.old) (K.faults sink.new) Status.RefusedFile (line_of_refusal rule at) result }
{
    match refusal_line(alloc, rule, at) {
        Ok(line) => tell(Status::RefusedFile, line.bytes(), sink),
        Err(_) => tell(Status::NoMemory, NO_MEMORY_LINE, sink),
    }
}

/// Runs a program and writes its trace.
fn run_program<K: Sink>(alloc: Global, thin: &Thin, horizon: Frac, sink: &mut K) -> Status
    ensures { TellsRun (K.stands_for sink.old) (K.stands_for sink.new) (K.faults sink.old) (K.faults sink.new) thin.now horizon result }
{
    match run_thin(alloc, thin, horizon, sink) {
        Ok(End::Horizon) => Status::Done,
        Ok(End::Fault(_, _)) => Status::ArithFault,
        Ok(End::Bound) => Status::Bound,
        Ok(End::Empty) => Status::Empty,
        Err(RunAnswer::WriteFault) => Status::WriteFault,
        Err(RunAnswer::Memory) => tell(Status::NoMemory, NO_MEMORY_LINE, sink),
    }
}

/// Writes why a file gave nothing to go on with.
fn stop<K: Sink>(alloc: Global, why: Stop, sink: &mut K) -> Status
    ensures { TellsStop (K.stands_for sink.old) (K.stands_for sink.new) (K.faults sink.old) (K.faults sink.new) why result }
{
    match why {
        Stop::Unread => tell(Status::ReadFault, READ_FAULT_LINE, sink),
        Stop::Refused { rule, at } => refuse(alloc, rule, at, sink),
        Stop::Memory => tell(Status::NoMemory, NO_MEMORY_LINE, sink),
    }
}

/// Checks a file: tries every rule.
fn check<S: Shelf, K: Sink>(alloc: Global, file: &str, shelf: &mut S, sink: &mut K) -> Status
    ensures told { S.told shelf.new ≡ S.told shelf.old }
    ensures report { IsReport (check_call (S.told shelf.old) (S.failed shelf.old) (S.failed shelf.new) file.now) (K.stands_for sink.old) (K.stands_for sink.new) (K.faults sink.old) (K.faults sink.new) result }
{
    match load_checked(alloc, file, shelf) {
        Ok(()) => tell(Status::Done, OK_LINE, sink),
        Err(why) => stop(alloc, why, sink),
    }
}

/// Runs the program of a file with a script.
fn run<S: Shelf, K: Sink>(
    alloc: Global,
    file: &str,
    script: &str,
    shelf: &mut S,
    sink: &mut K,
) -> Status
    ensures told { S.told shelf.new ≡ S.told shelf.old }
    ensures report { IsReport (run_call (S.told shelf.old) (S.failed shelf.old) (S.failed shelf.new) file.now script.now) (K.stands_for sink.old) (K.stands_for sink.new) (K.faults sink.old) (K.faults sink.new) result }
{
    let thin = match load_program(alloc, file, shelf) {
        Ok(thin) => thin,
        Err(why) => return stop(alloc, why, sink),
    };
    match load_horizon(alloc, script, shelf) {
        Ok(horizon) => run_program(alloc, &thin, horizon, sink),
        Err(
            Stop::Refused {
                rule: _rule,
                at: _at,
            },
        ) => tell(Status::RefusedScript, SCRIPT_LINE, sink),
        Err(Stop::Unread) => tell(Status::ReadFault, READ_FAULT_LINE, sink),
        Err(Stop::Memory) => tell(Status::NoMemory, NO_MEMORY_LINE, sink),
    }
}

/// The program: answers the words behind its name, reads the files that they name from `shelf`, and writes the report
/// to `sink`. `check FILE` says whether the file breaks a rule, and `run FILE SCRIPT` runs its program with the script, if it
/// breaks none and is of the form that is built; all other words get the usage line. The report and the statuses are this project's own.
pub fn zpc<S: Shelf, K: Sink>(
    alloc: Global,
    words: &[String],
    shelf: &mut S,
    sink: &mut K,
) -> Status
    ensures told { S.told shelf.new ≡ S.told shelf.old }
    ensures report { IsReport (record { words = map string_bytes words.now; told = S.told shelf.old; failed_before = S.failed shelf.old; failed_now = S.failed shelf.new }) (K.stands_for sink.old) (K.stands_for sink.new) (K.faults sink.old) (K.faults sink.new) result }
{
    match command_of(words) {
        Command::Check(file) => check(alloc, file, shelf, sink),
        Command::Run(file, script) => run(alloc, file, script, shelf, sink),
        Command::Other => tell(Status::Usage, USAGE_LINE, sink),
    }
}
