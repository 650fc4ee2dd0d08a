// The run of a code, instant by instant.
ghost use Rattle.std.specs.Prelude.{◌≡◌, true, map};
ghost use Rattle.zl_value.specs.Script.{IsScriptFor};
ghost use Rattle.zl_machine.specs.Calls.{made};
ghost use Rattle.zl_machine.specs.MachineForm.{has_instant};
ghost use Rattle.zl_lines.specs.RoomForm.{IsRoomFor};
ghost use Rattle.zl_run.specs.Answers.{Runs};
ghost use Rattle.zl_run.specs.Stopping.{as_next, next_by};
ghost use Rattle.zl_run.specs.Standing.{HaveRooms};
ghost use Rattle.zl_run.specs.Driving.{IsAnswered, HasNoted, is_demanded, CanFollow, Followed};

use crate::begin::step;
use crate::clock::Clock;
use crate::firing::{has_any, note_below, note_firings};
use crate::flowing::flow;
use crate::put::{put_ending, put_instant};
use crate::stop::{Move, decide, is_due};
use crate::track::{Track, new_track};
use crate::{End, RunAnswer};
use std::alloc::Global;
use zl_code::Code;
use zl_lines::LineRoom;
use zl_machine::{Machine, Outcome};
use zl_outside::Sink;
use zl_value::{Ending, Mark, Script};

/// Whether an instant that is ready demands a further step; or how the run ends with it.
fn ready(outcome: Outcome, clock: &Clock) -> Result<bool, Ending>
    ensures { IsAnswered outcome clock.now result }
{
    match outcome {
        Outcome::Ready { again } => Ok(again),
        Outcome::Empty => Err(Ending::Empty),
        Outcome::Fault(fault) => Err(Ending::Fault {
            fault,
            time: clock.time,
            mark: clock.mark,
        }),
    }
}

/// What follows an instant that is ready.
fn what_follows(track: &mut Track, again: bool, script: &Script, machine: &Machine) -> Move
    requires ready { has_instant machine.now.mode ≡ true }
    requires rooms { HaveRooms machine.now.code track.old }
    ensures noted { HasNoted track.old track.new machine.now }
    ensures decided { as_next result ≡ next_by script.now track.old.clock.time (is_demanded script.now track.old again machine.now) track.old.clock.made }
{
    note_firings(track.below.as_slice(), track.events.as_mut_slice(), machine);
    note_below(track.below.as_mut_slice(), machine);
    let demanded = has_any(track.events.as_slice())
        || again
        || is_due(script, track.next, track.clock.time);
    decide(script, &track.clock, demanded)
}

/// Makes the instant that follows, or answers how the run ends.
fn follow(
    track: &mut Track,
    again: bool,
    script: &Script,
    machine: &mut Machine,
) -> Result<Outcome, Ending>
    requires ready { has_instant machine.old.mode ≡ true }
    requires can { CanFollow script.now track.old machine.old }
    ensures { Followed script.now track.old track.new machine.old machine.new again result }
{
    match what_follows(track, again, script, machine) {
        Move::End(ending) => Err(ending),
        Move::Step => Ok(step(track, script, machine)),
        Move::Flow => flow(track, script, machine),
    }
}

/// Runs a code with a script, and puts the lines of its trace, one put each.
pub fn run<K: Sink>(
    alloc: Global,
    machine: &mut Machine,
    code: &Code,
    script: &Script,
    line: &mut LineRoom,
    sink: &mut K,
) -> Result<End, RunAnswer>
    requires machine { machine.old ≡ made code.now }
    requires script { IsScriptFor (map (λ input. input.ty) code.now.ins) script.now }
    requires room { IsRoomFor code.now line.old }
    ensures { Runs code.now script.now (K.stands_for sink.old) (K.stands_for sink.new) (K.faults sink.old) (K.faults sink.new) machine.new result }
{
    let mut track = new_track(alloc, code)?;
    let mut outcome = step(&mut track, script, machine);
    loop {
        let again = match ready(outcome, &track.clock) {
            Ok(again) => again,
            Err(ending) => return put_ending(ending, line, sink),
        };
        put_instant(&track.clock, machine, line, sink)?;
        outcome = match follow(&mut track, again, script, machine) {
            Ok(outcome) => outcome,
            Err(ending) => return put_ending(ending, line, sink),
        };
    }
}
