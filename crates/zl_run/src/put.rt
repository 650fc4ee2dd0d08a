// The lines of a run, one put each.
ghost use Rattle.std.specs.Prelude.{◌≡◌, true, IfOk};
ghost use Rattle.zl_value.specs.Lines.{instant_line, ending_line};
ghost use Rattle.zl_machine.specs.MachineForm.{has_instant};
ghost use Rattle.zl_lines.specs.RoomForm.{IsRoomFor, shown_by};
ghost use Rattle.zl_run.specs.Answers.{end_of as end_for};
ghost use Rattle.zl_run.specs.Putting.{IsPut};

use crate::clock::Clock;
use crate::end::{End, RunAnswer, end_of};
use zl_lines::LineRoom;
use zl_machine::Machine;
use zl_outside::Sink;
use zl_value::Ending;

fn put<K: Sink>(line: &LineRoom, sink: &mut K) -> Result<(), RunAnswer>
    ensures { IsPut (K.stands_for sink.old) (K.stands_for sink.new) (K.faults sink.old) (K.faults sink.new) line.now.line result }
{
    match sink.put(line.line()) {
        Ok(()) => Ok(()),
        Err(_) => Err(RunAnswer::WriteFault),
    }
}

/// Puts the line of an instant.
pub(crate) fn put_instant<K: Sink>(
    clock: &Clock,
    machine: &Machine,
    line: &mut LineRoom,
    sink: &mut K,
) -> Result<(), RunAnswer>
    requires room { IsRoomFor machine.now.code line.old }
    requires ready { has_instant machine.now.mode ≡ true }
    ensures put { IsPut (K.stands_for sink.old) (K.stands_for sink.new) (K.faults sink.old) (K.faults sink.new)
        (instant_line clock.now.time clock.now.mark (shown_by machine.now)) result }
    ensures names { line.new.names ≡ line.old.names }
{
    line.write_instant(clock.time, clock.mark, machine)?;
    put(line, sink)
}

/// Puts the last line, and answers the end.
pub(crate) fn put_ending<K: Sink>(
    ending: Ending,
    line: &mut LineRoom,
    sink: &mut K,
) -> Result<End, RunAnswer>
    ensures put { IsPut (K.stands_for sink.old) (K.stands_for sink.new) (K.faults sink.old) (K.faults sink.new) (ending_line ending) result }
    ensures end { IfOk result (λ end. end ≡ end_for ending) }
{
    let end = end_of(&ending);
    line.write_ending(ending)?;
    put(line, sink)?;
    Ok(end)
}
