// A step of a run.
ghost use Rattle.std.specs.Prelude.{◌≡◌, ◌<◌, length, drop, true};
ghost use Rattle.zl_machine.specs.MachineForm.{goes_on};
ghost use Rattle.zl_run.specs.Stepping.{HasStepped};
ghost use Rattle.std.specs.List.{AllByRecursion};
ghost use Rattle.zl_run.specs.Inputs.{set_all, AreWithin};
ghost use Rattle.zl_run.specs.Stopping.{due_in, one_more_if, sets_in};

use crate::clock::after_step;
use crate::inputs::set_inputs;
use crate::stop::due;
use crate::track::Track;
use zl_machine::{Machine, Outcome};
use zl_value::{Frac, Script, Value};

/// Gives the inputs the values of the script line of this time, if no step took it, and answers how many lines are
/// passed then.
fn take_line(inputs: &mut [Value], script: &Script, next: usize, time: Frac) -> usize
    requires { AllByRecursion (AreWithin (length inputs.old)) script.now.lines }
    ensures next { result ≡ one_more_if next (due_in (drop next script.now.lines) time) }
    ensures inputs { inputs.new ≡ set_all (sets_in (due_in (drop next script.now.lines) time)) inputs.old }
{
    match due(script, next, time) {
        Some(line) => {
            set_inputs(inputs, line.sets.as_slice());
            next + 1
        }
        None => next,
    }
}

#[tactic(auto, using(crate::proofs::StepLemmas::step_after))]
/// Makes the next step, at the same time. It takes the script line of this time, if no step took it.
pub(crate) fn step(track: &mut Track, script: &Script, machine: &mut Machine) -> Outcome
    requires going { goes_on machine.old.mode ≡ true }
    requires inputs { length track.old.inputs.items ≡ length machine.old.code.ins }
    requires sets { AllByRecursion (AreWithin (length track.old.inputs.items)) script.now.lines }
    requires made { track.old.clock.made < 4294967295 }
    requires here { track.old.clock.here < 4294967295 }
    ensures stepped { HasStepped script.now track.old track.new machine.old machine.new result }
{
    track.next = take_line(
        track.inputs.as_mut_slice(),
        script,
        track.next,
        track.clock.time,
    );
    track.clock = after_step(&track.clock);
    machine.step(track.events.as_slice(), track.inputs.as_slice())
}
