// A flow of a run.
ghost use Rattle.std.specs.Prelude.{◌≡◌, ◌<◌, length, drop, true, false, IfOk, IfErr, IsOk, Some};
ghost use Rattle.zl_value.specs.Fraction.{IsReduced, sub};
ghost use Rattle.zl_value.specs.Order.{below};
ghost use Rattle.zl_value.specs.Times.{nought};
ghost use Rattle.zl_value.specs.Widths.{nowhere};
ghost use Rattle.zl_value.specs.declared.arith.Arith.TheVariants.{Range};
ghost use Rattle.zl_crossing.specs.FirstCrossing.{IsFirst};
ghost use Rattle.zl_crossing.specs.Courses.{IsLine};
ghost use Rattle.zl_machine.specs.declared.outcome.FlowOutcome.TheVariants.{Ready as FlowReady};
ghost use Rattle.zl_machine.specs.Calls.{site_line, flow_outcome, after_flow as machine_after_flow};
ghost use Rattle.zl_machine.specs.MachineForm.{has_instant, has_flow};
ghost use Rattle.zl_run.specs.Flowing.{lines_of, AreLines, move_test, HasGone, stop_of, HasFlowed, IsTooWide, FlowStops};

use crate::clock::after_flow;
use crate::stop::next_stop;
use crate::track::Track;
use zl_crossing::{First, first};
use zl_machine::{FlowOutcome, Machine, Outcome};
use zl_value::{Arith, Ending, Fault, Frac, Line, Mark, Pos, Script, Wide};

fn too_wide() -> Fault
    ensures { result ≡ (record { kind = Range; at = nowhere }) }
{
    Fault {
        kind: Arith::Range,
        at: Pos { line: 0, column: 0 },
    }
}

/// The line, whose numbers are in lowest terms.
fn kept(line: Line) -> Line
    ensures same { result ≡ line }
    ensures value { IsReduced line.value }
    ensures slope { IsReduced line.slope }
{
    let Line { value, slope } = line;
    let _ = (value.num(), slope.num());
    Line { value, slope }
}

fn line_at(machine: &Machine, k: usize) -> Option<Line>
    requires flows { has_flow machine.now.mode ≡ true }
    requires inside { k < length machine.now.code.sites }
    ensures line { result ≡ site_line machine.now k }
    ensures kept { IsLine (site_line machine.now k) }
{
    match machine.line(k) {
        Some(line) => Some(kept(line)),
        None => None,
    }
}

/// Notes of each site the line along which it moves.
fn note_lines(lines: &mut [Option<Line>], machine: &Machine)
    requires flows { has_flow machine.now.mode ≡ true }
    requires rooms { length lines.old ≡ length machine.now.code.sites }
    ensures lines { lines.new ≡ lines_of machine.now }
    ensures kept { AreLines machine.now (length machine.now.code.sites) }
{
    for k in 0..lines.len() {
        lines[k] = line_at(machine, k);
    }
}

/// Moves the machine for this long, and answers the time then.
fn go(time: Frac, duration: &Wide, machine: &mut Machine) -> Result<Frac, Fault>
    requires { has_flow machine.old.mode ≡ true }
    ensures went { IfOk result (λ then. HasGone time duration.now machine.old machine.new then) }
    ensures fails { IfErr result (λ fault. move_test machine.old time duration.now ≡ Some fault) }
{
    let by = match duration.narrow() {
        Some(by) => by,
        None => return Err(too_wide()),
    };
    let then = match time.add(by) {
        Ok(then) => then,
        Err(_) => return Err(too_wide()),
    };
    match machine.advance(by) {
        Ok(()) => Ok(then),
        Err(fault) => Err(fault),
    }
}

/// How long a flow from `time` lasts, before `stop` or to it.
#[tactic(auto, using(crate::proofs::FiringLemmas::not_before))]
fn lasts(lines: &mut [Option<Line>], stop: Frac, time: Frac, machine: &Machine) -> First
    requires flows { has_flow machine.now.mode ≡ true }
    requires rooms { length lines.old ≡ length machine.now.code.sites }
    requires later { below time stop ≡ true }
    ensures first { IsFirst (lines_of machine.now) (sub stop time) result }
    ensures kept { AreLines machine.now (length machine.now.code.sites) }
    ensures rooms { length lines.new ≡ length machine.now.code.sites }
{
    note_lines(lines, machine);
    first(lines, Wide::difference(stop, time))
}

/// Moves to the end of the flow.
fn go_on(track: &mut Track, script: &Script, machine: &mut Machine) -> Result<Outcome, Ending>
    requires flows { has_flow machine.old.mode ≡ true }
    requires rooms { length track.old.lines.items ≡ length machine.old.code.sites }
    requires later { below track.old.clock.time (stop_of script.now track.old) ≡ true }
    ensures flowed { IfOk result (λ outcome. HasFlowed script.now track.old track.new machine.old machine.new outcome) }
    ensures wide { IfErr result (λ ending. IsTooWide script.now track.old machine.old ending) }
{
    let time = track.clock.time;
    let stop = next_stop(script, track.next);
    let first = lasts(track.lines.as_mut_slice(), stop, time, machine);
    match go(time, &first.duration, machine) {
        Ok(then) => {
            track.clock = after_flow(&track.clock, then);
            Ok(machine.left())
        }
        Err(fault) => Err(Ending::Fault {
            fault,
            time,
            mark: Mark::Flow,
        }),
    }
}

/// Makes the flow after an instant, and its left end.
pub(crate) fn flow(
    track: &mut Track,
    script: &Script,
    machine: &mut Machine,
) -> Result<Outcome, Ending>
    requires ready { has_instant machine.old.mode ≡ true }
    requires rooms { length track.old.lines.items ≡ length machine.old.code.sites }
    requires later { below track.old.clock.time (stop_of script.now track.old) ≡ true }
    ensures flowed { IfOk result (λ outcome. HasFlowed script.now track.old track.new (machine_after_flow machine.old) machine.new outcome) }
    ensures ready { IsOk result → flow_outcome machine.old ≡ FlowReady }
    ensures stops { IfErr result (FlowStops script.now track.old machine.old) }
{
    match machine.flow() {
        FlowOutcome::Ready => go_on(track, script, machine),
        FlowOutcome::Empty => Err(Ending::Empty),
        FlowOutcome::Fault(fault) => Err(Ending::Fault {
            fault,
            time: track.clock.time,
            mark: Mark::Flow,
        }),
    }
}
