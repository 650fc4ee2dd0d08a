// What the script asks for next.
ghost use Rattle.std.specs.Prelude.{◌≡◌, ◌<◌, length, drop, is_some, Some, None, MatchOption, IfSome};
ghost use Rattle.zl_value.specs.Times.{is_same};
ghost use Rattle.zl_run.specs.Stopping.{due_in, stop_in, as_next, next_by};

use crate::clock::Clock;
use zl_value::{Ending, Frac, Mark, Script, ScriptLine};

fn same_time(a: Frac, b: Frac) -> bool
    ensures { result ≡ is_same a b }
{
    a.num() <= b.num() && b.num() <= a.num() && a.den() == b.den()
}

/// The script line of this time, where the lines before `next` are passed.
#[tactic(auto, using(crate::proofs::StopLemmas::drop_at))]
pub(crate) fn due(script: &Script, next: usize, time: Frac) -> Option<&ScriptLine>
    ensures line { MatchOption result (due_in (drop next script.now.lines) time ≡ None) (λ line. due_in (drop next script.now.lines) time ≡ Some line.now) }
    ensures inside { IfSome result (λ line. next < length script.now.lines) }
    ensures small { IfSome result (λ line. next < 18446744073709551615) }
{
    match script.lines.as_slice().get(next) {
        Some(line) if same_time(line.time, time) => Some(line),
        _ => None,
    }
}

/// A script line of this time stands, where the lines before `next` are passed.
pub(crate) fn is_due(script: &Script, next: usize, time: Frac) -> bool
    ensures { result ≡ is_some (due_in (drop next script.now.lines) time) }
{
    due(script, next, time).is_some()
}

/// The next time at which no flow goes on.
pub(crate) fn next_stop(script: &Script, next: usize) -> Frac
    ensures { result ≡ stop_in script.now (drop next script.now.lines) }
{
    match script.lines.as_slice().get(next) {
        Some(line) => line.time,
        None => script.horizon,
    }
}

/// What follows an instant.
#[derive(Clone, Copy, Debug)]
pub(crate) enum Move {
    End(Ending),
    Step,
    Flow,
}

/// What follows an instant without a fault, after which a step is demanded or not.
pub(crate) fn decide(script: &Script, clock: &Clock, demanded: bool) -> Move
    ensures { as_next result ≡ next_by script.now clock.now.time demanded clock.now.made }
{
    if demanded {
        if clock.made == script.steps {
            return Move::End(Ending::Bound);
        }
        return Move::Step;
    }
    if same_time(clock.time, script.horizon) {
        return Move::End(Ending::Horizon);
    }
    Move::Flow
}
