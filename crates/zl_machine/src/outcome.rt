ghost use Rattle.std.specs.Prelude.{◌≡◌, length};
ghost use Rattle.std.specs.Option.{option_map};
ghost use Rattle.zl_value.specs.Instants.{Step, Left};
ghost use Rattle.zl_code.specs.declared.stmt.Found.{Found};
ghost use Rattle.zl_code.specs.System.{lacks, flow_lacks};
ghost use Rattle.zl_machine.specs.Calls.{outcome_by, mode_after, flow_outcome_by, flow_mode_after};

use crate::cells::read;
use crate::lacking::{lacks_fresh, lacks_outputs, lacks_rate, lacks_slopes};
use crate::mode::Mode;
use crate::operator::truth_of;
use zl_code::{Code, Found};
use zl_value::{Fault, Frac, Value};

/// What a step or a left end comes to.
#[derive(Clone, Copy, Debug, PartialEq, Eq)]
pub enum Outcome {
    /// All that is asked for has a value; `again` demands a further step at the same time, and is false at a left end.
    Ready { again: bool },
    /// An operator without a result; of several, the one of least number in the code.
    Fault(Fault),
    /// Nothing is in a register that has to hold a value.
    Empty,
}

/// What a flow comes to.
#[derive(Clone, Copy, Debug, PartialEq, Eq)]
pub enum FlowOutcome {
    Ready,
    Fault(Fault),
    Empty,
}

/// A site after an instant. `fresh` is false where the site has no value.
#[derive(Clone, Copy, Debug, PartialEq, Eq)]
pub struct SiteView {
    pub value: Option<Frac>,
    pub fresh: bool,
}

/// What a step comes to.
pub(crate) fn after_step(code: &Code, found: Option<Found>, regs: &[Option<Value>]) -> Outcome
    ensures { result ≡ outcome_by code.now Step regs.now (option_map (λ (f : Found). f.fault) found) (lacks code.now Step regs.now) }
{
    if let Some(found) = found {
        return Outcome::Fault(found.fault);
    }
    if lacks_outputs(code.outs.as_slice(), regs) || lacks_fresh(code.sites.as_slice(), regs) {
        return Outcome::Empty;
    }
    match read(regs, code.again) {
        Some(again) => Outcome::Ready {
            again: truth_of(Some(again)),
        },
        None => Outcome::Empty,
    }
}

/// What a left end comes to.
pub(crate) fn after_left(code: &Code, found: Option<Found>, regs: &[Option<Value>]) -> Outcome
    ensures { result ≡ outcome_by code.now Left regs.now (option_map (λ (f : Found). f.fault) found) (lacks code.now Left regs.now) }
{
    if let Some(found) = found {
        return Outcome::Fault(found.fault);
    }
    if lacks_outputs(code.outs.as_slice(), regs) || lacks_fresh(code.sites.as_slice(), regs) {
        return Outcome::Empty;
    }
    Outcome::Ready { again: false }
}

/// What a flow comes to.
pub(crate) fn in_flow(
    code: &Code,
    found: Option<Found>,
    regs: &[Option<Value>],
    mems: &[Option<Value>],
    rates: &[Option<Value>],
) -> FlowOutcome
    requires { length mems.now ≡ length code.now.mems }
    ensures { result ≡ flow_outcome_by (option_map (λ (f : Found). f.fault) found) (flow_lacks code.now regs.now mems.now rates.now) }
{
    if let Some(found) = found {
        return FlowOutcome::Fault(found.fault);
    }
    let lacking = lacks_rate(code.sites.as_slice(), regs, rates)
        || lacks_slopes(code.mems.as_slice(), mems, rates);
    if lacking {
        FlowOutcome::Empty
    } else {
        FlowOutcome::Ready
    }
}

pub(crate) fn mode_of(outcome: Outcome) -> Mode
    ensures { result ≡ mode_after outcome }
{
    match outcome {
        Outcome::Ready { .. } => Mode::Stands,
        _ => Mode::Over,
    }
}

pub(crate) fn flow_mode_of(outcome: FlowOutcome) -> Mode
    ensures { result ≡ flow_mode_after outcome }
{
    match outcome {
        FlowOutcome::Ready => Mode::Flows,
        _ => Mode::Over,
    }
}
